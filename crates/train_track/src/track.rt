//! Tracks.
ghost use Rattle.std.specs.Prelude.{◌≡◌, ◌↔◌, List, map, IsTrue, IfOk, IfErr};
ghost use Rattle.tri_atlas.specs.Arena.{triangulation, IsTriIn};
ghost use Rattle.edge_coords.specs.Coordinates.{AreCoordinatesIn};
ghost use Rattle.free_groupoid.specs.Walks.{IsWalkOn};
ghost use Rattle.train_track.specs.Tracks.{ArePlaced, IsLegal};
ghost use Rattle.train_track.specs.Branches.{IsTrackIn, words_of};
ghost use Rattle.train_track.specs.Passes.{Pass, ArePassesOf, CanBeCut};
ghost use Rattle.train_track.specs.inside.Passing.{CanBeCutInto};
ghost use Rattle.train_track.specs.Refusals.{IsNotFilling, IsRefusedFor, free_corners};

use crate::branches::{branch_law, branches};
use crate::corners::{first_closed, first_misplaced, first_with_two, free_corners};
use crate::legal::{is_legal, switches};
use crate::passes::passes;
use edge_coords::Coords;
use free_groupoid::Walk;
use ideal_tri::{Label, Memory, label_laws, surface_laws};
use std::alloc::{AllocError, Global};
use std::marker::Model;
use tri_atlas::{Atlas, TriId};

/// A filling track on a triangulation of an atlas (after Penner and Harer): it leaves out some
/// corners of triangles, at most one in each triangle and at least one at each vertex, and joins
/// the two sides at every other corner.
#[derive(Debug, Drop)]
pub struct Track {
    tri: TriId,
    left_out: Vec<Label>,
    switches: Vec<Label>,
    branches: Vec<Walk>,
}

/// Why corners are not those that a filling track leaves out. The tests are made in this order,
/// each over all entries, triangles or vertices before the next.
#[derive(Clone, Copy, Debug, PartialEq, Eq)]
pub enum TrackError {
    /// The first place of an entry that is no label, or not above the entry before in the order of
    /// labels.
    NotLabel(u64),
    /// The least triangle with two left-out corners.
    TwoLeftOut(u64),
    /// The least vertex without a left-out corner.
    VertexClosed(u64),
    /// No memory was found.
    Memory,
}

impl From<AllocError> for TrackError {
    ghost use Rattle.train_track.specs.declared.track.TrackError.TheVariants.{Memory};

    ghost from_gives = { λ _ e. e ≡ Memory };

    fn from(_: AllocError) -> TrackError {
        TrackError::Memory
    }
}

impl From<ideal_tri::Memory> for TrackError {
    ghost use Rattle.train_track.specs.declared.track.TrackError.TheVariants.{Memory};

    ghost from_gives = { λ _ e. e ≡ Memory };

    fn from(_: Memory) -> TrackError {
        TrackError::Memory
    }
}

impl Model for Track {
    ghost use Rattle.std.specs.Prelude.{◌≤◌, length};
    ghost use Rattle.train_track.specs.Branches.{TrainTrack};
    ghost use Rattle.train_track.specs.declared.passes.TheConstants.{BRANCHES};

    ghost Value = { TrainTrack };

    ghost view = { λ a. record {
      tri = a.tri;
      left_out = a.left_out.items;
      switches = a.switches.items;
      branches = a.branches.items;
    } };

    ghost invariant = { λ a. length a.branches.items ≤ BRANCHES };
}

impl Track {
    /// The track that leaves out these corners, which stand in the order of labels, 0, -1, 1, -2, 2
    /// and so on. A corner is named by the side that it follows.
    pub fn from_list(
        alloc: Global,
        atlas: &Atlas,
        t: TriId,
        left_out: &[Label],
    ) -> Result<Track, TrackError>
        requires { IsTriIn atlas.now t }
        ensures accepted { IfOk result (λ track. (track.tri ≡ t) × (track.left_out
            ≡ left_out.now)) }
        ensures here { IfOk result (IsTrackIn atlas.now) }
        ensures refused { IfErr result (IsRefusedFor (triangulation atlas.now t) left_out.now) }
    {
        if let Some(i) = first_misplaced(atlas.tri(t), left_out) {
            return Err(TrackError::NotLabel(i as u64));
        }
        let left_out = Vec::from_slice(alloc, left_out)?;
        Track::of_corners(alloc, atlas, t, left_out)
    }

    /// The track that leaves out the corners without strands of a multicurve. The refusal is never
    /// `NotLabel`.
    pub fn from_coords(alloc: Global, atlas: &Atlas, w: &Coords) -> Result<Track, TrackError>
        requires { AreCoordinatesIn atlas.now w.now }
        ensures accepted { IfOk result (λ track. (track.tri ≡ w.now.tri)
            × (track.left_out ≡ free_corners (triangulation atlas.now w.now.tri) w.now.numbers)) }
        ensures here { IfOk result (IsTrackIn atlas.now) }
        ensures refused { IfErr result (IsNotFilling (triangulation atlas.now w.now.tri)
            (free_corners (triangulation atlas.now w.now.tri) w.now.numbers)) }
    {
        label_laws();
        let left_out = free_corners(alloc, atlas, w)?;
        Track::of_corners(alloc, atlas, w.tri(), left_out)
    }

    /// The track of corners that stand in the order of labels.
    fn of_corners(
        alloc: Global,
        atlas: &Atlas,
        t: TriId,
        left_out: Vec<Label>,
    ) -> Result<Track, TrackError>
        requires tri { IsTriIn atlas.now t }
        requires placed { ArePlaced (triangulation atlas.now t) left_out.items }
        ensures accepted { IfOk result (λ track. (track.tri ≡ t) × (track.left_out
            ≡ left_out.items)) }
        ensures here { IfOk result (IsTrackIn atlas.now) }
        ensures refused { IfErr result (IsNotFilling (triangulation atlas.now t) left_out.items) }
    {
        let tri = atlas.tri(t);
        let corners = left_out.as_slice();
        if let Some(s) = first_with_two(tri, corners) {
            return Err(TrackError::TwoLeftOut(u64::from(s)));
        }
        if let Some(v) = first_closed(alloc, tri, corners)? {
            return Err(TrackError::VertexClosed(u64::from(v)));
        }
        branch_law(tri, corners);
        let switches = switches(alloc, tri, corners)?;
        let branches = branches(alloc, tri, corners)?;
        Ok(Track {
            tri: t,
            left_out,
            switches,
            branches,
        })
    }

    /// The triangulation of the track.
    pub fn tri(&self) -> TriId
        ensures { result ≡ self.now.tri }
    {
        self.tri
    }

    /// The left-out corners, in the order of labels.
    pub fn left_out(&self) -> &[Label]
        ensures { result.now ≡ self.now.left_out }
    {
        &self.left_out
    }

    /// The switches, each by its label that isn't negative, in the order of their numbers. A switch
    /// is an edge one of whose sides has both its corners kept.
    pub fn switches(&self) -> &[Label]
        ensures { result.now ≡ self.now.switches }
    {
        &self.switches
    }

    /// The branches, one for each pair of a branch and its inverse: of the two the one that is
    /// found first, by first letter and then by second, in the order of labels. A branch is a legal
    /// walk of at least two letters whose first and last letters are switches and whose others
    /// aren't.
    pub fn branches(&self) -> &[Walk]
        ensures { result.now ≡ self.now.branches }
    {
        &self.branches
    }

    /// Whether a walk is legal: each two neighbours use a corner that is kept. It takes no memory.
    pub fn legal(&self, atlas: &Atlas, w: &Walk) -> bool
        requires track { IsTrackIn atlas.now self.now }
        requires walk { IsWalkOn (triangulation atlas.now self.now.tri) w.now }
        ensures { IsTrue result
            ↔ IsLegal (triangulation atlas.now self.now.tri) self.now.left_out w.now.letters }
    {
        is_legal(atlas.tri(self.tri), &self.left_out, &w.letters)
    }

    /// The branches that a legal walk from a switch to a switch passes, in order, each by its
    /// number among `branches`, whichever way it is passed.
    pub fn decompose(&self, alloc: Global, w: &Walk) -> Result<Vec<u32>, Memory>
        requires { CanBeCut self.now w.now }
        ensures { IfOk result (λ numbers. (passes : List Pass)
            × ArePassesOf (words_of self.now.branches) passes w.now.letters
            × (numbers.items ≡ map (λ p. p.branch) passes)) }
    {
        cut_law(self, w);
        passes(alloc, &self.branches, &w.letters)
    }
}

/// A legal walk from a switch to a switch is cut into branches.
fn cut_law(track: &Track, w: &Walk)
    requires { CanBeCut track.now w.now }
    ensures { CanBeCutInto (words_of track.now.branches) w.now.letters }
{
    label_laws();
    surface_laws();
}
