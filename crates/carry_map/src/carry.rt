//! Where the switches and the branches of a track go under a map.
ghost use Rattle.std.specs.Prelude.{◌≡◌, ◌<◌, ◌≤◌, ◌^◌, ℕ, [], length, map, slice_index_or, IfOk};
ghost use Rattle.std.specs.Prelude.{IfErr, IfSome, IfNone, All};
ghost use Rattle.ideal_tri.specs.Triangulations.{triangle_of};
ghost use Rattle.tri_atlas.specs.Arena.{triangulation};
ghost use Rattle.free_groupoid.specs.Walks.{IsWalkOn, walk_at};
ghost use Rattle.free_groupoid.specs.GroupoidMaps.{substitution, vertex_image};
ghost use Rattle.free_groupoid.specs.MapRefusals.{told};
ghost use Rattle.train_track.specs.Branches.{letter_at, words_of};
ghost use Rattle.carry_map.specs.CarriedMaps.{IsCarried};
ghost use Rattle.carry_map.specs.CarryingWalks.{carrying_of};
ghost use Rattle.carry_map.specs.AnchorAnswers.{IsMapOnTrack, carrying_by, IsAnswerBy, AreOver};
ghost use Rattle.carry_map.specs.AnchorAnswers.{IsRefusedBy, letters_together};
ghost use Rattle.carry_map.specs.AnchorLaws.{AreConnected};

use crate::laws::anchor_laws;
use crate::paths::paths;
use crate::places::Place;
use free_groupoid::{Map, Walk};
use ideal_tri::{Label, Memory, label_laws, surface_laws};
use std::alloc::{AllocFailed, Global};
use std::marker::Model;
use train_track::Track;
use tri_atlas::{Atlas, map_laws};

/// How a map of a triangulation to itself carries a track into itself (after Penner and Harer): for
/// each switch the label that it goes to, and a walk to where that label starts from the image of
/// where the switch starts; for each branch its train path.
#[derive(Debug, Drop)]
pub struct CarryMap {
    to: Vec<Label>,
    connect: Vec<Walk>,
    images: Vec<Walk>,
}

/// Why the anchor rule finds no train paths. The tests are made in this order, each over all
/// switches or branches before the next.
#[derive(Clone, Copy, Debug, PartialEq, Eq)]
pub enum AnchorError {
    /// The first switch without an anchor, by its label that isn't negative: no letter of a switch
    /// is on the lines of all legal walks through it.
    NoCommonPart(i32),
    /// The first branch whose walk is no train path, by its number among the branches.
    Illegal(u64),
    /// The connecting walks have together more letters than the cap, or else the train paths have.
    CapPassed {
        /// The number of letters, or 2^64 - 1 where there are more.
        letters: u64,
    },
    /// No memory was found.
    Memory,
}

impl<T: Drop> From<AllocFailed<T>> for AnchorError {
    ghost use Rattle.carry_map.specs.declared.carry.AnchorError.TheVariants.{Memory};

    ghost from_gives = { λ _ e. e ≡ Memory };

    fn from(_: AllocFailed<T>) -> AnchorError {
        AnchorError::Memory
    }
}

impl From<ideal_tri::Memory> for AnchorError {
    ghost use Rattle.carry_map.specs.declared.carry.AnchorError.TheVariants.{Memory};

    ghost from_gives = { λ _ e. e ≡ Memory };

    fn from(_: Memory) -> AnchorError {
        AnchorError::Memory
    }
}

impl Model for CarryMap {
    ghost use Rattle.carry_map.specs.CarryingWalks.{CarryingWalks};

    ghost Value = { CarryingWalks };

    ghost view = { λ a. record {
      to = a.to.items;
      connect = a.connect.items;
      images = a.images.items;
    } };
}

impl CarryMap {
    /// The label that the switch at place `i` goes to, as seen from the switch's label that isn't
    /// negative.
    pub fn to(&self, i: usize) -> Label
        requires { i < length self.now.to }
        ensures { result ≡ letter_at self.now.to i }
    {
        self.to[i]
    }

    /// The walk to where that label starts, from the image of where the label of the switch starts
    /// that isn't negative.
    pub fn connect(&self, i: usize) -> &Walk
        requires { i < length self.now.connect }
        ensures { result.now ≡ walk_at self.now.connect i }
    {
        &self.connect[i]
    }

    /// The train path of the branch at place `j`.
    pub fn image(&self, j: usize) -> &Walk
        requires { j < length self.now.images }
        ensures { result.now ≡ walk_at self.now.images j }
    {
        &self.images[j]
    }
}

/// The train paths for these anchors, one for each switch, however they are chosen.
pub(crate) fn carry_with(
    alloc: Global,
    atlas: &Atlas,
    track: &Track,
    psi: &Map,
    anchors: &[Place],
    cap: u64,
) -> Result<CarryMap, AnchorError>
    requires map { IsMapOnTrack atlas.now track.now psi.now }
    requires connected { AreConnected (triangulation atlas.now track.now.tri) track.now.left_out
        (vertex_image psi.now) (carrying_by anchors.now) }
    requires cap { cap < 2 ^ 63 }
    ensures accepted { IfOk result (IsAnswerBy (triangulation atlas.now track.now.tri) track.now
        psi.now anchors.now cap) }
    ensures refused { IfErr result (IsRefusedBy (triangulation atlas.now track.now.tri) track.now
        psi.now anchors.now cap) }
    ensures walks { IfOk result (λ c. All (IsWalkOn (triangulation atlas.now track.now.tri))
        c.images) }
    ensures carried { IfOk result (λ c. IsCarried (triangulation atlas.now track.now.tri)
        track.now.left_out (words_of track.now.branches) (substitution psi.now.images)
        (vertex_image psi.now) (carrying_of c)) }
{
    let _ = atlas.base();
    label_laws();
    surface_laws();
    map_laws();
    anchor_laws();
    let images = paths(alloc, atlas, track, psi, anchors)?;
    let to = labels(alloc, anchors)?;
    let connect = walks(alloc, atlas, track, psi, anchors)?;
    if let Some(letters) = letters_past(&connect, cap) {
        return Err(AnchorError::CapPassed { letters });
    }
    if let Some(letters) = letters_past(&images, cap) {
        return Err(AnchorError::CapPassed { letters });
    }
    Ok(CarryMap {
        to,
        connect,
        images,
    })
}

/// The labels of the anchors.
fn labels(alloc: Global, anchors: &[Place]) -> Result<Vec<Label>, Memory>
    ensures { IfOk result (λ v. v.items ≡ map (λ p. p.label) anchors.now) }
{
    let mut labels = Vec::new(alloc);
    for place in anchors {
        labels.push(place.label)?;
    }
    Ok(labels)
}

/// Their walks, each from the image of where its switch starts.
fn walks(
    alloc: Global,
    atlas: &Atlas,
    track: &Track,
    psi: &Map,
    anchors: &[Place],
) -> Result<Vec<Walk>, Memory>
    requires map { IsMapOnTrack atlas.now track.now psi.now }
    requires as_many { length anchors.now ≡ length track.now.switches }
    ensures letters { IfOk result (λ v. words_of v.items ≡ map (λ p. p.connect) anchors.now) }
    ensures starts { IfOk result (λ v. (i : ℕ) → i < length anchors.now
        → (walk_at v.items i).start
        ≡ vertex_image psi.now (triangle_of (triangulation atlas.now track.now.tri)
        (letter_at track.now.switches i))) }
{
    let _ = atlas.base();
    surface_laws();
    let mut walks = Vec::new(alloc);
    for (i, place) in anchors.iter().enumerate() {
        let start = start_of_image(atlas, track, psi, i);
        let letters = Vec::from_slice(alloc, &place.connect)?;
        walks.push(Walk { start, letters })?;
    }
    Ok(walks)
}

/// The image of the triangle where the switch at place `i` starts.
fn start_of_image(atlas: &Atlas, track: &Track, psi: &Map, i: usize) -> u32
    requires map { IsMapOnTrack atlas.now track.now psi.now }
    requires within { i < length track.now.switches }
    ensures { result ≡ vertex_image psi.now (triangle_of (triangulation atlas.now track.now.tri)
        (letter_at track.now.switches i)) }
{
    let _ = atlas.base();
    surface_laws();
    psi.vertex(atlas.tri(track.tri()).place(track.switches()[i]).0)
}

/// The number of letters that walks have together, exactly where it is above the cap.
fn letters_past(walks: &[Walk], cap: u64) -> Option<u64>
    requires { cap < 2 ^ 63 }
    ensures some { IfSome result (AreOver (words_of walks.now) cap) }
    ensures none { IfNone result (letters_together (words_of walks.now) ≤ cap) }
{
    let letters = letters_together(walks);
    if letters > cap { Some(letters) } else { None }
}

/// How many letters walks have together, or 2^64 - 1 where there are more.
fn letters_together(walks: &[Walk]) -> u64
    ensures { result ≡ told (letters_together (words_of walks.now)) }
{
    let mut letters = 0u64;
    for walk in walks {
        letters = letters.saturating_add(walk.letters.len() as u64);
    }
    letters
}
