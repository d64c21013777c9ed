//! The rule for the left-out corners of a track, 13.
ghost use Rattle.std.specs.Prelude.{◌≡◌, ◌≢◌, ◌<◌, ◌+◌, ◌↔◌, ℕ, IsTrue, length};
ghost use Rattle.std.specs.Prelude.{IfOk, IfErr, OnOk, IfSome, IfNone};
ghost use Rattle.ideal_tri.specs.Labels.{edge_of};
ghost use Rattle.ideal_tri.specs.Triangulations.{IsLabel, IsTriangulation, triangle_of};
ghost use Rattle.ideal_tri.specs.Vertices.{rank, vertex_count};
ghost use Rattle.ideal_tri.specs.declared.tri.TheConstants.{EDGES};
ghost use Rattle.tri_atlas.specs.Arena.{IsTriIn, triangulation};
ghost use Rattle.train_track.specs.Branches.{IsTrackIn, letter_at};
ghost use Rattle.train_track.specs.Tracks.{ArePlaced, IsFilling, IsPlaced};
ghost use Rattle.cert_checker.specs.FirstFailing.{IsFirstFailing, AllPass};
ghost use Rattle.cert_checker.specs.TrackRefusals.{IsCornerRefusal};
ghost use Rattle.cert_checker.specs.TrackRules.{IsCornerAt, IsOpenAt};
ghost use Rattle.cert_checker.specs.inside.Stops.{IsStop, IsRule};

use crate::verdict::Stop;
use crate::walks::labels;
use ideal_tri::{Label, Memory, Tri, label_laws, vertex_laws};
use std::alloc::Global;
use train_track::{Track, TrackError};
use tri_atlas::{Atlas, TriId};

/// The track on a triangulation that leaves out these corners: labels in their order, at most one in
/// each triangle, and at least one at each vertex.
pub(crate) fn track_of(
    alloc: Global,
    atlas: &Atlas,
    t: TriId,
    numbers: &[i32],
) -> Result<Track, Stop>
    requires { IsTriIn atlas.now t }
    ensures tri { IfOk result (λ track. track.tri ≡ t) }
    ensures corners { IfOk result (λ track. track.left_out ≡ numbers.now) }
    ensures here { IfOk result (IsTrackIn atlas.now) }
    ensures refused { IfErr result (IsStop (IsRule 13
        (IsCornerRefusal (triangulation atlas.now t) numbers.now))) }
{
    let corners = labels(alloc, numbers)?;
    check_corners(atlas.tri(t), &corners)?;
    Ok(filling_track(alloc, atlas, t, &corners)?)
}

/// The track that leaves out corners which fill the triangulation.
fn filling_track(alloc: Global, atlas: &Atlas, t: TriId, corners: &[Label]) -> Result<Track, Memory>
    requires tri { IsTriIn atlas.now t }
    requires placed { ArePlaced (triangulation atlas.now t) corners.now }
    requires filling { IsFilling (triangulation atlas.now t) corners.now }
    ensures tri { IfOk result (λ track. track.tri ≡ t) }
    ensures corners { IfOk result (λ track. track.left_out ≡ corners.now) }
    ensures here { IfOk result (IsTrackIn atlas.now) }
{
    let _ = atlas.base();
    label_laws();
    vertex_laws();
    match Track::from_list(alloc, atlas, t, corners) {
        Ok(track) => Ok(track),
        Err(TrackError::Memory) => Err(Memory),
        // the corners pass its tests
        Err(TrackError::NotLabel(_)) => unreachable!(),
        Err(TrackError::TwoLeftOut(_)) => unreachable!(),
        Err(TrackError::VertexClosed(_)) => unreachable!(),
    }
}

/// Whether the corners are labels in their order, at most one in each triangle, and at least one at
/// each vertex.
fn check_corners(tri: &Tri, corners: &[Label]) -> Result<(), Stop>
    requires { IsTriangulation tri.now }
    ensures placed { OnOk result (ArePlaced tri.now corners.now) }
    ensures filling { OnOk result (IsFilling tri.now corners.now) }
    ensures refused { IfErr result (IsStop (IsRule 13 (IsCornerRefusal tri.now corners.now))) }
{
    label_laws();
    vertex_laws();
    if let Some(i) = first_misplaced(tri, corners) {
        return Err(Stop::Refused {
            rule: 13,
            place: i as u64,
        });
    }
    match first_closed(tri, corners) {
        Some(v) => Err(Stop::Refused {
            rule: 13,
            place: 1000 + u64::from(v),
        }),
        None => Ok(()),
    }
}

/// The first entry that is no label, not above the one before, or not the only one in its triangle so
/// far.
fn first_misplaced(tri: &Tri, corners: &[Label]) -> Option<usize>
    ensures some { IfSome result (IsFirstFailing (length corners.now)
        (IsCornerAt tri.now corners.now)) }
    ensures none { IfNone result (AllPass (length corners.now)
        (IsCornerAt tri.now corners.now)) }
{
    for i in 0..corners.len() {
        if !is_corner(tri, corners, i) {
            return Some(i);
        }
    }
    None
}

/// Whether an entry is a label, above the one before, and the only one in its triangle so far.
fn is_corner(tri: &Tri, corners: &[Label], i: usize) -> bool
    requires within { i < length corners.now }
    requires before { AllPass i (IsCornerAt tri.now corners.now) }
    ensures { IsTrue result ↔ IsCornerAt tri.now corners.now i }
{
    is_placed(tri, corners, i) && is_alone(tri, corners, i)
}

/// Whether an entry is a label, and above the one before, which is a label.
fn is_placed(tri: &Tri, corners: &[Label], i: usize) -> bool
    requires within { i < length corners.now }
    requires before { AllPass i (IsCornerAt tri.now corners.now) }
    ensures { IsTrue result ↔ IsPlaced tri.now corners.now i }
{
    let x = corners[i];
    if x.edge() >= tri.edges() {
        return false;
    }
    i == 0 || rank(corners[i - 1]) < rank(x)
}

/// The place of a label in the order of labels.
fn rank(x: Label) -> u32
    requires { edge_of x < EDGES }
    ensures { result ≡ rank x }
{
    let first = 2 * x.edge();
    if x.get() < 0 { first + 1 } else { first }
}

/// Whether an entry is the only one in its triangle so far.
fn is_alone(tri: &Tri, corners: &[Label], i: usize) -> bool
    requires within { i < length corners.now }
    requires labels { AllPass (i + 1) (λ j. IsLabel tri.now (letter_at corners.now j)) }
    ensures { IsTrue result ↔ ((j : ℕ) → j < i
        → triangle_of tri.now (letter_at corners.now j)
        ≢ triangle_of tri.now (letter_at corners.now i)) }
{
    let (here, _) = tri.place(corners[i]);
    for j in 0..i {
        if tri.place(corners[j]).0 == here {
            return false;
        }
    }
    true
}

/// The first vertex without a corner.
fn first_closed(tri: &Tri, corners: &[Label]) -> Option<u32>
    requires { AllPass (length corners.now) (λ j. IsLabel tri.now (letter_at corners.now j)) }
    ensures some { IfSome result (IsFirstFailing (vertex_count tri.now)
        (IsOpenAt tri.now corners.now)) }
    ensures none { IfNone result (AllPass (vertex_count tri.now)
        (IsOpenAt tri.now corners.now)) }
{
    for v in 0..tri.vertex_count() {
        if !is_open(tri, corners, v) {
            return Some(v);
        }
    }
    None
}

/// Whether one of the corners lies at a vertex.
fn is_open(tri: &Tri, corners: &[Label], v: u32) -> bool
    requires { AllPass (length corners.now) (λ j. IsLabel tri.now (letter_at corners.now j)) }
    ensures { IsTrue result ↔ IsOpenAt tri.now corners.now v }
{
    label_laws();
    for j in 0..corners.len() {
        if tri.vertex(corners[j]).number() == v {
            return true;
        }
    }
    false
}
