//! Tests of the left-out corners.
ghost use Rattle.std.specs.Prelude.{◌≡◌, ◌<◌, ◌↔◌, ℕ, ℤ, pos, true, IsTrue, length, IfSome, IfNone};
ghost use Rattle.std.specs.Prelude.{IfOk};
ghost use Rattle.std.specs.Prelude.{slice_index_or, All, map};
ghost use Rattle.ideal_tri.specs.Triangulations.{IsTriangulation, IsLabel, triangle_of};
ghost use Rattle.ideal_tri.specs.Vertices.{vertex_of};
ghost use Rattle.tri_atlas.specs.Arena.{triangulation};
ghost use Rattle.edge_coords.specs.Coordinates.{AreCoordinatesIn};
ghost use Rattle.train_track.specs.Tracks.{is_left_out, IsPlaced, ArePlaced, IsSingleInTriangles};
ghost use Rattle.train_track.specs.Tracks.{IsOpenAtVertices};
ghost use Rattle.train_track.specs.Refusals.{IsFirstMisplaced, IsLeastWithTwo, HasTwo};
ghost use Rattle.train_track.specs.Refusals.{IsLeastClosed, free_corners};
ghost use Rattle.train_track.specs.inside.Corners.{two_of};

use crate::legal::is_left_out;
use crate::order::{label_of_rank, rank};
use edge_coords::Coords;
use ideal_tri::{Label, Memory, Tri, label_laws, surface_laws, vertex_laws};
use std::alloc::Global;
use tri_atlas::Atlas;

/// The first entry that is no label, or not above the one before.
pub(crate) fn first_misplaced(tri: &Tri, left_out: &[Label]) -> Option<usize>
    ensures some { IfSome result (IsFirstMisplaced tri.now left_out.now) }
    ensures none { IfNone result (ArePlaced tri.now left_out.now) }
{
    for i in 0..left_out.len() {
        if !is_placed(tri, left_out, i) {
            return Some(i);
        }
    }
    None
}

/// Whether an entry is a label, and above the one before, which is a label.
fn is_placed(tri: &Tri, left_out: &[Label], i: usize) -> bool
    requires within { i < length left_out.now }
    requires before { (j : ℕ) → j < i → IsPlaced tri.now left_out.now j }
    ensures { IsTrue result ↔ IsPlaced tri.now left_out.now i }
{
    let x = left_out[i];
    if x.edge() >= tri.edges() {
        return false;
    }
    i == 0 || rank(left_out[i - 1]) < rank(x)
}

/// The first triangle with two left-out corners.
pub(crate) fn first_with_two(tri: &Tri, left_out: &[Label]) -> Option<u32>
    requires { IsTriangulation tri.now }
    ensures some { IfSome result (IsLeastWithTwo tri.now left_out.now) }
    ensures none { IfNone result (IsSingleInTriangles tri.now left_out.now) }
{
    label_laws();
    surface_laws();
    for t in 0..tri.triangles() {
        if has_two(tri, left_out, t) {
            return Some(t);
        }
    }
    None
}

/// Whether two corners of a triangle are left out.
fn has_two(tri: &Tri, left_out: &[Label], t: u32) -> bool
    requires within { t < length tri.now }
    requires sound { IsTriangulation tri.now }
    ensures { IsTrue result ↔ HasTwo tri.now left_out.now t }
{
    label_laws();
    surface_laws();
    let [x, _, _] = tri.triple(t);
    let y = tri.next(x);
    let z = tri.next(y);
    two_of(
        is_left_out(left_out, x),
        is_left_out(left_out, y),
        is_left_out(left_out, z),
    )
}

/// Whether at least two of three are so.
fn two_of(a: bool, b: bool, c: bool) -> bool
    ensures { result ≡ two_of a b c }
{
    if a { b || c } else { b && c }
}

/// The first vertex without a left-out corner.
pub(crate) fn first_closed(
    alloc: Global,
    tri: &Tri,
    left_out: &[Label],
) -> Result<Option<u32>, Memory>
    requires sound { IsTriangulation tri.now }
    requires labels { All (IsLabel tri.now) left_out.now }
    ensures some { IfOk result (λ found. IfSome found (IsLeastClosed tri.now left_out.now)) }
    ensures none { IfOk result (λ found. IfNone found (IsOpenAtVertices tri.now left_out.now)) }
{
    label_laws();
    vertex_laws();
    let vertices = vertices_of(alloc, tri, left_out)?;
    for v in 0..tri.vertex_count() {
        if !vertices.contains(&v) {
            return Ok(Some(v));
        }
    }
    Ok(None)
}

/// The vertices of the corners.
fn vertices_of(alloc: Global, tri: &Tri, corners: &[Label]) -> Result<Vec<u32>, Memory>
    requires { All (IsLabel tri.now) corners.now }
    ensures { IfOk result (λ vertices. vertices.items ≡ map (vertex_of tri.now) corners.now) }
{
    let mut vertices = Vec::new(alloc);
    for x in corners {
        vertices.push(tri.vertex(*x).number())?;
    }
    Ok(vertices)
}

/// The corners without strands, in the order of labels.
pub(crate) fn free_corners(alloc: Global, atlas: &Atlas, w: &Coords) -> Result<Vec<Label>, Memory>
    requires { AreCoordinatesIn atlas.now w.now }
    ensures { IfOk result (λ found. found.items
        ≡ free_corners (triangulation atlas.now w.now.tri) w.now.numbers) }
{
    let mut found = Vec::new(alloc);
    for k in 0..2 * atlas.tri(w.tri()).edges() {
        let x = label_of_rank(k);
        if w.corner_count(atlas, x) == 0 {
            found.push(x)?;
        }
    }
    Ok(found)
}
