//! Where triangles go.
ghost use Rattle.std.specs.Prelude.{◌≡◌, ◌<◌, ◌≤◌, ℕ, ℤ, List, length, map, take, slice_index, All};
ghost use Rattle.std.specs.List.{range_with_len};
ghost use Rattle.ideal_tri.specs.Triangulations.{IsLabel, IsWalk, edge_count, triangle_of};
ghost use Rattle.tri_atlas.specs.Moves.{IsMove, triangle_image};
ghost use Rattle.tri_atlas.specs.Steps.{move_of};
ghost use Rattle.free_groupoid.specs.inside.Images.{JoinImages};
ghost use Rattle.free_groupoid.specs.Walks.{IsWalkOn};

use crate::letter::relabelled;
use crate::walk::Walk;
use ideal_tri::{EDGES, Label, Tri, label_laws, relabelling_laws, surface_laws};
use tri_atlas::Step;

/// The most triangles of a triangulation: two for each three edges.
pub(crate) const TRIANGLES: usize = 2 * EDGES / 3;

/// Each of so many triangles stays.
pub(crate) fn identity_triangles(count: usize) -> [u32; TRIANGLES]
    requires { count ≤ TRIANGLES }
    ensures { take count result ≡ range_with_len 0 count }
{
    let mut triangles = [0; TRIANGLES];
    for t in 0..count {
        triangles[t] = t as u32;
    }
    triangles
}

/// Where the triangles go that a move is behind.
pub(crate) fn moved_triangles(
    step: &Step,
    before: &Tri,
    after: &Tri,
    triangles: &[u32],
) -> [u32; TRIANGLES]
    requires room { length triangles.now ≤ TRIANGLES }
    requires within { All (λ t. t < length before.now) triangles.now }
    requires moves { IsMove before.now after.now (move_of (edge_count before.now) step.now) }
    ensures { take (length triangles.now) result
        ≡ map (triangle_image before.now after.now (move_of (edge_count before.now) step.now))
        triangles.now }
{
    let mut moved = [0; TRIANGLES];
    for k in 0..triangles.len() {
        moved[k] = moved_triangle(step, before, after, triangles[k]);
    }
    moved
}

/// Where a move takes a triangle.
fn moved_triangle(step: &Step, before: &Tri, after: &Tri, t: u32) -> u32
    requires within { t < length before.now }
    requires moves { IsMove before.now after.now (move_of (edge_count before.now) step.now) }
    ensures { result ≡ triangle_image before.now after.now (move_of (edge_count before.now)
        step.now) t }
{
    relabelling_laws();
    match step {
        Step::Flip { .. } | Step::Unflip { .. } => t,
        Step::Relabel(images) => {
            let [x, _, _] = before.triple(t);
            prove!(x.edge() < before.edges());
            after.place(relabelled(images, x)).0
        }
    }
}

/// Where the triangles go under one map and then another.
pub(crate) fn composed_triangles(first: &[u32], second: &[u32]) -> [u32; TRIANGLES]
    requires room { length first.now ≤ TRIANGLES }
    requires within { All (λ t. t < length second.now) first.now }
    ensures { take (length first.now) result ≡ map (λ t. slice_index second.now t) first.now }
{
    let mut composed = [0; TRIANGLES];
    for k in 0..first.len() {
        composed[k] = second[first[k] as usize];
    }
    composed
}

/// Where the triangles go, given the walks of the labels 0, 1, ..: to where that of a side starts,
/// or that of its inverse ends.
pub(crate) fn image_triangles(source: &Tri, target: &Tri, walks: &[Walk]) -> [u32; TRIANGLES]
    requires { (triangles : List ℕ) × JoinImages source.now target.now walks.now triangles }
    ensures { (triangles : List ℕ) → JoinImages source.now target.now walks.now triangles
        → take (length source.now) result ≡ triangles }
{
    surface_laws();
    let mut triangles = [0; TRIANGLES];
    for t in 0..source.triangles() {
        let [x, _, _] = source.triple(t);
        triangles[t as usize] = side_image(target, walks, x);
    }
    triangles
}

/// Where the triangle of `x` goes, given the walks of the labels 0, 1, ..: to where the walk of `x`
/// starts, or that of its inverse ends.
fn side_image(target: &Tri, walks: &[Walk], x: Label) -> u32
    requires { (before : List (List ℤ)) × (images : List ℕ)
        × JoinImages before target.now walks.now images × IsLabel before x }
    ensures { (before : List (List ℤ)) (images : List ℕ)
        → JoinImages before target.now walks.now images
        → IsLabel before x → result ≡ slice_index images (triangle_of before x) }
{
    let walk = &walks[x.edge() as usize];
    if x.get() < 0 {
        end_of(target, walk)
    } else {
        walk.start
    }
}

/// Where a walk ends.
fn end_of(tri: &Tri, walk: &Walk) -> u32
    requires { (t : ℕ) × IsWalk tri.now walk.now.start walk.now.letters t }
    ensures { (t : ℕ) → IsWalk tri.now walk.now.start walk.now.letters t → result ≡ t }
{
    label_laws();
    match walk.letters.last() {
        Some(x) => tri.place(x.inverse()).0,
        None => walk.start,
    }
}
