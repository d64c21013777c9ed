//! The rounds of a descent, at one triangulation: what each flip makes of the total. Nothing here is
//! put into an atlas.
ghost use Rattle.std.specs.Prelude.{◌≡◌, ◌≢◌, ◌<◌, ◌≤◌, ◌+◌, ◌↔◌, ℕ, pos, length, sum, take};
ghost use Rattle.std.specs.Prelude.{slice_set, IfSome, IfNone, IsTrue};
ghost use Rattle.ideal_tri.specs.Triangulations.{edge_count, IsTriangulation, next, previous};
ghost use Rattle.ideal_tri.specs.Labels.{inverse, edge_of};
ghost use Rattle.ideal_tri.specs.Flips.{IsFlippable, flipped};
ghost use Rattle.ideal_tri.specs.Vectors.{IsMulticurve, weight};
ghost use Rattle.curve_shorten.specs.ShortCurves.{total_limit};
ghost use Rattle.curve_shorten.specs.Descents.{total_flipped, vector_flipped};
ghost use Rattle.tri_atlas.specs.FlipPaths.{IsFlippableEdge};
ghost use Rattle.curve_shorten.specs.Descents.{HasNoLower, IsBest, IsLevel, IsFirstLevel};
ghost use Rattle.curve_shorten.specs.inside.Rounds.{IsBestBefore, IsFlipOf, number_flipped};

use ideal_tri::{EDGES, Label, Tri, flip_laws, label_laws, surface_laws};
use tri_atlas::{map_laws, vector_laws};

/// The edge whose flip lowers the total most, the least one on a tie; none exactly where no flip
/// lowers it.
pub(crate) fn best(tri: &Tri, w: &[u128]) -> Option<u32>
    requires multicurve { IsMulticurve tri.now w.now }
    requires small { sum w.now ≤ total_limit }
    ensures some { IfSome result (IsBest tri.now w.now) }
    ensures none { IfNone result (HasNoLower tri.now w.now) }
{
    let mut best = Lowest {
        edge: None,
        total: total(w),
    };
    for e in 0..tri.edges() {
        best = better(tri, w, e, best);
    }
    best.edge
}

/// The least edge whose flip keeps the total, and after which some flip lowers it.
pub(crate) fn first_level(tri: &Tri, w: &[u128]) -> Option<u32>
    requires multicurve { IsMulticurve tri.now w.now }
    requires small { sum w.now ≤ total_limit }
    requires lowest { HasNoLower tri.now w.now }
    ensures some { IfSome result (IsFirstLevel tri.now w.now) }
    ensures none { IfNone result ((e : ℕ) → ¬ IsLevel tri.now w.now e) }
{
    for e in 0..tri.edges() {
        if is_level(tri, w, e) {
            return Some(e);
        }
    }
    None
}

/// The best edge among those that have been looked at, and the total after its flip. Where none
/// lowers the total, it is the total that there is.
#[derive(Clone, Copy)]
struct Lowest {
    edge: Option<u32>,
    total: u128,
}

/// The best edge, with one more edge looked at.
fn better(tri: &Tri, w: &[u128], e: u32, best: Lowest) -> Lowest
    requires multicurve { IsMulticurve tri.now w.now }
    requires small { sum w.now ≤ total_limit }
    requires edge { e < edge_count tri.now }
    requires before { IsBestBefore tri.now w.now e best }
    ensures { IsBestBefore tri.now w.now (e + 1) result }
{
    if !is_flippable(tri, e) {
        return best;
    }
    let total = total_flipped(tri, w, e);
    if total >= best.total {
        return best;
    }
    Lowest {
        edge: Some(e),
        total,
    }
}

/// Whether the flip of an edge keeps the total, and then some flip lowers it.
fn is_level(tri: &Tri, w: &[u128], e: u32) -> bool
    requires multicurve { IsMulticurve tri.now w.now }
    requires small { sum w.now ≤ total_limit }
    requires edge { e < edge_count tri.now }
    ensures { IsTrue result ↔ IsLevel tri.now w.now e }
{
    if !is_flippable(tri, e) {
        return false;
    }
    if total_flipped(tri, w, e) != total(w) {
        return false;
    }
    is_lower_after(tri, w, e)
}

/// Whether some flip lowers the total after the flip of an edge, which doesn't raise it.
fn is_lower_after(tri: &Tri, w: &[u128], e: u32) -> bool
    requires multicurve { IsMulticurve tri.now w.now }
    requires small { sum w.now ≤ total_limit }
    requires flippable { IsFlippableEdge tri.now e }
    requires no_greater { total_flipped tri.now w.now e ≤ sum w.now }
    ensures { IsTrue result
        ↔ ¬ HasNoLower (flipped tri.now (pos e)) (vector_flipped tri.now w.now e) }
{
    flip_law(tri, w, e);
    let after = tri.flipped(label_of(tri, e));
    best(&after, &flipped_vector(tri, w, e)[..w.len()]).is_some()
}

/// The vector after the flip of an edge, and zeros after it.
fn flipped_vector(tri: &Tri, w: &[u128], e: u32) -> [u128; EDGES]
    requires multicurve { IsMulticurve tri.now w.now }
    requires small { sum w.now ≤ total_limit }
    requires flippable { IsFlippableEdge tri.now e }
    ensures { take (length w.now) result ≡ vector_flipped tri.now w.now e }
{
    let mut numbers = copied(tri, w);
    numbers[e as usize] = flipped_number(tri, w, e);
    numbers
}

/// The numbers, and zeros after them.
fn copied(tri: &Tri, w: &[u128]) -> [u128; EDGES]
    requires { length w.now ≡ edge_count tri.now }
    ensures { take (length w.now) result ≡ w.now }
{
    // there are at most `EDGES` edges
    let _ = tri.edges();
    let mut numbers = [0; EDGES];
    numbers[..w.len()].copy_from_slice(w);
    numbers
}

/// The total after the flip of an edge.
fn total_flipped(tri: &Tri, w: &[u128], e: u32) -> u128
    requires multicurve { IsMulticurve tri.now w.now }
    requires small { sum w.now ≤ total_limit }
    requires flippable { IsFlippableEdge tri.now e }
    ensures { result ≡ total_flipped tri.now w.now e }
{
    flip_law(tri, w, e);
    total(w) - w[e as usize] + flipped_number(tri, w, e)
}

/// The number that the flip of an edge gives it: the greater of the two sums of opposite sides of
/// its quadrilateral, less its number.
fn flipped_number(tri: &Tri, w: &[u128], e: u32) -> u128
    requires multicurve { IsMulticurve tri.now w.now }
    requires small { sum w.now ≤ total_limit }
    requires flippable { IsFlippableEdge tri.now e }
    ensures { result ≡ number_flipped tri.now w.now e }
{
    flip_law(tri, w, e);
    let x = label_of(tri, e);
    let (a, c) = (tri.next(x), tri.next(x.inverse()));
    let (b, d) = (tri.next(a), tri.next(c));
    let first = weight(w, a) + weight(w, c);
    let second = weight(w, b) + weight(w, d);
    first.max(second) - w[e as usize]
}

/// What is proved of the flip of an edge.
fn flip_law(tri: &Tri, w: &[u128], e: u32)
    requires multicurve { IsMulticurve tri.now w.now }
    requires flippable { IsFlippableEdge tri.now e }
    ensures { IsFlipOf tri.now w.now e }
{
    let _ = tri.edges();
    label_laws();
    surface_laws();
    flip_laws();
    map_laws();
    vector_laws();
}

/// Whether an edge lies between two different triangles.
fn is_flippable(tri: &Tri, e: u32) -> bool
    requires { e < edge_count tri.now }
    ensures { IsTrue result ↔ IsFlippableEdge tri.now e }
{
    tri.flippable(label_of(tri, e))
}

/// The label of an edge that isn't negative.
fn label_of(tri: &Tri, e: u32) -> Label
    requires { e < edge_count tri.now }
    ensures { result ≡ pos e }
{
    // there are at most `EDGES` edges
    let _ = tri.edges();
    Label::new(e as i32)
}

/// The number at the edge of a label.
fn weight(w: &[u128], x: Label) -> u128
    requires small { sum w.now ≤ total_limit }
    requires inside { edge_of x < length w.now }
    ensures value { result ≡ weight w.now x }
    ensures small { result ≤ total_limit }
{
    w[x.edge() as usize]
}

/// The sum of the numbers.
fn total(w: &[u128]) -> u128
    requires { sum w.now ≤ total_limit }
    ensures { result ≡ sum w.now }
{
    w.iter().sum()
}
