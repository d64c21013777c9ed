//! Corners, and the curves that run round vertices.
//!
//! The corner named `x` lies at the head of the side `x`, between `x` and the side after it. A
//! curve of the multicurve runs round a vertex exactly where all corners there have strands.
ghost use Rattle.std.specs.Prelude.{◌≡◌, ◌≢◌, ◌<◌, ◌≤◌, ◌+◌, ℤ, pos, length, take};
ghost use Rattle.std.specs.Prelude.{IfSome, IfNone};
ghost use Rattle.ideal_tri.specs.Labels.{inverse, edge_of};
ghost use Rattle.ideal_tri.specs.Triangulations.{IsLabel, IsTriangulation, next, previous};
ghost use Rattle.ideal_tri.specs.Vectors.{IsMulticurve, weight, corner_count};
ghost use Rattle.ideal_tri.specs.Vertices.{rank};
ghost use Rattle.ideal_tri.specs.PeripheralParts.{HasFreeCorners, least_count, stripped};
ghost use Rattle.tri_atlas.specs.Arena.{triangulation};
ghost use Rattle.edge_coords.specs.Coordinates.{AreCoordinatesIn, AreSmall};
ghost use Rattle.edge_coords.specs.PeripheralVertices.{IsLeastPeripheral};

use crate::coords::{COORDINATE_LIMIT, Coords, weight};
use ideal_tri::{
    EDGES, Label, Tri, VertexId, corner_laws, drawing_laws, label_laws, surface_laws, vertex_laws,
};
use tri_atlas::Atlas;

impl Coords {
    /// How many strands of the multicurve run round the corner named `x`.
    pub fn corner_count(&self, atlas: &Atlas, x: Label) -> u128
        requires coordinates { AreCoordinatesIn atlas.now self.now }
        requires label { IsLabel (triangulation atlas.now self.now.tri) x }
        ensures { result ≡ corner_count (triangulation atlas.now self.now.tri) self.now.numbers x }
    {
        corner_count(atlas.tri(self.tri()), self.values(), x)
    }

    /// The least vertex that a curve of the multicurve runs round: all its corners have strands.
    /// None exactly where each vertex has a corner without strands.
    pub fn peripheral_at(&self, atlas: &Atlas) -> Option<VertexId>
        requires { AreCoordinatesIn atlas.now self.now }
        ensures some { IfSome result
            (IsLeastPeripheral (triangulation atlas.now self.now.tri) self.now.numbers) }
        ensures none { IfNone result
            (HasFreeCorners (triangulation atlas.now self.now.tri) self.now.numbers) }
    {
        peripheral_at(atlas.tri(self.tri()), self.values())
    }

    /// Takes the curves off that run round vertices: each corner loses the least count of its
    /// vertex. They cross an edge near each of its ends, so near both where both are at one vertex.
    pub fn strip_peripheral(&mut self, atlas: &Atlas)
        requires { AreCoordinatesIn atlas.now self.old }
        ensures stripped { self.new ≡ record {
          tri = self.old.tri;
          numbers = stripped (triangulation atlas.now self.old.tri) self.old.numbers;
        } }
        ensures here { AreCoordinatesIn atlas.now self.new }
        ensures corners { (x : ℤ) → IsLabel (triangulation atlas.now self.old.tri) x
            → corner_count (triangulation atlas.now self.old.tri) self.new.numbers x
            + least_count (triangulation atlas.now self.old.tri) self.old.numbers x
            ≡ corner_count (triangulation atlas.now self.old.tri) self.old.numbers x }
        ensures free { HasFreeCorners (triangulation atlas.now self.old.tri) self.new.numbers }
    {
        let tri = atlas.tri(self.tri());
        let numbers = stripped(tri, self.values());
        *self = Coords::keep(self.tri(), &numbers[..tri.edges() as usize]);
    }
}

/// How many strands run round the corner named `x`.
fn corner_count(tri: &Tri, w: &[u128], x: Label) -> u128
    requires sound { IsTriangulation tri.now }
    requires multicurve { IsMulticurve tri.now w.now }
    requires small { AreSmall w.now }
    requires label { IsLabel tri.now x }
    ensures { result ≡ corner_count tri.now w.now x }
{
    no_long_side(tri, w, x);
    let y = tri.next(x);
    let z = tri.next(y);
    (weight(w, x) + weight(w, y) - weight(w, z)) / 2
}

/// The side before `x` is crossed no more often than `x` and the side after it together.
fn no_long_side(tri: &Tri, w: &[u128], x: Label)
    requires sound { IsTriangulation tri.now }
    requires multicurve { IsMulticurve tri.now w.now }
    requires label { IsLabel tri.now x }
    ensures { weight w.now (previous tri.now x)
        ≤ weight w.now x + weight w.now (next tri.now x) }
{
    drawing_laws();
    surface_laws();
}

/// The least count among the corners at the vertex of `x`.
fn least_count(tri: &Tri, w: &[u128], x: Label) -> u128
    requires sound { IsTriangulation tri.now }
    requires multicurve { IsMulticurve tri.now w.now }
    requires small { AreSmall w.now }
    requires label { IsLabel tri.now x }
    ensures { result ≡ least_count tri.now w.now x }
{
    // the other direction of a label is a label
    label_laws();
    let mut corner = x;
    let mut least = corner_count(tri, w, x);
    for _ in 0..2 * tri.edges() {
        corner = tri.next(corner).inverse();
        least = least.min(corner_count(tri, w, corner));
    }
    least
}

/// The least vertex all of whose corners have strands. Vertices are numbered in the order of their
/// least corners.
fn peripheral_at(tri: &Tri, w: &[u128]) -> Option<VertexId>
    requires sound { IsTriangulation tri.now }
    requires multicurve { IsMulticurve tri.now w.now }
    requires small { AreSmall w.now }
    ensures some { IfSome result (IsLeastPeripheral tri.now w.now) }
    ensures none { IfNone result (HasFreeCorners tri.now w.now) }
{
    vertex_laws();
    corner_laws();
    match first_peripheral(tri, w) {
        Some(x) => Some(tri.vertex(x)),
        None => None,
    }
}

/// The first label, in their order, at whose vertex all corners have strands.
fn first_peripheral(tri: &Tri, w: &[u128]) -> Option<Label>
    requires sound { IsTriangulation tri.now }
    requires multicurve { IsMulticurve tri.now w.now }
    requires small { AreSmall w.now }
    ensures label { IfSome result (IsLabel tri.now) }
    ensures positive { IfSome result (λ x. 0 < least_count tri.now w.now x) }
    ensures first { IfSome result (λ x. (y : ℤ) → IsLabel tri.now y → y ≢ x → rank y ≤ rank x
        → least_count tri.now w.now y ≡ 0) }
    ensures none { IfNone result ((y : ℤ) → IsLabel tri.now y
        → least_count tri.now w.now y ≡ 0) }
{
    for e in 0..tri.edges() {
        let x = label_of(e as usize);
        if least_count(tri, w, x) > 0 {
            return Some(x);
        }
        if least_count(tri, w, x.inverse()) > 0 {
            return Some(x.inverse());
        }
    }
    None
}

/// The numbers without the curves that run round vertices, and zeros after them.
fn stripped(tri: &Tri, w: &[u128]) -> [u128; EDGES]
    requires sound { IsTriangulation tri.now }
    requires multicurve { IsMulticurve tri.now w.now }
    requires small { AreSmall w.now }
    requires few { length w.now ≤ EDGES }
    ensures value { take (length w.now) result ≡ stripped tri.now w.now }
    ensures small { AreSmall (stripped tri.now w.now) }
    ensures multicurve { IsMulticurve tri.now (stripped tri.now w.now) }
    ensures corners { (x : ℤ) → IsLabel tri.now x
        → corner_count tri.now (stripped tri.now w.now) x + least_count tri.now w.now x
        ≡ corner_count tri.now w.now x }
    ensures free { HasFreeCorners tri.now (stripped tri.now w.now) }
{
    corner_laws();
    let mut numbers = [0; EDGES];
    for e in 0..w.len() {
        numbers[e] = w[e] - rounded(tri, w, label_of(e));
    }
    numbers
}

/// How often the curves that run round vertices cross the edge of `x`: near its head and its tail.
fn rounded(tri: &Tri, w: &[u128], x: Label) -> u128
    requires sound { IsTriangulation tri.now }
    requires multicurve { IsMulticurve tri.now w.now }
    requires small { AreSmall w.now }
    requires label { IsLabel tri.now x }
    ensures value { result ≡ least_count tri.now w.now x + least_count tri.now w.now (inverse x) }
    ensures most { result ≤ weight w.now x }
{
    ends_law(tri, w, x);
    least_count(tri, w, x) + least_count(tri, w, x.inverse())
}

/// The curves that run round vertices cross an edge no more often than all curves do.
fn ends_law(tri: &Tri, w: &[u128], x: Label)
    requires sound { IsTriangulation tri.now }
    requires multicurve { IsMulticurve tri.now w.now }
    requires small { AreSmall w.now }
    requires label { IsLabel tri.now x }
    ensures most { least_count tri.now w.now x + least_count tri.now w.now (inverse x)
        ≤ weight w.now x }
    ensures small { weight w.now x < COORDINATE_LIMIT }
    ensures other { IsLabel tri.now (inverse x) }
{
    surface_laws();
    drawing_laws();
    corner_laws();
}

/// The label of an edge that isn't negative.
fn label_of(e: usize) -> Label
    requires { e < EDGES }
    ensures { result ≡ pos e }
{
    Label::new(e as i32)
}
