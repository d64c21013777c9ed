//! Coordinates of multicurves.
ghost use Rattle.std.specs.Prelude.{◌≡◌, ◌<◌, ◌≤◌, ◌↔◌, length};
ghost use Rattle.std.specs.Prelude.{IsTrue, IfOk, IfErr, IfSome, IfNone, All};
ghost use Rattle.ideal_tri.specs.Labels.{edge_of};
ghost use Rattle.ideal_tri.specs.Triangulations.{edge_count, IsTriangulation};
ghost use Rattle.ideal_tri.specs.Vectors.{weight, IsEven, HasNoLongSide, IsMulticurve};
ghost use Rattle.tri_atlas.specs.Arena.{triangulation, IsTriIn};
ghost use Rattle.edge_coords.specs.Coordinates.{AreCoordinatesIn, AreSmall, total_of};
ghost use Rattle.edge_coords.specs.Refusals.{IsLeastTooLarge, IsLeastFailing, IsRefusedFor};

use ideal_tri::{EDGES, Label, Tri};
use std::marker::Model;
use tri_atlas::{Atlas, TriId};

/// Each coordinate is below this, 2^126, so that the sum of any three fits.
pub const COORDINATE_LIMIT: u128 = 1 << 126;

/// The normal coordinates of a multicurve at a triangulation of an atlas (Bell's flipper): one
/// number for each edge, below 2^126, of how often the multicurve crosses it. They stand in fixed
/// memory, and mean nothing without their atlas.
#[derive(Clone, Copy, Debug, PartialEq, Eq)]
pub struct Coords {
    pub(crate) tri: TriId,
    /// How many edges there are.
    pub(crate) count: u32,
    /// The numbers of the edges, and zeros after them.
    pub(crate) numbers: [u128; EDGES],
}

/// Why numbers are not the coordinates of a multicurve. The tests are made in this order, each over
/// all numbers or triangles before the next.
#[derive(Clone, Copy, Debug, PartialEq, Eq)]
pub enum CoordsError {
    /// There isn't one number for each edge; how many there are.
    WrongLength(u64),
    /// The least edge whose number is 2^126 or more.
    TooLarge(u64),
    /// The least triangle whose three numbers have an odd sum.
    OddTriangle(u64),
    /// The least triangle one of whose numbers is greater than the other two together.
    LongSide(u64),
}

impl Model for Coords {
    ghost use Rattle.std.specs.Prelude.{◌-◌, ◌++◌, length, take, min};
    ghost use Rattle.edge_coords.specs.Coordinates.{Coordinates};
    ghost use Rattle.ideal_tri.specs.declared.tri.TheConstants.{EDGES};
    ghost use Rattle.edge_coords.specs.inside.LaidOut.{IsLaidOut, spare_numbers};
    ghost use Rattle.edge_coords.specs.inside.Again.{count_again, numbers_again};

    ghost Value = { Coordinates };

    ghost view = { λ a. record { tri = a.tri; numbers = take a.count a.numbers } };

    ghost invariant = { λ a. IsLaidOut a.count a.numbers };

    ghost inverse = { λ v. record {
      tri = v.tri;
      count = length v.numbers;
      numbers = v.numbers ++ spare_numbers (EDGES - length v.numbers);
    } };

    ghost inverse_ok = { λ a h i. record {
      tri = a.tri;
      count = count_again a.count a.numbers h i;
      numbers = numbers_again a.count a.numbers h i;
    } };
}

impl Coords {
    /// The coordinates with these numbers, one for each edge of a triangulation of the atlas.
    pub fn new(atlas: &Atlas, t: TriId, values: &[u128]) -> Result<Coords, CoordsError>
        requires { IsTriIn atlas.now t }
        ensures accepted { IfOk result (λ c. c ≡ record { tri = t; numbers = values.now }) }
        ensures here { IfOk result (AreCoordinatesIn atlas.now) }
        ensures refused { IfErr result (IsRefusedFor (triangulation atlas.now t) values.now) }
    {
        let tri = atlas.tri(t);
        if values.len() != tri.edges() as usize {
            return Err(CoordsError::WrongLength(values.len() as u64));
        }
        if let Some(i) = first_too_large(values) {
            return Err(CoordsError::TooLarge(i as u64));
        }
        if let Some(t) = first_odd(tri, values) {
            return Err(CoordsError::OddTriangle(u64::from(t)));
        }
        if let Some(t) = first_long(tri, values) {
            return Err(CoordsError::LongSide(u64::from(t)));
        }
        Ok(Coords::keep(t, values))
    }

    /// Keeps at most as many numbers as there is room for, below the limit.
    pub(crate) fn keep(tri: TriId, values: &[u128]) -> Coords
        requires few { length values.now ≤ EDGES }
        requires small { AreSmall values.now }
        ensures { result ≡ record { tri = tri; numbers = values.now } }
    {
        let mut numbers = [0; EDGES];
        numbers[..values.len()].copy_from_slice(values);
        Coords {
            tri,
            count: values.len() as u32,
            numbers,
        }
    }

    /// The numbers of the edges, in the order of the edges.
    pub fn values(&self) -> &[u128]
        ensures value { result.now ≡ self.now.numbers }
        ensures small { AreSmall result.now }
        ensures few { length result.now ≤ EDGES }
    {
        &self.numbers[..self.count as usize]
    }

    /// The triangulation of the coordinates.
    pub fn tri(&self) -> TriId
        ensures { result ≡ self.now.tri }
    {
        self.tri
    }

    /// The sum of the numbers, or 2^128 - 1 where it is greater.
    pub fn total(&self) -> u128
        ensures { result ≡ total_of self.now.numbers }
    {
        let mut total: u128 = 0;
        for n in self.values() {
            total = total.saturating_add(*n);
        }
        total
    }
}

/// The first place of a number that is too large.
fn first_too_large(values: &[u128]) -> Option<usize>
    ensures some { IfSome result (IsLeastTooLarge values.now) }
    ensures none { IfNone result (AreSmall values.now) }
{
    values.iter().position(|n| *n >= COORDINATE_LIMIT)
}

/// The first triangle with an odd sum.
pub(crate) fn first_odd(tri: &Tri, w: &[u128]) -> Option<u32>
    requires small { AreSmall w.now }
    requires one_per_edge { length w.now ≡ edge_count tri.now }
    ensures some { IfSome result (IsLeastFailing tri.now (IsEven w.now)) }
    ensures none { IfNone result (All (IsEven w.now) tri.now) }
{
    for t in 0..tri.triangles() {
        if !is_even(w, &tri.triple(t)) {
            return Some(t);
        }
    }
    None
}

/// The first triangle with a long side.
pub(crate) fn first_long(tri: &Tri, w: &[u128]) -> Option<u32>
    requires small { AreSmall w.now }
    requires one_per_edge { length w.now ≡ edge_count tri.now }
    ensures some { IfSome result (IsLeastFailing tri.now (HasNoLongSide w.now)) }
    ensures none { IfNone result (All (HasNoLongSide w.now) tri.now) }
{
    for t in 0..tri.triangles() {
        if !has_no_long_side(w, &tri.triple(t)) {
            return Some(t);
        }
    }
    None
}

/// Whether the numbers at the three sides have an even sum.
fn is_even(w: &[u128], triangle: &[Label; 3]) -> bool
    requires small { AreSmall w.now }
    requires sides { All (λ x. edge_of x < length w.now) triangle.now }
    ensures { IsTrue result ↔ IsEven w.now triangle.now }
{
    let a = weight(w, triangle[0]);
    let b = weight(w, triangle[1]);
    let c = weight(w, triangle[2]);
    (a + b + c) % 2 == 0
}

/// Whether none of the numbers at the three sides is greater than the other two together.
fn has_no_long_side(w: &[u128], triangle: &[Label; 3]) -> bool
    requires small { AreSmall w.now }
    requires sides { All (λ x. edge_of x < length w.now) triangle.now }
    ensures { IsTrue result ↔ HasNoLongSide w.now triangle.now }
{
    let a = weight(w, triangle[0]);
    let b = weight(w, triangle[1]);
    let c = weight(w, triangle[2]);
    a <= b + c && b <= a + c && c <= a + b
}

/// The number at the edge of a label.
pub(crate) fn weight(w: &[u128], x: Label) -> u128
    requires small { AreSmall w.now }
    requires inside { edge_of x < length w.now }
    ensures value { result ≡ weight w.now x }
    ensures small { result < COORDINATE_LIMIT }
{
    w[x.edge() as usize]
}
