//! Sums and differences of multicurves.
ghost use Rattle.std.specs.Prelude.{◌≡◌, ◌<◌, ◌≤◌, ◌↔◌, ℕ, ℤ, List, length, take, slice_index};
ghost use Rattle.std.specs.Prelude.{IsTrue, IfOk, IfErr, OnOk, OnErr, IfSome, IfNone, OnSome};
ghost use Rattle.ideal_tri.specs.Triangulations.{edge_count, IsTriangulation};
ghost use Rattle.ideal_tri.specs.Vectors.{IsMulticurve};
ghost use Rattle.tri_atlas.specs.Arena.{Arena, IsArena, triangulation};
ghost use Rattle.edge_coords.specs.Coordinates.{AreCoordinatesIn, AreSmall};
ghost use Rattle.edge_coords.specs.Sums.{sums, differences, IsLeastOver, IsPartOf};

use crate::coords::{COORDINATE_LIMIT, Coords, first_long, first_odd};
use crate::moves::Overflow;
use ideal_tri::{EDGES, Tri, corner_laws};
use tri_atlas::Atlas;

/// The numbers that would be left are no multicurve's.
#[derive(Clone, Copy, Debug, PartialEq, Eq)]
pub struct NotMulticurve;

impl Coords {
    /// Adds the numbers of a multicurve at the same triangulation. `Overflow` names the least edge
    /// whose sum is 2^126 or more; the numbers are unchanged then.
    pub fn try_add(&mut self, other: &Coords) -> Result<(), Overflow>
        requires same { other.now.tri ≡ self.old.tri }
        requires as_many { length other.now.numbers ≡ length self.old.numbers }
        ensures added { OnOk result (self.new ≡ record {
          tri = self.old.tri;
          numbers = sums self.old.numbers other.now.numbers;
        }) }
        ensures fits { OnOk result (AreSmall (sums self.old.numbers other.now.numbers)) }
        ensures refused { IfErr result (IsLeastOver self.old.numbers other.now.numbers) }
        ensures unchanged { OnErr result (self.new ≡ self.old) }
        ensures here { (arena : Arena) → IsArena arena → AreCoordinatesIn arena self.old
            → AreCoordinatesIn arena other.now → AreCoordinatesIn arena self.new }
    {
        sum_law();
        let sums = sums(self.values(), other.values())?;
        *self = Coords::keep(self.tri(), &sums[..self.values().len()]);
        Ok(())
    }

    /// Takes the numbers of a multicurve at the same triangulation away. `NotMulticurve` exactly
    /// where a difference would be negative or the differences are no multicurve's; the numbers are
    /// unchanged then.
    pub fn try_sub(&mut self, atlas: &Atlas, other: &Coords) -> Result<(), NotMulticurve>
        requires coordinates { AreCoordinatesIn atlas.now self.old }
        requires other { AreCoordinatesIn atlas.now other.now }
        requires same { other.now.tri ≡ self.old.tri }
        ensures taken { OnOk result (self.new ≡ record {
          tri = self.old.tri;
          numbers = differences self.old.numbers other.now.numbers;
        }) }
        ensures part { OnOk result (IsPartOf (triangulation atlas.now self.old.tri)
            other.now.numbers self.old.numbers) }
        ensures refused { OnErr result (¬ IsPartOf (triangulation atlas.now self.old.tri)
            other.now.numbers self.old.numbers) }
        ensures unchanged { OnErr result (self.new ≡ self.old) }
        ensures here { AreCoordinatesIn atlas.now self.new }
    {
        match rest(atlas.tri(self.tri()), self.values(), other.values()) {
            Some(numbers) => {
                *self = Coords::keep(self.tri(), &numbers[..self.values().len()]);
                Ok(())
            }
            None => Err(NotMulticurve),
        }
    }
}

/// A sum of multicurves is a multicurve.
fn sum_law()
    ensures { (triples : List (List ℤ)) (u v : List ℕ) → IsTriangulation triples
        → IsMulticurve triples u → IsMulticurve triples v → IsMulticurve triples (sums u v) }
{
    corner_laws();
}

/// The sums, edge by edge, and zeros after them.
fn sums(u: &[u128], v: &[u128]) -> Result<[u128; EDGES], Overflow>
    requires as_many { length v.now ≡ length u.now }
    requires few { length u.now ≤ EDGES }
    requires small { AreSmall u.now }
    requires other { AreSmall v.now }
    ensures value { IfOk result (λ s. take (length u.now) s ≡ sums u.now v.now) }
    ensures fits { OnOk result (AreSmall (sums u.now v.now)) }
    ensures refused { IfErr result (IsLeastOver u.now v.now) }
{
    let mut sums = [0; EDGES];
    for e in 0..u.len() {
        let value = u[e] + v[e];
        if value >= COORDINATE_LIMIT {
            return Err(Overflow {
                edge: e as u32,
                value,
            });
        }
        sums[e] = value;
    }
    Ok(sums)
}

/// The differences, edge by edge, and zeros after them, where they are a multicurve's.
fn rest(tri: &Tri, u: &[u128], v: &[u128]) -> Option<[u128; EDGES]>
    requires one_per_edge { length u.now ≡ edge_count tri.now }
    requires as_many { length v.now ≡ length u.now }
    requires few { length u.now ≤ EDGES }
    requires small { AreSmall u.now }
    ensures value { IfSome result (λ d. take (length u.now) d ≡ differences u.now v.now) }
    ensures small { OnSome result (AreSmall (differences u.now v.now)) }
    ensures part { OnSome result (IsPartOf tri.now v.now u.now) }
    ensures none { IfNone result (¬ IsPartOf tri.now v.now u.now) }
{
    let rest = differences(u, v)?;
    if is_multicurve(tri, &rest[..u.len()]) {
        Some(rest)
    } else {
        None
    }
}

/// The differences, edge by edge, and zeros after them; none where one would be negative.
fn differences(u: &[u128], v: &[u128]) -> Option<[u128; EDGES]>
    requires as_many { length v.now ≡ length u.now }
    requires few { length u.now ≤ EDGES }
    requires small { AreSmall u.now }
    ensures value { IfSome result (λ d. take (length u.now) d ≡ differences u.now v.now) }
    ensures small { OnSome result (AreSmall (differences u.now v.now)) }
    ensures no_more { OnSome result ((e : ℕ) → e < length u.now
        → slice_index v.now e ≤ slice_index u.now e) }
    ensures none { IfNone result ((e : ℕ) × (e < length u.now)
        × (slice_index u.now e < slice_index v.now e)) }
{
    let mut rest = [0; EDGES];
    for e in 0..u.len() {
        if u[e] < v[e] {
            return None;
        }
        rest[e] = u[e] - v[e];
    }
    Some(rest)
}

/// Whether the numbers, one for each edge, are a multicurve's.
fn is_multicurve(tri: &Tri, w: &[u128]) -> bool
    requires small { AreSmall w.now }
    requires one_per_edge { length w.now ≡ edge_count tri.now }
    ensures { IsTrue result ↔ IsMulticurve tri.now w.now }
{
    first_odd(tri, w).is_none() && first_long(tri, w).is_none()
}
