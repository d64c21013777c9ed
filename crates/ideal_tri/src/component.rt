//! Components: the classes of triangles that walks join, each named by its least triangle.
ghost use Rattle.std.specs.Prelude.{◌≡◌, ◌<◌, ◌≤◌, ◌⊎◌, ◌↔◌, ℕ, ℤ, false, true, length};
ghost use Rattle.std.specs.Prelude.{slice_index_or, IfSome, IfNone};
ghost use Rattle.ideal_tri.specs.Labels.{inverse};
ghost use Rattle.ideal_tri.specs.Triangulations.{triangle_of, IsLabel, IsReached, IsTriangulation};
ghost use Rattle.ideal_tri.specs.Triangulations.{IsConnected};
ghost use Rattle.ideal_tri.specs.Refusals.{IsLeastUnreached};
ghost use Rattle.ideal_tri.specs.Components.{least_triangle, first_triangles, component_of};
ghost use Rattle.ideal_tri.specs.Components.{component_count};

use crate::label::Label;
use crate::tri::{TRIANGLES, Tri};

impl Tri {
    /// How many components there are: 1 exactly where the triangulation is connected.
    pub fn components(&self) -> u32
        ensures count { result ≡ component_count self.now }
        ensures few { result ≤ length self.now }
    {
        first_triangles(self, self.triangles())
    }

    /// The number of the component of triangle `t`. Components are numbered from 0, in the order of
    /// their least triangles.
    pub fn component(&self, t: u32) -> u32
        requires { t < length self.now }
        ensures { result ≡ component_of self.now t }
    {
        first_triangles(self, least_triangle(self, t))
    }
}

/// The least triangle that can't be reached from triangle 0.
pub(crate) fn first_unreached(tri: &Tri) -> Option<u32>
    ensures some { IfSome result (IsLeastUnreached tri.now) }
    ensures none { IfNone result (IsConnected tri.now) }
{
    let count = tri.triangles();
    let reached = reached_from(tri, 0);
    for t in 0..count {
        if !reached[t as usize] {
            return Some(t);
        }
    }
    None
}

/// How many of the first `count` triangles are the least of their components.
fn first_triangles(tri: &Tri, count: u32) -> u32
    requires { count ≤ length tri.now }
    ensures { result ≡ first_triangles tri.now count }
{
    let mut found = 0;
    for t in 0..count {
        if least_triangle(tri, t) == t {
            found += 1;
        }
    }
    found
}

/// The least triangle of the component of a triangle.
fn least_triangle(tri: &Tri, t: u32) -> u32
    requires { t < length tri.now }
    ensures least { result ≡ least_triangle tri.now t }
    ensures within { result ≤ t }
{
    let reached = reached_from(tri, t);
    for s in 0..t {
        if reached[s as usize] {
            return s;
        }
    }
    t
}

/// Which triangles can be reached from a given one.
fn reached_from(tri: &Tri, start: u32) -> [bool; TRIANGLES]
    requires { start < length tri.now }
    ensures room { length result ≡ TRIANGLES }
    ensures reached { (t : ℕ) → t < length tri.now
        → (slice_index_or result t false ≡ true) ↔ IsReached tri.now start t }
    ensures few { length tri.now ≤ TRIANGLES }
    ensures sound { IsTriangulation tri.now }
{
    let count = tri.triangles();
    let mut reached = [false; TRIANGLES];
    let mut done = [false; TRIANGLES];
    reached[start as usize] = true;
    while let Some(t) = first_open(&reached, &done, count) {
        done[t as usize] = true;
        mark_neighbours(tri, t, &mut reached);
    }
    reached
}

/// The first of `count` triangles that is reached, but whose neighbours are not marked yet.
fn first_open(reached: &[bool; TRIANGLES], done: &[bool; TRIANGLES], count: u32) -> Option<u32>
    requires room { (length reached.now ≡ TRIANGLES) × (length done.now ≡ TRIANGLES) }
    requires count { count ≤ TRIANGLES }
    ensures some { IfSome result (λ t. (t < count)
        × (slice_index_or reached.now t false ≡ true) × (slice_index_or done.now t false ≡ false)) }
    ensures none { IfNone result ((t : ℕ) → t < count
        → slice_index_or reached.now t false ≡ true → slice_index_or done.now t false ≡ true) }
{
    for t in 0..count {
        let k = t as usize;
        if reached[k] && !done[k] {
            return Some(t);
        }
    }
    None
}

/// Marks the triangles on the other sides of a triangle's sides.
fn mark_neighbours(tri: &Tri, t: u32, reached: &mut [bool; TRIANGLES])
    requires sound { IsTriangulation tri.now }
    requires triangle { t < length tri.now }
    requires few { length tri.now ≤ TRIANGLES }
    requires room { length reached.old ≡ TRIANGLES }
    ensures room { length reached.new ≡ TRIANGLES }
    ensures kept { (u : ℕ) → slice_index_or reached.old u false ≡ true
        → slice_index_or reached.new u false ≡ true }
    ensures marked { (x : ℤ) → IsLabel tri.now x → triangle_of tri.now x ≡ t
        → slice_index_or reached.new (triangle_of tri.now (inverse x)) false ≡ true }
    ensures only { (u : ℕ) → slice_index_or reached.new u false ≡ true
        → (slice_index_or reached.old u false ≡ true) ⊎ IsReached tri.now t u }
{
    let [a, b, c] = tri.triple(t);
    reached[across(tri, a) as usize] = true;
    reached[across(tri, b) as usize] = true;
    reached[across(tri, c) as usize] = true;
}

/// The triangle on the other side of a side.
fn across(tri: &Tri, x: Label) -> u32
    requires { IsLabel tri.now x }
    ensures triangle { result ≡ triangle_of tri.now (inverse x) }
    ensures within { result < length tri.now }
{
    tri.place(x.inverse()).0
}

#[cfg(test)]
mod tests {
    use super::*;
    use std::test::Fail;

    #[test]
    fn two_tori(rt: HostRuntime) -> Result<(), Fail> {
        let tori = Tri::from_components(&[[0, 1, 2], [-1, -2, -3], [3, 4, 5], [-4, -5, -6]])?;
        assert_eq!(rt; tori.components(), 2);
        assert_eq!(rt; tori.component(0), 0);
        assert_eq!(rt; tori.component(1), 0);
        assert_eq!(rt; tori.component(2), 1);
        assert_eq!(rt; tori.component(3), 1);
        assert_eq!(rt; tori.vertex_count(), 2);
        assert_eq!(rt; tori.genus(), 2);
        Ok(())
    }
}
