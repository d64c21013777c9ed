//! Vertices (punctures) and the genus, found by turning round the corners of triangles.
//!
//! The corner named `x` lies at the head of the side `x`, between `x` and the side after it. Labels
//! are ordered 0, -1, 1, -2, 2 and so on; each vertex is named by its least corner, and vertices
//! are numbered in the order of these.
ghost use Rattle.std.specs.Prelude.{◌≡◌, ◌<◌, ◌≤◌, ◌*◌, length};
ghost use Rattle.ideal_tri.specs.declared.tri.TheConstants.{EDGES, LABELS};
ghost use Rattle.ideal_tri.specs.Labels.{edge_of};
ghost use Rattle.ideal_tri.specs.Triangulations.{IsLabel, IsTriangulation, edge_count};
ghost use Rattle.ideal_tri.specs.Refusals.{IsOfGoodSize};
ghost use Rattle.ideal_tri.specs.Vertices.{rank, label_of_rank, corner_step, least_label};
ghost use Rattle.ideal_tri.specs.Vertices.{least_corner, first_corners_below, vertex_of};
ghost use Rattle.ideal_tri.specs.Vertices.{vertex_count, genus};

use crate::label::Label;
use crate::laws::vertex_laws;
use crate::tri::Tri;
use std::marker::Model;

/// A vertex of a triangulation, by its number: from 0 to one less than the count of vertices.
/// It means nothing without its triangulation.
#[derive(Clone, Copy, Debug, PartialEq, Eq)]
pub struct VertexId(u32);

impl Model for VertexId {
    ghost use Rattle.std.specs.Prelude.{ℕ};

    ghost Value = { ℕ };

    ghost view = { λ a. a.0 };

    ghost inverse = { λ n. record { 0 = n } };
}

impl VertexId {
    /// The number of the vertex.
    pub fn number(self) -> u32
        ensures { result ≡ self }
    {
        self.0
    }
}

impl Tri {
    /// The vertex at the head of the side `x`, where it meets the side after it.
    pub fn vertex(&self, x: Label) -> VertexId
        requires { IsLabel self.now x }
        ensures { result ≡ vertex_of self.now x }
    {
        let first = least_corner(self, x);
        VertexId(first_corners(self, rank(first)))
    }

    /// How many vertices there are: at least one for each component, and at most two more than half
    /// of its triangles.
    pub fn vertex_count(&self) -> u32
        ensures { result ≡ vertex_count self.now }
    {
        first_corners(self, 2 * self.edges())
    }

    /// The genus of the surface with its punctures filled in, the sum of the genera of its
    /// components. It comes from the Euler characteristic: vertices - edges + triangles = 2
    /// components - 2 genus.
    pub fn genus(&self) -> u32
        ensures { result ≡ genus self.now }
    {
        vertex_laws();
        let edges = self.edges();
        (2 * self.components() + edges - self.triangles() - self.vertex_count()) / 2
    }
}

/// The place of a label in the order of labels.
fn rank(x: Label) -> u32
    requires { edge_of x < EDGES }
    ensures { result ≡ rank x }
{
    let first = 2 * x.edge();
    if x.get() < 0 { first + 1 } else { first }
}

/// The label at a place in their order.
fn label_of_rank(k: u32) -> Label
    requires { k < LABELS }
    ensures { result ≡ label_of_rank k }
{
    let first = Label::new((k / 2) as i32);
    if k % 2 == 0 { first } else { first.inverse() }
}

/// The one of two labels that comes first in their order.
fn lesser(x: Label, y: Label) -> Label
    requires { (edge_of x < EDGES) × (edge_of y < EDGES) }
    ensures { result ≡ least_label x y }
{
    if rank(y) < rank(x) { y } else { x }
}

/// The next corner round the same vertex.
fn turn(tri: &Tri, x: Label) -> Label
    requires { IsLabel tri.now x }
    ensures turned { result ≡ corner_step tri.now x }
    ensures label { IsLabel tri.now result }
{
    tri.next(x).inverse()
}

/// The least corner at the vertex of a corner. There are no more corners than labels.
fn least_corner(tri: &Tri, x: Label) -> Label
    requires { IsLabel tri.now x }
    ensures least { result ≡ least_corner tri.now x }
    ensures label { IsLabel tri.now result }
    ensures size { IsOfGoodSize tri.now }
    ensures sound { IsTriangulation tri.now }
{
    let mut least = x;
    let mut corner = x;
    for _ in 0..2 * tri.edges() {
        corner = turn(tri, corner);
        least = lesser(least, corner);
    }
    least
}

/// How many of the first `count` labels in their order are the least corners of their vertices.
fn first_corners(tri: &Tri, count: u32) -> u32
    requires size { IsOfGoodSize tri.now }
    requires count { count ≤ 2 * edge_count tri.now }
    ensures { result ≡ length (first_corners_below tri.now count) }
{
    let mut found = 0;
    for k in 0..count {
        let x = label_of_rank(k);
        if least_corner(tri, x) == x {
            found += 1;
        }
    }
    found
}

#[cfg(test)]
mod tests {
    use super::*;
    use std::test::Fail;

    #[test]
    fn vertices_and_genus(rt: HostRuntime) -> Result<(), Fail> {
        let torus = Tri::from_triples(&[[0, 1, 2], [-1, -2, -3]])?;
        assert_eq!(rt; torus.vertex_count(), 1);
        assert_eq!(rt; torus.genus(), 1);
        let sphere = Tri::from_triples(&[[0, 1, 2], [-1, -3, -2]])?;
        assert_eq!(rt; sphere.vertex_count(), 3);
        assert_eq!(rt; sphere.genus(), 0);
        assert_eq!(rt; sphere.vertex(Label::new(0)), sphere.vertex(Label::new(-2)));
        assert_eq!(rt; sphere.vertex(Label::new(-1)).number(), 1);
        assert_eq!(rt; sphere.vertex(Label::new(-3)).number(), 2);
        let folded = Tri::from_triples(&[[0, 3, -2], [2, -5, -1], [1, 5, -3], [4, -6, -4]])?;
        assert_eq!(rt; folded.vertex_count(), 4);
        assert_eq!(rt; folded.genus(), 0);
        Ok(())
    }
}
