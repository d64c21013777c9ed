//! Strands, and the way from each to the next along its curve.
ghost use Rattle.std.specs.Prelude.{◌≡◌, ◌<◌, ◌≤◌, length};
ghost use Rattle.ideal_tri.specs.Labels.{edge_of};
ghost use Rattle.ideal_tri.specs.Triangulations.{IsLabel, IsTriangulation};
ghost use Rattle.ideal_tri.specs.Vectors.{IsMulticurve, weight, corner_count};
ghost use Rattle.ideal_tri.specs.StrandLaws.{StrandLaws};
ghost use Rattle.ideal_tri.specs.Strands.{IsStrand, opposite, cross, strand_step};
ghost use Rattle.tri_atlas.specs.Arena.{triangulation};
ghost use Rattle.edge_coords.specs.Coordinates.{AreCoordinatesIn};

use edge_coords::Coords;
use ideal_tri::{Label, Tri, drawing_laws, strand_laws};
use std::marker::Model;
use tri_atlas::Atlas;

/// A strand as it is seen from one side of its edge: a label, and a place counted from its tail,
/// from 0, below the number of the edge.
#[derive(Clone, Copy, Debug, PartialEq, Eq)]
pub(crate) struct Strand {
    pub(crate) label: Label,
    pub(crate) place: u128,
}

impl Model for Strand {
    ghost use Rattle.ideal_tri.specs.Strands.{State};

    ghost Value = { State };

    ghost view = { λ a. record { label = a.label; place = a.place } };

    ghost inverse = { λ q. record { label = q.label; place = q.place } };
}

/// The number of strands over the edge of a label.
pub(crate) fn weight(w: &Coords, x: Label) -> u128
    requires { edge_of x < length w.now.numbers }
    ensures { result ≡ weight w.now.numbers x }
{
    w.values()[x.edge() as usize]
}

/// The next strand along the curve: out of the triangle of the label, and through the triangle
/// behind its edge.
pub(crate) fn step(atlas: &Atlas, w: &Coords, q: Strand) -> Strand
    requires coordinates { AreCoordinatesIn atlas.now w.now }
    requires strand { IsStrand (triangulation atlas.now w.now.tri) w.now.numbers q }
    ensures value { result ≡ strand_step (triangulation atlas.now w.now.tri) w.now.numbers q }
    ensures strand { IsStrand (triangulation atlas.now w.now.tri) w.now.numbers result }
{
    step_laws(atlas, w);
    cross(atlas, w, opposite(atlas, w, q))
}

/// What holds of the steps of strands at the triangulation of the vector.
pub(crate) fn step_laws(atlas: &Atlas, w: &Coords)
    requires { AreCoordinatesIn atlas.now w.now }
    ensures { StrandLaws (triangulation atlas.now w.now.tri) }
{
    let _ = atlas.tri(w.tri());
    strand_laws();
}

/// The same strand, seen from the other side of its edge.
fn opposite(atlas: &Atlas, w: &Coords, q: Strand) -> Strand
    requires coordinates { AreCoordinatesIn atlas.now w.now }
    requires strand { IsStrand (triangulation atlas.now w.now.tri) w.now.numbers q }
    ensures value { result ≡ opposite w.now.numbers q }
    ensures strand { IsStrand (triangulation atlas.now w.now.tri) w.now.numbers result }
{
    Strand {
        label: q.label.inverse(),
        place: weight(w, q.label) - 1 - q.place,
    }
}

/// Through the triangle of the label, to the side where the strand leaves it.
fn cross(atlas: &Atlas, w: &Coords, q: Strand) -> Strand
    requires coordinates { AreCoordinatesIn atlas.now w.now }
    requires strand { IsStrand (triangulation atlas.now w.now.tri) w.now.numbers q }
    ensures { result ≡ cross (triangulation atlas.now w.now.tri) w.now.numbers q }
{
    let tri = atlas.tri(w.tri());
    let after = tri.next(q.label);
    let before = tri.next(after);
    corner_within(tri, w, before);
    if w.corner_count(atlas, before) <= q.place {
        Strand {
            label: after,
            place: weight(w, q.label) - 1 - q.place,
        }
    } else {
        Strand {
            label: before,
            place: weight(w, before) - 1 - q.place,
        }
    }
}

/// There are no more strands round a corner than over the side at whose head it lies.
fn corner_within(tri: &Tri, w: &Coords, x: Label)
    requires sound { IsTriangulation tri.now }
    requires multicurve { IsMulticurve tri.now w.now.numbers }
    requires label { IsLabel tri.now x }
    ensures { corner_count tri.now w.now.numbers x ≤ weight w.now.numbers x }
{
    drawing_laws();
}
