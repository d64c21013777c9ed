//! How often a cycle crosses each edge.
ghost use Rattle.std.specs.Prelude.{◌≡◌, ◌≤◌, ◌∷◌, [], length, take};
ghost use Rattle.ideal_tri.specs.Curves.{crossings};
ghost use Rattle.ideal_tri.specs.Triangulations.{edge_count};
ghost use Rattle.tri_atlas.specs.Arena.{triangulation};
ghost use Rattle.edge_coords.specs.Coordinates.{AreCoordinatesIn};
ghost use Rattle.multicurve_cert.specs.Cycles.{IsCycle, cycle_vector};

use edge_coords::Coords;
use free_groupoid::Walk;
use ideal_tri::{EDGES, Label, Tri, corner_laws, label_laws, surface_laws};
use tri_atlas::Atlas;

/// The coordinates of a cycle at the base: how often it crosses each edge.
pub fn cycle_coords(atlas: &Atlas, cycle: &Walk) -> Coords
    requires { IsCycle (triangulation atlas.now 0) cycle.now.letters }
    ensures value { result ≡ record {
      tri = 0;
      numbers = cycle_vector (triangulation atlas.now 0) cycle.now.letters;
    } }
    ensures here { AreCoordinatesIn atlas.now result }
{
    label_laws();
    surface_laws();
    corner_laws();
    let tri = atlas.tri(atlas.base());
    let numbers = numbers(tri, &cycle.letters);
    match Coords::new(atlas, atlas.base(), &numbers[..tri.edges() as usize]) {
        Ok(coords) => coords,
        // a cycle is a multicurve
        Err(_) => unreachable!(),
    }
}

/// The numbers of the edges, and zeros after them.
fn numbers(tri: &Tri, letters: &[Label]) -> [u128; EDGES]
    ensures value { take (edge_count tri.now) result ≡ cycle_vector tri.now letters.now }
    ensures room { edge_count tri.now ≤ EDGES }
{
    let mut numbers = [0; EDGES];
    for e in 0..tri.edges() {
        numbers[e as usize] = crossings(letters, e);
    }
    numbers
}

/// How many of the letters are of this edge.
fn crossings(letters: &[Label], e: u32) -> u128
    ensures { result ≡ crossings e (letters.now ∷ []) }
{
    let mut count = 0;
    for x in letters {
        if x.edge() == e {
            count += 1;
        }
    }
    count
}
