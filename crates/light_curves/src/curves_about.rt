//! How often the curves about the light edges cross each edge.
ghost use Rattle.std.specs.Prelude.{◌≡◌, ◌<◌, ◌≤◌, ◌↔◌, ℕ, List, length, take, slice_index};
ghost use Rattle.std.specs.Prelude.{IfOk, IfSome, IfNone, IsTrue};
ghost use Rattle.ideal_tri.specs.Triangulations.{IsLabel, edge_count};
ghost use Rattle.ideal_tri.specs.declared.tri.TheConstants.{EDGES};
ghost use Rattle.tri_atlas.specs.Arena.{triangulation};
ghost use Rattle.edge_coords.specs.Coordinates.{AreCoordinatesIn, AreSmall};
ghost use Rattle.cycle_stages.specs.Light.{IsLight};
ghost use Rattle.light_curves.specs.LightCurves.{IsAboutLight, IsCrossed, IsCrossedAt};
ghost use Rattle.light_curves.specs.inside.Touched.{AreAtMostTwo, AreTouched, IsCurveAbout};
ghost use Rattle.light_curves.specs.inside.Touched.{IsNoCurveAbout};

use crate::touched_vertices::{is_touched, touched_vertices};
use cycle_stages::{greatest, is_light};
use edge_coords::Coords;
use ideal_tri::{EDGES, Label, Memory, Tri, VertexId};
use std::alloc::Global;
use tri_atlas::Atlas;

/// The curves about the edges that are light beside these coordinates, at their triangulation. None
/// where the numbers are no multicurve's.
pub(crate) fn curves_about(
    alloc: Global,
    atlas: &Atlas,
    w: &Coords,
) -> Result<Option<Coords>, Memory>
    requires { AreCoordinatesIn atlas.now w.now }
    ensures some { IfOk result (λ found. IfSome found (IsCurveAbout atlas.now w.now)) }
    ensures none { IfOk result (λ found. IfNone found
        (IsNoCurveAbout (triangulation atlas.now w.now.tri) w.now.numbers)) }
{
    let tri = atlas.tri(w.tri());
    let touched = touched_vertices(alloc, tri, w.values())?;
    let numbers = crossings(tri, w.values(), &touched);
    match Coords::new(atlas, w.tri(), &numbers[..tri.edges() as usize]) {
        Ok(curves) => Ok(Some(curves)),
        Err(_) => Ok(None),
    }
}

/// How often they cross each edge, and zeros after that.
fn crossings(tri: &Tri, w: &[u128], touched: &[VertexId]) -> [u128; EDGES]
    requires one_per_edge { length w.now ≡ edge_count tri.now }
    requires small { AreSmall w.now }
    requires touched { AreTouched tri.now w.now touched.now }
    ensures about { IsAboutLight tri.now w.now (take (edge_count tri.now) result) }
    ensures few { AreAtMostTwo (take (edge_count tri.now) result) }
    ensures room { edge_count tri.now ≤ EDGES }
{
    let greatest = greatest(w);
    let mut numbers = [0; EDGES];
    for e in 0..tri.edges() {
        let is_light = is_light(greatest, w[e as usize]);
        numbers[e as usize] = crossings_of(tri, touched, e, is_light);
    }
    numbers
}

/// How often they cross an edge: near each end that is touched, where the edge isn't light.
fn crossings_of(tri: &Tri, touched: &[VertexId], e: u32, is_light: bool) -> u128
    requires { e < edge_count tri.now }
    ensures value { (w : List ℕ) → AreTouched tri.now w touched.now
        → (IsTrue is_light ↔ IsLight w (slice_index w e)) → IsCrossed tri.now w e result }
    ensures few { result ≤ 2 }
{
    if is_light {
        return 0;
    }
    // there are at most `EDGES` edges
    let _ = tri.edges();
    let x = Label::new(e as i32);
    crossings_at(tri, touched, x) + crossings_at(tri, touched, x.inverse())
}

/// How often they cross an edge that isn't light near its end at this corner.
fn crossings_at(tri: &Tri, touched: &[VertexId], x: Label) -> u128
    requires { IsLabel tri.now x }
    ensures value { (w : List ℕ) → AreTouched tri.now w touched.now
        → IsCrossedAt tri.now w x result }
    ensures few { result ≤ 1 }
{
    if is_touched(tri, touched, x) { 1 } else { 0 }
}
