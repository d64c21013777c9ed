//! The vertices where light edges end.
ghost use Rattle.std.specs.Prelude.{◌≡◌, ◌<◌, ◌++◌, ◌∷◌, ◌↔◌, [], ℕ, List, pos, negsuc, length};
ghost use Rattle.std.specs.Prelude.{IfOk, OnOk, IsTrue};
ghost use Rattle.ideal_tri.specs.Triangulations.{IsLabel, edge_count};
ghost use Rattle.ideal_tri.specs.Vertices.{vertex_of};
ghost use Rattle.edge_coords.specs.Coordinates.{AreSmall};
ghost use Rattle.light_curves.specs.LightCurves.{IsTouched};
ghost use Rattle.light_curves.specs.inside.Touched.{AreTouched};

use cycle_stages::{greatest, is_light};
use ideal_tri::{Label, Memory, Tri, VertexId, vertex_laws};
use std::alloc::Global;

/// The vertices where light edges end; some stand there more than once.
pub(crate) fn touched_vertices(
    alloc: Global,
    tri: &Tri,
    w: &[u128],
) -> Result<Vec<VertexId>, Memory>
    requires one_per_edge { length w.now ≡ edge_count tri.now }
    requires small { AreSmall w.now }
    ensures { IfOk result (λ v. AreTouched tri.now w.now v.items) }
{
    let greatest = greatest(w);
    let mut touched = Vec::new(alloc);
    for e in 0..tri.edges() {
        if is_light(greatest, w[e as usize]) {
            push_ends(tri, e, &mut touched)?;
        }
    }
    Ok(touched)
}

/// Puts the vertices where an edge ends behind the others.
fn push_ends(tri: &Tri, e: u32, vertices: &mut Vec<VertexId>) -> Result<(), Memory>
    requires { e < edge_count tri.now }
    ensures { OnOk result (vertices.new.items ≡ vertices.old.items
        ++ vertex_of tri.now (pos e) ∷ vertex_of tri.now (negsuc e) ∷ []) }
{
    // there are at most `EDGES` edges
    let _ = tri.edges();
    let x = Label::new(e as i32);
    vertices.push(tri.vertex(x))?;
    vertices.push(tri.vertex(x.inverse()))?;
    Ok(())
}

/// Whether a light edge ends at the vertex of a corner, where these are the vertices at which light
/// edges end.
pub(crate) fn is_touched(tri: &Tri, touched: &[VertexId], x: Label) -> bool
    requires { IsLabel tri.now x }
    ensures { (w : List ℕ) → AreTouched tri.now w touched.now
        → IsTrue result ↔ IsTouched tri.now w x }
{
    // what is true of every triangulation
    let _ = tri.edges();
    vertex_laws();
    touched.contains(&tri.vertex(x))
}
