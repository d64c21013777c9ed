//! There is always a cycle.
ghost use Rattle.std.specs.Prelude.{ℤ, List};
ghost use Rattle.multicurve_cert.specs.Cycles.{IsCycle};

use ideal_tri::{Tri, label_laws, surface_laws, word_laws};

/// Each triangulation has a cycle. It does nothing: a caller learns this.
pub(crate) fn cycle_law(tri: &Tri)
    ensures { (w : List ℤ) × IsCycle tri.now w }
{
    label_laws();
    word_laws();
    surface_laws();
    let _triangles = tri.triangles();
}
