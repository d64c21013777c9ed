//! Whether a word is a cycle of the dual graph.
ghost use Rattle.std.specs.Prelude.{◌≡◌, ◌≢◌, ◌⊎◌, ◌<◌, ◌≤◌, ◌↔◌, length, All, IsTrue, IfOk};
ghost use Rattle.ideal_tri.specs.Triangulations.{IsLabel};
ghost use Rattle.free_groupoid.specs.InnerLaws.{IsReducedLoop};
ghost use Rattle.multicurve_cert.specs.Cycles.{IsCycle, letter_limit};
ghost use Rattle.multicurve_cert.specs.inside.CycleParts.{Visits, VisitsOnce};

use crate::least_words::is_least;
use ideal_tri::{Label, Memory, Tri, label_laws, letter_laws};
use std::alloc::Global;

/// Whether a word of one to eight letters is a cycle: closed, with nothing to reduce, through no
/// triangle twice, and the least that runs along its curve.
pub(crate) fn is_cycle(alloc: Global, tri: &Tri, w: &[Label]) -> Result<bool, Memory>
    requires labels { All (IsLabel tri.now) w.now }
    requires some { 0 < length w.now }
    requires short { length w.now ≤ letter_limit }
    ensures { IfOk result (λ yes. IsTrue yes ↔ IsCycle tri.now w.now) }
{
    if is_loop(tri, w) && visits_once(tri, w) {
        is_least(alloc, w)
    } else {
        Ok(false)
    }
}

/// Whether each letter starts where the one before ended, the first where the last did, and none is
/// the inverse of the one before.
fn is_loop(tri: &Tri, w: &[Label]) -> bool
    requires labels { All (IsLabel tri.now) w.now }
    requires some { 0 < length w.now }
    ensures { IsTrue result ↔ IsReducedLoop tri.now w.now }
{
    letter_laws();
    label_laws();
    let mut last = w[w.len() - 1];
    for x in w {
        let back = last.inverse();
        if tri.place(back).0 != tri.place(*x).0 {
            return false;
        }
        if *x == back {
            return false;
        }
        last = *x;
    }
    true
}

/// Whether no two letters start at one triangle.
fn visits_once(tri: &Tri, w: &[Label]) -> bool
    requires { All (IsLabel tri.now) w.now }
    ensures { IsTrue result ↔ VisitsOnce tri.now w.now }
{
    for i in 0..w.len() {
        if visits(tri, &w[..i], tri.place(w[i]).0) {
            return false;
        }
    }
    true
}

/// Whether some letter starts at triangle `t`.
pub(crate) fn visits(tri: &Tri, w: &[Label], t: u32) -> bool
    requires { All (IsLabel tri.now) w.now }
    ensures { IsTrue result ↔ Visits tri.now w.now t }
{
    for x in w {
        if tri.place(*x).0 == t {
            return true;
        }
    }
    false
}
