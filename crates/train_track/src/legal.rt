//! Kept corners, switches and legal pairs.
ghost use Rattle.std.specs.Prelude.{◌≡◌, ◌↔◌, ℤ, true, IsTrue, IfOk, All};
ghost use Rattle.ideal_tri.specs.Labels.{inverse};
ghost use Rattle.ideal_tri.specs.Triangulations.{IsTriangulation, IsLabel, triangle_of, next};
ghost use Rattle.ideal_tri.specs.Triangulations.{previous};
ghost use Rattle.train_track.specs.Tracks.{is_left_out, is_fork, is_switch, switches_of, IsLegal};
ghost use Rattle.train_track.specs.inside.Growing.{is_legal_pair, continuation};

use crate::order::label_of_edge;
use ideal_tri::{Label, Memory, Tri, label_laws, surface_laws};
use std::alloc::Global;

/// Whether a corner is left out.
#[tactic(auto, unfolding(crate::specs::Tracks::is_left_out))]
pub(crate) fn is_left_out(left_out: &[Label], x: Label) -> bool
    ensures { result ≡ is_left_out left_out.now x }
{
    left_out.contains(&x)
}

/// Whether both corners of a side are kept.
#[tactic(auto, unfolding(crate::specs::Tracks::is_fork))]
fn is_fork(tri: &Tri, left_out: &[Label], x: Label) -> bool
    requires { IsLabel tri.now x }
    ensures { result ≡ is_fork tri.now left_out.now x }
{
    let before = tri.next(tri.next(x));
    !is_left_out(left_out, x) && !is_left_out(left_out, before)
}

/// Whether the edge of a label has such a side.
#[tactic(auto, unfolding(crate::specs::Tracks::is_switch))]
pub(crate) fn is_switch(tri: &Tri, left_out: &[Label], x: Label) -> bool
    requires { IsLabel tri.now x }
    ensures { result ≡ is_switch tri.now left_out.now x }
{
    is_fork(tri, left_out, x) || is_fork(tri, left_out, x.inverse())
}

/// The switches, in the order of their numbers.
pub(crate) fn switches(alloc: Global, tri: &Tri, left_out: &[Label]) -> Result<Vec<Label>, Memory>
    ensures { IfOk result (λ found. found.items ≡ switches_of tri.now left_out.now) }
{
    let mut found = Vec::new(alloc);
    for e in 0..tri.edges() {
        let x = label_of_edge(e);
        if is_switch(tri, left_out, x) {
            found.push(x)?;
        }
    }
    Ok(found)
}

/// Whether two neighbours of a walk use a kept corner.
#[tactic(auto, unfolding(crate::specs::inside::Growing::is_legal_pair))]
pub(crate) fn is_legal_pair(tri: &Tri, left_out: &[Label], u: Label, v: Label) -> bool
    requires first { IsLabel tri.now u }
    requires second { IsLabel tri.now v }
    ensures { result ≡ is_legal_pair tri.now left_out.now u v }
{
    let entered = u.inverse();
    if tri.next(entered) == v {
        !is_left_out(left_out, entered)
    } else {
        tri.next(v) == entered && !is_left_out(left_out, v)
    }
}

/// Whether a walk is legal.
pub(crate) fn is_legal(tri: &Tri, left_out: &[Label], letters: &[Label]) -> bool
    requires sound { IsTriangulation tri.now }
    requires labels { All (IsLabel tri.now) letters.now }
    ensures { IsTrue result ↔ IsLegal tri.now left_out.now letters.now }
{
    label_laws();
    surface_laws();
    for i in 1..letters.len() {
        if !is_legal_pair(tri, left_out, letters[i - 1], letters[i]) {
            return false;
        }
    }
    true
}

/// A letter that may follow a letter: past an edge that is no switch the only one.
#[tactic(auto, unfolding(crate::specs::inside::Growing::continuation))]
pub(crate) fn continuation(tri: &Tri, left_out: &[Label], u: Label) -> Label
    requires { IsLabel tri.now u }
    ensures value { result ≡ continuation tri.now left_out.now u }
    ensures label { IsLabel tri.now result }
{
    let entered = u.inverse();
    let after = tri.next(entered);
    if is_left_out(left_out, entered) {
        tri.next(after)
    } else {
        after
    }
}
