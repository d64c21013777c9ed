//! The branches of a track, from their first two letters.
ghost use Rattle.std.specs.Prelude.{◌≡◌, ◌<◌, ◌≤◌, ◌+◌, ◌++◌, [], ◌∷◌, pos, length, map};
ghost use Rattle.std.specs.Prelude.{slice_index_or, All, OnOk, IfOk};
ghost use Rattle.ideal_tri.specs.Triangulations.{IsTriangulation, IsLabel};
ghost use Rattle.free_groupoid.specs.Walks.{IsWalkOn, walk_of_letters};
ghost use Rattle.train_track.specs.Tracks.{IsSingleInTriangles};
ghost use Rattle.train_track.specs.Branches.{IsBranchList, words_of};
ghost use Rattle.train_track.specs.inside.Growing.{is_found, is_listed, grow, listed, listed_from};
ghost use Rattle.train_track.specs.inside.Growing.{lesser_side, greater_side};
ghost use Rattle.train_track.specs.inside.Growing.{branch_words};
ghost use Rattle.train_track.specs.declared.passes.TheConstants.{BRANCHES};

use crate::legal::{continuation, is_legal_pair, is_switch};
use crate::order::{are_before, is_less, label_of_rank};
use free_groupoid::Walk;
use ideal_tri::{Label, Memory, Tri, label_laws, surface_laws};
use std::alloc::Global;

/// The branches: of a branch and its inverse the one that is found first.
pub(crate) fn branches(alloc: Global, tri: &Tri, left_out: &[Label]) -> Result<Vec<Walk>, Memory>
    ensures value { IfOk result (λ found. found.items
        ≡ map (walk_of_letters tri.now) (branch_words tri.now left_out.now)) }
    ensures few { IfOk result (λ found. length found.items ≤ BRANCHES) }
{
    let mut found = Vec::new(alloc);
    for k in 0..2 * tri.edges() {
        push_from(alloc, &mut found, tri, left_out, label_of_rank(k))?;
    }
    Ok(found)
}

/// The words that are listed are the branches, each found before its inverse.
pub(crate) fn branch_law(tri: &Tri, left_out: &[Label])
    requires sound { IsTriangulation tri.now }
    requires single { IsSingleInTriangles tri.now left_out.now }
    ensures walks { All (IsWalkOn tri.now) (map (walk_of_letters tri.now) (branch_words tri.now
        left_out.now)) }
    ensures list { IsBranchList tri.now left_out.now
        (words_of (map (walk_of_letters tri.now) (branch_words tri.now left_out.now))) }
{
    label_laws();
    surface_laws();
}

/// Adds those whose first letter is `x`.
#[tactic(auto, unfolding(crate::specs::inside::Growing::listed_from))]
fn push_from(
    alloc: Global,
    found: &mut Vec<Walk>,
    tri: &Tri,
    left_out: &[Label],
    x: Label,
) -> Result<(), Memory>
    requires { IsLabel tri.now x }
    ensures value { OnOk result (found.new.items
        ≡ found.old.items ++ map (walk_of_letters tri.now) (listed_from tri.now left_out.now x)) }
    ensures few { OnOk result (length found.new.items ≤ length found.old.items + 2) }
{
    if !is_switch(tri, left_out, x) {
        return Ok(());
    }
    let (first, second) = sides(tri, x);
    push_pair(alloc, found, tri, left_out, x, first)?;
    push_pair(alloc, found, tri, left_out, x, second)
}

/// The two sides by which a walk that came by `x` can leave the triangle, in the order of labels.
fn sides(tri: &Tri, x: Label) -> (Label, Label)
    requires { IsLabel tri.now x }
    ensures lesser { result.0 ≡ lesser_side tri.now x }
    ensures greater { result.1 ≡ greater_side tri.now x }
    ensures lesser_label { IsLabel tri.now result.0 }
    ensures greater_label { IsLabel tri.now result.1 }
{
    let after = tri.next(x.inverse());
    let before = tri.next(after);
    if is_less(tri, before, after) {
        (before, after)
    } else {
        (after, before)
    }
}

/// Adds the branch whose first two letters are `x` and `y`, where there is one that is listed.
#[tactic(auto, unfolding(crate::specs::inside::Growing::listed))]
fn push_pair(
    alloc: Global,
    found: &mut Vec<Walk>,
    tri: &Tri,
    left_out: &[Label],
    x: Label,
    y: Label,
) -> Result<(), Memory>
    requires first { IsLabel tri.now x }
    requires second { IsLabel tri.now y }
    ensures value { OnOk result (found.new.items
        ≡ found.old.items ++ map (walk_of_letters tri.now) (listed tri.now left_out.now x y)) }
    ensures few { OnOk result (length found.new.items ≤ length found.old.items + 1) }
{
    if is_listed(tri, left_out, x, y) {
        push_grown(alloc, found, tri, left_out, x, y)?;
    }
    Ok(())
}

/// Whether there is a branch with these first two letters, and its inverse isn't found before it.
#[tactic(auto, unfolding(crate::specs::inside::Growing::is_listed))]
fn is_listed(tri: &Tri, left_out: &[Label], x: Label, y: Label) -> bool
    requires first { IsLabel tri.now x }
    requires second { IsLabel tri.now y }
    ensures { result ≡ is_listed tri.now left_out.now x y }
{
    is_legal_pair(tri, left_out, x, y) && !is_found(tri, left_out, x, y)
}

/// Whether the inverse of the branch with these first two letters is found before it.
#[tactic(auto, unfolding(crate::specs::inside::Growing::is_found))]
fn is_found(tri: &Tri, left_out: &[Label], x: Label, y: Label) -> bool
    requires first { IsLabel tri.now x }
    requires second { IsLabel tri.now y }
    ensures { result ≡ is_found tri.now left_out.now x y }
{
    if is_switch(tri, left_out, y) {
        are_before(tri, y.inverse(), x.inverse(), x, y)
    } else {
        let z = continuation(tri, left_out, y);
        are_before(tri, z.inverse(), y.inverse(), x, y)
    }
}

/// Adds the branch with these first two letters.
#[tactic(auto, unfolding(crate::specs::inside::Growing::grow))]
fn push_grown(
    alloc: Global,
    found: &mut Vec<Walk>,
    tri: &Tri,
    left_out: &[Label],
    x: Label,
    y: Label,
) -> Result<(), Memory>
    requires first { IsLabel tri.now x }
    requires second { IsLabel tri.now y }
    ensures { OnOk result (found.new.items
        ≡ found.old.items ++ walk_of_letters tri.now (grow tri.now left_out.now x y) ∷ []) }
{
    if is_switch(tri, left_out, y) {
        push_walk(alloc, found, tri, &[x, y])
    } else {
        push_walk(alloc, found, tri, &[x, y, continuation(tri, left_out, y)])
    }
}

/// Adds the walk of these letters.
fn push_walk(
    alloc: Global,
    found: &mut Vec<Walk>,
    tri: &Tri,
    letters: &[Label],
) -> Result<(), Memory>
    requires some { 0 < length letters.now }
    requires label { IsLabel tri.now (slice_index_or letters.now 0 (pos 0)) }
    ensures { OnOk result (found.new.items
        ≡ found.old.items ++ walk_of_letters tri.now letters.now ∷ []) }
{
    let start = tri.place(letters[0]).0;
    let letters = Vec::from_slice(alloc, letters)?;
    found.push(Walk { start, letters })?;
    Ok(())
}
