//! How a legal walk passes the branches.
ghost use Rattle.std.specs.Prelude.{◌≡◌, ◌<◌, ◌≤◌, ◌*◌, ◌↔◌, ℕ, List, map, length, IsTrue, IfOk};
ghost use Rattle.std.specs.Prelude.{All};
ghost use Rattle.train_track.specs.Branches.{words_of};
ghost use Rattle.train_track.specs.Passes.{Pass, ArePassesOf};
ghost use Rattle.train_track.specs.inside.Passing.{BeginsSomeWay, IsBeginning, CanBeCutInto};
ghost use Rattle.train_track.specs.declared.passes.TheConstants.{BRANCHES};

use free_groupoid::Walk;
use ideal_tri::{EDGES, Label, Memory, word_laws};
use std::alloc::Global;

/// No track has more branches: two for each label.
pub(crate) const BRANCHES: usize = 4 * EDGES;

/// The branches that a walk passes, in order.
pub(crate) fn passes(
    alloc: Global,
    branches: &[Walk],
    letters: &[Label],
) -> Result<Vec<u32>, Memory>
    requires few { length branches.now ≤ BRANCHES }
    requires cut { CanBeCutInto (words_of branches.now) letters.now }
    ensures { IfOk result (λ numbers. (passes : List Pass)
        × ArePassesOf (words_of branches.now) passes letters.now
        × (numbers.items ≡ map (λ p. p.branch) passes)) }
{
    word_laws();
    let mut numbers = Vec::new(alloc);
    let count = letters.len();
    let mut i = 0;
    while i + 1 < count {
        let k = passed(branches, letters[i], letters[i + 1]);
        numbers.push(k as u32)?;
        let branch = &branches[k];
        i += length_of(branch) - 1;
    }
    Ok(numbers)
}

/// How many letters a branch has.
fn length_of(branch: &Walk) -> usize
    ensures { result ≡ length branch.now.letters }
{
    branch.letters.len()
}

/// The branch that begins with these two letters, in some direction.
fn passed(branches: &[Walk], x: Label, y: Label) -> usize
    requires long { All (λ b. 2 ≤ length b) (words_of branches.now) }
    requires some { (k : ℕ) × IsBeginning (words_of branches.now) x y k }
    ensures { IsBeginning (words_of branches.now) x y result }
{
    for k in 0..branches.len() {
        let branch = &branches[k];
        if begins_some_way(&branch.letters, x, y) {
            return k;
        }
    }
    0
}

/// Whether a word of at least two letters or its inverse begins with these two.
fn begins_some_way(letters: &[Label], x: Label, y: Label) -> bool
    requires { 2 ≤ length letters.now }
    ensures { IsTrue result ↔ BeginsSomeWay x y letters.now }
{
    word_laws();
    let last = letters.len() - 1;
    if are_letters(letters[0], letters[1], x, y) {
        return true;
    }
    are_letters(letters[last].inverse(), letters[last - 1].inverse(), x, y)
}

/// Whether two letters are these.
fn are_letters(u: Label, v: Label, x: Label, y: Label) -> bool
    ensures { IsTrue result ↔ ((u ≡ x) × (v ≡ y)) }
{
    u == x && v == y
}
