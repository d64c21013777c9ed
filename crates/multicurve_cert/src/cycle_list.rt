//! The short cycles of the dual graph.
ghost use Rattle.std.specs.Prelude.{◌≡◌, ◌≢◌, ◌<◌, ◌≤◌, ◌∷◌, [], ℤ, List, length, All, IfOk, OnOk};
ghost use Rattle.ideal_tri.specs.Triangulations.{IsLabel, IsTriangulation};
ghost use Rattle.ideal_tri.specs.Vertices.{rank};
ghost use Rattle.multicurve_cert.specs.Cycles.{AreCycleWalks, letter_limit};
ghost use Rattle.multicurve_cert.specs.inside.CycleParts.{Adds, AreOtherSides, IsCycleOf};
ghost use Rattle.multicurve_cert.specs.inside.CycleParts.{IsCycleFrom};

use crate::cycle_law::cycle_law;
use crate::cycle_test::{is_cycle, visits};
use crate::least_words::rank;
use free_groupoid::Walk;
use ideal_tri::{Label, Memory, Tri, label_laws, letter_laws, surface_laws, word_laws};
use std::alloc::Global;

/// The most letters of a cycle.
const LETTERS: usize = 8;

/// The closed walks of one to eight letters with nothing to reduce that visit no triangle twice, up to
/// rotation and direction, each as the least word (letters in the order 0, -1, 1, -2, ..) among its
/// rotations and the rotations of its inverse. Shorter ones come first, and those of one length in the
/// order of words. There is always one.
pub fn cycles(alloc: Global, tri: &Tri) -> Result<Vec<Walk>, Memory>
    ensures all { IfOk result (λ walks. (words : List (List ℤ))
        × AreCycleWalks tri.now words walks.items) }
    ensures some { IfOk result (λ walks. 0 < length walks.items) }
{
    cycle_law(tri);
    let mut walks = Vec::new(alloc);
    for n in 1..LETTERS + 1 {
        push_cycles(alloc, tri, n, &mut walks)?;
    }
    Ok(walks)
}

/// Puts the cycles of `n` letters behind the walks, in their order. None begins with a negative label:
/// its way back has the positive one.
fn push_cycles(alloc: Global, tri: &Tri, n: usize, walks: &mut Vec<Walk>) -> Result<(), Memory>
    requires some { 0 < n }
    requires short { n ≤ letter_limit }
    ensures { OnOk result (Adds tri.now (IsCycleOf tri.now n) walks.old.items walks.new.items) }
{
    label_laws();
    word_laws();
    for e in 0..tri.edges() {
        push_from_letter(alloc, tri, n, Label::new(e as i32), walks)?;
    }
    Ok(())
}

/// Puts the cycles of `n` letters that begin with this letter behind the walks, in their order.
fn push_from_letter(
    alloc: Global,
    tri: &Tri,
    n: usize,
    x: Label,
    walks: &mut Vec<Walk>,
) -> Result<(), Memory>
    requires some { 0 < n }
    requires short { n ≤ letter_limit }
    requires label { IsLabel tri.now x }
    ensures { OnOk result (Adds tri.now (IsCycleFrom tri.now n (x ∷ [])) walks.old.items
        walks.new.items) }
{
    let mut word = Vec::new(alloc);
    word.push(x)?;
    push_from(alloc, tri, n, &mut word, walks)
}

/// Puts the cycles of `n` letters that begin with the word behind the walks, in their order. The
/// word is extended letter by letter, until it visits a triangle twice or has a letter of a lower
/// edge than its first, from which on it would be less.
fn push_from(
    alloc: Global,
    tri: &Tri,
    n: usize,
    word: &mut Vec<Label>,
    walks: &mut Vec<Walk>,
) -> Result<(), Memory>
    requires labels { All (IsLabel tri.now) word.old.items }
    requires some { 0 < length word.old.items }
    requires within { length word.old.items ≤ n }
    requires short { n ≤ letter_limit }
    ensures word { OnOk result (word.new.items ≡ word.old.items) }
    ensures walks { OnOk result (Adds tri.now (IsCycleFrom tri.now n word.old.items) walks.old.items
        walks.new.items) }
{
    label_laws();
    surface_laws();
    letter_laws();
    word_laws();
    let count = word.len();
    let first = word[0];
    let last = word[count - 1];
    if last.edge() < first.edge() {
        return Ok(());
    }
    if count == n {
        return push_cycle(alloc, tri, word, walks);
    }
    let _ = tri.triangles();
    let back = last.inverse();
    if visits(tri, word, tri.place(back).0) {
        return Ok(());
    }
    let (x, y) = other_sides(tri, back);
    word.push(x)?;
    push_from(alloc, tri, n, word, walks)?;
    word.truncate(count);
    word.push(y)?;
    push_from(alloc, tri, n, word, walks)?;
    word.truncate(count);
    Ok(())
}

/// Puts the walk of the word behind the walks if it is a cycle.
fn push_cycle(alloc: Global, tri: &Tri, word: &[Label], walks: &mut Vec<Walk>) -> Result<(), Memory>
    requires labels { All (IsLabel tri.now) word.now }
    requires some { 0 < length word.now }
    requires short { length word.now ≤ letter_limit }
    ensures { OnOk result (Adds tri.now (IsCycleFrom tri.now (length word.now) word.now)
        walks.old.items walks.new.items) }
{
    if is_cycle(alloc, tri, word)? {
        walks.push(Walk {
            start: tri.place(word[0]).0,
            letters: Vec::from_slice(alloc, word)?,
        })?;
    }
    Ok(())
}

/// The two sides beside `x` in its triangle, in the order of labels.
fn other_sides(tri: &Tri, x: Label) -> (Label, Label)
    requires { IsLabel tri.now x }
    ensures { AreOtherSides tri.now x result.0 result.1 }
{
    surface_laws();
    label_laws();
    let _ = tri.triangles();
    let next = tri.next(x);
    let previous = tri.next(next);
    if rank(next) < rank(previous) {
        (next, previous)
    } else {
        (previous, next)
    }
}
