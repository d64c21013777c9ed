//! The letters of a certificate, read as walks. A letter may be any number, also one of no label.
ghost use Rattle.std.specs.Prelude.{◌≡◌, ◌↔◌, ◌∷◌, IsTrue, IfOk};
ghost use Rattle.ideal_tri.specs.Triangulations.{IsWalk};
ghost use Rattle.ideal_tri.specs.Words.{IsReduced, IsCyclicallyReduced};
ghost use Rattle.free_groupoid.specs.InnerLaws.{IsReducedLoop};

use ideal_tri::{Label, Memory, Tri, letter_laws};
use std::alloc::Global;

/// The letters as labels.
pub(crate) fn labels(alloc: Global, letters: &[i32]) -> Result<Vec<Label>, Memory>
    ensures { IfOk result (λ v. v.items ≡ letters.now) }
{
    let mut labels = Vec::with_capacity(alloc, letters.len())?;
    for n in letters {
        labels.push(Label::new(*n))?;
    }
    Ok(labels)
}

/// Whether the letters are a walk from one triangle to another: each is a label, and each starts
/// where the one before ended.
pub(crate) fn is_walk(tri: &Tri, start: u32, letters: &[i32], end: u32) -> bool
    ensures { IsTrue result ↔ IsWalk tri.now start letters.now end }
{
    let mut stand = start;
    for n in letters {
        let x = Label::new(*n);
        if x.edge() >= tri.edges() || tri.place(x).0 != stand {
            return false;
        }
        stand = tri.place(x.inverse()).0;
    }
    stand == end
}

/// Whether no letter stands beside its inverse.
pub(crate) fn is_reduced(letters: &[i32]) -> bool
    ensures { IsTrue result ↔ IsReduced letters.now }
{
    if letters.is_empty() {
        return true;
    }
    is_reduced_behind(Label::new(letters[0]), &letters[1..])
}

/// Whether no letter stands beside its inverse, read round and round.
fn is_cyclically_reduced(letters: &[i32]) -> bool
    ensures { IsTrue result ↔ IsCyclicallyReduced letters.now }
{
    letter_laws();
    let count = letters.len();
    if count == 0 {
        return true;
    }
    is_reduced_behind(Label::new(letters[count - 1]), letters)
}

/// Whether no letter stands beside its inverse, where this one stands before them.
fn is_reduced_behind(before: Label, letters: &[i32]) -> bool
    ensures { IsTrue result ↔ IsReduced (before ∷ letters.now) }
{
    let mut last = before;
    for n in letters {
        let x = Label::new(*n);
        if x == last.inverse() {
            return false;
        }
        last = x;
    }
    true
}

/// Whether the letters are a closed walk, from the triangle of the first, with no letter beside its
/// inverse, read round and round; it has letters.
pub(crate) fn is_reduced_loop(tri: &Tri, letters: &[i32]) -> bool
    ensures { IsTrue result ↔ IsReducedLoop tri.now letters.now }
{
    if letters.is_empty() {
        return false;
    }
    let x = Label::new(letters[0]);
    if x.edge() >= tri.edges() {
        return false;
    }
    let start = tri.place(x).0;
    is_walk(tri, start, letters, start) && is_cyclically_reduced(letters)
}
