//! The order of words, and whether a closed word is the least that runs along its curve.
ghost use Rattle.std.specs.Prelude.{◌≡◌, ◌<◌, ◌≤◌, ◌↔◌, ◌++◌, length, take, drop, IsTrue, IfOk};
ghost use Rattle.ideal_tri.specs.Vertices.{rank};
ghost use Rattle.ideal_tri.specs.Words.{inverse_word};
ghost use Rattle.multicurve_cert.specs.Cycles.{IsWordBefore};
ghost use Rattle.multicurve_cert.specs.inside.CycleParts.{IsLeast};

use ideal_tri::{Label, Memory, label_laws, letter_laws, word_laws};
use std::alloc::Global;

/// The place of a label in the order 0, -1, 1, -2, ..
pub(crate) fn rank(x: Label) -> u64
    ensures { result ≡ rank x }
{
    let edge = u64::from(x.edge());
    if x.get() < 0 { 2 * edge + 1 } else { 2 * edge }
}

/// Whether the first of two words of one length comes before the second: the first letter that
/// differs decides.
fn is_word_before(v: &[Label], w: &[Label]) -> bool
    requires { length v.now ≡ length w.now }
    ensures { IsTrue result ↔ IsWordBefore v.now w.now }
{
    label_laws();
    letter_laws();
    for i in 0..v.len() {
        let (x, y) = (v[i], w[i]);
        if x != y {
            return rank(x) < rank(y);
        }
    }
    false
}

/// The word begun at another of its places.
fn rotated(alloc: Global, w: &[Label], k: usize) -> Result<Vec<Label>, Memory>
    requires { k ≤ length w.now }
    ensures { IfOk result (λ v. v.items ≡ drop k w.now ++ take k w.now) }
{
    let mut turned = Vec::from_slice(alloc, &w[k..])?;
    turned.extend_from_slice(&w[..k])?;
    Ok(turned)
}

/// The way back along a word.
fn inverse_word(alloc: Global, w: &[Label]) -> Result<Vec<Label>, Memory>
    ensures { IfOk result (λ v. v.items ≡ inverse_word w.now) }
{
    let count = w.len();
    let mut back = Vec::new(alloc);
    for k in 0..count {
        back.push(w[count - 1 - k].inverse())?;
    }
    Ok(back)
}

/// Whether a closed word comes before all other words that run along the same curve: its own
/// rotations and those of the way back.
pub(crate) fn is_least(alloc: Global, w: &[Label]) -> Result<bool, Memory>
    requires { 0 < length w.now }
    ensures { IfOk result (λ least. IsTrue least ↔ IsLeast w.now) }
{
    word_laws();
    label_laws();
    let back = inverse_word(alloc, w)?;
    for k in 0..w.len() {
        if is_word_before(&rotated(alloc, w, k)?, w) {
            return Ok(false);
        }
        if is_word_before(&rotated(alloc, &back, k)?, w) {
            return Ok(false);
        }
    }
    Ok(true)
}
