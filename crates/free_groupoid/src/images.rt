//! Lists of words, one for each edge, in the place of letters.
ghost use Rattle.std.specs.Prelude.{◌≡◌, ◌<◌, ◌≤◌, ◌^◌, ℕ, length, take, map, IfOk, IfSome, IfNone};
ghost use Rattle.std.specs.Prelude.{All};
ghost use Rattle.ideal_tri.specs.Words.{IsReduced};
ghost use Rattle.tri_atlas.specs.Maps.{flip_image, image_of_letter};
ghost use Rattle.tri_atlas.specs.Moves.{relabel};
ghost use Rattle.tri_atlas.specs.Steps.{move_of};
ghost use Rattle.free_groupoid.specs.GroupoidMaps.{substitution, reduced_image, letters_in};
ghost use Rattle.free_groupoid.specs.inside.Images.{words_of, IsBelow};
ghost use Rattle.free_groupoid.specs.MapRefusals.{told};

use crate::letter::{is_on_side, push_flip_image, relabelled};
use crate::word::{append_inverse_reduced, append_reduced, push_reduced};
use ideal_tri::{EDGES, Label, Memory, label_laws, word_laws};
use smallvec::SmallVec;
use std::alloc::Global;
use tri_atlas::Step;

/// The words for the labels 0, 1, .. of as many edges as a triangulation may have.
pub(crate) type Words = SmallVec<Vec<Label>, EDGES>;

/// Reduced words under a move, each reduced again.
pub(crate) fn moved_words(alloc: Global, step: &Step, words: &[Vec<Label>]) -> Result<Words, Memory>
    requires below { All (IsBelow EDGES) (words_of words.now) }
    requires reduced { All IsReduced (words_of words.now) }
    ensures { IfOk result (λ v. (n : ℕ) → All (IsBelow n) (words_of words.now) → words_of v.items
        ≡ map (reduced_image (image_of_letter (move_of n step.now))) (words_of words.now)) }
{
    let mut moved = SmallVec::new(alloc);
    for word in words {
        moved.push(moved_word(alloc, step, word)?)?;
    }
    Ok(moved)
}

/// A word under a move, reduced as it grows. A letter has at most three images, and the room for
/// all of them is taken first.
fn moved_word(alloc: Global, step: &Step, word: &[Label]) -> Result<Vec<Label>, Memory>
    requires below { IsBelow EDGES word.now }
    requires reduced { IsReduced word.now }
    ensures { IfOk result (λ v. (n : ℕ) → IsBelow n word.now
        → v.items ≡ reduced_image (image_of_letter (move_of n step.now)) word.now) }
{
    match step {
        Step::Flip { e, b, d, .. } => flipped_word(alloc, *e, *b, *d, word),
        Step::Unflip { e, b, d, .. } => flipped_word(alloc, e.inverse(), *b, *d, word),
        Step::Relabel(images) => relabelled_word(alloc, images, word),
    }
}

/// A reduced word under the flip of `e` with these sides. Only letters on the sides change, so the
/// letters between two of them go over in one piece.
fn flipped_word(
    alloc: Global,
    e: Label,
    b: Label,
    d: Label,
    word: &[Label],
) -> Result<Vec<Label>, Memory>
    requires { IsReduced word.now }
    ensures { IfOk result (λ v. v.items ≡ reduced_image (flip_image e b d) word.now) }
{
    label_laws();
    word_laws();
    let mut moved = Vec::with_capacity(alloc, word.len().saturating_mul(3))?;
    let mut start = 0;
    for i in 0..word.len() {
        let x = word[i];
        if is_on_side(b, d, x) {
            append_reduced(&mut moved, &word[start..i])?;
            push_flip_image(&mut moved, e, b, d, x)?;
            start = i + 1;
        }
    }
    append_reduced(&mut moved, &word[start..])?;
    Ok(moved)
}

/// A word under a relabelling. Only the images of as many labels count as there are edges.
fn relabelled_word(
    alloc: Global,
    images: &[Label; EDGES],
    word: &[Label],
) -> Result<Vec<Label>, Memory>
    requires { IsBelow EDGES word.now }
    ensures { IfOk result (λ v. (n : ℕ) → IsBelow n word.now
        → v.items ≡ reduced_image (image_of_letter (relabel (take n images.now))) word.now) }
{
    word_laws();
    let mut moved = Vec::with_capacity(alloc, word.len())?;
    for x in word {
        push_reduced(&mut moved, relabelled(images, *x))?;
    }
    Ok(moved)
}

/// Each word with others in the place of its letters, reduced.
pub(crate) fn composed_words(
    alloc: Global,
    words: &[Vec<Label>],
    others: &[Vec<Label>],
) -> Result<Words, Memory>
    requires below { All (IsBelow (length others.now)) (words_of words.now) }
    requires reduced { All IsReduced (words_of others.now) }
    ensures { IfOk result (λ v. words_of v.items
        ≡ map (reduced_image (substitution (words_of others.now))) (words_of words.now)) }
{
    let mut composed = SmallVec::new(alloc);
    for word in words {
        composed.push(substituted(alloc, others, word)?)?;
    }
    Ok(composed)
}

/// A word with these reduced words in the place of its letters, reduced as it grows.
pub(crate) fn substituted(
    alloc: Global,
    words: &[Vec<Label>],
    word: &[Label],
) -> Result<Vec<Label>, Memory>
    requires below { IsBelow (length words.now) word.now }
    requires reduced { All IsReduced (words_of words.now) }
    ensures { IfOk result (λ v. v.items ≡ reduced_image (substitution (words_of words.now))
        word.now) }
{
    word_laws();
    let mut image = Vec::new(alloc);
    for x in word {
        let letters = &words[x.edge() as usize];
        if x.get() >= 0 {
            append_reduced(&mut image, letters)?;
        } else {
            append_inverse_reduced(&mut image, letters)?;
        }
    }
    Ok(image)
}

/// How many letters the words have together, or 2^64 - 1 where there are more.
fn letters_in(words: &[Vec<Label>]) -> u64
    ensures { result ≡ told (letters_in (words_of words.now)) }
{
    let mut letters = 0u64;
    for word in words {
        letters = letters.saturating_add(word.len() as u64);
    }
    letters
}

/// The number of letters, exactly where it is above the cap.
pub(crate) fn letters_past(words: &[Vec<Label>], cap: u64) -> Option<u64>
    requires { cap < 2 ^ 63 }
    ensures some { IfSome result (λ n. (cap < letters_in (words_of words.now))
        × (n ≡ told (letters_in (words_of words.now)))) }
    ensures none { IfNone result (letters_in (words_of words.now) ≤ cap) }
{
    let letters = letters_in(words);
    if letters > cap { Some(letters) } else { None }
}
