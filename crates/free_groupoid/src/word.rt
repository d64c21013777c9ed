//! Words of labels, in place.
ghost use Rattle.std.specs.Prelude.{◌≡◌, ◌↔◌, ◌≤◌, ◌-◌, ◌*◌, ◌++◌, ◌∷◌, [], length, take, drop};
ghost use Rattle.std.specs.Prelude.{IsTrue, OnOk};
ghost use Rattle.ideal_tri.specs.Words.{inverse_word, reduce, cyclic_reduce, strip, IsReduced};
ghost use Rattle.ideal_tri.specs.Words.{IsRotation};

use ideal_tri::{Label, Memory, label_laws, letter_laws, word_laws};

/// Reduces a word in place: no letter is left beside its inverse.
pub(crate) fn reduce(letters: &mut Vec<Label>)
    ensures { letters.new.items ≡ reduce letters.old.items }
{
    label_laws();
    letter_laws();
    word_laws();
    let count = letters.len();
    let mut top = 0;
    for i in 0..count {
        let x = letters[i];
        if top > 0 && letters[top - 1] == x.inverse() {
            top -= 1;
        } else {
            letters[top] = x;
            top += 1;
        }
    }
    letters.truncate(top);
}

/// Reduces a closed word in place, at its two ends too.
pub(crate) fn cyclic_reduce(letters: &mut Vec<Label>)
    ensures { letters.new.items ≡ cyclic_reduce letters.old.items }
{
    reduce(letters);
    let ends = matching_ends(letters);
    let kept = letters.len() - ends;
    letters.truncate(kept);
    letters.rotate_left(ends);
    letters.truncate(kept - ends);
}

/// How many letters at the start of a word meet their inverses at its end.
fn matching_ends(letters: &[Label]) -> usize
    ensures within { 2 * result ≤ length letters.now }
    ensures between { strip (length letters.now) letters.now
        ≡ take (length letters.now - 2 * result) (drop result letters.now) }
{
    label_laws();
    let count = letters.len();
    let mut ends = 0;
    while ends < count / 2 && letters[count - 1 - ends] == letters[ends].inverse() {
        ends += 1;
    }
    ends
}

/// Whether the second word is the first, begun at another of its places.
pub(crate) fn is_rotation(v: &[Label], w: &[Label]) -> bool
    ensures { IsTrue result ↔ IsRotation v.now w.now }
{
    let count = v.len();
    if w.len() != count {
        return false;
    }
    if count == 0 {
        return true;
    }
    for k in 0..count {
        if v[k..] == w[..count - k] && v[..k] == w[count - k..] {
            return true;
        }
    }
    false
}

/// Puts a letter behind a reduced word, and reduces it again.
pub(crate) fn push_reduced(word: &mut Vec<Label>, x: Label) -> Result<(), Memory>
    requires { IsReduced word.old.items }
    ensures value { OnOk result (word.new.items ≡ reduce (word.old.items ++ x ∷ [])) }
    ensures reduced { OnOk result (IsReduced word.new.items) }
{
    label_laws();
    letter_laws();
    word_laws();
    let count = word.len();
    if count > 0 && word[count - 1] == x.inverse() {
        word.truncate(count - 1);
    } else {
        word.push(x)?;
    }
    Ok(())
}

/// Puts a reduced word behind a reduced word, and reduces the two. Letters fall away only where they
/// meet; what is left of the second word goes over in one piece.
pub(crate) fn append_reduced(word: &mut Vec<Label>, more: &[Label]) -> Result<(), Memory>
    requires word { IsReduced word.old.items }
    requires more { IsReduced more.now }
    ensures { OnOk result (word.new.items ≡ reduce (word.old.items ++ more.now)) }
{
    let cancelled = cancelled_letters(word, more);
    word.truncate(word.len() - cancelled);
    word.extend_from_slice(&more[cancelled..])?;
    Ok(())
}

/// Puts the way back along a reduced word behind a reduced word, and reduces the two.
pub(crate) fn append_inverse_reduced(word: &mut Vec<Label>, more: &[Label]) -> Result<(), Memory>
    requires word { IsReduced word.old.items }
    requires more { IsReduced more.now }
    ensures { OnOk result (word.new.items ≡ reduce (word.old.items ++ inverse_word more.now)) }
{
    let cancelled = common_letters(word, more);
    word.truncate(word.len() - cancelled);
    let kept = more.len() - cancelled;
    word.reserve(kept)?;
    for k in 0..kept {
        word.push_reserved(more[kept - 1 - k].inverse());
    }
    Ok(())
}

/// How many letters at the end of a reduced word meet their inverses at the start of another.
fn cancelled_letters(word: &[Label], more: &[Label]) -> usize
    requires word { IsReduced word.now }
    requires more { IsReduced more.now }
    ensures word { result ≤ length word.now }
    ensures more { result ≤ length more.now }
    ensures left { reduce (word.now ++ more.now)
        ≡ take (length word.now - result) word.now ++ drop result more.now }
{
    label_laws();
    letter_laws();
    word_laws();
    let count = word.len();
    let most = count.min(more.len());
    for met in 0..most {
        if word[count - 1 - met] != more[met].inverse() {
            return met;
        }
    }
    most
}

/// How many letters at the ends of two reduced words are the same, so that they fall away on the
/// way back along the second.
fn common_letters(word: &[Label], more: &[Label]) -> usize
    requires word { IsReduced word.now }
    requires more { IsReduced more.now }
    ensures word { result ≤ length word.now }
    ensures more { result ≤ length more.now }
    ensures left { reduce (word.now ++ inverse_word more.now)
        ≡ take (length word.now - result) word.now
        ++ inverse_word (take (length more.now - result) more.now) }
{
    label_laws();
    letter_laws();
    word_laws();
    let count = word.len();
    let others = more.len();
    let most = count.min(others);
    for met in 0..most {
        if word[count - 1 - met] != more[others - 1 - met] {
            return met;
        }
    }
    most
}
