//! Words of labels, made and taken apart.
ghost use Rattle.std.specs.Prelude.{◌≡◌, ◌≢◌, ◌++◌, [], OnOk};
ghost use Rattle.ideal_tri.specs.Words.{but_last, inverse_word, reduce};
ghost use Rattle.train_track.specs.Branches.{letter_at};
ghost use Rattle.carry_map.specs.CarriedMaps.{final};

use free_groupoid::Walk;
use ideal_tri::{Label, Memory, letter_laws};

/// Puts the way back along a word behind another.
pub(crate) fn push_inverse(word: &[Label], letters: &mut Vec<Label>) -> Result<(), Memory>
    ensures { OnOk result (letters.new.items ≡ letters.old.items ++ inverse_word word.now) }
{
    let count = word.len();
    for k in 0..count {
        letters.push(word[count - 1 - k].inverse())?;
    }
    Ok(())
}

/// A word without neighbours that are inverse to each other.
pub(crate) fn reduced(letters: Vec<Label>) -> Vec<Label>
    ensures { result.items ≡ reduce letters.items }
{
    let mut walk = Walk { start: 0, letters };
    walk.reduce();
    walk.letters
}

/// The first letter.
pub(crate) fn first_letter(word: &[Label]) -> Label
    requires { word.now ≢ [] }
    ensures { result ≡ letter_at word.now 0 }
{
    word[0]
}

/// The last letter.
pub(crate) fn last_letter(word: &[Label]) -> Label
    requires { word.now ≢ [] }
    ensures { result ≡ final word.now }
{
    letter_laws();
    word[word.len() - 1]
}

/// The letters before the last.
pub(crate) fn before_last(word: &[Label]) -> &[Label]
    requires { word.now ≢ [] }
    ensures { result.now ≡ but_last word.now }
{
    &word[..word.len() - 1]
}
