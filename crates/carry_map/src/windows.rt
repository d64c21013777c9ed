//! The legal walks from a switch, as far as three letters on.
ghost use Rattle.std.specs.Prelude.{◌≡◌, ◌++◌, ◌∷◌, [], map, IfOk, OnOk, All};
ghost use Rattle.std.specs.List.{flat_map};
ghost use Rattle.ideal_tri.specs.Words.{last_of};
ghost use Rattle.ideal_tri.specs.Triangulations.{IsLabel};
ghost use Rattle.train_track.specs.Tracks.{is_left_out};
ghost use Rattle.carry_map.specs.inside.Rays.{words_in, if_kept, longer, three_longer};

use ideal_tri::{Label, Memory, Tri, label_laws, letter_laws, surface_laws};
use std::alloc::Global;

/// The words that begin with these letters and go on legally by three more; without letters they go
/// on from `u`, and else `u` is the first letter.
pub(crate) fn three_longer(
    alloc: Global,
    tri: &Tri,
    left_out: &[Label],
    u: Label,
    begun: &[Label],
) -> Result<Vec<Vec<Label>>, Memory>
    requires { IsLabel tri.now (last_of u begun.now) }
    ensures { IfOk result (λ v. words_in v.items ≡ three_longer tri.now left_out.now u begun.now) }
{
    let _ = tri.triangles();
    label_laws();
    surface_laws();
    let mut one = Vec::new(alloc);
    push_longer(alloc, &mut one, tri, left_out, u, begun)?;
    let two = all_longer(alloc, tri, left_out, u, &one)?;
    all_longer(alloc, tri, left_out, u, &two)
}

/// All words with each letter that may follow them.
fn all_longer(
    alloc: Global,
    tri: &Tri,
    left_out: &[Label],
    u: Label,
    words: &[Vec<Label>],
) -> Result<Vec<Vec<Label>>, Memory>
    requires { All (λ w. IsLabel tri.now (last_of u w)) (words_in words.now) }
    ensures value { IfOk result (λ v. words_in v.items
        ≡ flat_map (longer tri.now left_out.now u) (words_in words.now)) }
    ensures labels { IfOk result (λ v.
        All (λ w. IsLabel tri.now (last_of u w)) (words_in v.items)) }
{
    let _ = tri.triangles();
    label_laws();
    surface_laws();
    let mut found = Vec::new(alloc);
    for word in words {
        push_longer(alloc, &mut found, tri, left_out, u, word)?;
    }
    Ok(found)
}

/// Adds the word with each letter that may follow it.
fn push_longer(
    alloc: Global,
    found: &mut Vec<Vec<Label>>,
    tri: &Tri,
    left_out: &[Label],
    u: Label,
    word: &[Label],
) -> Result<(), Memory>
    requires { IsLabel tri.now (last_of u word.now) }
    ensures { OnOk result (words_in found.new.items
        ≡ words_in found.old.items ++ longer tri.now left_out.now u word.now) }
{
    label_laws();
    let entered = last_letter(u, word).inverse();
    let after = tri.next(entered);
    let before = tri.next(after);
    push_kept(alloc, found, left_out, word, entered, after)?;
    push_kept(alloc, found, left_out, word, before, before)
}

/// Adds the word with the letter `y`, where the corner is kept.
fn push_kept(
    alloc: Global,
    found: &mut Vec<Vec<Label>>,
    left_out: &[Label],
    word: &[Label],
    corner: Label,
    y: Label,
) -> Result<(), Memory>
    ensures { OnOk result (words_in found.new.items ≡ words_in found.old.items
        ++ map (λ z. word.now ++ (z ∷ [])) (if_kept left_out.now corner y)) }
{
    if is_left_out(left_out, corner) {
        return Ok(());
    }
    let mut longer = Vec::from_slice(alloc, word)?;
    longer.push(y)?;
    found.push(longer)?;
    Ok(())
}

/// Whether a corner is left out.
#[tactic(auto, unfolding(train_track::specs::Tracks::is_left_out))]
fn is_left_out(left_out: &[Label], corner: Label) -> bool
    ensures { result ≡ is_left_out left_out.now corner }
{
    left_out.contains(&corner)
}

/// The last letter of a word, or `u` where it has none.
fn last_letter(u: Label, word: &[Label]) -> Label
    ensures { result ≡ last_of u word.now }
{
    letter_laws();
    let count = word.len();
    if count == 0 {
        return u;
    }
    word[count - 1]
}
