//! The image of a letter under a move.
ghost use Rattle.std.specs.Prelude.{◌≡◌, ◌↔◌, ◌<◌, ◌++◌, ◌∷◌, [], ℕ, take, OnOk};
ghost use Rattle.std.specs.Prelude.{IsTrue};
ghost use Rattle.std.specs.Option.{option_to_list};
ghost use Rattle.ideal_tri.specs.Labels.{inverse, edge_of};
ghost use Rattle.ideal_tri.specs.Words.{inverse_word, reduce, IsReduced};
ghost use Rattle.ideal_tri.specs.Triangulations.{IsLabel};
ghost use Rattle.ideal_tri.specs.Relabellings.{image_of};
ghost use Rattle.tri_atlas.specs.Arena.{triangulation, IsMoveIn, source_of, step_of};
ghost use Rattle.tri_atlas.specs.Maps.{step_before, flip_image, image_of_letter};
ghost use Rattle.free_groupoid.specs.inside.Images.{IsOnSide};

use crate::word::push_reduced;
use ideal_tri::{EDGES, Label, Memory, word_laws};
use smallvec::SmallVec;
use std::alloc::Global;
use tri_atlas::{Atlas, MoveId, Step};

/// The image of one letter under one move: at most three letters, kept in the value itself.
pub type LetterImage = SmallVec<Label, 3>;

/// The image of the letter `x`, a label where the move starts. It takes no memory; the allocator is
/// what the vector keeps.
pub fn move_image(alloc: Global, atlas: &Atlas, m: MoveId, x: Label) -> LetterImage
    requires here { IsMoveIn atlas.now m }
    requires label { IsLabel (triangulation atlas.now (source_of atlas.now m)) x }
    ensures value { result.items ≡ image_of_letter (step_of atlas.now m) x }
    ensures in_place { result.capacity ≡ 3 }
{
    prove!(x.edge() < atlas.tri(atlas.source(m)).edges());
    match atlas.step(m) {
        Step::Flip { e, b, d, .. } => flip_image(alloc, e, b, d, x),
        Step::Unflip { e, b, d, .. } => flip_image(alloc, e.inverse(), b, d, x),
        Step::Relabel(images) => {
            let mut image = SmallVec::new(alloc);
            image.push_reserved(relabelled(&images, x));
            image
        }
    }
}

/// The image of a letter under the flip of `e` with these sides.
fn flip_image(alloc: Global, e: Label, b: Label, d: Label, x: Label) -> LetterImage
    ensures value { result.items ≡ flip_image e b d x }
    ensures in_place { result.capacity ≡ 3 }
{
    let mut image = SmallVec::new(alloc);
    if let Some(y) = step_before(e, b, d, x) {
        image.push_reserved(y);
    }
    image.push_reserved(x);
    if let Some(y) = step_after(e, b, d, x) {
        image.push_reserved(y);
    }
    image
}

/// Puts the image of a letter under the flip of `e` with these sides behind a reduced word, and
/// reduces it again.
pub(crate) fn push_flip_image(
    word: &mut Vec<Label>,
    e: Label,
    b: Label,
    d: Label,
    x: Label,
) -> Result<(), Memory>
    requires { IsReduced word.old.items }
    ensures { OnOk result (word.new.items ≡ reduce (word.old.items ++ flip_image e b d x)) }
{
    word_laws();
    push_if_any(word, step_before(e, b, d, x))?;
    push_reduced(word, x)?;
    push_if_any(word, step_after(e, b, d, x))?;
    Ok(())
}

/// Puts a letter, if there is one, behind a reduced word, and reduces it again.
fn push_if_any(word: &mut Vec<Label>, x: Option<Label>) -> Result<(), Memory>
    requires { IsReduced word.old.items }
    ensures value { OnOk result (word.new.items ≡ reduce (word.old.items ++ option_to_list x)) }
    ensures reduced { OnOk result (IsReduced word.new.items) }
{
    word_laws();
    match x {
        Some(x) => push_reduced(word, x),
        None => Ok(()),
    }
}

/// Whether a letter is of the edge of one of these sides. A flip leaves all other letters as they
/// are.
pub(crate) fn is_on_side(b: Label, d: Label, x: Label) -> bool
    ensures { IsTrue result ↔ IsOnSide b d x }
{
    x.edge() == b.edge() || x.edge() == d.edge()
}

/// The step along the new edge that a flip of `e` with these sides puts before a letter.
fn step_before(e: Label, b: Label, d: Label, x: Label) -> Option<Label>
    ensures { option_to_list result ≡ step_before e b d x }
{
    if x == b {
        Some(e)
    } else if x == d {
        Some(e.inverse())
    } else {
        None
    }
}

/// The step that it puts after a letter: the way back of that before the inverse.
fn step_after(e: Label, b: Label, d: Label, x: Label) -> Option<Label>
    ensures { option_to_list result ≡ inverse_word (step_before e b d (inverse x)) }
{
    match step_before(e, b, d, x.inverse()) {
        Some(y) => Some(y.inverse()),
        None => None,
    }
}

/// The new label of `x`, where those of the edges are these. Only as many count as there are edges.
pub(crate) fn relabelled(images: &[Label; EDGES], x: Label) -> Label
    requires { edge_of x < EDGES }
    ensures { (n : ℕ) → edge_of x < n → result ≡ image_of (take n images.now) x }
{
    let edge = images[x.edge() as usize];
    if x.get() < 0 { edge.inverse() } else { edge }
}
