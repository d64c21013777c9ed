//! What a move does, and what becomes of an edge.
ghost use Rattle.std.specs.Prelude.{◌≡◌, ◌<◌, ◌≤◌, ℕ, true, false, length, take};
ghost use Rattle.ideal_tri.specs.Labels.{edge_of};
ghost use Rattle.ideal_tri.specs.Relabellings.{image_of, origin_of, inverse_images};
ghost use Rattle.tri_atlas.specs.Moves.{back_of};
ghost use Rattle.tri_atlas.specs.Arena.{label_after, is_flipped_by};
ghost use Rattle.tri_atlas.specs.Paths.{is_flip};
ghost use Rattle.tri_atlas.specs.Steps.{move_of};
ghost use Rattle.tri_atlas.specs.inside.Backwards.{IsBijective};

use crate::handles::EdgeId;
use ideal_tri::{EDGES, Label, bijection_laws, inverse_images};

/// What a move does.
#[derive(Clone, Copy, Debug)]
pub enum Step {
    /// The triangles `(e, a, b)` and `(~e, c, d)` become `(e, d, a)` and `(~e, b, c)`, where `~e`
    /// is the other direction of `e`.
    Flip {
        e: Label,
        a: Label,
        b: Label,
        c: Label,
        d: Label,
    },
    /// A flip backwards, with the sides as the flip named them: `(e, d, a)` and `(~e, b, c)` become
    /// `(e, a, b)` and `(~e, c, d)`.
    Unflip {
        e: Label,
        a: Label,
        b: Label,
        c: Label,
        d: Label,
    },
    /// The labels `0` to `n - 1` get these new labels, with `n` edges, and `~x` the other direction
    /// of that of `x`. Only the first `n` entries count.
    Relabel([Label; EDGES]),
}

/// An edge after a move.
#[derive(Clone, Copy, Debug, PartialEq, Eq)]
pub enum Carried {
    /// The same edge.
    Same(EdgeId),
    /// The edge that the flip put in the place of the one it took away.
    New(EdgeId),
}

/// The label whose new label is `x`, among those of the edges that have these new labels.
fn origin(images: &[Label], x: Label) -> Label
    requires { length images.now ≤ EDGES }
    ensures { result ≡ origin_of images.now x }
{
    for k in 0..images.len() {
        let label = Label::new(k as i32);
        if images[k] == x {
            return label;
        }
        if images[k] == x.inverse() {
            return label.inverse();
        }
    }
    x
}

/// The same move, the other way, with this number of edges.
pub(crate) fn backwards(step: &Step, edges: usize) -> Step
    requires edges { edges ≤ EDGES }
    requires bijective { IsBijective (move_of edges step.now) }
    ensures { move_of edges result ≡ back_of (move_of edges step.now) }
{
    match step {
        Step::Flip { e, a, b, c, d } => Step::Unflip {
            e: *e,
            a: *a,
            b: *b,
            c: *c,
            d: *d,
        },
        Step::Unflip { e, a, b, c, d } => Step::Flip {
            e: *e,
            a: *a,
            b: *b,
            c: *c,
            d: *d,
        },
        Step::Relabel(images) => Step::Relabel(inverse_images(images, edges)),
    }
}

/// The label of an edge after a move with this number of edges, forwards or backwards.
pub(crate) fn label_after(step: &Step, edges: usize, backwards: bool, x: Label) -> Label
    requires edges { edges ≤ EDGES }
    requires label { edge_of x < edges }
    ensures forwards { backwards ≡ false → result ≡ label_after (move_of edges step.now) x }
    ensures back { backwards ≡ true → result ≡ label_after (back_of (move_of edges step.now)) x }
{
    match step {
        Step::Flip { .. } | Step::Unflip { .. } => x,
        Step::Relabel(images) => {
            if backwards {
                image_back(images, edges, x)
            } else {
                image(images, edges, x)
            }
        }
    }
}

/// The new label of `x` where those of the edges are these.
fn image(images: &[Label; EDGES], edges: usize, x: Label) -> Label
    requires edges { edges ≤ EDGES }
    requires label { edge_of x < edges }
    ensures { result ≡ image_of (take edges images.now) x }
{
    let edge = images[x.edge() as usize];
    if x.get() < 0 { edge.inverse() } else { edge }
}

/// The new label of `x` under the relabelling backwards.
fn image_back(images: &[Label; EDGES], edges: usize, x: Label) -> Label
    requires edges { edges ≤ EDGES }
    requires label { edge_of x < edges }
    ensures { result ≡ image_of (inverse_images (take edges images.now)) x }
{
    // the origin that is found is the image under the inverse images
    bijection_laws();
    origin(&images[..edges], x)
}

/// Whether a move takes the edge of this label away, forwards or backwards.
pub(crate) fn is_flipped(step: &Step, x: Label) -> bool
    ensures { (n : ℕ) → result ≡ is_flipped_by (move_of n step.now) x }
{
    match step {
        Step::Flip { e, .. } | Step::Unflip { e, .. } => x == *e || x == e.inverse(),
        Step::Relabel(_) => false,
    }
}

/// Whether a move is a flip, forwards or backwards.
pub(crate) fn is_flip(step: &Step) -> bool
    ensures { (n : ℕ) → result ≡ is_flip (move_of n step.now) }
{
    !matches!(step, Step::Relabel(_))
}
