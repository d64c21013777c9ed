//! What flips keep of corners.
ghost use Rattle.curve_shorten.specs.FlippedCornerLaws.{FlippedCornerLaws};

use ideal_tri::{drawing_laws, flip_laws, label_laws, surface_laws};
use tri_atlas::vector_laws;

/// What is proved of corners without strands across a flip, and of small totals. It does nothing: a
/// caller learns the laws.
pub fn flipped_corner_laws()
    ensures { FlippedCornerLaws }
{
    label_laws();
    surface_laws();
    flip_laws();
    drawing_laws();
    vector_laws();
}
