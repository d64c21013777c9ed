//! What is proved of vectors, their curves and the images of these, after moves and along paths.
ghost use Rattle.tri_atlas.specs.VectorLaws.{VectorLaws};

use ideal_tri::{
    bijection_laws, corner_laws, drawing_laws, flip_laws, label_laws, relabelling_laws,
    same_curves_laws, strand_laws, surface_laws, word_laws,
};

/// What is proved of the vectors of multicurves: after a move or a path, the rule with the maximum
/// gives the crossings of the images of the curves, cyclically reduced (Mosher; Penner and Harer).
pub fn vector_laws()
    ensures { VectorLaws }
{
    label_laws();
    word_laws();
    surface_laws();
    flip_laws();
    bijection_laws();
    relabelling_laws();
    same_curves_laws();
    corner_laws();
    drawing_laws();
    strand_laws();
}
