//! What is proved of twists.
ghost use Rattle.twist_compile.specs.TwistLaws.{TwistLaws};

use curve_shorten::flipped_corner_laws;
use ideal_tri::{
    bijection_laws, drawing_laws, flip_laws, hit_laws, label_laws, relabelling_laws, surface_laws,
    triple_laws, word_laws,
};
use tri_atlas::{map_laws, vector_laws};

/// What is proved of the paths of twists. It does nothing: a caller learns the laws.
pub fn twist_laws()
    ensures { TwistLaws }
{
    label_laws();
    word_laws();
    surface_laws();
    triple_laws();
    flip_laws();
    hit_laws();
    bijection_laws();
    relabelling_laws();
    drawing_laws();
    map_laws();
    vector_laws();
    flipped_corner_laws();
}
