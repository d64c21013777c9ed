//! What is proved of carried tracks. The functions do nothing: their contracts are the laws.
ghost use Rattle.carry_map.specs.AgreementLaws.{AllAgreementLaws};
ghost use Rattle.carry_map.specs.AnchorLaws.{AllAnchorLaws};
ghost use Rattle.carry_map.specs.IterateLaws.{IterateLaws};

use ideal_tri::{label_laws, surface_laws, word_laws};
use train_track::track_laws;
use transition_matrix::{growth_laws, matrix_laws};
use tri_atlas::map_laws;

/// What is proved of carried tracks: there is a closed legal walk. Each has an image under each
/// iterate of the map, which is a closed legal walk again; it goes where the train paths lead,
/// passes the branches as the matrix counts, and grows between the bounds. The iterates of the map
/// of a path are the maps of the path taken several times. It does nothing: a caller learns the
/// laws.
pub fn iterate_laws()
    ensures { IterateLaws }
{
    label_laws();
    surface_laws();
    word_laws();
    map_laws();
    track_laws();
    matrix_laws();
    growth_laws();
}

/// What is proved of the choices of where the switches go: each branch has one train path at most,
/// and where each has one, the map carries the track. It does nothing: a caller learns the laws.
pub fn anchor_laws()
    ensures { AllAnchorLaws }
{
    label_laws();
    surface_laws();
    word_laws();
    map_laws();
    track_laws();
}

/// What is proved of two maps that agree on the labels of a triangulation: they have the same
/// places, anchors and train paths, are maps of walks alike, and carry the same tracks in the same
/// ways. It does nothing: a caller learns the laws.
pub fn agreement_laws()
    ensures { AllAgreementLaws }
{
    surface_laws();
    word_laws();
    map_laws();
}
