//! What is proved of maps of walks.
ghost use Rattle.free_groupoid.specs.GroupoidLaws.{GroupoidLaws};

use ideal_tri::{label_laws, surface_laws, word_laws};
use tri_atlas::{atlas_laws, map_laws};

/// What is proved of maps of walks: what the calls make are maps, letter by letter the compositions
/// of the substitutions of moves, and a path followed by the way back along it leaves each map as
/// it was. It does nothing: a caller learns the laws.
pub fn groupoid_laws()
    ensures { GroupoidLaws }
{
    label_laws();
    word_laws();
    surface_laws();
    map_laws();
    atlas_laws();
}
