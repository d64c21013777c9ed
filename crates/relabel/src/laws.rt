//! What is proved of relabellings that are kept in an atlas.
ghost use Rattle.relabel.specs.PushLaws.{PushLaws};

use tri_atlas::atlas_laws;

/// What is proved of relabellings that are kept in an atlas: one that is pushed and read backwards
/// does what its inverse does where that is pushed. It does nothing: a caller learns the laws.
pub fn push_laws()
    ensures { PushLaws }
{
    atlas_laws();
}
