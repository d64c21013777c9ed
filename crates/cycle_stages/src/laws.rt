//! What is proved of stages.
ghost use Rattle.cycle_stages.specs.StageLaws.{StageLaws};

use tri_atlas::atlas_laws;

/// What is proved of stages: they stay as the atlas grows. It does nothing: a caller learns the laws.
pub fn stage_laws()
    ensures { StageLaws }
{
    atlas_laws();
}
