//! How often the word is taken behind the flips of a stage backwards.
//!
//! Candidates of a stage have the same flips, so the map that one power needs is a beginning of the
//! map that a higher one needs. It is made when a candidate asks for it, and no further.
ghost use Rattle.std.specs.Prelude.{◌≤◌, ℕ, IfOk, IfErr};
ghost use Rattle.tri_atlas.specs.Paths.{MovePath};
ghost use Rattle.surface_lib.specs.Surfaces.{IsLoop};
ghost use Rattle.cycle_stages.specs.KeptStages.{IsKept};
ghost use Rattle.verdict_plan.specs.inside.Sites.{IsBackWay, IsPastFrom, IsProgress, IsProgressAt};
ghost use Rattle.verdict_plan.specs.inside.Sites.{IsTrackAt};

use crate::ways::{Way, go_on, still};
use cycle_stages::Stage;
use ideal_tri::Memory;
use std::alloc::Global;
use train_track::Track;
use tri_atlas::{Atlas, Path, atlas_laws};

/// The flips of a stage backwards, and then the word some times.
#[derive(Drop)]
pub(crate) enum Progress {
    /// The word is taken so many times, and this is the way.
    Taken {
        /// The flips backwards and the word.
        way: Way,
        /// How often the word is taken.
        times: u32,
    },
    /// The map passes the cap.
    Past {
        /// The letters after the first move that does.
        letters: u64,
    },
}

/// The flips backwards alone. The track is that of the stage.
pub(crate) fn flips_back(
    alloc: Global,
    atlas: &Atlas,
    stage: &Stage,
    track: &Track,
) -> Result<Progress, Memory>
    requires kept { IsKept atlas.now stage.now }
    requires track { IsTrackAt atlas.now stage.now track.now }
    ensures { IfOk result (λ p. (word : MovePath) → IsProgress atlas.now word stage.now 0 p) }
{
    let _ = atlas.base();
    atlas_laws();
    let back = stage.path.inverse(alloc, atlas)?;
    let way = still(alloc, atlas, stage.path.end())?;
    match go_on(atlas, way, &back)? {
        Ok(way) => Ok(Progress::Taken { way, times: 0 }),
        Err(letters) => Ok(Progress::Past { letters }),
    }
}

/// The word taken as often as the power says.
pub(crate) fn taken_on(
    atlas: &Atlas,
    word: &Path,
    stage: &Stage,
    track: &Track,
    progress: Progress,
    power: u32,
) -> Result<Progress, Memory>
    requires closed { IsLoop atlas.now word.now }
    requires kept { IsKept atlas.now stage.now }
    requires track { IsTrackAt atlas.now stage.now track.now }
    requires progress { IsProgress atlas.now word.now stage.now power progress }
    ensures { IfOk result (IsProgressAt atlas.now word.now stage.now power) }
{
    match progress {
        Progress::Taken { way, times } => {
            match turned(atlas, word, stage, track, way, times, power)? {
                Ok(way) => Ok(Progress::Taken { way, times: power }),
                Err(letters) => Ok(Progress::Past { letters }),
            }
        }
        Progress::Past { letters } => Ok(Progress::Past { letters }),
    }
}

/// The way where the word has been taken some times, with the word taken as often as the power says.
/// `Err` has the letters after the first move that passes the cap.
fn turned(
    atlas: &Atlas,
    word: &Path,
    stage: &Stage,
    track: &Track,
    way: Way,
    times: u32,
    power: u32,
) -> Result<Result<Way, u64>, Memory>
    requires closed { IsLoop atlas.now word.now }
    requires kept { IsKept atlas.now stage.now }
    requires track { IsTrackAt atlas.now stage.now track.now }
    requires way { IsBackWay atlas.now word.now stage.now times way }
    requires times { times ≤ power }
    ensures on { IfOk result (λ r. IfOk r (IsBackWay atlas.now word.now stage.now power)) }
    ensures past { IfOk result (λ r. IfErr r (IsPastFrom atlas.now word.now stage.now power)) }
{
    atlas_laws();
    let mut way = way;
    for _ in times..power {
        match go_on(atlas, way, word)? {
            Ok(on) => way = on,
            Err(letters) => return Ok(Err(letters)),
        }
    }
    Ok(Ok(way))
}
