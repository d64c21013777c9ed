//! The further candidates for a carried train track, tried in order at the stages of one cycle.
//!
//! All depths come with the word itself first, and then with its square. Where the flips end early,
//! the candidates of the depths behind are all alike.
ghost use Rattle.std.specs.Prelude.{◌≡◌, ◌<◌, ℕ, List, IfOk};
ghost use Rattle.tri_atlas.specs.Arena.{triangulation, Grows};
ghost use Rattle.tri_atlas.specs.Paths.{moves_of};
ghost use Rattle.surface_lib.specs.Surfaces.{IsLoop};
ghost use Rattle.cycle_stages.specs.StageLists.{AreStages};
ghost use Rattle.verdict_plan.specs.FirstTracks.{HoldsWhereFound};
ghost use Rattle.verdict_plan.specs.FurtherTracks.{further_count};
ghost use Rattle.verdict_plan.specs.inside.FurtherStages.{AreLinesFrom, AreShortStages, sites_of};
ghost use Rattle.verdict_plan.specs.inside.FurtherStages.{IsFurtherAnswer, IsOutcomeOf};

use crate::repairs::try_stage;
use crate::track_search::Tracks;
use cert_text::{Pa, TrackLine};
use cycle_stages::{Stage, stage_laws};
use ideal_tri::Memory;
use std::alloc::Global;
use tri_atlas::{Atlas, Path, atlas_laws};

/// How many depths there are.
const DEPTHS: u32 = 56;

/// How many candidates there are: two powers at each depth.
const COUNT: u32 = 112;

/// Tries the further candidates for a train track that a power of the word carries into itself, in
/// order: the first that passes all tests, or for each the first test that it fails. These are the
/// stages of one cycle, at all depths. The word runs from the base to the base. The triangulations
/// of repaired tracks are added to the atlas.
pub(crate) fn search_further(
    alloc: Global,
    atlas: &mut Atlas,
    word: &Path,
    stages: &[Stage],
) -> Result<Tracks, Memory>
    requires closed { IsLoop atlas.old word.now }
    requires stages { (w : List ℕ) × AreStages atlas.old (triangulation atlas.old 0)
        (moves_of atlas.old word.now) w stages.now }
    ensures answer { IfOk result (λ tracks. (w : List ℕ)
        → AreStages atlas.old (triangulation atlas.old 0) (moves_of atlas.old word.now) w stages.now
        → IsFurtherAnswer (triangulation atlas.old 0) (moves_of atlas.old word.now) w tracks) }
    ensures holds { IfOk result (HoldsWhereFound (triangulation atlas.old 0)
        (moves_of atlas.old word.now)) }
    ensures grows { Grows atlas.old atlas.new }
{
    let _ = atlas.base();
    atlas_laws();
    stage_laws();
    let mut log = Vec::new(alloc);
    // n candidates fail
    for n in 0..COUNT {
        match outcome_of(alloc, atlas, word, stages, n, &log)? {
            Ok(pa) => return Ok(Tracks::Found { number: n, pa }),
            Err(line) => log.push(line)?,
        }
    }
    Ok(Tracks::None { log })
}

/// What the tests of candidate n give, where all before it fail and have these lines.
fn outcome_of(
    alloc: Global,
    atlas: &mut Atlas,
    word: &Path,
    stages: &[Stage],
    n: u32,
    log: &[TrackLine],
) -> Result<Result<Pa, TrackLine>, Memory>
    requires closed { IsLoop atlas.old word.now }
    requires stages { AreShortStages atlas.old stages.now }
    requires within { n < further_count }
    requires log { AreLinesFrom (triangulation atlas.old 0) (moves_of atlas.old word.now)
        (sites_of atlas.old stages.now) n log.now }
    ensures outcome { IfOk result (IsOutcomeOf (triangulation atlas.old 0)
        (moves_of atlas.old word.now) (sites_of atlas.old stages.now) n) }
    ensures grows { Grows atlas.old atlas.new }
{
    atlas_laws();
    let depth = (n % DEPTHS) as usize;
    if depth < stages.len() {
        return try_stage(alloc, atlas, word, &stages[depth], 1 + n / DEPTHS);
    }
    // the stage is that of the candidate before
    Ok(Err(log[n as usize - 1]))
}
