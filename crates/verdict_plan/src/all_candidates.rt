//! The first candidates and the further ones behind them.
//!
//! The further candidates for a multicurve and those for a carried track are made of the same stages:
//! those of the first cycle that is nonperipheral. Where the budget is below 256, or there is no such
//! cycle, there are no further candidates.
ghost use Rattle.std.specs.Prelude.{◌≡◌, ◌<◌, ◌≤◌, ◌+◌, ◌++◌, List, length, IfOk};
ghost use Rattle.tri_atlas.specs.Arena.{Grows, triangulation};
ghost use Rattle.tri_atlas.specs.Paths.{moves_of};
ghost use Rattle.multicurve_cert.specs.CurveAnswers.{AreAllFailing, IsFoundIn};
ghost use Rattle.surface_lib.specs.Surfaces.{IsLoop};
ghost use Rattle.verdict_plan.specs.AllCandidates.{IsAllCurvesAnswer, IsTracksAnswer};
ghost use Rattle.verdict_plan.specs.Budgets.{curve_limit, track_limit};
ghost use Rattle.verdict_plan.specs.FirstTracks.{AreNoTracks, HoldsWhereFound, track_count};
ghost use Rattle.verdict_plan.specs.FurtherTracks.{further_count};
ghost use Rattle.verdict_plan.specs.inside.OpenStages.{AreFurtherStages};
ghost use Rattle.verdict_plan.specs.inside.QuickAnswers.{AreFailing, IsAnswerBehind};
ghost use Rattle.cert_text.specs.declared.lines.TrackLine.{TrackLine as AnyLine};
ghost use Rattle.multicurve_cert.specs.Cycles.{AreCycles};
ghost use Rattle.train_track.specs.Branches.{words_of};

use crate::further_search::search_further;
use crate::track_search::{Tracks, search_first, track_count};
use cert_text::TrackLine;
use cycle_stages::{Stage, open_cycle, stage_laws, stages_of};
use edge_coords::CurveLine;
use free_groupoid::Walk;
use ideal_tri::Memory;
use light_curves::search_light;
use multicurve_cert::{Curves, cycles};
use std::alloc::Global;
use tri_atlas::{Atlas, Path, atlas_laws};

/// From this budget on there are further candidates.
const FURTHER_BUDGET: u32 = 256;

/// Tries the candidates for a train track that a power of the word carries into itself, in order: the
/// first ones with numbers below the budget, and behind them the further ones, where the budget is 256
/// or more. It answers the first that passes all tests, or for each the first test that it fails. The
/// budget is at most 4,096, and the word runs from the base to the base. The triangulations that are
/// looked at are added to the atlas.
pub fn search_tracks(
    alloc: Global,
    atlas: &mut Atlas,
    word: &Path,
    budget: u32,
) -> Result<Tracks, Memory>
    requires closed { IsLoop atlas.old word.now }
    requires budget { budget ≤ track_limit }
    ensures answer { IfOk result (IsTracksAnswer (triangulation atlas.old 0)
        (moves_of atlas.old word.now) budget) }
    ensures holds { IfOk result (HoldsWhereFound (triangulation atlas.old 0)
        (moves_of atlas.old word.now)) }
    ensures grows { Grows atlas.old atlas.new }
{
    let _ = atlas.base();
    atlas_laws();
    let stages = further_stages(alloc, atlas, word, budget)?;
    search_all(alloc, atlas, word, budget, &stages)
}

/// The stages of which the further candidates within the budget are made, none where there are no
/// such candidates.
pub(crate) fn further_stages(
    alloc: Global,
    atlas: &mut Atlas,
    word: &Path,
    budget: u32,
) -> Result<Vec<Stage>, Memory>
    requires closed { IsLoop atlas.old word.now }
    ensures stages { IfOk result (λ s. AreFurtherStages atlas.new word.now budget s.items) }
    ensures grows { Grows atlas.old atlas.new }
{
    let _ = atlas.base();
    atlas_laws();
    if budget < FURTHER_BUDGET {
        return Ok(Vec::new(alloc));
    }
    match open_cycle(alloc, atlas)? {
        Some(w) => stages_of(alloc, atlas, word, &w),
        None => Ok(Vec::new(alloc)),
    }
}

/// Goes on with the further candidates for a fixed multicurve, which are made of these stages, where
/// the first ones fail and have these lines.
pub(crate) fn further_curves(
    alloc: Global,
    atlas: &Atlas,
    word: &Path,
    budget: u32,
    stages: &[Stage],
    first: Vec<CurveLine>,
) -> Result<Curves, Memory>
    requires closed { IsLoop atlas.now word.now }
    requires budget { budget ≤ curve_limit }
    requires stages { AreFurtherStages atlas.now word.now budget stages.now }
    requires first { AreAllFailing (triangulation atlas.now 0) (moves_of atlas.now word.now) budget
        first.items }
    ensures answer { IfOk result (IsAllCurvesAnswer (triangulation atlas.now 0)
        (moves_of atlas.now word.now) budget) }
    ensures found { IfOk result (IsFoundIn atlas.now) }
{
    let mut log = first;
    if budget < FURTHER_BUDGET {
        return Ok(Curves::None { log });
    }
    if stages.is_empty() {
        return Ok(Curves::None { log });
    }
    match search_light(alloc, atlas, word, stages)? {
        Curves::Found { number, coords } => Ok(Curves::Found {
            number: number_behind(log.len(), number),
            coords,
        }),
        Curves::None { log: further } => {
            log.extend_from_slice(&further)?;
            Ok(Curves::None { log })
        }
    }
}

/// Tries the candidates for a carried track in order, the first ones and then the further ones, which
/// are made of these stages. The lines of first ones that are left out at first are looked for where
/// all fail.
pub(crate) fn search_all(
    alloc: Global,
    atlas: &mut Atlas,
    word: &Path,
    budget: u32,
    stages: &[Stage],
) -> Result<Tracks, Memory>
    requires closed { IsLoop atlas.old word.now }
    requires budget { budget ≤ track_limit }
    requires stages { AreFurtherStages atlas.old word.now budget stages.now }
    ensures answer { IfOk result (IsTracksAnswer (triangulation atlas.old 0)
        (moves_of atlas.old word.now) budget) }
    ensures holds { IfOk result (HoldsWhereFound (triangulation atlas.old 0)
        (moves_of atlas.old word.now)) }
    ensures grows { Grows atlas.old atlas.new }
{
    let _ = atlas.base();
    atlas_laws();
    stage_laws();
    let found = cycles(alloc, atlas.tri(atlas.base()))?;
    let cycles = found.as_slice();
    let count = track_count(cycles.len(), budget);
    match search_first(alloc, atlas, word, cycles, budget, false)? {
        Tracks::Found { number, pa } => Ok(Tracks::Found { number, pa }),
        Tracks::None { log } => {
            search_behind(alloc, atlas, word, budget, stages, cycles, count, log)
        }
    }
}

/// Goes on where all first candidates fail, so many, and have these lines, as far as they were looked
/// for.
fn search_behind(
    alloc: Global,
    atlas: &mut Atlas,
    word: &Path,
    budget: u32,
    stages: &[Stage],
    cycles: &[Walk],
    count: u32,
    log: Vec<TrackLine>,
) -> Result<Tracks, Memory>
    requires closed { IsLoop atlas.old word.now }
    requires budget { budget ≤ track_limit }
    requires stages { AreFurtherStages atlas.old word.now budget stages.now }
    requires cycles { AreCycles (triangulation atlas.old 0) (words_of cycles.now) }
    requires some { 0 < length cycles.now }
    requires count { count ≡ track_count (words_of cycles.now) budget }
    requires first { AreFailing (triangulation atlas.old 0) (moves_of atlas.old word.now) budget count
        log.items }
    ensures answer { IfOk result (IsTracksAnswer (triangulation atlas.old 0)
        (moves_of atlas.old word.now) budget) }
    ensures holds { IfOk result (HoldsWhereFound (triangulation atlas.old 0)
        (moves_of atlas.old word.now)) }
    ensures grows { Grows atlas.old atlas.new }
{
    let _ = atlas.base();
    atlas_laws();
    match further_tracks(alloc, atlas, word, budget, stages, count)? {
        Tracks::Found { number, pa } => Ok(Tracks::Found { number, pa }),
        Tracks::None { log: further } => {
            if log.len() == count as usize {
                return Ok(Tracks::None {
                    log: joined(log, &further)?,
                });
            }
            match search_first(alloc, atlas, word, cycles, budget, true)? {
                Tracks::Found { number, pa } => Ok(Tracks::Found { number, pa }),
                Tracks::None { log } => Ok(Tracks::None {
                    log: joined(log, &further)?,
                }),
            }
        }
    }
}

/// The lines of the first candidates, and behind them those of the further ones.
fn joined(first: Vec<TrackLine>, further: &[TrackLine]) -> Result<Vec<TrackLine>, Memory>
    ensures { IfOk result (λ log. log.items ≡ first.items ++ further.now) }
{
    let mut log = first;
    log.extend_from_slice(further)?;
    Ok(log)
}

/// Tries the further candidates for a carried track, where the first ones fail, so many.
fn further_tracks(
    alloc: Global,
    atlas: &mut Atlas,
    word: &Path,
    budget: u32,
    stages: &[Stage],
    count: u32,
) -> Result<Tracks, Memory>
    requires closed { IsLoop atlas.old word.now }
    requires budget { budget ≤ track_limit }
    requires stages { AreFurtherStages atlas.old word.now budget stages.now }
    requires first { (lines : List AnyLine) × AreNoTracks (triangulation atlas.old 0)
        (moves_of atlas.old word.now) budget lines × (length lines ≡ count) }
    ensures answer { IfOk result (IsAnswerBehind (triangulation atlas.old 0)
        (moves_of atlas.old word.now) budget) }
    ensures holds { IfOk result (HoldsWhereFound (triangulation atlas.old 0)
        (moves_of atlas.old word.now)) }
    ensures grows { Grows atlas.old atlas.new }
{
    atlas_laws();
    if budget < FURTHER_BUDGET {
        return Ok(Tracks::None {
            log: Vec::new(alloc),
        });
    }
    if stages.is_empty() {
        return Ok(Tracks::None {
            log: Vec::new(alloc),
        });
    }
    match search_further(alloc, atlas, word, stages)? {
        Tracks::Found { number, pa } => Ok(Tracks::Found {
            number: number_behind(count as usize, number),
            pa,
        }),
        Tracks::None { log } => Ok(Tracks::None { log }),
    }
}

/// The number of a further candidate behind so many first ones.
fn number_behind(first: usize, number: u32) -> u32
    requires first { first ≤ curve_limit }
    requires number { number < further_count }
    ensures { result ≡ first + number }
{
    first as u32 + number
}
