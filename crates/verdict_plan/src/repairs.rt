//! The further candidates, one at a time: the track at a stage, and where some switch has no anchor,
//! the same behind one flip more, of that switch.
ghost use Rattle.std.specs.Prelude.{◌≡◌, ◌<◌, ◌≤◌, ◌+◌, length, IfOk, IfErr};
ghost use Rattle.tri_atlas.specs.Arena.{triangulation, Grows};
ghost use Rattle.tri_atlas.specs.Paths.{moves_of};
ghost use Rattle.surface_lib.specs.Surfaces.{IsLoop};
ghost use Rattle.cycle_stages.specs.KeptStages.{IsKept};
ghost use Rattle.cert_text.specs.Limits.{flip_limit, power_limit};
ghost use Rattle.verdict_plan.specs.FurtherTracks.{IsLineThere, depths};
ghost use Rattle.verdict_plan.specs.inside.FurtherSites.{IsPathRound, IsPathBack, site_of};
ghost use Rattle.verdict_plan.specs.inside.FurtherSites.{IsOutcomeThere, IsOutcomeFrom};
ghost use Rattle.verdict_plan.specs.inside.FurtherSites.{HasRepaired, IsLightTrack};

use crate::light_corners::light_track;
use crate::series::Series;
use crate::track_tests::{pass_law, try_track};
use cert_text::{Pa, TrackLine};
use cycle_stages::{Stage, copied, flip_on, stage_laws};
use ideal_tri::Memory;
use std::alloc::Global;
use train_track::Track;
use tri_atlas::{Atlas, Path, atlas_laws};

/// How often a candidate is repaired at most.
const REPAIRS: u32 = 8;

/// What the tests of the candidate with this power give whose first track is at the stage: those of
/// the last of its tracks. The triangulations of the repaired ones are added to the atlas.
pub(crate) fn try_stage(
    alloc: Global,
    atlas: &mut Atlas,
    word: &Path,
    stage: &Stage,
    power: u32,
) -> Result<Result<Pa, TrackLine>, Memory>
    requires closed { IsLoop atlas.old word.now }
    requires kept { IsKept atlas.old stage.now }
    requires short { length stage.now.edges.items < depths }
    requires power { 0 < power × power ≤ power_limit }
    ensures outcome { IfOk result (IsOutcomeFrom (triangulation atlas.old 0)
        (moves_of atlas.old word.now) power (site_of atlas.old stage.now)) }
    ensures grows { Grows atlas.old atlas.new }
{
    let _ = atlas.base();
    atlas_laws();
    stage_laws();
    let mut here = copied(alloc, stage)?;
    for _ in 0..REPAIRS {
        match try_there(alloc, atlas, word, &here, power)? {
            Ok(pa) => return Ok(Ok(pa)),
            Err(line) => {
                if !repair(atlas, word, &mut here, power, line)? {
                    return Ok(Err(line));
                }
            }
        }
    }
    try_there(alloc, atlas, word, &here, power)
}

/// Where the line of the track names a switch without an anchor, one flip more, of that switch, if
/// it can be made and its new number stays below 2^126; and whether it was made.
fn repair(
    atlas: &mut Atlas,
    word: &Path,
    stage: &mut Stage,
    power: u32,
    line: TrackLine,
) -> Result<bool, Memory>
    requires closed { IsLoop atlas.old word.now }
    requires kept { IsKept atlas.old stage.old }
    requires line { IsLineThere (triangulation atlas.old 0) (moves_of atlas.old word.now) power
        (site_of atlas.old stage.old) line }
    ensures repaired { IfOk result (λ made. HasRepaired made (triangulation atlas.old 0)
        (moves_of atlas.old word.now) power (site_of atlas.old stage.old) line
        (site_of atlas.new stage.new)) }
    ensures kept { IsKept atlas.new stage.new }
    ensures grows { Grows atlas.old atlas.new }
{
    atlas_laws();
    match line {
        TrackLine::NoCommon { n } => flip_on(atlas, stage, n),
        _ => Ok(false),
    }
}

/// What the tests of the track at a stage give, with this power of the word.
fn try_there(
    alloc: Global,
    atlas: &Atlas,
    word: &Path,
    stage: &Stage,
    power: u32,
) -> Result<Result<Pa, TrackLine>, Memory>
    requires closed { IsLoop atlas.now word.now }
    requires kept { IsKept atlas.now stage.now }
    requires few { length stage.now.edges.items ≤ flip_limit }
    requires power { 0 < power × power ≤ power_limit }
    ensures { IfOk result (IsOutcomeThere (triangulation atlas.now 0)
        (moves_of atlas.now word.now) power (site_of atlas.now stage.now)) }
{
    match light_track(alloc, atlas, &stage.coords)? {
        Ok(track) => try_light(alloc, atlas, word, stage, &track, power),
        Err(line) => Ok(Err(line)),
    }
}

/// The same where the track fills.
fn try_light(
    alloc: Global,
    atlas: &Atlas,
    word: &Path,
    stage: &Stage,
    track: &Track,
    power: u32,
) -> Result<Result<Pa, TrackLine>, Memory>
    requires closed { IsLoop atlas.now word.now }
    requires kept { IsKept atlas.now stage.now }
    requires few { length stage.now.edges.items ≤ flip_limit }
    requires power { 0 < power × power ≤ power_limit }
    requires track { IsLightTrack atlas.now stage.now.coords track.now }
    ensures { IfOk result (IsOutcomeThere (triangulation atlas.now 0)
        (moves_of atlas.now word.now) power (site_of atlas.now stage.now)) }
{
    pass_law();
    let path = path_round(alloc, atlas, word, stage, power)?;
    try_track(
        alloc,
        atlas,
        track,
        &path,
        Series::Further,
        power,
        &stage.edges,
    )
}

/// The path from a stage to itself: the flips backwards, the word so many times, and the flips.
fn path_round(
    alloc: Global,
    atlas: &Atlas,
    word: &Path,
    stage: &Stage,
    power: u32,
) -> Result<Path, Memory>
    requires closed { IsLoop atlas.now word.now }
    requires kept { IsKept atlas.now stage.now }
    ensures { IfOk result (IsPathRound atlas.now word.now stage.now power) }
{
    atlas_laws();
    let mut path = path_back(alloc, atlas, word, stage, power)?;
    path.append(&stage.path)?;
    Ok(path)
}

/// The flips of a stage backwards, and the word so many times.
fn path_back(
    alloc: Global,
    atlas: &Atlas,
    word: &Path,
    stage: &Stage,
    times: u32,
) -> Result<Path, Memory>
    requires closed { IsLoop atlas.now word.now }
    requires kept { IsKept atlas.now stage.now }
    ensures { IfOk result (IsPathBack atlas.now word.now stage.now times) }
{
    let _ = atlas.base();
    atlas_laws();
    let mut path = stage.path.inverse(alloc, atlas)?;
    for _ in 0..times {
        path.append(word)?;
    }
    Ok(path)
}
