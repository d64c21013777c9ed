//! What the tests give for one of the first candidates at its site.
ghost use Rattle.std.specs.Prelude.{◌≡◌, ℕ, List, true, IsTrue, IfOk, OnOk, IfErr};
ghost use Rattle.tri_atlas.specs.Arena.{triangulation};
ghost use Rattle.tri_atlas.specs.Paths.{moves_of};
ghost use Rattle.surface_lib.specs.Surfaces.{IsLoop};
ghost use Rattle.multicurve_cert.specs.Cycles.{IsCycle};
ghost use Rattle.cert_text.specs.declared.lines.TrackLine.{TrackLine as AnyLine};
ghost use Rattle.cycle_stages.specs.KeptStages.{IsKept};
ghost use Rattle.verdict_plan.specs.inside.Sites.{IsBackWay, IsProgress, IsProgressAt, IsTrackAt};
ghost use Rattle.verdict_plan.specs.inside.Sites.{IsLineWith, IsStanding};
ghost use Rattle.verdict_plan.specs.inside.Known.{AreKnown};
ghost use Rattle.verdict_plan.specs.inside.Turns.{IsOutcomeAt, IsTold, IsTrial};

use crate::known::{Known, learn, line_of};
use crate::past::is_past;
use crate::progress::{Progress, taken_on};
use crate::series::Series;
use crate::sites::{Site, Standing};
use crate::track_tests::try_map;
use crate::ways::{Way, copied, go_on};
use cert_text::{Pa, TrackLine};
use cycle_stages::Stage;
use free_groupoid::{Walk, periodic_laws};
use ideal_tri::Memory;
use multicurve_cert::cycle_coords;
use std::alloc::Global;
use train_track::Track;
use tri_atlas::{Atlas, Path, atlas_laws};

/// A candidate that was tried.
#[derive(Drop)]
pub(crate) struct Trial {
    /// Its site.
    pub(crate) site: Site,
    /// Its certificate, or the first test that it fails, or none where that was not looked for.
    pub(crate) outcome: Result<Pa, Option<TrackLine>>,
}

/// What is told of the candidate with this power at its site. Its line isn't looked for where the map
/// surely passes the cap, as far as this cycle shows it, but where the answer is to be exact.
pub(crate) fn try_turn(
    alloc: Global,
    atlas: &Atlas,
    word: &Path,
    cycle: &Walk,
    site: Site,
    power: u32,
    is_exact: bool,
    known: &mut Vec<Known>,
) -> Result<Trial, Memory>
    requires closed { IsLoop atlas.now word.now }
    requires cycle { IsCycle (triangulation atlas.now 0) cycle.now.letters }
    requires kept { IsKept atlas.now site.stage }
    requires standing { IsStanding atlas.now word.now site.stage power site.standing }
    requires known { AreKnown (triangulation atlas.now 0) (moves_of atlas.now word.now)
        known.old.items }
    ensures trial { IfOk result (IsTrial atlas.now word.now site.stage power) }
    ensures told { IfOk result (λ trial. is_exact ≡ true → IsTold trial.outcome) }
    ensures known { OnOk result (AreKnown (triangulation atlas.now 0) (moves_of atlas.now word.now)
        known.new.items) }
{
    if !is_exact && is_ruled_out(atlas, word, cycle, &site, power) {
        return Ok(Trial {
            site,
            outcome: Err(None),
        });
    }
    try_site(alloc, atlas, word, site, power, known)
}

/// Whether the map of the candidate surely passes the cap, as far as this cycle shows it.
fn is_ruled_out(atlas: &Atlas, word: &Path, cycle: &Walk, site: &Site, power: u32) -> bool
    requires closed { IsLoop atlas.now word.now }
    requires cycle { IsCycle (triangulation atlas.now 0) cycle.now.letters }
    requires kept { IsKept atlas.now site.now.stage }
    requires standing { IsStanding atlas.now word.now site.now.stage power site.now.standing }
    ensures { IsTrue result → (line : AnyLine) × IsLineWith atlas.now word.now site.now.stage power
        line }
{
    match &site.standing {
        Standing::Failed(_) => false,
        Standing::Open { .. } => {
            let w = cycle_coords(atlas, cycle);
            is_past(atlas, word, &site.stage, &w, power)
        }
    }
}

/// What the tests give for the candidate with this power at its site. Its line is known after it.
pub(crate) fn try_site(
    alloc: Global,
    atlas: &Atlas,
    word: &Path,
    site: Site,
    power: u32,
    known: &mut Vec<Known>,
) -> Result<Trial, Memory>
    requires closed { IsLoop atlas.now word.now }
    requires kept { IsKept atlas.now site.stage }
    requires standing { IsStanding atlas.now word.now site.stage power site.standing }
    requires known { AreKnown (triangulation atlas.now 0) (moves_of atlas.now word.now)
        known.old.items }
    ensures trial { IfOk result (IsTrial atlas.now word.now site.stage power) }
    ensures told { IfOk result (λ trial. IsTold trial.outcome) }
    ensures known { OnOk result (AreKnown (triangulation atlas.now 0) (moves_of atlas.now word.now)
        known.new.items) }
{
    let Site { stage, standing } = site;
    match standing {
        Standing::Failed(line) => {
            let standing = Standing::Failed(line);
            Ok(Trial {
                site: Site { stage, standing },
                outcome: Err(Some(line)),
            })
        }
        Standing::Open { track, progress } => {
            match line_of(known, &stage.edges, track.left_out(), power) {
                Some(line) => {
                    let standing = Standing::Open { track, progress };
                    Ok(Trial {
                        site: Site { stage, standing },
                        outcome: Err(Some(line)),
                    })
                }
                None => try_anew(alloc, atlas, word, stage, track, progress, power, known),
            }
        }
    }
}

/// The same for a candidate with a track that isn't known.
fn try_anew(
    alloc: Global,
    atlas: &Atlas,
    word: &Path,
    stage: Stage,
    track: Track,
    progress: Progress,
    power: u32,
    known: &mut Vec<Known>,
) -> Result<Trial, Memory>
    requires closed { IsLoop atlas.now word.now }
    requires kept { IsKept atlas.now stage }
    requires track { IsTrackAt atlas.now stage track }
    requires progress { IsProgress atlas.now word.now stage power progress }
    requires known { AreKnown (triangulation atlas.now 0) (moves_of atlas.now word.now)
        known.old.items }
    ensures trial { IfOk result (IsTrial atlas.now word.now stage power) }
    ensures told { IfOk result (λ trial. IsTold trial.outcome) }
    ensures known { OnOk result (AreKnown (triangulation atlas.now 0) (moves_of atlas.now word.now)
        known.new.items) }
{
    let progress = taken_on(atlas, word, &stage, &track, progress, power)?;
    match try_open(alloc, atlas, word, &stage, &track, &progress, power)? {
        Ok(pa) => {
            let standing = Standing::Open { track, progress };
            Ok(Trial {
                site: Site { stage, standing },
                outcome: Ok(pa),
            })
        }
        Err(line) => {
            learn(alloc, known, &stage.edges, track.left_out(), power, line)?;
            let standing = Standing::Open { track, progress };
            Ok(Trial {
                site: Site { stage, standing },
                outcome: Err(Some(line)),
            })
        }
    }
}

/// What the tests give where the word is taken as often as the power says.
fn try_open(
    alloc: Global,
    atlas: &Atlas,
    word: &Path,
    stage: &Stage,
    track: &Track,
    progress: &Progress,
    power: u32,
) -> Result<Result<Pa, TrackLine>, Memory>
    requires closed { IsLoop atlas.now word.now }
    requires kept { IsKept atlas.now stage.now }
    requires track { IsTrackAt atlas.now stage.now track.now }
    requires progress { IsProgressAt atlas.now word.now stage.now power progress.now }
    ensures { IfOk result (IsOutcomeAt atlas.now word.now stage.now power) }
{
    match progress {
        Progress::Taken { way, .. } => try_way(alloc, atlas, word, stage, track, way, power),
        Progress::Past { letters } => Ok(Err(TrackLine::Cap { n: *letters })),
    }
}

/// The same where the map doesn't pass the cap before the flips.
fn try_way(
    alloc: Global,
    atlas: &Atlas,
    word: &Path,
    stage: &Stage,
    track: &Track,
    way: &Way,
    power: u32,
) -> Result<Result<Pa, TrackLine>, Memory>
    requires closed { IsLoop atlas.now word.now }
    requires kept { IsKept atlas.now stage.now }
    requires track { IsTrackAt atlas.now stage.now track.now }
    requires way { IsBackWay atlas.now word.now stage.now power way.now }
    ensures { IfOk result (IsOutcomeAt atlas.now word.now stage.now power) }
{
    let _ = atlas.base();
    atlas_laws();
    periodic_laws();
    let way = copied(alloc, atlas, way)?;
    match go_on(atlas, way, &stage.path)? {
        Ok(way) => try_map(
            alloc,
            atlas,
            track,
            &way.map,
            Series::First,
            power,
            &stage.edges,
        ),
        Err(n) => Ok(Err(TrackLine::Cap { n })),
    }
}
