//! The phases of the search for a verdict, one after another.
ghost use Rattle.std.specs.Prelude.{◌≡◌, max, IfOk, IfSome};
ghost use Rattle.tri_atlas.specs.Arena.{Grows, triangulation};
ghost use Rattle.tri_atlas.specs.Paths.{moves_of};
ghost use Rattle.multicurve_cert.specs.CurveAnswers.{AreAllFailing};
ghost use Rattle.surface_lib.specs.Surfaces.{IsSurface, IsLoop};
ghost use Rattle.cert_text.specs.CertificateLaws.{IsMeant};
ghost use Rattle.cert_text.specs.Certificates.{seen};
ghost use Rattle.cert_text.specs.Holds.{HoldsFor};
ghost use Rattle.verdict_plan.specs.AllCandidates.{AreFailedCurves, AreFailedTracks};
ghost use Rattle.verdict_plan.specs.Budgets.{IsWithinLimits};
ghost use Rattle.verdict_plan.specs.Verdicts.{HasNoOrder, IsVerdict};
ghost use Rattle.verdict_plan.specs.inside.OpenStages.{AreFurtherStages};
ghost use Rattle.verdict_plan.specs.inside.Tried.{IsPowerLog, IsSound};

use crate::all_candidates::{further_curves, further_stages, search_all};
use crate::budget::Budget;
use crate::certificates::{reducible, unknown};
use crate::power_phase::{PowerLog, Powers, follow_powers, try_powers};
use crate::track_search::Tracks;
use cert_text::{Certificate, TrackLine, certificate_laws};
use cycle_stages::Stage;
use edge_coords::CurveLine;
use ideal_tri::Memory;
use multicurve_cert::{Curves, power_laws, search};
use std::alloc::Global;
use surface_lib::Surface;
use tri_atlas::{Atlas, Path, atlas_laws};

/// The verdict on a path of a surface from the base to the base, within the budget, as its
/// certificate: the powers are tried first, then the candidates for a multicurve that the path fixes,
/// then those for a train track that a power of it carries. The surface keeps its name, its base and
/// its generators; the search for tracks may add triangulations to its atlas.
pub fn classify(
    alloc: Global,
    s: &mut Surface,
    word: &Path,
    budget: &Budget,
) -> Result<Certificate, Memory>
    requires surface { IsSurface s.old }
    requires closed { IsLoop s.old.atlas word.now }
    requires budget { IsWithinLimits budget.now }
    ensures verdict { IfOk result (λ c. IsVerdict (triangulation s.old.atlas 0)
        (moves_of s.old.atlas word.now) budget.now (seen c)) }
    ensures holds { IfOk result (λ c. HoldsFor (triangulation s.old.atlas 0)
        (moves_of s.old.atlas word.now) (seen c)) }
    ensures means { IfOk result (λ c. IsMeant (triangulation s.old.atlas 0)
        (moves_of s.old.atlas word.now) (seen c)) }
    ensures name { s.new.name ≡ s.old.name }
    ensures generators { s.new.generators ≡ s.old.generators }
    ensures grows { Grows s.old.atlas s.new.atlas }
    ensures surface { IsSurface s.new }
{
    atlas_laws();
    match try_powers(alloc, &s.atlas, word, budget)? {
        Some(Powers::Verdict(c)) => Ok(c),
        Some(Powers::Log(log)) => try_curves(alloc, &mut s.atlas, word, budget, Some(log)),
        None => try_curves(alloc, &mut s.atlas, word, budget, None),
    }
}

/// What the first candidates for a fixed multicurve give, and all candidates behind them, where the
/// powers gave no verdict.
fn try_curves(
    alloc: Global,
    atlas: &mut Atlas,
    word: &Path,
    budget: &Budget,
    log: Option<PowerLog>,
) -> Result<Certificate, Memory>
    requires closed { IsLoop atlas.old word.now }
    requires budget { IsWithinLimits budget.now }
    requires no_order { HasNoOrder (triangulation atlas.old 0) (moves_of atlas.old word.now)
        budget.now.powers }
    requires log { IfSome log (IsPowerLog (triangulation atlas.old 0)
        (moves_of atlas.old word.now) budget.now.powers) }
    ensures sound { IfOk result (IsSound (triangulation atlas.old 0) (moves_of atlas.old word.now)
        budget.now) }
    ensures grows { Grows atlas.old atlas.new }
{
    let _ = atlas.base();
    atlas_laws();
    certificate_laws();
    power_laws(atlas, word);
    match search(alloc, atlas, word, budget.curves)? {
        Curves::Found { coords, .. } => Ok(reducible(alloc, &coords)?),
        Curves::None { log: curves } => try_further(alloc, atlas, word, budget, log, curves),
    }
}

/// What the further candidates give, and the first ones for a carried track, where the first ones for
/// a multicurve fail.
fn try_further(
    alloc: Global,
    atlas: &mut Atlas,
    word: &Path,
    budget: &Budget,
    log: Option<PowerLog>,
    curves: Vec<CurveLine>,
) -> Result<Certificate, Memory>
    requires closed { IsLoop atlas.old word.now }
    requires budget { IsWithinLimits budget.now }
    requires no_order { HasNoOrder (triangulation atlas.old 0) (moves_of atlas.old word.now)
        budget.now.powers }
    requires log { IfSome log (IsPowerLog (triangulation atlas.old 0)
        (moves_of atlas.old word.now) budget.now.powers) }
    requires curves { AreAllFailing (triangulation atlas.old 0) (moves_of atlas.old word.now)
        budget.now.curves curves.items }
    ensures sound { IfOk result (IsSound (triangulation atlas.old 0) (moves_of atlas.old word.now)
        budget.now) }
    ensures grows { Grows atlas.old atlas.new }
{
    let _ = atlas.base();
    atlas_laws();
    let stages = further_stages(alloc, atlas, word, greater_budget(budget))?;
    try_stages(alloc, atlas, word, budget, &stages, log, curves)
}

/// The greater of the budgets for multicurves and for tracks.
fn greater_budget(budget: &Budget) -> u32
    ensures { result ≡ max budget.now.curves budget.now.tracks }
{
    budget.curves.max(budget.tracks)
}

/// What the further candidates for a multicurve give, which are made of these stages, and all those
/// for a carried track.
fn try_stages(
    alloc: Global,
    atlas: &mut Atlas,
    word: &Path,
    budget: &Budget,
    stages: &[Stage],
    log: Option<PowerLog>,
    curves: Vec<CurveLine>,
) -> Result<Certificate, Memory>
    requires closed { IsLoop atlas.old word.now }
    requires budget { IsWithinLimits budget.now }
    requires stages { AreFurtherStages atlas.old word.now (max budget.now.curves budget.now.tracks)
        stages.now }
    requires no_order { HasNoOrder (triangulation atlas.old 0) (moves_of atlas.old word.now)
        budget.now.powers }
    requires log { IfSome log (IsPowerLog (triangulation atlas.old 0)
        (moves_of atlas.old word.now) budget.now.powers) }
    requires curves { AreAllFailing (triangulation atlas.old 0) (moves_of atlas.old word.now)
        budget.now.curves curves.items }
    ensures sound { IfOk result (IsSound (triangulation atlas.old 0) (moves_of atlas.old word.now)
        budget.now) }
    ensures grows { Grows atlas.old atlas.new }
{
    let _ = atlas.base();
    atlas_laws();
    certificate_laws();
    power_laws(atlas, word);
    match further_curves(alloc, atlas, word, budget.curves, stages, curves)? {
        Curves::Found { coords, .. } => Ok(reducible(alloc, &coords)?),
        Curves::None { log: curves } => {
            let found = search_all(alloc, atlas, word, budget.tracks, stages)?;
            match found {
                Tracks::Found { pa, .. } => Ok(Certificate::PseudoAnosov(pa)),
                Tracks::None { log: tracks } => {
                    without_verdict(alloc, atlas, word, budget, log, curves, tracks)
                }
            }
        }
    }
}

/// What is told of a path for which nothing that was tried gave a verdict. The log of the powers is
/// made here where it wasn't made before.
fn without_verdict(
    alloc: Global,
    atlas: &Atlas,
    word: &Path,
    budget: &Budget,
    log: Option<PowerLog>,
    curves: Vec<CurveLine>,
    tracks: Vec<TrackLine>,
) -> Result<Certificate, Memory>
    requires closed { IsLoop atlas.now word.now }
    requires budget { IsWithinLimits budget.now }
    requires no_order { HasNoOrder (triangulation atlas.now 0) (moves_of atlas.now word.now)
        budget.now.powers }
    requires log { IfSome log (IsPowerLog (triangulation atlas.now 0)
        (moves_of atlas.now word.now) budget.now.powers) }
    requires curves { AreFailedCurves (triangulation atlas.now 0) (moves_of atlas.now word.now)
        budget.now.curves curves.items }
    requires tracks { AreFailedTracks (triangulation atlas.now 0) (moves_of atlas.now word.now)
        budget.now.tracks tracks.items }
    ensures { IfOk result (IsSound (triangulation atlas.now 0) (moves_of atlas.now word.now)
        budget.now) }
{
    let _ = atlas.base();
    certificate_laws();
    let powers = match log {
        Some(log) => Powers::Log(log),
        None => follow_powers(alloc, atlas, word, budget)?,
    };
    match powers {
        Powers::Verdict(c) => Ok(c),
        Powers::Log(log) => Ok(unknown(alloc, &log.reasons, log.capped, curves, tracks)?),
    }
}
