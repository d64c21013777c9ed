//! The first candidates for a carried train track, tried in order.
//!
//! One candidate after another of a cycle is the next power of the word at the same stage, or the
//! first at the next stage. The cycles take turns, so the sites of the last candidates wait in a
//! queue, one for each cycle. A candidate that is like an earlier one of another cycle has its line.
//! Where no log is asked for, one whose map surely passes the cap on letters is passed over.
ghost use Rattle.std.specs.Prelude.{◌≡◌, ◌<◌, ◌*◌, ◌+◌, ◌%◌, ◌/◌, ◌++◌, ◌∷◌, [], length, min, true};
ghost use Rattle.std.specs.Prelude.{IfOk, OnOk, IfSome, IfNone};
ghost use Rattle.tri_atlas.specs.Arena.{Grows, triangulation};
ghost use Rattle.tri_atlas.specs.Paths.{moves_of};
ghost use Rattle.train_track.specs.Branches.{words_of};
ghost use Rattle.multicurve_cert.specs.Cycles.{AreCycles};
ghost use Rattle.surface_lib.specs.Surfaces.{IsLoop};
ghost use Rattle.verdict_plan.specs.FirstTracks.{HoldsWhereFound, track_count, track_kinds};
ghost use Rattle.verdict_plan.specs.inside.Sites.{AreSites, IsSiteOf};
ghost use Rattle.verdict_plan.specs.inside.Turns.{AreOtherSites, IsFollowing, IsSomeSite};
ghost use Rattle.verdict_plan.specs.inside.QuickAnswers.{HasLog, IsQuickAnswer};

use crate::sites::{Site, first_site, next_depth};
use crate::track_tests::pass_law;
use crate::trials::{Trial, try_turn};
use cert_text::{Pa, TrackLine};
use cycle_stages::stage_laws;
use free_groupoid::Walk;
use ideal_tri::Memory;
use multicurve_cert::cycle_coords;
use std::alloc::Global;
use std::collections::VecDeque;
use tri_atlas::{Atlas, Path, atlas_laws};

/// How many candidates there are for each cycle: 32 depths with 4 powers each.
const KINDS: usize = 128;

/// The powers at each depth.
const POWERS: usize = 4;

/// What the candidates show.
#[derive(Drop)]
pub enum Tracks {
    /// A candidate passes all tests.
    Found {
        /// The first that does, counted from 0.
        number: u32,
        /// Its certificate.
        pa: Pa,
    },
    /// None does within the budget.
    None {
        /// For each candidate the first test that it fails.
        log: Vec<TrackLine>,
    },
}

/// Tries the first candidates for a train track that a power of the word carries into itself, in
/// order, those with numbers below the budget, all of these cycles: the first that passes all tests
/// (Penner and Harer), or the log. Where it is to be exact, the log has for each candidate the first
/// test that it fails; else it leaves out candidates whose maps surely pass the cap. The word runs
/// from the base to the base. The triangulations at the stages are added to the atlas.
pub(crate) fn search_first(
    alloc: Global,
    atlas: &mut Atlas,
    word: &Path,
    cycles: &[Walk],
    budget: u32,
    is_exact: bool,
) -> Result<Tracks, Memory>
    requires closed { IsLoop atlas.old word.now }
    requires cycles { AreCycles (triangulation atlas.old 0) (words_of cycles.now) }
    requires some { 0 < length cycles.now }
    ensures answer { IfOk result (IsQuickAnswer (triangulation atlas.old 0)
        (moves_of atlas.old word.now) budget (track_count (words_of cycles.now) budget)) }
    ensures exact { IfOk result (λ tracks. is_exact ≡ true
        → HasLog (track_count (words_of cycles.now) budget) tracks) }
    ensures holds { IfOk result (HoldsWhereFound (triangulation atlas.old 0)
        (moves_of atlas.old word.now)) }
    ensures grows { Grows atlas.old atlas.new }
{
    let _ = atlas.base();
    atlas_laws();
    pass_law();
    let count = track_count(cycles.len(), budget);
    let mut sites = VecDeque::new(alloc);
    let mut known = Vec::new(alloc);
    let mut log = Vec::new(alloc);
    // n candidates fail
    for n in 0..count {
        let site = next_site(alloc, atlas, word, cycles, n as usize, &mut sites)?;
        let cycle = &cycles[n as usize % cycles.len()];
        let power = 1 + (n as usize / cycles.len()) % POWERS;
        let trial = try_turn(
            alloc,
            atlas,
            word,
            cycle,
            site,
            power as u32,
            is_exact,
            &mut known,
        )?;
        let Trial { site, outcome } = trial;
        match outcome {
            Ok(pa) => return Ok(Tracks::Found { number: n, pa }),
            Err(line) => push_line(&mut log, line)?,
        }
        sites.push_back(site)?;
    }
    Ok(Tracks::None { log })
}

/// Adds the line, if there is one.
fn push_line(log: &mut Vec<TrackLine>, line: Option<TrackLine>) -> Result<(), Memory>
    ensures some { OnOk result (IfSome line (λ x. log.new.items ≡ log.old.items ++ (x ∷ []))) }
    ensures none { OnOk result (IfNone line (log.new.items ≡ log.old.items)) }
{
    match line {
        Some(line) => log.push(line)?,
        None => {}
    }
    Ok(())
}

/// The site of candidate n; the sites of the other cycles stay in the queue.
fn next_site(
    alloc: Global,
    atlas: &mut Atlas,
    word: &Path,
    cycles: &[Walk],
    n: usize,
    sites: &mut VecDeque<Site>,
) -> Result<Site, Memory>
    requires closed { IsLoop atlas.old word.now }
    requires cycles { AreCycles (triangulation atlas.old 0) (words_of cycles.now) }
    requires some { 0 < length cycles.now }
    requires sites { AreSites atlas.old word.now (words_of cycles.now) n sites.old.items }
    ensures site { IfOk result (IsSiteOf atlas.new word.now (words_of cycles.now) n) }
    ensures sites { OnOk result (AreOtherSites atlas.new word.now (words_of cycles.now) n
        sites.new.items) }
    ensures grows { Grows atlas.old atlas.new }
{
    let _ = atlas.base();
    atlas_laws();
    stage_laws();
    if sites.len() < cycles.len() {
        let w = cycle_coords(atlas, &cycles[n]);
        return first_site(alloc, atlas, word, &w);
    }
    let Some(site) = sites.pop_front() else {
        unreachable!()
    };
    following(alloc, atlas, word, site, n / cycles.len())
}

/// The site of the candidate of the same cycle in this round, from that of the round before.
fn following(
    alloc: Global,
    atlas: &mut Atlas,
    word: &Path,
    site: Site,
    round: usize,
) -> Result<Site, Memory>
    requires closed { IsLoop atlas.old word.now }
    requires site { IsSomeSite atlas.old word.now site }
    ensures next { IfOk result (IsFollowing atlas.old atlas.new word.now round site) }
    ensures grows { Grows atlas.old atlas.new }
{
    atlas_laws();
    if round % POWERS == 0 {
        next_depth(alloc, atlas, word, site)
    } else {
        Ok(site)
    }
}

/// How many candidates of so many cycles there are within the budget.
pub(crate) fn track_count(cycles: usize, budget: u32) -> u32
    ensures { result ≡ min budget (track_kinds * cycles) }
{
    (budget as usize).min(KINDS.saturating_mul(cycles)) as u32
}
