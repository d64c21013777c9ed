//! The powers of a path, as far as they are needed for a verdict.
//!
//! An inner map fixes every multicurve. So a power that moves one isn't inner, and no map need be made
//! to know that.
ghost use Rattle.std.specs.Prelude.{◌≡◌, ◌≢◌, ◌<◌, ◌≤◌, ℕ, false, IfOk, IfSome, IfNone, IsTrue, All};
ghost use Rattle.std.specs.List.{repeat};
ghost use Rattle.tri_atlas.specs.Arena.{triangulation};
ghost use Rattle.tri_atlas.specs.MapLaws.{RepeatLaws};
ghost use Rattle.tri_atlas.specs.Moves.{Move};
ghost use Rattle.tri_atlas.specs.Paths.{moves_of};
ghost use Rattle.edge_coords.specs.Coordinates.{AreCoordinatesIn};
ghost use Rattle.surface_lib.specs.Surfaces.{IsLoop};
ghost use Rattle.free_groupoid.specs.Periodic.{IsInnerPath};
ghost use Rattle.multicurve_cert.specs.Candidates.{image_number};
ghost use Rattle.multicurve_cert.specs.Cycles.{IsCycle};
ghost use Rattle.verdict_plan.specs.Budgets.{IsWithinLimits};
ghost use Rattle.verdict_plan.specs.Verdicts.{HasNoOrder};
ghost use Rattle.verdict_plan.specs.inside.Tried.{AreRuledOut, IsOfPowers};

use crate::budget::Budget;
use crate::certificates::periodic;
use cert_text::{Certificate, certificate_laws};
use edge_coords::{Coords, OverflowAt};
use free_groupoid::{Walk, inner_laws, periodic_laws};
use ideal_tri::{Memory, drawing_laws};
use multicurve_cert::{cycle_coords, cycles, power_laws};
use periodic_cert::{PowerAnswer, powers};
use std::alloc::Global;
use tri_atlas::{Atlas, Path, map_laws, vector_laws};

/// The most letters of a map after a move.
const LETTER_CAP: u64 = 262_144;

/// What the powers of a path gave.
#[derive(Drop)]
pub(crate) enum Powers {
    /// The path is periodic.
    Verdict(Certificate),
    /// It isn't, within the limit and the cap on letters.
    Log(PowerLog),
}

/// What was tried.
#[derive(Drop)]
pub(crate) struct PowerLog {
    /// For each power that was refuted a walk that it moves.
    pub(crate) reasons: Vec<Walk>,
    /// The first power in which a map had too many letters, and their number.
    pub(crate) capped: Option<(u32, u64)>,
}

/// What the powers of a path from the base to the base give, up to the limit; nothing where the
/// vectors of cycles rule them all out.
pub(crate) fn try_powers(
    alloc: Global,
    atlas: &Atlas,
    word: &Path,
    budget: &Budget,
) -> Result<Option<Powers>, Memory>
    requires closed { IsLoop atlas.now word.now }
    requires budget { IsWithinLimits budget.now }
    ensures some { IfOk result (λ r. IfSome r
        (IsOfPowers (triangulation atlas.now 0) (moves_of atlas.now word.now) budget.now)) }
    ensures none { IfOk result (λ r. IfNone r
        (HasNoOrder (triangulation atlas.now 0) (moves_of atlas.now word.now) budget.now.powers)) }
{
    if are_ruled_out(alloc, atlas, word, budget.powers)? {
        return Ok(None);
    }
    Ok(Some(follow_powers(alloc, atlas, word, budget)?))
}

/// What is proved of moves taken several times.
fn repeat_laws()
    ensures { RepeatLaws Move }
{
    map_laws();
}

/// What the powers of a path give, by their maps.
pub(crate) fn follow_powers(
    alloc: Global,
    atlas: &Atlas,
    word: &Path,
    budget: &Budget,
) -> Result<Powers, Memory>
    requires closed { IsLoop atlas.now word.now }
    requires budget { IsWithinLimits budget.now }
    ensures { IfOk result
        (IsOfPowers (triangulation atlas.now 0) (moves_of atlas.now word.now) budget.now) }
{
    let _ = atlas.base();
    repeat_laws();
    inner_laws();
    periodic_laws();
    certificate_laws();
    match powers(alloc, atlas, word, budget.powers, LETTER_CAP)? {
        PowerAnswer::Order { k, paths, reasons } => {
            Ok(Powers::Verdict(periodic(alloc, k, &paths, &reasons)?))
        }
        PowerAnswer::Capped {
            power,
            letters,
            reasons,
        } => Ok(Powers::Log(PowerLog {
            reasons,
            capped: Some((power, letters)),
        })),
        PowerAnswer::AllRefuted { reasons } => Ok(Powers::Log(PowerLog {
            reasons,
            capped: None,
        })),
    }
}

/// Whether each power up to the limit moves the vector of one cycle. An answer of no says nothing.
fn are_ruled_out(alloc: Global, atlas: &Atlas, word: &Path, limit: u32) -> Result<bool, Memory>
    requires closed { IsLoop atlas.now word.now }
    ensures { IfOk result (λ ruled_out. IsTrue ruled_out
        → AreRuledOut (triangulation atlas.now 0) (moves_of atlas.now word.now) limit) }
{
    let cycles = base_cycles(alloc, atlas)?;
    for cycle in &cycles {
        let w = cycle_coords(atlas, cycle);
        inner_fixes(atlas, word, &w);
        match comes_back(atlas, word, &w, limit) {
            Ok(false) => return Ok(true),
            Ok(true) => {}
            Err(_) => return Ok(false),
        }
    }
    Ok(false)
}

/// The cycles of the base.
fn base_cycles(alloc: Global, atlas: &Atlas) -> Result<Vec<Walk>, Memory>
    ensures { IfOk result (λ walks.
        All (λ w. IsCycle (triangulation atlas.now 0) w.letters) walks.items) }
{
    Ok(cycles(alloc, atlas.tri(atlas.base()))?)
}

/// Whether some power up to the limit carries the coordinates to themselves. `OverflowAt` where an
/// image has a number of 2^126 or more before one does.
fn comes_back(atlas: &Atlas, word: &Path, w: &Coords, limit: u32) -> Result<bool, OverflowAt>
    requires coordinates { AreCoordinatesIn atlas.now w.now }
    requires base { w.now.tri ≡ 0 }
    requires closed { IsLoop atlas.now word.now }
    ensures { IfOk result (λ back. back ≡ false → (k : ℕ) → 0 < k → k ≤ limit
        → image_number (triangulation atlas.now 0) (moves_of atlas.now word.now) w.now.numbers k
        ≢ w.now.numbers) }
{
    power_laws(atlas, word);
    let mut image = *w;
    for _ in 0..limit {
        image.follow(atlas, word)?;
        if image.values() == w.values() {
            return Ok(true);
        }
    }
    Ok(false)
}

/// A power whose map is inner carries each multicurve to itself.
fn inner_fixes(atlas: &Atlas, word: &Path, w: &Coords)
    requires coordinates { AreCoordinatesIn atlas.now w.now }
    requires base { w.now.tri ≡ 0 }
    requires closed { IsLoop atlas.now word.now }
    ensures { (k : ℕ) → IsInnerPath (triangulation atlas.now 0) (repeat k (moves_of atlas.now word.now))
        → image_number (triangulation atlas.now 0) (moves_of atlas.now word.now) w.now.numbers k
        ≡ w.now.numbers }
{
    let _ = atlas.base();
    drawing_laws();
    inner_laws();
    vector_laws();
    power_laws(atlas, word);
}
