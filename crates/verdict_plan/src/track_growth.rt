//! The transition matrix of a carried track, and its growth.
ghost use Rattle.std.specs.Prelude.{◌≡◌, ◌<◌, ◌≤◌, ◌*◌, ℕ, length, IfOk, IfErr, IfSome, IfNone};
ghost use Rattle.std.specs.Prelude.{MatchOption};
ghost use Rattle.train_track.specs.Branches.{words_of};
ghost use Rattle.transition_matrix.specs.Bounds.{IsBounds};
ghost use Rattle.transition_matrix.specs.Matrices.{IsLeastExponent, IsPositivePower};
ghost use Rattle.carry_map.specs.Iterates.{IsTransition};
ghost use Rattle.verdict_plan.specs.TrackTests.{HasNoGrowthIn, IsRuledIn};
ghost use Rattle.verdict_plan.specs.inside.Trials.{CanBeCounted, ArePassColumns, GrowsSo, GrowsNot};

use crate::series::Series;
use carry_map::CarryMap;
use cert_text::TrackLine;
use growth_bounds::{GrowthBounds, bounds, wide_bounds};
use ideal_tri::Memory;
use std::alloc::Global;
use train_track::{Track, track_laws};
use transition_matrix::{Matrix, Scratch};

/// The greatest exponent that is looked for.
const EXPONENT_LIMIT: u32 = 1_024;

/// What shows that a matrix is primitive, and how it grows.
#[derive(Drop)]
pub(crate) struct Growth {
    /// The least power that has all entries positive.
    pub(crate) exponent: u32,
    /// A row that the matrix stretches, and the bounds.
    pub(crate) bounds: GrowthBounds,
}

/// The matrix that counts how often each train path passes each branch.
pub(crate) fn transition(alloc: Global, track: &Track, c: &CarryMap) -> Result<Matrix, Memory>
    requires { CanBeCounted track.now c.now }
    ensures counts { IfOk result
        (IsTransition (words_of track.now.branches) (words_of c.now.images)) }
    ensures whole { IfOk result (λ m. length m.entries ≡ m.size * m.size) }
    ensures some { IfOk result (λ m. 0 < m.size) }
{
    track_laws();
    let columns = columns(alloc, track, c)?;
    match Matrix::from_columns(alloc, columns.len(), &columns) {
        Ok(m) => Ok(m),
        Err(_) => Err(Memory),
    }
}

/// For each train path the branches that it passes.
fn columns(alloc: Global, track: &Track, c: &CarryMap) -> Result<Vec<Vec<u32>>, Memory>
    requires { CanBeCounted track.now c.now }
    ensures { IfOk result (λ v. ArePassColumns (words_of track.now.branches)
        (words_of c.now.images) (length track.now.branches) v.items) }
{
    let mut columns = Vec::new(alloc);
    for j in 0..track.branches().len() {
        columns.push(track.decompose(alloc, c.image(j))?)?;
    }
    Ok(columns)
}

/// The growth of a matrix, with bounds by the rule of the series, or which test fails.
pub(crate) fn growth_of(
    alloc: Global,
    m: &Matrix,
    series: Series,
) -> Result<Result<Growth, TrackLine>, Memory>
    requires { 0 < m.now.size }
    ensures found { IfOk result (λ r. IfOk r (GrowsSo series m.now)) }
    ensures line { IfOk result (λ r. IfErr r (GrowsNot series m.now)) }
{
    let Some(exponent) = exponent(alloc, m)? else {
        return Ok(Err(TrackLine::NotPrimitive));
    };
    match bounds_of(alloc, m, series) {
        Ok(Some(bounds)) => Ok(Ok(Growth { exponent, bounds })),
        Ok(None) => Ok(Err(TrackLine::NoBounds)),
        Err(_) => Err(Memory),
    }
}

/// The bounds by the rule of the series, if it gives any.
fn bounds_of(
    alloc: Global,
    m: &Matrix,
    series: Series,
) -> Result<Option<GrowthBounds>, transition_matrix::Memory>
    requires { 0 < m.now.size }
    ensures rule { IfOk result (λ found. MatchOption found (HasNoGrowthIn series m.now)
        (IsRuledIn series m.now)) }
    ensures bounds { IfOk result (λ found. IfSome found (λ b. IsBounds m.now b.u.items b.low
        b.high)) }
{
    match series {
        Series::First => bounds(alloc, m),
        Series::Further => wide_bounds(alloc, m),
    }
}

/// The least exponent of a matrix up to the limit.
fn exponent(alloc: Global, m: &Matrix) -> Result<Option<u32>, Memory>
    ensures some { IfOk result (λ found. IfSome found (IsLeastExponent m.now)) }
    ensures within { IfOk result (λ found. IfSome found (λ k. k ≤ 1024)) }
    ensures none { IfOk result (λ found. IfNone found
        ((k : ℕ) → 0 < k → k ≤ 1024 → ¬ IsPositivePower m.now k)) }
{
    match Scratch::new(alloc, m.size()) {
        Ok(mut scratch) => Ok(m.primitive_exponent(&mut scratch, EXPONENT_LIMIT)),
        Err(_) => Err(Memory),
    }
}
