//! The lines of candidates that were tried.
//!
//! What the tests of a candidate give depends on its flips, the corners that it leaves out and its
//! power alone. The images of different cycles come near the same foliation, so candidates of
//! different cycles often agree in these, and what was found for one is repeated for the next.
ghost use Rattle.std.specs.Prelude.{◌≡◌, ◌↔◌, ℤ, List, IsTrue, OnOk, IfSome};
ghost use Rattle.tri_atlas.specs.Moves.{Move};
ghost use Rattle.verdict_plan.specs.inside.Known.{AreKnown, IsLineFor};

use cert_text::TrackLine;
use ideal_tri::{Label, Memory};
use std::alloc::Global;

/// A candidate that fails a test.
#[derive(Drop)]
pub(crate) struct Known {
    /// The edges that it flips.
    pub(crate) flips: Vec<u32>,
    /// The corners that it leaves out.
    pub(crate) left_out: Vec<Label>,
    /// How often it takes the word.
    pub(crate) power: u32,
    /// The first test that it fails.
    pub(crate) line: TrackLine,
}

/// The line of the candidate with these flips, left-out corners and power, if one of the candidates
/// is the same.
pub(crate) fn line_of(
    known: &[Known],
    flips: &[u32],
    left_out: &[Label],
    power: u32,
) -> Option<TrackLine>
    ensures { IfSome result (λ line. (triples : List (List ℤ)) (moves : List Move)
        → AreKnown triples moves known.now
        → IsLineFor triples moves flips.now left_out.now power line) }
{
    for k in known {
        if is_same(k, flips, left_out, power) {
            return Some(k.line);
        }
    }
    None
}

/// Whether a candidate has these flips, left-out corners and power.
fn is_same(k: &Known, flips: &[u32], left_out: &[Label], power: u32) -> bool
    ensures { IsTrue result → (k.now.flips.items ≡ flips.now)
        × (k.now.left_out.items ≡ left_out.now) × (k.now.power ≡ power) }
{
    if k.power != power {
        return false;
    }
    if !has_flips(k, flips) {
        return false;
    }
    leaves_out(k, left_out)
}

/// Whether a candidate has these flips.
fn has_flips(k: &Known, flips: &[u32]) -> bool
    ensures { IsTrue result ↔ (k.now.flips.items ≡ flips.now) }
{
    k.flips.as_slice() == flips
}

/// Whether a candidate leaves out these corners.
fn leaves_out(k: &Known, left_out: &[Label]) -> bool
    ensures { IsTrue result ↔ (k.now.left_out.items ≡ left_out.now) }
{
    k.left_out.as_slice() == left_out
}

/// One candidate more.
pub(crate) fn learn(
    alloc: Global,
    known: &mut Vec<Known>,
    flips: &[u32],
    left_out: &[Label],
    power: u32,
    line: TrackLine,
) -> Result<(), Memory>
    ensures { OnOk result ((triples : List (List ℤ)) (moves : List Move)
        → AreKnown triples moves known.old.items
        → IsLineFor triples moves flips.now left_out.now power line
        → AreKnown triples moves known.new.items) }
{
    let flips = Vec::from_slice(alloc, flips)?;
    let left_out = Vec::from_slice(alloc, left_out)?;
    known.push(Known {
        flips,
        left_out,
        power,
        line,
    })?;
    Ok(())
}
