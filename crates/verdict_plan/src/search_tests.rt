//! Searches for a carried track on the once-punctured torus.
ghost use Rattle.std.specs.Prelude.{◌≤◌};
ghost use Rattle.verdict_plan.specs.Budgets.{track_limit};

use crate::{Tracks, search_tracks};
use cert_text::TrackLine;
use std::alloc::{AllocGlobal, Global};
use std::process::Abort;
use std::test::Fail;
use surface_lib::{builtin, read_word};

/// Whether no candidate for a word passes within a budget, and each has this line.
fn all_fail(
    rt: &(impl Abort + AllocGlobal),
    word: &str,
    budget: u32,
    line: TrackLine,
) -> Result<bool, Fail>
    requires { budget ≤ track_limit }
{
    let alloc: Global = rt.alloc();
    let mut s = builtin(alloc, "S_1_1")?;
    let path = read_word(alloc, &s, word)?;
    match search_tracks(alloc, &mut s.atlas, &path, budget)? {
        Tracks::Found { .. } => Ok(false),
        Tracks::None { log } => {
            Ok(log.len() == budget as usize && log.iter().all(|l| *l == line))
        }
    }
}

/// The empty word leaves each cycle as it is, and a flip makes another of it: a strand in each
/// triangle, which leaves two corners free. There are three cycles, so the thirteenth candidate is
/// the first after a flip.
#[test]
fn cycles_alone(rt: HostRuntime) -> Result<(), Fail> {
    assert!(rt; all_fail(&rt, "", 0, TrackLine::NoBounds)?);
    assert!(rt; all_fail(&rt, "", 16, TrackLine::TwoLeftOut { n: 0 })?);
    Ok(())
}

/// The first candidate for two twists with opposite hands passes.
#[test]
fn first_passes(rt: HostRuntime) -> Result<(), Fail> {
    let alloc: Global = rt.alloc();
    let mut s = builtin(alloc, "S_1_1")?;
    let path = read_word(alloc, &s, "a.b")?;
    match search_tracks(alloc, &mut s.atlas, &path, 1)? {
        Tracks::Found { number, pa } => assert_eq!(rt; (number, pa.power), (0, 1)),
        Tracks::None { .. } => assert!(rt; false),
    }
    Ok(())
}

/// The map has 241,355 letters, below the cap, and the train paths of the carried track have more
/// than the cap together.
#[test]
fn long_train_paths(rt: HostRuntime) -> Result<(), Fail> {
    let line = TrackLine::PathsCap { n: 269_848 };
    assert!(rt; all_fail(&rt, "(a.b)^10.b^6", 1, line)?);
    Ok(())
}
