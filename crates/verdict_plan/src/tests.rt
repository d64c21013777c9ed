//! Verdicts on words of the built-in surfaces.
use super::*;
use cert_text::Certificate;
use edge_coords::CurveLine;
use std::alloc::{AllocGlobal, Global};
use std::process::Abort;
use std::test::Fail;
use surface_lib::{builtin, read_word};

/// The verdict on a word of a built-in surface.
fn verdict_on(
    rt: &(impl Abort + AllocGlobal),
    name: &str,
    word: &str,
    powers: u32,
    curves: u32,
) -> Result<Certificate, Fail> {
    let alloc: Global = rt.alloc();
    assert!(rt; powers <= 1_024 && curves <= 65_536);
    let mut s = builtin(alloc, name)?;
    let path = read_word(alloc, &s, word)?;
    let budget = Budget {
        powers,
        curves,
        tracks: 0,
    };
    Ok(classify(alloc, &mut s, &path, &budget)?)
}

/// Whether a verdict is that the word has this order.
fn is_periodic(c: &Certificate, k: u32) -> bool {
    match c {
        Certificate::Periodic { order, reasons, .. } => {
            *order == k && reasons.len() + 1 == k as usize
        }
        _ => false,
    }
}

/// Whether a verdict is that the word fixes this multicurve.
fn is_reducible(c: &Certificate, numbers: &[u128]) -> bool {
    match c {
        Certificate::Reducible { coords } => coords.as_slice() == numbers,
        _ => false,
    }
}

/// Whether there is no verdict, and the log has so many powers and these lines on curves.
fn is_unknown(
    c: &Certificate,
    refuted: usize,
    past: Option<(u32, u64)>,
    lines: &[CurveLine],
) -> bool {
    match c {
        Certificate::Unknown {
            powers,
            capped,
            curves,
            tracks,
        } => {
            powers.len() == refuted
                && *capped == past
                && curves.as_slice() == lines
                && tracks.is_empty()
        }
        _ => false,
    }
}

#[test]
fn first_verdicts(rt: HostRuntime) -> Result<(), Fail> {
    // an inner power is told before a fixed curve is
    assert!(rt; is_periodic(&verdict_on(&rt, "S_0_4", "", 48, 256)?, 1));
    assert!(rt; is_periodic(&verdict_on(&rt, "S_1_1", "a.B", 48, 256)?, 6));
    assert!(rt; is_periodic(&verdict_on(&rt, "S_0_3", "r", 3, 256)?, 3));
    // the twist a fixes the third cycle alone, its own curve
    assert!(rt; is_reducible(&verdict_on(&rt, "S_1_1", "a", 48, 256)?, &[1, 0, 1]));
    assert!(rt; is_reducible(&verdict_on(&rt, "S_1_1", "a^4096", 48, 256)?, &[1, 0, 1]));
    assert!(rt; is_reducible(&verdict_on(&rt, "S_1_1", "a", 0, 2)?, &[1, 0, 1]));
    Ok(())
}

#[test]
fn logs(rt: HostRuntime) -> Result<(), Fail> {
    let moved = CurveLine::Moved;
    assert!(rt; is_unknown(&verdict_on(&rt, "S_1_1", "a", 1, 1)?, 1, None, &[moved]));
    assert!(rt; is_unknown(&verdict_on(&rt, "S_1_1", "a.b", 0, 0)?, 0, None, &[]));
    assert!(rt;
        is_unknown(
            &verdict_on(&rt, "S_1_1", "a.b", 2, 2)?,
            2,
            None,
            &[moved, moved]
        )
    );
    assert!(rt;
        is_unknown(
            &verdict_on(&rt, "S_1_1", "a.b", 12, 1)?,
            11,
            Some((12, 351_363)),
            &[moved]
        )
    );
    // the limit is too low for the order
    assert!(rt; is_unknown(&verdict_on(&rt, "S_1_1", "a.B", 5, 1)?, 5, None, &[moved]));
    Ok(())
}
