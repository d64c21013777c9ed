//! Coordinates on the once-punctured torus, and the word of one of its twists.
use crate::vectors::check_vector;
use crate::verdict::Stop;
use std::alloc::{AllocGlobal, Global};
use std::process::Abort;
use std::test::Fail;
use surface_lib::{builtin, read_word};

/// Why the rules refuse these coordinates for the word `a`, if they do.
fn stop(rt: &(impl Abort + AllocGlobal), coords: &[u128]) -> Result<Option<Stop>, Fail> {
    let alloc: Global = rt.alloc();
    let s = builtin(alloc, "S_1_1")?;
    let word = read_word(alloc, &s, "a")?;
    match check_vector(&s.atlas, &word, coords) {
        Ok(()) => Ok(None),
        Err(stop) => Ok(Some(stop)),
    }
}

/// This rule fails, at this place.
fn at(rule: u32, place: u64) -> Option<Stop> {
    Some(Stop::Refused { rule, place })
}

#[test]
fn coordinates(rt: HostRuntime) -> Result<(), Fail> {
    assert!(rt; stop(&rt, &[1, 0, 1])?.is_none());
    assert!(rt; stop(&rt, &[1, 1])? == at(9, 3));
    assert!(rt; stop(&rt, &[1, 1, 1])? == at(9, 0));
    assert!(rt; stop(&rt, &[u128::MAX, 1, 1])? == at(9, 0));
    assert!(rt; stop(&rt, &[0, 0, 0])? == at(10, 0));
    assert!(rt; stop(&rt, &[2, 2, 2])? == at(10, 0));
    assert!(rt; stop(&rt, &[1, 1, 0])? == at(11, 0));
    Ok(())
}
