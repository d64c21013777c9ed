//! Flips, left-out corners and powers on the once-punctured torus.
use crate::sites::make_site;
use crate::verdict::Stop;
use cert_text::Pa;
use std::alloc::{AllocGlobal, Global};
use std::process::Abort;
use std::test::Fail;
use surface_lib::{builtin, read_word};

/// A certificate with these, and with nothing else.
fn certificate(alloc: Global, power: u32, flips: &[u32], left_out: &[i32]) -> Result<Pa, Fail> {
    Ok(Pa {
        power,
        flips: flips.to_vec(alloc)?,
        left_out: left_out.to_vec(alloc)?,
        anchors: Vec::new(alloc),
        images: Vec::new(alloc),
        matrix: Vec::new(alloc),
        exponent: 1,
        u: Vec::new(alloc),
        low: (2, 1),
        high: (3, 1),
    })
}

/// Why the rules refuse these for the word `ab`, if they do.
fn stop(
    rt: &(impl Abort + AllocGlobal),
    power: u32,
    flips: &[u32],
    left_out: &[i32],
) -> Result<Option<Stop>, Fail> {
    let alloc: Global = rt.alloc();
    let mut s = builtin(alloc, "S_1_1")?;
    let word = read_word(alloc, &s, "a.b")?;
    let c = certificate(alloc, power, flips, left_out)?;
    match make_site(alloc, &mut s.atlas, &word, &c) {
        Ok(_) => Ok(None),
        Err(stop) => Ok(Some(stop)),
    }
}

/// This rule fails, at this place.
fn at(rule: u32, place: u64) -> Option<Stop> {
    Some(Stop::Refused { rule, place })
}

#[test]
fn sites(rt: HostRuntime) -> Result<(), Fail> {
    assert!(rt; stop(&rt, 1, &[], &[2, -3])?.is_none());
    assert!(rt; stop(&rt, 65, &[], &[2, -3])? == at(12, 0));
    assert!(rt; stop(&rt, 1, &[7], &[2, -3])? == at(12, 1));
    assert!(rt; stop(&rt, 1, &[0; 65], &[2, -3])? == at(12, 100));
    assert!(rt; stop(&rt, 1, &[], &[0, 1])? == at(13, 1));
    assert!(rt; stop(&rt, 1, &[], &[-3, 2])? == at(13, 1));
    assert!(rt; stop(&rt, 1, &[], &[])? == at(13, 1000));
    assert!(rt; stop(&rt, 30, &[], &[2, -3])? == at(14, 0));
    Ok(())
}
