//! Certificates of periodic words in two twists of the once-punctured torus.
use crate::periodic::check_periodic;
use crate::verdict::Stop;
use ideal_tri::Memory;
use std::alloc::Global;
use std::test::Fail;
use surface_lib::{builtin, read_word};

/// No walk at all.
const NONE: &[&[i32]] = &[];

/// A walk without letters from each of the two triangles.
const STILL: &[&[i32]] = &[&[], &[]];

/// Lists of these letters.
fn walks_of(alloc: Global, lists: &[&[i32]]) -> Result<Vec<Vec<i32>>, Memory> {
    let mut walks = Vec::new(alloc);
    for letters in lists {
        walks.push(Vec::from_slice(alloc, letters)?)?;
    }
    Ok(walks)
}

/// So many times the walk across edge 1 and back across edge 0.
fn reasons_of(alloc: Global, count: u32) -> Result<Vec<Vec<i32>>, Memory> {
    let mut reasons = Vec::new(alloc);
    for _ in 0..count {
        reasons.push(Vec::from_slice(alloc, &[1, -1])?)?;
    }
    Ok(reasons)
}

/// What is answered of a certificate for this word.
fn answer(
    alloc: Global,
    word: &str,
    order: u32,
    paths: &[&[i32]],
    reasons: &[Vec<i32>],
) -> Result<Result<(), Stop>, Fail> {
    let torus = builtin(alloc, "S_1_1")?;
    let path = read_word(alloc, &torus, word)?;
    let paths = walks_of(alloc, paths)?;
    Ok(check_periodic(alloc, &torus.atlas, &path, order, &paths, reasons))
}

/// That this rule fails, at this place.
fn refused(rule: u32, place: u64) -> Result<(), Stop> {
    Err(Stop::Refused { rule, place })
}

#[test]
fn answers(rt: HostRuntime) -> Result<(), Fail> {
    let alloc = rt.alloc();
    for (word, order, paths, reasons, wanted) in [
        ("a.B", 6, STILL, 5, Ok(())),
        ("a.B", 12, STILL, 11, refused(8, 6)),
        ("a.B", 3, STILL, 2, refused(6, 0)),
        ("a", 0, NONE, 0, refused(1, 0)),
        ("a", 1, NONE, 0, refused(2, 0)),
        ("a", 2, STILL, 0, refused(3, 0)),
        ("a", 1, STILL, 0, refused(7, 0)),
        ("a.b", 12, STILL, 11, refused(5, 12)),
        ("a.b", 1, STILL, 0, refused(6, 0)),
    ] {
        let reasons = reasons_of(alloc, reasons)?;
        assert!(rt; answer(alloc, word, order, paths, &reasons)? == wanted);
    }
    let empty = walks_of(alloc, &[&[]])?;
    assert!(rt; answer(alloc, "a", 2, STILL, &empty)? == refused(4, 1));
    Ok(())
}
