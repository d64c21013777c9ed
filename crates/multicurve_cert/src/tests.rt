//! The cycles of small triangulations, against lists made of all closed walks by brute force.
use crate::cycles;
use free_groupoid::Walk;
use ideal_tri::Tri;
use std::alloc::Global;
use std::test::Fail;

/// Eight triangles.
const EIGHT: [[i32; 3]; 8] = [
    [11, -2, 8],
    [2, -1, -11],
    [4, -7, 10],
    [1, 9, 7],
    [6, -4, -6],
    [-12, 5, -10],
    [-8, 3, 0],
    [-9, -3, -5],
];

/// Their cycles.
const CYCLES_OF_EIGHT: &[&[i32]] = &[
    &[1, 11, -10],
    &[2, -5, 10],
    &[0, -11, -7, -4],
    &[3, -6, -10, 7],
    &[0, 2, -5, -7, -4],
    &[0, 2, -9, -2, 7],
    &[1, 11, 5, -4, -8],
    &[4, -9, 11, 5, 6],
    &[0, 2, -9, 11, 5, -4],
    &[0, 2, -9, 11, -10, 7],
    &[0, -11, 4, -9, -2, 7],
    &[0, -11, -7, -6, -10, 7],
    &[1, 8, -5, -7, -4, -8],
    &[1, 8, -5, -7, -6, -10],
    &[2, -9, 11, 5, 6, 10],
    &[0, 2, -5, -7, -6, -10, 7],
    &[0, 2, -9, -2, 9, 5, -4],
    &[0, -11, 4, -9, 11, 5, -4],
    &[0, -11, 4, -9, 11, -10, 7],
    &[0, -11, -7, -6, -12, -2, 7],
    &[1, 8, -3, -11, -7, -4, -8],
    &[1, 8, -3, -11, -7, -6, -10],
    &[3, 6, 4, -9, 11, -10, 7],
    &[0, 2, -5, -7, -6, -12, -2, 7],
    &[0, -11, 4, -9, -2, 9, 5, -4],
    &[2, -9, 11, -10, 7, 3, 6, 10],
];

/// Whether these are the letters of the walk.
fn has_letters(walk: &Walk, letters: &[i32]) -> bool {
    walk.letters.len() == letters.len()
        && letters
            .iter()
            .enumerate()
            .all(|(i, n)| walk.letters.get(i).map(|x| x.get()) == Some(*n))
}

/// Whether the cycles of these triangles have these letters, one after another.
fn has_cycles(alloc: Global, triples: &[[i32; 3]], expected: &[&[i32]]) -> Result<bool, Fail> {
    let walks = cycles(alloc, &Tri::from_triples(triples)?)?;
    Ok(
        walks.len() == expected.len()
            && expected.iter().enumerate().all(|(i, letters)| match walks.get(i) {
                Some(walk) => has_letters(walk, letters),
                None => false,
            }),
    )
}

#[test]
fn two_triangles(rt: HostRuntime) -> Result<(), Fail> {
    let alloc = rt.alloc();
    let three: &[&[i32]] = &[&[0, -2], &[0, -3], &[1, -3]];
    assert!(rt;
        has_cycles(alloc, &[[0, 1, 2], [-1, -2, -3]], three)?,
        "the torus"
    );
    assert!(rt;
        has_cycles(alloc, &[[0, 1, 2], [-1, -3, -2]], three)?,
        "the sphere"
    );
    assert!(rt;
        has_cycles(alloc, &[[0, -1, 2], [1, -2, -3]], &[&[0], &[1]])?,
        "folded edges"
    );
    Ok(())
}

#[test]
fn eight_triangles(rt: HostRuntime) -> Result<(), Fail> {
    assert!(rt; has_cycles(rt.alloc(), &EIGHT, CYCLES_OF_EIGHT)?);
    Ok(())
}

#[test]
fn starts(rt: HostRuntime) -> Result<(), Fail> {
    let walks = cycles(rt.alloc(), &Tri::from_triples(&[[1, -2, -3], [0, -1, 2]])?)?;
    assert_eq!(rt; walks.len(), 2);
    assert_eq!(rt; walks[0].start, 1);
    assert_eq!(rt; walks[1].start, 0);
    Ok(())
}
