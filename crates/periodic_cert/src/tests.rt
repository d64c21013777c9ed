//! The powers of words in two twists of the once-punctured torus.
ghost use Rattle.std.specs.Prelude.{◌≡◌, IfOk, OnOk};
ghost use Rattle.tri_atlas.specs.Arena.{Grows};
ghost use Rattle.tri_atlas.specs.Paths.{IsPathIn};

use super::*;
use flip_move::flip;
use free_groupoid::Walk;
use ideal_tri::Tri;
use relabel::{Relabelling, push};
use std::alloc::AllocGlobal;
use std::process::Abort;
use std::test::Fail;
use tri_atlas::{Atlas, Path, atlas_laws};

const TORUS: [[i32; 3]; 2] = [[0, 1, 2], [-1, -2, -3]];

/// The relabellings back of the two twists, each after a flip of edge 0.
const A: [i32; 3] = [2, 1, -1];

const B: [i32; 3] = [-2, -1, 2];

/// Puts the flip of edge 0 at the end of a path.
fn push_flip(rt: &impl Abort, atlas: &mut Atlas, path: &mut Path) -> Result<(), Fail>
    requires { IsPathIn atlas.old path.old }
    ensures path { OnOk result (IsPathIn atlas.new path.new) }
    ensures start { OnOk result (path.new.start ≡ path.old.start) }
    ensures grows { OnOk result (Grows atlas.old atlas.new) }
{
    atlas_laws();
    let e = atlas.edge(path.end(), 0).expect(rt, "a label");
    let m = flip(atlas, e)?;
    path.push(atlas, m)?;
    Ok(())
}

/// Puts the relabelling with these images at the end of a path, back to the base.
fn push_relabelling(atlas: &mut Atlas, path: &mut Path, images: &[i32]) -> Result<(), Fail>
    requires { IsPathIn atlas.old path.old }
    ensures path { OnOk result (IsPathIn atlas.new path.new) }
    ensures start { OnOk result (path.new.start ≡ path.old.start) }
    ensures end { OnOk result (path.new.end ≡ 0) }
    ensures grows { OnOk result (Grows atlas.old atlas.new) }
{
    atlas_laws();
    let base = atlas.base();
    let from = path.end();
    let r = Relabelling::from_list(atlas.tri(from), atlas.tri(base), images)?;
    let m = push(atlas, from, base, &r)?;
    path.push(atlas, m)?;
    Ok(())
}

/// The twist with this relabelling back.
fn twist(rt: &(impl Abort + AllocGlobal), atlas: &mut Atlas, images: &[i32]) -> Result<Path, Fail>
    ensures path { IfOk result (IsPathIn atlas.new) }
    ensures ends { IfOk result (λ p. (p.start ≡ 0) × (p.end ≡ 0)) }
    ensures grows { OnOk result (Grows atlas.old atlas.new) }
{
    atlas_laws();
    let mut path = Path::new(rt.alloc(), atlas.base());
    push_flip(rt, atlas, &mut path)?;
    push_relabelling(atlas, &mut path, images)?;
    Ok(path)
}

/// Whether the walk starts at this triangle and has these letters.
fn is_walk(walk: &Walk, start: usize, letters: &[i32]) -> bool {
    walk.start as usize == start
        && walk.letters.len() == letters.len()
        && letters
            .iter()
            .enumerate()
            .all(|(i, n)| walk.letters.get(i).map(|x| x.get()) == Some(*n))
}

/// Whether there is a reason against each power before this one: the walk across edge 1 and back
/// across edge 0.
fn refute_before(reasons: &[Walk], power: u32) -> bool {
    reasons.len() + 1 == power as usize && reasons.iter().all(|walk| is_walk(walk, 0, &[1, -1]))
}

/// Whether the answer is this order, by walks without letters from the two triangles.
fn is_order(answer: &PowerAnswer, order: u32) -> bool {
    match answer {
        PowerAnswer::Order { k, paths, reasons } => {
            *k == order
                && paths.len() == 2
                && is_walk(&paths[0], 0, &[])
                && is_walk(&paths[1], 1, &[])
                && refute_before(reasons, order)
        }
        _ => false,
    }
}

/// Whether the answer is that each power before this one is refuted.
fn is_refuted(answer: &PowerAnswer, next: u32) -> bool {
    match answer {
        PowerAnswer::AllRefuted { reasons } => refute_before(reasons, next),
        _ => false,
    }
}

/// Whether the answer is that this power passes the cap, with so many letters.
fn is_capped(answer: &PowerAnswer, at: u32, count: u64) -> bool {
    match answer {
        PowerAnswer::Capped {
            power,
            letters,
            reasons,
        } => *power == at && *letters == count && refute_before(reasons, at),
        _ => false,
    }
}

#[test]
fn least_inner_powers(rt: HostRuntime) -> Result<(), Fail> {
    atlas_laws();
    let alloc = rt.alloc();
    let mut atlas = Atlas::new(alloc, Tri::from_triples(&TORUS)?)?;
    let nothing = Path::new(alloc, atlas.base());
    assert!(rt; is_order(&powers(alloc, &atlas, &nothing, 48, 262_144)?, 1));
    let mut word = twist(&rt, &mut atlas, &A)?;
    let b = twist(&rt, &mut atlas, &B)?;
    word.append(&b.inverse(alloc, &atlas)?)?;
    assert!(rt; is_order(&powers(alloc, &atlas, &word, 48, 262_144)?, 6));
    Ok(())
}

#[test]
fn no_inner_power(rt: HostRuntime) -> Result<(), Fail> {
    atlas_laws();
    let alloc = rt.alloc();
    let mut atlas = Atlas::new(alloc, Tri::from_triples(&TORUS)?)?;
    let mut word = twist(&rt, &mut atlas, &A)?;
    word.append(&twist(&rt, &mut atlas, &B)?)?;
    // after the moves of two powers the map has 5, 5, 9, 9 and 15, 15, 23, 23 letters
    for (limit, cap, next) in [(0, 4, 1), (1, 9, 2), (2, 23, 3)] {
        assert!(rt; is_refuted(&powers(alloc, &atlas, &word, limit, cap)?, next));
    }
    assert!(rt; is_capped(&powers(alloc, &atlas, &word, 3, 22)?, 2, 23));
    assert!(rt; is_capped(&powers(alloc, &atlas, &word, 3, 4)?, 1, 5));
    Ok(())
}
