//! Stages of cycles on the once-punctured torus, and of vectors on a sphere with folded edges.
use crate::stages::{Stage, deepen, first_stage};
use edge_coords::Coords;
use ideal_tri::Tri;
use std::alloc::{AllocGlobal, Global};
use std::process::Abort;
use std::test::Fail;
use surface_lib::{builtin, read_word};
use tri_atlas::{Atlas, Path};

/// Whether a stage is at these numbers, over the flips of these edges.
fn is_at(stage: &Stage, edges: &[u32], numbers: &[u128]) -> bool {
    stage.edges.as_slice() == edges
        && stage.coords.values() == numbers
        && stage.path.moves().len() == edges.len()
}

/// The images of the first cycle under the word a.b have the Fibonacci numbers 2n - 1, 2n + 1 and 2n.
#[test]
fn images(rt: HostRuntime) -> Result<(), Fail> {
    let alloc: Global = rt.alloc();
    let mut s = builtin(alloc, "S_1_1")?;
    let word = read_word(alloc, &s, "a.b")?;
    let w = Coords::new(&s.atlas, s.atlas.base(), &[1, 1, 0])?;
    let mut stage = first_stage(alloc, &s.atlas, &word, &w);
    assert!(rt; is_at(&stage, &[], &[28_657, 75_025, 46_368]));
    deepen(&mut s.atlas, &mut stage)?;
    assert!(rt; is_at(&stage, &[1], &[28_657, 17_711, 46_368]));
    Ok(())
}

/// The stage of this depth of a vector under the empty word.
fn stage_of(
    rt: &(impl Abort + AllocGlobal),
    triples: &[[i32; 3]],
    numbers: &[u128],
    depth: u32,
) -> Result<Stage, Fail> {
    let alloc: Global = rt.alloc();
    let mut atlas = Atlas::new(alloc, Tri::from_triples(triples)?)?;
    let w = Coords::new(&atlas, atlas.base(), numbers)?;
    let mut stage = first_stage(alloc, &atlas, &Path::new(alloc, atlas.base()), &w);
    for _ in 0..depth {
        deepen(&mut atlas, &mut stage)?;
    }
    Ok(stage)
}

#[test]
fn flips(rt: HostRuntime) -> Result<(), Fail> {
    let torus = [[0, 1, 2], [-1, -2, -3]];
    assert!(rt; is_at(&stage_of(&rt, &torus, &[5, 3, 2], 2)?, &[0, 1], &[1, 1, 2]));
    // the least edge of the greatest number
    assert!(rt; is_at(&stage_of(&rt, &torus, &[1, 1, 0], 1)?, &[0], &[1, 1, 0]));
    // edges 0 and 2 can't be flipped, and the new number of edge 1 is the sum of theirs
    let sphere = [[0, -1, 1], [-2, 2, -3]];
    let half = 1 << 125;
    assert!(rt;
        is_at(
            &stage_of(&rt, &sphere, &[half, 0, half - 1], 1)?,
            &[1],
            &[half, 2 * half - 1, half - 1]
        )
    );
    assert!(rt;
        is_at(
            &stage_of(&rt, &sphere, &[half, 0, half], 2)?,
            &[],
            &[half, 0, half]
        )
    );
    Ok(())
}
