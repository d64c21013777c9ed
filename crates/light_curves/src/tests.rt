//! The curves about light edges on a sphere of two folded triangles, and the search there and on the
//! once-punctured torus.
use crate::curves_about::curves_about;
use crate::light_search::search_light;
use crate::touched_vertices::touched_vertices;
use cycle_stages::stages_of;
use edge_coords::{Coords, CurveLine};
use ideal_tri::Tri;
use multicurve_cert::Curves;
use std::alloc::{AllocGlobal, Global};
use std::test::Fail;
use tri_atlas::{Atlas, Path, atlas_laws};

/// Edge 1 is a loop at the vertex 1. From there edge 0 leads to the vertex 0, and edge 2 to the vertex 2.
const SPHERE: [[i32; 3]; 2] = [[0, -1, 1], [-2, 2, -3]];

const TORUS: [[i32; 3]; 2] = [[0, 1, 2], [-1, -2, -3]];

/// Whether light edges end at these vertices, in this order.
fn are_ends(rt: &impl AllocGlobal, numbers: &[u128], ends: &[u32]) -> Result<bool, Fail> {
    let atlas = Atlas::new(rt.alloc(), Tri::from_triples(&SPHERE)?)?;
    let w = Coords::new(&atlas, atlas.base(), numbers)?;
    let touched = touched_vertices(rt.alloc(), atlas.tri(w.tri()), w.values())?;
    Ok(
        touched.len() == ends.len()
            && touched
                .iter()
                .zip(ends.iter())
                .all(|(v, end)| v.number() == *end),
    )
}

#[test]
fn ends_of_light_edges(rt: HostRuntime) -> Result<(), Fail> {
    assert!(rt; are_ends(&rt, &[5, 0, 0], &[1, 1, 2, 1])?);
    // the square of 2 is the greatest number
    assert!(rt; are_ends(&rt, &[2, 4, 3], &[0, 1])?);
    Ok(())
}

/// The numbers of the curves about the light edges are these.
fn are_about(
    rt: &impl AllocGlobal,
    triples: &[[i32; 3]],
    numbers: &[u128],
    about: &[u128],
) -> Result<bool, Fail> {
    let atlas = Atlas::new(rt.alloc(), Tri::from_triples(triples)?)?;
    let w = Coords::new(&atlas, atlas.base(), numbers)?;
    match curves_about(rt.alloc(), &atlas, &w)? {
        Some(curves) => Ok(curves.values() == about),
        None => Ok(about.is_empty()),
    }
}

#[test]
fn about_light_edges(rt: HostRuntime) -> Result<(), Fail> {
    // no light edge ends at the vertex 0
    assert!(rt; are_about(&rt, &SPHERE, &[5, 0, 0], &[1, 0, 0])?);
    // the loop would be crossed twice, and the edge that it runs round not at all
    assert!(rt; are_about(&rt, &SPHERE, &[2, 4, 3], &[])?);
    assert!(rt; are_about(&rt, &TORUS, &[5, 5, 0], &[2, 2, 0])?);
    assert!(rt; are_about(&rt, &TORUS, &[1, 1, 0], &[0, 0, 0])?);
    Ok(())
}

/// The answer for these numbers under the empty word, and how many stages there are.
fn answer(
    rt: &impl AllocGlobal,
    triples: &[[i32; 3]],
    numbers: &[u128],
) -> Result<(usize, Curves), Fail> {
    let alloc: Global = rt.alloc();
    atlas_laws();
    let mut atlas = Atlas::new(alloc, Tri::from_triples(triples)?)?;
    let word = Path::new(alloc, atlas.base());
    let w = Coords::new(&atlas, atlas.base(), numbers)?;
    let stages = stages_of(alloc, &mut atlas, &word, &w)?;
    Ok((stages.len(), search_light(alloc, &atlas, &word, &stages)?))
}

#[test]
fn searches(rt: HostRuntime) -> Result<(), Fail> {
    // two curves about edge 2
    assert!(rt; is_first(&answer(&rt, &TORUS, &[5, 5, 0])?.1, &[2, 2, 0]));
    // all edges are light at each of the stages
    assert!(rt; is_empty_at_all(&answer(&rt, &TORUS, &[1, 1, 0])?, 56));
    // edges 0 and 2 can't be flipped, the new number of edge 1 is 2^126, and the curves about edge 1 run round vertices
    let half = 1 << 125;
    assert!(rt; is_empty_at_all(&answer(&rt, &SPHERE, &[half, 0, half])?, 1));
    Ok(())
}

/// Whether there are so many stages, and no candidate is left without the curves round vertices.
fn is_empty_at_all(answer: &(usize, Curves), stages: usize) -> bool {
    match &answer.1 {
        Curves::Found { .. } => false,
        Curves::None { log } => {
            answer.0 == stages
                && log.len() == 56
                && log.iter().all(|line| *line == CurveLine::Empty)
        }
    }
}

/// Whether the first candidate passes, and has these numbers.
fn is_first(answer: &Curves, numbers: &[u128]) -> bool {
    match answer {
        Curves::Found { number, coords } => *number == 0 && coords.values() == numbers,
        Curves::None { .. } => false,
    }
}
