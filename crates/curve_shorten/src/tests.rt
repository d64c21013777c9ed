// Descents on the once-punctured torus and on two of them, on surfaces with more vertices, through a
// folded edge, and one that is stuck.
use super::*;
use edge_coords::Coords;
use ideal_tri::{Label, Tri};
use std::process::Abort;
use std::test::Fail;
use tri_atlas::Atlas;

const TORUS: [[i32; 3]; 2] = [[0, 1, 2], [-1, -2, -3]];

const TWO_TORI: [[i32; 3]; 4] = [[0, 1, 2], [-1, -2, -3], [3, 4, 5], [-4, -5, -6]];

/// The atlas after the descent, and its answer.
fn answer_of(
    rt: &(impl Abort + AllocGlobal),
    triples: &[[i32; 3]],
    numbers: &[u128],
) -> Result<(Atlas, Result<Short, ShortError>), Fail> {
    let mut atlas = Atlas::new(rt.alloc(), Tri::from_components(triples)?)?;
    let w = Coords::new(&atlas, atlas.base(), numbers)?;
    let answer = descend(rt.alloc(), &mut atlas, &w);
    Ok((atlas, answer))
}

/// The triangulation after the flips of these edges, where each can be flipped.
fn flipped_along(tri: &Tri, edges: &[i32]) -> Option<Tri> {
    let mut after = *tri;
    for e in edges {
        let x = Label::new(*e);
        if x.edge() >= after.edges() {
            return None;
        }
        if !after.flippable(x) {
            return None;
        }
        after = after.flipped(x);
    }
    Some(after)
}

/// The coordinates of a descent that is stuck.
fn stuck_at(error: &ShortError) -> Option<Coords> {
    match error {
        ShortError::Stuck { at } => Some(*at),
        _ => None,
    }
}

/// The descent flips these edges, and ends with these numbers.
fn descends(
    rt: &(impl Abort + AllocGlobal),
    triples: &[[i32; 3]],
    numbers: &[u128],
    edges: &[i32],
    last: &[u128],
) -> Result<(), Fail> {
    let mut atlas = Atlas::new(rt.alloc(), Tri::from_components(triples)?)?;
    let w = Coords::new(&atlas, atlas.base(), numbers)?;
    let short = descend(rt.alloc(), &mut atlas, &w)?;
    let after = flipped_along(atlas.tri(atlas.base()), edges);
    assert_eq!(rt; after, Some(*atlas.tri(short.coords.tri())));
    assert_eq!(rt; short.path.moves().len(), edges.len());
    assert_eq!(rt; short.path.start(), atlas.base());
    assert_eq!(rt; short.path.end(), short.coords.tri());
    assert_eq!(rt; short.coords.values(), last);
    Ok(())
}

#[test]
fn on_the_torus(rt: HostRuntime) -> Result<(), Fail> {
    descends(&rt, &TORUS, &[1, 1, 0], &[], &[1, 1, 0])?;
    descends(&rt, &TORUS, &[2, 1, 1], &[0], &[0, 1, 1])?;
    descends(&rt, &TORUS, &[13, 8, 5], &[0, 1, 2, 0, 1], &[1, 0, 1])?;
    // the other component has no curve
    descends(
        &rt,
        &TWO_TORI,
        &[0, 0, 0, 2, 1, 1],
        &[3],
        &[0, 0, 0, 0, 1, 1],
    )
}

#[test]
fn rounds(rt: HostRuntime) -> Result<(), Fail> {
    // the flips of edges 3 and 4 lower the total by as much
    let sphere = [[-6, 1, -5], [-3, 0, 3], [-4, 4, 2], [-1, 5, -2]];
    descends(
        &rt,
        &sphere,
        &[1, 0, 0, 1, 1, 1],
        &[3, 4],
        &[1, 0, 0, 0, 0, 1],
    )?;
    // after the first flip none lowers the total. Those of 2, 4, 6, 7 and 8 keep it, and that of 4 is
    // the first after which one lowers it
    let surface = [
        [7, -6, -2],
        [-3, 8, 1],
        [-5, 6, 5],
        [-4, 4, -8],
        [-1, -9, -7],
        [0, 2, 3],
    ];
    let numbers = [0, 1, 0, 0, 1, 0, 1, 1, 1];
    descends(
        &rt,
        &surface,
        &numbers,
        &[1, 4, 6, 7],
        &[0, 0, 0, 0, 1, 0, 0, 0, 1],
    )?;
    // edge 5 is folded until edge 4 is flipped
    let folded = [[4, -1, -2], [3, 1, 0], [-4, 2, -3], [-5, -6, 5]];
    descends(
        &rt,
        &folded,
        &[1, 1, 0, 0, 2, 1],
        &[4, 5],
        &[1, 1, 0, 0, 0, 0],
    )
}

#[test]
fn refusals(rt: HostRuntime) -> Result<(), Fail> {
    for (numbers, error) in [
        ([2, 2, 0], ShortError::NotOneCurve),
        ([0, 0, 0], ShortError::NotOneCurve),
        ([2, 2, 2], ShortError::Peripheral),
        ([2048, 2048, 0], ShortError::NotOneCurve),
        ([2050, 2048, 2], ShortError::TotalOver { total: 4100 }),
    ] {
        let (_, answer) = answer_of(&rt, &TORUS, &numbers)?;
        assert_eq!(rt; answer.err(), Some(error));
    }
    let most = (1 << 126) - 2;
    let (_, answer) = answer_of(&rt, &TWO_TORI, &[most; 6])?;
    assert_eq!(rt;
        answer.err(),
        Some(ShortError::TotalOver { total: u128::MAX })
    );
    Ok(())
}

/// The curve bounds a torus that holds no vertex.
#[test]
fn stuck(rt: HostRuntime) -> Result<(), Fail> {
    let torus = [[-3, -5, -1], [1, 0, -4], [4, -6, 2], [5, 3, -2]];
    let (atlas, answer) = answer_of(&rt, &torus, &[4, 2, 2, 2, 4, 4])?;
    let at = match answer.err() {
        Some(error) => stuck_at(&error),
        None => None,
    };
    let Some(w) = at else {
        return Err(Fail::new("not stuck"));
    };
    assert!(rt; w.tri() != atlas.base());
    assert_eq!(rt; w.values(), [2, 2, 2, 2, 2, 0].as_slice());
    Ok(())
}
