// Relations of Dehn twists on small surfaces (Farb and Margalit, chapters 3 and 5): twists about
// disjoint curves commute, twists about curves that cross once braid, and products along a chain
// and in a lantern act as the twists about curves round them. Two products are compared by the
// images of many vectors.
use crate::twist;
use edge_coords::Coords;
use ideal_tri::Tri;
use std::alloc::AllocGlobal;
use std::process::Abort;
use std::test::Fail;
use surface_lib::{Hand, TwistError};
use tri_atlas::{Atlas, atlas_laws};

const TORUS: [[i32; 3]; 2] = [[0, 1, 2], [-1, -2, -3]];

const TWO_TORI: [[i32; 3]; 4] = [[0, 1, 2], [-1, -2, -3], [3, 4, 5], [-4, -5, -6]];

/// A four-punctured sphere: two triangles between edges 0 and 1, and one folded on either side.
const SPHERE: [[i32; 3]; 4] = [[0, 1, 2], [-1, -2, 3], [-3, 4, -5], [-4, 5, -6]];

/// The surface of genus two with one puncture.
const GENUS_TWO: [[i32; 3]; 6] = [
    [0, 1, -5],
    [2, 3, -6],
    [-1, -2, -7],
    [-3, -4, -8],
    [4, 5, -9],
    [8, 6, 7],
];

/// Vectors on the torus; the last is round the puncture.
const ON_TORUS: [&[u128]; 10] = [
    &[1, 1, 0],
    &[1, 0, 1],
    &[0, 1, 1],
    &[2, 1, 1],
    &[1, 3, 2],
    &[5, 2, 7],
    &[13, 8, 21],
    &[4, 6, 2],
    &[1_000_003, 999_979, 24],
    &[2, 2, 2],
];

/// Vectors on the sphere; the last is round the puncture of the folded edge 4.
const ON_SPHERE: [&[u128]; 8] = [
    &[1, 1, 0, 0, 0, 0],
    &[1, 1, 2, 2, 1, 1],
    &[0, 2, 2, 2, 1, 1],
    &[2, 0, 2, 2, 1, 1],
    &[3, 1, 4, 4, 2, 2],
    &[2, 4, 6, 2, 3, 1],
    &[7, 9, 16, 2, 8, 1],
    &[0, 0, 0, 0, 1, 0],
];

/// The image of a vector under the twist of hand plus about a curve.
fn turned(
    rt: &(impl Abort + AllocGlobal),
    triples: &[[i32; 3]],
    curve: &[u128],
    numbers: &[u128],
) -> Result<Vec<u128>, Fail> {
    atlas_laws();
    let mut atlas = Atlas::new(rt.alloc(), Tri::from_components(triples)?)?;
    let base = atlas.base();
    let curve = Coords::new(&atlas, base, curve)?;
    let v = Coords::new(&atlas, base, numbers)?;
    let path = twist(rt.alloc(), &mut atlas, &curve, Hand::Plus).expect(rt, "a twist");
    let mut moved = v;
    assert!(rt; moved.follow(&atlas, &path).is_ok());
    Ok(moved.values().to_vec(rt.alloc())?)
}

/// The image of a vector under the twists of hand plus about these curves, the first of them first.
fn turned_about(
    rt: &(impl Abort + AllocGlobal),
    triples: &[[i32; 3]],
    curves: &[&[u128]],
    numbers: &[u128],
) -> Result<Vec<u128>, Fail> {
    let mut v = numbers.to_vec(rt.alloc())?;
    for curve in curves {
        v = turned(rt, triples, curve, &v)?;
    }
    Ok(v)
}

/// The twists about two curves, in either order, have the same images of these vectors.
fn commute(
    rt: &(impl Abort + AllocGlobal),
    triples: &[[i32; 3]],
    (a, b): (&[u128], &[u128]),
    vectors: &[&[u128]],
) -> Result<(), Fail> {
    for v in vectors {
        let left = turned_about(rt, triples, &[a, b], v)?;
        let right = turned_about(rt, triples, &[b, a], v)?;
        assert!(rt; left.as_slice() == right.as_slice());
    }
    Ok(())
}

/// The twists about two curves, each between the other's, have the same images of these vectors.
fn braid(
    rt: &(impl Abort + AllocGlobal),
    triples: &[[i32; 3]],
    (a, b): (&[u128], &[u128]),
    vectors: &[&[u128]],
) -> Result<(), Fail> {
    for v in vectors {
        let left = turned_about(rt, triples, &[a, b, a], v)?;
        let right = turned_about(rt, triples, &[b, a, b], v)?;
        assert!(rt; left.as_slice() == right.as_slice());
    }
    Ok(())
}

/// The twists about these curves, one after another, keep these vectors.
fn keep(
    rt: &(impl Abort + AllocGlobal),
    triples: &[[i32; 3]],
    curves: &[&[u128]],
    vectors: &[&[u128]],
) -> Result<(), Fail> {
    for v in vectors {
        let left = turned_about(rt, triples, curves, v)?;
        assert!(rt; left.as_slice() == *v);
    }
    Ok(())
}

#[test]
fn curves_that_cross_once(rt: HostRuntime) -> Result<(), Fail> {
    braid(&rt, &TORUS, (&[1, 1, 0], &[1, 0, 1]), &ON_TORUS)?;
    braid(&rt, &TORUS, (&[2, 1, 1], &[3, 1, 2]), &ON_TORUS)?;
    braid(&rt, &TORUS, (&[13, 8, 5], &[8, 5, 3]), &ON_TORUS)?;
    braid(&rt, &TORUS, (&[34, 55, 21], &[13, 21, 8]), &ON_TORUS)
}

// The product is half of the twist about the curve round both, which runs round the puncture: it is
// the half turn of the torus, which keeps all vectors.
#[test]
fn chain_of_two(rt: HostRuntime) -> Result<(), Fail> {
    let (a, b): (&[u128], &[u128]) = (&[2, 1, 1], &[3, 1, 2]);
    keep(&rt, &TORUS, &[a, b, a, b, a, b], &ON_TORUS)
}

// Twists on different components.
#[test]
fn disjoint_curves(rt: HostRuntime) -> Result<(), Fail> {
    let pair: (&[u128], &[u128]) = (&[13, 8, 5, 0, 0, 0], &[0, 0, 0, 2, 1, 1]);
    let vectors: [&[u128]; 4] = [
        &[1, 0, 1, 1, 1, 0],
        &[5, 2, 7, 1, 3, 2],
        &[2, 2, 2, 13, 8, 21],
        &[4, 6, 2, 0, 5, 5],
    ];
    commute(&rt, &TWO_TORI, pair, &vectors)
}

// The four curves round the part of the sphere where these three run are round punctures, so the
// product of the three is trivial. Two of them cross the folded edges.
#[test]
fn lantern(rt: HostRuntime) -> Result<(), Fail> {
    let a: &[u128] = &[1, 1, 0, 0, 0, 0];
    let b: &[u128] = &[1, 1, 2, 2, 1, 1];
    keep(&rt, &SPHERE, &[a, b, &[0, 2, 2, 2, 1, 1]], &ON_SPHERE)?;
    keep(&rt, &SPHERE, &[b, a, &[2, 0, 2, 2, 1, 1]], &ON_SPHERE)
}

// The curve cuts off a torus that holds no puncture.
#[test]
fn stuck(rt: HostRuntime) -> Result<(), Fail> {
    let mut atlas = Atlas::new(rt.alloc(), Tri::from_triples(&GENUS_TWO)?)?;
    let base = atlas.base();
    let curve = Coords::new(&atlas, base, &[0, 0, 2, 2, 0, 2, 0, 2, 2])?;
    assert!(rt;
        matches!(
            twist(rt.alloc(), &mut atlas, &curve, Hand::Plus),
            Err(TwistError::Stuck { .. })
        )
    );
    Ok(())
}
