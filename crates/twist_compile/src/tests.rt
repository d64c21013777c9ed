// Twists on the once-punctured torus and on the four-punctured sphere. The expected labels and
// vectors are worked out by hand.
ghost use Rattle.std.specs.Prelude.{IsTrue};
ghost use Rattle.tri_atlas.specs.Arena.{triangulation};
ghost use Rattle.edge_coords.specs.Coordinates.{AreCoordinatesIn};
ghost use Rattle.twist_compile.specs.inside.EndSteps.{HasTotalTwo};

use crate::end_steps::{annulus, end_path, exchange};
use crate::{twist, twist_parts};
use edge_coords::Coords;
use ideal_tri::Tri;
use std::alloc::AllocGlobal;
use std::process::Abort;
use std::test::Fail;
use surface_lib::{Hand, TwistError};
use tri_atlas::{Atlas, atlas_laws};

const TORUS: [[i32; 3]; 2] = [[0, 1, 2], [-1, -2, -3]];

/// A four-punctured sphere: two triangles between edges 0 and 1, and one folded on either side.
const SPHERE: [[i32; 3]; 4] = [[0, 1, 2], [-1, -2, 3], [-3, 4, -5], [-4, 5, -6]];

/// The same with its triangles in another order.
const TURNED: [[i32; 3]; 4] = [[-3, 4, -5], [-2, 3, -1], [-4, 5, -6], [0, 1, 2]];

/// Whether the curve has the total 2 and runs round no vertex.
fn is_short(atlas: &Atlas, w: &Coords) -> bool
    requires { AreCoordinatesIn atlas.now w.now }
    ensures { IsTrue result
        → HasTotalTwo (triangulation atlas.now w.now.tri) w.now.numbers }
{
    if w.total() != 2 {
        return false;
    }
    match w.peripheral_at(atlas) {
        Some(_) => false,
        None => true,
    }
}

/// Whether the end of the descent of a curve that has the total 2 already gives the labels p and q
/// and the images of their exchange, and the two steps there keep the curve.
fn ends_with(
    rt: &(impl Abort + AllocGlobal),
    triples: &[[i32; 3]],
    numbers: &[u128],
    labels: (i32, i32),
    images: &[i32],
) -> Result<bool, Fail> {
    atlas_laws();
    let mut atlas = Atlas::new(rt.alloc(), Tri::from_triples(triples)?)?;
    let base = atlas.base();
    let w = Coords::new(&atlas, base, numbers)?;
    assert!(rt; is_short(&atlas, &w));
    let (p, q) = annulus(atlas.tri(base), w.values());
    let exchanged = exchange(rt.alloc(), atlas.tri(base), p, q)?;
    let steps = end_path(rt.alloc(), &mut atlas, &w, p, q)?;
    let mut moved = w;
    let follows = moved.follow(&atlas, &steps).is_ok();
    Ok(
        follows
            && moved == w
            && steps.moves().len() == 2
            && (p.get(), q.get()) == labels
            && exchanged.as_slice() == images,
    )
}

#[test]
fn ends_on_the_torus(rt: HostRuntime) -> Result<(), Fail> {
    assert!(rt; ends_with(&rt, &TORUS, &[1, 1, 0], (0, 1), &[-2, 0, 2])?);
    assert!(rt; ends_with(&rt, &TORUS, &[1, 0, 1], (2, 0), &[2, 1, -1])?);
    assert!(rt; ends_with(&rt, &TORUS, &[0, 1, 1], (1, 2), &[0, -3, 1])?);
    Ok(())
}

// The triangle with the lesser number gives p and q, and either gives the same exchange.
#[test]
fn ends_on_the_sphere(rt: HostRuntime) -> Result<(), Fail> {
    let curve = [1, 1, 0, 0, 0, 0];
    let images = [-2, 0, 2, 3, 4, 5];
    assert!(rt; ends_with(&rt, &SPHERE, &curve, (0, 1), &images)?);
    assert!(rt; ends_with(&rt, &TURNED, &curve, (-1, -2), &images)?);
    Ok(())
}

/// Whether the twist about a curve of the torus takes a vector to this one, and the twist of the
/// other hand takes it back.
fn takes(
    rt: &(impl Abort + AllocGlobal),
    curve: &[u128; 3],
    hand: Hand,
    before: &[u128; 3],
    after: &[u128; 3],
) -> Result<bool, Fail> {
    atlas_laws();
    let other = match hand {
        Hand::Plus => Hand::Minus,
        Hand::Minus => Hand::Plus,
    };
    let mut atlas = Atlas::new(rt.alloc(), Tri::from_triples(&TORUS)?)?;
    let base = atlas.base();
    let curve = Coords::new(&atlas, base, curve)?;
    let v = Coords::new(&atlas, base, before)?;
    let there = twist(rt.alloc(), &mut atlas, &curve, hand).expect(rt, "a twist");
    let mut moved = v;
    assert!(rt; moved.follow(&atlas, &there).is_ok());
    let taken = moved.values() == after.as_slice();
    let back = twist(rt.alloc(), &mut atlas, &curve, other).expect(rt, "a twist");
    assert!(rt; moved.follow(&atlas, &back).is_ok());
    Ok(taken && moved == v)
}

// A curve that crosses the twist's once becomes its sum or difference with it.
#[test]
fn twists_of_both_hands(rt: HostRuntime) -> Result<(), Fail> {
    assert!(rt; takes(&rt, &[1, 1, 0], Hand::Plus, &[1, 0, 1], &[2, 1, 1])?);
    assert!(rt; takes(&rt, &[1, 1, 0], Hand::Minus, &[1, 0, 1], &[0, 1, 1])?);
    assert!(rt; takes(&rt, &[1, 1, 0], Hand::Minus, &[2, 1, 1], &[1, 0, 1])?);
    assert!(rt; takes(&rt, &[2, 1, 1], Hand::Plus, &[2, 1, 1], &[2, 1, 1])?);
    Ok(())
}

// The flip of edge 0 lowers the total of (2, 1, 1) from 4 to 2, and then edges 1 and 2 are crossed.
#[test]
fn parts_behind_one_flip(rt: HostRuntime) -> Result<(), Fail> {
    let mut atlas = Atlas::new(rt.alloc(), Tri::from_triples(&TORUS)?)?;
    let base = atlas.base();
    let curve = Coords::new(&atlas, base, &[2, 1, 1])?;
    let parts = twist_parts(rt.alloc(), &mut atlas, &curve).expect(&rt, "a twist");
    assert!(rt; parts.down.as_slice() == [0].as_slice());
    assert_eq!(rt; parts.flip, 1);
    assert!(rt; parts.relabel.as_slice() == [0, -3, 1].as_slice());
    Ok(())
}

#[test]
fn refusals(rt: HostRuntime) -> Result<(), Fail> {
    let mut atlas = Atlas::new(rt.alloc(), Tri::from_triples(&TORUS)?)?;
    let base = atlas.base();
    let large = Coords::new(&atlas, base, &[4096, 4096, 0])?;
    assert!(rt;
        matches!(
            twist(rt.alloc(), &mut atlas, &large, Hand::Plus),
            Err(TwistError::TotalOver { total: 8192 })
        )
    );
    let twice = Coords::new(&atlas, base, &[2, 2, 0])?;
    assert!(rt;
        matches!(
            twist(rt.alloc(), &mut atlas, &twice, Hand::Minus),
            Err(TwistError::NotOneCurve)
        )
    );
    let round = Coords::new(&atlas, base, &[2, 2, 2])?;
    assert!(rt;
        matches!(
            twist_parts(rt.alloc(), &mut atlas, &round),
            Err(TwistError::Peripheral)
        )
    );
    Ok(())
}
