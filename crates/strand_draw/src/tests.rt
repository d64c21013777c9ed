// Curves on the once-punctured torus, and on the three-punctured sphere with two folded edges; and
// the test walks of the torus.
use super::*;
use edge_coords::Coords;
use free_groupoid::{Walk, test_walks};
use ideal_tri::Tri;
use std::test::Fail;
use tri_atlas::Atlas;

/// Whether the walk starts at this triangle and has these letters.
fn is_walk(walk: &Walk, start: u32, letters: &[i32]) -> bool {
    walk.start == start
        && walk.letters.len() == letters.len()
        && letters
            .iter()
            .enumerate()
            .all(|(i, n)| walk.letters.get(i).map(|x| x.get()) == Some(*n))
}

#[test]
fn torus(rt: HostRuntime) -> Result<(), Fail> {
    let atlas = Atlas::new(rt.alloc(), Tri::from_triples(&[[0, 1, 2], [-1, -2, -3]])?)?;
    let w = Coords::new(&atlas, atlas.base(), &[1, 1, 0])?;
    let walks = components(rt.alloc(), &atlas, &w, 2)?;
    assert_eq!(rt; walks.len(), 1);
    assert!(rt; is_walk(&walks[0], 0, &[0, -2]));
    let refused = components(rt.alloc(), &atlas, &w, 1);
    assert!(rt; matches!(refused, Err(DrawError::TotalOver { total: 2 })));
    let w = Coords::new(&atlas, atlas.base(), &[2, 2, 0])?;
    let walks = components(rt.alloc(), &atlas, &w, 4)?;
    assert_eq!(rt; walks.len(), 2);
    assert!(rt; is_walk(&walks[0], 0, &[0, -2]) && is_walk(&walks[1], 0, &[0, -2]));
    assert!(rt; !is_one_curve(rt.alloc(), &atlas, &w, 4)?);
    let w = Coords::new(&atlas, atlas.base(), &[2, 2, 2])?;
    let walks = components(rt.alloc(), &atlas, &w, 6)?;
    assert_eq!(rt; walks.len(), 1);
    assert!(rt; is_walk(&walks[0], 0, &[0, -2, 2, -1, 1, -3]));
    assert!(rt; is_one_curve(rt.alloc(), &atlas, &w, 6)?);
    let w = Coords::new(&atlas, atlas.base(), &[0, 0, 0])?;
    assert!(rt; !is_one_curve(rt.alloc(), &atlas, &w, 0)?);
    Ok(())
}

#[test]
fn through_folded_edges(rt: HostRuntime) -> Result<(), Fail> {
    let atlas = Atlas::new(rt.alloc(), Tri::from_triples(&[[0, -1, 1], [-2, 2, -3]])?)?;
    let w = Coords::new(&atlas, atlas.base(), &[2, 2, 1])?;
    let walks = components(rt.alloc(), &atlas, &w, 100)?;
    assert_eq!(rt; walks.len(), 2);
    assert!(rt; is_walk(&walks[0], 0, &[0, 1, 2, -2]));
    assert!(rt; is_walk(&walks[1], 0, &[0]));
    Ok(())
}

/// The loops of the edges 1 and 2, which the forest doesn't cross, and their product.
#[test]
fn test_walks_of_the_torus(rt: HostRuntime) -> Result<(), Fail> {
    let tri = Tri::from_triples(&[[0, 1, 2], [-1, -2, -3]])?;
    let walks = test_walks(rt.alloc(), &tri)?;
    assert_eq!(rt; walks.len(), 3);
    assert!(rt; is_walk(&walks[0], 0, &[1, -1]));
    assert!(rt; is_walk(&walks[1], 0, &[2, -1]));
    assert!(rt; is_walk(&walks[2], 0, &[1, -1, 2, -1]));
    Ok(())
}
