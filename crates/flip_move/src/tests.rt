// Flips of the once-punctured torus, where the sides of the quadrilateral are glued to each other,
// and of a sphere with folded edges.
use super::*;
use ideal_tri::Tri;
use std::test::Fail;

#[test]
fn torus(rt: HostRuntime) -> Result<(), Fail> {
    let torus = Tri::from_triples(&[[0, 1, 2], [-1, -2, -3]])?;
    let after = Tri::from_triples(&[[0, -3, 1], [-1, 2, -2]])?;
    let mut atlas = Atlas::new(rt.alloc(), torus)?;
    let base = atlas.base();
    let e = atlas.edge(base, 0).expect(&rt, "a label");
    let m = flip(&mut atlas, e).expect(&rt, "a flip");
    assert_eq!(rt; atlas.source(m), base);
    assert_eq!(rt; *atlas.tri(atlas.target(m)), after);
    Ok(())
}

#[test]
fn folded_edges(rt: HostRuntime) -> Result<(), Fail> {
    let sphere = Tri::from_triples(&[[0, -1, 1], [-2, 2, -3]])?;
    let after = Tri::from_triples(&[[1, -3, 0], [-2, -1, 2]])?;
    let mut atlas = Atlas::new(rt.alloc(), sphere)?;
    let base = atlas.base();
    let folded = atlas.edge(base, 0).expect(&rt, "a label");
    assert!(rt; matches!(flip(&mut atlas, folded), Err(FlipError::NotFlippable)));
    atlas.reserve(1)?;
    let between = atlas.edge(base, 1).expect(&rt, "a label");
    let m = flip_reserved(&mut atlas, between);
    assert_eq!(rt; *atlas.tri(atlas.target(m)), after);
    Ok(())
}
