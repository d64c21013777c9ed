// The once-punctured torus and the flip of its edge 0, there and back.
ghost use Rattle.std.specs.Prelude.{◌≡◌};
ghost use Rattle.tri_atlas.specs.Arena.{IsEdgeIn, IsMoveIn, source_of, target_of};
ghost use Rattle.tri_atlas.specs.Steps.{edge_in};

use super::*;
use ideal_tri::{Label, Tri};
use std::test::Fail;

/// The edge that was carried.
fn edge(carried: Carried) -> EdgeId
    ensures { result ≡ edge_in carried }
{
    match carried {
        Carried::Same(e) | Carried::New(e) => e,
    }
}

/// The edge after two moves. Without the first `carry` its handle would be of no use to the second.
fn across_both(atlas: &Atlas, first: MoveId, second: MoveId, e: EdgeId) -> EdgeId
    requires first { IsMoveIn atlas.now first }
    requires second { IsMoveIn atlas.now second }
    requires follows { source_of atlas.now second ≡ target_of atlas.now first }
    requires edge { IsEdgeIn atlas.now e }
    requires source { e.tri ≡ source_of atlas.now first }
{
    let between = edge(atlas.carry(first, e));
    edge(atlas.carry(second, between))
}

#[test]
fn flip_and_back(rt: HostRuntime) -> Result<(), Fail> {
    let torus = Tri::from_triples(&[[0, 1, 2], [-1, -2, -3]])?;
    let flipped = Tri::from_triples(&[[0, -3, 1], [-1, 2, -2]])?;
    let mut atlas = Atlas::new(rt.alloc(), torus)?;
    atlas.reserve(1)?;
    let base = atlas.base();
    assert!(rt; atlas.edge(base, 3).is_none());
    let e = atlas.edge(base, 0).expect(&rt, "a label");
    let m = atlas.push_flip(e, flipped);
    let after = atlas.target(m);
    assert_eq!(rt;
        atlas.tri(after).triple(1),
        [Label::new(-1), Label::new(2), Label::new(-2)]
    );
    assert_eq!(rt; atlas.source(m), base);
    for x in -3..3 {
        let e = atlas.edge(base, x).expect(&rt, "a label");
        let carried = atlas.carry(m, e);
        assert_eq!(rt;
            matches!(carried, Carried::New(_)),
            x == 0 || x == -1,
            "at {x}"
        );
        assert_eq!(rt; edge(carried).label(), Label::new(x));
        assert_eq!(rt; edge(carried).tri(), after);
        assert_eq!(rt; across_both(&atlas, m, atlas.back(m), e), e);
    }
    let mut path = Path::new(rt.alloc(), base);
    path.push(&atlas, m)?;
    let back = path.inverse(rt.alloc(), &atlas)?;
    assert_eq!(rt; (back.start(), back.end()), (after, base));
    assert_eq!(rt; back.moves().len(), 1);
    assert!(rt; matches!(atlas.step(back.moves()[0]), Step::Unflip { .. }));
    path.append(&back)?;
    assert_eq!(rt; path.flips(&atlas), 2);
    Ok(())
}
