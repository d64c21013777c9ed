//! Tracks on the once-punctured torus.
use crate::{Track, TrackError};
use edge_coords::Coords;
use free_groupoid::Walk;
use ideal_tri::{Label, Tri};
use std::test::Fail;
use tri_atlas::Atlas;

#[test]
fn torus_track(rt: HostRuntime) -> Result<(), Fail> {
    let alloc = rt.alloc();
    let tri = Tri::from_triples(&[[0, 1, 2], [-1, -2, -3]])?;
    let atlas = Atlas::new(alloc, tri)?;
    let (zero, one, two) = (Label::new(0), Label::new(1), Label::new(2));
    let corners = [two, two.inverse()];
    let track = Track::from_list(alloc, &atlas, atlas.base(), &corners)?;
    assert!(rt; track.tri() == atlas.base());
    assert!(rt; track.left_out() == [two, two.inverse()].as_slice());
    assert!(rt; track.switches() == [one].as_slice());
    let branches = track.branches();
    assert_eq!(rt; branches.len(), 2);
    let first = &branches[0];
    assert_eq!(rt; first.start, 0);
    assert!(rt; first.letters.as_slice() == [one, zero.inverse(), one].as_slice());
    let second = &branches[1];
    assert!(rt; second.letters.as_slice() == [one, two.inverse(), one].as_slice());
    // the second branch backwards, and the first, forwards
    let back = one.inverse();
    let letters = [one, two.inverse(), one, zero.inverse(), one];
    let walk = Walk::new(alloc, &tri, 0, &letters)?;
    assert!(rt; track.legal(&atlas, &walk));
    let turned = Walk::new(alloc, &tri, 0, &[one, back])?;
    assert!(rt; !track.legal(&atlas, &turned));
    Ok(())
}

#[test]
fn passes_of_a_walk(rt: HostRuntime) -> Result<(), Fail> {
    let alloc = rt.alloc();
    let tri = Tri::from_triples(&[[0, 1, 2], [-1, -2, -3]])?;
    let atlas = Atlas::new(alloc, tri)?;
    let (zero, one, two) = (Label::new(0), Label::new(1), Label::new(2));
    let track = Track::from_list(alloc, &atlas, atlas.base(), &[two, two.inverse()])?;
    let letters = [one, two.inverse(), one, zero.inverse(), one];
    let walk = Walk::new(alloc, &tri, 0, &letters)?;
    if track.legal(&atlas, &walk) {
        let passes = track.decompose(alloc, &walk)?;
        assert!(rt; passes.as_slice() == [1, 0].as_slice());
        return Ok(());
    }
    assert!(rt; false, "a legal walk");
    Ok(())
}

#[test]
fn refusals(rt: HostRuntime) -> Result<(), Fail> {
    let alloc = rt.alloc();
    let tri = Tri::from_triples(&[[0, 1, 2], [-1, -2, -3]])?;
    let atlas = Atlas::new(alloc, tri)?;
    let base = atlas.base();
    let (zero, one, two) = (Label::new(0), Label::new(1), Label::new(2));
    let close = Track::from_list(alloc, &atlas, base, &[zero, one]);
    assert!(rt; matches!(close, Err(TrackError::TwoLeftOut(0))));
    let none = Track::from_list(alloc, &atlas, base, &[]);
    assert!(rt; matches!(none, Err(TrackError::VertexClosed(0))));
    let twice = Track::from_list(alloc, &atlas, base, &[two, two]);
    assert!(rt; matches!(twice, Err(TrackError::NotLabel(1))));
    let round = Coords::new(&atlas, base, &[2, 2, 2])?;
    let closed = Track::from_coords(alloc, &atlas, &round);
    assert!(rt; matches!(closed, Err(TrackError::VertexClosed(0))));
    Ok(())
}
