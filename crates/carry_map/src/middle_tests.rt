//! The middle rule on the once-punctured torus.
ghost use Rattle.std.specs.Prelude.{◌≡◌, ◌<◌, ◌^◌, length, IfOk};
ghost use Rattle.train_track.specs.Branches.{IsTrackIn};
ghost use Rattle.carry_map.specs.AnchorAnswers.{IsMapOnTrack};

use crate::torus::{is_word, other_twist, torus, torus_track, turn, two_twists};
use crate::{AnchorError, CarryMap, anchor, middle_anchor};
use free_groupoid::Map;
use ideal_tri::Label;
use std::alloc::Global;
use std::test::Fail;
use train_track::Track;
use tri_atlas::Atlas;

/// How a map carries a track by the middle rule.
fn carried(
    alloc: Global,
    atlas: &Atlas,
    track: &Track,
    psi: &Map,
    cap: u64,
) -> Result<CarryMap, Fail>
    requires map { IsMapOnTrack atlas.now track.now psi.now }
    requires cap { cap < 2 ^ 63 }
    requires switches { length track.now.switches ≡ 2 }
    requires branches { length track.now.branches ≡ 3 }
    ensures to { IfOk result (λ c. length c.to ≡ 2) }
    ensures connect { IfOk result (λ c. length c.connect ≡ 2) }
    ensures images { IfOk result (λ c. length c.images ≡ 3) }
{
    Ok(middle_anchor(alloc, atlas, track, psi, cap)?)
}

/// The same, for one switch and two branches.
fn carried_one(
    alloc: Global,
    atlas: &Atlas,
    track: &Track,
    psi: &Map,
    cap: u64,
) -> Result<CarryMap, Fail>
    requires map { IsMapOnTrack atlas.now track.now psi.now }
    requires cap { cap < 2 ^ 63 }
    requires switches { length track.now.switches ≡ 1 }
    requires branches { length track.now.branches ≡ 2 }
    ensures to { IfOk result (λ c. length c.to ≡ 1) }
    ensures connect { IfOk result (λ c. length c.connect ≡ 1) }
    ensures images { IfOk result (λ c. length c.images ≡ 2) }
{
    Ok(middle_anchor(alloc, atlas, track, psi, cap)?)
}

/// The track that leaves out the corners -2 and 2, with two switches and three branches.
fn two_switches(alloc: Global, atlas: &Atlas) -> Result<Track, Fail>
    ensures here { IfOk result (IsTrackIn atlas.now) }
    ensures base { IfOk result (λ t. t.tri ≡ 0) }
    ensures switches { IfOk result (λ t. length t.switches ≡ 2) }
    ensures branches { IfOk result (λ t. length t.branches ≡ 3) }
{
    let corners = [Label::new(-2), Label::new(2)];
    let track = Track::from_list(alloc, atlas, atlas.base(), &corners)?;
    let switches = track.switches();
    if switches.len() != 2 {
        return Err(Fail::new("switches"));
    }
    let branches = track.branches();
    if branches.len() != 3 {
        return Err(Fail::new("branches"));
    }
    Ok(track)
}

#[test]
fn middle_of_four_places(rt: HostRuntime) -> Result<(), Fail> {
    let alloc = rt.alloc();
    let mut atlas = torus(alloc)?;
    let psi = two_twists(&rt, alloc, &mut atlas)?;
    let track = torus_track(alloc, &atlas)?;
    let carried = carried_one(alloc, &atlas, &track, &psi, 12)?;
    assert_eq!(rt; carried.to(0).get(), 1);
    assert!(rt; is_word(&carried.connect(0).letters, &[-2]));
    assert!(rt; is_word(&carried.image(0).letters, &[1, -1, 1, -3, 1]));
    assert!(rt; is_word(&carried.image(1).letters, &[1, -1, 1, -3, 1, -3, 1]));
    Ok(())
}

#[test]
fn middle_of_two_switches(rt: HostRuntime) -> Result<(), Fail> {
    let alloc = rt.alloc();
    let mut atlas = torus(alloc)?;
    let psi = other_twist(&rt, alloc, &mut atlas)?;
    let track = two_switches(alloc, &atlas)?;
    let first = anchor(alloc, &atlas, &track, &psi, 100);
    assert!(rt; matches!(first, Err(AnchorError::Illegal(2))));
    let carried = carried(alloc, &atlas, &track, &psi, 100)?;
    assert_eq!(rt; carried.to(0).get(), -2);
    assert_eq!(rt; carried.to(1).get(), -1);
    assert!(rt; is_word(&carried.connect(0).letters, &[-1, 1]));
    assert!(rt; is_word(&carried.connect(1).letters, &[-1, 1]));
    assert!(rt; is_word(&carried.image(0).letters, &[-2, 0]));
    assert!(rt; is_word(&carried.image(1).letters, &[-2, 0, -3, 1, -1, 1, -1]));
    assert!(rt; is_word(&carried.image(2).letters, &[1, -1]));
    Ok(())
}

#[test]
fn no_place_in_the_middle(rt: HostRuntime) -> Result<(), Fail> {
    let alloc = rt.alloc();
    let mut atlas = torus(alloc)?;
    let psi = turn(alloc, &mut atlas)?;
    let track = torus_track(alloc, &atlas)?;
    let refused = middle_anchor(alloc, &atlas, &track, &psi, 0);
    assert!(rt; matches!(refused, Err(AnchorError::NoCommonPart(1))));
    Ok(())
}
