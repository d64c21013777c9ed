//! The anchor rule on the once-punctured torus.
ghost use Rattle.std.specs.Prelude.{◌≡◌, ◌<◌, ◌^◌, length, IfOk};
ghost use Rattle.carry_map.specs.AnchorAnswers.{IsMapOnTrack};

use crate::torus::{is_word, one_twist, torus, torus_track, turn, two_twists};
use crate::{AnchorError, CarryMap, anchor};
use free_groupoid::Map;
use ideal_tri::Label;
use std::alloc::Global;
use std::test::Fail;
use train_track::Track;
use tri_atlas::Atlas;

/// How a map carries a track of one switch and two branches.
fn carried(
    alloc: Global,
    atlas: &Atlas,
    track: &Track,
    psi: &Map,
    cap: u64,
) -> Result<CarryMap, Fail>
    requires map { IsMapOnTrack atlas.now track.now psi.now }
    requires cap { cap < 2 ^ 63 }
    requires switches { length track.now.switches ≡ 1 }
    requires branches { length track.now.branches ≡ 2 }
    ensures to { IfOk result (λ c. length c.to ≡ 1) }
    ensures connect { IfOk result (λ c. length c.connect ≡ 1) }
    ensures images { IfOk result (λ c. length c.images ≡ 2) }
{
    Ok(anchor(alloc, atlas, track, psi, cap)?)
}

#[test]
fn identity_on_the_torus(rt: HostRuntime) -> Result<(), Fail> {
    let alloc = rt.alloc();
    let atlas = torus(alloc)?;
    let track = torus_track(alloc, &atlas)?;
    let psi = Map::identity(alloc, &atlas, atlas.base())?;
    let carried = carried(alloc, &atlas, &track, &psi, 6)?;
    assert!(rt; carried.to(0) == Label::new(1));
    assert_eq!(rt; carried.connect(0).letters.len(), 0);
    assert!(rt; is_word(&carried.image(1).letters, &[1, -3, 1]));
    let capped = anchor(alloc, &atlas, &track, &psi, 5);
    assert!(rt; matches!(capped, Err(AnchorError::CapPassed { letters: 6 })));
    Ok(())
}

#[test]
fn two_twists_carry(rt: HostRuntime) -> Result<(), Fail> {
    let alloc = rt.alloc();
    let mut atlas = torus(alloc)?;
    let psi = two_twists(&rt, alloc, &mut atlas)?;
    let track = torus_track(alloc, &atlas)?;
    let carried = carried(alloc, &atlas, &track, &psi, 12)?;
    assert_eq!(rt; carried.to(0).get(), 1);
    assert!(rt; is_word(&carried.connect(0).letters, &[-2, 2, -2]));
    assert!(rt; is_word(&carried.image(0).letters, &[1, -3, 1, -1, 1]));
    assert!(rt; is_word(&carried.image(1).letters, &[1, -3, 1, -1, 1, -3, 1]));
    let capped = anchor(alloc, &atlas, &track, &psi, 2);
    assert!(rt; matches!(capped, Err(AnchorError::CapPassed { letters: 3 })));
    Ok(())
}

#[test]
fn no_train_path(rt: HostRuntime) -> Result<(), Fail> {
    let alloc = rt.alloc();
    let mut atlas = torus(alloc)?;
    let psi = one_twist(&rt, alloc, &mut atlas)?;
    let track = torus_track(alloc, &atlas)?;
    let refused = anchor(alloc, &atlas, &track, &psi, 0);
    assert!(rt; matches!(refused, Err(AnchorError::Illegal(1))));
    Ok(())
}

#[test]
fn no_common_part(rt: HostRuntime) -> Result<(), Fail> {
    let alloc = rt.alloc();
    let mut atlas = torus(alloc)?;
    let psi = turn(alloc, &mut atlas)?;
    let track = torus_track(alloc, &atlas)?;
    let refused = anchor(alloc, &atlas, &track, &psi, 0);
    assert!(rt; matches!(refused, Err(AnchorError::NoCommonPart(1))));
    Ok(())
}
