//! Places on the once-punctured torus.
ghost use Rattle.carry_map.specs.AnchorAnswers.{IsMapOnTrack};

use crate::places::{Place, SwitchPlaces, places};
use crate::torus::{is_word, torus, torus_track, two_twists};
use free_groupoid::Map;
use ideal_tri::Label;
use std::alloc::Global;
use std::test::Fail;
use train_track::Track;
use tri_atlas::Atlas;

/// The places of the switch 1.
fn places_of_one(
    alloc: Global,
    atlas: &Atlas,
    track: &Track,
    psi: &Map,
) -> Result<SwitchPlaces, Fail>
    requires { IsMapOnTrack atlas.now track.now psi.now }
{
    let s = Label::new(1);
    if s.edge() >= atlas.tri(track.tri()).edges() {
        return Err(Fail::new("no label"));
    }
    Ok(places(alloc, atlas, track, psi, s, 9)?)
}

/// Whether the place has this walk and this label.
fn is_place(place: &Place, connect: &[i32], label: i32) -> bool {
    place.label.get() == label && is_word(&place.connect, connect)
}

#[test]
fn places_of_two_twists(rt: HostRuntime) -> Result<(), Fail> {
    let alloc = rt.alloc();
    let mut atlas = torus(alloc)?;
    let psi = two_twists(&rt, alloc, &mut atlas)?;
    let track = torus_track(alloc, &atlas)?;
    let found = places_of_one(alloc, &atlas, &track, &psi)?;
    assert!(rt; found.len() == 4);
    assert!(rt; is_place(&found.place(alloc, 0)?, &[-2, 2, -2], 1));
    assert!(rt; is_place(&found.place(alloc, 1)?, &[-2], 1));
    assert!(rt; is_place(&found.place(alloc, 2)?, &[-1], 1));
    assert!(rt; is_place(&found.place(alloc, 3)?, &[-1, 1, -3], 1));
    Ok(())
}
