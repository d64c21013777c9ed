//! The anchor rule: where the switches go.
ghost use Rattle.std.specs.Prelude.{◌<◌, ◌^◌, ℕ, IfOk, IfErr, All};
ghost use Rattle.tri_atlas.specs.Arena.{triangulation};
ghost use Rattle.free_groupoid.specs.Walks.{IsWalkOn};
ghost use Rattle.free_groupoid.specs.GroupoidMaps.{substitution, vertex_image};
ghost use Rattle.train_track.specs.Branches.{words_of};
ghost use Rattle.carry_map.specs.CarriedMaps.{IsCarried};
ghost use Rattle.carry_map.specs.AnchorAnswers.{IsMapOnTrack, AreAnchors, IsAnchorAnswer};
ghost use Rattle.carry_map.specs.CarryingWalks.{carrying_of};
ghost use Rattle.carry_map.specs.AnchorAnswers.{IsRefusedFor, carrying_by};
ghost use Rattle.carry_map.specs.AnchorLaws.{AreConnected};

use crate::carry::{AnchorError, CarryMap, carry_with};
use crate::places::{Place, places};
use free_groupoid::Map;
use ideal_tri::Memory;
use std::alloc::Global;
use train_track::Track;
use tri_atlas::Atlas;

/// Where a map of a track's triangulation to itself carries the track, by the anchor rule. The
/// letters of a line are those between the images of the ends of a legal walk of seven letters with
/// a switch in the middle; the first letter of a switch that the lines of all such walks share is
/// the anchor of the switch in the middle. The walk of a branch leads from the anchor of its first
/// letter along its image to that of its last.
pub fn anchor(
    alloc: Global,
    atlas: &Atlas,
    track: &Track,
    psi: &Map,
    cap: u64,
) -> Result<CarryMap, AnchorError>
    requires map { IsMapOnTrack atlas.now track.now psi.now }
    requires cap { cap < 2 ^ 63 }
    ensures accepted { IfOk result (IsAnchorAnswer (triangulation atlas.now track.now.tri) track.now
        psi.now cap) }
    ensures refused { IfErr result (IsRefusedFor (triangulation atlas.now track.now.tri) track.now
        psi.now cap) }
    ensures walks { IfOk result (λ c. All (IsWalkOn (triangulation atlas.now track.now.tri))
        c.images) }
    ensures carried { IfOk result (λ c. IsCarried (triangulation atlas.now track.now.tri)
        track.now.left_out (words_of track.now.branches) (substitution psi.now.images)
        (vertex_image psi.now) (carrying_of c)) }
{
    let anchors = anchors(alloc, atlas, track, psi)?;
    Ok(carry_with(alloc, atlas, track, psi, &anchors, cap)?)
}

/// The first place of each switch.
fn anchors(
    alloc: Global,
    atlas: &Atlas,
    track: &Track,
    psi: &Map,
) -> Result<Vec<Place>, AnchorError>
    requires { IsMapOnTrack atlas.now track.now psi.now }
    ensures first { IfOk result (λ v. AreAnchors (triangulation atlas.now track.now.tri)
        track.now.left_out (substitution psi.now.images) v.items) }
    ensures connected { IfOk result (λ v. AreConnected (triangulation atlas.now track.now.tri)
        track.now.left_out (vertex_image psi.now) (carrying_by v.items)) }
    ensures refused { IfErr result (λ e. (cap : ℕ) → IsRefusedFor
        (triangulation atlas.now track.now.tri) track.now psi.now cap e) }
{
    let _ = atlas.base();
    let mut anchors = Vec::new(alloc);
    for s in track.switches() {
        let first = places(alloc, atlas, track, psi, *s, 1)?;
        if first.len() == 0 {
            return Err(AnchorError::NoCommonPart(s.get()));
        }
        anchors.push(first.place(alloc, 0)?)?;
    }
    Ok(anchors)
}
