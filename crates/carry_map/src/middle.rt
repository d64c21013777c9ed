//! The middle rule: where the switches go, in the middle of their places.
ghost use Rattle.std.specs.Prelude.{◌≡◌, ◌<◌, ◌-◌, ◌/◌, ◌+◌, ◌*◌, ◌^◌, ℕ, ℤ, [], IfOk, IfErr, All};
ghost use Rattle.std.specs.Prelude.{length, slice_index, slice_index_or};
ghost use Rattle.tri_atlas.specs.Arena.{triangulation};
ghost use Rattle.free_groupoid.specs.Walks.{IsWalkOn};
ghost use Rattle.free_groupoid.specs.GroupoidMaps.{substitution, vertex_image};
ghost use Rattle.train_track.specs.Branches.{words_of};
ghost use Rattle.carry_map.specs.CarriedMaps.{IsCarried};
ghost use Rattle.carry_map.specs.AnchorAnswers.{IsMapOnTrack, carrying_by};
ghost use Rattle.carry_map.specs.CarryingWalks.{carrying_of};
ghost use Rattle.carry_map.specs.AnchorLaws.{AreConnected};
ghost use Rattle.carry_map.specs.MiddleAnchors.{HavePlaces, AreMiddleAnchors, IsMiddleAnswer};
ghost use Rattle.carry_map.specs.MiddleAnchors.{IsMiddleRefusal};
ghost use Rattle.carry_map.specs.inside.Steps.{AreAllReached, counts_of};

use crate::carry::{AnchorError, CarryMap, carry_with};
use crate::heights::greatest_heights;
use crate::picked::picked;
use crate::places::{Place, SwitchPlaces, places};
use crate::steps::steps;
use free_groupoid::Map;
use ideal_tri::{Memory, label_laws};
use std::alloc::Global;
use train_track::Track;
use tri_atlas::Atlas;

/// Where a map of a track's triangulation to itself carries the track, by the middle rule. The
/// anchor of a switch is one of its places, numbered from 0 along the line: the one halfway between
/// as far along as the branches after it need, and as far back as the branches before it need. The
/// height of a switch says how many places past its first one it may lie, so that the places of the
/// next switch still have room behind it; that of its inverse says the same backwards. They are the
/// greatest for which each branch has room, or that are 0. The walk of a branch is as for the rule
/// of the first place.
pub fn middle_anchor(
    alloc: Global,
    atlas: &Atlas,
    track: &Track,
    psi: &Map,
    cap: u64,
) -> Result<CarryMap, AnchorError>
    requires map { IsMapOnTrack atlas.now track.now psi.now }
    requires cap { cap < 2 ^ 63 }
    ensures accepted { IfOk result (IsMiddleAnswer (triangulation atlas.now track.now.tri) track.now
        psi.now cap) }
    ensures refused { IfErr result (IsMiddleRefusal (triangulation atlas.now track.now.tri)
        track.now psi.now cap) }
    ensures walks { IfOk result (λ c. All (IsWalkOn (triangulation atlas.now track.now.tri))
        c.images) }
    ensures carried { IfOk result (λ c. IsCarried (triangulation atlas.now track.now.tri)
        track.now.left_out (words_of track.now.branches) (substitution psi.now.images)
        (vertex_image psi.now) (carrying_of c)) }
{
    let anchors = middle_anchors(alloc, atlas, track, psi)?;
    Ok(carry_with(alloc, atlas, track, psi, &anchors, cap)?)
}

/// The place of each switch by the greatest heights.
fn middle_anchors(
    alloc: Global,
    atlas: &Atlas,
    track: &Track,
    psi: &Map,
) -> Result<Vec<Place>, AnchorError>
    requires { IsMapOnTrack atlas.now track.now psi.now }
    ensures middle { IfOk result (λ v. AreMiddleAnchors (triangulation atlas.now track.now.tri)
        track.now.left_out (words_of track.now.branches) (substitution psi.now.images) v.items) }
    ensures connected { IfOk result (λ v. AreConnected (triangulation atlas.now track.now.tri)
        track.now.left_out (vertex_image psi.now) (carrying_by v.items)) }
    ensures refused { IfErr result (λ e. (cap : ℕ) → IsMiddleRefusal
        (triangulation atlas.now track.now.tri) track.now psi.now cap e) }
{
    let _ = atlas.base();
    label_laws();
    let found = all_places(alloc, atlas, track, psi)?;
    let all = found.as_slice();
    let counts = place_counts(alloc, all)?;
    let steps = steps(alloc, atlas, track, psi, all)?;
    let heights = greatest_heights(alloc, &counts, &steps)?;
    let numbers = middle_numbers(alloc, all, &heights)?;
    Ok(picked(alloc, all, &numbers)?)
}

/// The places of each switch, or the first switch that has none.
fn all_places(
    alloc: Global,
    atlas: &Atlas,
    track: &Track,
    psi: &Map,
) -> Result<Vec<SwitchPlaces>, AnchorError>
    requires { IsMapOnTrack atlas.now track.now psi.now }
    ensures places { IfOk result (λ v. HavePlaces (triangulation atlas.now track.now.tri)
        track.now.left_out (substitution psi.now.images) v.items) }
    ensures reached { IfOk result (λ v. AreAllReached (triangulation atlas.now track.now.tri)
        track.now.left_out (vertex_image psi.now) v.items) }
    ensures refused { IfErr result (λ e. (cap : ℕ) → IsMiddleRefusal
        (triangulation atlas.now track.now.tri) track.now psi.now cap e) }
{
    let _ = atlas.base();
    let mut all = Vec::new(alloc);
    for s in track.switches() {
        let found = places(alloc, atlas, track, psi, *s, usize::MAX)?;
        if found.len() == 0 {
            return Err(AnchorError::NoCommonPart(s.get()));
        }
        all.push(found)?;
    }
    Ok(all)
}

/// How many places each label of a switch has, by the numbers of the labels.
fn place_counts(alloc: Global, all: &[SwitchPlaces]) -> Result<Vec<usize>, Memory>
    ensures { IfOk result (λ v. v.items ≡ counts_of all.now) }
{
    let mut counts = Vec::new(alloc);
    for places in all {
        counts.push(places.len())?;
        counts.push(places.len())?;
    }
    Ok(counts)
}

/// For each switch the number of the place halfway between its height from its first place on, and
/// that of its inverse from its last place back.
fn middle_numbers(
    alloc: Global,
    all: &[SwitchPlaces],
    heights: &[usize],
) -> Result<Vec<usize>, Memory>
    requires two_each { length heights.now ≡ 2 * length all.now }
    requires on { (i : ℕ) → i < length all.now
        → slice_index heights.now (2 * i) < length (slice_index_or all.now i []) }
    requires back { (i : ℕ) → i < length all.now
        → slice_index heights.now (2 * i + 1) < length (slice_index_or all.now i []) }
    ensures as_many { IfOk result (λ v. length v.items ≡ length all.now) }
    ensures halfway { IfOk result (λ v. (i : ℕ) → i < length all.now → slice_index v.items i
        ≡ (length (slice_index_or all.now i []) - 1 - slice_index heights.now (2 * i + 1)
        + slice_index heights.now (2 * i)) / 2) }
{
    let mut numbers = Vec::new(alloc);
    for i in 0..all.len() {
        let on = heights[2 * i];
        let back = heights[2 * i + 1];
        numbers.push(halfway(&all[i], on, back))?;
    }
    Ok(numbers)
}

/// The number halfway between a height from the first place on, and one from the last place back.
fn halfway(places: &SwitchPlaces, on: usize, back: usize) -> usize
    requires on { on < length places.now }
    requires back { back < length places.now }
    ensures { result ≡ (length places.now - 1 - back + on) / 2 }
{
    (places.len() - 1 - back + on) / 2
}
