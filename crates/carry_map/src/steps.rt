//! What the branches of a track ask of heights.
ghost use Rattle.std.specs.Prelude.{◌≡◌, ◌++◌, List, IfOk, OnOk, length, filter, Contains, pos};
ghost use Rattle.ideal_tri.specs.Labels.{edge_of};
ghost use Rattle.tri_atlas.specs.Arena.{triangulation};
ghost use Rattle.free_groupoid.specs.GroupoidMaps.{substitution, vertex_image};
ghost use Rattle.train_track.specs.Branches.{IsBranch, IsTrackIn, words_of};
ghost use Rattle.carry_map.specs.Anchors.{Place as SharedLetter};
ghost use Rattle.carry_map.specs.AnchorAnswers.{IsMapOnTrack, carrying_by};
ghost use Rattle.carry_map.specs.AnchorLaws.{AreConnected};
ghost use Rattle.carry_map.specs.MiddleAnchors.{HavePlaces, switches_between};
ghost use Rattle.carry_map.specs.inside.Rays.{is_listed};
ghost use Rattle.carry_map.specs.inside.Steps.{AreAllReached, AreFirsts, AreLasts};
ghost use Rattle.carry_map.specs.inside.Steps.{steps_along, steps_of, number_of, by_sign};

use crate::heights::Step;
use crate::paths::{first_letter, forwards, last_letter, path_letters, place_of};
use crate::picked::{first_places, last_places};
use crate::places::{Place, SwitchPlaces, is_listed};
use free_groupoid::{Map, Walk};
use ideal_tri::{Label, Memory, label_laws, surface_laws};
use std::alloc::Global;
use train_track::Track;
use tri_atlas::{Atlas, map_laws};

/// Two steps for each branch: along it, and along its inverse.
pub(crate) fn steps(
    alloc: Global,
    atlas: &Atlas,
    track: &Track,
    psi: &Map,
    all: &[SwitchPlaces],
) -> Result<Vec<Step>, Memory>
    requires map { IsMapOnTrack atlas.now track.now psi.now }
    requires places { HavePlaces (triangulation atlas.now track.now.tri) track.now.left_out
        (substitution psi.now.images) all.now }
    requires reached { AreAllReached (triangulation atlas.now track.now.tri) track.now.left_out
        (vertex_image psi.now) all.now }
    ensures { IfOk result (λ v. v.items ≡ steps_of track.now.switches (switches_between
        (triangulation atlas.now track.now.tri) track.now.left_out (substitution psi.now.images)
        all.now) (words_of track.now.branches)) }
{
    let firsts = first_places(alloc, all)?;
    let lasts = last_places(alloc, all)?;
    let mut steps = Vec::new(alloc);
    for branch in track.branches() {
        let gap = gap(alloc, atlas, track, psi, &firsts, &lasts, branch)?;
        push_steps(&mut steps, atlas, track, branch, gap)?;
    }
    Ok(steps)
}

/// Adds the steps along a branch and along its inverse.
fn push_steps(
    steps: &mut Vec<Step>,
    atlas: &Atlas,
    track: &Track,
    branch: &Walk,
    gap: usize,
) -> Result<(), Memory>
    requires track { IsTrackIn atlas.now track.now }
    requires branch { IsBranch (triangulation atlas.now track.now.tri) track.now.left_out
        branch.now.letters }
    ensures { OnOk result (steps.new.items
        ≡ steps.old.items ++ steps_along track.now.switches (λ b. gap) branch.now.letters) }
{
    label_laws();
    let x = first_letter(branch);
    let y = last_letter(branch);
    let switches = track.switches();
    let from = number_of(switches, x);
    let to = number_of(switches, y);
    steps.push(Step { from, to, gap })?;
    let back = number_of(switches, y.inverse());
    let end = number_of(switches, x.inverse());
    steps.push(Step {
        from: back,
        to: end,
        gap,
    })?;
    Ok(())
}

/// How many letters of switches the walk along the image of a branch has, from the first place of
/// its first letter to the last place of its last letter.
fn gap(
    alloc: Global,
    atlas: &Atlas,
    track: &Track,
    psi: &Map,
    firsts: &[Place],
    lasts: &[Place],
    branch: &Walk,
) -> Result<usize, Memory>
    requires map { IsMapOnTrack atlas.now track.now psi.now }
    requires firsts { AreConnected (triangulation atlas.now track.now.tri) track.now.left_out
        (vertex_image psi.now) (carrying_by firsts.now) }
    requires lasts { AreConnected (triangulation atlas.now track.now.tri) track.now.left_out
        (vertex_image psi.now) (carrying_by lasts.now) }
    requires branch { IsBranch (triangulation atlas.now track.now.tri) track.now.left_out
        branch.now.letters }
    ensures { IfOk result (λ k. (all : List (List SharedLetter)) → AreFirsts all firsts.now
        → AreLasts all lasts.now → k ≡ switches_between (triangulation atlas.now track.now.tri)
        track.now.left_out (substitution psi.now.images) all branch.now.letters) }
{
    let _ = atlas.base();
    label_laws();
    surface_laws();
    map_laws();
    let from = for_sign(first_letter(branch), firsts, lasts);
    let to = for_sign(last_letter(branch), lasts, firsts);
    let letters = path_letters(alloc, atlas, track, psi, from, to, branch)?;
    Ok(count_switches(track, &letters))
}

/// The one list for a label that isn't negative, the other for a negative one.
fn for_sign<'a>(x: Label, on: &'a [Place], back: &'a [Place]) -> &'a [Place]
    ensures { result.now ≡ by_sign x on.now back.now }
{
    if x.get() < 0 { back } else { on }
}

/// How many letters are labels of the track's switches.
fn count_switches(track: &Track, letters: &[Label]) -> usize
    ensures { result ≡ length (filter (is_listed track.now.switches) letters.now) }
{
    let mut count = 0;
    for y in letters {
        if is_listed(track.switches(), *y) {
            count += 1;
        }
    }
    count
}

/// The number of a label of a switch: twice the place of the switch, and one more for its inverse.
fn number_of(switches: &[Label], x: Label) -> usize
    requires { Contains switches.now (pos (edge_of x)) }
    ensures { result ≡ number_of switches.now x }
{
    label_laws();
    let s = forwards(x);
    let i = place_of(switches, s);
    if x == s { 2 * i } else { 2 * i + 1 }
}
