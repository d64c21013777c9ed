//! The rule for where the switches of a track go, 15.
ghost use Rattle.std.specs.Prelude.{◌≡◌, ◌↔◌, true, length, min, OnOk, IfErr, IfSome, IfNone};
ghost use Rattle.std.specs.Prelude.{IsTrue};
ghost use Rattle.ideal_tri.specs.Triangulations.{IsLabel};
ghost use Rattle.tri_atlas.specs.Arena.{triangulation};
ghost use Rattle.free_groupoid.specs.GroupoidMaps.{vertex_image};
ghost use Rattle.free_groupoid.specs.MapRefusals.{told};
ghost use Rattle.train_track.specs.Branches.{IsTrackOn};
ghost use Rattle.train_track.specs.Tracks.{is_switch, switches_of};
ghost use Rattle.carry_map.specs.AnchorAnswers.{IsMapOnTrack};
ghost use Rattle.cert_text.specs.Certificates.{anchor_seen, anchors_seen};
ghost use Rattle.cert_text.specs.PseudoAnosov.{letters_of_words};
ghost use Rattle.cert_checker.specs.FirstFailing.{AllPass, IsFirstFailing};
ghost use Rattle.cert_checker.specs.TrackRules.{IsAnchorAt, IsAnchorOf};
ghost use Rattle.cert_checker.specs.inside.Stops.{IsStop, IsRule};
ghost use Rattle.cert_checker.specs.inside.TrackParts.{AreAnchors, AreNoAnchors, connections};

use crate::sites::Site;
use crate::verdict::Stop;
use crate::walks::{is_reduced, is_walk};
use cert_text::Anchor;
use ideal_tri::{Label, label_laws, letter_laws, surface_laws};
use std::alloc::Global;
use train_track::Track;
use tri_atlas::Atlas;

/// The most letters that the walks of all switches have together.
const LETTER_CAP: u64 = 262_144;

/// Whether each switch goes to the label of a switch, by a reduced walk from where the map sends its
/// triangle, with few letters in all.
pub(crate) fn check_anchors(
    alloc: Global,
    atlas: &Atlas,
    site: &Site,
    anchors: &[Anchor],
) -> Result<(), Stop>
    requires here { IsMapOnTrack atlas.now site.now.track site.now.map }
    ensures held { OnOk result (AreAnchors (triangulation atlas.now site.now.track.tri)
        site.now.track.left_out (vertex_image site.now.map) (anchors_seen anchors.now)) }
    ensures refused { IfErr result (IsStop (IsRule 15
        (AreNoAnchors (triangulation atlas.now site.now.track.tri) site.now.track.left_out
        (vertex_image site.now.map) (anchors_seen anchors.now)))) }
{
    if let Some(i) = first_misplaced(atlas, site, anchors) {
        return Err(Stop::Refused {
            rule: 15,
            place: i as u64,
        });
    }
    let given = anchors.len() as u64;
    let wanted = site.track.switches().len() as u64;
    if given != wanted {
        return Err(Stop::Refused {
            rule: 15,
            place: given.min(wanted),
        });
    }
    if letters_to_connect(anchors) > LETTER_CAP {
        return Err(Stop::Refused {
            rule: 15,
            place: wanted,
        });
    }
    Ok(())
}

/// The first place where the anchor isn't that of the switch, in the shorter of the two lists.
fn first_misplaced(atlas: &Atlas, site: &Site, anchors: &[Anchor]) -> Option<usize>
    requires here { IsMapOnTrack atlas.now site.now.track site.now.map }
    ensures some { IfSome result (IsFirstFailing
        (min (length (anchors_seen anchors.now))
        (length (switches_of (triangulation atlas.now site.now.track.tri) site.now.track.left_out)))
        (IsAnchorAt (triangulation atlas.now site.now.track.tri) site.now.track.left_out
        (vertex_image site.now.map) (anchors_seen anchors.now))) }
    ensures none { IfNone result (AllPass
        (min (length (anchors_seen anchors.now))
        (length (switches_of (triangulation atlas.now site.now.track.tri) site.now.track.left_out)))
        (IsAnchorAt (triangulation atlas.now site.now.track.tri) site.now.track.left_out
        (vertex_image site.now.map) (anchors_seen anchors.now))) }
{
    let switches = site.track.switches();
    for i in 0..anchors.len().min(switches.len()) {
        if !is_anchor(atlas, site, switches[i], &anchors[i]) {
            return Some(i);
        }
    }
    None
}

/// Whether this is where a switch goes: the anchor names the switch, and has the label of a switch
/// and a reduced walk to it from where the map sends the triangle of the first.
fn is_anchor(atlas: &Atlas, site: &Site, s: Label, anchor: &Anchor) -> bool
    requires here { IsMapOnTrack atlas.now site.now.track site.now.map }
    requires label { IsLabel (triangulation atlas.now site.now.track.tri) s }
    ensures { IsTrue result ↔ IsAnchorOf (triangulation atlas.now site.now.track.tri)
        site.now.track.left_out (vertex_image site.now.map) s (anchor_seen anchor.now) }
{
    let _ = atlas.base();
    letter_laws();
    surface_laws();
    if Label::new(anchor.switch) != s {
        return false;
    }
    let to = Label::new(anchor.to);
    if !is_of_switch(atlas, &site.track, to) {
        return false;
    }
    let tri = atlas.tri(site.track.tri());
    let start = site.map.vertex(tri.place(s).0);
    if !is_walk(tri, start, &anchor.connect, tri.place(to).0) {
        return false;
    }
    is_reduced(&anchor.connect)
}

/// Whether a number is a label of a switch, in either direction.
fn is_of_switch(atlas: &Atlas, track: &Track, x: Label) -> bool
    requires { IsTrackOn (triangulation atlas.now track.now.tri) track.now }
    ensures { IsTrue result ↔ (IsLabel (triangulation atlas.now track.now.tri) x
        × (is_switch (triangulation atlas.now track.now.tri) track.now.left_out x ≡ true)) }
{
    label_laws();
    let forwards = x.with_sign_of(x);
    track.switches().contains(&forwards)
}

/// How many letters the walks have together, or 2^64 - 1 where there are more.
fn letters_to_connect(anchors: &[Anchor]) -> u64
    ensures { result ≡ told (letters_of_words (connections (anchors_seen anchors.now))) }
{
    let mut letters = 0u64;
    for anchor in anchors {
        letters = letters.saturating_add(anchor.connect.len() as u64);
    }
    letters
}
