//! The test whether a word is the train path of a branch.
ghost use Rattle.std.specs.Prelude.{◌≡◌, ◌↔◌, ◌≢◌, ◌<◌, [], length, IsTrue, IfOk, IfSome};
ghost use Rattle.std.specs.Prelude.{IfNone};
ghost use Rattle.ideal_tri.specs.Triangulations.{triangle_of};
ghost use Rattle.ideal_tri.specs.Words.{but_last};
ghost use Rattle.tri_atlas.specs.Arena.{triangulation};
ghost use Rattle.free_groupoid.specs.GroupoidMaps.{substitution, reduced_image};
ghost use Rattle.train_track.specs.Branches.{IsBranch, IsTrackIn, letter_at};
ghost use Rattle.carry_map.specs.AnchorAnswers.{IsMapOnTrack};
ghost use Rattle.carry_map.specs.CarriedMaps.{IsTrainPath, final, goes_to};
ghost use Rattle.cert_text.specs.Certificates.{track_seen};
ghost use Rattle.cert_text.specs.PseudoAnosov.{carrying_of};
ghost use Rattle.cert_checker.specs.inside.TrainPaths.{IsLegalWalk, IsLongWalk, way_along};

use crate::connections::{connection, goes_to, image};
use crate::letters::{before_last, first_letter, last_letter, push_inverse, reduced};
use crate::sites::Site;
use crate::walks::{is_walk, labels};
use cert_text::Pa;
use free_groupoid::Walk;
use ideal_tri::{Label, Memory, Tri, label_laws, letter_laws, surface_laws};
use std::alloc::Global;
use train_track::Track;
use tri_atlas::Atlas;

/// Whether the numbers are the letters of a branch's train path, for the labels and walks that the
/// certificate has for the switches: of a legal walk between the labels that the ends of the branch
/// go to, which runs along the image of the branch.
pub(crate) fn is_train_path(
    alloc: Global,
    atlas: &Atlas,
    site: &Site,
    c: &Pa,
    branch: &[Label],
    letters: &[i32],
) -> Result<bool, Memory>
    requires here { IsMapOnTrack atlas.now site.now.track site.now.map }
    requires as_many { length c.now.anchors.items ≡ length site.now.track.switches }
    requires branch { IsBranch (triangulation atlas.now site.now.track.tri)
        site.now.track.left_out branch.now }
    ensures { IfOk result (λ r. IsTrue r
        ↔ IsTrainPath (triangulation atlas.now site.now.track.tri) site.now.track.left_out
        (substitution site.now.map.images) (carrying_of (track_seen c.now)) branch.now
        letters.now) }
{
    let Some(path) = legal_walk(alloc, atlas, &site.track, letters)? else {
        return Ok(false);
    };
    if !has_ends(atlas, site, c, branch, &path.letters) {
        return Ok(false);
    }
    runs_along(alloc, atlas, site, c, branch, &path.letters)
}

/// The walk of these letters, exactly where there is one, with two letters at least, that is legal.
fn legal_walk(
    alloc: Global,
    atlas: &Atlas,
    track: &Track,
    letters: &[i32],
) -> Result<Option<Walk>, Memory>
    requires { IsTrackIn atlas.now track.now }
    ensures some { IfOk result (λ o. IfSome o (λ w. w.letters ≡ letters.now)) }
    ensures legal { IfOk result (λ o. IfSome o (λ w. IsLegalWalk
        (triangulation atlas.now track.now.tri) track.now.left_out letters.now)) }
    ensures none { IfOk result (λ o. IfNone o (¬ IsLegalWalk
        (triangulation atlas.now track.now.tri) track.now.left_out letters.now)) }
{
    let _ = atlas.base();
    surface_laws();
    let Some(start) = walk_start(atlas.tri(track.tri()), letters) else {
        return Ok(None);
    };
    let walk = Walk {
        start,
        letters: labels(alloc, letters)?,
    };
    if !track.legal(atlas, &walk) {
        return Ok(None);
    }
    Ok(Some(walk))
}

/// The triangle where a walk of these letters starts, exactly where there is one, with two letters
/// at least. It takes no memory.
fn walk_start(tri: &Tri, letters: &[i32]) -> Option<u32>
    ensures start { IfSome result (λ s. s ≡ triangle_of tri.now (letter_at letters.now 0)) }
    ensures within { IfSome result (λ s. s < length tri.now) }
    ensures some { IfSome result (λ s. IsLongWalk tri.now letters.now) }
    ensures none { IfNone result (¬ IsLongWalk tri.now letters.now) }
{
    label_laws();
    if letters.len() < 2 {
        return None;
    }
    let (first, last) = ends(letters);
    if first.edge() >= tri.edges() {
        return None;
    }
    if last.edge() >= tri.edges() {
        return None;
    }
    let start = tri.place(first).0;
    if !is_walk(tri, start, letters, tri.place(last.inverse()).0) {
        return None;
    }
    Some(start)
}

/// The labels with the first of these numbers and with the last.
fn ends(letters: &[i32]) -> (Label, Label)
    requires { letters.now ≢ [] }
    ensures first { result.0 ≡ letter_at letters.now 0 }
    ensures last { result.1 ≡ final letters.now }
{
    letter_laws();
    (
        Label::new(letters[0]),
        Label::new(letters[letters.len() - 1]),
    )
}

/// Whether a path, which has letters, begins and ends with the labels that the ends of the branch go
/// to.
fn has_ends(atlas: &Atlas, site: &Site, c: &Pa, branch: &[Label], path: &[Label]) -> bool
    requires here { IsMapOnTrack atlas.now site.now.track site.now.map }
    requires as_many { length c.now.anchors.items ≡ length site.now.track.switches }
    requires branch { IsBranch (triangulation atlas.now site.now.track.tri)
        site.now.track.left_out branch.now }
    requires path { path.now ≢ [] }
    ensures { IsTrue result ↔ ((letter_at path.now 0
        ≡ goes_to site.now.track.switches (carrying_of (track_seen c.now))
        (letter_at branch.now 0))
        × (final path.now ≡ goes_to site.now.track.switches
        (carrying_of (track_seen c.now)) (final branch.now))) }
{
    letter_laws();
    let _ = atlas.base();
    if first_letter(path) != goes_to(site, c, first_letter(branch)) {
        return false;
    }
    last_letter(path) == goes_to(site, c, last_letter(branch))
}

/// Whether a path, which has letters, runs along the image of a branch.
fn runs_along(
    alloc: Global,
    atlas: &Atlas,
    site: &Site,
    c: &Pa,
    branch: &[Label],
    path: &[Label],
) -> Result<bool, Memory>
    requires here { IsMapOnTrack atlas.now site.now.track site.now.map }
    requires as_many { length c.now.anchors.items ≡ length site.now.track.switches }
    requires branch { IsBranch (triangulation atlas.now site.now.track.tri)
        site.now.track.left_out branch.now }
    requires path { path.now ≢ [] }
    ensures { IfOk result (λ r. IsTrue r
        ↔ (reduced_image (substitution site.now.map.images) (but_last branch.now)
        ≡ way_along (substitution site.now.map.images) site.now.track.switches
        (carrying_of (track_seen c.now)) branch.now path.now)) }
{
    let way = way_along(alloc, atlas, site, c, branch, path)?;
    let along = image(alloc, atlas, site, before_last(branch))?;
    Ok(along == way)
}

/// The way from where the image of a branch starts to where it ends, along a path: along the walk of
/// the first switch, the path without its last letter, and the walk of the last switch backwards;
/// reduced.
fn way_along(
    alloc: Global,
    atlas: &Atlas,
    site: &Site,
    c: &Pa,
    branch: &[Label],
    path: &[Label],
) -> Result<Vec<Label>, Memory>
    requires here { IsMapOnTrack atlas.now site.now.track site.now.map }
    requires as_many { length c.now.anchors.items ≡ length site.now.track.switches }
    requires branch { IsBranch (triangulation atlas.now site.now.track.tri)
        site.now.track.left_out branch.now }
    requires path { path.now ≢ [] }
    ensures { IfOk result (λ v. v.items ≡ way_along (substitution site.now.map.images)
        site.now.track.switches (carrying_of (track_seen c.now)) branch.now
        path.now) }
{
    let mut letters = connection(alloc, atlas, site, c, first_letter(branch))?;
    letters.extend_from_slice(before_last(path))?;
    let back = connection(alloc, atlas, site, c, last_letter(branch))?;
    push_inverse(&back, &mut letters)?;
    Ok(reduced(letters))
}
