//! The train paths of branches, for given anchors of the switches.
ghost use Rattle.std.specs.Prelude.{◌≡◌, ◌↔◌, ◌≢◌, ◌<◌, ◌++◌, ℕ, pos, [], length, IsTrue, IfOk};
ghost use Rattle.std.specs.Prelude.{IfErr, OnOk, Contains, slice_index_or};
ghost use Rattle.ideal_tri.specs.Labels.{edge_of};
ghost use Rattle.ideal_tri.specs.Words.{inverse_word, reduce, but_last};
ghost use Rattle.ideal_tri.specs.Triangulations.{IsWalk, triangle_of};
ghost use Rattle.tri_atlas.specs.Arena.{triangulation};
ghost use Rattle.free_groupoid.specs.Walks.{IsWalkOn};
ghost use Rattle.free_groupoid.specs.GroupoidMaps.{substitution, vertex_image, reduced_image};
ghost use Rattle.train_track.specs.Tracks.{is_switch, switches_of};
ghost use Rattle.train_track.specs.Branches.{IsBranch, IsTrackIn, letter_at};
ghost use Rattle.carry_map.specs.CarriedMaps.{goes_to, connection, final};
ghost use Rattle.carry_map.specs.AnchorAnswers.{IsMapOnTrack, Fits, carrying_by, walk_by, walks_by};
ghost use Rattle.carry_map.specs.AnchorAnswers.{AllFitBy, IsRefusedBy};
ghost use Rattle.carry_map.specs.AnchorLaws.{AreConnected};
ghost use Rattle.carry_map.specs.inside.Switches.{IsFirstAt, IsSwitchLabel, IsSwitchOf, IsFrontOf};
ghost use Rattle.carry_map.specs.inside.Switches.{walk_from_to};

use crate::carry::AnchorError;
use crate::laws::anchor_laws;
use crate::places::Place;
use free_groupoid::{Map, Walk};
use ideal_tri::{Label, Memory, label_laws, letter_laws, surface_laws, word_laws};
use std::alloc::Global;
use train_track::Track;
use tri_atlas::{Atlas, map_laws};

/// The train paths of the branches in order, or the first that doesn't fit.
pub(crate) fn paths(
    alloc: Global,
    atlas: &Atlas,
    track: &Track,
    psi: &Map,
    anchors: &[Place],
) -> Result<Vec<Walk>, AnchorError>
    requires map { IsMapOnTrack atlas.now track.now psi.now }
    requires connected { AreConnected (triangulation atlas.now track.now.tri) track.now.left_out
        (vertex_image psi.now) (carrying_by anchors.now) }
    ensures paths { IfOk result (λ v. v.items
        ≡ walks_by (triangulation atlas.now track.now.tri) track.now psi.now anchors.now) }
    ensures fit { IfOk result (λ v. AllFitBy (triangulation atlas.now track.now.tri) track.now
        psi.now anchors.now) }
    ensures refused { IfErr result (λ e. (cap : ℕ) → IsRefusedBy
        (triangulation atlas.now track.now.tri) track.now psi.now anchors.now cap e) }
{
    let _ = atlas.base();
    let mut paths = Vec::new(alloc);
    for (j, branch) in track.branches().iter().enumerate() {
        let path = train_path(alloc, atlas, track, psi, anchors, branch)?;
        if !fits(atlas, track, anchors, branch, &path) {
            return Err(AnchorError::Illegal(j as u64));
        }
        paths.push(path)?;
    }
    Ok(paths)
}

/// The one walk that can be the train path of a branch.
fn train_path(
    alloc: Global,
    atlas: &Atlas,
    track: &Track,
    psi: &Map,
    anchors: &[Place],
    branch: &Walk,
) -> Result<Walk, Memory>
    requires map { IsMapOnTrack atlas.now track.now psi.now }
    requires connected { AreConnected (triangulation atlas.now track.now.tri) track.now.left_out
        (vertex_image psi.now) (carrying_by anchors.now) }
    requires branch { IsBranch (triangulation atlas.now track.now.tri) track.now.left_out
        branch.now.letters }
    ensures value { IfOk result (λ w. w ≡ walk_by (triangulation atlas.now track.now.tri)
        track.now.left_out (substitution psi.now.images) anchors.now branch.now.letters) }
    ensures walk { IfOk result (IsWalkOn (triangulation atlas.now track.now.tri)) }
{
    let _ = atlas.base();
    label_laws();
    surface_laws();
    map_laws();
    let letters = path_letters(alloc, atlas, track, psi, anchors, anchors, branch)?;
    let begins = goes_to(track, anchors, first_letter(branch));
    let start = atlas.tri(track.tri()).place(begins).0;
    Ok(Walk { start, letters })
}

/// The walk back along the walk of the first switch of the branch to where `from` has it go, along
/// the image of the branch without its last letter, along the walk of its last switch to where `to`
/// has it go, and across the label that this switch goes to; reduced.
pub(crate) fn path_letters(
    alloc: Global,
    atlas: &Atlas,
    track: &Track,
    psi: &Map,
    from: &[Place],
    to: &[Place],
    branch: &Walk,
) -> Result<Vec<Label>, Memory>
    requires map { IsMapOnTrack atlas.now track.now psi.now }
    requires from_each { length from.now ≡ length track.now.switches }
    requires to_each { length to.now ≡ length track.now.switches }
    requires branch { IsBranch (triangulation atlas.now track.now.tri) track.now.left_out
        branch.now.letters }
    ensures { IfOk result (λ v. v.items ≡ walk_from_to
        (switches_of (triangulation atlas.now track.now.tri) track.now.left_out)
        (substitution psi.now.images) (carrying_by from.now) (carrying_by to.now)
        branch.now.letters) }
{
    word_laws();
    let last = last_letter(branch);
    let mut letters = Vec::new(alloc);
    let back = connection(alloc, atlas, track, psi, from, first_letter(branch))?;
    push_inverse(&back, &mut letters)?;
    letters.extend_from_slice(&image(alloc, atlas, track, psi, before_last(branch))?)?;
    letters.extend_from_slice(&connection(alloc, atlas, track, psi, to, last)?)?;
    letters.push(goes_to(track, to, last))?;
    Ok(reduced(letters))
}

/// The walk from the image of where the label of a switch starts to where the label starts that it
/// goes to.
fn connection(
    alloc: Global,
    atlas: &Atlas,
    track: &Track,
    psi: &Map,
    anchors: &[Place],
    x: Label,
) -> Result<Vec<Label>, Memory>
    requires map { IsMapOnTrack atlas.now track.now psi.now }
    requires as_many { length anchors.now ≡ length track.now.switches }
    requires switch { IsSwitchLabel (triangulation atlas.now track.now.tri) track.now.left_out x }
    ensures { IfOk result (λ v. v.items ≡ connection (substitution psi.now.images)
        track.now.switches (carrying_by anchors.now) x) }
{
    label_laws();
    word_laws();
    let s = forwards(x);
    let anchor = &anchors[place_of(track.switches(), s)];
    if x == s {
        return Ok(Vec::from_slice(alloc, &anchor.connect)?);
    }
    let mut letters = image(alloc, atlas, track, psi, &[x])?;
    letters.extend_from_slice(&anchor.connect)?;
    letters.push(anchor.label)?;
    Ok(reduced(letters))
}

/// The image of a walk of at least one letter, reduced.
fn image(
    alloc: Global,
    atlas: &Atlas,
    track: &Track,
    psi: &Map,
    word: &[Label],
) -> Result<Vec<Label>, Memory>
    requires map { IsMapOnTrack atlas.now track.now psi.now }
    requires some { word.now ≢ [] }
    requires walk { (t : ℕ) × IsWalk (triangulation atlas.now track.now.tri)
        (triangle_of (triangulation atlas.now track.now.tri) (letter_at word.now 0)) word.now t }
    ensures { IfOk result (λ v. v.items
        ≡ reduced_image (substitution psi.now.images) word.now) }
{
    let _ = atlas.base();
    surface_laws();
    let start = atlas.tri(track.tri()).place(word[0]).0;
    let letters = Vec::from_slice(alloc, word)?;
    let image = psi.image(alloc, &Walk { start, letters })?;
    Ok(image.letters)
}

/// A word without neighbours that are inverse to each other.
fn reduced(letters: Vec<Label>) -> Vec<Label>
    ensures { result.items ≡ reduce letters.items }
{
    let mut walk = Walk { start: 0, letters };
    walk.reduce();
    walk.letters
}

/// Whether a walk is a train path of a branch: it has two letters at least, runs from where the
/// first letter of the branch goes to where its last goes, and is legal.
fn fits(atlas: &Atlas, track: &Track, anchors: &[Place], branch: &Walk, path: &Walk) -> bool
    requires track { IsTrackIn atlas.now track.now }
    requires as_many { length anchors.now ≡ length track.now.switches }
    requires branch { IsBranch (triangulation atlas.now track.now.tri) track.now.left_out
        branch.now.letters }
    requires path { IsWalkOn (triangulation atlas.now track.now.tri) path.now }
    ensures { IsTrue result ↔ Fits (triangulation atlas.now track.now.tri) track.now.left_out
        (carrying_by anchors.now) branch.now.letters path.now.letters }
{
    if path.letters.len() < 2 {
        return false;
    }
    let begins = goes_to(track, anchors, first_letter(branch));
    let ends = goes_to(track, anchors, last_letter(branch));
    has_ends(path, begins, ends) && track.legal(atlas, path)
}

/// Whether the walk, which has letters, begins with the one and ends with the other.
fn has_ends(path: &Walk, begins: Label, ends: Label) -> bool
    requires { path.now.letters ≢ [] }
    ensures { IsTrue result ↔ ((letter_at path.now.letters 0 ≡ begins)
        × (final path.now.letters ≡ ends)) }
{
    path.letters[0] == begins && final_letter(&path.letters) == ends
}

/// The first letter of a branch.
pub(crate) fn first_letter(branch: &Walk) -> Label
    requires { branch.now.letters ≢ [] }
    ensures letter { result ≡ letter_at branch.now.letters 0 }
    ensures switch { IsSwitchOf branch.now.letters result }
{
    branch.letters[0]
}

/// The last letter of a branch.
pub(crate) fn last_letter(branch: &Walk) -> Label
    requires { branch.now.letters ≢ [] }
    ensures letter { result ≡ final branch.now.letters }
    ensures switch { IsSwitchOf branch.now.letters result }
{
    final_letter(&branch.letters)
}

/// The letters of a branch before its last.
fn before_last(branch: &Walk) -> &[Label]
    requires { branch.now.letters ≢ [] }
    ensures letters { result.now ≡ but_last branch.now.letters }
    ensures walk { IsFrontOf branch.now.letters result.now }
{
    &branch.letters[..branch.letters.len() - 1]
}

/// The label that the label of a switch goes to.
fn goes_to(track: &Track, anchors: &[Place], x: Label) -> Label
    requires as_many { length anchors.now ≡ length track.now.switches }
    requires listed { Contains track.now.switches (pos (edge_of x)) }
    ensures { result ≡ goes_to track.now.switches (carrying_by anchors.now) x }
{
    label_laws();
    let anchor = &anchors[place_of(track.switches(), forwards(x))];
    anchor.label.with_sign_of(x)
}

/// The place of a switch, given by its label that isn't negative.
pub(crate) fn place_of(switches: &[Label], s: Label) -> usize
    requires { Contains switches.now s }
    ensures { IsFirstAt switches.now s result }
{
    for i in 0..switches.len() {
        if switches[i] == s {
            return i;
        }
    }
    0
}

/// The label of the edge that isn't negative.
pub(crate) fn forwards(x: Label) -> Label
    ensures { result ≡ pos (edge_of x) }
{
    x.with_sign_of(x)
}

/// The last letter.
fn final_letter(word: &[Label]) -> Label
    requires { word.now ≢ [] }
    ensures { result ≡ final word.now }
{
    letter_laws();
    word[word.len() - 1]
}

/// Puts the way back along a word behind another.
fn push_inverse(word: &[Label], letters: &mut Vec<Label>) -> Result<(), Memory>
    ensures { OnOk result (letters.new.items ≡ letters.old.items ++ inverse_word word.now) }
{
    let count = word.len();
    for k in 0..count {
        letters.push(word[count - 1 - k].inverse())?;
    }
    Ok(())
}
