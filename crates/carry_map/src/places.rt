//! The places of a switch: the letters that the lines of all legal walks through it share.
ghost use Rattle.std.specs.Prelude.{◌≡◌, ◌<◌, ◌≤◌, ◌^◌, ◌++◌, ◌∷◌, ℤ, List, [], length, take, drop};
ghost use Rattle.std.specs.Prelude.{IfOk, OnOk, All};
ghost use Rattle.ideal_tri.specs.Triangulations.{IsLabel, triangle_of};
ghost use Rattle.tri_atlas.specs.Arena.{triangulation};
ghost use Rattle.free_groupoid.specs.GroupoidMaps.{substitution, vertex_image};
ghost use Rattle.train_track.specs.Branches.{words_of};
ghost use Rattle.carry_map.specs.Anchors.{ArePlaces, Place as SharedLetter};
ghost use Rattle.carry_map.specs.AnchorAnswers.{IsMapOnTrack, IsReachedFrom, place_at};
ghost use Rattle.carry_map.specs.inside.Rays.{places_past, AreRaysFrom, back_words, front_words};
ghost use Rattle.carry_map.specs.inside.Rays.{common_of, most_shared, places_back, places_on};
ghost use Rattle.carry_map.specs.inside.Rays.{is_listed, at_listed, places_at, place_along};

use crate::rays::{common, most_shared, rays};
use crate::windows::three_longer;
use free_groupoid::{Map, Walk};
use ideal_tri::{Label, Memory, label_laws, surface_laws, word_laws};
use std::alloc::Global;
use std::marker::Model;
use train_track::{Track, track_laws};
use tri_atlas::Atlas;

/// A letter, and a walk to where it starts from where the image of a switch starts.
#[derive(Debug, Drop)]
pub(crate) struct Place {
    pub(crate) connect: Vec<Label>,
    pub(crate) label: Label,
}

impl Model for Place {
    ghost use Rattle.carry_map.specs.Anchors.{Place as SharedLetter};

    ghost Value = { SharedLetter };

    ghost view = { λ a. record { connect = a.connect.items; label = a.label } };
}

/// A place along one of two words: whether this is the word on, how many of its first letters are
/// the walk, and the letter.
#[derive(Debug, Drop)]
struct Spot {
    on: bool,
    letters: usize,
    label: Label,
}

/// SwitchPlaces of a switch in their order on the lines. Each walk is a beginning of the word back or of
/// the word on, and only its length is kept: the walks together may be as long as the square of the
/// words.
#[derive(Debug, Drop)]
pub(crate) struct SwitchPlaces {
    back: Vec<Label>,
    on: Vec<Label>,
    spots: Vec<Spot>,
}

impl Model for SwitchPlaces {
    ghost use Rattle.std.specs.Prelude.{List};
    ghost use Rattle.carry_map.specs.Anchors.{Place as SharedLetter};
    ghost use Rattle.carry_map.specs.inside.Rays.{places_at};

    ghost Value = { List SharedLetter };

    ghost view = { λ a. places_at a.back.items a.on.items a.spots.items };
}

impl SwitchPlaces {
    /// How many places there are.
    pub(crate) fn len(&self) -> usize
        ensures value { result ≡ length self.now }
        ensures few { result < 2 ^ 63 }
    {
        self.spots.len()
    }

    /// The place with this number.
    pub(crate) fn place(&self, alloc: Global, i: usize) -> Result<Place, Memory>
        requires { i < length self.now }
        ensures { IfOk result (λ p. p ≡ place_at self.now i) }
    {
        let spot = &self.spots[i];
        let label = spot.label;
        let word = if spot.on { &self.on } else { &self.back };
        let letters = spot.letters.min(word.len());
        let connect = Vec::from_slice(alloc, &word[..letters])?;
        Ok(Place { connect, label })
    }
}

/// The first places of a switch, so many at most, in their order on the lines. A line runs from the
/// end of the image of a legal walk of three letters back from the switch to the end of that of a
/// legal walk of three letters on from it. So the places lie back along what all the former images
/// have in common, and then on along what the latter have, past what one of the former has in common
/// with one of the latter.
pub(crate) fn places(
    alloc: Global,
    atlas: &Atlas,
    track: &Track,
    psi: &Map,
    s: Label,
    most: usize,
) -> Result<SwitchPlaces, Memory>
    requires map { IsMapOnTrack atlas.now track.now psi.now }
    requires label { IsLabel (triangulation atlas.now track.now.tri) s }
    ensures places { IfOk result (λ v. (all : List SharedLetter)
        × ArePlaces (triangulation atlas.now track.now.tri) track.now.left_out
        (substitution psi.now.images) s all × (v ≡ take most all)) }
    ensures reached { IfOk result (All (IsReachedFrom (triangulation atlas.now track.now.tri)
        track.now.left_out (vertex_image psi.now (triangle_of
        (triangulation atlas.now track.now.tri) s)))) }
{
    let _ = atlas.tri(track.tri());
    label_laws();
    surface_laws();
    word_laws();
    track_laws();
    let backs = back_rays(alloc, atlas, track, psi, s)?;
    let fronts = front_rays(alloc, atlas, track, psi, s)?;
    Ok(places_of_rays(alloc, track, &backs, &fronts, most)?)
}

/// The images of the legal walks of three letters back from where the switch starts.
fn back_rays(
    alloc: Global,
    atlas: &Atlas,
    track: &Track,
    psi: &Map,
    s: Label,
) -> Result<Vec<Walk>, Memory>
    requires map { IsMapOnTrack atlas.now track.now psi.now }
    requires label { IsLabel (triangulation atlas.now track.now.tri) s }
    ensures { IfOk result (λ v. AreRaysFrom (triangulation atlas.now track.now.tri)
        (substitution psi.now.images)
        (vertex_image psi.now (triangle_of (triangulation atlas.now track.now.tri) s))
        (back_words (triangulation atlas.now track.now.tri) track.now.left_out s) v.items) }
{
    label_laws();
    surface_laws();
    let tri = atlas.tri(track.tri());
    let words = three_longer(alloc, tri, track.left_out(), s.inverse(), &[])?;
    Ok(rays(alloc, atlas, psi, tri.place(s).0, words)?)
}

/// The images of the legal walks of the switch and three letters on from it.
fn front_rays(
    alloc: Global,
    atlas: &Atlas,
    track: &Track,
    psi: &Map,
    s: Label,
) -> Result<Vec<Walk>, Memory>
    requires map { IsMapOnTrack atlas.now track.now psi.now }
    requires label { IsLabel (triangulation atlas.now track.now.tri) s }
    ensures { IfOk result (λ v. AreRaysFrom (triangulation atlas.now track.now.tri)
        (substitution psi.now.images)
        (vertex_image psi.now (triangle_of (triangulation atlas.now track.now.tri) s))
        (front_words (triangulation atlas.now track.now.tri) track.now.left_out s) v.items) }
{
    label_laws();
    surface_laws();
    let tri = atlas.tri(track.tri());
    let words = three_longer(alloc, tri, track.left_out(), s, &[s])?;
    Ok(rays(alloc, atlas, psi, tri.place(s).0, words)?)
}

/// The first places that are read off these rays.
fn places_of_rays(
    alloc: Global,
    track: &Track,
    backs: &[Walk],
    fronts: &[Walk],
    most: usize,
) -> Result<SwitchPlaces, Memory>
    ensures { IfOk result (λ v. v ≡ take most (at_listed track.now.switches
        (places_past (most_shared (words_of backs.now) (words_of fronts.now))
        (common_of (words_of backs.now)) (common_of (words_of fronts.now))))) }
{
    let apart = most_shared(backs, fronts);
    let back = Vec::from_slice(alloc, common(backs))?;
    let on = Vec::from_slice(alloc, common(fronts))?;
    let mut spots = Vec::new(alloc);
    push_back(&mut spots, track, apart, &back, most)?;
    push_on(&mut spots, track, apart, &on, most)?;
    Ok(SwitchPlaces { back, on, spots })
}

/// Adds the places back along a word, from its end as far as its first `n` letters, up to `most` in
/// all.
fn push_back(
    spots: &mut Vec<Spot>,
    track: &Track,
    n: usize,
    back: &[Label],
    most: usize,
) -> Result<(), Memory>
    requires few { length spots.old.items ≤ most }
    ensures few { OnOk result (length spots.new.items ≤ most) }
    ensures places { OnOk result ((on : List ℤ) → places_at back.now on spots.new.items
        ≡ take most (places_at back.now on spots.old.items
        ++ at_listed track.now.switches (places_back (take n back.now) (drop n back.now)))) }
{
    let mut d = back.len();
    while d > n {
        let y = back[d - 1].inverse();
        push_spot(spots, track, false, d, y, most)?;
        d -= 1;
    }
    Ok(())
}

/// Adds the places on along a word, past its first `n` letters, up to `most` in all.
fn push_on(
    spots: &mut Vec<Spot>,
    track: &Track,
    n: usize,
    on: &[Label],
    most: usize,
) -> Result<(), Memory>
    requires few { length spots.old.items ≤ most }
    ensures { OnOk result ((back : List ℤ) → places_at back on.now spots.new.items
        ≡ take most (places_at back on.now spots.old.items
        ++ at_listed track.now.switches (places_on (take n on.now) (drop n on.now)))) }
{
    for d in n..on.len() {
        push_spot(spots, track, true, d, on[d], most)?;
    }
    Ok(())
}

/// Adds a place, where the edge of its letter is a switch and fewer than `most` are there.
fn push_spot(
    spots: &mut Vec<Spot>,
    track: &Track,
    on: bool,
    letters: usize,
    label: Label,
    most: usize,
) -> Result<(), Memory>
    requires few { length spots.old.items ≤ most }
    ensures few { OnOk result (length spots.new.items ≤ most) }
    ensures places { OnOk result ((back : List ℤ) → (front : List ℤ)
        → places_at back front spots.new.items
        ≡ take most (places_at back front spots.old.items ++ at_listed track.now.switches
        (place_along back front (record { on = on; letters = letters; label = label }) ∷ []))) }
{
    if spots.len() < most && is_listed(track.switches(), label) {
        spots.push(Spot { on, letters, label })?;
    }
    Ok(())
}

/// Whether a label or its inverse is one of these.
#[tactic(auto, unfolding(crate::specs::inside::Rays::is_listed))]
pub(crate) fn is_listed(labels: &[Label], y: Label) -> bool
    ensures { result ≡ is_listed labels.now y }
{
    labels.contains(&y) || labels.contains(&y.inverse())
}
