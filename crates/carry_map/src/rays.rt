//! Rays, and how far they go the same way.
ghost use Rattle.std.specs.Prelude.{◌≡◌, ◌≤◌, map, length, take, IfOk, All};
ghost use Rattle.tri_atlas.specs.Arena.{triangulation};
ghost use Rattle.free_groupoid.specs.Walks.{IsWalkOn};
ghost use Rattle.free_groupoid.specs.GroupoidMaps.{IsMapIn, substitution, reduced_image};
ghost use Rattle.free_groupoid.specs.GroupoidMaps.{vertex_image};
ghost use Rattle.train_track.specs.Branches.{words_of};
ghost use Rattle.carry_map.specs.inside.Rays.{words_in, common_prefix, common_of, shared};
ghost use Rattle.carry_map.specs.inside.Rays.{most_shared};

use free_groupoid::{Map, Walk};
use ideal_tri::{Label, Memory, label_laws, letter_laws};
use std::alloc::Global;
use tri_atlas::Atlas;

/// The images of the walks of these letters from a triangle.
pub(crate) fn rays(
    alloc: Global,
    atlas: &Atlas,
    psi: &Map,
    start: u32,
    words: Vec<Vec<Label>>,
) -> Result<Vec<Walk>, Memory>
    requires map { IsMapIn atlas.now psi.now }
    requires walks { All (λ w. IsWalkOn (triangulation atlas.now psi.now.source)
        (record { start = start; letters = w })) (words_in words.items) }
    ensures value { IfOk result (λ v. words_of v.items
        ≡ map (reduced_image (substitution psi.now.images)) (words_in words.items)) }
    ensures starts { IfOk result (λ v. All (λ w. w.start ≡ vertex_image psi.now start) v.items) }
    ensures walks { IfOk result (λ v. All (IsWalkOn (triangulation atlas.now psi.now.target))
        v.items) }
{
    let _ = atlas.base();
    let mut rays = Vec::new(alloc);
    for letters in words {
        rays.push(psi.image(alloc, &Walk { start, letters })?)?;
    }
    Ok(rays)
}

/// The letters with which all rays begin.
pub(crate) fn common(rays: &[Walk]) -> &[Label]
    ensures { result.now ≡ common_of (words_of rays.now) }
{
    if rays.is_empty() {
        return &[];
    }
    let first = &rays[0];
    let letters = first.letters.as_slice();
    let mut count = letters.len();
    for k in 1..rays.len() {
        let ray = &rays[k];
        count = common_length(&letters[..count], &ray.letters);
    }
    &letters[..count]
}

/// How many letters a back ray and a front ray have in common at most.
pub(crate) fn most_shared(backs: &[Walk], fronts: &[Walk]) -> usize
    ensures { result ≡ most_shared (words_of backs.now) (words_of fronts.now) }
{
    let mut most = 0;
    for ray in backs {
        most = most.max(shared(&ray.letters, fronts));
    }
    most
}

/// How many letters a word has in common with a ray at most.
fn shared(word: &[Label], rays: &[Walk]) -> usize
    ensures { result ≡ shared word.now (words_of rays.now) }
{
    let mut most = 0;
    for ray in rays {
        most = most.max(common_length(word, &ray.letters));
    }
    most
}

/// With how many of the same letters two words begin.
fn common_length(u: &[Label], v: &[Label]) -> usize
    ensures within { result ≤ length u.now }
    ensures letters { take result u.now ≡ common_prefix u.now v.now }
{
    label_laws();
    letter_laws();
    let most = u.len().min(v.len());
    for i in 0..most {
        if u[i] != v[i] {
            return i;
        }
    }
    most
}
