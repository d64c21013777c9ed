//! The once-punctured torus and maps of it, for tests.
ghost use Rattle.std.specs.Prelude.{◌≡◌, length, IfOk, OnOk};
ghost use Rattle.tri_atlas.specs.Arena.{Grows};
ghost use Rattle.tri_atlas.specs.Paths.{IsPathIn};
ghost use Rattle.free_groupoid.specs.GroupoidMaps.{IsMapIn};
ghost use Rattle.train_track.specs.Branches.{IsTrackIn};

use flip_move::flip;
use free_groupoid::Map;
use ideal_tri::{Label, Tri};
use relabel::{Relabelling, push};
use std::alloc::Global;
use std::process::Abort;
use std::test::Fail;
use train_track::Track;
use tri_atlas::{Atlas, Path, atlas_laws};

/// The torus.
pub(crate) fn torus(alloc: Global) -> Result<Atlas, Fail> {
    Ok(Atlas::new(alloc, Tri::from_triples(&[[0, 1, 2], [-1, -2, -3]])?)?)
}

/// The track that leaves out the corners 2 and -3, with one switch and two branches.
pub(crate) fn torus_track(alloc: Global, atlas: &Atlas) -> Result<Track, Fail>
    ensures here { IfOk result (IsTrackIn atlas.now) }
    ensures base { IfOk result (λ t. t.tri ≡ 0) }
    ensures switches { IfOk result (λ t. length t.switches ≡ 1) }
    ensures branches { IfOk result (λ t. length t.branches ≡ 2) }
{
    let two = Label::new(2);
    let track = Track::from_list(alloc, atlas, atlas.base(), &[two, two.inverse()])?;
    let switches = track.switches();
    if switches.len() != 1 {
        return Err(Fail::new("switches"));
    }
    let branches = track.branches();
    if branches.len() != 2 {
        return Err(Fail::new("branches"));
    }
    Ok(track)
}

/// The map of the twist a.
pub(crate) fn one_twist(rt: &impl Abort, alloc: Global, atlas: &mut Atlas) -> Result<Map, Fail>
    ensures map { IfOk result (IsMapIn atlas.new) }
    ensures source { IfOk result (λ m. m.source ≡ 0) }
    ensures target { IfOk result (λ m. m.target ≡ 0) }
{
    let mut path = Path::new(alloc, atlas.base());
    push_twist(rt, atlas, &mut path, &[2, 1, -1])?;
    map_of(alloc, atlas, &path)
}

/// The map of the twist b.
pub(crate) fn other_twist(rt: &impl Abort, alloc: Global, atlas: &mut Atlas) -> Result<Map, Fail>
    ensures map { IfOk result (IsMapIn atlas.new) }
    ensures source { IfOk result (λ m. m.source ≡ 0) }
    ensures target { IfOk result (λ m. m.target ≡ 0) }
{
    let mut path = Path::new(alloc, atlas.base());
    push_twist(rt, atlas, &mut path, &[-2, -1, 2])?;
    map_of(alloc, atlas, &path)
}

/// The map that turns the triangles.
pub(crate) fn turn(alloc: Global, atlas: &mut Atlas) -> Result<Map, Fail>
    ensures map { IfOk result (IsMapIn atlas.new) }
    ensures source { IfOk result (λ m. m.source ≡ 0) }
    ensures target { IfOk result (λ m. m.target ≡ 0) }
{
    let mut path = Path::new(alloc, atlas.base());
    push_relabelling(atlas, &mut path, &[1, 2, 0])?;
    map_of(alloc, atlas, &path)
}

/// The map of the twist a, and then of the twist b.
pub(crate) fn two_twists(rt: &impl Abort, alloc: Global, atlas: &mut Atlas) -> Result<Map, Fail>
    ensures map { IfOk result (IsMapIn atlas.new) }
    ensures source { IfOk result (λ m. m.source ≡ 0) }
    ensures target { IfOk result (λ m. m.target ≡ 0) }
{
    atlas_laws();
    let mut path = Path::new(alloc, atlas.base());
    push_twist(rt, atlas, &mut path, &[2, 1, -1])?;
    push_twist(rt, atlas, &mut path, &[-2, -1, 2])?;
    map_of(alloc, atlas, &path)
}

/// Puts the flip of edge 0 at the end of a path, and then the relabelling with these images.
fn push_twist(
    rt: &impl Abort,
    atlas: &mut Atlas,
    path: &mut Path,
    images: &[i32],
) -> Result<(), Fail>
    requires { IsPathIn atlas.old path.old }
    ensures path { OnOk result (IsPathIn atlas.new path.new) }
    ensures grows { OnOk result (Grows atlas.old atlas.new) }
{
    push_flip(rt, atlas, path)?;
    push_relabelling(atlas, path, images)
}

/// Puts the flip of edge 0 at the end of a path.
fn push_flip(rt: &impl Abort, atlas: &mut Atlas, path: &mut Path) -> Result<(), Fail>
    requires { IsPathIn atlas.old path.old }
    ensures path { OnOk result (IsPathIn atlas.new path.new) }
    ensures grows { OnOk result (Grows atlas.old atlas.new) }
{
    atlas_laws();
    let e = atlas.edge(path.end(), 0).expect(rt, "a label");
    let m = flip(atlas, e)?;
    path.push(atlas, m)?;
    Ok(())
}

/// Puts the relabelling with these images at the end of a path, back to the base.
fn push_relabelling(atlas: &mut Atlas, path: &mut Path, images: &[i32]) -> Result<(), Fail>
    requires { IsPathIn atlas.old path.old }
    ensures path { OnOk result (IsPathIn atlas.new path.new) }
    ensures grows { OnOk result (Grows atlas.old atlas.new) }
{
    atlas_laws();
    let base = atlas.base();
    let from = path.end();
    let r = Relabelling::from_list(atlas.tri(from), atlas.tri(base), images)?;
    let m = push(atlas, from, base, &r)?;
    path.push(atlas, m)?;
    Ok(())
}

/// The map of a path from the base to the base.
fn map_of(alloc: Global, atlas: &Atlas, path: &Path) -> Result<Map, Fail>
    requires { IsPathIn atlas.now path.now }
    ensures map { IfOk result (IsMapIn atlas.now) }
    ensures source { IfOk result (λ m. m.source ≡ 0) }
    ensures target { IfOk result (λ m. m.target ≡ 0) }
{
    let mut psi = Map::identity(alloc, atlas, path.start())?;
    psi.follow_path(atlas, path, 100)?;
    let base = atlas.base();
    let source = psi.source();
    let target = psi.target();
    if source != base {
        return Err(Fail::new("source"));
    }
    if target != base {
        return Err(Fail::new("target"));
    }
    Ok(psi)
}

/// Whether the word has these labels.
pub(crate) fn is_word(word: &[Label], labels: &[i32]) -> bool {
    if word.len() != labels.len() {
        return false;
    }
    for i in 0..word.len() {
        if word[i].get() != labels[i] {
            return false;
        }
    }
    true
}
