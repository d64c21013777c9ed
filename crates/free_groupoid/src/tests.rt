//! Maps along paths of flips, each with a relabelling back.
ghost use Rattle.std.specs.Prelude.{◌≡◌, ◌<◌, ◌^◌, IfOk, OnOk};
ghost use Rattle.tri_atlas.specs.Arena.{Grows};
ghost use Rattle.tri_atlas.specs.Paths.{IsPathIn};
ghost use Rattle.free_groupoid.specs.GroupoidMaps.{IsMapIn};

use super::*;
use flip_move::flip;
use ideal_tri::{Label, Tri, surface_laws, word_laws};
use relabel::{Relabelling, push};
use std::alloc::{AllocGlobal, Global};
use std::process::Abort;
use std::test::Fail;
use tri_atlas::{Atlas, Path, atlas_laws};

const TORUS: [[i32; 3]; 2] = [[0, 1, 2], [-1, -2, -3]];

/// The walks to which a twist takes the labels 0, 1, 2.
const TWIST: [(usize, &[i32]); 3] = [(0, &[2]), (0, &[1]), (0, &[2, -1, 2])];

/// The same for two twists, one after the other.
const TWO_TWISTS: [(usize, &[i32]); 3] = [(1, &[-2, 2, -2]), (1, &[-1]), (1, &[-2, 2, -2, 2, -2])];

const PAIR: [[i32; 3]; 4] = [[0, 1, 2], [-1, -3, -2], [3, 4, 5], [-4, -6, -5]];

const SPHERE: [[i32; 3]; 4] = [[0, 3, -2], [2, -5, -1], [1, 5, -3], [4, -6, -4]];

/// The walks to which the labels 0, 1, .. of two components go where these are exchanged.
const EXCHANGED: [(usize, &[i32]); 6] = [
    (2, &[3]),
    (2, &[4]),
    (2, &[5]),
    (0, &[0]),
    (0, &[1]),
    (0, &[2]),
];

/// Puts the flip of an edge at the end of a path.
fn push_flip(rt: &impl Abort, atlas: &mut Atlas, path: &mut Path, x: i32) -> Result<(), Fail>
    requires { IsPathIn atlas.old path.old }
    ensures path { OnOk result (IsPathIn atlas.new path.new) }
    ensures start { OnOk result (path.new.start ≡ path.old.start) }
    ensures grows { OnOk result (Grows atlas.old atlas.new) }
{
    atlas_laws();
    let e = atlas.edge(path.end(), x).expect(rt, "a label");
    let m = flip(atlas, e)?;
    path.push(atlas, m)?;
    Ok(())
}

/// Puts the relabelling with these images at the end of a path, back to the base.
fn push_relabelling(atlas: &mut Atlas, path: &mut Path, images: &[i32]) -> Result<(), Fail>
    requires { IsPathIn atlas.old path.old }
    ensures path { OnOk result (IsPathIn atlas.new path.new) }
    ensures start { OnOk result (path.new.start ≡ path.old.start) }
    ensures end { OnOk result (path.new.end ≡ 0) }
    ensures grows { OnOk result (Grows atlas.old atlas.new) }
{
    atlas_laws();
    let base = atlas.base();
    let from = path.end();
    let r = Relabelling::from_list(atlas.tri(from), atlas.tri(base), images)?;
    let m = push(atlas, from, base, &r)?;
    path.push(atlas, m)?;
    Ok(())
}

/// The path of the flips of these edges, from the base, and of the relabelling back with these
/// images.
fn path_of(
    rt: &(impl Abort + AllocGlobal),
    atlas: &mut Atlas,
    flips: &[i32],
    images: &[i32],
) -> Result<Path, Fail>
    ensures path { IfOk result (IsPathIn atlas.new) }
    ensures ends { IfOk result (λ p. (p.start ≡ 0) × (p.end ≡ 0)) }
    ensures grows { OnOk result (Grows atlas.old atlas.new) }
{
    atlas_laws();
    let mut path = Path::new(rt.alloc(), atlas.base());
    for x in flips {
        push_flip(rt, atlas, &mut path, *x)?;
    }
    push_relabelling(atlas, &mut path, images)?;
    Ok(path)
}

/// The map of a path.
fn map_of(alloc: Global, atlas: &Atlas, path: &Path, cap: u64) -> Result<Map, MapError>
    requires path { IsPathIn atlas.now path.now }
    requires cap { cap < 2 ^ 63 }
    ensures { IfOk result (IsMapIn atlas.now) }
{
    let mut f = Map::identity(alloc, atlas, path.start())?;
    f.follow_path(atlas, path, cap)?;
    Ok(f)
}

/// Whether the walk starts at this triangle and has these letters.
fn is_walk(walk: &Walk, start: usize, letters: &[i32]) -> bool {
    walk.start as usize == start
        && walk.letters.len() == letters.len()
        && letters
            .iter()
            .enumerate()
            .all(|(i, n)| walk.letters.get(i).map(|x| x.get()) == Some(*n))
}

/// Whether the images of the labels 0, 1, .. are these walks.
fn sends(alloc: Global, atlas: &Atlas, f: &Map, walks: &[(usize, &[i32])]) -> Result<bool, Fail>
    requires { IsMapIn atlas.now f.now }
{
    let tri = atlas.tri(f.source());
    if walks.len() != tri.edges() as usize {
        return Ok(false);
    }
    for (n, (start, letters)) in walks.iter().enumerate() {
        let x = Label::new(n as i32);
        let walk = Walk::new(alloc, tri, tri.place(x).0, &[x])?;
        if !is_walk(&f.image(alloc, &walk)?, *start, letters) {
            return Ok(false);
        }
    }
    Ok(true)
}

/// The map of the first path and then that of the second.
fn composite(alloc: Global, atlas: &Atlas, a: &Path, b: &Path) -> Result<Map, Fail>
    requires first { IsPathIn atlas.now a.now }
    requires second { IsPathIn atlas.now b.now }
    ensures { IfOk result (IsMapIn atlas.now) }
{
    let _ = atlas.base();
    let first = map_of(alloc, atlas, a, 100)?;
    let second = map_of(alloc, atlas, b, 100)?;
    if first.target() != second.source() {
        return Err(Fail::new("apart"));
    }
    Ok(first.then(alloc, &second, 100)?)
}

#[test]
fn one_twist_after_another(rt: HostRuntime) -> Result<(), Fail> {
    atlas_laws();
    let mut atlas = Atlas::new(rt.alloc(), Tri::from_triples(&TORUS)?)?;
    let mut a = path_of(&rt, &mut atlas, &[0], &[2, 1, -1])?;
    let b = path_of(&rt, &mut atlas, &[0], &[-2, -1, 2])?;
    let both = composite(rt.alloc(), &atlas, &a, &b)?;
    assert!(rt; sends(rt.alloc(), &atlas, &both, &TWO_TWISTS)?);
    a.append(&b)?;
    let both = map_of(rt.alloc(), &atlas, &a, 100)?;
    assert!(rt; sends(rt.alloc(), &atlas, &both, &TWO_TWISTS)?);
    Ok(())
}

#[test]
fn letters_up_to_a_cap(rt: HostRuntime) -> Result<(), Fail> {
    let mut atlas = Atlas::new(rt.alloc(), Tri::from_triples(&TORUS)?)?;
    let a = path_of(&rt, &mut atlas, &[0], &[2, 1, -1])?;
    let past = map_of(rt.alloc(), &atlas, &a, 4);
    assert!(rt; matches!(past, Err(MapError::CapPassed { letters: 5 })));
    let within = map_of(rt.alloc(), &atlas, &a, 5)?;
    assert!(rt; sends(rt.alloc(), &atlas, &within, &TWIST)?);
    Ok(())
}

#[test]
fn letters_that_do_not_compose(rt: HostRuntime) -> Result<(), Fail> {
    let torus = Tri::from_triples(&TORUS)?;
    let refused = Walk::new(rt.alloc(), &torus, 0, &[Label::new(0), Label::new(1)]);
    assert!(rt; matches!(refused, Err(WalkError::NotComposable(1))));
    Ok(())
}

/// What the inner test says of the map of such a path.
fn inner_of(
    rt: &(impl Abort + AllocGlobal),
    triples: &[[i32; 3]],
    flips: &[i32],
    images: &[i32],
) -> Result<InnerAnswer, Fail> {
    let alloc = rt.alloc();
    let mut atlas = Atlas::new(alloc, Tri::from_components(triples)?)?;
    let path = path_of(rt, &mut atlas, flips, images)?;
    let f = map_of(alloc, &atlas, &path, 100)?;
    assert!(rt; f.source() == f.target());
    Ok(inner(alloc, atlas.tri(f.source()), &f)?)
}

/// Whether the answer is that the map is inner by these walks from the triangles in order.
fn is_yes(answer: &InnerAnswer, words: &[&[i32]]) -> bool {
    match answer {
        InnerAnswer::Yes { paths } => are_walks(paths, words),
        InnerAnswer::No { .. } => false,
    }
}

/// Whether the answer is that this walk, from triangle 0, is the first that is moved.
fn is_no(answer: &InnerAnswer, letters: &[i32]) -> bool {
    match answer {
        InnerAnswer::Yes { .. } => false,
        InnerAnswer::No { walk } => is_walk(walk, 0, letters),
    }
}

/// Whether these are the walks from the triangles in order.
fn are_walks(walks: &[Walk], words: &[&[i32]]) -> bool {
    if walks.len() != words.len() {
        return false;
    }
    for t in 0..walks.len() {
        if !is_walk(&walks[t], t, words[t]) {
            return false;
        }
    }
    true
}

#[test]
fn inner_and_not(rt: HostRuntime) -> Result<(), Fail> {
    // a twist
    let answer = inner_of(&rt, &TORUS, &[0], &[2, 1, -1])?;
    assert!(rt; is_no(&answer, &[1, -1]));
    // two edges flipped twice, each turned round: a conjugation by closed walks
    let answer = inner_of(&rt, &TORUS, &[0, 0, 1, 1], &[-1, -2, 2])?;
    assert!(rt; is_yes(&answer, &[&[0, -2], &[-1, 1]]));
    // the identity on two components
    let answer = inner_of(&rt, &PAIR, &[], &[0, 1, 2, 3, 4, 5])?;
    assert!(rt; is_yes(&answer, &[&[], &[], &[], &[]]));
    // a twist that conjugates the third of the three loops by the product of the others; so each is
    // kept, and a product is the first that is moved
    let answer = inner_of(&rt, &SPHERE, &[1, 4, 2, 3], &[0, -5, -4, -3, -2, 5])?;
    assert!(rt; is_no(&answer, &[0, 2, 5, -4]));
    Ok(())
}

#[test]
fn conjugated(rt: HostRuntime) -> Result<(), Fail> {
    word_laws();
    surface_laws();
    groupoid_laws();
    let alloc = rt.alloc();
    let torus = Tri::from_triples(&TORUS)?;
    let atlas = Atlas::new(alloc, torus)?;
    let (zero, back, two) = (Label::new(0), Label::new(-2), Label::new(2));
    let walks = [
        Walk::new(alloc, &torus, 0, &[two, back, zero])?,
        Walk::new(alloc, &torus, 0, &[two])?,
        Walk::new(alloc, &torus, 0, &[two, back, two])?,
    ];
    let walks = Vec::from_array(alloc, walks)?;
    let f = Map::from_images(&atlas, atlas.base(), atlas.base(), walks);
    let answer = inner(alloc, &torus, &f)?;
    assert!(rt; is_yes(&answer, &[&[1, -3], &[]]));
    Ok(())
}

#[test]
fn components_exchanged(rt: HostRuntime) -> Result<(), Fail> {
    let alloc = rt.alloc();
    let mut atlas = Atlas::new(alloc, Tri::from_components(&PAIR)?)?;
    let path = path_of(&rt, &mut atlas, &[], &[3, 4, 5, 0, 1, 2])?;
    let f = map_of(alloc, &atlas, &path, 6)?;
    assert!(rt; sends(alloc, &atlas, &f, &EXCHANGED)?);
    let triangles = atlas.tri(f.source()).triangles();
    assert_eq!(rt; triangles, 4);
    for t in 0..triangles {
        assert_eq!(rt; f.vertex(t), [2, 3, 0, 1][t as usize]);
    }
    Ok(())
}
