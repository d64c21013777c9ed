//! The search on the once-punctured torus, over vectors that are given. Its cycles are `0 -2`,
//! `0 -3` and `1 -3`.
ghost use Rattle.std.specs.Prelude.{◌≡◌, ◌<◌, All, IfOk, OnOk};
ghost use Rattle.multicurve_cert.specs.Candidates.{kinds};
ghost use Rattle.tri_atlas.specs.Arena.{Grows};
ghost use Rattle.tri_atlas.specs.Paths.{IsPathIn};
ghost use Rattle.multicurve_cert.specs.LastTests.{AreAtBase};

use crate::candidates::candidate;
use crate::curve_search::{Curves, search_among};
use crate::images::Images;
use edge_coords::{Coords, CurveLine};
use flip_move::flip;
use ideal_tri::Tri;
use relabel::{Relabelling, push};
use std::alloc::{AllocGlobal, Global};
use std::process::Abort;
use std::test::Fail;
use tri_atlas::{Atlas, Path, atlas_laws};

const TORUS: [[i32; 3]; 2] = [[0, 1, 2], [-1, -2, -3]];

/// How often the cycles cross the edges.
const CYCLES: [[u128; 3]; 3] = [[1, 1, 0], [1, 0, 1], [0, 1, 1]];

/// The relabellings back of the two twists, each after a flip of edge 0.
const A: [i32; 3] = [2, 1, -1];

const B: [i32; 3] = [-2, -1, 2];

/// A turn of order 3, without a flip.
const TURN: [i32; 3] = [1, 2, 0];

/// Half of the limit of coordinates.
const HALF: u128 = 1 << 125;

/// Puts the flip of edge 0 at the end of a path.
fn push_flip(rt: &impl Abort, atlas: &mut Atlas, path: &mut Path) -> Result<(), Fail>
    requires { IsPathIn atlas.old path.old }
    ensures path { OnOk result (IsPathIn atlas.new path.new) }
    ensures start { OnOk result (path.new.start ≡ path.old.start) }
    ensures grows { OnOk result (Grows atlas.old atlas.new) }
{
    atlas_laws();
    let e = atlas.edge(path.end(), 0).expect(rt, "a label");
    let m = flip(atlas, e)?;
    path.push(atlas, m)?;
    Ok(())
}

/// Puts the relabelling with these images at the end of a path, back to the base.
fn push_relabelling(atlas: &mut Atlas, path: &mut Path, images: &[i32]) -> Result<(), Fail>
    requires { IsPathIn atlas.old path.old }
    ensures path { OnOk result (IsPathIn atlas.new path.new) }
    ensures start { OnOk result (path.new.start ≡ path.old.start) }
    ensures end { OnOk result (path.new.end ≡ 0) }
    ensures grows { OnOk result (Grows atlas.old atlas.new) }
{
    atlas_laws();
    let base = atlas.base();
    let from = path.end();
    let r = Relabelling::from_list(atlas.tri(from), atlas.tri(base), images)?;
    let m = push(atlas, from, base, &r)?;
    path.push(atlas, m)?;
    Ok(())
}

/// A product of two twists, which moves each curve.
fn twists(rt: &(impl Abort + AllocGlobal), atlas: &mut Atlas) -> Result<Path, Fail>
    ensures path { IfOk result (IsPathIn atlas.new) }
    ensures ends { IfOk result (λ p. (p.start ≡ 0) × (p.end ≡ 0)) }
{
    atlas_laws();
    let mut path = Path::new(rt.alloc(), atlas.base());
    push_flip(rt, atlas, &mut path)?;
    push_relabelling(atlas, &mut path, &A)?;
    push_flip(rt, atlas, &mut path)?;
    push_relabelling(atlas, &mut path, &B)?;
    Ok(path)
}

/// A twist.
fn twist(rt: &(impl Abort + AllocGlobal), atlas: &mut Atlas) -> Result<Path, Fail>
    ensures path { IfOk result (IsPathIn atlas.new) }
    ensures ends { IfOk result (λ p. (p.start ≡ 0) × (p.end ≡ 0)) }
{
    atlas_laws();
    let mut path = Path::new(rt.alloc(), atlas.base());
    push_flip(rt, atlas, &mut path)?;
    push_relabelling(atlas, &mut path, &B)?;
    Ok(path)
}

/// The turn.
fn turn(rt: &impl AllocGlobal, atlas: &mut Atlas) -> Result<Path, Fail>
    ensures path { IfOk result (IsPathIn atlas.new) }
    ensures ends { IfOk result (λ p. (p.start ≡ 0) × (p.end ≡ 0)) }
{
    let mut path = Path::new(rt.alloc(), atlas.base());
    push_relabelling(atlas, &mut path, &TURN)?;
    Ok(path)
}

/// The first letter of the name of a line.
fn letter(line: CurveLine) -> char {
    match line {
        CurveLine::Overflow => 'O',
        CurveLine::NotMulticurve => 'N',
        CurveLine::Empty => 'E',
        CurveLine::Moved => 'M',
    }
}

/// Whether the answer is none, with these lines.
fn is_log(curves: &Curves, lines: &str) -> bool {
    match curves {
        Curves::Found { .. } => false,
        Curves::None { log } => {
            log.len() == lines.len()
                && log
                    .iter()
                    .zip(lines.chars())
                    .all(|(line, c)| letter(*line) == c)
        }
    }
}

/// Whether the answer is this candidate, with these numbers.
fn is_found(curves: &Curves, wanted: u32, values: &[u128]) -> bool {
    match curves {
        Curves::Found { number, coords } => *number == wanted && coords.values() == values,
        Curves::None { .. } => false,
    }
}

#[test]
fn a_twist_fixes_its_curve(rt: HostRuntime) -> Result<(), Fail> {
    let mut atlas = Atlas::new(rt.alloc(), Tri::from_triples(&TORUS)?)?;
    let path = twist(&rt, &mut atlas)?;
    let [first, second, _] = cycles(&atlas)?;
    let curves = search_among(rt.alloc(), &atlas, &path, &[first, second], 1)?;
    assert!(rt; is_found(&curves, 0, &CYCLES[0]));
    let curves = search_among(rt.alloc(), &atlas, &path, &[second, first], 65536)?;
    assert!(rt; is_found(&curves, 1, &CYCLES[0]));
    let curves = search_among(rt.alloc(), &atlas, &path, &[second, first], 1)?;
    assert!(rt; is_log(&curves, "M"));
    Ok(())
}

/// The coordinates of the cycles at the base.
fn cycles(atlas: &Atlas) -> Result<[Coords; 3], Fail>
    ensures { IfOk result (All (AreAtBase atlas.now)) }
{
    let base = atlas.base();
    Ok([
        Coords::new(atlas, base, &CYCLES[0])?,
        Coords::new(atlas, base, &CYCLES[1])?,
        Coords::new(atlas, base, &CYCLES[2])?,
    ])
}

#[test]
fn twists_move_all(rt: HostRuntime) -> Result<(), Fail> {
    let mut atlas = Atlas::new(rt.alloc(), Tri::from_triples(&TORUS)?)?;
    let path = twists(&rt, &mut atlas)?;
    let vectors = cycles(&atlas)?;
    let curves = search_among(rt.alloc(), &atlas, &path, &vectors, 65536)?;
    assert!(rt;
        is_log(
            &curves,
            "MMMMMMMMMMMMMMMMMMMMMMMMMMMMMMMMMMMMMMMMMMMMMMMMMMMMMMMMMMMMMMMMMMMMMMMM"
        )
    );
    Ok(())
}

#[test]
fn no_difference_or_nothing(rt: HostRuntime) -> Result<(), Fail> {
    let mut atlas = Atlas::new(rt.alloc(), Tri::from_triples(&TORUS)?)?;
    let path = turn(&rt, &mut atlas)?;
    let vectors = cycles(&atlas)?;
    // three images in turn add up to curves round the vertex, and the image of the third power is
    // the vector again: nothing is left in either case
    let curves = search_among(rt.alloc(), &atlas, &path, &vectors, 65536)?;
    assert!(rt;
        is_log(
            &curves,
            "MMMMMMEEEMMMMMMEEEMMMMMMNNNNNNEEENNNNNNNNNEEENNNNNNNNNEEENNNNNNNNNEEENNN"
        )
    );
    let curves = search_among(rt.alloc(), &atlas, &path, &vectors, 10)?;
    assert!(rt; is_log(&curves, "MMMMMMEEEM"));
    let curves = search_among(rt.alloc(), &atlas, &path, &vectors, 0)?;
    assert!(rt; is_log(&curves, ""));
    Ok(())
}

#[test]
fn images_that_are_too_large(rt: HostRuntime) -> Result<(), Fail> {
    let mut atlas = Atlas::new(rt.alloc(), Tri::from_triples(&TORUS)?)?;
    let path = twists(&rt, &mut atlas)?;
    let large = [Coords::new(&atlas, atlas.base(), &[HALF, HALF, 0])?];
    // the image of the candidate, which is the vector
    let curves = search_among(rt.alloc(), &atlas, &path, &large, 1)?;
    assert!(rt; is_log(&curves, "O"));
    // and an image that sums and differences are made of
    let curves = search_among(rt.alloc(), &atlas, &path, &large, 24)?;
    assert!(rt; is_log(&curves, "OOOOOOOOOOOOOOOOOOOOOOOO"));
    Ok(())
}

#[test]
fn sums_that_are_too_large(rt: HostRuntime) -> Result<(), Fail> {
    let mut atlas = Atlas::new(rt.alloc(), Tri::from_triples(&TORUS)?)?;
    let path = turn(&rt, &mut atlas)?;
    let large = [Coords::new(&atlas, atlas.base(), &[HALF, HALF, 0])?];
    let curves = search_among(rt.alloc(), &atlas, &path, &large, 24)?;
    assert!(rt; is_log(&curves, "MOOOOOOONNENNNENNNENNNEN"));
    Ok(())
}

/// Whether the candidate of this kind, made of a vector that is given, overflows; and how many images
/// there are then.
fn overflows(
    alloc: Global,
    atlas: &Atlas,
    word: &Path,
    vector: Coords,
    kind: u32,
) -> Result<(bool, usize), Fail>
    requires path { IsPathIn atlas.now word.now }
    requires start { word.now.start ≡ 0 }
    requires end { word.now.end ≡ 0 }
    requires kind { kind < kinds }
    requires vector { AreAtBase atlas.now vector }
{
    let mut images = Images::new(alloc, atlas, word, vector)?;
    let overflows = candidate(atlas, word, &mut images, kind)?.is_err();
    Ok((overflows, images.list.len()))
}

#[test]
fn overflow_of_an_image(rt: HostRuntime) -> Result<(), Fail> {
    let mut atlas = Atlas::new(rt.alloc(), Tri::from_triples(&TORUS)?)?;
    let path = twists(&rt, &mut atlas)?;
    let vector = Coords::new(&atlas, atlas.base(), &[HALF, HALF, 0])?;
    // the second image is needed, and isn't there
    let (overflows, images) = overflows(rt.alloc(), &atlas, &path, vector, 1)?;
    assert!(rt; overflows && images == 1);
    Ok(())
}

#[test]
fn overflow_of_a_sum(rt: HostRuntime) -> Result<(), Fail> {
    let mut atlas = Atlas::new(rt.alloc(), Tri::from_triples(&TORUS)?)?;
    let path = turn(&rt, &mut atlas)?;
    let vector = Coords::new(&atlas, atlas.base(), &[HALF, HALF, 0])?;
    // both images are there
    let (overflows, images) = overflows(rt.alloc(), &atlas, &path, vector, 1)?;
    assert!(rt; overflows && images == 2);
    Ok(())
}
