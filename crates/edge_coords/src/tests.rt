//! Multicurves on small surfaces, and a slow way across moves: draw the curves strand by strand,
//! put the image of each letter in its place, reduce, and count.
ghost use Rattle.std.specs.Prelude.{◌≡◌};
ghost use Rattle.tri_atlas.specs.Arena.{IsTriIn, IsMoveIn, source_of, target_of};
ghost use Rattle.edge_coords.specs.Coordinates.{AreCoordinatesIn};

use crate::{Coords, CoordsError, NotMulticurve, Overflow, OverflowAt};
use flip_move::flip;
use ideal_tri::{EDGES, Label, Tri};
use relabel::{Relabelling, push};
use std::alloc::{AllocError, AllocGlobal, Global};
use std::process::Abort;
use std::test::Fail;
use tri_atlas::{Atlas, MoveId, Path, Step};

const TORUS: [[i32; 3]; 2] = [[0, 1, 2], [-1, -2, -3]];

const SPHERE: [[i32; 3]; 2] = [[0, 1, 2], [-1, -3, -2]];

const FOLDED: [[i32; 3]; 2] = [[0, -1, 1], [-2, 2, -3]];

/// The number at an edge of three.
fn number(w: &[u128; 3], x: Label) -> u128 {
    let e = x.edge() as usize;
    if e < 3 { w[e] } else { 0 }
}

/// The side after `x` in its triangle.
fn next(tri: &Tri, x: Label) -> Label {
    if x.edge() < tri.edges() {
        tri.next(x)
    } else {
        x
    }
}

/// Where the strand leaves a triangle that enters it through the side `x` at place `i`.
fn across(tri: &Tri, w: &[u128; 3], x: Label, i: u128) -> (Label, u128) {
    let y = next(tri, x);
    let z = next(tri, y);
    let (a, b, c) = (number(w, x), number(w, y), number(w, z));
    let corner = a.saturating_add(b).saturating_sub(c) / 2;
    if i >= a.saturating_sub(corner) {
        (y, a.saturating_sub(i.saturating_add(1)))
    } else {
        (z, c.saturating_sub(i.saturating_add(1)))
    }
}

/// The letters of the curve that leaves through the side `x` at place `i`. It marks its strands.
fn curve(
    alloc: Global,
    tri: &Tri,
    w: &[u128; 3],
    drawn: &mut [[bool; 4]; 3],
    x: Label,
    i: u128,
) -> Result<Vec<Label>, AllocError> {
    let mut word = Vec::new(alloc);
    let (mut y, mut j) = (x, i);
    for _ in 0..18 {
        mark(w, drawn, y, j);
        word.push(y)?;
        let entry = number(w, y).saturating_sub(j.saturating_add(1));
        (y, j) = across(tri, w, y.inverse(), entry);
        if y == x && j == i {
            break;
        }
    }
    Ok(word)
}

/// Marks the strand at place `i` of the side `x`, counted there from its tail.
fn mark(w: &[u128; 3], drawn: &mut [[bool; 4]; 3], x: Label, i: u128) {
    let e = x.edge() as usize;
    let place = if x.get() < 0 {
        number(w, x).saturating_sub(i.saturating_add(1))
    } else {
        i
    };
    if e < 3 && place < 4 {
        drawn[e][place as usize] = true;
    }
}

/// What the move puts before the image of a letter.
fn before(step: &Step, x: Label) -> Option<Label> {
    match step {
        Step::Flip { e, b, d, .. } if x == *b => Some(*e),
        Step::Flip { e, b, d, .. } if x == *d => Some(e.inverse()),
        Step::Unflip { e, b, d, .. } if x == *b => Some(e.inverse()),
        Step::Unflip { e, b, d, .. } if x == *d => Some(*e),
        _ => None,
    }
}

/// The letter itself, or its new label.
fn renamed(step: &Step, x: Label) -> Label {
    let e = x.edge() as usize;
    match step {
        Step::Relabel(images) if e < EDGES => {
            let image = images[e];
            if x.get() < 0 { image.inverse() } else { image }
        }
        _ => x,
    }
}

/// Puts a letter at the end of a reduced word.
fn push_reduced(word: &mut Vec<Label>, x: Label) -> Result<(), AllocError> {
    if word.last().copied() == Some(x.inverse()) {
        word.pop();
    } else {
        word.push(x)?;
    }
    Ok(())
}

/// The reduced image of a word.
fn image(alloc: Global, step: &Step, word: &[Label]) -> Result<Vec<Label>, AllocError> {
    let mut image = Vec::new(alloc);
    for x in word {
        if let Some(y) = before(step, *x) {
            push_reduced(&mut image, y)?;
        }
        push_reduced(&mut image, renamed(step, *x))?;
        if let Some(y) = before(step, x.inverse()) {
            push_reduced(&mut image, y.inverse())?;
        }
    }
    Ok(image)
}

/// Counts the letters of each edge that are left when the ends of a reduced word are cancelled.
fn count(counts: &mut [u128; 3], word: &[Label]) {
    let (mut start, mut end) = (0, word.len());
    while start + 1 < end && word[start] == word[end - 1].inverse() {
        start += 1;
        end -= 1;
    }
    for x in &word[start..end] {
        let e = x.edge() as usize;
        if e < 3 {
            counts[e] = counts[e].saturating_add(1);
        }
    }
}

/// The numbers of the images of the curves of a vector with numbers up to 3.
fn images(alloc: Global, tri: &Tri, w: &[u128; 3], step: &Step) -> Result<[u128; 3], AllocError> {
    let mut counts = [0; 3];
    let mut drawn = [[false; 4]; 3];
    for e in 0..3 {
        for i in 0..4 {
            if (i as u128) < w[e] && !drawn[e][i] {
                let word = curve(alloc, tri, w, &mut drawn, Label::new(e as i32), i as u128)?;
                count(&mut counts, &image(alloc, step, &word)?);
            }
        }
    }
    Ok(counts)
}

/// The move takes each multicurve with numbers up to 3 where the slow way does.
fn agree(rt: &(impl Abort + AllocGlobal), atlas: &Atlas, m: MoveId) -> Result<(), Fail>
    requires { IsMoveIn atlas.now m }
{
    let start = atlas.source(m);
    let tri = atlas.tri(start);
    let step = atlas.step(m);
    for k in 0u32..64 {
        let w = [k % 4, k / 4 % 4, k / 16].map(u128::from);
        if let Ok(coords) = Coords::new(atlas, start, &w) {
            let mut moved = coords;
            moved.apply_move(atlas, m)?;
            assert_eq!(rt;
                moved.values(),
                images(rt.alloc(), tri, &w, &step)?.as_slice()
            );
            moved.apply_move(atlas, atlas.back(m))?;
            assert_eq!(rt; moved, coords);
        }
    }
    Ok(())
}

/// So do the flip of this edge, if it can be flipped, and the same move backwards.
fn flips_agree(
    rt: &(impl Abort + AllocGlobal),
    triples: &[[i32; 3]; 2],
    e: i32,
) -> Result<(), Fail> {
    let mut atlas = Atlas::new(rt.alloc(), Tri::from_triples(triples)?)?;
    let base = atlas.base();
    if let Some(edge) = atlas.edge(base, e) {
        if let Ok(m) = flip(&mut atlas, edge) {
            agree(rt, &atlas, m)?;
            agree(rt, &atlas, atlas.back(m))?;
        }
    }
    Ok(())
}

/// So do the relabelling that takes 0 to this label, if there is one, and the same move backwards.
fn relabellings_agree(
    rt: &(impl Abort + AllocGlobal),
    triples: &[[i32; 3]; 2],
    x: i32,
) -> Result<(), Fail> {
    let tri = Tri::from_triples(triples)?;
    let mut atlas = Atlas::new(rt.alloc(), tri)?;
    let base = atlas.base();
    let (zero, image) = (Label::new(0), Label::new(x));
    if zero.edge() < tri.edges() && image.edge() < tri.edges() {
        if let Some(r) = Relabelling::from_one(&tri, &tri, zero, image) {
            let m = push(&mut atlas, base, base, &r)?;
            agree(rt, &atlas, m)?;
            agree(rt, &atlas, atlas.back(m))?;
        }
    }
    Ok(())
}

#[test]
fn moves_by_drawing(rt: HostRuntime) -> Result<(), Fail> {
    for triples in [TORUS, SPHERE, FOLDED] {
        for e in 0..3 {
            flips_agree(&rt, &triples, e)?;
        }
        for x in -3..3 {
            relabellings_agree(&rt, &triples, x)?;
        }
    }
    Ok(())
}

#[test]
fn values(rt: HostRuntime) -> Result<(), Fail> {
    let atlas = Atlas::new(rt.alloc(), Tri::from_triples(&TORUS)?)?;
    let base = atlas.base();
    for (values, refusal) in [
        ([1, 1, 2], None),
        ([1, 1 << 126, 1 << 127], Some(CoordsError::TooLarge(1))),
        ([1, 1, 1], Some(CoordsError::OddTriangle(0))),
        ([4, 1, 1], Some(CoordsError::LongSide(0))),
    ] {
        assert_eq!(rt; Coords::new(&atlas, base, &values).err(), refusal);
    }
    assert_eq!(rt;
        Coords::new(&atlas, base, &[1, 1]),
        Err(CoordsError::WrongLength(2))
    );
    let pillow = Tri::from_triples(&[[0, 3, -2], [2, -5, -1], [1, 5, -3], [4, -6, -4]])?;
    let atlas = Atlas::new(rt.alloc(), pillow)?;
    for (n, total) in [(2, 12), ((1 << 126) - 2, u128::MAX)] {
        let coords = Coords::new(&atlas, atlas.base(), &[n; 6])?;
        assert_eq!(rt; coords.values(), [n; 6].as_slice());
        assert_eq!(rt; coords.tri(), atlas.base());
        assert_eq!(rt; coords.total(), total);
    }
    Ok(())
}

#[test]
fn curves_round_vertices(rt: HostRuntime) -> Result<(), Fail> {
    // the corner between the edges 0 and 1, the least vertex with strands all round, and what is
    // left; both ends of each edge of the torus, and of edge 1 of the folded sphere, are at one
    // vertex
    for (triples, values, corner, vertex, rest) in [
        (TORUS, [3, 3, 2], 2, Some(0), [1, 1, 0]),
        (TORUS, [1, 1, 0], 1, None, [1, 1, 0]),
        (SPHERE, [2, 1, 1], 1, Some(0), [0, 0, 0]),
        (SPHERE, [0, 1, 1], 0, Some(2), [0, 0, 0]),
        (FOLDED, [2, 2, 1], 1, Some(0), [0, 0, 0]),
        (FOLDED, [1, 2, 1], 0, Some(1), [0, 0, 0]),
    ] {
        let tri = Tri::from_triples(&triples)?;
        let atlas = Atlas::new(rt.alloc(), tri)?;
        let base = atlas.base();
        let mut coords = Coords::new(&atlas, base, &values)?;
        let x = Label::new(0);
        assert!(rt; x.edge() < atlas.tri(base).edges());
        assert_eq!(rt; coords.corner_count(&atlas, x), corner);
        assert_eq!(rt; coords.peripheral_at(&atlas).map(|v| v.number()), vertex);
        coords.strip_peripheral(&atlas);
        assert_eq!(rt; coords.values(), rest.as_slice());
    }
    Ok(())
}

#[test]
fn sums_and_differences(rt: HostRuntime) -> Result<(), Fail> {
    let atlas = Atlas::new(rt.alloc(), Tri::from_triples(&TORUS)?)?;
    let base = atlas.base();
    let half = 1 << 125;
    for (first, second, sum) in [
        ([1, 1, 0], [1, 0, 1], Ok([2, 1, 1])),
        (
            [0, half, half],
            [2, half, half],
            Err(Overflow {
                edge: 1,
                value: 1 << 126,
            }),
        ),
    ] {
        let other = Coords::new(&atlas, base, &second)?;
        let mut coords = Coords::new(&atlas, base, &first)?;
        let added = coords.try_add(&other);
        assert_eq!(rt; added.err(), sum.err());
        assert_eq!(rt; coords.values(), sum.unwrap_or(first).as_slice());
    }
    for (first, second, rest) in [
        ([3, 3, 2], [1, 1, 0], Some([2, 2, 2])),
        ([1, 0, 1], [1, 1, 0], None),
        ([2, 1, 1], [0, 1, 1], None),
    ] {
        let other = Coords::new(&atlas, base, &second)?;
        let mut coords = Coords::new(&atlas, base, &first)?;
        let taken = coords.try_sub(&atlas, &other);
        assert_eq!(rt; taken.err(), rest.is_none().then_some(NotMulticurve));
        assert_eq!(rt; coords.values(), rest.unwrap_or(first).as_slice());
    }
    Ok(())
}

#[test]
fn paths(rt: HostRuntime) -> Result<(), Fail> {
    // a Dehn twist of the torus, and a path: a flip, the same backwards, and the twist four times
    let torus = Tri::from_triples(&TORUS)?;
    let mut atlas = Atlas::new(rt.alloc(), torus)?;
    let base = atlas.base();
    let edge = atlas.edge(base, 0).expect(&rt, "a label");
    let f = flip(&mut atlas, edge)?;
    let after = atlas.target(f);
    assert_eq!(rt; atlas.tri(after).edges(), torus.edges());
    let turn = Relabelling::from_list(atlas.tri(after), &torus, &[2, 1, -1])?;
    let m = push(&mut atlas, after, base, &turn)?;
    let mut twist = Path::new(rt.alloc(), base);
    twist.push(&atlas, f)?;
    twist.push(&atlas, m)?;
    let mut path = Path::new(rt.alloc(), base);
    path.push(&atlas, f)?;
    path.push(&atlas, atlas.back(f))?;
    path.append(&twist)?;
    path.append(&twist)?;
    path.append(&twist)?;
    path.append(&twist)?;
    let back = path.inverse(rt.alloc(), &atlas)?;
    let quarter = 1 << 124;
    for (values, moved) in [
        ([1, 1, 0], Ok([3, 1, 4])),
        (
            [quarter, quarter, 0],
            Err(OverflowAt {
                flip: 6,
                edge: 0,
                value: 1 << 126,
            }),
        ),
    ] {
        let mut coords = Coords::new(&atlas, base, &values)?;
        let followed = coords.follow(&atlas, &path);
        assert_eq!(rt; followed.err(), moved.err());
        assert_eq!(rt; coords.values(), moved.unwrap_or(values).as_slice());
        if followed.is_ok() {
            coords.follow(&atlas, &back)?;
            assert_eq!(rt; coords.values(), values.as_slice());
        }
    }
    Ok(())
}
