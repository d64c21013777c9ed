//! The steps of a twist at the end of the descent, where the curve has the total 2.
ghost use Rattle.std.specs.Prelude.{◌≡◌, ◌⊎◌, ◌<◌, ◌≤◌, pos, IfOk, length, sum, slice_index};
ghost use Rattle.ideal_tri.specs.Labels.{edge_of, inverse};
ghost use Rattle.ideal_tri.specs.Triangulations.{IsLabel, IsTriangulation, edge_count, triangle_of};
ghost use Rattle.ideal_tri.specs.Flips.{IsFlippable, flipped};
ghost use Rattle.ideal_tri.specs.Relabellings.{IsRelabelling};
ghost use Rattle.tri_atlas.specs.Arena.{triangulation, IsTriIn, Grows};
ghost use Rattle.tri_atlas.specs.Paths.{IsPathIn, moves_of};
ghost use Rattle.flip_move.specs.Flipped.{IsFlipped};
ghost use Rattle.relabel.specs.Pushed.{IsPushed};
ghost use Rattle.edge_coords.specs.Coordinates.{AreCoordinatesIn};
ghost use Rattle.curve_shorten.specs.Twists.{IsAnnulus};
ghost use Rattle.twist_compile.specs.TwistPaths.{exchanged, exchange_images};
ghost use Rattle.twist_compile.specs.inside.EndSteps.{HasTotalTwo, end_moves};

use edge_coords::Coords;
use flip_move::{FlipError, flip};
use ideal_tri::{
    EDGES, Label, Memory, Tri, bijection_laws, drawing_laws, flip_laws, hit_laws, label_laws,
    relabelling_laws, surface_laws, triple_laws,
};
use relabel::{Relabelling, push};
use std::alloc::Global;
use tri_atlas::{Atlas, MoveId, Path, TriId, atlas_laws};

/// The first edge that is crossed.
fn crossed_edge(w: &[u128]) -> usize
    requires { sum w.now ≡ 2 }
    ensures within { result < length w.now }
    ensures crossed { 0 < slice_index w.now result }
{
    for e in 0..w.len() {
        if w[e] > 0 {
            return e;
        }
    }
    unreachable!()
}

/// The labels p and q of the annulus along which a curve with the total 2 runs: the two sides that it
/// crosses in one triangle, q after p. Another triangle has the inverse labels; this one has the
/// lesser number.
pub fn annulus(tri: &Tri, w: &[u128]) -> (Label, Label)
    requires sound { IsTriangulation tri.now }
    requires few { edge_count tri.now ≤ EDGES }
    requires two { HasTotalTwo tri.now w.now }
    ensures { IsAnnulus tri.now w.now result.0 result.1 }
{
    drawing_laws();
    label_laws();
    surface_laws();
    let crossed = Label::new(crossed_edge(w) as i32);
    let x = in_first_triangle(tri, crossed);
    let y = tri.next(x);
    if w[y.edge() as usize] > 0 {
        (x, y)
    } else {
        (tri.next(y), x)
    }
}

/// Whichever of a label and its inverse lies in the triangle with the lesser number.
fn in_first_triangle(tri: &Tri, x: Label) -> Label
    requires label { IsLabel tri.now x }
    ensures side { (result ≡ x) ⊎ (result ≡ inverse x) }
    ensures first { triangle_of tri.now result ≤ triangle_of tri.now (inverse result) }
{
    label_laws();
    if tri.place(x).0 <= tri.place(x.inverse()).0 {
        x
    } else {
        x.inverse()
    }
}

/// Where a label goes: q to p, and p to ~q; the labels of all other edges stay.
fn exchanged(p: Label, q: Label, x: Label) -> Label
    ensures { result ≡ exchanged p q x }
{
    if x == q {
        p
    } else if x == q.inverse() {
        p.inverse()
    } else if x == p {
        q.inverse()
    } else if x == p.inverse() {
        q
    } else {
        x
    }
}

/// The images of the labels 0, 1, .. of the triangulation.
pub fn exchange(alloc: Global, tri: &Tri, p: Label, q: Label) -> Result<Vec<i32>, Memory>
    ensures { IfOk result (λ images. images.items ≡ exchange_images tri.now p q) }
{
    let mut images = Vec::new(alloc);
    for e in 0..tri.edges() {
        images.push(exchanged(p, q, Label::new(e as i32)).get())?;
    }
    Ok(images)
}

/// The edge of q can be flipped, and the exchange takes the triangles behind that flip to those
/// before it.
fn exchange_carries(tri: &Tri, w: &[u128], p: Label, q: Label)
    requires sound { IsTriangulation tri.now }
    requires two { HasTotalTwo tri.now w.now }
    requires annulus { IsAnnulus tri.now w.now p q }
    ensures label { IsLabel tri.now (pos (edge_of q)) }
    ensures flippable { IsFlippable tri.now (pos (edge_of q)) }
    ensures carries { IsRelabelling (flipped tri.now (pos (edge_of q))) tri.now
        (exchange_images tri.now p q) }
{
    bijection_laws();
    drawing_laws();
    flip_laws();
    hit_laws();
    label_laws();
    surface_laws();
    triple_laws();
}

/// The flip of the edge of q.
fn push_flip(atlas: &mut Atlas, t: TriId, q: Label) -> Result<MoveId, Memory>
    requires here { IsTriIn atlas.old t }
    requires label { IsLabel (triangulation atlas.old t) (pos (edge_of q)) }
    requires flippable { IsFlippable (triangulation atlas.old t) (pos (edge_of q)) }
    ensures accepted { IfOk result (IsFlipped atlas.old atlas.new
        (record { tri = t; label = pos (edge_of q) })) }
    ensures grows { Grows atlas.old atlas.new }
{
    let Some(e) = atlas.edge(t, q.edge() as i32) else {
        unreachable!()
    };
    match flip(atlas, e) {
        Ok(m) => Ok(m),
        Err(FlipError::Memory) => Err(Memory),
        Err(FlipError::NotFlippable) => unreachable!(),
    }
}

/// The relabelling with these images.
fn push_images(atlas: &mut Atlas, from: TriId, to: TriId, images: &[i32]) -> Result<MoveId, Memory>
    requires from { IsTriIn atlas.old from }
    requires to { IsTriIn atlas.old to }
    requires carries { IsRelabelling (triangulation atlas.old from) (triangulation atlas.old to)
        images.now }
    ensures accepted { IfOk result (IsPushed atlas.old atlas.new from to images.now) }
    ensures grows { Grows atlas.old atlas.new }
{
    relabelling_laws();
    match Relabelling::from_list(atlas.tri(from), atlas.tri(to), images) {
        Ok(r) => push(atlas, from, to, &r),
        Err(_) => unreachable!(),
    }
}

/// The path of the two steps: the flip of the edge of q, and the exchange back.
pub fn end_path(
    alloc: Global,
    atlas: &mut Atlas,
    at: &Coords,
    p: Label,
    q: Label,
) -> Result<Path, Memory>
    requires here { AreCoordinatesIn atlas.old at.now }
    requires two { HasTotalTwo (triangulation atlas.old at.now.tri) at.now.numbers }
    requires annulus { IsAnnulus (triangulation atlas.old at.now.tri) at.now.numbers p q }
    ensures path { IfOk result (IsPathIn atlas.new) }
    ensures start { IfOk result (λ path. path.start ≡ at.now.tri) }
    ensures end { IfOk result (λ path. path.end ≡ at.now.tri) }
    ensures moves { IfOk result (λ path. moves_of atlas.new path
        ≡ end_moves (triangulation atlas.old at.now.tri) p q) }
    ensures grows { Grows atlas.old atlas.new }
{
    // what is of an atlas stays as it grows
    atlas_laws();
    let t = at.tri();
    exchange_carries(atlas.tri(t), at.values(), p, q);
    let images = exchange(alloc, atlas.tri(t), p, q)?;
    let m = push_flip(atlas, t, q)?;
    let after = atlas.target(m);
    let n = push_images(atlas, after, t, &images)?;
    let mut path = Path::new(alloc, t);
    path.push(atlas, m)?;
    path.push(atlas, n)?;
    Ok(path)
}
