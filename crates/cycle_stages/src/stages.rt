//! The stages of a cycle: the last of its first images under the word that stays small, and flips of
//! the edges that it crosses most.
//!
//! Under a pseudo-Anosov map the images of a curve come near the stable foliation, and flips of the
//! edges of greatest number follow the splittings of a train track that carries it (Penner and Harer).
ghost use Rattle.std.specs.Prelude.{◌≡◌, ◌<◌, ◌≤◌, ◌+◌, ◌↔◌, ℕ, pos, length, true, IsTrue, All};
ghost use Rattle.std.specs.Prelude.{IfOk, OnOk, OnErr, IfSome, IfNone};
ghost use Rattle.ideal_tri.specs.Labels.{edge_of};
ghost use Rattle.ideal_tri.specs.Triangulations.{edge_count};
ghost use Rattle.ideal_tri.specs.Vectors.{weight, IsMulticurve};
ghost use Rattle.tri_atlas.specs.Arena.{triangulation, Grows, IsEdgeIn, IsTriIn, flip_of};
ghost use Rattle.tri_atlas.specs.MovedVectors.{IsOver};
ghost use Rattle.tri_atlas.specs.Paths.{moves_of, empty_path};
ghost use Rattle.edge_coords.specs.Coordinates.{AreCoordinatesIn, AreSmall};
ghost use Rattle.edge_coords.specs.declared.coords.TheConstants.{COORDINATE_LIMIT};
ghost use Rattle.surface_lib.specs.Surfaces.{IsLoop};
ghost use Rattle.tri_atlas.specs.FlipPaths.{IsFlippableEdge};
ghost use Rattle.cycle_stages.specs.Stages.{IsGreatest, HasNoNext};
ghost use Rattle.cycle_stages.specs.KeptStages.{there, IsKept, IsStageIn, IsSame, IsDeeper};
ghost use Rattle.cycle_stages.specs.KeptStages.{HasMade};
ghost use Rattle.cycle_stages.specs.FlippedStages.{HasFlipped, HasSmallFlip, IsFlippedOn};
ghost use Rattle.cycle_stages.specs.inside.NextFlips.{IsLastImage, IsFound, IsNext, number_flipped};
ghost use Rattle.cycle_stages.specs.inside.NextFlips.{IsFlipIn, sum_beside};

use edge_coords::{COORDINATE_LIMIT, Coords};
use flip_move::{FlipError, flip};
use ideal_tri::{Label, Memory, Tri, flip_laws, label_laws, surface_laws};
use multicurve_cert::power_laws;
use std::alloc::Global;
use tri_atlas::{Atlas, EdgeId, MoveId, Path, TriId, atlas_laws, map_laws, vector_laws};

/// The most times that the word is taken.
const IMAGE_LIMIT: u32 = 12;

/// A stage of a cycle.
#[derive(Drop)]
pub struct Stage {
    /// The flips, from the base on.
    pub path: Path,
    /// The numbers of their edges, in order.
    pub edges: Vec<u32>,
    /// The coordinates where they end.
    pub coords: Coords,
}

/// The first stage of a cycle with these coordinates at the base: the last of its first images under
/// the word that stays small, without flips. It takes no memory.
pub fn first_stage(alloc: Global, atlas: &Atlas, word: &Path, w: &Coords) -> Stage
    requires closed { IsLoop atlas.now word.now }
    requires coordinates { AreCoordinatesIn atlas.now w.now }
    requires base { w.now.tri ≡ 0 }
    ensures kept { IsKept atlas.now result }
    ensures start { result.path ≡ empty_path 0 }
    ensures base { result.coords.tri ≡ 0 }
    ensures stage { IsStageIn atlas.now (triangulation atlas.now 0) (moves_of atlas.now word.now)
        w.now.numbers 0 result }
{
    let base = atlas.base();
    Stage {
        path: Path::new(alloc, base),
        edges: Vec::new(alloc),
        coords: last_image(atlas, word, w),
    }
}

/// The image of coordinates under the word, taken as often as it stays small, at most 12 times.
fn last_image(atlas: &Atlas, word: &Path, w: &Coords) -> Coords
    requires closed { IsLoop atlas.now word.now }
    requires coordinates { AreCoordinatesIn atlas.now w.now }
    requires base { w.now.tri ≡ 0 }
    ensures here { AreCoordinatesIn atlas.now result }
    ensures base { result.tri ≡ 0 }
    ensures last { IsLastImage (triangulation atlas.now 0) (moves_of atlas.now word.now)
        w.now.numbers result.numbers }
{
    power_laws(atlas, word);
    let mut image = *w;
    for _ in 0..IMAGE_LIMIT {
        match image.follow(atlas, word) {
            Ok(()) => {}
            Err(_) => return image,
        }
    }
    image
}

/// One greatest flip more, and whether it was made: none is where no edge can be flipped, or where
/// the new number would be 2^126 or more. Then all deeper stages are the same. Where memory is
/// wanting, the stage is as it was.
pub fn deepen(atlas: &mut Atlas, stage: &mut Stage) -> Result<bool, Memory>
    requires { IsKept atlas.old stage.old }
    ensures made { IfOk result (λ made. HasMade made atlas.old stage.old stage.new) }
    ensures deeper { OnOk result (IsDeeper atlas.old stage.old atlas.new stage.new) }
    ensures unchanged { OnErr result (IsSame stage.old stage.new) }
    ensures kept { IsKept atlas.new stage.new }
    ensures grows { Grows atlas.old atlas.new }
    ensures few { length atlas.new.triangulations ≤ length atlas.old.triangulations + 1 }
{
    atlas_laws();
    match next_flip(atlas.tri(stage.coords.tri()), stage.coords.values()) {
        Some(e) => {
            flip_edge(atlas, stage, e)?;
            Ok(true)
        }
        None => Ok(false),
    }
}

/// One flip more, of this edge, and whether it was made: none is where one triangle is on both sides of
/// the edge, where there is no such edge, or where the new number would be 2^126 or more. Where none
/// is made or memory is wanting, the stage is as it was.
pub fn flip_on(atlas: &mut Atlas, stage: &mut Stage, e: u64) -> Result<bool, Memory>
    requires { IsKept atlas.old stage.old }
    ensures made { IfOk result (λ made. HasFlipped made atlas.old stage.old atlas.new stage.new e) }
    ensures unchanged { OnErr result (IsSame stage.old stage.new) }
    ensures kept { IsKept atlas.new stage.new }
    ensures grows { Grows atlas.old atlas.new }
{
    atlas_laws();
    if !has_small_flip(atlas.tri(stage.coords.tri()), stage.coords.values(), e) {
        return Ok(false);
    }
    flip_edge(atlas, stage, e as u32)?;
    Ok(true)
}

/// Whether an edge can be flipped, and its new number stays below 2^126.
fn has_small_flip(tri: &Tri, w: &[u128], e: u64) -> bool
    requires multicurve { IsMulticurve tri.now w.now }
    requires small { AreSmall w.now }
    ensures { IsTrue result ↔ HasSmallFlip tri.now w.now e }
{
    if e >= u64::from(tri.edges()) {
        return false;
    }
    let e = e as u32;
    is_flippable(tri, e) && is_small_flip(tri, w, e)
}

/// Whether the flip of an edge gives it a number below 2^126.
fn is_small_flip(tri: &Tri, w: &[u128], e: u32) -> bool
    requires multicurve { IsMulticurve tri.now w.now }
    requires small { AreSmall w.now }
    requires flippable { IsFlippableEdge tri.now e }
    ensures { IsTrue result ↔ (¬ IsOver COORDINATE_LIMIT (flip_of tri.now (pos e)) w.now) }
{
    number_flipped(tri, w, e) < COORDINATE_LIMIT
}

/// Flips an edge whose new number stays below 2^126, and takes the stage across. Where memory is
/// wanting, the stage is as it was.
fn flip_edge(atlas: &mut Atlas, stage: &mut Stage, e: u32) -> Result<(), Memory>
    requires kept { IsKept atlas.old stage.old }
    requires can { HasSmallFlip (there atlas.old stage.old) stage.old.coords.numbers e }
    ensures flipped { OnOk result (IsFlippedOn atlas.old stage.old atlas.new stage.new e) }
    ensures unchanged { OnErr result (IsSame stage.old stage.new) }
    ensures kept { IsKept atlas.new stage.new }
    ensures grows { Grows atlas.old atlas.new }
    ensures few { length atlas.new.triangulations ≤ length atlas.old.triangulations + 1 }
{
    atlas_laws();
    // room for the edge's number, before anything changes
    stage.edges.reserve(1)?;
    let m = flip_in(atlas, stage.coords.tri(), e)?;
    stage.path.push(atlas, m)?;
    stage.edges.push_reserved(e);
    let Ok(()) = stage.coords.apply_move(atlas, m) else {
        unreachable!()
    };
    Ok(())
}

/// Flips an edge of a triangulation of the atlas, and answers the move.
fn flip_in(atlas: &mut Atlas, t: TriId, e: u32) -> Result<MoveId, Memory>
    requires here { IsTriIn atlas.old t }
    requires flippable { IsFlippableEdge (triangulation atlas.old t) e }
    ensures flipped { IfOk result (IsFlipIn atlas.old atlas.new t e) }
    ensures grows { Grows atlas.old atlas.new }
    ensures few { length atlas.new.triangulations ≤ length atlas.old.triangulations + 1 }
{
    let edge = edge_in(atlas, t, e);
    match flip(atlas, edge) {
        Ok(m) => Ok(m),
        Err(FlipError::Memory) => Err(Memory),
        Err(FlipError::NotFlippable) => unreachable!(),
    }
}

/// An edge of a triangulation of the atlas, by its label that isn't negative.
fn edge_in(atlas: &Atlas, t: TriId, e: u32) -> EdgeId
    requires here { IsTriIn atlas.now t }
    requires edge { e < edge_count (triangulation atlas.now t) }
    ensures value { result ≡ record { tri = t; label = pos e } }
    ensures here { IsEdgeIn atlas.now result }
{
    // there are at most `EDGES` edges
    let _ = atlas.tri(t).edges();
    let Some(edge) = atlas.edge(t, e as i32) else {
        unreachable!()
    };
    edge
}

/// The edge that is flipped next: the greatest, where its new number is below 2^126.
fn next_flip(tri: &Tri, w: &[u128]) -> Option<u32>
    requires multicurve { IsMulticurve tri.now w.now }
    requires small { AreSmall w.now }
    ensures some { IfSome result (IsNext tri.now w.now) }
    ensures none { IfNone result (HasNoNext tri.now w.now) }
{
    let e = greatest(tri, w)?;
    if number_flipped(tri, w, e) >= COORDINATE_LIMIT {
        return None;
    }
    Some(e)
}

/// The flippable edge of the greatest number, the least one of these.
fn greatest(tri: &Tri, w: &[u128]) -> Option<u32>
    requires { length w.now ≡ edge_count tri.now }
    ensures some { IfSome result (IsGreatest tri.now w.now) }
    ensures none { IfNone result ((e : ℕ) → ¬ IsFlippableEdge tri.now e) }
{
    let mut best = None;
    for e in 0..tri.edges() {
        best = greater(tri, w, e, best);
    }
    best
}

/// The greatest edge, with one more edge looked at.
fn greater(tri: &Tri, w: &[u128], e: u32, best: Option<u32>) -> Option<u32>
    requires one_per_edge { length w.now ≡ edge_count tri.now }
    requires edge { e < edge_count tri.now }
    requires before { IsFound tri.now w.now e best }
    ensures { IsFound tri.now w.now (e + 1) result }
{
    if !is_flippable(tri, e) {
        return best;
    }
    match best {
        Some(f) if w[e as usize] <= w[f as usize] => best,
        _ => Some(e),
    }
}

/// Whether an edge lies between two different triangles.
fn is_flippable(tri: &Tri, e: u32) -> bool
    requires { e < edge_count tri.now }
    ensures { IsTrue result ↔ IsFlippableEdge tri.now e }
{
    tri.flippable(label_of(tri, e))
}

/// The number that the flip of an edge gives it: the greater of the two sums of opposite sides of
/// its quadrilateral, less its number.
fn number_flipped(tri: &Tri, w: &[u128], e: u32) -> u128
    requires multicurve { IsMulticurve tri.now w.now }
    requires small { AreSmall w.now }
    requires flippable { IsFlippableEdge tri.now e }
    ensures { result ≡ number_flipped tri.now w.now e }
{
    flip_law(tri, w, e);
    let x = label_of(tri, e);
    let (a, c) = (tri.next(x), tri.next(x.inverse()));
    let (b, d) = (tri.next(a), tri.next(c));
    let first = weight(w, a) + weight(w, c);
    let second = weight(w, b) + weight(w, d);
    first.max(second) - w[e as usize]
}

/// What is proved of the flip of an edge.
fn flip_law(tri: &Tri, w: &[u128], e: u32)
    requires multicurve { IsMulticurve tri.now w.now }
    requires flippable { IsFlippableEdge tri.now e }
    ensures within { e < length w.now }
    ensures enough { weight w.now (pos e) ≤ sum_beside tri.now w.now e }
{
    let _ = tri.edges();
    label_laws();
    surface_laws();
    map_laws();
    vector_laws();
}

/// The label of an edge that isn't negative.
fn label_of(tri: &Tri, e: u32) -> Label
    requires { e < edge_count tri.now }
    ensures { result ≡ pos e }
{
    // there are at most `EDGES` edges
    let _ = tri.edges();
    Label::new(e as i32)
}

/// The number at the edge of a label.
fn weight(w: &[u128], x: Label) -> u128
    requires small { AreSmall w.now }
    requires inside { edge_of x < length w.now }
    ensures value { result ≡ weight w.now x }
    ensures small { result < COORDINATE_LIMIT }
{
    w[x.edge() as usize]
}
