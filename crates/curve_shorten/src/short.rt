//! The descent of a curve.
ghost use Rattle.std.specs.Prelude.{◌≡◌, ◌≢◌, ◌<◌, ◌≤◌, pos, sum, All, IfOk, IfErr, OnOk};
ghost use Rattle.ideal_tri.specs.Triangulations.{edge_count};
ghost use Rattle.ideal_tri.specs.PeripheralParts.{HasFreeCorners};
ghost use Rattle.tri_atlas.specs.Arena.{triangulation, IsTriIn, IsEdgeIn, Grows};
ghost use Rattle.edge_coords.specs.Coordinates.{AreCoordinatesIn};
ghost use Rattle.curve_shorten.specs.Descents.{total_flipped, HasNoLower};
ghost use Rattle.tri_atlas.specs.FlipPaths.{IsFlippableEdge};
ghost use Rattle.curve_shorten.specs.ShortCurves.{IsSmall, IsOneCurve, IsRefusedFor, IsShort};
ghost use Rattle.curve_shorten.specs.inside.States.{there, IsState, IsAfterFlip, IsAfterBest};
ghost use Rattle.curve_shorten.specs.inside.States.{IsAfterLevel, IsRound, IsEnd, IsFlipIn};

use crate::corner_laws::flipped_corner_laws;
use crate::rounds::{best, first_level};
use edge_coords::Coords;
use flip_move::{FlipError, flip};
use ideal_tri::{Memory, drawing_laws, flip_laws};
use std::alloc::Global;
use strand_draw::{DrawError, is_one_curve};
use tri_atlas::{Atlas, EdgeId, MoveId, Path, TriId, atlas_laws, map_laws, vector_laws};

/// The largest total of a curve.
const TOTAL_LIMIT: u64 = 4096;

/// A curve made short: the path that makes it so, and the curve at its end.
#[derive(Drop)]
pub struct Short {
    /// The flips from the curve's triangulation on.
    pub path: Path,
    /// The coordinates where they end, with the total 2.
    pub coords: Coords,
}

/// Why a curve isn't made short. The tests are made in this order.
#[derive(Clone, Copy, Debug, PartialEq, Eq)]
pub enum ShortError {
    /// The total of its coordinates is above 4,096.
    TotalOver {
        /// The total, or 2^128 - 1 where it is greater.
        total: u128,
    },
    /// The coordinates aren't those of one curve.
    NotOneCurve,
    /// The curve runs round a vertex.
    Peripheral,
    /// The descent ends with a total above 2.
    Stuck {
        /// The coordinates where it ends.
        at: Coords,
    },
    /// No memory was found.
    Memory,
}

impl From<Memory> for ShortError {
    ghost use Rattle.curve_shorten.specs.declared.short.ShortError.TheVariants.{Memory};

    ghost from_gives = { λ _ e. e ≡ Memory };

    fn from(_: Memory) -> ShortError {
        ShortError::Memory
    }
}

/// Makes a curve short, by flips. A round of the descent flips the edge whose flip lowers the total
/// most, the least one on a tie. Where no flip lowers it, a round flips the least edge whose flip keeps
/// the total and after which some flip lowers it, and then the best edge. It ends at the total 2, or
/// where there is no such round. The atlas keeps the triangulations that were added.
pub fn descend(alloc: Global, atlas: &mut Atlas, curve: &Coords) -> Result<Short, ShortError>
    requires { AreCoordinatesIn atlas.old curve.now }
    ensures accepted { IfOk result (IsShort atlas.old atlas.new curve.now) }
    ensures refused { IfErr result (IsRefusedFor atlas.old atlas.new curve.now) }
    ensures grows { Grows atlas.old atlas.new }
{
    test(alloc, atlas, curve)?;
    let short = shortened(alloc, atlas, curve)?;
    if short.coords.total() > 2 {
        return Err(ShortError::Stuck { at: short.coords });
    }
    Ok(short)
}

/// The tests of a curve, in their order.
fn test(alloc: Global, atlas: &Atlas, curve: &Coords) -> Result<(), ShortError>
    requires { AreCoordinatesIn atlas.now curve.now }
    ensures small { OnOk result (IsSmall curve.now.numbers) }
    ensures one { OnOk result (IsOneCurve (triangulation atlas.now curve.now.tri)
        curve.now.numbers) }
    ensures free { OnOk result (HasFreeCorners (triangulation atlas.now curve.now.tri)
        curve.now.numbers) }
    ensures some { OnOk result (¬ All (λ n. n ≡ 0) curve.now.numbers) }
    ensures refused { IfErr result (IsRefusedFor atlas.now atlas.now curve.now) }
{
    drawing_laws();
    // what is true of every atlas
    let _ = atlas.base();
    match is_one_curve(alloc, atlas, curve, TOTAL_LIMIT) {
        Err(DrawError::TotalOver { total }) => Err(ShortError::TotalOver { total }),
        Err(DrawError::Memory) => Err(ShortError::Memory),
        Ok(false) => Err(ShortError::NotOneCurve),
        Ok(true) => match curve.peripheral_at(atlas) {
            Some(_) => Err(ShortError::Peripheral),
            None => Ok(()),
        },
    }
}

/// The path of the descent of a curve that passes the tests, and its end.
fn shortened(alloc: Global, atlas: &mut Atlas, curve: &Coords) -> Result<Short, Memory>
    requires coordinates { AreCoordinatesIn atlas.old curve.now }
    requires small { IsSmall curve.now.numbers }
    requires free { HasFreeCorners (triangulation atlas.old curve.now.tri) curve.now.numbers }
    requires some { ¬ All (λ n. n ≡ 0) curve.now.numbers }
    ensures end { IfOk result (IsEnd (triangulation atlas.old curve.now.tri) curve.now atlas.new) }
    ensures grows { Grows atlas.old atlas.new }
{
    let mut at = Short {
        path: Path::new(alloc, curve.tri()),
        coords: *curve,
    };
    // each round lowers the total, which is never below 2
    flipped_corner_laws();
    atlas_laws();
    let _ = atlas.base();
    for _ in 2..curve.total() {
        if !round(atlas, &mut at)? {
            return Ok(at);
        }
    }
    Ok(at)
}

/// A round of the descent; false where it has ended.
fn round(atlas: &mut Atlas, at: &mut Short) -> Result<bool, Memory>
    requires { IsState atlas.old at.old }
    ensures round { IfOk result (IsRound atlas.old at.old atlas.new at.new) }
    ensures grows { Grows atlas.old atlas.new }
{
    if at.coords.total() == 2 {
        return Ok(false);
    }
    if flip_best(atlas, at)? {
        return Ok(true);
    }
    flip_level(atlas, at)
}

/// Flips the best edge; false where no flip lowers the total.
fn flip_best(atlas: &mut Atlas, at: &mut Short) -> Result<bool, Memory>
    requires { IsState atlas.old at.old }
    ensures flipped { IfOk result (IsAfterBest atlas.old at.old atlas.new at.new) }
    ensures grows { Grows atlas.old atlas.new }
{
    match best(atlas.tri(at.coords.tri()), at.coords.values()) {
        Some(e) => {
            flip_edge(atlas, at, e)?;
            Ok(true)
        }
        None => Ok(false),
    }
}

/// Where no flip lowers the total, flips the first edge whose flip keeps it and lets another lower
/// it, and then the best edge; false where there is none.
fn flip_level(atlas: &mut Atlas, at: &mut Short) -> Result<bool, Memory>
    requires state { IsState atlas.old at.old }
    requires above { sum at.old.coords.numbers ≢ 2 }
    requires lowest { HasNoLower (there atlas.old at.old) at.old.coords.numbers }
    ensures flipped { IfOk result (IsAfterLevel atlas.old at.old atlas.new at.new) }
    ensures grows { Grows atlas.old atlas.new }
{
    atlas_laws();
    match first_level(atlas.tri(at.coords.tri()), at.coords.values()) {
        Some(e) => {
            flip_edge(atlas, at, e)?;
            flip_best(atlas, at)
        }
        None => Ok(false),
    }
}

/// Flips an edge, and takes the path and the coordinates across.
fn flip_edge(atlas: &mut Atlas, at: &mut Short, e: u32) -> Result<(), Memory>
    requires state { IsState atlas.old at.old }
    requires flippable { IsFlippableEdge (there atlas.old at.old) e }
    requires no_greater { total_flipped (there atlas.old at.old) at.old.coords.numbers e
        ≤ sum at.old.coords.numbers }
    ensures flipped { OnOk result (IsAfterFlip e atlas.old at.old atlas.new at.new) }
    ensures grows { Grows atlas.old atlas.new }
{
    flipped_corner_laws();
    atlas_laws();
    map_laws();
    vector_laws();
    flip_laws();
    let m = flip_in(atlas, at.coords.tri(), e)?;
    at.path.push(atlas, m)?;
    let Ok(()) = at.coords.apply_move(atlas, m) else {
        unreachable!()
    };
    Ok(())
}

/// Flips an edge of a triangulation of the atlas, and answers the move.
fn flip_in(atlas: &mut Atlas, t: TriId, e: u32) -> Result<MoveId, Memory>
    requires here { IsTriIn atlas.old t }
    requires flippable { IsFlippableEdge (triangulation atlas.old t) e }
    ensures flipped { IfOk result (IsFlipIn atlas.old atlas.new t e) }
    ensures grows { Grows atlas.old atlas.new }
{
    let edge = edge_in(atlas, t, e);
    match flip(atlas, edge) {
        Ok(m) => Ok(m),
        Err(FlipError::Memory) => Err(Memory),
        Err(FlipError::NotFlippable) => unreachable!(),
    }
}

/// An edge of a triangulation of the atlas, by its label that isn't negative.
fn edge_in(atlas: &Atlas, t: TriId, e: u32) -> EdgeId
    requires here { IsTriIn atlas.now t }
    requires edge { e < edge_count (triangulation atlas.now t) }
    ensures value { result ≡ record { tri = t; label = pos e } }
    ensures here { IsEdgeIn atlas.now result }
{
    // there are at most `EDGES` edges
    let _ = atlas.tri(t).edges();
    let Some(edge) = atlas.edge(t, e as i32) else {
        unreachable!()
    };
    edge
}
