//! Flips of edges in an atlas.
//!
//! A flip takes away the edge between two triangles and puts the other diagonal of their
//! quadrilateral in its place. This layer flips an edge of an atlas by its handle: it keeps the
//! flipped triangulation and the move that leads there, with the four sides of the quadrilateral.
//! It promises that an edge is refused exactly where it is folded, one triangle being on both its
//! sides; that memory is wanted only where there is no room; and that a refusal leaves the atlas
//! as it was.
//!
//! ```text
//! let mut atlas = Atlas::new(alloc, Tri::from_triples(&[[0, 1, 2], [-1, -2, -3]])?)?;
//! let base = atlas.base();
//! if let Some(e) = atlas.edge(base, 0) {
//!     let m = flip(&mut atlas, e)?; // atlas.target(m) is the flipped triangulation
//! }
//! ```
//!
//! What a flip adds to an atlas stands in `specs/Flipped.antt`; the flipped triangulation in
//! `specs/Flips.antt` of the layer of triangulations.
#![tactic(auto)]

ghost use Rattle.std.specs.Prelude.{◌≡◌, ◌<◌, IfOk, OnOk, IfErr, OnErr};
ghost use Rattle.tri_atlas.specs.Arena.{IsEdgeIn, Grows};
ghost use Rattle.flip_move.specs.Flipped.{IsFlippableIn, IsFlipped, IsRefusedFor};

use tri_atlas::{Atlas, EdgeId, MoveId, atlas_laws};

#[cfg(test)]
mod tests;

/// Why an edge isn't flipped. The test for `NotFlippable` comes first.
#[derive(Clone, Copy, Debug, PartialEq, Eq)]
pub enum FlipError {
    /// The edge is folded: the same triangle is on both its sides.
    NotFlippable,
    /// No memory was found.
    Memory,
}

/// Flips an edge of the atlas, and answers the move, forwards. Where it refuses, the atlas stays as
/// it was. It wants memory only where there is no room for a push.
pub fn flip(atlas: &mut Atlas, e: EdgeId) -> Result<MoveId, FlipError>
    requires here { IsEdgeIn atlas.old e }
    ensures accepted { IfOk result (λ m. IsFlipped atlas.old atlas.new e m) }
    ensures flippable { OnOk result (IsFlippableIn atlas.old e) }
    ensures refused { IfErr result (IsRefusedFor atlas.old e) }
    ensures unchanged { OnErr result (atlas.new ≡ atlas.old) }
    ensures grows { Grows atlas.old atlas.new }
{
    // an atlas with room and one more move begins as the atlas did
    atlas_laws();
    if !atlas.tri(e.tri()).flippable(e.label()) {
        return Err(FlipError::NotFlippable);
    }
    if atlas.reserve(1).is_err() {
        return Err(FlipError::Memory);
    }
    Ok(flip_reserved(atlas, e))
}

/// Flips an edge that can be flipped, where there is room for a push, and answers the move,
/// forwards. It takes no memory.
pub fn flip_reserved(atlas: &mut Atlas, e: EdgeId) -> MoveId
    requires here { IsEdgeIn atlas.old e }
    requires flippable { IsFlippableIn atlas.old e }
    requires room { 0 < atlas.old.spare }
    ensures { IsFlipped atlas.old atlas.new e result }
{
    let after = atlas.tri(e.tri()).flipped(e.label());
    atlas.push_flip(e, after)
}
