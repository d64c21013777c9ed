//! Triangulations and the moves between them.
//!
//! An `Atlas` is an arena of triangulations, of flips and of relabellings that only grows. Its
//! triangulations, edges and moves are named by handles, which an atlas alone makes; each call that
//! takes one has the condition that it is of this atlas, and an edge is read only at its own
//! triangulation: `Atlas::carry` alone brings it across a move. A `Path` is a list of moves, each
//! starting where the one before ended.
//!
//! A flip of the once-punctured torus, and back:
//!
//! ```text
//! let torus = Tri::from_triples(&[[0, 1, 2], [-1, -2, -3]])?;
//! let flipped = torus.flipped(Label::new(0));
//! let mut atlas = Atlas::new(alloc, torus)?;
//! let base = atlas.base();
//! atlas.reserve(1)?;
//! if let Some(e) = atlas.edge(base, 0) {
//!     let m = atlas.push_flip(e, flipped);
//!     let mut path = Path::new(alloc, base);
//!     path.push(&atlas, m)?;
//!     path.push(&atlas, atlas.back(m))?; // path.end() is base again, and path.flips(&atlas) is 2
//! }
//! ```
//!
//! What contracts see of an atlas and its handles stands in `specs/Arena.antt`, of paths in
//! `specs/Paths.antt`; moves and their maps stand in `specs/Moves.antt` and `specs/Maps.antt`, the
//! vectors of multicurves after moves in `specs/MovedVectors.antt`, and what is proved of all these
//! in `specs/MapLaws.antt`, `specs/AtlasLaws.antt` and `specs/VectorLaws.antt`: the last has the
//! theorem of one move and of a path. `specs/inside` serves the private fields and functions alone.
#![tactic(auto)]

mod atlas;
mod curve_laws;
mod handles;
mod laws;
mod path;
mod step;
#[cfg(test)]
mod tests;

pub use atlas::Atlas;
pub use curve_laws::vector_laws;
pub use handles::{EdgeId, MoveId, TriId};
pub use laws::{atlas_laws, map_laws};
pub use path::Path;
pub use step::{Carried, Step};
