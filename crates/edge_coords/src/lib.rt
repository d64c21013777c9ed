//! Coordinates of multicurves, and what moves do to them.
//!
//! A multicurve is given at a triangulation by its normal coordinates: one number for each edge, of
//! how often it crosses the edge (Bell's flipper). `Coords` keeps these numbers beside the handle
//! of their triangulation, in fixed memory; no call of this layer takes any. It promises that
//! `Coords::new` takes the vectors of multicurves alone and refuses every other for its first
//! fault; that a move changes the numbers as stated, and a path to the crossings of the images of
//! the curves, cyclically reduced; that a number of 2^126 or more is refused at the first flip that
//! would give it, with the coordinates as they were; and that corner counts, the curves round
//! vertices, sums and differences are exact.
//!
//! A flip of the once-punctured torus, where `m` flips edge 0 of its triangulation `base`:
//!
//! ```text
//! let mut w = Coords::new(&atlas, base, &[1, 1, 0])?;
//! w.apply_move(&atlas, m)?; // w.values() is [1, 1, 0] again, since 1 = max(1 + 1, 0 + 0) - 1
//! w.apply_move(&atlas, atlas.back(m))?;
//! w.total(); // 2
//! ```
//!
//! What contracts see of coordinates stands in `specs/Coordinates.antt`, of moves and paths in
//! `specs/MovedCoordinates.antt`, of vertices and of sums in `specs/PeripheralVertices.antt` and
//! `specs/Sums.antt`, and why numbers are refused in `specs/Refusals.antt`. What a vector's curves
//! and their images are, and the laws of these, are those of the layers below. `specs/inside`
//! serves the private fields and functions alone.
#![tactic(auto)]

mod coords;
mod corners;
mod lines;
mod moves;
mod sums;
#[cfg(test)]
mod tests;

pub use coords::{COORDINATE_LIMIT, Coords, CoordsError};
pub use lines::CurveLine;
pub use moves::{Overflow, OverflowAt};
pub use sums::NotMulticurve;
