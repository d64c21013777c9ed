//! Curves made short by flips: the descent.
//!
//! A curve of a triangulation that runs round no vertex is made short by flips, each of which lowers
//! the total of its coordinates, or keeps it and lets the next lower it (Mosher; Bell). Where that
//! ends at the total 2, the curve runs along an annulus of two triangles, and its Dehn twist is one
//! flip and one relabelling there. `descend` makes this path. It promises that a curve is refused
//! exactly for its first fault: too large a total, not one curve, a curve round a vertex, a descent
//! that ends above 2; and that otherwise the path is the stated one, and its end has the total 2.
//!
//! The definitions stand in `specs/`: `Descents`, `ShortCurves`, the twist along a descent in
//! `Twists`, and what flips keep of corners in `FlippedCornerLaws`.
#![tactic(auto)]

mod corner_laws;
mod rounds;
mod short;
#[cfg(test)]
mod tests;

pub use corner_laws::flipped_corner_laws;
pub use short::{Short, ShortError, descend};
