//! Dehn twists about curves, as paths of moves.
//!
//! The twist about a curve is made at the end of its descent, where the curve runs along an annulus of
//! two triangles: one flip and one relabelling there, between the descent and the descent backwards.
//! This layer promises that the path has exactly these steps; that its map is the twist of Farb and
//! Margalit (chapter 3), carried back along the descent; that it fixes the curve; and that a curve is
//! refused exactly for its first fault.
//!
//! The definitions stand in `specs/`: `TwistPaths` (the steps) and `TwistLaws` (what they do).
#![tactic(auto)]

mod compiler;
mod end_steps;
#[cfg(test)]
mod file_tests;
mod laws;
#[cfg(test)]
mod relation_tests;
#[cfg(test)]
mod tests;
mod twist_path;

pub use compiler::Compiler;
pub use laws::twist_laws;
pub use twist_path::{TwistParts, twist, twist_parts};
