//! Further candidates for a multicurve that a word fixes: the curves about the light edges of a stage.
//!
//! A reducible mapping class fixes a multicurve (Farb and Margalit, chapter 13). On its components it
//! moves curves at different rates, so at a stage of a cycle some edges have numbers that are small
//! beside others. An edge is light where the square of its number is at most the greatest number of
//! the stage. The candidate crosses no light edge, and each other edge once near each end where a
//! light edge ends too: it bounds what the light edges fill. It is carried back to the base by the
//! stage's flips, and the curves round vertices are taken off there.
//!
//! `search_light` tries the candidates of the depths 0 to 55 in order. It promises that `Found` has the
//! first that passes all tests, a multicurve below 2^126 with a free corner at each vertex; and that
//! `None` has a line for each candidate, the first test that it fails.
//!
//! The definitions stand in `specs/LightCurves.antt`. `specs/inside` serves private functions alone.
//!
//! ```text
//! match search_light(alloc, &atlas, &path, &stages)? {
//!     Curves::Found { number, coords } => ..
//!     Curves::None { log } => ..   // 56 lines
//! }
//! ```
#![tactic(auto)]

mod candidates;
mod curves_about;
mod light_search;
mod touched_vertices;

pub use light_search::search_light;

#[cfg(test)]
mod tests;
