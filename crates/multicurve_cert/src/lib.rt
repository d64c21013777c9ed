//! The search for a multicurve that a word fixes, which decides whether a mapping class is reducible.
//!
//! A mapping class is reducible where it fixes a multicurve none of whose curves runs round a vertex
//! (Farb and Margalit, chapter 13). The candidates here are made of the cycles of the dual graph, the
//! closed walks of at most eight letters that visit no triangle twice: sums of a cycle and its first
//! images under the word, and differences of two images, each without the curves round vertices.
//! `search` tries them in order. It promises that `Found` has the first candidate within the budget
//! that passes all tests; that it is a multicurve below 2^126 with a free corner at each vertex; and
//! that `None` has a line for each candidate, the first test that it fails. `cycles` gives exactly the
//! cycles, in their order, and `cycle_coords` how often one crosses each edge: a multicurve.
//! `test_fixed` makes the last tests of a candidate that was made in another way.
//!
//! The definitions stand in `specs/`: `Cycles`, `Candidates` (how they are made, and their tests),
//! `LastTests` and `CurveAnswers`; what holds of the images of multicurves under powers in
//! `PowerLaws`. `specs/inside` serves private functions alone.
//!
//! ```text
//! match search(alloc, &atlas, &path, 256)? {
//!     Curves::Found { number, coords } => ..
//!     Curves::None { log } => ..   // a line for each candidate
//! }
//! ```
#![tactic(auto)]

mod candidates;
mod curve_search;
mod cycle_law;
mod cycle_list;
mod cycle_test;
mod cycle_vectors;
mod images;
mod last_tests;
mod least_words;
mod power_law;
#[cfg(test)]
mod search_tests;
#[cfg(test)]
mod tests;

pub use curve_search::{Curves, search};
pub use cycle_list::cycles;
pub use cycle_vectors::cycle_coords;
pub use last_tests::test_fixed;
pub use power_law::power_laws;
