//! The search for the least inner power of a path, which decides whether a mapping class is
//! periodic.
//!
//! A mapping class is periodic where one of its powers is trivial; the class of a path from a
//! triangulation to itself is trivial exactly where the map of the path is inner (Farb and Margalit,
//! chapters 8 and 13). `powers` follows the path once per power with one map, and stops at the first
//! inner power. It promises that the order it gives is the least inner power, with the only reduced
//! walks by which it is inner; that each smaller power is refuted by the first of the test walks
//! that it moves; and that it gives up exactly where the limit is reached, or a map has more letters
//! than the cap after some move.
//!
//! The definitions stand in `specs/PowerAnswers.antt`, over those of powers and inner maps in
//! `free_groupoid`.
//!
//! ```text
//! match powers(alloc, &atlas, &path, 48, 262_144)? {
//!     PowerAnswer::Order { k, paths, reasons } => ..  // k - 1 reasons
//!     PowerAnswer::Capped { power, letters, reasons } => ..
//!     PowerAnswer::AllRefuted { reasons } => ..       // one for each power up to 48
//! }
//! ```
#![tactic(auto)]

mod power_search;

pub use power_search::{PowerAnswer, powers};

#[cfg(test)]
mod tests;
