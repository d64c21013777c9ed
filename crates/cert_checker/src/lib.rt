//! The check of certificates: whether one that is read holds for a word.
//!
//! A verdict is worth what another reader can make of it. This layer takes a certificate of a word of a
//! surface, however it was made, and tests eighteen rules: those of its kind, in order, each over all its
//! places before the next. It promises that a certificate is accepted exactly where it claims a verdict
//! and holds; that otherwise the first rule that fails is told, with the place where it fails first; and
//! that what is accepted means what the verdict says: the least inner power, a fixed nonperipheral
//! multicurve, or a filling train track carried into itself, every iterate between the bounds, and then
//! no positive power is inner (Farb and Margalit, chapters 8, 13 and 14; Penner and Harer). It stands on
//! maps, vectors and tracks, and on no crate that searches.
//!
//! The definitions stand in `specs/`: `FirstFailing` (tests in a row), `PeriodicRules`, `VectorRules`,
//! `TrackRules` with `TrackRefusals` (the rules of the three kinds), and `Verdicts` (the answer). When a
//! certificate holds and what that means are definitions of `cert_text`. docs/checking.md has the rules
//! in a table, for the author of another program.
//!
//! ```text
//! match check(alloc, &mut surface, &path, &certificate)? {
//!     Verdict::Accepted => ..
//!     Verdict::NoClaim => ..                 // the kind `unknown`
//!     Verdict::Refused { rule, place } => .. // refused rule 7 at 0
//! }
//! ```
#![tactic(auto)]

mod anchors;
mod checker;
mod connections;
mod corners;
mod growth;
mod images;
mod inner_walks;
mod letters;
mod matrix;
mod periodic;
mod powers;
mod sites;
mod tracks;
mod train_paths;
mod vectors;
mod verdict;
mod walks;

pub use checker::check;
pub use verdict::Verdict;

#[cfg(test)]
mod anchors_tests;
#[cfg(test)]
mod growth_tests;
#[cfg(test)]
mod matrix_tests;
#[cfg(test)]
mod periodic_tests;
#[cfg(test)]
mod sites_tests;
#[cfg(test)]
mod vectors_tests;
