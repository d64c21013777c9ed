//! The verdict on a word: which tests are tried, in which order, and within which budget.
//!
//! A mapping class is periodic, reducible or pseudo-Anosov (Thurston; Farb and Margalit, chapter 13).
//! `classify` tries the powers of a word first, then the candidates for a multicurve that it fixes,
//! then those for a train track that a power of it carries; each list has first candidates and, where
//! the budget is 256 or more, further ones behind them, which are made of the stages of one cycle.
//! It promises that it gives the first verdict within the budget, that a verdict's certificate holds
//! and means what it says, and that a word is `Unknown` only with a true log of all that was tried.
//!
//! A power that moves the vector of a cycle isn't inner, since inner maps fix every multicurve. Where
//! that rules out all powers within the budget, their maps are made only for the log of a word without
//! a verdict.
//!
//! `search_tracks` tries the candidates for a train track that a power of the word carries: the first
//! ones, and then the further ones. Where the image of a curve shows that the map of a candidate has
//! more letters than the cap, its line is looked for only where all candidates fail.
//!
//! The definitions stand in `specs/`: `Budgets` (the limits), `Verdicts`, `TrackTests` (the tests of
//! one candidate for a track), `FirstTracks`, `FurtherTracks` and `AllCandidates`.
#![tactic(auto)]

mod all_candidates;
mod budget;
mod certificates;
mod further_search;
mod known;
mod light_corners;
mod past;
mod plan;
mod power_phase;
mod progress;
mod repairs;
mod series;
mod sites;
mod track_certificate;
mod track_growth;
mod track_search;
mod track_tests;
mod trials;
mod ways;

pub use all_candidates::search_tracks;
pub use budget::Budget;
pub use plan::classify;
pub use track_search::Tracks;

#[cfg(test)]
mod candidate_tests;
#[cfg(test)]
mod search_tests;
#[cfg(test)]
mod tests;
