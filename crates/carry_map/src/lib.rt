//! Maps that carry a train track into itself, how they are found, and their iterates (after Penner
//! and Harer).
//!
//! A map of walks of a triangulation to itself carries a track where each switch goes to a switch,
//! and each branch to a train path between the switches that its ends go to: a legal walk that runs
//! along its image, up to a connecting walk at each end. Closed legal walks then go to closed legal
//! walks, and one matrix counts the branches that they pass. This layer promises it for every
//! iterate: the n-th iterate of the map takes a closed legal walk where the train paths lead, up to
//! where it begins and what can be reduced; the matrix, applied n times, counts the branches that
//! are passed there; and these counts grow between the bounds of a row that the matrix stretches.
//!
//! Where the switches go is found by `anchor`, by a rule. A line is what is left, reduced, of the
//! image of a legal walk of seven letters with a switch in the middle. The letters of switches that
//! the lines of all these walks share are the places of the switch, each with the walk to it, and
//! the first of them is its anchor. From there each branch has one walk that can be its train path,
//! and none where this isn't one. Each answer carries the track, and each refusal names the first
//! test that fails.
//!
//! A second rule, `middle_anchor`, differs in the anchors alone: it takes places in the middle. The
//! branches between switches ask for room between their anchors, as many places as the next switch
//! still has behind it; the greatest heights that leave this room, from the first place on and from
//! the last place back, have the anchor halfway between them.
//!
//! On the once-punctured torus, the twist a and then the twist b:
//!
//! ```text
//! the triangles     0 1 2 and -1 -2 -3
//! the track         leaves out the corners 2 and -3; the switch is 1
//! its branches      1 -1 1 and 1 -3 1
//! the places of 1   four letters 1, behind the walks -2 2 -2 and -2 and -1 and -1 1 -3
//! its anchor        the first: 1 goes to 1, along -2 2 -2
//! the train paths   1 -3 1 -1 1 and 1 -3 1 -1 1 -3 1
//! the middle rule   heights 3 and 3, so its anchor is the place behind -2, and the train paths
//!                   are 1 -1 1 -3 1 and 1 -1 1 -3 1 -3 1
//! the matrix        has the rows (1, 1) and (1, 2), for both
//! the walk 1 -1     passes (1, 0), and its images pass (1, 1), (2, 3), (5, 8), ..
//! ```
//!
//! The definitions stand in `specs/`, to be read in this order: `CarriedMaps` (what carries a
//! track), `Iterates` (passes of closed walks, images, the matrix); `IterateLaws` states what is
//! proved of them. Then `Anchors` (lines and places), `AnchorAnswers` (what `anchor` answers) and
//! `MiddleAnchors` (what `middle_anchor` answers); `AnchorLaws` states that a branch has one train
//! path at most, and `AgreementLaws` that only the images of labels count. `specs/inside` serves
//! private functions and proofs alone.
#![tactic(auto)]

mod anchors;
mod carry;
mod heights;
mod laws;
mod middle;
mod paths;
mod picked;
mod places;
mod rays;
mod steps;
mod windows;

pub use anchors::anchor;
pub use carry::{AnchorError, CarryMap};
pub use laws::{agreement_laws, anchor_laws, iterate_laws};
pub use middle::middle_anchor;

#[cfg(test)]
mod middle_tests;
#[cfg(test)]
mod places_tests;
#[cfg(test)]
mod tests;
#[cfg(test)]
mod torus;
