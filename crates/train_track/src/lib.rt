//! Train tracks on ideal triangulations (after Penner and Harer; Mosher).
//!
//! A track is given by the corners of triangles that it leaves out: at most one in each triangle,
//! and at least one at each vertex. A walk is legal where each two neighbours use a corner that is
//! kept. A `Track` keeps the switches and the branches, and cuts legal walks into branches.
//!
//! On the once-punctured torus:
//!
//! ```text
//! let atlas = Atlas::new(alloc, Tri::from_triples(&[[0, 1, 2], [-1, -2, -3]])?)?;
//! let corners = [Label::new(2), Label::new(-3)];
//! let track = Track::from_list(alloc, &atlas, atlas.base(), &corners)?;
//! // the one switch is 1, and the branches are 1 -1 1 and 1 -3 1
//! ```
//!
//! The definitions stand in `specs/`, to be read in this order: `Tracks` (left-out corners,
//! filling, legal, switch), `Branches`, `Passes`, `Refusals`; `TrackLaws` states what is proved of
//! them.
#![tactic(auto)]

mod branches;
mod corners;
mod laws;
mod legal;
mod order;
mod passes;
#[cfg(test)]
mod tests;
mod track;

pub use laws::track_laws;
pub use track::{Track, TrackError};
