//! Why a candidate for a train track that a word carries doesn't pass.
ghost use Rattle.std.specs.Prelude.{◌≡◌, string_bytes, IfOk, Some};
ghost use Rattle.cert_text.specs.Shapes.{track_of};
ghost use Rattle.cert_text.specs.Texts.{track_text, with_number};

use ideal_tri::Memory;
use std::alloc::Global;

/// The first of these tests, in this order, that a candidate in the search for a train track fails
/// that a power of the word carries into itself. A log of the search has one line for each candidate.
#[derive(Clone, Copy, Debug, PartialEq, Eq)]
pub enum TrackLine {
    /// Two corners of this triangle are left out.
    TwoLeftOut {
        /// The number of the triangle.
        n: u64,
    },
    /// No corner is left out at this vertex.
    VertexClosed {
        /// The number of the vertex.
        n: u64,
    },
    /// After some move the map has more letters than the cap.
    Cap {
        /// The letters after the first such move.
        n: u64,
    },
    /// The images of the walks through this switch have no letter in common that may be its anchor.
    NoCommon {
        /// The number of the switch's edge.
        n: u64,
    },
    /// The train path of this branch isn't legal.
    Illegal {
        /// The number of the branch.
        n: u64,
    },
    /// The connecting walks, or the train paths, have more letters than the cap.
    PathsCap {
        /// Their letters.
        n: u64,
    },
    /// No power of the matrix up to the limit is positive.
    NotPrimitive,
    /// The growth rule gives no bounds.
    NoBounds,
}

impl TrackLine {
    /// The text of the line: the name of the test, and where it has one its number.
    pub(crate) fn text(self, alloc: Global) -> Result<String, Memory>
        ensures text { IfOk result (λ text. string_bytes text ≡ track_text self) }

        // The line is read from its text.
        ensures read_back { track_of (track_text self) ≡ Some self }
    {
        match self {
            TrackLine::TwoLeftOut { n } => with_number(alloc, "two_left_out", n),
            TrackLine::VertexClosed { n } => with_number(alloc, "vertex_closed", n),
            TrackLine::Cap { n } => with_number(alloc, "cap", n),
            TrackLine::NoCommon { n } => with_number(alloc, "no_common", n),
            TrackLine::Illegal { n } => with_number(alloc, "illegal", n),
            TrackLine::PathsCap { n } => with_number(alloc, "paths_cap", n),
            TrackLine::NotPrimitive => Ok(String::from_str(alloc, "not_primitive")?),
            TrackLine::NoBounds => Ok(String::from_str(alloc, "no_bounds")?),
        }
    }
}

/// A name, a space and a number in decimal.
fn with_number(alloc: Global, name: &str, n: u64) -> Result<String, Memory>
    ensures { IfOk result (λ text. string_bytes text ≡ with_number name.now n) }
{
    Ok(format!(in alloc; "{name} {n}")?)
}
