//! The two series of candidates for a carried train track.

/// How the tests of a candidate choose what they look at.
#[derive(Clone, Copy, Debug, PartialEq, Eq)]
pub(crate) enum Series {
    /// The first candidates: a switch goes to the first of its places, and the bounds are those of
    /// the first power of the matrix from the fourth on that grows.
    First,
    /// The further candidates: a switch goes to the place in the middle that the branches allow, and
    /// where no power from the fourth on grows, lower ones count.
    Further,
}
