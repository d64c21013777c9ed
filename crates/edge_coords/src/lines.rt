//! Why a vector is no multicurve that a word fixes.

/// Why a candidate in the search for a multicurve that a word fixes doesn't pass: the first of these
/// tests, in this order, that it fails. A log of the search has one line for each candidate.
#[derive(Clone, Copy, Debug, PartialEq, Eq)]
pub enum CurveLine {
    /// A number that the candidate is made of, or one of its image, is 2^126 or more.
    Overflow,
    /// The difference of two vectors that it is made of is the vector of no multicurve.
    NotMulticurve,
    /// Nothing is left where the curves round vertices are taken off.
    Empty,
    /// The word moves it.
    Moved,
}
