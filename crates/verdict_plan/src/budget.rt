//! How much is tried.

/// How much `classify` may try. Each of its calls asks that the numbers are within the limits.
#[derive(Clone, Copy, Debug, PartialEq, Eq)]
pub struct Budget {
    /// The largest power, at most 1,024.
    pub powers: u32,
    /// How many candidates for a fixed multicurve, at most 65,536.
    pub curves: u32,
    /// How many candidates for a carried train track, at most 4,096.
    pub tracks: u32,
}
