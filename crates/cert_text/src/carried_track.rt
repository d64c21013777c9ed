//! What the certificate of a pseudo-Anosov word says.

/// Where a switch of a train track goes under a map that carries the track.
#[derive(Drop)]
pub struct Anchor {
    /// The switch, by its label that is not negative.
    pub switch: i32,
    /// The label of a switch that it goes to.
    pub to: i32,
    /// The letters of a reduced walk, from the image of the triangle where `switch` starts to the
    /// triangle where `to` starts.
    pub connect: Vec<i32>,
}

/// A train track that fills a triangulation and is carried into itself, with all that is needed to
/// check it (Penner and Harer). The triangulation is that behind the flips, and the map that of the
/// path: the flips backwards, the word `power` times, and the flips.
#[derive(Drop)]
pub struct Pa {
    /// How often the word is taken, from 1 to 64.
    pub power: u32,
    /// The numbers of the edges that are flipped, at most 64, from the base on.
    pub flips: Vec<u32>,
    /// The corners that the track leaves out, in the order of labels.
    pub left_out: Vec<i32>,
    /// Where the switches go, in the order of the switches.
    pub anchors: Vec<Anchor>,
    /// For each branch its train path: the legal walk along its image.
    pub images: Vec<Vec<i32>>,
    /// In row `i` and column `j`, how often the train path of branch `j` passes branch `i`.
    pub matrix: Vec<Vec<u64>>,
    /// A power of the matrix that has all entries positive, from 1 to 1,024.
    pub exponent: u32,
    /// A row of positive numbers below 2^63, one for each branch, that the matrix stretches.
    pub u: Vec<u64>,
    /// In each entry the row grows by at least `low.0 / low.1`, which is above 1.
    pub low: (u64, u64),
    /// In each entry the row grows by at most `high.0 / high.1`.
    pub high: (u64, u64),
}
