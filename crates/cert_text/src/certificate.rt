//! What a certificate says.

use crate::carried_track::Pa;
use crate::lines::TrackLine;
use edge_coords::CurveLine;

/// What shows that the verdict on a word is right. A walk is given by the numbers of its letters.
#[derive(Drop)]
pub enum Certificate {
    /// The word is periodic: its power of this order is the first whose map is inner, so that it is
    /// the first that is trivial as a mapping class (Farb and Margalit, chapters 8 and 13).
    Periodic {
        /// The order, from 1 to 1,024.
        order: u32,
        /// The reduced walks by which the power is inner: path `t` runs from triangle `t` to its
        /// image.
        paths: Vec<Vec<i32>>,
        /// For each smaller power, from the first, a closed walk, cyclically reduced and not empty,
        /// that it doesn't carry to itself up to rotation. It starts at the triangle of its first
        /// letter.
        reasons: Vec<Vec<i32>>,
    },
    /// The word is reducible: it fixes a multicurve that isn't empty, none of whose curves runs round
    /// a vertex (Farb and Margalit, chapter 13).
    Reducible {
        /// The coordinates of the multicurve, one for each edge of the base, below 2^126.
        coords: Vec<u128>,
    },
    /// The word is pseudo-Anosov, as far as that shows in a train track that fills and is carried:
    /// every iterate of every closed legal walk grows between the bounds (Penner and Harer).
    PseudoAnosov(Pa),
    /// There is no verdict within the budget.
    Unknown {
        /// For each power that was refuted, from the first, a closed walk that it moves.
        powers: Vec<Vec<i32>>,
        /// The first power in which a map had too many letters, and the letters after the first move
        /// in which it had.
        capped: Option<(u32, u64)>,
        /// Why each candidate for a fixed multicurve failed, in order.
        curves: Vec<CurveLine>,
        /// Why each candidate for a carried train track failed, in order.
        tracks: Vec<TrackLine>,
    },
}
