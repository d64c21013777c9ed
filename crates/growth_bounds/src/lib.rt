//! Rational bounds of the growth of a transition matrix.
//!
//! A primitive matrix stretches every column, in the long run, by its greatest eigenvalue (Perron
//! and Frobenius). This layer gives rational bounds on both sides of it: a row of whole numbers,
//! the column sums of a power, that the matrix stretches in every entry by at least one ratio and
//! at most another. There are two rules for the power: `bounds` takes the first from the fourth to
//! the 64th that will do, and `wide_bounds` looks, where none of these does, at those before the
//! fourth, from the third down to the row of ones. For a matrix with large entries the wider rule
//! can give bounds where the other gives none. This layer promises that the row and the ratios are
//! those of the rules in `specs/Rule.antt`, that they are bounds (`specs/Bounds.antt` of the layer
//! of matrices, whose laws say what they bound), and that none are given exactly where the rule
//! gives none.
//!
//! ```text
//! bounds(alloc, &m)?    // for the rows (1, 1), (1, 2): u = (34, 55), low = 89/34, high = 144/55
//! wide_bounds(alloc, &m)?    // the same here
//! ```
#![tactic(auto)]

mod ratio;
mod rule;
mod wide;

pub use rule::{GrowthBounds, bounds};
pub use wide::wide_bounds;
