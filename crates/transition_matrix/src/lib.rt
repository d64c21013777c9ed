//! Matrices of counts, and the least power of one that is positive (Perron and Frobenius).
//!
//! A carried train track has a transition matrix: in row i and column j it counts how often the
//! image of branch j passes branch i (Penner and Harer). This layer stands on no other. It promises
//! that a matrix holds exactly the counts, and that `primitive_exponent` is the least power, within
//! a limit, of which all entries are positive. Powers are kept as truth values, so no number grows.
//!
//! The definitions stand in `specs/Matrices.antt`, what is proved of them in
//! `specs/MatrixLaws.antt`; `specs/inside` serves the private fields alone.
//!
//! ```text
//! let m = Matrix::from_columns(alloc, 2, &columns)?;          // the rows (1, 1), (1, 2)
//! let mut scratch = Scratch::new(alloc, 2)?;
//! m.primitive_exponent(&mut scratch, 1024)                    // Some(1)
//! ```
#![tactic(auto)]

mod bits;
mod laws;
mod matrix;
mod memory;
mod scratch;

pub use laws::{growth_laws, matrix_laws};
pub use matrix::Matrix;
pub use memory::Memory;
pub use scratch::Scratch;
