//! Where files are read from and bytes are written to: the layer between the program and the
//! system.
//!
//! Two traits, `Shelf` and `Sink`, and the loops `read_all` and `write_all` over them. Beside them
//! stand forms in memory, which tell contracts their content (`BoxShelf` and `VecSink` fail where
//! they are told to, `SureShelf` and `SureSink` never), and the forms over the system, `DirShelf`
//! and `StdSink`, which tell none.
//!
//! ```text
//! let mut shelf = DirShelf::new(&rt, &words);
//! let bytes = read_all(rt.alloc(), &mut shelf, "sphere3.json", 1_048_576)?;
//! let mut out = StdSink::new(rt.stdout());
//! write_all(&mut out, &bytes)?;
//! ```
//!
//! Promised to the layer above: `read_all` gives the whole file and nothing else, or the one
//! refusal that fits; `write_all` takes all the bytes, or after a fault a prefix of them; a fault
//! raises the count of faults by one, of the name that was read or of the sink that was written to,
//! and nothing else raises a count. Every loop takes a byte a turn or ends.
//!
//! The definitions stand in `specs/`: `Files` and `Finite` (what a shelf has), `Counts` (when a
//! count rose), `Reads` (which names were read), `Taken` (what a sink took), `Whole` (what
//! `read_all` answers), `Held` and `Sure` for the forms in memory, and `Counters` for `DirShelf`.
//! `specs/inside` has what serves private fields, and lemmas for a law of `Shelf`.
//!
//! Trusted: what the system's files and streams hold and do. `DirShelf` and `StdSink` have one test
//! each.
#![tactic(auto)]

mod boxed;
mod dir;
mod part;
mod shelf;
mod sink;
mod stream;
mod sure;
mod whole;

pub use boxed::{BoxShelf, Held, VecSink};
pub use dir::DirShelf;
pub use shelf::{Shelf, ShelfFault};
pub use sink::{Sink, SinkFault, write_all};
pub use stream::StdSink;
pub use sure::{SureShelf, SureSink};
pub use whole::{ReadError, read_all};

#[cfg(test)]
mod tests;
