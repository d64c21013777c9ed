//! Certificates of verdicts: what they say, when they hold, and their text.
//!
//! Each verdict on a word but `unknown` has a certificate that anyone can check again, by machine or
//! by hand. A periodic word's has the walks by which its power is inner, and for each smaller power
//! a closed walk that it moves. A reducible word's has the coordinates of a multicurve that it fixes,
//! with no curve round a vertex. A pseudo-Anosov word's has a train track that fills a triangulation
//! and is carried into itself, with its matrix and bounds of its growth. Where there is no verdict,
//! the certificate is a log of what was tried. This layer promises that the text that `write` makes
//! is that of the certificate and is read as it, that `read` gives the certificate that a text is
//! read as or the first refusal, and that a certificate which holds means what its verdict says. A
//! reducible word's holds exactly where its numbers pass a test that can be made move by move.
//!
//! The definitions stand in `specs/`: `Certificates` (what one says), `Holds` (when it holds, kind
//! by kind), `PseudoAnosov` (of a carried track), `CertificateLaws` (what that means), `Texts`,
//! `Shapes` (what stands in the values of a text) and `Reading` (what a text is read as).
//!
//! ```text
//! let c = Certificate::Periodic { order: 2, paths, reasons };
//! write(alloc, &c)?; // {"kind":"periodic","order":2,"paths":[[],[]],"reasons":[[1,-1]]}
//! let c = Certificate::Reducible { coords }; // of 1, 1 and 0
//! write(alloc, &c)?; // {"coords":["1","1","0"],"kind":"reducible"}
//! ```
#![tactic(auto)]

mod carried_track;
mod cert_error;
mod cert_keys;
mod certificate;
mod coordinate;
mod laws;
mod line_texts;
mod lines;
mod reader;
mod shapes;
mod text;

pub use carried_track::{Anchor, Pa};
pub use cert_error::{CertError, CertKey};
pub use certificate::Certificate;
pub use laws::certificate_laws;
pub use lines::TrackLine;
pub use reader::read;
pub use text::write;

#[cfg(test)]
mod reader_tests;
#[cfg(test)]
mod tests;
