//! Surfaces, and the words in their generators.
//!
//! A surface file is a JSON object: its format and version, the surface's name, the triples of its
//! triangles, and its generators: flips and a relabelling behind them, the Dehn twist about a curve,
//! or a word over earlier generators. `read_surface` gives the surface that a file describes, or the
//! first refusal in a fixed order; a file of version 2 may have several components. `builtin` gives a
//! surface that needs no file.
//!
//! What a twist about a curve is, and its path, is no matter of this crate: the caller of
//! `read_surface` hands in a `Twister`, which compiles twists to paths and says by its `twists` what
//! they mean. The contracts of a reading hold for the meaning that was handed in.
//!
//! A word is a text such as `a.B^3.(a.b)^-2`: the generators' paths joined from left to right, the
//! leftmost applied first, and backwards for inverse parts. `read_word` gives the path of a word,
//! or the first refusal with its place.
//!
//! What a file describes is defined in `specs/`: `Json` and `SurfaceKeys` (what stands at its keys),
//! `FlipsForms`, `Twists` and `TwistForms`, `Products`, and `GeneratorFiles` (its generators: flips
//! with a relabelling back onto the base, a twist along a curve, or a word over earlier ones), and
//! `SurfaceFiles` (the surface, or the first refusal). `BuiltinSurfaces` lists the built-in ones, and
//! `Described` says what a surface holds.
//!
//! The definition of a word stands there too: `Pieces` (how a text is cut), `Powers`, `Words` (the
//! tests of the pieces, and the value of a word), `Refusals` (the moves, or the first refusal in its
//! order) and `Surfaces`. It serves the handles of an atlas as well as what moves do, so that products
//! speak of no atlas.
#![tactic(auto)]

mod builtins;
mod counts;
mod error;
#[cfg(test)]
mod file_tests;
mod flips_form;
#[cfg(test)]
mod generator_tests;
mod generators;
mod json;
mod names;
mod new_name;
mod path_of_text;
mod piece;
mod power;
mod product;
mod refused;
mod spelling;
mod surface;
mod surface_error;
mod surface_file;
mod surface_keys;
mod tested;
mod twist_form;
mod twister;
#[cfg(test)]
mod twister_tests;
mod version;
mod word;
#[cfg(test)]
mod word_tests;

pub use builtins::{BuiltinError, builtin};
pub use error::WordError;
pub use surface::Surface;
pub use surface_error::{GeneratorFault, Key, SurfaceError};
pub use surface_file::read_surface;
pub use twister::{Hand, TwistError, Twister};
pub use word::read_word;
