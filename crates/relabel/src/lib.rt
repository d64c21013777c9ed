//! Relabellings of ideal triangulations.
//!
//! A relabelling of one triangulation onto another is a bijection of their labels that takes
//! inverse labels to inverse labels and triangles to triangles. This layer stands on triangulations
//! and atlases. It promises that a list of images is accepted exactly where it is a relabelling's,
//! and otherwise names the first test that fails; that inverses and compositions are those of the
//! definition; that the image of one label settles all others; and that a relabelling is kept in an
//! atlas as the move that it is. Only `push` takes memory.
//!
//! What a relabelling is stands with triangulations, in `ideal_tri`, with what is proved of it;
//! here stand the relabelling that takes one label to a given one (`specs/Relabellings.antt`), the
//! refusals (`specs/Refusals.antt`), and what a relabelling adds to an atlas (`specs/Pushed.antt`,
//! `specs/PushLaws.antt`). `specs/inside` serves private fields and loops.
//!
//! The turn of the two triangles of a once-punctured torus, 0 to 1 to 2 to 0:
//!
//! ```text
//! let torus = Tri::from_triples(&[[0, 1, 2], [-1, -2, -3]])?;
//! let turn = Relabelling::from_list(&torus, &torus, &[1, 2, 0])?;
//! assert_eq!(rt; turn.image(Label::new(-1)), Label::new(-2));
//! assert_eq!(rt; turn.then(&turn).image(Label::new(0)), turn.inverse().image(Label::new(0)));
//! ```
#![tactic(auto)]

mod laws;
mod one_label;
mod pushed;
mod relabelling;

pub use laws::push_laws;
pub use pushed::push;
pub use relabelling::{RelabelError, Relabelling};
