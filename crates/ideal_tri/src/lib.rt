//! Ideal triangulations of punctured surfaces, and the words, vectors and drawings that describe
//! curves on them.
//!
//! The lowest layer: no other crate of the repository is below it, and no call of it takes memory.
//! To the layers above it promises that a `Tri` is a gluing of triangles, each label once, with
//! exact places, next sides, components, vertices and genus; and, by the contracts of the empty
//! functions in `laws`, what holds of the definitions themselves.
//!
//! A contract sees a `Label` as its number and a `Tri` as the list of its triples. The definitions
//! stand in `specs/`, to be read in this order: `Labels`, `Words` (free and cyclic reduction),
//! `Triangulations` (next sides, walks), `Components`, `Refusals`, `Curves` (closed words up to
//! rotation and direction), `Vectors` (multicurves), `Strands` (drawings), `Drawings` (the one from
//! the least strands on), `Peripheral`, `Vertices`, `PeripheralParts`, `Flips`, `Relabellings`. The
//! files named after them with `Laws` state what is proved of them. What serves the private fields
//! of `Tri` alone stands in `specs/inside/`.
#![tactic(auto)]

mod component;
mod images;
mod label;
mod laws;
mod memory;
mod tri;
mod vertex;

pub use images::inverse_images;
pub use label::Label;
pub use laws::{
    bijection_laws, component_laws, corner_laws, drawing_laws, flip_laws, hit_laws, label_laws,
    letter_laws, relabelling_laws, same_curves_laws, strand_laws, surface_laws, triple_laws,
    vertex_laws, word_laws,
};
pub use memory::Memory;
pub use tri::{EDGES, Tri, TriError};
pub use vertex::VertexId;
