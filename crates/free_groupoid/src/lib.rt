//! Maps of walks on the dual graph of a triangulation, and the test whether a map is inner.
//!
//! Walks on the dual graph, up to free reduction, are a free groupoid: the fundamental groupoid of
//! the surface, with the triangles as its points. A path of moves acts on it by a substitution, one
//! walk for each label (Bell's flipper; Farb and Margalit, chapter 8). This layer has walks and
//! their reductions, the maps of moves and paths, kept as reduced images of the labels with a cap
//! on their letters, and the test whether a map of a triangulation to itself is inner, that is,
//! whether its mapping class is trivial. It promises that maps are the stated substitutions,
//! reduced; that a map is refused exactly where its letters pass the cap; and that `inner` answers
//! yes exactly where the map is inner, with the only reduced walks, and otherwise gives the first
//! test walk that is moved.
//!
//! The definitions stand in `specs/`: `Walks`, `GroupoidMaps`, `TestWalks` (a spanning forest, its
//! loops and their products), `Inner`, `Related`, and the refusals. What is proved of them stands
//! in the files named after them with `Laws`: a map is inner exactly where it keeps each test walk
//! up to rotation, on any number of components, and two maps of paths are related exactly where
//! they are alike at those walks. `specs/inside` serves private functions and proofs alone.
//!
//! ```text
//! let mut f = Map::identity(alloc, &atlas, base)?;
//! f.follow_path(&atlas, &path, 262_144)?;     // the map of the path, reduced after every move
//! ```
#![tactic(auto)]

mod forest;
mod images;
mod inner_maps;
mod inner_paths;
mod inner_test;
mod laws;
mod letter;
mod map;
mod test_list;
mod triangles;
mod walk;
mod word;

pub use inner_maps::{forest_laws, inner_laws, periodic_laws, related_laws};
pub use inner_test::{InnerAnswer, inner};
pub use laws::groupoid_laws;
pub use letter::{LetterImage, move_image};
pub use map::{Map, MapError};
pub use test_list::test_walks;
pub use walk::{Walk, WalkError, is_peripheral, is_rotation};

#[cfg(test)]
mod tests;
