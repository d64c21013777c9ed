//! The stages of a cycle, where the searches for a verdict look further.
//!
//! Under a pseudo-Anosov map the images of a curve come near the stable foliation, and flips of the
//! edges that a curve crosses most follow the splittings of a train track that carries it (Penner and
//! Harer). The first stage of a cycle is the last of its images under the word that stays small, taken
//! at most 12 times. Each further stage is one flip deeper: of the edge of the greatest number, the
//! least one of these, where its new number is below 2^126. It promises that a stage is exactly that,
//! kept as a path of the atlas with the edges of its flips and the coordinates at its end, and that
//! it stays so as the atlas grows. `stages_of` lists those of the depths 0 to 55.
//!
//! `open_cycle` finds the cycle that is looked at: the first that is nonperipheral. Beside a stage's
//! vector a number is light where its square is at most the greatest number (`is_light`).
//!
//! The definitions stand in `specs/`: `Stages`, `KeptStages` (how one is kept), `StageLists`,
//! `FlippedStages`, `OpenCycles` and `Light`; what is proved of stages in `StageLaws`. `specs/inside` serves private
//! functions alone.
//!
//! ```text
//! if let Some(cycle) = open_cycle(alloc, &atlas)? {
//!     let stages = stages_of(alloc, &mut atlas, &word, &cycle)?;
//!     let greatest = greatest(stages[0].coords.values());
//! }
//! ```
#![tactic(auto)]

mod laws;
mod light;
mod open_cycles;
mod stage_list;
mod stages;

pub use laws::stage_laws;
pub use light::{greatest, is_light};
pub use open_cycles::open_cycle;
pub use stage_list::{copied, stages_of};
pub use stages::{Stage, deepen, first_stage, flip_on};

#[cfg(test)]
mod tests;
