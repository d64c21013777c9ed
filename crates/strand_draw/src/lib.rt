//! The curves of a vector.
//!
//! A vector of normal coordinates gives each edge of a triangulation a number of strands. Inside
//! each triangle the strands are joined in one way, and so they form closed curves, the components
//! of the multicurve (Bell's flipper). `components` lists these curves as closed walks on the dual
//! graph, and `is_one_curve` says whether there is exactly one. The time and the memory are in
//! proportion to the number of strands, on which the caller sets a cap.
//!
//! The words of these walks are those of `draw`, which stands in `Drawings` of `ideal_tri`: the
//! drawing that begins each curve at its least strand, in rising order. That it is a drawing, and
//! what holds of its words, are laws of `ideal_tri` (`drawing_laws`). Why a vector is refused
//! stands in `specs/Refusals.antt`; `specs/inside` serves private functions alone.
#![tactic(auto)]

mod drawing;
mod marks;
mod strand;
#[cfg(test)]
mod tests;

pub use drawing::{DrawError, components, is_one_curve};
