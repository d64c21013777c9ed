//! The compiler of the twists in surface files.
ghost use Rattle.twist_compile.specs.TwistPaths.{IsCompiled};

use crate::twist_path::twist;
use edge_coords::Coords;
use std::alloc::Global;
use surface_lib::{Hand, TwistError, Twister};
use tri_atlas::{Atlas, Path};

/// Compiles the Dehn twists of a surface file: the path of the twist along the descent of the curve.
#[derive(Clone, Copy, Debug, PartialEq, Eq, Drop)]
pub struct Compiler;

impl Twister for Compiler {
    ghost twists = { IsCompiled };

    fn compile(
        &mut self,
        alloc: Global,
        atlas: &mut Atlas,
        curve: &Coords,
        hand: Hand,
    ) -> Result<Path, TwistError> {
        twist(alloc, atlas, curve, hand)
    }
}
