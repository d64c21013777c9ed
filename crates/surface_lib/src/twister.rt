//! What compiles the Dehn twist about a curve to a path of moves.
ghost use Rattle.std.specs.Prelude.{◌≡◌, ◌<◌, ◌^◌, ◌⊎◌, length, Ok, Err, IfOk, IfErr};
ghost use Rattle.tri_atlas.specs.Arena.{triangulation, Grows};
ghost use Rattle.tri_atlas.specs.Paths.{IsPathIn, moves_of};
ghost use Rattle.edge_coords.specs.Coordinates.{AreCoordinatesIn};
ghost use Rattle.surface_lib.specs.Twists.{TwistRelation};
ghost use Rattle.surface_lib.specs.declared.twister.TwistError.TheVariants.{Memory};

use edge_coords::Coords;
use std::alloc::Global;
use tri_atlas::{Atlas, Path};

/// The hand of a Dehn twist. The twists of the two hands about a curve are each other's inverses;
/// what a `Twister` says of its twists tells which is which.
#[derive(Clone, Copy, Debug, PartialEq, Eq)]
pub enum Hand {
    /// Spelt `plus` in a surface file.
    Plus,
    /// Spelt `minus`.
    Minus,
}

/// Why there is no path for the twist about a multicurve.
#[derive(Clone, Copy, Debug, PartialEq, Eq)]
pub enum TwistError {
    /// The multicurve crosses the edges so often in all: above 4,096.
    TotalOver { total: u128 },
    /// The multicurve is not one curve.
    NotOneCurve,
    /// The curve runs round a vertex, so the twist about it moves nothing.
    Peripheral,
    /// The descent of the curve, by flips that make it shorter, ends at these coordinates, whose
    /// total is above 2.
    Stuck { at: Coords },
    /// No memory was found.
    Memory,
}

/// A compiler of Dehn twists, which a caller hands to `read_surface`. The layer that reads files
/// asks of the path only that it is a loop, and fewer than 2^31 moves long.
pub trait Twister {
    /// The moves of the twist about a curve, or why there is none. It is one meaning: it depends on
    /// the triangulation, the coordinates of the curve there and the hand, and neither on the
    /// compiler's state nor on the atlas.
    ghost twists: { TwistRelation };

    /// The path of the twist about a curve, from the curve's triangulation to itself.
    fn compile(
        &mut self,
        alloc: Global,
        atlas: &mut Atlas,
        curve: &Coords,
        hand: Hand,
    ) -> Result<Path, TwistError>
        requires { AreCoordinatesIn atlas.old curve.now }
        ensures path { IfOk result (IsPathIn atlas.new) }
        ensures start { IfOk result (λ p. p.start ≡ curve.now.tri) }
        ensures end { IfOk result (λ p. p.end ≡ curve.now.tri) }
        ensures short { IfOk result (λ p. length p.moves < 2 ^ 31) }
        ensures compiled { IfOk result (λ p. twists (triangulation atlas.old curve.now.tri)
            curve.now.numbers hand (Ok (moves_of atlas.new p))) }

        // Want of memory is a free answer.
        ensures refused { IfErr result (λ e. (e ≡ Memory)
            ⊎ twists (triangulation atlas.old curve.now.tri) curve.now.numbers hand (Err e)) }
        ensures grows { Grows atlas.old atlas.new };
}
