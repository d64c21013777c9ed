// The twister of the tests.
ghost use Rattle.std.specs.Prelude.{◌≡◌, ◌⊎◌, [], Ok, Err};
ghost use Rattle.surface_lib.specs.declared.twister.Hand.TheVariants.{Plus, Minus};
ghost use Rattle.surface_lib.specs.declared.twister.TwistError.TheVariants.{NotOneCurve};

use super::*;
use edge_coords::Coords;
use std::alloc::Global;
use tri_atlas::{Atlas, Path};

/// The twist of hand plus about each curve moves nothing; those of hand minus are refused.
#[derive(Drop)]
pub(crate) struct PlusAlone;

impl Twister for PlusAlone {
    ghost twists = { λ base numbers hand result.
        ((hand ≡ Plus) × (result ≡ Ok [])) ⊎ ((hand ≡ Minus) × (result ≡ Err NotOneCurve)) };

    fn compile(
        &mut self,
        alloc: Global,
        _atlas: &mut Atlas,
        curve: &Coords,
        hand: Hand,
    ) -> Result<Path, TwistError> {
        match hand {
            Hand::Plus => Ok(Path::new(alloc, curve.tri())),
            Hand::Minus => Err(TwistError::NotOneCurve),
        }
    }
}
