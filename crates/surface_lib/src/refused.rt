//! Why a generator is not read.
use crate::surface_error::GeneratorFault;
use crate::twister::TwistError;
use ideal_tri::Memory;

/// Why a generator is not read.
#[derive(Clone, Copy, Debug, PartialEq, Eq)]
pub(crate) enum Refused {
    /// The entry has a fault.
    Fault(GeneratorFault),
    /// No memory was found.
    Memory,
}

impl From<Memory> for Refused {
    ghost use Rattle.std.specs.Prelude.{◌≡◌};
    ghost use Rattle.surface_lib.specs.declared.refused.Refused.TheVariants.{Memory};

    ghost from_gives = { λ _ refused. refused ≡ Memory };

    fn from(_: Memory) -> Refused {
        Refused::Memory
    }
}

impl From<GeneratorFault> for Refused {
    ghost use Rattle.std.specs.Prelude.{◌≡◌};
    ghost use Rattle.surface_lib.specs.declared.refused.Refused.TheVariants.{Fault};

    ghost from_gives = { λ fault refused. refused ≡ Fault fault };

    fn from(fault: GeneratorFault) -> Refused {
        Refused::Fault(fault)
    }
}

impl From<TwistError> for Refused {
    ghost use Rattle.std.specs.Prelude.{◌≡◌};
    ghost use Rattle.surface_lib.specs.inside.Faults.{twist_refused};

    ghost from_gives = { λ error refused. refused ≡ twist_refused error };

    fn from(error: TwistError) -> Refused {
        Refused::Fault(match error {
            TwistError::TotalOver { total } => GeneratorFault::TotalOver(total),
            TwistError::NotOneCurve => GeneratorFault::NotOneCurve,
            TwistError::Peripheral => GeneratorFault::Peripheral,
            TwistError::Stuck { at } => GeneratorFault::Stuck(at.total()),
            TwistError::Memory => return Refused::Memory,
        })
    }
}
