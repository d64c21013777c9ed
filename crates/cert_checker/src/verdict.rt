//! What the checker answers.
use ideal_tri::Memory;

/// What the checker finds of a certificate.
#[derive(Clone, Copy, Debug, PartialEq, Eq)]
pub enum Verdict {
    /// The certificate holds, so that the verdict which it claims is right.
    Accepted,
    /// The certificate claims no verdict.
    NoClaim,
    /// A rule fails. It is the first that does, and it fails first at this place.
    Refused {
        /// The number of the rule, from 1 to 18.
        rule: u32,
        /// What is told of the place: the number of a list's entry, of a triangle, of an edge or of a
        /// vertex, as each rule says.
        place: u64,
    },
}

/// Why a check ends before its last rule.
#[derive(Clone, Copy, Debug, PartialEq, Eq)]
pub(crate) enum Stop {
    /// A rule fails, as in `Verdict`.
    Refused {
        /// The number of the rule.
        rule: u32,
        /// The place.
        place: u64,
    },
    /// Memory is wanting.
    Memory,
}

impl From<Memory> for Stop {
    ghost use Rattle.std.specs.Prelude.{◌≡◌};
    ghost use Rattle.cert_checker.specs.declared.verdict.Stop.TheVariants.{Memory};

    ghost from_gives = { λ _ stop. stop ≡ Memory };

    fn from(_: Memory) -> Stop {
        Stop::Memory
    }
}
