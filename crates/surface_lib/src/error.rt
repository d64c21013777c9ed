//! Why a text is no word.
use ideal_tri::Memory;
use thiserror::Error;

/// Why a text is no word in the generators of a surface: the first test that fails, in the order of
/// the variants.
///
/// Pieces that are no groups are numbered from 0 over the whole text; a group has the number of
/// such pieces that begin before it.
#[derive(Clone, Copy, Debug, PartialEq, Eq, Error)]
pub enum WordError {
    /// The bracket at this byte closes nothing or makes nine open; or one stays open, and this is
    /// the text's length.
    #[error("BadGroup {0}")]
    BadGroup(u64),
    /// The text has so many dots, and one more: above 4,096.
    #[error("WordTooLong {0}")]
    WordTooLong(u64),
    /// Nothing stands between two dots.
    #[error("EmptyPart {0}")]
    EmptyPart(u64),
    /// The text before the first `^` is no generator's name and no inverse of one.
    #[error("UnknownName {0}")]
    UnknownName(u64),
    /// What stands behind a name or a group is no power.
    #[error("BadPower {0}")]
    BadPower(u64),
    /// With all powers written out the word has so many names: above 4,096.
    #[error("PartsOver {0}")]
    PartsOver(u128),
    /// The word's path has so many flips: above 65,536.
    #[error("FlipsOver {0}")]
    FlipsOver(u64),
    /// The word's path has so many moves: above 131,072.
    #[error("MovesOver {0}")]
    MovesOver(u64),
    /// No memory was found.
    #[error("Memory")]
    Memory,
}

impl From<Memory> for WordError {
    ghost use Rattle.std.specs.Prelude.{◌≡◌};
    ghost use Rattle.surface_lib.specs.declared.error.WordError.TheVariants.{Memory};

    ghost from_gives = { λ _ error. error ≡ Memory };

    fn from(_: Memory) -> WordError {
        WordError::Memory
    }
}
