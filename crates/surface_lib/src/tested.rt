//! The tests of the pieces of a text.
ghost use Rattle.std.specs.Prelude.{◌≡◌, ◌+◌, ◌<◌, ◌≤◌, ◌^◌, length, IfOk};
ghost use Rattle.surface_lib.specs.Pieces.{piece};
ghost use Rattle.surface_lib.specs.Powers.{power};
ghost use Rattle.surface_lib.specs.Words.{test_power, test_piece, test_text};
ghost use Rattle.surface_lib.specs.Surfaces.{names_of, IsSurface};

use crate::error::WordError;
use crate::names::generator_named;
use crate::piece::{Piece, first_piece, pieces, read_piece};
use crate::power::read_power;
use crate::surface::Surface;

/// Tests the pieces of a text whose brackets nest less than so many levels deep, the first of them
/// with this number; the number behind the last.
#[cycle(tested)]
pub(crate) fn test_text(
    s: &Surface,
    levels: u32,
    number: u64,
    text: &[u8],
) -> Result<u64, WordError>
    requires surface { IsSurface s.now }
    requires room { number + length text.now + 1 < 2 ^ 64 }
    ensures tested { result ≡ test_text (names_of s.now) levels number text.now }
    ensures next { IfOk result (λ n. n ≤ number + length text.now + 1) }
{
    if levels == 0 {
        return Ok(number);
    }
    let inner = levels - 1;
    let mut next = number;
    let mut rest = pieces(text);
    while let Some(left) = rest {
        let (first, more) = first_piece(left);
        next = test_piece(s, inner, next, first)?;
        rest = more;
    }
    Ok(next)
}

#[cycle(tested)]
fn test_piece(s: &Surface, levels: u32, number: u64, text: &[u8]) -> Result<u64, WordError>
    requires surface { IsSurface s.now }
    requires room { number + length text.now + 1 < 2 ^ 64 }
    ensures tested { result ≡ test_piece (names_of s.now)
        (test_text (names_of s.now) levels) number (piece text.now) }
    ensures next { IfOk result (λ n. n ≤ number + length text.now + 1) }
{
    match read_piece(text) {
        Piece::Empty => Err(WordError::EmptyPart(number)),
        Piece::Group { inside, power } => {
            let next = test_text(s, levels, number, inside)?;
            test_power(number, next, power)
        }
        Piece::Name { spelt, power } => {
            if generator_named(s, spelt).is_none() {
                return Err(WordError::UnknownName(number));
            }
            test_power(number, number + 1, power)
        }
    }
}

/// The next number, if the text is a power.
fn test_power(number: u64, next: u64, text: &[u8]) -> Result<u64, WordError>
    ensures tested { result ≡ test_power number next (power text.now) }
    ensures next { IfOk result (λ n. n ≡ next) }
{
    match read_power(text) {
        Some(_) => Ok(next),
        None => Err(WordError::BadPower(number)),
    }
}
