//! Reading a word.
ghost use Rattle.std.specs.Prelude.{◌≡◌, ◌≤◌, ◌<◌, ◌^◌, ◌⊎◌, None, Ok, Err, IfOk, IfErr};
ghost use Rattle.tri_atlas.specs.Arena.{back};
ghost use Rattle.tri_atlas.specs.Paths.{moves_of};
ghost use Rattle.surface_lib.specs.Words.{moves_written, value_of_text};
ghost use Rattle.surface_lib.specs.Refusals.{handles_kind, moves_kind, reading, tested, levels};
ghost use Rattle.surface_lib.specs.Surfaces.{generators_of, names_of, IsSurface, IsLoop};
ghost use Rattle.surface_lib.specs.Described.{described};
ghost use Rattle.surface_lib.specs.inside.Verdicts.{IsVerdict, test_sizes};

use crate::counts::{Counts, count_text};
use crate::error::WordError;
use crate::path_of_text::path_of_text;
use crate::piece::{bad_bracket, dots};
use crate::surface::Surface;
use crate::tested::test_text;
use std::alloc::Global;
use tri_atlas::{Path, atlas_laws};

/// The most pieces of a text, and the most names of a word with all powers written out.
const PART_LIMIT: usize = 4_096;

/// The most flips of a word's path.
const FLIP_LIMIT: u128 = 65_536;

/// The most moves of a word's path.
const MOVE_LIMIT: u128 = 131_072;

/// The levels of a text whose brackets nest at most 8 deep.
const LEVELS: u32 = 9;

/// The path of a word in the generators of a surface (a mapping class in Bell's flipper), from the
/// base to the base.
///
/// The pieces of a text stand between the dots outside brackets. A piece is a generator's name, or
/// its inverse, spelt with the first letter in upper case; or a group, a word in brackets. Behind a
/// piece may stand a power, as `^3` or `^-12`. The word's path is that of its pieces joined from
/// left to right: the leftmost is applied first. The empty text is the empty word. `WordError`
/// lists the refusals in their order. All sizes are counted before any path is built.
pub fn read_word(alloc: Global, s: &Surface, word: &str) -> Result<Path, WordError>
    requires { IsSurface s.now }
    ensures closed { IfOk result (IsLoop s.now.atlas) }
    ensures path { IfOk result
        (λ p. reading (handles_kind s.now.atlas) (generators_of s.now) word.now ≡ Ok p.moves) }
    ensures accepted { IfOk result (λ p. reading moves_kind (described s.now).generators word.now
        ≡ Ok (moves_of s.now.atlas p)) }
    ensures refused { IfErr result (λ e. (e ≡ WordError.Memory)
        ⊎ (reading moves_kind (described s.now).generators word.now ≡ Err e)) }
{
    atlas_laws();
    let _base = s.atlas.base();
    let text = word.as_bytes();
    test_word(s, text)?;
    let path = path_of_text(alloc, s, LEVELS, text)?;
    Ok(path)
}

fn test_word(s: &Surface, text: &[u8]) -> Result<(), WordError>
    requires { IsSurface s.now }
    ensures { IsVerdict result (value_of_text (moves_written back) (names_of s.now) levels text.now)
        (reading (handles_kind s.now.atlas) (generators_of s.now) text.now) }
{
    match bad_bracket(text) {
        Some(place) => Err(WordError::BadGroup(place)),
        None => test_pieces(s, text),
    }
}

/// The tests of a text whose brackets are matched.
fn test_pieces(s: &Surface, text: &[u8]) -> Result<(), WordError>
    requires { IsSurface s.now }
    ensures { IsVerdict result (value_of_text (moves_written back) (names_of s.now) levels text.now)
        (tested (handles_kind s.now.atlas) (names_of s.now) text.now None) }
{
    let parts = dots(text) + 1;
    if parts > PART_LIMIT {
        return Err(WordError::WordTooLong(parts as u64));
    }
    test_text(s, LEVELS, 0, text)?;
    test_sizes(count_text(s, LEVELS, text))
}

fn test_sizes(counts: Counts) -> Result<(), WordError>
    requires flips { counts.names ≤ 4096 → counts.flips < 2 ^ 64 }
    requires moves { counts.names ≤ 4096 → counts.moves < 2 ^ 64 }
    ensures { result ≡ test_sizes counts.names counts.flips counts.moves }
{
    if counts.names > PART_LIMIT as u128 {
        Err(WordError::PartsOver(counts.names))
    } else if counts.flips > FLIP_LIMIT {
        Err(WordError::FlipsOver(counts.flips as u64))
    } else if counts.moves > MOVE_LIMIT {
        Err(WordError::MovesOver(counts.moves as u64))
    } else {
        Ok(())
    }
}
