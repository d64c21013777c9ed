//! The path of a text that is a word.
ghost use Rattle.std.specs.Prelude.{◌≡◌, IfOk, IfSome};
ghost use Rattle.std.specs.List.{repeat};
ghost use Rattle.tri_atlas.specs.Arena.{back};
ghost use Rattle.surface_lib.specs.Pieces.{piece};
ghost use Rattle.surface_lib.specs.Powers.{power};
ghost use Rattle.surface_lib.specs.Words.{moves_written, taken_if, named_if, value_of_piece};
ghost use Rattle.surface_lib.specs.Words.{value_of_text};
ghost use Rattle.surface_lib.specs.Surfaces.{names_of, IsSurface, IsLoop};
ghost use Rattle.surface_lib.specs.inside.Found.{moves_found};

use crate::names::{Named, generator_named};
use crate::piece::{Piece, first_piece, pieces, read_piece};
use crate::power::{Power, read_power};
use crate::surface::Surface;
use ideal_tri::Memory;
use std::alloc::Global;
use tri_atlas::Path;

/// The path of a text that passes its tests, whose brackets nest less than so many levels deep.
#[cycle(joined)]
pub(crate) fn path_of_text(
    alloc: Global,
    s: &Surface,
    levels: u32,
    text: &[u8],
) -> Result<Path, Memory>
    requires { IsSurface s.now }
    ensures closed { IfOk result (IsLoop s.now.atlas) }
    ensures moves { IfOk result
        (λ p. p.moves ≡ value_of_text (moves_written back) (names_of s.now) levels text.now) }
{
    let mut path = Path::new(alloc, s.atlas.base());
    if levels == 0 {
        return Ok(path);
    }
    let inner = levels - 1;
    let mut rest = pieces(text);
    while let Some(left) = rest {
        let (first, more) = first_piece(left);
        let next = path_of_piece(alloc, s, inner, first)?;
        path.append(&next)?;
        rest = more;
    }
    Ok(path)
}

#[cycle(joined)]
fn path_of_piece(alloc: Global, s: &Surface, levels: u32, text: &[u8]) -> Result<Path, Memory>
    requires { IsSurface s.now }
    ensures closed { IfOk result (IsLoop s.now.atlas) }
    ensures moves { IfOk result (λ p. p.moves ≡ value_of_piece (moves_written back) (names_of s.now)
        (value_of_text (moves_written back) (names_of s.now) levels) (piece text.now)) }
{
    match read_piece(text) {
        Piece::Empty => Ok(Path::new(alloc, s.atlas.base())),
        Piece::Group { inside, power } => {
            let word = path_of_text(alloc, s, levels, inside)?;
            taken(alloc, s, &word, power)
        }
        Piece::Name { spelt, power } => {
            let name = path_of_name(alloc, s, generator_named(s, spelt))?;
            taken(alloc, s, &name, power)
        }
    }
}

/// The path of a name: its generator's, or that backwards.
fn path_of_name(alloc: Global, s: &Surface, named: Option<Named<'_>>) -> Result<Path, Memory>
    requires { IfSome named (λ n. IsLoop s.now.atlas n.path.now) }
    ensures closed { IfOk result (IsLoop s.now.atlas) }
    ensures moves { IfOk result (λ p. p.moves ≡ named_if (moves_written back) (moves_found named.entry)) }
{
    match named {
        Some(
            Named {
                path,
                backwards: true,
            },
        ) => path.inverse(alloc, &s.atlas),
        Some(Named { path, .. }) => repeated(alloc, s, path, 1),
        None => Ok(Path::new(alloc, s.atlas.base())),
    }
}

/// The path with this power, if the text is one.
fn taken(alloc: Global, s: &Surface, path: &Path, text: &[u8]) -> Result<Path, Memory>
    requires { IsLoop s.now.atlas path.now }
    ensures closed { IfOk result (IsLoop s.now.atlas) }
    ensures moves { IfOk result (λ p. p.moves ≡ taken_if (moves_written back) path.now.moves (power
        text.now)) }
{
    match read_power(text) {
        Some(power) => times(alloc, s, path, power),
        None => Ok(Path::new(alloc, s.atlas.base())),
    }
}

fn times(alloc: Global, s: &Surface, path: &Path, power: Power) -> Result<Path, Memory>
    requires { IsLoop s.now.atlas path.now }
    ensures closed { IfOk result (IsLoop s.now.atlas) }
    ensures moves { IfOk result (λ p. p.moves ≡ (moves_written back).taken power path.now.moves) }
{
    if power.backwards {
        let back = path.inverse(alloc, &s.atlas)?;
        repeated(alloc, s, &back, power.times)
    } else {
        repeated(alloc, s, path, power.times)
    }
}

/// The path so many times. A path without moves is passed over, so that nested empty groups with
/// large powers cost nothing.
fn repeated(alloc: Global, s: &Surface, path: &Path, times: u32) -> Result<Path, Memory>
    requires { IsLoop s.now.atlas path.now }
    ensures closed { IfOk result (IsLoop s.now.atlas) }
    ensures moves { IfOk result (λ p. p.moves ≡ repeat times path.now.moves) }
{
    let mut whole = Path::new(alloc, s.atlas.base());
    if path.moves().is_empty() {
        return Ok(whole);
    }
    for _turn in 0..times {
        whole.append(path)?;
    }
    Ok(whole)
}
