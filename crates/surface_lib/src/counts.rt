//! How many names, flips and moves a word has.
ghost use Rattle.std.specs.Prelude.{◌≡◌, IfSome};
ghost use Rattle.surface_lib.specs.Pieces.{piece};
ghost use Rattle.surface_lib.specs.Powers.{power};
ghost use Rattle.surface_lib.specs.Words.{taken_if, named_if, value_of_piece, value_of_text};
ghost use Rattle.surface_lib.specs.Surfaces.{names_of, IsSurface, IsLoop};
ghost use Rattle.surface_lib.specs.inside.Counted.{counted, both, times};
ghost use Rattle.surface_lib.specs.inside.Found.{moves_found};
ghost use Rattle.tri_atlas.specs.Arena.{Arena};

use crate::names::{Named, generator_named};
use crate::piece::{Piece, first_piece, pieces, read_piece};
use crate::power::{Power, read_power};
use crate::surface::Surface;

/// How many names, flips and moves a word has, with all powers written out. A number from 2^128 - 1
/// on stands as 2^128 - 1.
#[derive(Clone, Copy, Debug, PartialEq, Eq)]
pub(crate) struct Counts {
    pub(crate) names: u128,
    pub(crate) flips: u128,
    pub(crate) moves: u128,
}

/// The counts of the empty word.
const NONE: Counts = Counts {
    names: 0,
    flips: 0,
    moves: 0,
};

/// The counts of one word behind another.
fn both(a: Counts, b: Counts) -> Counts
    ensures { result ≡ both a b }
{
    Counts {
        names: a.names.saturating_add(b.names),
        flips: a.flips.saturating_add(b.flips),
        moves: a.moves.saturating_add(b.moves),
    }
}

/// The counts of a word with this power, if the text is one.
fn taken(a: Counts, text: &[u8]) -> Counts
    ensures { (arena : Arena) → result ≡ taken_if (counted arena) a (power text.now) }
{
    match read_power(text) {
        Some(power) => times(power, a),
        None => NONE,
    }
}

fn times(power: Power, a: Counts) -> Counts
    ensures { result ≡ times power a }
{
    let times = u128::from(power.times);
    Counts {
        names: times.saturating_mul(a.names),
        flips: times.saturating_mul(a.flips),
        moves: times.saturating_mul(a.moves),
    }
}

/// The counts of a name.
fn of_name(s: &Surface, named: Option<Named<'_>>) -> Counts
    requires { IfSome named (λ n. IsLoop s.now.atlas n.path.now) }
    ensures { result ≡ named_if (counted s.now.atlas) (moves_found named.entry) }
{
    match named {
        Some(named) => Counts {
            names: 1,
            flips: u128::from(named.path.flips(&s.atlas)),
            moves: named.path.moves().len() as u128,
        },
        None => NONE,
    }
}

/// The counts of a text that passes its tests, whose brackets nest less than so many levels deep.
#[cycle(counted)]
pub(crate) fn count_text(s: &Surface, levels: u32, text: &[u8]) -> Counts
    requires { IsSurface s.now }
    ensures { result ≡ value_of_text (counted s.now.atlas) (names_of s.now) levels text.now }
{
    if levels == 0 {
        return NONE;
    }
    let inner = levels - 1;
    let mut counts = NONE;
    let mut rest = pieces(text);
    while let Some(left) = rest {
        let (first, more) = first_piece(left);
        counts = both(counts, count_piece(s, inner, first));
        rest = more;
    }
    counts
}

#[cycle(counted)]
fn count_piece(s: &Surface, levels: u32, text: &[u8]) -> Counts
    requires { IsSurface s.now }
    ensures { result ≡ value_of_piece (counted s.now.atlas) (names_of s.now)
        (value_of_text (counted s.now.atlas) (names_of s.now) levels) (piece text.now) }
{
    match read_piece(text) {
        Piece::Empty => NONE,
        Piece::Group { inside, power } => taken(count_text(s, levels, inside), power),
        Piece::Name { spelt, power } => taken(of_name(s, generator_named(s, spelt)), power),
    }
}
