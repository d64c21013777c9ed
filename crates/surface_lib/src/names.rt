//! The generators that the names of a word stand for.
ghost use Rattle.std.specs.Prelude.{◌≡◌, ◌∷◌, IfSome};
ghost use Rattle.std.specs.Option.{option_map};
ghost use Rattle.std.specs.Str.{bytes_eq};
ghost use Rattle.surface_lib.specs.Spelling.{is_upper};
ghost use Rattle.surface_lib.specs.Words.{moves_of};
ghost use Rattle.surface_lib.specs.Surfaces.{generators_of, names_of, IsSurface, IsLoop};
ghost use Rattle.surface_lib.specs.inside.Found.{moves_found};

use crate::spelling::is_upper;
use crate::surface::Surface;
use tri_atlas::Path;

/// A generator that a name stands for, or its inverse.
#[derive(Clone, Copy)]
pub(crate) struct Named<'a> {
    pub(crate) path: &'a Path,
    pub(crate) backwards: bool,
}

/// The generator with this name; with the first letter in upper case, its inverse.
pub(crate) fn generator_named<'a>(s: &'a Surface, name: &[u8]) -> Option<Named<'a>>
    requires { IsSurface s.now }
    ensures closed { IfSome result (λ n. IsLoop s.now.atlas n.path.now) }
    ensures found { moves_found result ≡ names_of s.now name.now }
{
    match name {
        [] => None,
        [first, rest @ ..] => with_first(s, *first, rest),
    }
}

fn with_first<'a>(s: &'a Surface, first: u8, rest: &[u8]) -> Option<Named<'a>>
    requires { IsSurface s.now }
    ensures closed { IfSome result (λ n. IsLoop s.now.atlas n.path.now) }
    ensures found { moves_found result ≡ names_of s.now (first ∷ rest.now) }
{
    let backwards = is_upper(first);
    let lower = if backwards { first + 32 } else { first };
    let path = find(s, lower, rest)?;
    Some(Named { path, backwards })
}

/// The path of the generator whose name has this first byte and these behind it.
fn find<'a>(s: &'a Surface, first: u8, rest: &[u8]) -> Option<&'a Path>
    requires { IsSurface s.now }
    ensures closed { IfSome result (λ p. IsLoop s.now.atlas p.now) }
    ensures found { option_map (λ p. p.now.moves) result
        ≡ moves_of (first ∷ rest.now) (generators_of s.now) }
{
    for (name, path) in &s.generators {
        if is_spelt(name.as_bytes(), first, rest) {
            return Some(path);
        }
    }
    None
}

fn is_spelt(name: &[u8], first: u8, rest: &[u8]) -> bool
    ensures { result ≡ bytes_eq name.now (first ∷ rest.now) }
{
    match name {
        [] => false,
        [c, others @ ..] => *c == first && others == rest,
    }
}
