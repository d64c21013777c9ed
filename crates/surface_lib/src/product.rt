//! Generators that are products of earlier ones.
ghost use Rattle.std.specs.Prelude.{◌≡◌, ◌≢◌, ◌<◌, ◌^◌, length, Ok, Err, IfOk, IfErr};
ghost use Rattle.serde_json.specs.View.{view};
ghost use Rattle.tri_atlas.specs.Paths.{moves_of};
ghost use Rattle.surface_lib.specs.Described.{described};
ghost use Rattle.surface_lib.specs.Products.{word_over, product_form};
ghost use Rattle.surface_lib.specs.Surfaces.{IsSurface, IsLoop};
ghost use Rattle.surface_lib.specs.inside.Faults.{IsFault};

use crate::error::WordError;
use crate::json::text_at;
use crate::refused::Refused;
use crate::surface::Surface;
use crate::surface_error::{GeneratorFault, Key};
use crate::word::read_word;
use serde_json::Value;
use std::alloc::Global;
use tri_atlas::Path;

/// The path of the product that an entry is, whose word is read over the generators of the surface:
/// those before it in the list.
pub(crate) fn product_path(alloc: Global, s: &Surface, entry: &Value) -> Result<Path, Refused>
    requires { IsSurface s.now }
    ensures closed { IfOk result (IsLoop s.now.atlas) }
    ensures short { IfOk result (λ p. length p.moves < 2 ^ 31) }
    ensures read { IfOk result (λ p. product_form (described s.now).generators (view entry.now)
        ≡ Ok (moves_of s.now.atlas p)) }
    ensures refused { IfErr result (IsFault (λ fault.
        product_form (described s.now).generators (view entry.now) ≡ Err fault)) }
    ensures no_memory { IfErr result (IsFault (λ fault.
        fault ≢ GeneratorFault.Word WordError.Memory)) }
{
    let Some(word) = text_at(entry, "word") else {
        return Err(Refused::Fault(GeneratorFault::BadShape(Key::Word)));
    };
    path_over(alloc, s, word)
}

/// The path of a word over the generators of the surface. Its refusal is a fault, want of memory is
/// none.
fn path_over(alloc: Global, s: &Surface, word: &str) -> Result<Path, Refused>
    requires { IsSurface s.now }
    ensures closed { IfOk result (IsLoop s.now.atlas) }
    ensures short { IfOk result (λ p. length p.moves < 2 ^ 31) }
    ensures read { IfOk result (λ p. word_over (described s.now).generators word.now
        ≡ Ok (moves_of s.now.atlas p)) }
    ensures refused { IfErr result (IsFault (λ fault.
        word_over (described s.now).generators word.now ≡ Err fault)) }
    ensures no_memory { IfErr result (IsFault (λ fault.
        fault ≢ GeneratorFault.Word WordError.Memory)) }
{
    match read_word(alloc, s, word) {
        Ok(path) => Ok(path),
        Err(WordError::Memory) => Err(Refused::Memory),
        Err(refusal) => Err(Refused::Fault(GeneratorFault::Word(refusal))),
    }
}
