//! The names of generators in a surface file.
ghost use Rattle.std.specs.Prelude.{◌≡◌, true, false, IfOk};
ghost use Rattle.std.specs.Option.{option_map};
ghost use Rattle.std.specs.Result.{result_map_both};
ghost use Rattle.serde_json.specs.View.{view};
ghost use Rattle.surface_lib.specs.Described.{described};
ghost use Rattle.surface_lib.specs.GeneratorFiles.{is_taken, name_in, new_name};
ghost use Rattle.surface_lib.specs.Spelling.{is_generator_name};

use crate::spelling::is_generator_name;
use crate::surface::Surface;
use crate::surface_error::{GeneratorFault, Key};
use serde_json::Value;

/// The name of an entry, which no generator of the surface has yet, or its fault: it is no object,
/// has no name, has a wrong one, or one that is taken.
pub(crate) fn new_name<'v>(s: &Surface, entry: &'v Value) -> Result<&'v str, GeneratorFault>
    ensures read { result_map_both (λ name. name.now) (λ fault. fault) result
        ≡ new_name (described s.now).generators (view entry.now) }
    ensures spelt { IfOk result (λ name. is_generator_name name.now ≡ true) }
    ensures fresh { IfOk result (λ name.
        is_taken (described s.now).generators name.now ≡ false) }
{
    if !entry.is_object() {
        return Err(GeneratorFault::BadShape(Key::Generator));
    }
    let Some(value) = entry.get("name") else {
        return Err(GeneratorFault::MissingKey(Key::Name));
    };
    let Some(name) = name_in(value) else {
        return Err(GeneratorFault::BadName);
    };
    if is_taken(s, name) {
        return Err(GeneratorFault::SameName);
    }
    Ok(name)
}

/// The text, if it is spelt as the name of a generator.
fn name_in(value: &Value) -> Option<&str>
    ensures { option_map (λ name. name.now) result ≡ name_in (view value.now) }
{
    let text = value.as_str()?;
    if is_generator_name(text) {
        Some(text)
    } else {
        None
    }
}

/// Whether a generator has the name.
fn is_taken(s: &Surface, name: &str) -> bool
    ensures { result ≡ is_taken (described s.now).generators name.now }
{
    s.generators.contains_key(name)
}
