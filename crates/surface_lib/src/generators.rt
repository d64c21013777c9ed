//! The generators of a surface file.
ghost use Rattle.std.specs.Prelude.{◌≡◌, ◌<◌, ◌^◌, ◌⊎◌, length, map, Ok, Err, OnOk, IfOk, IfErr};
ghost use Rattle.serde_json.specs.View.{view};
ghost use Rattle.tri_atlas.specs.Arena.{triangulation};
ghost use Rattle.tri_atlas.specs.Paths.{moves_of};
ghost use Rattle.surface_lib.specs.Described.{described};
ghost use Rattle.surface_lib.specs.GeneratorFiles.{form_of, IsReadAs, IsGeneratorRead};
ghost use Rattle.surface_lib.specs.GeneratorFiles.{AreGeneratorsRead};
ghost use Rattle.surface_lib.specs.Surfaces.{IsSurface, IsLoop};
ghost use Rattle.surface_lib.specs.inside.Faults.{IsFault, IsLonger};
ghost use Rattle.surface_lib.specs.declared.surface_error.SurfaceError.TheVariants.{Memory};

use crate::flips_form::flips_path;
use crate::new_name::new_name;
use crate::product::product_path;
use crate::refused::Refused;
use crate::surface::Surface;
use crate::surface_error::SurfaceError;
use crate::twist_form::twist_path;
use crate::twister::Twister;
use crate::version::Version;
use serde_json::Value;
use std::alloc::Global;
use tri_atlas::{Path, atlas_laws};

/// A form of a generator.
#[derive(Clone, Copy, Debug, PartialEq, Eq)]
pub(crate) enum Form {
    /// Flips, and a relabelling behind them.
    Flips,
    /// A twist along a curve.
    Twist,
    /// A word over the generators before it.
    Product,
}

/// Puts the generators of the entries behind those of a surface, or gives the first refusal, with
/// the index of its entry.
pub(crate) fn read_generators<T: Twister>(
    alloc: Global,
    s: &mut Surface,
    version: Version,
    entries: &[Value],
    twister: &mut T,
) -> Result<(), SurfaceError>
    requires { IsSurface s.old }
    ensures surface { OnOk result (IsSurface s.new) }
    ensures name { OnOk result (s.new.name ≡ s.old.name) }
    ensures base { OnOk result (triangulation s.new.atlas 0 ≡ triangulation s.old.atlas 0) }
    ensures read { OnOk result (AreGeneratorsRead T.twists version (triangulation s.old.atlas 0) 0
        (described s.old).generators (map view entries.now) (Ok (described s.new).generators)) }

    // Want of memory is a free answer.
    ensures refused { IfErr result (λ refusal. (refusal ≡ Memory)
        ⊎ AreGeneratorsRead T.twists version (triangulation s.old.atlas 0) 0 (described s.old).generators
        (map view entries.now) (Err refusal)) }
{
    for index in 0..entries.len() {
        match read_generator(alloc, s, version, &entries[index], twister) {
            Ok(()) => {}
            Err(Refused::Fault(fault)) => {
                let index = index as u64;
                return Err(SurfaceError::Generator { index, fault });
            }
            Err(Refused::Memory) => return Err(SurfaceError::Memory),
        }
    }
    Ok(())
}

/// Puts the generator of an entry behind those of a surface.
fn read_generator<T: Twister>(
    alloc: Global,
    s: &mut Surface,
    version: Version,
    entry: &Value,
    twister: &mut T,
) -> Result<(), Refused>
    requires { IsSurface s.old }
    ensures surface { OnOk result (IsSurface s.new) }
    ensures name { OnOk result (s.new.name ≡ s.old.name) }
    ensures base { OnOk result (triangulation s.new.atlas 0 ≡ triangulation s.old.atlas 0) }
    ensures read { OnOk result (IsLonger (described s.old).generators (described s.new).generators
        (λ g. IsGeneratorRead T.twists version (triangulation s.old.atlas 0) (described s.old).generators
        (view entry.now) (Ok g))) }
    ensures refused { IfErr result (IsFault (λ fault.
        IsGeneratorRead T.twists version (triangulation s.old.atlas 0) (described s.old).generators
        (view entry.now) (Err fault))) }
{
    let name = new_name(s, entry)?;
    let path = path_in(alloc, s, version, entry, twister)?;
    s.insert(alloc, name, path)?;
    Ok(())
}

/// The path of the generator of an entry, in the atlas of a surface.
fn path_in<T: Twister>(
    alloc: Global,
    s: &mut Surface,
    version: Version,
    entry: &Value,
    twister: &mut T,
) -> Result<Path, Refused>
    requires { IsSurface s.old }
    ensures surface { OnOk result (IsSurface s.new) }
    ensures unchanged { OnOk result (described s.new ≡ described s.old) }
    ensures name { OnOk result (s.new.name ≡ s.old.name) }
    ensures closed { IfOk result (IsLoop s.new.atlas) }
    ensures short { IfOk result (λ p. length p.moves < 2 ^ 31) }
    ensures read { IfOk result (λ p. IsReadAs T.twists (form_of version (view entry.now))
        (triangulation s.old.atlas 0) (described s.old).generators (view entry.now)
        (Ok (moves_of s.new.atlas p))) }
    ensures refused { IfErr result (IsFault (λ fault. IsReadAs T.twists (form_of version (view entry.now))
        (triangulation s.old.atlas 0) (described s.old).generators (view entry.now)
        (Err fault))) }
{
    atlas_laws();
    match form_of(version, entry) {
        Form::Flips => flips_path(alloc, &mut s.atlas, entry),
        Form::Twist => twist_path(alloc, &mut s.atlas, entry, twister),
        Form::Product => product_path(alloc, s, entry),
    }
}

/// The form that an entry has.
fn form_of(version: Version, entry: &Value) -> Form
    ensures { result ≡ form_of version (view entry.now) }
{
    if entry.get("twist").is_some() {
        Form::Twist
    } else if version == Version::Two && entry.get("word").is_some() {
        Form::Product
    } else {
        Form::Flips
    }
}
