//! The keys of a surface file, in their order.
ghost use Rattle.std.specs.Prelude.{◌≡◌, ◌⊎◌, map, codes, Ok, Err, IfOk, IfErr};
ghost use Rattle.serde_json.specs.View.{view};
ghost use Rattle.surface_lib.specs.Json.{list_in, triangles_in};
ghost use Rattle.surface_lib.specs.SurfaceKeys.{at_key, format_in, version_in, name_in, keys_in};
ghost use Rattle.surface_lib.specs.declared.surface_error.Key.TheVariants as key;
ghost use Rattle.surface_lib.specs.declared.surface_error.SurfaceError.TheVariants.{Memory};
ghost use Rattle.surface_lib.specs.inside.Seen.{keys_of, seen};

use crate::json::{list_in, triangles_in, whole_in};
use crate::spelling::is_surface_name;
use crate::surface_error::{Key, SurfaceError};
use crate::version::Version;
use serde_json::Value;
use std::alloc::Global;

/// What the keys of a surface file hold. The entries of its generators are read later.
#[derive(Drop)]
pub(crate) struct Keys<'v> {
    pub(crate) version: Version,
    pub(crate) name: &'v str,
    pub(crate) triangles: Vec<[i32; 3]>,
    pub(crate) entries: &'v [Value],
}

/// What the keys hold, in their order, or the first refusal.
pub(crate) fn keys_in<'v>(alloc: Global, tree: &'v Value) -> Result<Keys<'v>, SurfaceError>
    ensures found { IfOk result (λ keys. keys_in (view tree.now) ≡ Ok (keys_of keys)) }
    ensures refused { IfErr result (λ e. (e ≡ Memory) ⊎ (keys_in (view tree.now) ≡ Err e)) }
{
    if tree.as_object().is_none() {
        return Err(SurfaceError::BadShape(Key::File));
    }
    format_at(tree)?;
    let version = version_at(tree)?;
    let name = name_at(tree)?;
    let triangles = triangles_at(alloc, tree)?;
    let entries = generators_at(tree)?;
    Ok(Keys {
        version,
        name,
        triangles,
        entries,
    })
}

/// Whether the format is `flipper-surface`.
fn format_at(tree: &Value) -> Result<(), SurfaceError>
    ensures { result ≡ at_key key.Format (codes "format") format_in (view tree.now) }
{
    let value = tree
        .get("format")
        .ok_or(SurfaceError::MissingKey(Key::Format))?;
    match value.as_str() {
        Some("flipper-surface") => Ok(()),
        _ => Err(SurfaceError::BadShape(Key::Format)),
    }
}

/// The version, 1 or 2.
fn version_at(tree: &Value) -> Result<Version, SurfaceError>
    ensures { result ≡ at_key key.Version (codes "version") version_in (view tree.now) }
{
    let value = tree
        .get("version")
        .ok_or(SurfaceError::MissingKey(Key::Version))?;
    match whole_in(value) {
        Some(1) => Ok(Version::One),
        Some(2) => Ok(Version::Two),
        _ => Err(SurfaceError::BadShape(Key::Version)),
    }
}

/// The name of the surface.
fn name_at(tree: &Value) -> Result<&str, SurfaceError>
    ensures { seen (λ name. name.now) result
        ≡ at_key key.Name (codes "name") name_in (view tree.now) }
{
    let value = tree.get("name").ok_or(SurfaceError::MissingKey(Key::Name))?;
    match value.as_str() {
        Some(name) if is_surface_name(name) => Ok(name),
        _ => Err(SurfaceError::BadShape(Key::Name)),
    }
}

/// The triples of its triangles.
fn triangles_at(alloc: Global, tree: &Value) -> Result<Vec<[i32; 3]>, SurfaceError>
    ensures { (result ≡ Err Memory) ⊎ (seen (λ v. v.items) result
        ≡ at_key key.Triangles (codes "triangles") triangles_in (view tree.now)) }
{
    let value = tree
        .get("triangles")
        .ok_or(SurfaceError::MissingKey(Key::Triangles))?;
    triangles_in(alloc, value)?.ok_or(SurfaceError::BadShape(Key::Triangles))
}

/// The entries of its generators.
fn generators_at(tree: &Value) -> Result<&[Value], SurfaceError>
    ensures { seen (λ list. map view list.now) result
        ≡ at_key key.Generators (codes "generators") list_in (view tree.now) }
{
    let value = tree
        .get("generators")
        .ok_or(SurfaceError::MissingKey(Key::Generators))?;
    list_in(value).ok_or(SurfaceError::BadShape(Key::Generators))
}
