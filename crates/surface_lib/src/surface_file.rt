//! Reading a surface file.
ghost use Rattle.std.specs.Prelude.{◌≡◌, ◌⊎◌, [], Ok, Err};
ghost use Rattle.std.specs.Prelude.{IfOk, IfErr};
ghost use Rattle.serde_json.specs.View.{view};
ghost use Rattle.surface_lib.specs.Described.{described};
ghost use Rattle.surface_lib.specs.SurfaceFiles.{IsBase, IsRefusedBase};
ghost use Rattle.surface_lib.specs.SurfaceFiles.{IsReadingOf, IsReadingOfKeys};
ghost use Rattle.surface_lib.specs.SurfaceKeys.{keys_in};
ghost use Rattle.surface_lib.specs.Surfaces.{IsSurface};
ghost use Rattle.surface_lib.specs.declared.surface_error.SurfaceError.TheVariants.{Memory};

use crate::generators::read_generators;
use crate::surface::Surface;
use crate::surface_error::SurfaceError;
use crate::surface_keys::keys_in;
use crate::twister::Twister;
use crate::version::Version;
use ideal_tri::{Tri, TriError};
use serde_json::Value;
use std::alloc::Global;

/// The most bytes of a surface file.
const FILE_LIMIT: usize = 1_048_576;

/// The most generators of a surface.
const GENERATOR_LIMIT: usize = 64;

impl From<TriError> for SurfaceError {
    ghost use Rattle.std.specs.Prelude.{◌≡◌};
    ghost use Rattle.surface_lib.specs.SurfaceFiles.{as_refusal};

    ghost from_gives = { λ error refusal. refusal ≡ as_refusal error };

    fn from(error: TriError) -> SurfaceError {
        match error {
            TriError::NoTriangle => SurfaceError::NoTriangle,
            TriError::TooManyEdges(n) => SurfaceError::TooManyEdges(n),
            TriError::LabelRange(x) => SurfaceError::LabelRange(x),
            TriError::LabelTwice(x) => SurfaceError::LabelTwice(x),
            TriError::Disconnected(t) => SurfaceError::Disconnected(t),
        }
    }
}

/// The surface that a file describes, or the first refusal: `FileTooLong`, `NotJson`; the root and
/// its keys in order; the triangles, as `Tri::from_triples` tests them in version 1, and
/// `Tri::from_components` in version 2; then the number of generators, and each of them. The twister
/// gives the paths of generators that are twists.
pub fn read_surface<T: Twister>(
    alloc: Global,
    bytes: &[u8],
    twister: &mut T,
) -> Result<Surface, SurfaceError>
    ensures surface { IfOk result IsSurface }
    ensures read { IfOk result (λ s. IsReadingOf T.twists bytes.now (Ok (described s))) }

    // Want of memory is a free answer.
    ensures refused { IfErr result (λ e. (e ≡ Memory) ⊎ IsReadingOf T.twists bytes.now (Err e)) }
{
    if bytes.len() > FILE_LIMIT {
        return Err(SurfaceError::FileTooLong);
    }
    let tree = match Value::from_slice(alloc, bytes) {
        Ok(tree) => tree,
        Err(error) if error.is_memory() => return Err(SurfaceError::Memory),
        Err(_) => return Err(SurfaceError::NotJson),
    };
    surface_in(alloc, &tree, twister)
}

/// The surface that a tree describes.
fn surface_in<T: Twister>(
    alloc: Global,
    tree: &Value,
    twister: &mut T,
) -> Result<Surface, SurfaceError>
    ensures surface { IfOk result IsSurface }
    ensures read { IfOk result (λ s.
        IsReadingOfKeys T.twists (keys_in (view tree.now)) (Ok (described s))) }
    ensures refused { IfErr result (λ e.
        (e ≡ Memory) ⊎ IsReadingOfKeys T.twists (keys_in (view tree.now)) (Err e)) }
{
    let keys = keys_in(alloc, tree)?;
    let mut surface = base_of(alloc, keys.version, keys.name, &keys.triangles)?;
    let count = keys.entries.len();
    if count > GENERATOR_LIMIT {
        return Err(SurfaceError::TooManyGenerators(count as u64));
    }
    read_generators(alloc, &mut surface, keys.version, keys.entries, twister)?;
    Ok(surface)
}

/// The surface with this name, these triangles and no generators.
fn base_of(
    alloc: Global,
    version: Version,
    name: &str,
    triples: &[[i32; 3]],
) -> Result<Surface, SurfaceError>
    ensures surface { IfOk result IsSurface }
    ensures accepted { IfOk result (λ s. IsBase version triples.now
        × (described s ≡ record { name = name.now; triangles = triples.now; generators = [] })) }
    ensures refused { IfErr result (λ e. (e ≡ Memory) ⊎ IsRefusedBase version triples.now e) }
{
    let tri = triangulation_of(version, triples)?;
    Ok(Surface::new(alloc, name, tri)?)
}

/// The triangulation of the triples, connected in version 1.
fn triangulation_of(version: Version, triples: &[[i32; 3]]) -> Result<Tri, SurfaceError>
    ensures accepted { IfOk result (λ t. IsBase version triples.now × (t ≡ triples.now)) }
    ensures refused { IfErr result (IsRefusedBase version triples.now) }
{
    Ok(match version {
        Version::One => Tri::from_triples(triples)?,
        Version::Two => Tri::from_components(triples)?,
    })
}
