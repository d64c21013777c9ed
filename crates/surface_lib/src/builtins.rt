//! The surfaces that are built in.
ghost use Rattle.std.specs.Prelude.{◌≡◌, [], ◌∷◌, ◌++◌, true, false, Some, Ok, IfOk, IfErr};
ghost use Rattle.std.specs.Prelude.{OnOk};
ghost use Rattle.tri_atlas.specs.Arena.{triangulation};
ghost use Rattle.tri_atlas.specs.Moves.{relabel};
ghost use Rattle.surface_lib.specs.BuiltinSurfaces.{builtin_named, IsRefusedBuiltin};
ghost use Rattle.surface_lib.specs.BuiltinSurfaces.{once_punctured_torus};
ghost use Rattle.surface_lib.specs.BuiltinSurfaces.{three_punctured_sphere};
ghost use Rattle.surface_lib.specs.BuiltinSurfaces.{four_punctured_sphere};
ghost use Rattle.surface_lib.specs.Described.{Described, described};
ghost use Rattle.surface_lib.specs.FlipsForms.{Flipped, flips_in};
ghost use Rattle.surface_lib.specs.GeneratorFiles.{is_taken};
ghost use Rattle.surface_lib.specs.Spelling.{is_generator_name};
ghost use Rattle.surface_lib.specs.Surfaces.{IsSurface};
ghost use Rattle.surface_lib.specs.inside.ClosedForms.{IsClosedForm, with_generator};

use crate::flips_form::{closed_by, flips_in};
use crate::refused::Refused;
use crate::surface::Surface;
use ideal_tri::{Memory, Tri, hit_laws};
use std::alloc::Global;
use thiserror::Error;
use tri_atlas::atlas_laws;

/// Why there is no built-in surface.
#[derive(Clone, Copy, Debug, PartialEq, Eq, Error)]
pub enum BuiltinError {
    /// No surface with this name is built in.
    #[error("UnknownBuiltin")]
    UnknownBuiltin,
    /// No memory was found.
    #[error("Memory")]
    Memory,
}

impl From<Memory> for BuiltinError {
    ghost use Rattle.std.specs.Prelude.{◌≡◌};
    ghost use Rattle.surface_lib.specs.declared.builtins.BuiltinError.TheVariants.{Memory};

    ghost from_gives = { λ _ error. error ≡ Memory };

    fn from(_: Memory) -> BuiltinError {
        BuiltinError::Memory
    }
}

/// The surface that is built in under this name: the once-punctured torus `S_1_1` with generators
/// `a` and `b`, the three-punctured sphere `S_0_3` and the four-punctured sphere `S_0_4`, each with
/// a rotation `r`. For any other name the refusal is `UnknownBuiltin`.
pub fn builtin(alloc: Global, name: &str) -> Result<Surface, BuiltinError>
    ensures surface { IfOk result IsSurface }
    ensures found { IfOk result (λ s. builtin_named name.now ≡ Some (described s)) }
    ensures refused { IfErr result (IsRefusedBuiltin name.now) }
{
    match name {
        "S_1_1" => Ok(torus(alloc)?),
        "S_0_3" => Ok(sphere_of_three(alloc)?),
        "S_0_4" => Ok(sphere_of_four(alloc)?),
        _ => Err(BuiltinError::UnknownBuiltin),
    }
}

/// The once-punctured torus.
fn torus(alloc: Global) -> Result<Surface, Memory>
    ensures surface { IfOk result IsSurface }
    ensures holds { IfOk result (λ s. described s ≡ once_punctured_torus) }
{
    let mut s = Surface::new(alloc, "S_1_1", torus_base())?;
    insert(alloc, &mut s, "a", &[0], &[2, 1, -1])?;
    insert(alloc, &mut s, "b", &[0], &[-2, -1, 2])?;
    Ok(s)
}

/// The three-punctured sphere.
fn sphere_of_three(alloc: Global) -> Result<Surface, Memory>
    ensures surface { IfOk result IsSurface }
    ensures holds { IfOk result (λ s. described s ≡ three_punctured_sphere) }
{
    let mut s = Surface::new(alloc, "S_0_3", sphere_of_three_base())?;
    insert(alloc, &mut s, "r", &[], &[1, 2, 0])?;
    Ok(s)
}

/// The four-punctured sphere.
fn sphere_of_four(alloc: Global) -> Result<Surface, Memory>
    ensures surface { IfOk result IsSurface }
    ensures holds { IfOk result (λ s. described s ≡ four_punctured_sphere) }
{
    let mut s = Surface::new(alloc, "S_0_4", sphere_of_four_base())?;
    insert(alloc, &mut s, "r", &[], &[1, 2, 0, 5, -4, -5])?;
    Ok(s)
}

/// The base of the once-punctured torus.
fn torus_base() -> Tri
    ensures { result ≡ once_punctured_torus.triangles }
{
    match Tri::from_triples(&[[0, 1, 2], [-1, -2, -3]]) {
        Ok(tri) => tri,
        Err(_) => unreachable!(),
    }
}

/// The base of the three-punctured sphere.
fn sphere_of_three_base() -> Tri
    ensures { result ≡ three_punctured_sphere.triangles }
{
    match Tri::from_triples(&[[0, 1, 2], [-1, -3, -2]]) {
        Ok(tri) => tri,
        Err(_) => unreachable!(),
    }
}

/// The base of the four-punctured sphere.
fn sphere_of_four_base() -> Tri
    ensures { result ≡ four_punctured_sphere.triangles }
{
    match Tri::from_triples(&[[0, 3, -2], [2, -5, -1], [1, 5, -3], [4, -6, -4]]) {
        Ok(tri) => tri,
        Err(_) => unreachable!(),
    }
}

/// Puts a generator behind the others: the flips of these edges, and a relabelling onto the base of
/// what they lead to.
fn insert(
    alloc: Global,
    s: &mut Surface,
    name: &str,
    edges: &[i32],
    images: &[i32],
) -> Result<(), Memory>
    requires surface { IsSurface s.old }
    requires spelt { is_generator_name name.now ≡ true }
    requires new { is_taken (described s.old).generators name.now ≡ false }
    requires closed { IsClosedForm (triangulation s.old.atlas 0) edges.now images.now }
    ensures surface { OnOk result (IsSurface s.new) }
    ensures behind { OnOk result ((before : Described) (f : Flipped) → described s.old ≡ before
        → flips_in before.triangles edges.now ≡ Ok f
        → described s.new ≡ with_generator before name.now (f.moves ++ relabel images.now ∷ [])) }
{
    atlas_laws();
    hit_laws();
    let flips = match flips_in(alloc, &mut s.atlas, edges) {
        Ok(flips) => flips,
        Err(Refused::Memory) => return Err(Memory),
        Err(Refused::Fault(_)) => unreachable!(),
    };
    let path = match closed_by(&mut s.atlas, flips, images) {
        Ok(path) => path,
        Err(Refused::Memory) => return Err(Memory),
        Err(Refused::Fault(_)) => unreachable!(),
    };
    s.insert(alloc, name, path)?;
    Ok(())
}
