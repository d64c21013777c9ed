//! From the word and the coordinates to the image that is printed.
ghost use Rattle.std.specs.Prelude.{◌≡◌, ◌⊎◌, ℕ, List, [], Err, IfOk, IfErr, string_bytes};
ghost use Rattle.ideal_tri.specs.Drawings.{draw};
ghost use Rattle.ideal_tri.specs.Strands.{IsDrawing};
ghost use Rattle.tri_atlas.specs.Maps.{IsImageVector, path_map};
ghost use Rattle.tri_atlas.specs.Paths.{moves_of};
ghost use Rattle.surface_lib.specs.Described.{described};
ghost use Rattle.surface_lib.specs.Refusals.{moves_kind, reading};
ghost use Rattle.surface_lib.specs.Surfaces.{IsSurface, IsLoop};
ghost use Rattle.flipper_cli.specs.Headline.{IsImageLine};
ghost use Rattle.flipper_cli.specs.Line.{line_of};
ghost use Rattle.flipper_cli.specs.Report.{IsImageReport, IsVectorReport, IsWordReport};
ghost use Rattle.flipper_cli.specs.inside.Shown.{shown};
ghost use Rattle.flipper_cli.specs.inside.AboutSurfaces.{IsAboutSurface};

use crate::coordinates::numbers_in;
use crate::line::line_of;
use crate::refusal::Refusal;
use edge_coords::Coords;
use ideal_tri::{Memory, drawing_laws};
use std::alloc::Global;
use surface_lib::{Surface, read_word};
use tri_atlas::{Path, atlas_laws};

/// Room for the line of any vector: 48 numbers of at most 38 digits, each with a space behind it.
const LINE_ROOM: usize = 48 * 39;

/// The line of the image of a multicurve, given by its coordinates, under a word in the generators
/// of the surface.
pub(crate) fn image(
    alloc: Global,
    s: &Surface,
    word: &str,
    coordinates: &str,
) -> Result<Vec<u8>, Refusal>
    requires { IsSurface s.now }
    ensures report { IsWordReport (described s.now)
        (reading moves_kind (described s.now).generators word.now) coordinates.now (shown result)
        ⊎ (result ≡ Err Refusal.Memory) }
    ensures printed { IfOk result (λ bytes.
        IsImageLine (described s.now) word.now coordinates.now bytes.items) }
    ensures refused { IfErr result IsAboutSurface }
{
    let path = read_word(alloc, s, word)?;
    let numbers = numbers_in(alloc, coordinates)?;
    image_along(alloc, s, &path, &numbers)
}

/// The line of the image of a multicurve, given by its numbers, along a path. All memory is taken
/// before the first flip.
fn image_along(
    alloc: Global,
    s: &Surface,
    path: &Path,
    numbers: &[u128],
) -> Result<Vec<u8>, Refusal>
    requires surface { IsSurface s.now }
    requires closed { IsLoop s.now.atlas path.now }
    ensures report { IsVectorReport (described s.now)
        (IsImageReport (described s.now) (moves_of s.now.atlas path.now)) numbers.now (shown result)
        ⊎ (result ≡ Err Refusal.Memory) }
    ensures printed { IfOk result (λ bytes. (v : List ℕ)
        × IsDrawing (described s.now).triangles numbers.now
        (draw (described s.now).triangles numbers.now)
        × IsImageVector (described s.now).triangles numbers.now
        (path_map (moves_of s.now.atlas path.now)) v
        × (bytes.items ≡ line_of v)) }
    ensures refused { IfErr result IsAboutSurface }
{
    drawing_laws();
    atlas_laws();
    let mut coords = Coords::new(&s.atlas, s.atlas.base(), numbers)?;
    let room = room(alloc)?;
    coords.follow(&s.atlas, path)?;
    Ok(line_of(room, coords.values())?)
}

/// An empty line with room for that of any vector.
fn room(alloc: Global) -> Result<String, Memory>
    ensures { IfOk result (λ line. string_bytes line ≡ []) }
{
    Ok(String::with_capacity(alloc, LINE_ROOM)?)
}
