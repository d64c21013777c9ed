//! The stages of one cycle, one after another.
ghost use Rattle.std.specs.Prelude.{◌≡◌, IfOk};
ghost use Rattle.tri_atlas.specs.Arena.{triangulation, Grows};
ghost use Rattle.tri_atlas.specs.Paths.{moves_of};
ghost use Rattle.edge_coords.specs.Coordinates.{AreCoordinatesIn};
ghost use Rattle.surface_lib.specs.Surfaces.{IsLoop};
ghost use Rattle.cycle_stages.specs.KeptStages.{IsSame};
ghost use Rattle.cycle_stages.specs.StageLists.{AreStages};

use crate::laws::stage_laws;
use crate::stages::{Stage, deepen, first_stage};
use edge_coords::Coords;
use ideal_tri::Memory;
use std::alloc::Global;
use tri_atlas::{Atlas, Path, atlas_laws};

/// The greatest depth.
const LAST: u32 = 55;

/// The stages of the depths 0 to 55 of a cycle with these coordinates at the base, in order. Where
/// the flips end early, the last stage stands for all deeper ones.
pub fn stages_of(
    alloc: Global,
    atlas: &mut Atlas,
    word: &Path,
    w: &Coords,
) -> Result<Vec<Stage>, Memory>
    requires closed { IsLoop atlas.old word.now }
    requires coordinates { AreCoordinatesIn atlas.old w.now }
    requires base { w.now.tri ≡ 0 }
    ensures stages { IfOk result (λ s. AreStages atlas.new (triangulation atlas.old 0)
        (moves_of atlas.old word.now) w.now.numbers s.items) }
    ensures grows { Grows atlas.old atlas.new }
{
    atlas_laws();
    stage_laws();
    let mut stage = first_stage(alloc, atlas, word, w);
    let mut stages = Vec::new(alloc);
    for _ in 0..LAST {
        stages.push(copied(alloc, &stage)?)?;
        if !deepen(atlas, &mut stage)? {
            return Ok(stages);
        }
    }
    stages.push(stage)?;
    Ok(stages)
}

/// The same stage once more.
pub fn copied(alloc: Global, stage: &Stage) -> Result<Stage, Memory>
    ensures { IfOk result (IsSame stage.now) }
{
    let mut path = Path::new(alloc, stage.path.start());
    path.append(&stage.path)?;
    Ok(Stage {
        path,
        edges: Vec::from_slice(alloc, &stage.edges)?,
        coords: stage.coords,
    })
}
