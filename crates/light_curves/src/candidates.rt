//! One candidate: the curves about the light edges of a stage, carried back to the base, and its tests.
ghost use Rattle.std.specs.Prelude.{◌≡◌, ◌<◌, length, IfOk, IfErr};
ghost use Rattle.tri_atlas.specs.Arena.{triangulation};
ghost use Rattle.tri_atlas.specs.FlipPaths.{flips_along};
ghost use Rattle.tri_atlas.specs.MovedVectors.{vector_along};
ghost use Rattle.tri_atlas.specs.Moves.{back_along};
ghost use Rattle.tri_atlas.specs.Paths.{moves_of};
ghost use Rattle.edge_coords.specs.Coordinates.{AreCoordinatesIn};
ghost use Rattle.surface_lib.specs.Surfaces.{IsLoop};
ghost use Rattle.multicurve_cert.specs.LastTests.{AreAtBase};
ghost use Rattle.cycle_stages.specs.KeptStages.{IsKept};
ghost use Rattle.cycle_stages.specs.StageLists.{depth_count};
ghost use Rattle.light_curves.specs.inside.StageCurves.{IsLineHere, PassesHere};
ghost use Rattle.light_curves.specs.inside.Touched.{AreAtMostTwo};

use crate::curves_about::curves_about;
use cycle_stages::Stage;
use edge_coords::{Coords, CurveLine};
use ideal_tri::Memory;
use multicurve_cert::test_fixed;
use std::alloc::Global;
use tri_atlas::{Atlas, Path, atlas_laws};

/// The candidate of a stage, where it passes all tests, or the first test that it fails.
pub(crate) fn candidate(
    alloc: Global,
    atlas: &Atlas,
    word: &Path,
    stage: &Stage,
) -> Result<Result<Coords, CurveLine>, Memory>
    requires closed { IsLoop atlas.now word.now }
    requires kept { IsKept atlas.now stage.now }
    requires short { length stage.now.edges.items < depth_count }
    ensures passes { IfOk result (λ r. IfOk r (PassesHere atlas.now (moves_of atlas.now word.now)
        stage.now)) }
    ensures line { IfOk result (λ r. IfErr r (IsLineHere atlas.now (moves_of atlas.now word.now)
        stage.now)) }
{
    let Some(curves) = curves_about(alloc, atlas, &stage.coords)? else {
        return Ok(Err(CurveLine::NotMulticurve));
    };
    let made = carried_back(alloc, atlas, stage, curves)?;
    Ok(test_fixed(atlas, word, made))
}

/// Carries curves at a stage back over its flips to the base. Each flip at most doubles the greatest
/// number, so none reaches 2^126.
fn carried_back(
    alloc: Global,
    atlas: &Atlas,
    stage: &Stage,
    curves: Coords,
) -> Result<Coords, Memory>
    requires kept { IsKept atlas.now stage.now }
    requires short { length stage.now.edges.items < depth_count }
    requires here { AreCoordinatesIn atlas.now curves }
    requires there { curves.tri ≡ stage.now.coords.tri }
    requires few { AreAtMostTwo curves.numbers }
    ensures base { IfOk result (AreAtBase atlas.now) }
    ensures numbers { IfOk result (λ c. c.numbers ≡ vector_along (back_along
        (flips_along (triangulation atlas.now 0) stage.now.edges.items)) curves.numbers) }
{
    // what is true of every atlas
    let _ = atlas.base();
    atlas_laws();
    let back = stage.path.inverse(alloc, atlas)?;
    let mut carried = curves;
    match carried.follow(atlas, &back) {
        Ok(()) => Ok(carried),
        Err(_) => unreachable!(),
    }
}
