//! The candidates about light edges, tried in order.
ghost use Rattle.std.specs.Prelude.{ℕ, List, IfOk};
ghost use Rattle.tri_atlas.specs.Arena.{triangulation};
ghost use Rattle.tri_atlas.specs.Paths.{moves_of};
ghost use Rattle.surface_lib.specs.Surfaces.{IsLoop};
ghost use Rattle.multicurve_cert.specs.CurveAnswers.{IsFoundIn};
ghost use Rattle.cycle_stages.specs.StageLists.{AreStages};
ghost use Rattle.light_curves.specs.LightCurves.{IsLightAnswer};

use crate::candidates::candidate;
use cycle_stages::Stage;
use ideal_tri::Memory;
use multicurve_cert::Curves;
use std::alloc::Global;
use tri_atlas::{Atlas, Path};

/// How many candidates there are, one for each depth.
const COUNT: usize = 56;

/// Tries the candidates about the light edges of the stages of a cycle, in order of depth, for a
/// multicurve that a path from the base to the base fixes: the first that passes all tests, or for
/// each the first test that it fails. The stages are those of the depths 0 to 55; where they are fewer,
/// the last one stands for the deeper ones, and isn't tested again.
pub fn search_light(
    alloc: Global,
    atlas: &Atlas,
    word: &Path,
    stages: &[Stage],
) -> Result<Curves, Memory>
    requires closed { IsLoop atlas.now word.now }
    requires stages { (w : List ℕ) × AreStages atlas.now (triangulation atlas.now 0)
        (moves_of atlas.now word.now) w stages.now }
    ensures answer { IfOk result (λ answer. (w : List ℕ) → AreStages atlas.now
        (triangulation atlas.now 0) (moves_of atlas.now word.now) w stages.now
        → IsLightAnswer (triangulation atlas.now 0) (moves_of atlas.now word.now) w answer) }
    ensures found { IfOk result (IsFoundIn atlas.now) }
{
    let mut log = Vec::new(alloc);
    // n candidates fail
    for n in 0..COUNT {
        if n < stages.len() {
            match candidate(alloc, atlas, word, &stages[n])? {
                Ok(coords) => {
                    return Ok(Curves::Found {
                        number: n as u32,
                        coords,
                    });
                }
                Err(line) => log.push(line)?,
            }
        } else {
            // the stage is the one before
            log.push(log[n - 1])?;
        }
    }
    Ok(Curves::None { log })
}
