//! Candidates whose maps pass the cap on letters, seen by a curve.
//!
//! The image of a curve under a map runs along the images of the letters that the curve crosses,
//! and what is reduced only makes it shorter. So where its image is crossed more often than the cap
//! says, for each time that the curve crosses an edge most, the map has more letters than the cap.
ghost use Rattle.std.specs.Prelude.{◌≡◌, IfOk, IsTrue};
ghost use Rattle.tri_atlas.specs.Arena.{triangulation};
ghost use Rattle.tri_atlas.specs.Paths.{moves_of};
ghost use Rattle.edge_coords.specs.Coordinates.{AreCoordinatesIn};
ghost use Rattle.surface_lib.specs.Surfaces.{IsLoop};
ghost use Rattle.multicurve_cert.specs.Candidates.{image_number};
ghost use Rattle.cycle_stages.specs.KeptStages.{IsKept};
ghost use Rattle.verdict_plan.specs.inside.PastCap.{IsPastAt};

use cycle_stages::{Stage, greatest};
use edge_coords::{Coords, OverflowAt};
use ideal_tri::{drawing_laws, word_laws};
use multicurve_cert::power_laws;
use tri_atlas::{Atlas, Path, atlas_laws, map_laws, vector_laws};

/// The most letters of a map after a move.
const LETTER_CAP: u128 = 262_144;

/// Whether the maps of all candidates of a stage with so high a power of the word, or a higher one,
/// pass the cap on letters, as far as the curve with these coordinates at the base shows it. It
/// takes no memory.
pub(crate) fn is_past(atlas: &Atlas, word: &Path, stage: &Stage, w: &Coords, power: u32) -> bool
    requires closed { IsLoop atlas.now word.now }
    requires kept { IsKept atlas.now stage.now }
    requires coordinates { AreCoordinatesIn atlas.now w.now }
    requires base { w.now.tri ≡ 0 }
    ensures { IsTrue result → IsPastAt atlas.now word.now stage.now power }
{
    let _ = atlas.base();
    word_laws();
    drawing_laws();
    atlas_laws();
    map_laws();
    vector_laws();
    power_laws(atlas, word);
    let mut there = *w;
    match there.follow(atlas, &stage.path) {
        Ok(()) => {}
        Err(_) => return false,
    }
    match image_after(atlas, word, w, power) {
        Ok(image) => image.total() / LETTER_CAP > greatest(there.values()),
        Err(_) => false,
    }
}

/// The image of the curve with these coordinates under the word taken so many times. `OverflowAt`
/// where an image has a number of 2^126 or more before.
fn image_after(atlas: &Atlas, word: &Path, w: &Coords, times: u32) -> Result<Coords, OverflowAt>
    requires closed { IsLoop atlas.now word.now }
    requires coordinates { AreCoordinatesIn atlas.now w.now }
    requires base { w.now.tri ≡ 0 }
    ensures { IfOk result (λ image. image.numbers ≡ image_number (triangulation atlas.now 0)
        (moves_of atlas.now word.now) w.now.numbers times) }
{
    power_laws(atlas, word);
    let mut image = *w;
    for _ in 0..times {
        image.follow(atlas, word)?;
    }
    Ok(image)
}
