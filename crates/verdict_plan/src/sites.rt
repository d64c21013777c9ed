//! Where the candidates of a cycle look for a train track, and what one keeps for the next.
//!
//! The candidates of a cycle come depth by depth, and at each depth power by power. Those of a
//! depth share the stage, the track there, and the map of the flips backwards and the word, as often
//! as it has been taken.
ghost use Rattle.std.specs.Prelude.{◌≡◌, IfOk};
ghost use Rattle.tri_atlas.specs.Arena.{Grows};
ghost use Rattle.tri_atlas.specs.Paths.{MovePath};
ghost use Rattle.edge_coords.specs.Coordinates.{AreCoordinatesIn};
ghost use Rattle.surface_lib.specs.Surfaces.{IsLoop};
ghost use Rattle.cycle_stages.specs.KeptStages.{IsKept};
ghost use Rattle.verdict_plan.specs.inside.Sites.{IsStanding, IsSite, IsFirstPower, IsNextDepth};

use crate::progress::{Progress, flips_back};
use crate::track_tests::track_of;
use cert_text::TrackLine;
use cycle_stages::{Stage, deepen, first_stage};
use edge_coords::Coords;
use ideal_tri::Memory;
use std::alloc::Global;
use train_track::Track;
use tri_atlas::{Atlas, Path, atlas_laws};

/// What is kept of the candidates of a cycle.
#[derive(Drop)]
pub(crate) struct Site {
    /// The stage.
    pub(crate) stage: Stage,
    /// How its candidates stand.
    pub(crate) standing: Standing,
}

/// How the candidates of a stage stand.
#[derive(Drop)]
pub(crate) enum Standing {
    /// There is no track, and all fail this test.
    Failed(TrackLine),
    /// There is one.
    Open {
        /// The track.
        track: Track,
        /// How often the word has been taken.
        progress: Progress,
    },
}

/// The site of the first candidate of a cycle with these coordinates at the base.
pub(crate) fn first_site(
    alloc: Global,
    atlas: &Atlas,
    word: &Path,
    w: &Coords,
) -> Result<Site, Memory>
    requires closed { IsLoop atlas.now word.now }
    requires coordinates { AreCoordinatesIn atlas.now w.now }
    requires base { w.now.tri ≡ 0 }
    ensures { IfOk result (IsSite atlas.now word.now w.now.numbers 0 1) }
{
    let stage = first_stage(alloc, atlas, word, w);
    first_power(alloc, atlas, stage)
}

/// The site of the next candidate, at the stage one flip deeper.
pub(crate) fn next_depth(
    alloc: Global,
    atlas: &mut Atlas,
    word: &Path,
    site: Site,
) -> Result<Site, Memory>
    requires closed { IsLoop atlas.old word.now }
    requires kept { IsKept atlas.old site.stage }
    ensures next { IfOk result (IsNextDepth atlas.old atlas.new word.now site) }
    ensures grows { Grows atlas.old atlas.new }
{
    let _ = atlas.base();
    atlas_laws();
    let Site {
        mut stage,
        standing: _,
    } = site;
    deepen(atlas, &mut stage)?;
    first_power(alloc, atlas, stage)
}

/// The site of the first candidate of a stage.
fn first_power(alloc: Global, atlas: &Atlas, stage: Stage) -> Result<Site, Memory>
    requires { IsKept atlas.now stage }
    ensures { IfOk result (λ site. (word : MovePath) → IsFirstPower atlas.now word stage site) }
{
    let standing = opened(alloc, atlas, &stage)?;
    Ok(Site { stage, standing })
}

/// How the candidates of a stage stand at first.
fn opened(alloc: Global, atlas: &Atlas, stage: &Stage) -> Result<Standing, Memory>
    requires { IsKept atlas.now stage.now }
    ensures { IfOk result (λ s. (word : MovePath) → IsStanding atlas.now word stage.now 1 s) }
{
    match track_of(alloc, atlas, &stage.coords)? {
        Ok(track) => {
            let progress = flips_back(alloc, atlas, stage, &track)?;
            Ok(Standing::Open { track, progress })
        }
        Err(line) => Ok(Standing::Failed(line)),
    }
}
