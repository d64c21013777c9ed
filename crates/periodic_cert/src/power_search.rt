//! The powers of a path, tried in order.
ghost use Rattle.std.specs.Prelude.{◌≡◌, ◌<◌, ◌^◌, IfOk};
ghost use Rattle.tri_atlas.specs.Arena.{triangulation};
ghost use Rattle.tri_atlas.specs.Paths.{IsPathIn, moves_of};
ghost use Rattle.periodic_cert.specs.PowerAnswers.{IsPowerAnswer};

use free_groupoid::{InnerAnswer, Map, MapError, Walk, inner, periodic_laws};
use ideal_tri::Memory;
use std::alloc::Global;
use tri_atlas::{Atlas, Path, atlas_laws};

/// What the powers of a path show.
#[derive(Drop)]
pub enum PowerAnswer {
    /// The path is periodic.
    Order {
        /// Its order: the least positive power whose map is inner.
        k: u32,
        /// The reduced walks by which it is, one from each triangle in order to its image.
        paths: Vec<Walk>,
        /// For each smaller power the first of the test walks that it doesn't carry to itself.
        reasons: Vec<Walk>,
    },
    /// A map has more letters than the cap.
    Capped {
        /// The first power in which that happens.
        power: u32,
        /// The letters after the first move that passes the cap, or 2^64 - 1 where there are more.
        letters: u64,
        /// For each smaller power the first of the test walks that it doesn't carry to itself.
        reasons: Vec<Walk>,
    },
    /// No power up to the limit is inner.
    AllRefuted {
        /// For each power the first of the test walks that it doesn't carry to itself.
        reasons: Vec<Walk>,
    },
}

/// Tries the powers of a path from the base to the base, from the first up to the limit: the least
/// whose map is inner, or the first in which a map has more letters than the cap after some move, or
/// a reason against each (Farb and Margalit, chapters 8 and 13). One map is kept and follows the path
/// once per power.
pub fn powers(
    alloc: Global,
    atlas: &Atlas,
    word: &Path,
    limit: u32,
    cap: u64,
) -> Result<PowerAnswer, Memory>
    requires path { IsPathIn atlas.now word.now }
    requires start { word.now.start ≡ 0 }
    requires end { word.now.end ≡ 0 }
    requires cap { cap < 2 ^ 63 }
    ensures { IfOk result (IsPowerAnswer (triangulation atlas.now 0) (moves_of atlas.now word.now)
        limit cap) }
{
    atlas_laws();
    periodic_laws();
    let tri = atlas.tri(atlas.base());
    let mut f = Map::identity(alloc, atlas, atlas.base())?;
    let mut reasons = Vec::new(alloc);
    // n powers are refuted
    for n in 0..limit {
        match f.follow_path(atlas, word, cap) {
            Ok(()) => {}
            Err(MapError::Memory) => return Err(Memory),
            Err(MapError::CapPassed { letters }) => {
                return Ok(PowerAnswer::Capped {
                    power: n + 1,
                    letters,
                    reasons,
                });
            }
        }
        match inner(alloc, tri, &f)? {
            InnerAnswer::Yes { paths } => {
                return Ok(PowerAnswer::Order {
                    k: n + 1,
                    paths,
                    reasons,
                });
            }
            InnerAnswer::No { walk } => reasons.push(walk)?,
        }
    }
    Ok(PowerAnswer::AllRefuted { reasons })
}
