//! Paths with their maps, which stay within the cap on letters.
ghost use Rattle.std.specs.Prelude.{◌≡◌, IfOk, IfErr};
ghost use Rattle.tri_atlas.specs.Arena.{IsTriIn};
ghost use Rattle.tri_atlas.specs.Paths.{IsPathIn, empty_path, joined};
ghost use Rattle.verdict_plan.specs.inside.Ways.{IsWay, IsWayAlong, IsPast};

use free_groupoid::{Map, MapError, groupoid_laws, periodic_laws};
use ideal_tri::Memory;
use std::alloc::Global;
use tri_atlas::{Atlas, Path, TriId};

/// The most letters of a map after a move.
const LETTER_CAP: u64 = 262_144;

/// A path of an atlas and its map.
#[derive(Drop)]
pub(crate) struct Way {
    /// The path.
    pub(crate) path: Path,
    /// Its map, which has no more letters than the cap after any move.
    pub(crate) map: Map,
}

/// The way that stays where it starts.
pub(crate) fn still(alloc: Global, atlas: &Atlas, t: TriId) -> Result<Way, Memory>
    requires { IsTriIn atlas.now t }
    ensures { IfOk result (IsWayAlong atlas.now (empty_path t)) }
{
    Ok(Way {
        path: Path::new(alloc, t),
        map: Map::identity(alloc, atlas, t)?,
    })
}

/// The same way once more.
pub(crate) fn copied(alloc: Global, atlas: &Atlas, way: &Way) -> Result<Way, Memory>
    requires { IsWay atlas.now way.now }
    ensures { IfOk result (IsWayAlong atlas.now way.now.path) }
{
    let _ = atlas.base();
    groupoid_laws();
    let mut path = Path::new(alloc, way.path.start());
    path.append(&way.path)?;
    let still = Map::identity(alloc, atlas, way.map.target())?;
    match way.map.then(alloc, &still, LETTER_CAP) {
        Ok(map) => Ok(Way { path, map }),
        // a copy has no more letters
        Err(_) => Err(Memory),
    }
}

/// Goes on along a path from where the way ends. `Err` has the letters after the first move that
/// passes the cap.
pub(crate) fn go_on(atlas: &Atlas, way: Way, p: &Path) -> Result<Result<Way, u64>, Memory>
    requires way { IsWay atlas.now way }
    requires path { IsPathIn atlas.now p.now }
    requires follows { p.now.start ≡ way.path.end }
    ensures on { IfOk result (λ r. IfOk r (IsWayAlong atlas.now (joined way.path p.now))) }
    ensures past { IfOk result (λ r. IfErr r (IsPast atlas.now (joined way.path p.now))) }
{
    let _ = atlas.base();
    periodic_laws();
    let Way { mut path, mut map } = way;
    path.append(p)?;
    match map.follow_path(atlas, p, LETTER_CAP) {
        Ok(()) => Ok(Ok(Way { path, map })),
        Err(MapError::Memory) => Err(Memory),
        Err(MapError::CapPassed { letters }) => Ok(Err(letters)),
    }
}
