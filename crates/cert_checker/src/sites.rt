//! The rules for the track of a certificate and the map that carries it, 12 to 14.
ghost use Rattle.std.specs.Prelude.{◌≡◌, ◌<◌, ℕ, List, [], ◌∷◌, ◌++◌, pos};
ghost use Rattle.std.specs.Prelude.{IfOk, IfErr, OnOk, IfSome, IfNone};
ghost use Rattle.std.specs.List.{repeat};
ghost use Rattle.ideal_tri.specs.Triangulations.{edge_count};
ghost use Rattle.tri_atlas.specs.Arena.{Grows, IsTriIn, IsEdgeIn, triangulation};
ghost use Rattle.tri_atlas.specs.FlipPaths.{IsFlippableEdge};
ghost use Rattle.tri_atlas.specs.Paths.{IsPathIn, moves_of};
ghost use Rattle.flip_move.specs.declared.FlipError.TheVariants.{NotFlippable};
ghost use Rattle.free_groupoid.specs.GroupoidMaps.{IsMapIn};
ghost use Rattle.free_groupoid.specs.Periodic.{IsWithin};
ghost use Rattle.surface_lib.specs.Surfaces.{IsLoop};
ghost use Rattle.cert_text.specs.Certificates.{track_seen};
ghost use Rattle.cert_text.specs.Limits.{letter_cap};
ghost use Rattle.cert_checker.specs.TrackRefusals.{IsTrackRefusal, IsFlipRefusal, IsFlipped};
ghost use Rattle.cert_checker.specs.inside.Sites.{IsSite};
ghost use Rattle.cert_checker.specs.inside.SiteSteps.{IsFlipPath, IsNoFlip, IsMapAlong, GoesOn};
ghost use Rattle.cert_checker.specs.inside.SiteSteps.{PassesOn, site_path};
ghost use Rattle.cert_checker.specs.inside.Stops.{IsStop, IsRule};

use crate::corners::track_of;
use crate::verdict::Stop;
use carry_map::agreement_laws;
use cert_text::Pa;
use flip_move::{FlipError, flip};
use free_groupoid::{Map, MapError, groupoid_laws, periodic_laws};
use std::alloc::Global;
use train_track::Track;
use tri_atlas::{Atlas, EdgeId, Path, TriId, atlas_laws, map_laws};

/// The greatest power of the word.
const POWER_LIMIT: u32 = 64;

/// The most flips.
const FLIP_LIMIT: usize = 64;

/// The most letters of a map after a move.
const LETTER_CAP: u64 = 262_144;

/// The track of a certificate, and the map of its path: the flips backwards, the word so many times,
/// and the flips.
#[derive(Drop)]
pub(crate) struct Site {
    /// The track, on the triangulation behind the flips.
    pub(crate) track: Track,
    /// The map, from that triangulation to itself.
    pub(crate) map: Map,
}

/// Makes the flips of a certificate, its track behind them, and the map of its path.
pub(crate) fn make_site(alloc: Global, atlas: &mut Atlas, word: &Path, c: &Pa) -> Result<Site, Stop>
    requires closed { IsLoop atlas.old word.now }
    ensures held { IfOk result (IsSite atlas.new (moves_of atlas.old word.now)
        (track_seen c.now)) }
    ensures refused { IfErr result (IsStop (IsTrackRefusal (triangulation atlas.old 0)
        (moves_of atlas.old word.now) (track_seen c.now))) }
    ensures grows { Grows atlas.old atlas.new }
{
    atlas_laws();
    let _ = atlas.base();
    let flips = flips_of(alloc, atlas, c)?;
    site_behind(alloc, atlas, word, &flips, c)
}

/// The site behind the flips of a certificate.
fn site_behind(
    alloc: Global,
    atlas: &Atlas,
    word: &Path,
    flips: &Path,
    c: &Pa,
) -> Result<Site, Stop>
    requires closed { IsLoop atlas.now word.now }
    requires flips { IsFlipPath atlas.now c.now.flips.items flips.now }
    requires flipped { IsFlipped (triangulation atlas.now 0) (track_seen c.now) }
    ensures held { IfOk result (IsSite atlas.now (moves_of atlas.now word.now)
        (track_seen c.now)) }
    ensures refused { IfErr result (IsStop (IsTrackRefusal (triangulation atlas.now 0)
        (moves_of atlas.now word.now) (track_seen c.now))) }
{
    let _ = atlas.base();
    atlas_laws();
    map_laws();
    groupoid_laws();
    periodic_laws();
    agreement_laws();
    let track = track_of(alloc, atlas, flips.end(), &c.left_out)?;
    let map = map_of(alloc, atlas, word, flips, c.power)?;
    Ok(Site { track, map })
}

/// Rule 12: the path of the flips, which are made.
fn flips_of(alloc: Global, atlas: &mut Atlas, c: &Pa) -> Result<Path, Stop>
    ensures flips { IfOk result (IsFlipPath atlas.new c.now.flips.items) }
    ensures flipped { OnOk result (IsFlipped (triangulation atlas.old 0) (track_seen c.now)) }
    ensures refused { IfErr result (IsStop (IsRule 12 (IsFlipRefusal (triangulation atlas.old 0)
        (track_seen c.now)))) }
    ensures grows { Grows atlas.old atlas.new }
{
    atlas_laws();
    let _ = atlas.base();
    if c.power == 0 || c.power > POWER_LIMIT {
        return Err(Stop::Refused { rule: 12, place: 0 });
    }
    if c.flips.len() > FLIP_LIMIT {
        return Err(Stop::Refused {
            rule: 12,
            place: 100,
        });
    }
    flip_path(alloc, atlas, &c.flips)
}

/// The path of the flips of these edges from the base on, one after another.
fn flip_path(alloc: Global, atlas: &mut Atlas, edges: &[u32]) -> Result<Path, Stop>
    ensures flips { IfOk result (IsFlipPath atlas.new edges.now) }
    ensures refused { IfErr result (IsStop (IsRule 12 (IsNoFlip (triangulation atlas.old 0)
        edges.now))) }
    ensures grows { Grows atlas.old atlas.new }
{
    atlas_laws();
    let mut path = Path::new(alloc, atlas.base());
    for i in 0..edges.len() {
        match flip_on(atlas, &mut path, edges[i]) {
            Ok(()) => {}
            Err(FlipError::Memory) => return Err(Stop::Memory),
            Err(FlipError::NotFlippable) => {
                return Err(Stop::Refused {
                    rule: 12,
                    place: 1 + i as u64,
                });
            }
        }
    }
    Ok(path)
}

/// Flips an edge where the path ends, and puts the move at its end.
fn flip_on(atlas: &mut Atlas, path: &mut Path, e: u32) -> Result<(), FlipError>
    requires { IsPathIn atlas.old path.old }
    ensures flipped { OnOk result ((edges : List ℕ) → IsFlipPath atlas.old edges path.old
        → IsFlipPath atlas.new (edges ++ e ∷ []) path.new) }
    ensures refused { IfErr result (λ error. error ≡ NotFlippable
        → ¬ IsFlippableEdge (triangulation atlas.old path.old.end) e) }
    ensures grows { Grows atlas.old atlas.new }
    ensures path { IsPathIn atlas.new path.new }
{
    atlas_laws();
    let Some(edge) = edge_at(atlas, path.end(), e) else {
        return Err(FlipError::NotFlippable);
    };
    let m = flip(atlas, edge)?;
    match path.push(atlas, m) {
        Ok(()) => Ok(()),
        Err(_) => Err(FlipError::Memory),
    }
}

/// The edge of a triangulation of the atlas with this number, by its label that isn't negative; none
/// where the triangulation has no such edge.
fn edge_at(atlas: &Atlas, t: TriId, e: u32) -> Option<EdgeId>
    requires { IsTriIn atlas.now t }
    ensures some { IfSome result (λ edge. edge ≡ record { tri = t; label = pos e }) }
    ensures here { IfSome result (IsEdgeIn atlas.now) }
    ensures none { IfNone result (¬ (e < edge_count (triangulation atlas.now t))) }
{
    if e < atlas.tri(t).edges() {
        atlas.edge(t, e as i32)
    } else {
        None
    }
}

/// Rule 14: the map of the flips backwards, the word so many times, and the flips.
fn map_of(alloc: Global, atlas: &Atlas, word: &Path, flips: &Path, power: u32) -> Result<Map, Stop>
    requires closed { IsLoop atlas.now word.now }
    requires flips { IsPathIn atlas.now flips.now }
    requires start { flips.now.start ≡ 0 }
    ensures map { IfOk result (IsMapAlong atlas.now flips.now.end
        (site_path word.now flips.now power).moves) }
    ensures maps { IfOk result (IsMapIn atlas.now) }
    ensures path { OnOk result (IsPathIn atlas.now (site_path word.now flips.now power)) }
    ensures refused { IfErr result (IsStop (IsRule 14 (λ place. (place ≡ 0)
        × ¬ IsWithin (triangulation atlas.now flips.now.end)
        (moves_of atlas.now (site_path word.now flips.now power)) letter_cap))) }
{
    let _ = atlas.base();
    atlas_laws();
    let back = flips.inverse(alloc, atlas)?;
    let mut map = Map::identity(alloc, atlas, flips.end())?;
    follow(atlas, &mut map, &back)?;
    follow_often(atlas, &mut map, word, power)?;
    follow(atlas, &mut map, flips)?;
    Ok(map)
}

/// Goes on along a path, within the cap on letters.
fn follow(atlas: &Atlas, map: &mut Map, p: &Path) -> Result<(), Stop>
    requires path { IsPathIn atlas.now p.now }
    requires map { IsMapIn atlas.now map.old }
    requires follows { p.now.start ≡ map.old.target }
    ensures on { OnOk result (GoesOn atlas.now map.old p.now.moves map.new) }
    ensures end { OnOk result (map.new.target ≡ p.now.end) }
    ensures refused { IfErr result (IsStop (IsRule 14 (λ place. (place ≡ 0)
        × PassesOn atlas.now map.old p.now.moves))) }
    ensures maps { IsMapIn atlas.now map.new }
{
    let _ = atlas.base();
    periodic_laws();
    match map.follow_path(atlas, p, LETTER_CAP) {
        Ok(()) => Ok(()),
        Err(MapError::Memory) => Err(Stop::Memory),
        Err(MapError::CapPassed { .. }) => Err(Stop::Refused { rule: 14, place: 0 }),
    }
}

/// Goes on along the word, so many times.
fn follow_often(atlas: &Atlas, map: &mut Map, word: &Path, times: u32) -> Result<(), Stop>
    requires closed { IsLoop atlas.now word.now }
    requires map { IsMapIn atlas.now map.old }
    requires base { map.old.target ≡ 0 }
    ensures on { OnOk result (GoesOn atlas.now map.old (repeat times word.now.moves) map.new) }
    ensures base { OnOk result (map.new.target ≡ 0) }
    ensures refused { IfErr result (IsStop (IsRule 14 (λ place. (place ≡ 0)
        × PassesOn atlas.now map.old (repeat times word.now.moves)))) }
    ensures maps { IsMapIn atlas.now map.new }
{
    atlas_laws();
    for _ in 0..times {
        follow(atlas, map, word)?;
    }
    Ok(())
}
