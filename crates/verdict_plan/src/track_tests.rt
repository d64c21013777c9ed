//! The tests of a candidate for a train track that a path carries into itself.
ghost use Rattle.std.specs.Prelude.{◌≡◌, ◌≤◌, ℕ, pos, List, All, IfOk, IfErr};
ghost use Rattle.tri_atlas.specs.Arena.{triangulation};
ghost use Rattle.tri_atlas.specs.Moves.{Move};
ghost use Rattle.tri_atlas.specs.Paths.{MovePath, moves_of};
ghost use Rattle.edge_coords.specs.Coordinates.{AreCoordinatesIn};
ghost use Rattle.free_groupoid.specs.GroupoidMaps.{substitution, vertex_image};
ghost use Rattle.free_groupoid.specs.Walks.{IsWalkOn};
ghost use Rattle.train_track.specs.Branches.{IsTrackIn, words_of};
ghost use Rattle.train_track.specs.Refusals.{free_corners};
ghost use Rattle.carry_map.specs.AnchorAnswers.{IsMapOnTrack};
ghost use Rattle.carry_map.specs.CarriedMaps.{IsCarried};
ghost use Rattle.carry_map.specs.CarryingWalks.{carrying_of};
ghost use Rattle.cert_text.specs.Certificates.{track_seen};
ghost use Rattle.cert_text.specs.Limits.{letter_cap};
ghost use Rattle.verdict_plan.specs.TrackTests.{IsTrackLine};
ghost use Rattle.verdict_plan.specs.inside.Trials.{IsCarriedAlong, IsMapAlong, IsPathOnTrack};
ghost use Rattle.verdict_plan.specs.inside.Trials.{IsAnswerIn, IsRefusedIn, IsSoundPass, PassLaw};
ghost use Rattle.verdict_plan.specs.declared.series.Series.{Series as AnySeries};

use crate::series::Series;
use crate::track_certificate::pa;
use crate::track_growth::{growth_of, transition};
use carry_map::{AnchorError, CarryMap, agreement_laws, anchor, middle_anchor};
use cert_text::{Pa, TrackLine};
use edge_coords::Coords;
use free_groupoid::{Map, MapError, groupoid_laws, periodic_laws};
use ideal_tri::{Memory, label_laws};
use std::alloc::Global;
use train_track::{Track, TrackError};
use transition_matrix::matrix_laws;
use tri_atlas::{Atlas, Path, map_laws};

/// The most letters of a map after a move, and of the walks and train paths of a carried track.
const LETTER_CAP: u64 = 262_144;

/// The track of the corners without strands, or why there is none that fills.
pub(crate) fn track_of(
    alloc: Global,
    atlas: &Atlas,
    coords: &Coords,
) -> Result<Result<Track, TrackLine>, Memory>
    requires { AreCoordinatesIn atlas.now coords.now }
    ensures accepted { IfOk result (λ r. IfOk r (λ track. (track.tri ≡ coords.now.tri)
        × (track.left_out
        ≡ free_corners (triangulation atlas.now coords.now.tri) coords.now.numbers))) }
    ensures here { IfOk result (λ r. IfOk r (IsTrackIn atlas.now)) }
    ensures refused { IfOk result (λ r. IfErr r (λ line. (series : AnySeries) (path : List Move)
        → IsTrackLine series (triangulation atlas.now coords.now.tri) path
        (free_corners (triangulation atlas.now coords.now.tri) coords.now.numbers) line)) }
{
    match Track::from_coords(alloc, atlas, coords) {
        Ok(track) => Ok(Ok(track)),
        Err(TrackError::NotLabel(_)) => Err(Memory),
        Err(TrackError::TwoLeftOut(n)) => Ok(Err(TrackLine::TwoLeftOut { n })),
        Err(TrackError::VertexClosed(n)) => Ok(Err(TrackLine::VertexClosed { n })),
        Err(TrackError::Memory) => Err(Memory),
    }
}

/// The tests of a track and of a path from its triangulation to itself: the certificate that the
/// map of the path carries the track, for this power of a word and these flips, or the line of the
/// first test that fails.
pub(crate) fn try_track(
    alloc: Global,
    atlas: &Atlas,
    track: &Track,
    path: &Path,
    series: Series,
    power: u32,
    flips: &[u32],
) -> Result<Result<Pa, TrackLine>, Memory>
    requires { IsPathOnTrack atlas.now track.now path.now }
    ensures passes { IfOk result (λ r. IfOk r (λ p. IsSoundPass series
        (triangulation atlas.now track.now.tri) (moves_of atlas.now path.now) track.now.left_out
        (track_seen p))) }
    ensures power { IfOk result (λ r. IfOk r (λ p. p.power ≡ power)) }
    ensures flips { IfOk result (λ r. IfOk r (λ p. p.flips.items ≡ flips.now)) }
    ensures line { IfOk result (λ r. IfErr r (IsTrackLine series
        (triangulation atlas.now track.now.tri)
        (moves_of atlas.now path.now) track.now.left_out)) }
{
    match map_of(alloc, atlas, track, path)? {
        Ok(psi) => try_map(alloc, atlas, track, &psi, series, power, flips),
        Err(line) => Ok(Err(line)),
    }
}

/// The same where the map of the path is made, and has no more letters than the cap.
pub(crate) fn try_map(
    alloc: Global,
    atlas: &Atlas,
    track: &Track,
    psi: &Map,
    series: Series,
    power: u32,
    flips: &[u32],
) -> Result<Result<Pa, TrackLine>, Memory>
    requires { (path : MovePath) × IsMapAlong atlas.now track.now path psi.now }
    ensures passes { IfOk result (λ r. IfOk r (λ p. (path : MovePath)
        → IsMapAlong atlas.now track.now path psi.now
        → IsSoundPass series (triangulation atlas.now track.now.tri) (moves_of atlas.now path)
        track.now.left_out (track_seen p))) }
    ensures power { IfOk result (λ r. IfOk r (λ p. p.power ≡ power)) }
    ensures flips { IfOk result (λ r. IfOk r (λ p. p.flips.items ≡ flips.now)) }
    ensures line { IfOk result (λ r. IfErr r (λ line. (path : MovePath)
        → IsMapAlong atlas.now track.now path psi.now
        → IsTrackLine series (triangulation atlas.now track.now.tri) (moves_of atlas.now path)
        track.now.left_out line)) }
{
    let _ = atlas.base();
    label_laws();
    let c = match carried(alloc, atlas, track, psi, series)? {
        Ok(c) => c,
        Err(line) => return Ok(Err(line)),
    };
    let m = transition(alloc, track, &c)?;
    match growth_of(alloc, &m, series)? {
        Ok(growth) => {
            let flips = Vec::from_slice(alloc, flips)?;
            Ok(Ok(pa(alloc, track, &c, &m, growth, power, flips)?))
        }
        Err(line) => Ok(Err(line)),
    }
}

/// How the map of a path carries a track, by the anchor rule of the series, or which test fails.
fn carried(
    alloc: Global,
    atlas: &Atlas,
    track: &Track,
    psi: &Map,
    series: Series,
) -> Result<Result<CarryMap, TrackLine>, Memory>
    requires { (path : MovePath) × IsMapAlong atlas.now track.now path psi.now }
    ensures found { IfOk result (λ r. IfOk r (λ c. (path : MovePath)
        → IsMapAlong atlas.now track.now path psi.now
        → IsCarriedAlong series (triangulation atlas.now track.now.tri) (moves_of atlas.now path)
        track.now c)) }
    ensures line { IfOk result (λ r. IfErr r (λ line. (path : MovePath)
        → IsMapAlong atlas.now track.now path psi.now
        → IsTrackLine series (triangulation atlas.now track.now.tri) (moves_of atlas.now path)
        track.now.left_out line)) }
{
    let _ = atlas.base();
    map_laws();
    groupoid_laws();
    agreement_laws();
    match anchored(alloc, atlas, track, psi, series) {
        Ok(c) => Ok(Ok(c)),
        Err(AnchorError::NoCommonPart(e)) => Ok(Err(TrackLine::NoCommon { n: number_of(e) })),
        Err(AnchorError::Illegal(n)) => Ok(Err(TrackLine::Illegal { n })),
        Err(AnchorError::CapPassed { letters }) => Ok(Err(TrackLine::PathsCap { n: letters })),
        Err(AnchorError::Memory) => Err(Memory),
    }
}

/// What the anchor rule of the series answers.
fn anchored(
    alloc: Global,
    atlas: &Atlas,
    track: &Track,
    psi: &Map,
    series: Series,
) -> Result<CarryMap, AnchorError>
    requires { IsMapOnTrack atlas.now track.now psi.now }
    ensures accepted { IfOk result (IsAnswerIn series (triangulation atlas.now track.now.tri)
        track.now psi.now letter_cap) }
    ensures refused { IfErr result (IsRefusedIn series (triangulation atlas.now track.now.tri)
        track.now psi.now letter_cap) }
    ensures walks { IfOk result (λ c. All (IsWalkOn (triangulation atlas.now track.now.tri))
        c.images) }
    ensures carried { IfOk result (λ c. IsCarried (triangulation atlas.now track.now.tri)
        track.now.left_out (words_of track.now.branches) (substitution psi.now.images)
        (vertex_image psi.now) (carrying_of c)) }
{
    match series {
        Series::First => anchor(alloc, atlas, track, psi, LETTER_CAP),
        Series::Further => middle_anchor(alloc, atlas, track, psi, LETTER_CAP),
    }
}

/// The number of an edge, from its label that isn't negative.
fn number_of(e: i32) -> u64
    ensures { (n : ℕ) → e ≡ pos n → result ≡ n }
{
    u64::from(e.unsigned_abs())
}

/// The map of a path from the triangulation of a track to itself, or the line of one that has too
/// many letters after a move.
fn map_of(
    alloc: Global,
    atlas: &Atlas,
    track: &Track,
    path: &Path,
) -> Result<Result<Map, TrackLine>, Memory>
    requires { IsPathOnTrack atlas.now track.now path.now }
    ensures found { IfOk result (λ r. IfOk r (IsMapAlong atlas.now track.now path.now)) }
    ensures line { IfOk result (λ r. IfErr r (λ line. (series : AnySeries)
        → IsTrackLine series (triangulation atlas.now track.now.tri) (moves_of atlas.now path.now)
        track.now.left_out line)) }
{
    let _ = atlas.base();
    periodic_laws();
    let mut psi = Map::identity(alloc, atlas, track.tri())?;
    match psi.follow_path(atlas, path, LETTER_CAP) {
        Ok(()) => Ok(Ok(psi)),
        Err(MapError::CapPassed { letters }) => Ok(Err(TrackLine::Cap { n: letters })),
        Err(MapError::Memory) => Err(Memory),
    }
}

/// A candidate that passes gives a certificate that holds. It does nothing: a caller learns the
/// law.
pub(crate) fn pass_law()
    ensures { PassLaw }
{
    matrix_laws();
}
