//! The rules for the powers of a word in a certificate of a periodic word, 5 and 8.
ghost use Rattle.std.specs.Prelude.{◌+◌, ◌↔◌, length, IsTrue, IfOk, OnOk, IfErr};
ghost use Rattle.std.specs.List.{repeat};
ghost use Rattle.tri_atlas.specs.Arena.{triangulation};
ghost use Rattle.tri_atlas.specs.Paths.{moves_of};
ghost use Rattle.free_groupoid.specs.GroupoidMaps.{substitution};
ghost use Rattle.free_groupoid.specs.Inner.{IsKept};
ghost use Rattle.free_groupoid.specs.InnerAnswers.{IsSelfMap};
ghost use Rattle.free_groupoid.specs.InnerLaws.{IsReducedLoop};
ghost use Rattle.free_groupoid.specs.Periodic.{IsWithin};
ghost use Rattle.surface_lib.specs.Surfaces.{IsLoop};
ghost use Rattle.cert_text.specs.Certificates.{walks_of};
ghost use Rattle.cert_text.specs.Limits.{letter_cap};
ghost use Rattle.cert_checker.specs.FirstFailing.{AllPass};
ghost use Rattle.cert_checker.specs.PeriodicRules.{IsReason, IsTurnWithin, IsMoved};
ghost use Rattle.cert_checker.specs.inside.PeriodicParts.{IsPower, IsFirstFailingFromOne};
ghost use Rattle.cert_checker.specs.inside.Stops.{IsStop, IsRule};

use crate::verdict::Stop;
use crate::walks::labels;
use free_groupoid::{Map, MapError, Walk, groupoid_laws, is_rotation, periodic_laws};
use ideal_tri::{Memory, Tri, surface_laws, word_laws};
use std::alloc::Global;
use tri_atlas::{Atlas, Path, atlas_laws, map_laws};

/// The most letters of a map after a move.
const LETTER_CAP: u64 = 262_144;

/// Rule 5: the map of the word taken so many times. One map follows the word again and again, and no
/// move takes it past the cap.
pub(crate) fn power(alloc: Global, atlas: &Atlas, word: &Path, order: u32) -> Result<Map, Stop>
    requires closed { IsLoop atlas.now word.now }
    ensures held { IfOk result (IsPower atlas.now (moves_of atlas.now word.now) order) }
    ensures refused { IfErr result (IsStop (IsRule 5 (IsFirstFailingFromOne order
        (IsTurnWithin (triangulation atlas.now 0) (moves_of atlas.now word.now))))) }
{
    atlas_laws();
    groupoid_laws();
    periodic_laws();
    let mut map = Map::identity(alloc, atlas, atlas.base())?;
    for i in 0..order {
        match map.follow_path(atlas, word, LETTER_CAP) {
            Ok(()) => {}
            Err(MapError::Memory) => return Err(Stop::Memory),
            Err(MapError::CapPassed { .. }) => {
                let place = u64::from(i) + 1;
                return Err(Stop::Refused { rule: 5, place });
            }
        }
    }
    Ok(map)
}

/// Rule 8: the word taken once more after `i` times doesn't carry reason `i` to itself, up to
/// rotation.
pub(crate) fn check_moved(
    alloc: Global,
    atlas: &Atlas,
    word: &Path,
    reasons: &[Vec<i32>],
) -> Result<(), Stop>
    requires closed { IsLoop atlas.now word.now }
    requires loops { AllPass (length (walks_of reasons.now))
        (IsReason (triangulation atlas.now 0) (walks_of reasons.now)) }
    requires within { IsWithin (triangulation atlas.now 0)
        (repeat (length (walks_of reasons.now) + 1) (moves_of atlas.now word.now)) letter_cap }
    ensures held { OnOk result (AllPass (length (walks_of reasons.now))
        (IsMoved (triangulation atlas.now 0) (moves_of atlas.now word.now)
        (walks_of reasons.now))) }
    ensures refused { IfErr result (IsStop (IsRule 8 (IsFirstFailingFromOne
        (length (walks_of reasons.now)) (IsMoved (triangulation atlas.now 0)
        (moves_of atlas.now word.now) (walks_of reasons.now))))) }
{
    atlas_laws();
    groupoid_laws();
    map_laws();
    periodic_laws();
    surface_laws();
    let tri = atlas.tri(atlas.base());
    let mut map = Map::identity(alloc, atlas, atlas.base())?;
    for (i, reason) in reasons.iter().enumerate() {
        match map.follow_path(atlas, word, LETTER_CAP) {
            Ok(()) => {}
            Err(MapError::Memory) => return Err(Stop::Memory),
            Err(MapError::CapPassed { .. }) => unreachable!(),
        }
        if is_kept(alloc, tri, &map, reason)? {
            let place = i as u64 + 1;
            return Err(Stop::Refused { rule: 8, place });
        }
    }
    Ok(())
}

/// Whether the map carries the closed walk to itself, up to rotation.
fn is_kept(alloc: Global, tri: &Tri, map: &Map, reason: &[i32]) -> Result<bool, Memory>
    requires map { IsSelfMap tri.now map.now }
    requires closed { IsReducedLoop tri.now reason.now }
    ensures { IfOk result (λ b. IsTrue b ↔ IsKept (substitution map.now.images) reason.now) }
{
    word_laws();
    map_laws();
    // the triangles make a triangulation
    let _ = tri.triangles();
    let letters = labels(alloc, reason)?;
    let walk = Walk {
        start: tri.place(letters[0]).0,
        letters,
    };
    let mut image = map.image(alloc, &walk)?;
    image.cyclic_reduce(tri);
    Ok(is_rotation(&image, &walk))
}
