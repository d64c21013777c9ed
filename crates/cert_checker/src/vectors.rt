//! The rules for certificates of reducible words, 9 to 11.
ghost use Rattle.std.specs.Prelude.{◌≡◌, ◌↔◌, length, slice_index, IsTrue};
ghost use Rattle.std.specs.Prelude.{OnOk, IfErr, IfSome, IfNone};
ghost use Rattle.ideal_tri.specs.PeripheralParts.{HasFreeCorners};
ghost use Rattle.tri_atlas.specs.Arena.{triangulation};
ghost use Rattle.tri_atlas.specs.Paths.{moves_of};
ghost use Rattle.edge_coords.specs.Coordinates.{AreCoordinatesIn};
ghost use Rattle.surface_lib.specs.Surfaces.{IsLoop};
ghost use Rattle.cert_text.specs.CertificateLaws.{IsFixedVector};
ghost use Rattle.cert_text.specs.Holds.{IsReducibleCertificate};
ghost use Rattle.cert_checker.specs.FirstFailing.{IsFirstFailing};
ghost use Rattle.cert_checker.specs.VectorRules.{AreAllZero, IsReducibleRefusal, fault_place};
ghost use Rattle.cert_checker.specs.inside.Stops.{IsStop};

use crate::verdict::Stop;
use cert_text::certificate_laws;
use edge_coords::{Coords, CoordsError};
use ideal_tri::Tri;
use tri_atlas::{Atlas, Path, atlas_laws};

/// Whether the word fixes the multicurve with these coordinates, none of whose curves runs round a
/// vertex. It takes no memory.
pub(crate) fn check_vector(atlas: &Atlas, word: &Path, coords: &[u128]) -> Result<(), Stop>
    requires closed { IsLoop atlas.now word.now }
    ensures held { OnOk result (IsReducibleCertificate (triangulation atlas.now 0)
        (moves_of atlas.now word.now) coords.now) }
    ensures refused { IfErr result (IsStop (IsReducibleRefusal (triangulation atlas.now 0)
        (moves_of atlas.now word.now) coords.now)) }
{
    atlas_laws();
    certificate_laws();
    let base = atlas.base();
    match Coords::new(atlas, base, coords) {
        Ok(w) => check_curves(atlas, word, &w),
        Err(fault) => Err(Stop::Refused {
            rule: 9,
            place: fault_place(atlas.tri(base), fault),
        }),
    }
}

/// Where the numbers of a triangulation's edges have a fault.
fn fault_place(tri: &Tri, fault: CoordsError) -> u64
    ensures { result ≡ fault_place tri.now fault }
{
    match fault {
        CoordsError::WrongLength(_) => u64::from(tri.edges()),
        CoordsError::TooLarge(edge) => edge,
        CoordsError::OddTriangle(triangle) | CoordsError::LongSide(triangle) => triangle,
    }
}

/// The rules 10 and 11: whether there is a curve, none runs round a vertex, and the word fixes them.
fn check_curves(atlas: &Atlas, word: &Path, w: &Coords) -> Result<(), Stop>
    requires closed { IsLoop atlas.now word.now }
    requires coordinates { AreCoordinatesIn atlas.now w.now }
    requires base { w.now.tri ≡ 0 }
    ensures held { OnOk result (IsFixedVector (triangulation atlas.now 0)
        (moves_of atlas.now word.now) w.now.numbers) }
    ensures refused { IfErr result (IsStop (IsReducibleRefusal (triangulation atlas.now 0)
        (moves_of atlas.now word.now) w.now.numbers)) }
{
    if are_all_zero(w.values()) {
        return Err(Stop::Refused { rule: 10, place: 0 });
    }
    if let Some(v) = w.peripheral_at(atlas) {
        return Err(Stop::Refused {
            rule: 10,
            place: u64::from(v.number()),
        });
    }
    check_image(atlas, word, w)
}

/// Whether all numbers are zero.
fn are_all_zero(w: &[u128]) -> bool
    ensures { IsTrue result ↔ AreAllZero w.now }
{
    w.iter().all(|n| *n == 0)
}

/// Rule 11: whether the word fixes the numbers.
fn check_image(atlas: &Atlas, word: &Path, w: &Coords) -> Result<(), Stop>
    requires closed { IsLoop atlas.now word.now }
    requires coordinates { AreCoordinatesIn atlas.now w.now }
    requires base { w.now.tri ≡ 0 }
    requires some { ¬ AreAllZero w.now.numbers }
    requires free { HasFreeCorners (triangulation atlas.now 0) w.now.numbers }
    ensures held { OnOk result (IsFixedVector (triangulation atlas.now 0)
        (moves_of atlas.now word.now) w.now.numbers) }
    ensures refused { IfErr result (IsStop (IsReducibleRefusal (triangulation atlas.now 0)
        (moves_of atlas.now word.now) w.now.numbers)) }
{
    let mut image = *w;
    if let Err(_) = image.follow(atlas, word) {
        return Err(Stop::Refused {
            rule: 11,
            place: u64::from(atlas.tri(w.tri()).edges()),
        });
    }
    match first_moved(w.values(), image.values()) {
        Some(e) => Err(Stop::Refused {
            rule: 11,
            place: e as u64,
        }),
        None => Ok(()),
    }
}

/// The first edge whose number is another one in the image.
fn first_moved(before: &[u128], image: &[u128]) -> Option<usize>
    requires { length image.now ≡ length before.now }
    ensures some { IfSome result (IsFirstFailing (length before.now)
        (λ e. slice_index image.now e ≡ slice_index before.now e)) }
    ensures none { IfNone result (image.now ≡ before.now) }
{
    for e in 0..before.len() {
        if image[e] != before[e] {
            return Some(e);
        }
    }
    None
}
