//! The check of a certificate, kind by kind.
ghost use Rattle.std.specs.Prelude.{◌≡◌, IfOk};
ghost use Rattle.tri_atlas.specs.Arena.{Grows, triangulation};
ghost use Rattle.tri_atlas.specs.Paths.{moves_of};
ghost use Rattle.surface_lib.specs.Surfaces.{IsSurface, IsLoop};
ghost use Rattle.cert_text.specs.CertificateLaws.{IsMeant};
ghost use Rattle.cert_text.specs.Certificates.{seen};
ghost use Rattle.cert_checker.specs.Verdicts.{IsVerdict, IsExact, IsNeverInner};
ghost use Rattle.cert_checker.specs.declared.verdict.Verdict.TheVariants.{Accepted};

use crate::periodic::check_periodic;
use crate::tracks::check_track;
use crate::vectors::check_vector;
use crate::verdict::{Stop, Verdict};
use carry_map::iterate_laws;
use cert_text::{Certificate, certificate_laws};
use free_groupoid::inner_laws;
use ideal_tri::{Memory, label_laws, surface_laws, vertex_laws, word_laws};
use std::alloc::Global;
use surface_lib::Surface;
use transition_matrix::matrix_laws;
use tri_atlas::{Path, atlas_laws, map_laws};

/// Checks a certificate for a path of a surface from the base to the base: whether it holds, and
/// otherwise the first of the rules 1 to 18 that fails, and where. It needs nothing of how the
/// certificate was found. The surface keeps its name, its base and its generators; the flips of a
/// carried track may add triangulations to its atlas.
pub fn check(
    alloc: Global,
    s: &mut Surface,
    word: &Path,
    c: &Certificate,
) -> Result<Verdict, Memory>
    requires surface { IsSurface s.old }
    requires closed { IsLoop s.old.atlas word.now }
    ensures verdict { IfOk result (IsVerdict (triangulation s.old.atlas 0)
        (moves_of s.old.atlas word.now) (seen c.now)) }
    ensures exact { IfOk result (IsExact (triangulation s.old.atlas 0)
        (moves_of s.old.atlas word.now) (seen c.now)) }
    ensures means { IfOk result (λ v. v ≡ Accepted
        → IsMeant (triangulation s.old.atlas 0) (moves_of s.old.atlas word.now) (seen c.now)) }
    ensures never_inner { IfOk result (λ v. v ≡ Accepted
        → IsNeverInner (triangulation s.old.atlas 0) (moves_of s.old.atlas word.now)
        (seen c.now)) }
    ensures name { s.new.name ≡ s.old.name }
    ensures generators { s.new.generators ≡ s.old.generators }
    ensures grows { Grows s.old.atlas s.new.atlas }
    ensures surface { IsSurface s.new }
{
    label_laws();
    word_laws();
    surface_laws();
    vertex_laws();
    map_laws();
    inner_laws();
    matrix_laws();
    iterate_laws();
    certificate_laws();
    atlas_laws();
    // what is true of every atlas
    let _ = s.atlas.base();
    check_kind(alloc, s, word, c)
}

/// Checks a certificate by the rules for its kind.
fn check_kind(
    alloc: Global,
    s: &mut Surface,
    word: &Path,
    c: &Certificate,
) -> Result<Verdict, Memory>
    requires surface { IsSurface s.old }
    requires closed { IsLoop s.old.atlas word.now }
    ensures verdict { IfOk result (IsVerdict (triangulation s.old.atlas 0)
        (moves_of s.old.atlas word.now) (seen c.now)) }
    ensures name { s.new.name ≡ s.old.name }
    ensures generators { s.new.generators ≡ s.old.generators }
    ensures grows { Grows s.old.atlas s.new.atlas }
    ensures surface { IsSurface s.new }
{
    atlas_laws();
    let checked = match c {
        Certificate::Periodic {
            order,
            paths,
            reasons,
        } => check_periodic(alloc, &s.atlas, word, *order, paths, reasons),
        Certificate::Reducible { coords } => check_vector(&s.atlas, word, coords),
        Certificate::PseudoAnosov(track) => check_track(alloc, &mut s.atlas, word, track),
        Certificate::Unknown { .. } => return Ok(Verdict::NoClaim),
    };
    match checked {
        Ok(()) => Ok(Verdict::Accepted),
        Err(Stop::Refused { rule, place }) => Ok(Verdict::Refused { rule, place }),
        Err(Stop::Memory) => Err(Memory),
    }
}
