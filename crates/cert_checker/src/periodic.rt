//! The rules for certificates of periodic words, 1 to 8.
ghost use Rattle.std.specs.Prelude.{length, OnOk, IfErr, List};
ghost use Rattle.tri_atlas.specs.Arena.{triangulation};
ghost use Rattle.tri_atlas.specs.Moves.{Move};
ghost use Rattle.tri_atlas.specs.Paths.{moves_of};
ghost use Rattle.surface_lib.specs.Surfaces.{IsLoop};
ghost use Rattle.cert_text.specs.Certificates.{walks_of};
ghost use Rattle.cert_text.specs.Holds.{IsPeriodicCertificate};
ghost use Rattle.cert_checker.specs.FirstFailing.{AllPass};
ghost use Rattle.cert_checker.specs.PeriodicRules.{IsPeriodicRefusal, IsCounted, IsReason};
ghost use Rattle.cert_checker.specs.inside.PeriodicParts.{IsFirstFailingFromOne};
ghost use Rattle.cert_checker.specs.inside.Stops.{IsStop, IsRule};

use crate::inner_walks::{check_equations, check_paths};
use crate::powers::{check_moved, power};
use crate::verdict::Stop;
use crate::walks::is_reduced_loop;
use ideal_tri::{Tri, word_laws};
use std::alloc::Global;
use tri_atlas::{Atlas, Path, map_laws};

/// The greatest order.
const ORDER_LIMIT: u32 = 1_024;

/// Whether the word is periodic of this order, by these paths and reasons.
pub(crate) fn check_periodic(
    alloc: Global,
    atlas: &Atlas,
    word: &Path,
    order: u32,
    paths: &[Vec<i32>],
    reasons: &[Vec<i32>],
) -> Result<(), Stop>
    requires closed { IsLoop atlas.now word.now }
    ensures held { OnOk result (IsPeriodicCertificate (triangulation atlas.now 0)
        (moves_of atlas.now word.now) order (walks_of paths.now) (walks_of reasons.now)) }
    ensures refused { IfErr result (IsStop (IsPeriodicRefusal (triangulation atlas.now 0)
        (moves_of atlas.now word.now) order (walks_of paths.now) (walks_of reasons.now))) }
{
    word_laws();
    map_laws();
    let tri = atlas.tri(atlas.base());
    check_counts(tri, order, paths, reasons)?;
    check_reasons(tri, reasons)?;
    let map = power(alloc, atlas, word, order)?;
    check_paths(tri, &map, paths)?;
    check_equations(alloc, tri, &map, paths)?;
    check_moved(alloc, atlas, word, reasons)
}

/// The rules 1 to 3: the order is from 1 to 1,024, there is one path for each triangle, and one
/// reason for each smaller power.
fn check_counts(tri: &Tri, order: u32, paths: &[Vec<i32>], reasons: &[Vec<i32>]) -> Result<(), Stop>
    ensures held { OnOk result (IsCounted tri.now order (walks_of paths.now)
        (walks_of reasons.now)) }
    ensures refused { (moves : List Move) → IfErr result (IsStop (IsPeriodicRefusal tri.now moves
        order (walks_of paths.now) (walks_of reasons.now))) }
{
    if order == 0 || order > ORDER_LIMIT {
        return Err(Stop::Refused { rule: 1, place: 0 });
    }
    if paths.len() != tri.triangles() as usize {
        return Err(Stop::Refused { rule: 2, place: 0 });
    }
    if reasons.len() != order as usize - 1 {
        return Err(Stop::Refused { rule: 3, place: 0 });
    }
    Ok(())
}

/// Rule 4: each reason is a closed walk, not empty, cyclically reduced.
fn check_reasons(tri: &Tri, reasons: &[Vec<i32>]) -> Result<(), Stop>
    ensures held { OnOk result (AllPass (length (walks_of reasons.now))
        (IsReason tri.now (walks_of reasons.now))) }
    ensures refused { IfErr result (IsStop (IsRule 4 (IsFirstFailingFromOne
        (length (walks_of reasons.now)) (IsReason tri.now (walks_of reasons.now))))) }
{
    for (i, reason) in reasons.iter().enumerate() {
        if !is_reduced_loop(tri, reason) {
            let place = i as u64 + 1;
            return Err(Stop::Refused { rule: 4, place });
        }
    }
    Ok(())
}
