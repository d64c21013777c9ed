//! The first cycle that runs round no vertex.
ghost use Rattle.std.specs.Prelude.{IfOk, IfSome, IfNone, All};
ghost use Rattle.tri_atlas.specs.Arena.{triangulation};
ghost use Rattle.multicurve_cert.specs.Cycles.{IsCycle};
ghost use Rattle.cycle_stages.specs.OpenCycles.{HasNoOpenCycle, IsOpenCycleIn};
ghost use Rattle.cycle_stages.specs.inside.OpenWalks.{IsFirstOpen, HasNoOpen};

use edge_coords::Coords;
use free_groupoid::Walk;
use ideal_tri::Memory;
use multicurve_cert::{cycle_coords, cycles};
use std::alloc::Global;
use tri_atlas::Atlas;

/// The coordinates at the base of the first cycle that is nonperipheral, or none where there is no
/// such cycle.
pub fn open_cycle(alloc: Global, atlas: &Atlas) -> Result<Option<Coords>, Memory>
    ensures some { IfOk result (λ found. IfSome found (IsOpenCycleIn atlas.now)) }
    ensures none { IfOk result (λ found. IfNone found
        (HasNoOpenCycle (triangulation atlas.now 0))) }
{
    let cycles = cycles(alloc, atlas.tri(atlas.base()))?;
    Ok(first_open(atlas, &cycles))
}

/// The coordinates of the first of these cycles that is nonperipheral.
fn first_open(atlas: &Atlas, cycles: &[Walk]) -> Option<Coords>
    requires { All (λ w. IsCycle (triangulation atlas.now 0) w.letters) cycles.now }
    ensures some { IfSome result (IsFirstOpen atlas.now cycles.now) }
    ensures none { IfNone result (HasNoOpen (triangulation atlas.now 0) cycles.now) }
{
    for cycle in cycles {
        let w = cycle_coords(atlas, cycle);
        match w.peripheral_at(atlas) {
            Some(_) => {}
            None => return Some(w),
        }
    }
    None
}
