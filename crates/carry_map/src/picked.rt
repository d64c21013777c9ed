//! Places that are picked, one of the places of each switch.
ghost use Rattle.std.specs.Prelude.{◌≡◌, ◌<◌, ◌-◌, ℕ, [], IfOk, length, slice_index};
ghost use Rattle.std.specs.Prelude.{slice_index_or};
ghost use Rattle.carry_map.specs.inside.Steps.{ArePicked, AreFirsts, AreLasts};

use crate::places::{Place, SwitchPlaces};
use ideal_tri::Memory;
use std::alloc::Global;

/// The first place of each list.
pub(crate) fn first_places(alloc: Global, all: &[SwitchPlaces]) -> Result<Vec<Place>, Memory>
    requires { (i : ℕ) → i < length all.now → 0 < length (slice_index_or all.now i []) }
    ensures { IfOk result (λ v. AreFirsts all.now v.items) }
{
    let numbers = vec![in alloc; 0; all.len()]?;
    picked(alloc, all, &numbers)
}

/// The last place of each list.
pub(crate) fn last_places(alloc: Global, all: &[SwitchPlaces]) -> Result<Vec<Place>, Memory>
    requires { (i : ℕ) → i < length all.now → 0 < length (slice_index_or all.now i []) }
    ensures { IfOk result (λ v. AreLasts all.now v.items) }
{
    let numbers = last_numbers(alloc, all)?;
    picked(alloc, all, &numbers)
}

/// The number of the last place of each list.
fn last_numbers(alloc: Global, all: &[SwitchPlaces]) -> Result<Vec<usize>, Memory>
    requires { (i : ℕ) → i < length all.now → 0 < length (slice_index_or all.now i []) }
    ensures as_many { IfOk result (λ v. length v.items ≡ length all.now) }
    ensures last { IfOk result (λ v. (i : ℕ) → i < length all.now
        → slice_index v.items i ≡ length (slice_index_or all.now i []) - 1) }
{
    let mut numbers = Vec::new(alloc);
    for i in 0..all.len() {
        numbers.push(all[i].len() - 1)?;
    }
    Ok(numbers)
}

/// Of each list the place with this number.
pub(crate) fn picked(
    alloc: Global,
    all: &[SwitchPlaces],
    numbers: &[usize],
) -> Result<Vec<Place>, Memory>
    requires as_many { length numbers.now ≡ length all.now }
    requires within { (i : ℕ) → i < length all.now
        → slice_index numbers.now i < length (slice_index_or all.now i []) }
    ensures { IfOk result (λ v. ArePicked all.now (slice_index numbers.now) v.items) }
{
    let mut picked = Vec::new(alloc);
    for i in 0..all.len() {
        picked.push(all[i].place(alloc, numbers[i])?)?;
    }
    Ok(picked)
}
