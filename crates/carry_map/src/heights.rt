//! The greatest heights at which each step leaves room, found by lowering.
//!
//! The heights begin at the last places. Where a step leaves no room, the height at its start is
//! lowered to the greatest that the height at its end allows. No heights at which each step leaves
//! room are above these, before and after. The sum falls each time, so at last nothing is lowered,
//! and each step leaves room at the heights themselves.
ghost use Rattle.std.specs.Prelude.{◌≡◌, ◌∷◌, ◌<◌, List, [], length, All, Contains, IfOk};
ghost use Rattle.carry_map.specs.inside.Heights.{IsStepOver, AreGreatestFor};
ghost use Rattle.carry_map.specs.inside.Heights.{AreHighEnough, FellOrStayed};

use ideal_tri::Memory;
use std::alloc::Global;

/// A label's number, the number of the label behind it on a branch, and how many switches lie
/// between. It leaves room where the height of the first is 0; or where this and the count of the
/// second are less than the height of the second and the gap.
#[derive(Clone, Copy, Debug)]
pub(crate) struct Step {
    pub(crate) from: usize,
    pub(crate) to: usize,
    pub(crate) gap: usize,
}

/// The greatest heights, each less than the count of its label, at which each step leaves room: at
/// each label they are at least as great as any others. Refused for want of memory alone.
pub(crate) fn greatest_heights(
    alloc: Global,
    counts: &[usize],
    steps: &[Step],
) -> Result<Vec<usize>, Memory>
    requires some { All (λ n. 0 < n) counts.now }
    requires within { All (IsStepOver counts.now) steps.now }
    ensures { IfOk result (λ h. AreGreatestFor counts.now steps.now h.items) }
{
    let mut heights = last_places(alloc, counts)?;
    while lower_all(counts, steps, &mut heights) {}
    Ok(heights)
}

/// The number of the last place of each label.
fn last_places(alloc: Global, counts: &[usize]) -> Result<Vec<usize>, Memory>
    requires some { All (λ n. 0 < n) counts.now }
    ensures { IfOk result (λ h. (steps : List Step) → AreHighEnough counts.now steps h.items) }
{
    let mut heights = Vec::new(alloc);
    for count in counts {
        heights.push(count - 1)?;
    }
    Ok(heights)
}

/// Lowers the heights by one step after another, and says whether any of them left no room.
fn lower_all(counts: &[usize], steps: &[Step], heights: &mut [usize]) -> bool
    requires within { All (IsStepOver counts.now) steps.now }
    requires high { AreHighEnough counts.now steps.now heights.old }
    ensures high { AreHighEnough counts.now steps.now heights.new }
    ensures fell { FellOrStayed counts.now steps.now heights.old heights.new result }
{
    let mut fell = false;
    for step in steps {
        fell |= lower(counts, *step, heights);
    }
    fell
}

/// Where the step leaves no room, lowers the height at its start to the greatest that the height at
/// its end allows. Says whether it did.
fn lower(counts: &[usize], step: Step, heights: &mut [usize]) -> bool
    requires within { IsStepOver counts.now step }
    requires one_each { length heights.old ≡ length counts.now }
    ensures high { (steps : List Step) → Contains steps step
        → AreHighEnough counts.now steps heights.old
        → AreHighEnough counts.now steps heights.new }
    ensures fell { FellOrStayed counts.now (step ∷ []) heights.old heights.new result }
{
    let height = heights[step.from];
    let count = counts[step.to] as u128;
    let room = heights[step.to] as u128 + step.gap as u128;
    if height == 0 || height as u128 + count < room {
        return false;
    }
    heights[step.from] = room.saturating_sub(count + 1) as usize;
    true
}

#[cfg(test)]
mod tests {
    use super::*;
    use std::test::Fail;

    fn step(from: usize, to: usize, gap: usize) -> Step {
        Step { from, to, gap }
    }

    fn heights(alloc: Global, counts: &[usize], steps: &[Step]) -> Result<Vec<usize>, Fail> {
        if !counts.iter().all(|n| *n > 0) {
            return Err(Fail::new("no place"));
        }
        if !steps
            .iter()
            .all(|s| s.from < counts.len() && s.to < counts.len())
        {
            return Err(Fail::new("no label"));
        }
        Ok(greatest_heights(alloc, counts, steps)?)
    }

    #[test]
    fn without_steps(rt: HostRuntime) -> Result<(), Fail> {
        let found = heights(rt.alloc(), &[4, 5, 3], &[])?;
        assert_eq!(rt; found.as_slice(), [3, 4, 2].as_slice());
        Ok(())
    }

    #[test]
    fn along_a_line(rt: HostRuntime) -> Result<(), Fail> {
        let steps = [step(0, 1, 4), step(1, 2, 4), step(2, 3, 4)];
        let found = heights(rt.alloc(), &[4, 4, 4, 4], &steps)?;
        assert_eq!(rt; found.as_slice(), [0, 1, 2, 3].as_slice());
        Ok(())
    }

    #[test]
    fn round_a_cycle(rt: HostRuntime) -> Result<(), Fail> {
        let steps = [step(0, 1, 5), step(1, 2, 4), step(2, 0, 12)];
        let found = heights(rt.alloc(), &[6, 6, 6], &steps)?;
        assert_eq!(rt; found.as_slice(), [0, 2, 5].as_slice());
        let steps = [step(0, 1, 5), step(1, 2, 4), step(2, 0, 8)];
        let found = heights(rt.alloc(), &[6, 6, 6], &steps)?;
        assert_eq!(rt; found.as_slice(), [0, 0, 1].as_slice());
        Ok(())
    }

    #[test]
    fn from_a_label_to_itself(rt: HostRuntime) -> Result<(), Fail> {
        let found = heights(rt.alloc(), &[3], &[step(0, 0, 3)])?;
        assert_eq!(rt; found.as_slice(), [0].as_slice());
        let found = heights(rt.alloc(), &[3], &[step(0, 0, 4)])?;
        assert_eq!(rt; found.as_slice(), [2].as_slice());
        Ok(())
    }

    #[test]
    fn over_a_wide_gap(rt: HostRuntime) -> Result<(), Fail> {
        let found = heights(rt.alloc(), &[2, 2], &[step(0, 1, usize::MAX)])?;
        assert_eq!(rt; found.as_slice(), [1, 1].as_slice());
        Ok(())
    }
}
