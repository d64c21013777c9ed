//! The wider rule for bounds.
ghost use Rattle.std.specs.Prelude.{◌≡◌, ◌<◌, ◌≤◌, ◌^◌, ℕ, length, slice_index, All};
ghost use Rattle.std.specs.Prelude.{true, false, IfOk, IfSome, MatchOption};
ghost use Rattle.transition_matrix.specs.Bounds.{IsBounds};
ghost use Rattle.growth_bounds.specs.Rule.{Grows, IsWideGrowth, IsWidelyRuledBy};
ghost use Rattle.growth_bounds.specs.inside.Reached.{GrowsWith, IsFound, IsRow};

use crate::rule::{GrowthBounds, find_growth, is_growing, multiply, with_ratios};
use std::alloc::Global;
use transition_matrix::{Matrix, Memory, matrix_laws};

/// The bounds of the growth of a matrix by the wider rule: as `bounds` has them, but the numbers j
/// are looked at in the order 4, 5, .., 64, 3, 2, 1, 0; at 0 the row is that of ones. So they are
/// those of `bounds` where there are any. None exactly where no j up to 64 will do.
///
/// Where a matrix has large entries, the fourth row or the one after it may pass 2^63, and the
/// bounds come from a row before them.
pub fn wide_bounds(alloc: Global, m: &Matrix) -> Result<Option<GrowthBounds>, Memory>
    requires { 0 < m.now.size }
    ensures rule { IfOk result (λ found. MatchOption found
        ((j : ℕ) → j ≤ 64 → ¬ Grows m.now j) (IsWidelyRuledBy m.now)) }
    ensures bounds { IfOk result (λ found. IfSome found (λ b. IsBounds m.now b.u.items b.low
        b.high)) }
{
    let n = m.size();
    let mut u = vec![in alloc; 1u64; n]?;
    let mut v = vec![in alloc; 0u64; n]?;
    if !find_wide_growth(m, &mut u, &mut v) {
        return Ok(None);
    }
    Ok(Some(with_ratios(u, &v)))
}

/// Looks for the first row that grows, in the wider order, from the row of ones on; the second row
/// is the next one.
fn find_wide_growth(m: &Matrix, u: &mut [u64], v: &mut [u64]) -> bool
    requires size { (length u.old ≡ m.now.size) × (length v.old ≡ m.now.size) }
    requires ones { (i : ℕ) → i < m.now.size → slice_index u.old i ≡ 1 }
    ensures found { result ≡ true → IsFound m.now (IsWideGrowth m.now) u.new v.new }
    ensures none { result ≡ false → (j : ℕ) → j ≤ 64 → ¬ Grows m.now j }
{
    if find_growth(m, u, v) {
        return true;
    }
    // the numbers before the fourth, downwards
    for k in 0..4u32 {
        if grows_at(m, 3 - k, u, v) {
            return true;
        }
    }
    false
}

/// Whether the row of a number grows; if so, the two rows are that one and the next.
fn grows_at(m: &Matrix, j: u32, u: &mut [u64], v: &mut [u64]) -> bool
    requires size { (length u.old ≡ m.now.size) × (length v.old ≡ m.now.size) }
    ensures grows { result ≡ true → GrowsWith m.now j u.new v.new }
    ensures stays { result ≡ false → ¬ Grows m.now j }
{
    matrix_laws();
    if !write_row(m, j, u, v) {
        return false;
    }
    if !multiply(m, u, v) {
        return false;
    }
    is_growing(u, v)
}

/// Writes down the row of a number, if the rows up to it have entries below 2^63. The second list
/// serves for the multiplications.
fn write_row(m: &Matrix, j: u32, u: &mut [u64], v: &mut [u64]) -> bool
    requires size { (length u.old ≡ m.now.size) × (length v.old ≡ m.now.size) }
    ensures row { result ≡ true → IsRow m.now j u.new }
    ensures over { result ≡ false → (k : ℕ) → j ≤ k → ¬ Grows m.now k }
{
    matrix_laws();
    u.fill(1);
    for _ in 0..j {
        if !multiply(m, u, v) {
            return false;
        }
        u.copy_from_slice(v);
    }
    true
}

#[cfg(test)]
mod tests {
    use super::*;
    use crate::rule::bounds;
    use std::test::Fail;

    // a column with one entry, in row 0
    fn column(alloc: Global, entry: usize) -> Result<Vec<u32>, Memory>
        ensures rows { IfOk result (λ c. All (λ i. i ≡ 0) c.items) }
        ensures length { IfOk result (λ c. length c.items ≡ entry) }
    {
        Ok(vec![in alloc; 0; entry]?)
    }

    // the rows (7000, 1), (0, 1): the row after the fourth is too great
    #[test]
    fn third_row(rt: HostRuntime) -> Result<(), Fail> {
        let alloc = rt.alloc();
        let columns = [column(alloc, 7_000)?, [0, 1].to_vec(alloc)?];
        let m = Matrix::from_columns(alloc, 2, &columns)?;
        assert!(rt; bounds(alloc, &m)?.is_none());
        let found = wide_bounds(alloc, &m)?.ok_or("bounds")?;
        assert_eq!(rt;
            found.u.as_slice(),
            [343_000_000_000, 49_007_002].as_slice()
        );
        assert_eq!(rt; found.low, (343_049_007_002, 49_007_002));
        assert_eq!(rt; found.high, (2_401_000_000_000_000, 343_000_000_000));
        Ok(())
    }

    // the one entry is 60000: the fourth row is too great
    #[test]
    fn second_row(rt: HostRuntime) -> Result<(), Fail> {
        let alloc = rt.alloc();
        let columns = [column(alloc, 60_000)?];
        let m = Matrix::from_columns(alloc, 1, &columns)?;
        assert!(rt; bounds(alloc, &m)?.is_none());
        let found = wide_bounds(alloc, &m)?.ok_or("bounds")?;
        assert_eq!(rt; found.u.as_slice(), [3_600_000_000].as_slice());
        assert_eq!(rt; found.low, (216_000_000_000_000, 3_600_000_000));
        assert_eq!(rt; found.high, (216_000_000_000_000, 3_600_000_000));
        Ok(())
    }

    // the rows (1, 1), (1, 2), and (1, 1), (0, 0)
    #[test]
    fn as_bounds(rt: HostRuntime) -> Result<(), Fail> {
        let alloc = rt.alloc();
        let columns = [[0, 1].to_vec(alloc)?, [0, 1, 1].to_vec(alloc)?];
        let m = Matrix::from_columns(alloc, 2, &columns)?;
        let found = wide_bounds(alloc, &m)?.ok_or("bounds")?;
        assert_eq!(rt; found.u.as_slice(), [34, 55].as_slice());
        assert_eq!(rt; found.low, (89, 34));
        assert_eq!(rt; found.high, (144, 55));
        let columns = [[0].to_vec(alloc)?, [0].to_vec(alloc)?];
        let m = Matrix::from_columns(alloc, 2, &columns)?;
        assert!(rt; wide_bounds(alloc, &m)?.is_none());
        Ok(())
    }
}
