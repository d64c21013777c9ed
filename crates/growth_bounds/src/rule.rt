//! The rule for bounds.
ghost use Rattle.std.specs.Prelude.{◌≡◌, ◌<◌, ◌≤◌, ◌+◌, ◌*◌, ◌^◌, ◌↔◌, ℕ, length, slice_index, All};
ghost use Rattle.std.specs.Prelude.{IsTrue, true, false, IfOk, IfSome, IfNone, MatchOption};
ghost use Rattle.transition_matrix.specs.Matrices.{entry, sum_below};
ghost use Rattle.transition_matrix.specs.Bounds.{times, IsBounds};
ghost use Rattle.growth_bounds.specs.Rule.{Grows, IsFirstGrowth, IsLeastRatio, IsRuledBy, turned};
ghost use Rattle.growth_bounds.specs.inside.Reached.{IsFound, IsGrowing};

use crate::ratio::least_ratio;
use std::alloc::Global;
use transition_matrix::{Matrix, Memory, matrix_laws};

/// A row and two ratios that bound the growth of a matrix.
#[derive(Drop)]
pub struct GrowthBounds {
    /// The row, one number for each row of the matrix, each positive and below 2^63.
    pub u: Vec<u64>,
    /// The least ratio by which an entry of the row grows, as two numbers, not cancelled; above 1.
    pub low: (u64, u64),
    /// The greatest such ratio.
    pub high: (u64, u64),
}

/// Entries of the rows stay below this.
const LIMIT: u128 = 1 << 63;

/// The first power that is looked at.
const FIRST: u32 = 4;

/// The last power that is looked at.
const LAST: u32 = 64;

/// The bounds of the growth of a matrix by the rule: for the first j from 4 to 64 for which the row
/// of ones times the j-th power, u, and the row u times the matrix have all entries below 2^63, u
/// is positive, and every entry of the second row is greater, they are u and the least and the
/// greatest ratio of the entries, each at its first place. None exactly where there is no such j.
pub fn bounds(alloc: Global, m: &Matrix) -> Result<Option<GrowthBounds>, Memory>
    requires { 0 < m.now.size }
    ensures rule { IfOk result (λ found. MatchOption found
        ((j : ℕ) → 4 ≤ j → j ≤ 64 → ¬ Grows m.now j) (IsRuledBy m.now)) }
    ensures bounds { IfOk result (λ found. IfSome found (λ b. IsBounds m.now b.u.items b.low
        b.high)) }
{
    let n = m.size();
    let mut u = vec![in alloc; 1u64; n]?;
    let mut v = vec![in alloc; 0u64; n]?;
    if !find_growth(m, &mut u, &mut v) {
        return Ok(None);
    }
    Ok(Some(with_ratios(u, &v)))
}

/// The row with the least and the greatest ratio of the second row to it.
pub(crate) fn with_ratios(u: Vec<u64>, v: &[u64]) -> GrowthBounds
    requires some { 0 < length v.now }
    requires same { length u.items ≡ length v.now }
    requires small { All (λ n. n < 2 ^ 63) u.items × All (λ n. n < 2 ^ 63) v.now }
    requires positive { All (λ n. 0 < n) u.items × All (λ n. 0 < n) v.now }
    ensures row { result.u.items ≡ u.items }
    ensures low { IsLeastRatio (length v.now) (slice_index v.now) (slice_index u.items)
        result.low }
    ensures high { IsLeastRatio (length v.now) (slice_index u.items) (slice_index v.now)
        (turned result.high) }
{
    let low = least_ratio(v, &u);
    let (below, above) = least_ratio(&u, v);
    GrowthBounds {
        u,
        low,
        high: (above, below),
    }
}

/// Looks for the first row that grows, from the row of ones on; the second row is the next one.
pub(crate) fn find_growth(m: &Matrix, u: &mut [u64], v: &mut [u64]) -> bool
    requires size { (length u.old ≡ m.now.size) × (length v.old ≡ m.now.size) }
    requires ones { (i : ℕ) → i < m.now.size → slice_index u.old i ≡ 1 }
    ensures found { result ≡ true → IsFound m.now (IsFirstGrowth m.now) u.new v.new }
    ensures none { result ≡ false → (j : ℕ) → 4 ≤ j → j ≤ 64 → ¬ Grows m.now j }
{
    matrix_laws();
    for j in 0..LAST + 1 {
        if !multiply(m, u, v) {
            return false;
        }
        if j >= FIRST && is_growing(u, v) {
            return true;
        }
        u.copy_from_slice(v);
    }
    false
}

/// The row times the matrix at one place, where it is below 2^63. The row's entries are below that.
fn product_at(m: &Matrix, u: &[u64], j: usize) -> Option<u64>
    requires size { length u.now ≡ m.now.size }
    requires column { j < m.now.size }
    requires small { All (λ n. n < 2 ^ 63) u.now }
    ensures some { IfSome result (λ s. (s ≡ times m.now (slice_index u.now) j) × (s < 2 ^ 63)) }
    ensures none { IfNone result (2 ^ 63 ≤ times m.now (slice_index u.now) j) }
{
    matrix_laws();
    let mut sum: u128 = 0;
    for i in 0..m.size() {
        sum += u128::from(u[i]) * u128::from(m.entry(i, j));
        if sum >= LIMIT {
            return None;
        }
    }
    Some(sum as u64)
}

/// Writes down the row times the matrix, if all its entries are below 2^63.
pub(crate) fn multiply(m: &Matrix, u: &[u64], v: &mut [u64]) -> bool
    requires size { (length u.now ≡ m.now.size) × (length v.old ≡ m.now.size) }
    requires small { All (λ n. n < 2 ^ 63) u.now }
    ensures written { result ≡ true → (i : ℕ) → i < m.now.size
        → (slice_index v.new i ≡ times m.now (slice_index u.now) i)
        × (slice_index v.new i < 2 ^ 63) }
    ensures over { result ≡ false → (i : ℕ) × (i < m.now.size)
        × (2 ^ 63 ≤ times m.now (slice_index u.now) i) }
{
    for j in 0..m.size() {
        match product_at(m, u, j) {
            Some(s) => v[j] = s,
            None => return false,
        }
    }
    true
}

/// Whether the first row is positive and the second is greater in every entry.
pub(crate) fn is_growing(u: &[u64], v: &[u64]) -> bool
    requires { length v.now ≡ length u.now }
    ensures { IsTrue result ↔ IsGrowing u.now v.now }
{
    for i in 0..u.len() {
        if u[i] == 0 || v[i] <= u[i] {
            return false;
        }
    }
    true
}

#[cfg(test)]
mod tests {
    use super::*;
    use std::test::Fail;

    #[test]
    fn golden_ratio(rt: HostRuntime) -> Result<(), Fail> {
        let alloc = rt.alloc();
        let columns = [[0, 1].to_vec(alloc)?, [0, 1, 1].to_vec(alloc)?];
        let m = Matrix::from_columns(alloc, 2, &columns)?;
        let found = bounds(alloc, &m)?.ok_or("bounds")?;
        assert_eq!(rt; found.u.as_slice(), [34, 55].as_slice());
        assert_eq!(rt; found.low, (89, 34));
        assert_eq!(rt; found.high, (144, 55));
        Ok(())
    }

    #[test]
    fn no_growth(rt: HostRuntime) -> Result<(), Fail> {
        let alloc = rt.alloc();
        let columns = [[1].to_vec(alloc)?, [0].to_vec(alloc)?];
        let m = Matrix::from_columns(alloc, 2, &columns)?;
        assert!(rt; bounds(alloc, &m)?.is_none());
        Ok(())
    }
}
