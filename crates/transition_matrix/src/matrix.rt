//! Matrices of counts.
ghost use Rattle.std.specs.Prelude.{◌≡◌, ◌≢◌, ◌<◌, ◌≤◌, ◌+◌, ◌*◌, ℕ, [], length, map, replicate};
ghost use Rattle.std.specs.Prelude.{count_by, nat_eq, sum_by, slice_index, nat_lt, All, IfOk};
ghost use Rattle.std.specs.Prelude.{IfSome, IfNone};
ghost use Rattle.transition_matrix.specs.Matrices.{IsCountOf, IsLeastExponent, IsPositivePower};
ghost use Rattle.transition_matrix.specs.Matrices.{entry};
ghost use Rattle.transition_matrix.specs.inside.Bits.{bit, IsTable};

use crate::bits::{is_full, multiply, set_bit};
use crate::memory::Memory;
use crate::scratch::Scratch;
use std::alloc::Global;
use std::marker::Model;

/// A square matrix of counts, such as the transition matrix of a carried train track.
#[derive(Drop)]
pub struct Matrix {
    size: usize,
    entries: Vec<u64>,
}

impl Model for Matrix {
    ghost use Rattle.std.specs.Prelude.{◌≡◌, ◌*◌, length};
    ghost use Rattle.transition_matrix.specs.Matrices.{Square};

    ghost Value = { Square };

    ghost view = { λ a. record { size = a.size; entries = a.entries.items } };

    ghost invariant = { λ a. length a.entries.items ≡ a.size * a.size };
}

impl Matrix {
    /// The matrix with n rows and columns that counts, in row i and column j, how often i stands in
    /// the list `columns[j]`. The lists have at most 262,144 entries in all.
    pub fn from_columns(alloc: Global, n: usize, columns: &[Vec<u32>]) -> Result<Matrix, Memory>
        requires some { 0 < n }
        requires count { length columns.now ≡ n }
        requires entries { All (λ c. All (λ i. i < n) c.items) columns.now }
        requires few { sum_by (λ c. length c.items) columns.now ≤ 262144 }
        ensures { IfOk result (IsCountOf (map (λ c. c.items) columns.now)) }
    {
        let places = n.checked_mul(n).ok_or(Memory)?;
        let mut entries = vec![in alloc; 0; places]?;
        for j in 0..n {
            count_column(&mut entries, n, j, &columns[j]);
        }
        Ok(Matrix { size: n, entries })
    }

    /// The number of rows, which is that of the columns.
    pub fn size(&self) -> usize
        ensures { result ≡ self.now.size }
    {
        self.size
    }

    /// The entry in row i and column j, counted from 0.
    pub fn entry(&self, i: usize, j: usize) -> u64
        requires row { i < self.now.size }
        requires column { j < self.now.size }
        ensures { result ≡ entry self.now i j }
    {
        self.entries[i * self.size + j]
    }
}

/// Counts the entries of a list in one column of a matrix with n rows, where it is zero before.
fn count_column(entries: &mut [u64], n: usize, j: usize, column: &[u32])
    requires whole { length entries.old ≡ n * n }
    requires within { j < n }
    requires rows { All (λ i. i < n) column.now }
    requires few { length column.now ≤ 262144 }
    requires zero { (i : ℕ) → i < n → slice_index entries.old (i * n + j) ≡ 0 }
    ensures counted { (i : ℕ) → i < n
        → slice_index entries.new (i * n + j) ≡ count_by (nat_eq i) column.now }
    ensures others { (i k : ℕ) → i < n → k < n → k ≢ j
        → slice_index entries.new (i * n + k) ≡ slice_index entries.old (i * n + k) }
{
    for i in column {
        entries[*i as usize * n + j] += 1;
    }
}

impl Matrix {
    /// The least number from 1 to the limit for which that power of the matrix has all entries
    /// positive (a matrix that has one is primitive), and none exactly where there is none up to
    /// the limit. The room is for a matrix of this size. Takes no memory.
    pub fn primitive_exponent(&self, scratch: &mut Scratch, limit: u32) -> Option<u32>
        requires { scratch.old ≡ self.now.size }
        ensures some { IfSome result (IsLeastExponent self.now) }
        ensures within { IfSome result (λ k. k ≤ limit) }
        ensures none { IfNone result ((k : ℕ) → 0 < k → k ≤ limit → ¬ IsPositivePower self.now k) }
        ensures room { scratch.new ≡ scratch.old }
    {
        let width = scratch.width;
        let signs = scratch.matrix.as_mut_slice();
        write_signs(self, signs, width);
        least_exponent(
            self,
            signs,
            &mut scratch.power,
            &mut scratch.next,
            width,
            limit,
        )
    }
}

/// Writes down of each entry of a matrix whether it is positive.
fn write_signs(matrix: &Matrix, words: &mut [u64], width: usize)
    requires { IsTable matrix.now.size width words.old }
    ensures { (i j : ℕ) → i < matrix.now.size → j < matrix.now.size
        → bit width words.new i j ≡ nat_lt 0 (entry matrix.now i j) }
{
    words.fill(0);
    for i in 0..matrix.size() {
        for j in 0..matrix.size() {
            if matrix.entry(i, j) > 0 {
                set_bit(words, width, i, j);
            }
        }
    }
}

/// The least exponent of a matrix up to a limit, where its signs are written down, with room for
/// two more tables.
fn least_exponent(
    matrix: &Matrix,
    signs: &[u64],
    power: &mut [u64],
    next: &mut [u64],
    width: usize,
    limit: u32,
) -> Option<u32>
    requires signs { (i j : ℕ) → i < matrix.now.size → j < matrix.now.size
        → bit width signs.now i j ≡ nat_lt 0 (entry matrix.now i j) }
    requires table { IsTable matrix.now.size width signs.now }
    requires power { IsTable matrix.now.size width power.old }
    requires next { IsTable matrix.now.size width next.old }
    ensures some { IfSome result (IsLeastExponent matrix.now) }
    ensures within { IfSome result (λ k. k ≤ limit) }
    ensures none { IfNone result ((k : ℕ) → 0 < k → k ≤ limit → ¬ IsPositivePower matrix.now k) }
{
    let n = matrix.size();
    power.copy_from_slice(signs);
    for k in 0..limit {
        if is_full(power, n, width) {
            return Some(k + 1);
        }
        multiply(next, power, signs, n, width);
        power.copy_from_slice(next);
    }
    None
}

#[cfg(test)]
mod tests {
    use super::*;
    use std::test::Fail;

    /// The least exponent of the matrix with two columns that count these lists.
    fn exponent(alloc: Global, first: &[u32], second: &[u32]) -> Result<Option<u32>, Fail>
        requires { All (λ i. i < 2) first.now × All (λ i. i < 2) second.now
            × (length first.now < 9) × (length second.now < 9) }
    {
        let columns = [first.to_vec(alloc)?, second.to_vec(alloc)?];
        let m = Matrix::from_columns(alloc, 2, &columns)?;
        let mut scratch = Scratch::new(alloc, 2)?;
        Ok(m.primitive_exponent(&mut scratch, 1024))
    }

    #[test]
    fn counts_and_exponents(rt: HostRuntime) -> Result<(), Fail> {
        let alloc = rt.alloc();
        let columns = [[0, 1].to_vec(alloc)?, [0, 1, 1].to_vec(alloc)?];
        let m = Matrix::from_columns(alloc, 2, &columns)?;
        assert_eq!(rt; m.size(), 2);
        assert_eq!(rt; (m.entry(0, 0), m.entry(0, 1)), (1, 1));
        assert_eq!(rt; (m.entry(1, 0), m.entry(1, 1)), (1, 2));
        assert_eq!(rt; exponent(alloc, &[0, 1], &[0, 1, 1])?, Some(1));
        assert_eq!(rt; exponent(alloc, &[1], &[0, 1])?, Some(2));
        assert_eq!(rt;
            exponent(alloc, &[1], &[0])?,
            None,
            "a matrix that exchanges two"
        );
        assert_eq!(rt;
            exponent(alloc, &[0], &[0, 1])?,
            None,
            "a column that stays"
        );
        Ok(())
    }
}
