//! Tables of truth values, as bits of words.
ghost use Rattle.std.specs.Prelude.{◌≡◌, ◌≢◌, ◌<◌, ◌≤◌, ◌+◌, ◌*◌, ◌/◌, ◌||◌, ◌&&◌, ◌↔◌, ℕ, true};
ghost use Rattle.std.specs.Prelude.{false, length, nat_eq, IsTrue};
ghost use Rattle.transition_matrix.specs.inside.Bits.{bit, any_below, IsTable};

/// How many bits a word has.
pub(crate) const WORD: usize = 64;

/// The value in row i and column j, where each row has `width` words.
fn bit(words: &[u64], width: usize, i: usize, j: usize) -> bool
    requires { i * width + j / 64 < length words.now }
    ensures { result ≡ bit width words.now i j }
{
    words[i * width + j / WORD] >> (j % WORD) & 1 == 1
}

/// Makes the value in row i and column j true.
pub(crate) fn set_bit(words: &mut [u64], width: usize, i: usize, j: usize)
    requires within { i * width + j / 64 < length words.old }
    requires column { j < width * 64 }
    ensures here { bit width words.new i j ≡ true }
    ensures columns { (k : ℕ) → k ≢ j → bit width words.new i k ≡ bit width words.old i k }
    ensures rows { (l k : ℕ) → l ≢ i → k < width * 64
        → bit width words.new l k ≡ bit width words.old l k }
{
    words[i * width + j / WORD] |= 1 << (j % WORD);
}

/// Makes the values in row i true that are true in row l of the other table.
fn or_row(words: &mut [u64], i: usize, others: &[u64], l: usize, width: usize)
    requires row { i * width + width ≤ length words.old }
    requires other { l * width + width ≤ length others.now }
    ensures here { (j : ℕ) → j < width * 64
        → bit width words.new i j ≡ (bit width words.old i j || bit width others.now l j) }
    ensures rows { (k j : ℕ) → k ≢ i → j < width * 64
        → bit width words.new k j ≡ bit width words.old k j }
{
    for t in 0..width {
        words[i * width + t] |= others[l * width + t];
    }
}

/// Row i of the product of two tables of n rows: true where the first has a value true in that row,
/// and the second in the column, at one place. The row is false before.
fn multiply_row(words: &mut [u64], i: usize, left: &[u64], right: &[u64], n: usize, width: usize)
    requires tables { IsTable n width words.old × IsTable n width left.now
        × IsTable n width right.now }
    requires row { i < n }
    requires clear { (j : ℕ) → j < width * 64 → bit width words.old i j ≡ false }
    ensures here { (j : ℕ) → j < width * 64
        → bit width words.new i j ≡ any_below n (λ l. bit width left.now i l && bit width right.now
        l j) }
    ensures rows { (k j : ℕ) → k ≢ i → j < width * 64
        → bit width words.new k j ≡ bit width words.old k j }
{
    for l in 0..n {
        if bit(left, width, i, l) {
            or_row(words, i, right, l, width);
        }
    }
}

/// The product of two tables of n rows.
pub(crate) fn multiply(words: &mut [u64], left: &[u64], right: &[u64], n: usize, width: usize)
    requires { IsTable n width words.old × IsTable n width left.now × IsTable n width right.now }
    ensures { (i j : ℕ) → i < n → j < n
        → bit width words.new i j ≡ any_below n (λ l. bit width left.now i l && bit width right.now
        l j) }
{
    words.fill(0);
    for i in 0..n {
        multiply_row(words, i, left, right, n, width);
    }
}

/// Whether all n values of row i are true.
fn is_row_full(words: &[u64], i: usize, n: usize, width: usize) -> bool
    requires table { IsTable n width words.now }
    requires row { i < n }
    ensures { IsTrue result ↔ ((j : ℕ) → j < n → bit width words.now i j ≡ true) }
{
    for j in 0..n {
        if !bit(words, width, i, j) {
            return false;
        }
    }
    true
}

/// Whether all values of a table of n rows are true.
pub(crate) fn is_full(words: &[u64], n: usize, width: usize) -> bool
    requires { IsTable n width words.now }
    ensures { IsTrue result ↔ ((i j : ℕ) → i < n → j < n → bit width words.now i j ≡ true) }
{
    for i in 0..n {
        if !is_row_full(words, i, n, width) {
            return false;
        }
    }
    true
}
