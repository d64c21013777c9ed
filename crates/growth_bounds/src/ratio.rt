//! The least of several ratios.
ghost use Rattle.std.specs.Prelude.{◌≡◌, ◌<◌, ◌≤◌, ◌*◌, ◌^◌, ℕ, length, slice_index, nat_lt, All};
ghost use Rattle.growth_bounds.specs.Rule.{IsLeastRatio};

/// Whether a ratio is smaller than another; both numbers of each are below 2^63.
fn is_smaller(left: (u64, u64), right: (u64, u64)) -> bool
    requires left { (left.0 < 2 ^ 63) × (left.1 < 2 ^ 63) }
    requires right { (right.0 < 2 ^ 63) × (right.1 < 2 ^ 63) }
    ensures { result ≡ nat_lt (left.0 * right.1) (right.0 * left.1) }
{
    u128::from(left.0) * u128::from(right.1) < u128::from(right.0) * u128::from(left.1)
}

/// The least ratio `v[i] / u[i]`, as the pair of its two numbers, at the first place that has it.
/// The numbers are below 2^63.
pub(crate) fn least_ratio(v: &[u64], u: &[u64]) -> (u64, u64)
    requires some { 0 < length v.now }
    requires same { length u.now ≡ length v.now }
    requires small { All (λ n. n < 2 ^ 63) v.now × All (λ n. n < 2 ^ 63) u.now }
    requires positive { All (λ n. 0 < n) u.now }
    ensures { IsLeastRatio (length v.now) (slice_index v.now) (slice_index u.now) result }
{
    let mut least = (v[0], u[0]);
    for i in 1..v.len() {
        if is_smaller((v[i], u[i]), least) {
            least = (v[i], u[i]);
        }
    }
    least
}
