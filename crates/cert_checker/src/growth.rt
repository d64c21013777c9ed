//! The rule for the bounds of growth, 18.
ghost use Rattle.std.specs.Prelude.{◌≡◌, ◌<◌, ◌≤◌, ◌*◌, ◌^◌, ◌-◌, min, length, slice_index};
ghost use Rattle.std.specs.Prelude.{◌↔◌, IsTrue, OnOk, IfErr};
ghost use Rattle.transition_matrix.specs.Bounds.{times};
ghost use Rattle.cert_text.specs.Certificates.{track_seen};
ghost use Rattle.cert_text.specs.PseudoAnosov.{IsCount, matrix_of};
ghost use Rattle.cert_checker.specs.TrackRules.{ArePairs, IsBoundedAt};
ghost use Rattle.cert_checker.specs.TrackRefusals.{IsGrowthRefusal};
ghost use Rattle.cert_checker.specs.inside.Stops.{IsStop, IsRule};
ghost use Rattle.cert_checker.specs.inside.TrackParts.{IsSquare, IsBounded};

use crate::verdict::Stop;
use cert_text::Pa;

/// The numbers of the bounds, and those of their row and the next, are below this.
const LIMIT: u64 = 1 << 63;

/// Whether the row of numbers grows under the matrix between the bounds, entry by entry. It takes no
/// memory.
pub(crate) fn check_growth(c: &Pa) -> Result<(), Stop>
    requires { IsSquare (track_seen c.now) }
    ensures held { OnOk result (IsBounded (track_seen c.now)) }
    ensures refused { IfErr result (IsStop (IsRule 18
        (IsGrowthRefusal (length c.now.matrix.items) (track_seen c.now)))) }
{
    let n = c.matrix.len();
    if c.u.len() != n {
        return Err(Stop::Refused {
            rule: 18,
            place: n as u64,
        });
    }
    if !are_pairs(c) {
        return Err(Stop::Refused {
            rule: 18,
            place: n as u64 + 1,
        });
    }
    for i in 0..n {
        if !is_bounded_at(c, i) {
            return Err(Stop::Refused {
                rule: 18,
                place: i as u64,
            });
        }
    }
    Ok(())
}

/// Whether the four numbers of the bounds are in their range, and the lower bound is above 1.
fn are_pairs(c: &Pa) -> bool
    ensures { IsTrue result ↔ ArePairs (track_seen c.now) }
{
    is_pair(c.low) && is_pair(c.high) && c.low.1 < c.low.0
}

/// Whether both numbers are in their range.
fn is_pair(pair: (u64, u64)) -> bool
    ensures { IsTrue result ↔ (IsCount pair.0 × IsCount pair.1) }
{
    is_count(pair.0) && is_count(pair.1)
}

/// Whether a number is from 1 to 2^63 - 1.
fn is_count(number: u64) -> bool
    ensures { IsTrue result ↔ IsCount number }
{
    0 < number && number < LIMIT
}

/// Whether an entry of the row and of the next row are in their range, and it grows between the
/// bounds.
fn is_bounded_at(c: &Pa, i: usize) -> bool
    requires square { IsSquare (track_seen c.now) }
    requires one_each { length c.now.u.items ≡ length c.now.matrix.items }
    requires within { i < length c.now.matrix.items }
    ensures { IsTrue result ↔ IsBoundedAt (matrix_of (track_seen c.now)) (track_seen c.now) i }
{
    let next = next_entry(c, i);
    if next >= u128::from(LIMIT) {
        return false;
    }
    is_count(c.u[i]) && grows_between(c, c.u[i], next as u64)
}

/// An entry of the next row, which is the row times the matrix; at most 2^128 - 1 is told.
fn next_entry(c: &Pa, i: usize) -> u128
    requires square { IsSquare (track_seen c.now) }
    requires one_each { length c.now.u.items ≡ length c.now.matrix.items }
    requires within { i < length c.now.matrix.items }
    ensures { result
        ≡ min (times (matrix_of (track_seen c.now)) (slice_index c.now.u.items) i) (2 ^ 128 - 1) }
{
    let mut sum: u128 = 0;
    for j in 0..c.matrix.len() {
        sum = sum.saturating_add(product(c.u[j], c.matrix[j][i]));
    }
    sum
}

/// The product of two numbers, which fits.
fn product(x: u64, y: u64) -> u128
    ensures { result ≡ x * y }
{
    u128::from(x) * u128::from(y)
}

/// Whether an entry grows to the next between the bounds.
fn grows_between(c: &Pa, entry: u64, next: u64) -> bool
    ensures { IsTrue result ↔ ((c.now.low.0 * entry ≤ c.now.low.1 * next)
        × (c.now.high.1 * next ≤ c.now.high.0 * entry)) }
{
    is_at_most((c.low.0, entry), (c.low.1, next)) && is_at_most((c.high.1, next), (c.high.0, entry))
}

/// Whether the product of two numbers is at most that of two others.
fn is_at_most(left: (u64, u64), right: (u64, u64)) -> bool
    ensures { IsTrue result ↔ (left.0 * left.1 ≤ right.0 * right.1) }
{
    product(left.0, left.1) <= product(right.0, right.1)
}
