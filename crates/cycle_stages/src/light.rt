//! Numbers that are light beside a vector: their squares are at most its greatest number.
ghost use Rattle.std.specs.Prelude.{◌≡◌, ◌<◌, ◌≤◌, ◌*◌, ◌↔◌, IsTrue};
ghost use Rattle.edge_coords.specs.Coordinates.{AreSmall};
ghost use Rattle.edge_coords.specs.declared.coords.TheConstants.{COORDINATE_LIMIT};
ghost use Rattle.cycle_stages.specs.Light.{greatest_of};

/// The square of this is 2^126.
const ROOT: u128 = 1 << 63;

/// The greatest number of a vector.
pub fn greatest(w: &[u128]) -> u128
    requires { AreSmall w.now }
    ensures value { result ≡ greatest_of w.now }
    ensures small { result < COORDINATE_LIMIT }
{
    let mut greatest: u128 = 0;
    for n in w {
        greatest = greatest.max(*n);
    }
    greatest
}

/// Whether a number is light beside a vector with this greatest number.
pub fn is_light(greatest: u128, x: u128) -> bool
    requires { greatest < COORDINATE_LIMIT }
    ensures { IsTrue result ↔ (x * x ≤ greatest) }
{
    x < ROOT && x * x <= greatest
}
