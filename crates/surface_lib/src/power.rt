//! Powers of the parts of a word.
ghost use Rattle.std.specs.Prelude.{◌≡◌, ◌<◌, ◌-◌, ◌&&◌};
ghost use Rattle.surface_lib.specs.Spelling.{is_digit};
ghost use Rattle.surface_lib.specs.Powers.{number_of, exponent, with_times, signed};
ghost use Rattle.surface_lib.specs.Powers.{power};

/// How often a part of a word is taken, from 1 to 4,096 times, and whether it is taken backwards.
#[derive(Clone, Copy, Debug, PartialEq, Eq)]
pub struct Power {
    pub times: u32,
    pub backwards: bool,
}

/// The largest exponent.
const POWER_LIMIT: u32 = 4_096;

/// The power that the text behind a name or a group is: `^`, then `-` or nothing, then one to four
/// digits of value 1 to 4,096. Where nothing is written it is 1.
pub(crate) fn read_power(text: &[u8]) -> Option<Power>
    ensures { result ≡ power text.now }
{
    match text {
        [] => Some(Power {
            times: 1,
            backwards: false,
        }),
        [b'^', rest @ ..] => signed(rest),
        _ => None,
    }
}

fn signed(text: &[u8]) -> Option<Power>
    ensures { result ≡ signed text.now }
{
    match text {
        [] => None,
        [b'-', digits @ ..] => with_times(true, exponent(digits)),
        digits => with_times(false, exponent(digits)),
    }
}

fn with_times(backwards: bool, times: Option<u32>) -> Option<Power>
    ensures { result ≡ with_times backwards times }
{
    match times {
        Some(times) => Some(Power { times, backwards }),
        None => None,
    }
}

fn exponent(digits: &[u8]) -> Option<u32>
    ensures { result ≡ exponent digits.now }
{
    match *digits {
        [d] => number_of(b'0', b'0', b'0', d),
        [c, d] => number_of(b'0', b'0', c, d),
        [b, c, d] => number_of(b'0', b, c, d),
        [a, b, c, d] => number_of(a, b, c, d),
        _ => None,
    }
}

fn number_of(a: u8, b: u8, c: u8, d: u8) -> Option<u32>
    ensures { result ≡ number_of a b c d }
{
    let n = 1_000 * digit(a) + 100 * digit(b) + 10 * digit(c) + digit(d);
    if are_digits(a, b, c, d) && 1 <= n && n <= POWER_LIMIT {
        Some(n)
    } else {
        None
    }
}

fn are_digits(a: u8, b: u8, c: u8, d: u8) -> bool
    ensures { result ≡ ((is_digit a && is_digit b) && (is_digit c && is_digit d)) }
{
    a.is_ascii_digit() && b.is_ascii_digit() && c.is_ascii_digit() && d.is_ascii_digit()
}

/// The value of a digit; of other bytes, a number below 256.
fn digit(c: u8) -> u32
    ensures value { result ≡ c - 48 }
    ensures small { result < 256 }
{
    u32::from(c.saturating_sub(b'0'))
}
