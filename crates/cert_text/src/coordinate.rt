//! The text of a coordinate.
ghost use Rattle.std.specs.Prelude.{◌≡◌, ◌<◌, ◌&&◌, ◌^◌, ◌-◌, length, min, nat_le, true};
ghost use Rattle.std.specs.Str.{all_ascii_digits};
ghost use Rattle.std.specs.Str.Parse.{digits_value};
ghost use Rattle.cert_text.specs.Shapes.{coordinate_of};

/// The most digits of a coordinate.
const DIGIT_LIMIT: usize = 64;

/// The number of 1 to 64 decimal digits. One above the largest of 128 bits is read as that one.
pub(crate) fn coordinate_of(text: &str) -> Option<u128>
    ensures { result ≡ coordinate_of text.now }
{
    if is_coordinate(text) {
        Some(number_of_digits(text))
    } else {
        None
    }
}

/// Whether the text is 1 to 64 digits.
fn is_coordinate(text: &str) -> bool
    ensures { result ≡ (nat_le 1 (length text.now)
        && (nat_le (length text.now) 64 && all_ascii_digits text.now)) }
{
    1 <= text.len() && text.len() <= DIGIT_LIMIT && are_digits(text)
}

/// Whether the text has digits alone.
pub(crate) fn are_digits(text: &str) -> bool
    ensures { result ≡ all_ascii_digits text.now }
{
    text.as_bytes().iter().all(|c| is_digit(*c))
}

fn is_digit(c: u8) -> bool
    ensures { result ≡ (nat_le 48 c && nat_le c 57) }
{
    b'0' <= c && c <= b'9'
}

/// The value of these digits, or the largest number of 128 bits, if that is smaller.
fn number_of_digits(digits: &str) -> u128
    requires some { 0 < length digits.now }
    requires digits { all_ascii_digits digits.now ≡ true }
    ensures { result ≡ min (digits_value 10 digits.now) (2 ^ 128 - 1) }
{
    digits.parse::<u128>().unwrap_or(u128::MAX)
}
