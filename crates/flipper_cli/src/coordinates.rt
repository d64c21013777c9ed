//! The numbers on the command line.
ghost use Rattle.std.specs.Prelude.{◌≡◌, ◌<◌, ◌⊎◌, length, true, Ok, Err, Some, IfOk, IfErr};
ghost use Rattle.std.specs.Prelude.{None, if◌then◌else◌};
ghost use Rattle.std.specs.Str.{all_ascii_digits};
ghost use Rattle.flipper_cli.specs.Coordinates.{is_number, number_in, numbers_in};
ghost use Rattle.surface_lib.specs.Spelling.{is_digit};

use std::alloc::{AllocFailed, Global};

/// The most digits of a number.
const DIGIT_LIMIT: usize = 64;

/// Why a text is no list of numbers.
#[derive(Clone, Copy, Debug, PartialEq, Eq)]
pub(crate) enum NumbersError {
    /// The field with this index, from 0, is the first that isn't 1 to 64 decimal digits.
    BadNumber(u64),
    /// No memory was found.
    Memory,
}

impl From<AllocFailed<u128>> for NumbersError {
    ghost use Rattle.std.specs.Prelude.{◌≡◌};
    ghost use Rattle.flipper_cli.specs.declared.coordinates.NumbersError.TheVariants.{Memory};

    ghost from_gives = { λ _ error. error ≡ Memory };

    fn from(_: AllocFailed<u128>) -> NumbersError {
        NumbersError::Memory
    }
}

/// The numbers of a text in which commas stand between them, each of 1 to 64 decimal digits. A
/// number above the largest of 128 bits is read as that one. `BadNumber` is the first field that is
/// no number, as the field of an empty text.
pub(crate) fn numbers_in(alloc: Global, text: &str) -> Result<Vec<u128>, NumbersError>
    ensures read { IfOk result (λ v. numbers_in text.now ≡ Ok v.items) }
    ensures refused { IfErr result (λ e. (e ≡ NumbersError.Memory) ⊎ (numbers_in text.now ≡ Err e)) }
{
    let mut numbers = Vec::new(alloc);
    for field in text.split(',') {
        match number_in(field) {
            Some(n) => numbers.push(n)?,
            None => return Err(NumbersError::BadNumber(numbers.len() as u64)),
        }
    }
    Ok(numbers)
}

/// The number of a field: 1 to 64 digits.
fn number_in(field: &str) -> Option<u128>
    ensures { result ≡ (if is_number field.now then Some (number_in field.now) else None) }
{
    if is_number(field) {
        Some(number_of_digits(field))
    } else {
        None
    }
}

/// Whether the text is 1 to 64 digits.
fn is_number(field: &str) -> bool
    ensures { result ≡ is_number field.now }
{
    1 <= field.len() && field.len() <= DIGIT_LIMIT && are_digits(field)
}

/// Whether the text has digits alone.
pub(crate) fn are_digits(text: &str) -> bool
    ensures { result ≡ all_ascii_digits text.now }
{
    text.as_bytes().iter().all(|c| is_digit(*c))
}

/// The value of these digits, or the largest number of 128 bits, if that is smaller.
fn number_of_digits(digits: &str) -> u128
    requires some { 0 < length digits.now }
    requires digits { all_ascii_digits digits.now ≡ true }
    ensures { result ≡ number_in digits.now }
{
    digits.parse::<u128>().unwrap_or(u128::MAX)
}

fn is_digit(c: u8) -> bool
    ensures { result ≡ is_digit c }
{
    b'0' <= c && c <= b'9'
}

#[cfg(test)]
mod tests {
    use super::*;

    #[test]
    fn fields(rt: HostRuntime) {
        for (field, number) in [
            ("0", Some(0)),
            ("007", Some(7)),
            ("340282366920938463463374607431768211455", Some(u128::MAX)),
            ("340282366920938463463374607431768211456", Some(u128::MAX)),
            (
                "9999999999999999999999999999999999999999999999999999999999999999",
                Some(u128::MAX),
            ),
            (
                "0000000000000000000000000000000000000000000000000000000000000012",
                Some(12),
            ),
            (
                "00000000000000000000000000000000000000000000000000000000000000012",
                None,
            ),
            ("+1", None),
            ("-1", None),
            (" 1", None),
            ("1a", None),
            ("", None),
        ] {
            assert_eq!(rt; number_in(field), number, "at {field}");
        }
    }

    #[test]
    fn texts(rt: HostRuntime) {
        for (text, bad) in [
            ("2,,1", 1),
            ("1,2,", 2),
            ("1, 2", 1),
            ("x,y", 0),
            (",", 0),
            ("", 0),
        ] {
            assert!(rt;
                matches!(numbers_in(rt.alloc(), text), Err(NumbersError::BadNumber(i)) if i == bad),
                "at {text}"
            );
        }
        match numbers_in(rt.alloc(), "0,12,340282366920938463463374607431768211456") {
            Ok(numbers) => assert_eq!(rt; numbers.as_slice(), [0, 12, u128::MAX].as_slice()),
            Err(error) => assert_eq!(rt; error, NumbersError::Memory),
        }
    }
}
