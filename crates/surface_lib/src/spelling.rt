//! How names are spelt.
ghost use Rattle.std.specs.Prelude.{◌≡◌};
ghost use Rattle.std.specs.List.{list_all};
ghost use Rattle.surface_lib.specs.Spelling.{is_lower, is_upper, is_digit, is_name_byte};
ghost use Rattle.surface_lib.specs.Spelling.{is_surface_byte, is_generator_name, is_surface_name};

/// The most bytes of a generator's name.
const GENERATOR_NAME_LIMIT: usize = 16;

/// The most bytes of a surface's name.
const SURFACE_NAME_LIMIT: usize = 64;

/// A generator's name is a lower-case letter and at most 15 lower-case letters, digits and `_`
/// behind it.
pub(crate) fn is_generator_name(text: &str) -> bool
    ensures { result ≡ is_generator_name text.now }
{
    match text.as_bytes() {
        [first, rest @ ..] => is_lower(*first)
            && rest.len() < GENERATOR_NAME_LIMIT
            && are_name_bytes(rest),
        [] => false,
    }
}

/// A surface's name is 1 to 64 letters, digits, `_` and `-`.
pub(crate) fn is_surface_name(text: &str) -> bool
    ensures { result ≡ is_surface_name text.now }
{
    let bytes = text.as_bytes();
    1 <= bytes.len() && bytes.len() <= SURFACE_NAME_LIMIT && are_surface_bytes(bytes)
}

/// Whether all bytes may stand behind the first of a generator's name.
fn are_name_bytes(bytes: &[u8]) -> bool
    ensures { result ≡ list_all is_name_byte bytes.now }
{
    bytes.iter().all(|c| is_name_byte(*c))
}

/// Whether all bytes may stand in a surface's name.
fn are_surface_bytes(bytes: &[u8]) -> bool
    ensures { result ≡ list_all is_surface_byte bytes.now }
{
    bytes.iter().all(|c| is_surface_byte(*c))
}

fn is_name_byte(c: u8) -> bool
    ensures { result ≡ is_name_byte c }
{
    is_lower(c) || is_digit(c) || c == b'_'
}

fn is_surface_byte(c: u8) -> bool
    ensures { result ≡ is_surface_byte c }
{
    is_lower(c) || is_upper(c) || is_digit(c) || c == b'_' || c == b'-'
}

fn is_lower(c: u8) -> bool
    ensures { result ≡ is_lower c }
{
    b'a' <= c && c <= b'z'
}

/// Whether the byte is an upper-case letter.
pub(crate) fn is_upper(c: u8) -> bool
    ensures { result ≡ is_upper c }
{
    b'A' <= c && c <= b'Z'
}

/// Whether the byte is a decimal digit.
pub(crate) fn is_digit(c: u8) -> bool
    ensures { result ≡ is_digit c }
{
    b'0' <= c && c <= b'9'
}
