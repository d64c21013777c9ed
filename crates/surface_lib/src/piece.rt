//! How a text is cut into pieces.
ghost use Rattle.std.specs.Prelude.{◌≡◌, ◌<◌, ◌≤◌, ◌+◌, ◌^◌, ◌==◌, ◌&&◌, ◌∷◌, length};
ghost use Rattle.std.specs.Option.{option_map};
ghost use Rattle.surface_lib.specs.Pieces.{is_bad, depth_after, bad_bracket, dots, parts, pieces};
ghost use Rattle.surface_lib.specs.Pieces.{before, before_first, piece, group_behind, name_in};
ghost use Rattle.surface_lib.specs.inside.Cut.{seen, inside_length, parts_left, bytes_left};

/// A piece of a text: nothing, a group, or a name; and behind it the text of a power.
pub(crate) enum Piece<'a> {
    Empty,
    Group { inside: &'a [u8], power: &'a [u8] },
    Name { spelt: &'a [u8], power: &'a [u8] },
}

/// How many brackets may be open at once.
const DEPTH_LIMIT: u64 = 8;

/// The place of the first bracket that closes nothing or opens one too many; or the end, where one
/// stays open.
pub(crate) fn bad_bracket(text: &[u8]) -> Option<u64>
    ensures { result ≡ bad_bracket 0 0 text.now }
{
    let mut depth = 0;
    let mut place = 0;
    for c in text {
        if is_bad(depth, *c) {
            return Some(place);
        }
        depth = depth_after(depth, *c);
        place += 1;
    }
    if depth == 0 { None } else { Some(place) }
}

fn is_bad(depth: u64, c: u8) -> bool
    ensures { result ≡ is_bad depth c }
{
    c == b'(' && depth == DEPTH_LIMIT || c == b')' && depth == 0
}

/// How many brackets are open after a byte.
fn depth_after(depth: u64, c: u8) -> u64
    requires { depth + 1 < 2 ^ 64 }
    ensures { result ≡ depth_after depth c }
{
    if c == b'(' {
        depth + 1
    } else if c == b')' {
        depth.saturating_sub(1)
    } else {
        depth
    }
}

/// The number of dots, those in brackets too.
pub(crate) fn dots(text: &[u8]) -> usize
    ensures count { result ≡ dots text.now }
    ensures few { result ≤ length text.now }
{
    text.iter().filter(|c| **c == b'.').count()
}

fn is_outside(b: u8, depth: u64, c: u8) -> bool
    ensures { result ≡ (c == b && depth == 0) }
{
    c == b && depth == 0
}

/// How many bytes stand before the first `b` outside the brackets of the text.
fn before(b: u8, text: &[u8]) -> usize
    ensures count { result ≡ before b 0 text.now }
    ensures within { result ≤ length text.now }
{
    let mut depth = 0;
    for (place, c) in text.iter().enumerate() {
        if is_outside(b, depth, *c) {
            return place;
        }
        depth = depth_after(depth, *c);
    }
    text.len()
}

/// How many bytes stand before the first `b`.
fn before_first(b: u8, text: &[u8]) -> usize
    ensures count { result ≡ before_first b text.now }
    ensures within { result ≤ length text.now }
{
    for (place, c) in text.iter().enumerate() {
        if *c == b {
            return place;
        }
    }
    text.len()
}

/// The text, unless it is empty: then it has no piece.
pub(crate) fn pieces(text: &[u8]) -> Option<&[u8]>
    ensures parts { parts_left (option_map (λ r. r.now) result) ≡ pieces text.now }
    ensures size { bytes_left (option_map (λ r. r.now) result) ≤ length text.now + 1 }
{
    if text.is_empty() { None } else { Some(text) }
}

/// The first piece, and what stands behind the dot that ends it.
pub(crate) fn first_piece(text: &[u8]) -> (&[u8], Option<&[u8]>)
    ensures cut { parts 0 text.now ≡ result.0.now ∷ parts_left (option_map (λ r. r.now) result.1) }
    ensures size { length result.0.now + 1 + bytes_left (option_map (λ r. r.now) result.1)
        ≤ length text.now + 1 }
{
    let end = before(b'.', text);
    let first = &text[..end];
    if end < text.len() {
        (first, Some(&text[end + 1..]))
    } else {
        (first, None)
    }
}

/// What a piece is.
pub(crate) fn read_piece(text: &[u8]) -> Piece<'_>
    ensures seen { seen result ≡ piece text.now }
    ensures inside { inside_length result ≤ length text.now }
{
    match text {
        [] => Piece::Empty,
        [b'(', rest @ ..] => group(rest),
        _ => name(text),
    }
}

fn group(text: &[u8]) -> Piece<'_>
    ensures seen { seen result ≡ group_behind text.now }
    ensures inside { inside_length result ≤ length text.now }
{
    let end = before(b')', text);
    let inside = &text[..end];
    let power = if end < text.len() {
        &text[end + 1..]
    } else {
        &text[end..]
    };
    Piece::Group { inside, power }
}

fn name(text: &[u8]) -> Piece<'_>
    ensures seen { seen result ≡ name_in text.now }
    ensures inside { inside_length result ≤ length text.now }
{
    let end = before_first(b'^', text);
    Piece::Name {
        spelt: &text[..end],
        power: &text[end..],
    }
}
