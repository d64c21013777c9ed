//! The lines of a log, read from their texts.
ghost use Rattle.std.specs.Prelude.{◌≡◌, ◌&&◌, not, option_and_then};
ghost use Rattle.std.specs.Option.{option_map};
ghost use Rattle.std.specs.Str.{all_ascii_digits};
ghost use Rattle.cert_text.specs.Shapes.{behind, curve_of, has_needless_zero, number_of, track_of};

use crate::coordinate::are_digits;
use crate::lines::TrackLine;
use edge_coords::CurveLine;

/// The line on a candidate for a multicurve with this text.
pub(crate) fn curve_of(text: &str) -> Option<CurveLine>
    ensures { result ≡ curve_of text.now }
{
    match text {
        "overflow" => Some(CurveLine::Overflow),
        "not_multicurve" => Some(CurveLine::NotMulticurve),
        "empty" => Some(CurveLine::Empty),
        "moved" => Some(CurveLine::Moved),
        _ => None,
    }
}

/// The line on a candidate for a train track with this text.
pub(crate) fn track_of(text: &str) -> Option<TrackLine>
    ensures { result ≡ track_of text.now }
{
    if let Some(n) = number_behind("two_left_out ", text) {
        return Some(TrackLine::TwoLeftOut { n });
    }
    if let Some(n) = number_behind("vertex_closed ", text) {
        return Some(TrackLine::VertexClosed { n });
    }
    if let Some(n) = number_behind("cap ", text) {
        return Some(TrackLine::Cap { n });
    }
    if let Some(n) = number_behind("no_common ", text) {
        return Some(TrackLine::NoCommon { n });
    }
    if let Some(n) = number_behind("illegal ", text) {
        return Some(TrackLine::Illegal { n });
    }
    if let Some(n) = number_behind("paths_cap ", text) {
        return Some(TrackLine::PathsCap { n });
    }
    match text {
        "not_primitive" => Some(TrackLine::NotPrimitive),
        "no_bounds" => Some(TrackLine::NoBounds),
        _ => None,
    }
}

/// The number behind a name and a space.
fn number_behind(name: &str, text: &str) -> Option<u64>
    ensures { result ≡ option_and_then number_of (behind name.now text.now) }
{
    number_of(rest_behind(name, text)?)
}

/// What stands behind a name and a space.
fn rest_behind<'t>(name: &str, text: &'t str) -> Option<&'t str>
    ensures { option_map (λ rest. rest.now) result ≡ behind name.now text.now }
{
    text.strip_prefix(name)
}

/// The number with these decimal digits, the first not a needless zero.
fn number_of(text: &str) -> Option<u64>
    ensures { result ≡ number_of text.now }
{
    if is_plain(text) {
        text.parse::<u64>().ok()
    } else {
        None
    }
}

/// Whether the text has digits alone, the first not a needless zero.
fn is_plain(text: &str) -> bool
    ensures { result ≡ (all_ascii_digits text.now && not (has_needless_zero text.now)) }
{
    are_digits(text) && !has_needless_zero(text)
}

/// Whether a zero stands before other digits.
fn has_needless_zero(text: &str) -> bool
    ensures { result ≡ has_needless_zero text.now }
{
    match text.as_bytes() {
        [first, _, ..] => *first == b'0',
        _ => false,
    }
}
