//! Lists, numbers, pairs, walks and lines in the JSON tree of a certificate.
ghost use Rattle.std.specs.Prelude.{◌≡◌, ◌<◌, map, length, true, IfOk, option_and_then};
ghost use Rattle.std.specs.Option.{option_map};
ghost use Rattle.std.specs.Str.{all_ascii_digits};
ghost use Rattle.serde_json.specs.Find.{as_array, get};
ghost use Rattle.serde_json.specs.View.{view};
ghost use Rattle.cert_text.specs.Certificates.{anchor_seen, anchors_seen, rows_of, walks_of};
ghost use Rattle.cert_text.specs.Shapes.{anchor_in, capped_in, coordinate_in, count_in, curve_in};
ghost use Rattle.cert_text.specs.Shapes.{entries_of, integer_in, list_in, natural_in, pair_in};
ghost use Rattle.cert_text.specs.Shapes.{track_in, walk_in};

use crate::carried_track::Anchor;
use crate::coordinate::coordinate_of;
use crate::line_texts::{curve_of, track_of};
use crate::lines::TrackLine;
use edge_coords::CurveLine;
use ideal_tri::Memory;
use serde_json::Value;
use std::alloc::Global;

/// The entries of a list.
fn entries_in(value: &Value) -> Option<&[Value]>
    ensures { option_map (λ list. map view list.now) result
        ≡ option_map entries_of (as_array (view value.now)) }
{
    Some(value.as_array()?.as_slice())
}

/// A whole number of 32 bits with a sign, written with neither point nor exponent.
fn integer_in(value: &Value) -> Option<i32>
    ensures { result ≡ integer_in (view value.now) }
{
    num_traits::cast::<i64, i32>(value.as_i64()?)
}

/// The whole number that an object has at a name.
fn integer_at(value: &Value, name: &str) -> Option<i32>
    ensures { result ≡ option_and_then integer_in (get name.now (view value.now)) }
{
    integer_in(value.get(name)?)
}

/// A whole number of 64 bits.
fn natural_in(value: &Value) -> Option<u64>
    ensures { result ≡ natural_in (view value.now) }
{
    value.as_u64()
}

/// A whole number of 32 bits.
pub(crate) fn count_in(value: &Value) -> Option<u32>
    ensures { result ≡ count_in (view value.now) }
{
    num_traits::cast::<u64, u32>(value.as_u64()?)
}

/// A list of two numbers.
pub(crate) fn pair_in(value: &Value) -> Option<(u64, u64)>
    ensures { result ≡ pair_in natural_in (view value.now) }
{
    let [a, b] = entries_in(value)? else {
        return None;
    };
    Some((natural_in(a)?, natural_in(b)?))
}

/// Null, or a power and so many letters.
pub(crate) fn capped_in(value: &Value) -> Option<Option<(u32, u64)>>
    ensures { result ≡ capped_in (view value.now) }
{
    if value.is_null() {
        return Some(None);
    }
    Some(Some(power_and_letters_in(value)?))
}

/// A power and so many letters.
fn power_and_letters_in(value: &Value) -> Option<(u32, u64)>
    ensures { result ≡ pair_in count_in (view value.now) }
{
    let [a, b] = entries_in(value)? else {
        return None;
    };
    Some((count_in(a)?, natural_in(b)?))
}

/// The digits of a coordinate.
fn coordinate_in(value: &Value) -> Option<u128>
    ensures { result ≡ coordinate_in (view value.now) }
{
    coordinate_of(value.as_str()?)
}

/// A line on a candidate for a multicurve.
fn curve_in(value: &Value) -> Option<CurveLine>
    ensures { result ≡ curve_in (view value.now) }
{
    curve_of(value.as_str()?)
}

/// A line on a candidate for a train track.
fn track_in(value: &Value) -> Option<TrackLine>
    ensures { result ≡ track_in (view value.now) }
{
    track_of(value.as_str()?)
}

/// Where one switch goes.
fn anchor_in(alloc: Global, value: &Value) -> Result<Option<Anchor>, Memory>
    ensures { IfOk result (λ found. option_map anchor_seen found ≡ anchor_in (view value.now)) }
{
    let Some(connect) = walk_at(alloc, value, "connect")? else {
        return Ok(None);
    };
    let Some(switch) = integer_at(value, "switch") else {
        return Ok(None);
    };
    let Some(to) = integer_at(value, "to") else {
        return Ok(None);
    };
    Ok(Some(Anchor {
        switch,
        to,
        connect,
    }))
}

/// The walk that an object has at a name.
fn walk_at(alloc: Global, value: &Value, name: &str) -> Result<Option<Vec<i32>>, Memory>
    ensures { IfOk result (λ found. option_map (λ v. v.items) found
        ≡ option_and_then walk_in (get name.now (view value.now))) }
{
    let Some(walk) = value.get(name) else {
        return Ok(None);
    };
    Ok(walk_in(alloc, walk)?)
}

/// The letters of a walk.
pub(crate) fn walk_in(alloc: Global, value: &Value) -> Result<Option<Vec<i32>>, Memory>
    ensures { IfOk result (λ found.
        option_map (λ v. v.items) found ≡ walk_in (view value.now)) }
{
    let Some(list) = entries_in(value) else {
        return Ok(None);
    };
    let mut letters = Vec::new(alloc);
    for entry in list {
        let Some(letter) = integer_in(entry) else {
            return Ok(None);
        };
        letters.push(letter)?;
    }
    Ok(Some(letters))
}

/// A list of walks.
pub(crate) fn walks_in(alloc: Global, value: &Value) -> Result<Option<Vec<Vec<i32>>>, Memory>
    ensures { IfOk result (λ found.
        option_map (λ v. walks_of v.items) found ≡ list_in walk_in (view value.now)) }
{
    let Some(list) = entries_in(value) else {
        return Ok(None);
    };
    let mut walks = Vec::new(alloc);
    for entry in list {
        let Some(walk) = walk_in(alloc, entry)? else {
            return Ok(None);
        };
        walks.push(walk)?;
    }
    Ok(Some(walks))
}

/// A list of whole numbers of 32 bits.
pub(crate) fn counts_in(alloc: Global, value: &Value) -> Result<Option<Vec<u32>>, Memory>
    ensures { IfOk result (λ found.
        option_map (λ v. v.items) found ≡ list_in count_in (view value.now)) }
{
    let Some(list) = entries_in(value) else {
        return Ok(None);
    };
    let mut numbers = Vec::new(alloc);
    for entry in list {
        let Some(number) = count_in(entry) else {
            return Ok(None);
        };
        numbers.push(number)?;
    }
    Ok(Some(numbers))
}

/// A list of whole numbers of 64 bits.
pub(crate) fn row_in(alloc: Global, value: &Value) -> Result<Option<Vec<u64>>, Memory>
    ensures { IfOk result (λ found.
        option_map (λ v. v.items) found ≡ list_in natural_in (view value.now)) }
{
    let Some(list) = entries_in(value) else {
        return Ok(None);
    };
    let mut numbers = Vec::new(alloc);
    for entry in list {
        let Some(number) = natural_in(entry) else {
            return Ok(None);
        };
        numbers.push(number)?;
    }
    Ok(Some(numbers))
}

/// The rows of a matrix.
pub(crate) fn rows_in(alloc: Global, value: &Value) -> Result<Option<Vec<Vec<u64>>>, Memory>
    ensures { IfOk result (λ found.
        option_map (λ v. rows_of v.items) found ≡ list_in (list_in natural_in) (view value.now)) }
{
    let Some(list) = entries_in(value) else {
        return Ok(None);
    };
    let mut rows = Vec::new(alloc);
    for entry in list {
        let Some(row) = row_in(alloc, entry)? else {
            return Ok(None);
        };
        rows.push(row)?;
    }
    Ok(Some(rows))
}

/// The coordinates of a multicurve.
pub(crate) fn coords_in(alloc: Global, value: &Value) -> Result<Option<Vec<u128>>, Memory>
    ensures { IfOk result (λ found.
        option_map (λ v. v.items) found ≡ list_in coordinate_in (view value.now)) }
{
    let Some(list) = entries_in(value) else {
        return Ok(None);
    };
    let mut coords = Vec::new(alloc);
    for entry in list {
        let Some(coordinate) = coordinate_in(entry) else {
            return Ok(None);
        };
        coords.push(coordinate)?;
    }
    Ok(Some(coords))
}

/// Lines on candidates for a multicurve.
pub(crate) fn curves_in(alloc: Global, value: &Value) -> Result<Option<Vec<CurveLine>>, Memory>
    ensures { IfOk result (λ found.
        option_map (λ v. v.items) found ≡ list_in curve_in (view value.now)) }
{
    let Some(list) = entries_in(value) else {
        return Ok(None);
    };
    let mut lines = Vec::new(alloc);
    for entry in list {
        let Some(line) = curve_in(entry) else {
            return Ok(None);
        };
        lines.push(line)?;
    }
    Ok(Some(lines))
}

/// Lines on candidates for a train track.
pub(crate) fn tracks_in(alloc: Global, value: &Value) -> Result<Option<Vec<TrackLine>>, Memory>
    ensures { IfOk result (λ found.
        option_map (λ v. v.items) found ≡ list_in track_in (view value.now)) }
{
    let Some(list) = entries_in(value) else {
        return Ok(None);
    };
    let mut lines = Vec::new(alloc);
    for entry in list {
        let Some(line) = track_in(entry) else {
            return Ok(None);
        };
        lines.push(line)?;
    }
    Ok(Some(lines))
}

/// Where switches go.
pub(crate) fn anchors_in(alloc: Global, value: &Value) -> Result<Option<Vec<Anchor>>, Memory>
    ensures { IfOk result (λ found.
        option_map (λ v. anchors_seen v.items) found ≡ list_in anchor_in (view value.now)) }
{
    let Some(list) = entries_in(value) else {
        return Ok(None);
    };
    let mut anchors = Vec::new(alloc);
    for entry in list {
        let Some(anchor) = anchor_in(alloc, entry)? else {
            return Ok(None);
        };
        anchors.push(anchor)?;
    }
    Ok(Some(anchors))
}
