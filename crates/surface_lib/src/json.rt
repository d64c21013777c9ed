//! Lists, numbers and triples in the JSON tree of a surface file.
ghost use Rattle.std.specs.Prelude.{◌≡◌, map, IfOk, option_and_then};
ghost use Rattle.std.specs.Option.{option_map};
ghost use Rattle.serde_json.specs.Find.{get, as_str};
ghost use Rattle.serde_json.specs.View.{view};
ghost use Rattle.surface_lib.specs.Json.{list_in, whole_in, numbers_in, triple_in, triangles_in};

use ideal_tri::Memory;
use serde_json::Value;
use std::alloc::Global;

/// The entries of a list.
pub(crate) fn list_in(value: &Value) -> Option<&[Value]>
    ensures { option_map (λ list. map view list.now) result ≡ list_in (view value.now) }
{
    Some(value.as_array()?.as_slice())
}

/// The text that an object has at a name.
pub(crate) fn text_at<'v>(value: &'v Value, name: &str) -> Option<&'v str>
    ensures { option_map (λ text. text.now) result
        ≡ option_and_then as_str (get name.now (view value.now)) }
{
    value.get(name)?.as_str()
}

/// A whole number from `-2^31` to `2^31 - 1`, written with neither point nor exponent.
pub(crate) fn whole_in(value: &Value) -> Option<i32>
    ensures { result ≡ whole_in (view value.now) }
{
    num_traits::cast::<i64, i32>(value.as_i64()?)
}

/// The whole numbers of a list of nothing else.
pub(crate) fn numbers_in(alloc: Global, value: &Value) -> Result<Option<Vec<i32>>, Memory>
    ensures { IfOk result (λ found. option_map (λ v. v.items) found ≡ numbers_in (view value.now)) }
{
    let Some(list) = list_in(value) else {
        return Ok(None);
    };
    let mut numbers = Vec::new(alloc);
    for entry in list {
        let Some(number) = whole_in(entry) else {
            return Ok(None);
        };
        numbers.push(number)?;
    }
    Ok(Some(numbers))
}

/// The whole numbers of a list of three.
pub(crate) fn triple_in(value: &Value) -> Option<[i32; 3]>
    ensures { result ≡ triple_in (view value.now) }
{
    let [a, b, c] = list_in(value)? else {
        return None;
    };
    Some([whole_in(a)?, whole_in(b)?, whole_in(c)?])
}

/// The triples of whole numbers of a list of nothing else.
pub(crate) fn triangles_in(alloc: Global, value: &Value) -> Result<Option<Vec<[i32; 3]>>, Memory>
    ensures { IfOk result (λ found.
        option_map (λ v. v.items) found ≡ triangles_in (view value.now)) }
{
    let Some(list) = list_in(value) else {
        return Ok(None);
    };
    let mut triangles = Vec::new(alloc);
    for entry in list {
        let Some(triple) = triple_in(entry) else {
            return Ok(None);
        };
        triangles.push(triple)?;
    }
    Ok(Some(triangles))
}
