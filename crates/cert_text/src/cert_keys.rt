//! The values at the keys of a certificate.
ghost use Rattle.std.specs.Prelude.{◌≡◌, ◌⊎◌, codes, Err, ok_or};
ghost use Rattle.serde_json.specs.Find.{get};
ghost use Rattle.serde_json.specs.View.{view};
ghost use Rattle.cert_text.specs.Certificates.{anchors_seen, rows_of, walks_of};
ghost use Rattle.cert_text.specs.Reading.{at_key, kind_in, kind_of};
ghost use Rattle.cert_text.specs.Shapes.{anchor_in, capped_in, coordinate_in, count_in, curve_in};
ghost use Rattle.cert_text.specs.Shapes.{list_in, natural_in, pair_in, track_in, walk_in};
ghost use Rattle.cert_text.specs.declared.cert_error.CertError.TheVariants.{MissingKey, Memory};
ghost use Rattle.cert_text.specs.declared.cert_error.CertKey.TheVariants as key;
ghost use Rattle.cert_text.specs.inside.Viewed.{viewed};

use crate::carried_track::Anchor;
use crate::cert_error::{CertError, CertKey};
use crate::lines::TrackLine;
use crate::shapes::{
    anchors_in, capped_in, coords_in, count_in, counts_in, curves_in, pair_in, row_in, rows_in,
    tracks_in, walk_in, walks_in,
};
use edge_coords::CurveLine;
use serde_json::Value;
use std::alloc::Global;

/// The kind of a certificate.
#[derive(Clone, Copy, Debug, PartialEq, Eq)]
pub(crate) enum Kind {
    Periodic,
    Reducible,
    PseudoAnosov,
    Unknown,
}

/// The value at a key.
fn value_at<'v>(tree: &'v Value, name: &str, key: CertKey) -> Result<&'v Value, CertError>
    ensures { viewed (λ v. view v.now) result
        ≡ ok_or (get name.now (view tree.now)) (MissingKey key) }
{
    tree.get(name).ok_or(CertError::MissingKey(key))
}

/// The kind, read before all other keys.
pub(crate) fn kind_at(tree: &Value) -> Result<Kind, CertError>
    ensures { result ≡ at_key key.Kind (codes "kind") kind_in (view tree.now) }
{
    let value = value_at(tree, "kind", CertKey::Kind)?;
    kind_in(value).ok_or(CertError::BadShape(CertKey::Kind))
}

fn kind_in(value: &Value) -> Option<Kind>
    ensures { result ≡ kind_in (view value.now) }
{
    kind_of(value.as_str()?)
}

fn kind_of(text: &str) -> Option<Kind>
    ensures { result ≡ kind_of text.now }
{
    match text {
        "periodic" => Some(Kind::Periodic),
        "reducible" => Some(Kind::Reducible),
        "pseudo-anosov" => Some(Kind::PseudoAnosov),
        "unknown" => Some(Kind::Unknown),
        _ => None,
    }
}

/// The whole number of 32 bits at a key.
pub(crate) fn count_at(tree: &Value, name: &str, key: CertKey) -> Result<u32, CertError>
    ensures { result ≡ at_key key name.now count_in (view tree.now) }
{
    count_in(value_at(tree, name, key)?).ok_or(CertError::BadShape(key))
}

/// The two numbers at a key.
pub(crate) fn pair_at(tree: &Value, name: &str, key: CertKey) -> Result<(u64, u64), CertError>
    ensures { result ≡ at_key key name.now (pair_in natural_in) (view tree.now) }
{
    pair_in(value_at(tree, name, key)?).ok_or(CertError::BadShape(key))
}

/// Null, or a power and so many letters, at a key.
pub(crate) fn capped_at(
    tree: &Value,
    name: &str,
    key: CertKey,
) -> Result<Option<(u32, u64)>, CertError>
    ensures { result ≡ at_key key name.now capped_in (view tree.now) }
{
    capped_in(value_at(tree, name, key)?).ok_or(CertError::BadShape(key))
}

/// The letters at a key.
pub(crate) fn walk_at(
    alloc: Global,
    tree: &Value,
    name: &str,
    key: CertKey,
) -> Result<Vec<i32>, CertError>
    ensures { (result ≡ Err Memory) ⊎ (viewed (λ v. v.items) result
        ≡ at_key key name.now walk_in (view tree.now)) }
{
    walk_in(alloc, value_at(tree, name, key)?)?.ok_or(CertError::BadShape(key))
}

/// The walks at a key.
pub(crate) fn walks_at(
    alloc: Global,
    tree: &Value,
    name: &str,
    key: CertKey,
) -> Result<Vec<Vec<i32>>, CertError>
    ensures { (result ≡ Err Memory) ⊎ (viewed (λ v. walks_of v.items) result
        ≡ at_key key name.now (list_in walk_in) (view tree.now)) }
{
    walks_in(alloc, value_at(tree, name, key)?)?.ok_or(CertError::BadShape(key))
}

/// The whole numbers of 32 bits at a key.
pub(crate) fn counts_at(
    alloc: Global,
    tree: &Value,
    name: &str,
    key: CertKey,
) -> Result<Vec<u32>, CertError>
    ensures { (result ≡ Err Memory) ⊎ (viewed (λ v. v.items) result
        ≡ at_key key name.now (list_in count_in) (view tree.now)) }
{
    counts_in(alloc, value_at(tree, name, key)?)?.ok_or(CertError::BadShape(key))
}

/// The whole numbers of 64 bits at a key.
pub(crate) fn row_at(
    alloc: Global,
    tree: &Value,
    name: &str,
    key: CertKey,
) -> Result<Vec<u64>, CertError>
    ensures { (result ≡ Err Memory) ⊎ (viewed (λ v. v.items) result
        ≡ at_key key name.now (list_in natural_in) (view tree.now)) }
{
    row_in(alloc, value_at(tree, name, key)?)?.ok_or(CertError::BadShape(key))
}

/// The rows of a matrix at a key.
pub(crate) fn rows_at(
    alloc: Global,
    tree: &Value,
    name: &str,
    key: CertKey,
) -> Result<Vec<Vec<u64>>, CertError>
    ensures { (result ≡ Err Memory) ⊎ (viewed (λ v. rows_of v.items) result
        ≡ at_key key name.now (list_in (list_in natural_in)) (view tree.now)) }
{
    rows_in(alloc, value_at(tree, name, key)?)?.ok_or(CertError::BadShape(key))
}

/// The coordinates at a key.
pub(crate) fn coords_at(
    alloc: Global,
    tree: &Value,
    name: &str,
    key: CertKey,
) -> Result<Vec<u128>, CertError>
    ensures { (result ≡ Err Memory) ⊎ (viewed (λ v. v.items) result
        ≡ at_key key name.now (list_in coordinate_in) (view tree.now)) }
{
    coords_in(alloc, value_at(tree, name, key)?)?.ok_or(CertError::BadShape(key))
}

/// The lines on candidates for a multicurve at a key.
pub(crate) fn curves_at(
    alloc: Global,
    tree: &Value,
    name: &str,
    key: CertKey,
) -> Result<Vec<CurveLine>, CertError>
    ensures { (result ≡ Err Memory) ⊎ (viewed (λ v. v.items) result
        ≡ at_key key name.now (list_in curve_in) (view tree.now)) }
{
    curves_in(alloc, value_at(tree, name, key)?)?.ok_or(CertError::BadShape(key))
}

/// The lines on candidates for a train track at a key.
pub(crate) fn tracks_at(
    alloc: Global,
    tree: &Value,
    name: &str,
    key: CertKey,
) -> Result<Vec<TrackLine>, CertError>
    ensures { (result ≡ Err Memory) ⊎ (viewed (λ v. v.items) result
        ≡ at_key key name.now (list_in track_in) (view tree.now)) }
{
    tracks_in(alloc, value_at(tree, name, key)?)?.ok_or(CertError::BadShape(key))
}

/// Where switches go, at a key.
pub(crate) fn anchors_at(
    alloc: Global,
    tree: &Value,
    name: &str,
    key: CertKey,
) -> Result<Vec<Anchor>, CertError>
    ensures { (result ≡ Err Memory) ⊎ (viewed (λ v. anchors_seen v.items) result
        ≡ at_key key name.now (list_in anchor_in) (view tree.now)) }
{
    anchors_in(alloc, value_at(tree, name, key)?)?.ok_or(CertError::BadShape(key))
}
