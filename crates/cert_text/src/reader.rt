//! Reading a certificate.
ghost use Rattle.std.specs.Prelude.{◌≡◌, ◌⊎◌, Ok, Err, IfOk, IfErr};
ghost use Rattle.serde_json.specs.View.{view};
ghost use Rattle.cert_text.specs.Certificates.{seen, track_seen};
ghost use Rattle.cert_text.specs.Reading.{IsReadingOf, behind_line, body_of, certificate_in};
ghost use Rattle.cert_text.specs.Reading.{periodic_in, reducible_in, track_of_keys, unknown_in};
ghost use Rattle.cert_text.specs.declared.cert_error.CertError.TheVariants.{Memory};

use crate::carried_track::Pa;
use crate::cert_error::{CertError, CertKey};
use crate::cert_keys::{
    Kind, anchors_at, capped_at, coords_at, count_at, counts_at, curves_at, kind_at, pair_at,
    row_at, rows_at, tracks_at, walk_at, walks_at,
};
use crate::certificate::Certificate;
use serde_json::Value;
use std::alloc::Global;

/// The certificate that a text is read as, or the first refusal: `NotJson`; `BadShape` of the file
/// where it is no object; then `MissingKey` or `BadShape` of each key of the kind, in alphabetical
/// order. Where the first byte isn't `{`, the first line is passed over. Other keys are ignored.
pub fn read(alloc: Global, bytes: &[u8]) -> Result<Certificate, CertError>
    ensures read { IfOk result (λ c. IsReadingOf bytes.now (Ok (seen c))) }

    // Want of memory is a free answer.
    ensures refused { IfErr result (λ e. (e ≡ Memory) ⊎ IsReadingOf bytes.now (Err e)) }
{
    let tree = match Value::from_slice(alloc, body_of(bytes)) {
        Ok(tree) => tree,
        Err(error) if error.is_memory() => return Err(CertError::Memory),
        Err(_) => return Err(CertError::NotJson),
    };
    certificate_in(alloc, &tree)
}

/// What is read of the bytes: all, or those behind the first line.
fn body_of(bytes: &[u8]) -> &[u8]
    ensures { result.now ≡ body_of bytes.now }
{
    match bytes {
        [b'{', ..] => bytes,
        _ => behind_line(bytes),
    }
}

/// What stands behind the first end of line.
fn behind_line(bytes: &[u8]) -> &[u8]
    ensures { result.now ≡ behind_line bytes.now }
{
    let mut rest = bytes;
    while let [first, behind @ ..] = rest {
        if *first == b'\n' {
            return behind;
        }
        rest = behind;
    }
    rest
}

/// The certificate of a tree.
fn certificate_in(alloc: Global, tree: &Value) -> Result<Certificate, CertError>
    ensures found { IfOk result (λ c. certificate_in (view tree.now) ≡ Ok (seen c)) }
    ensures refused { IfErr result (λ e. (e ≡ Memory) ⊎ (certificate_in (view tree.now) ≡ Err e)) }
{
    if tree.as_object().is_none() {
        return Err(CertError::BadShape(CertKey::File));
    }
    match kind_at(tree)? {
        Kind::Periodic => periodic_in(alloc, tree),
        Kind::Reducible => reducible_in(alloc, tree),
        Kind::PseudoAnosov => Ok(Certificate::PseudoAnosov(track_in(alloc, tree)?)),
        Kind::Unknown => unknown_in(alloc, tree),
    }
}

fn periodic_in(alloc: Global, tree: &Value) -> Result<Certificate, CertError>
    ensures found { IfOk result (λ c. periodic_in (view tree.now) ≡ Ok (seen c)) }
    ensures refused { IfErr result (λ e. (e ≡ Memory) ⊎ (periodic_in (view tree.now) ≡ Err e)) }
{
    let order = count_at(tree, "order", CertKey::Order)?;
    let paths = walks_at(alloc, tree, "paths", CertKey::Paths)?;
    let reasons = walks_at(alloc, tree, "reasons", CertKey::Reasons)?;
    Ok(Certificate::Periodic {
        order,
        paths,
        reasons,
    })
}

fn reducible_in(alloc: Global, tree: &Value) -> Result<Certificate, CertError>
    ensures found { IfOk result (λ c. reducible_in (view tree.now) ≡ Ok (seen c)) }
    ensures refused { IfErr result (λ e. (e ≡ Memory) ⊎ (reducible_in (view tree.now) ≡ Err e)) }
{
    let coords = coords_at(alloc, tree, "coords", CertKey::Coords)?;
    Ok(Certificate::Reducible { coords })
}

fn track_in(alloc: Global, tree: &Value) -> Result<Pa, CertError>
    ensures found { IfOk result (λ track. track_of_keys (view tree.now) ≡ Ok (track_seen track)) }
    ensures refused { IfErr result (λ e. (e ≡ Memory) ⊎ (track_of_keys (view tree.now) ≡ Err e)) }
{
    let anchors = anchors_at(alloc, tree, "anchors", CertKey::Anchors)?;
    let exponent = count_at(tree, "exponent", CertKey::Exponent)?;
    let flips = counts_at(alloc, tree, "flips", CertKey::Flips)?;
    let high = pair_at(tree, "high", CertKey::High)?;
    let images = walks_at(alloc, tree, "images", CertKey::Images)?;
    let left_out = walk_at(alloc, tree, "left_out", CertKey::LeftOut)?;
    let low = pair_at(tree, "low", CertKey::Low)?;
    let matrix = rows_at(alloc, tree, "matrix", CertKey::Matrix)?;
    let power = count_at(tree, "power", CertKey::Power)?;
    let u = row_at(alloc, tree, "u", CertKey::U)?;
    Ok(Pa {
        power,
        flips,
        left_out,
        anchors,
        images,
        matrix,
        exponent,
        u,
        low,
        high,
    })
}

fn unknown_in(alloc: Global, tree: &Value) -> Result<Certificate, CertError>
    ensures found { IfOk result (λ c. unknown_in (view tree.now) ≡ Ok (seen c)) }
    ensures refused { IfErr result (λ e. (e ≡ Memory) ⊎ (unknown_in (view tree.now) ≡ Err e)) }
{
    let capped = capped_at(tree, "capped", CertKey::Capped)?;
    let curves = curves_at(alloc, tree, "curves", CertKey::Curves)?;
    let powers = walks_at(alloc, tree, "powers", CertKey::Powers)?;
    let tracks = tracks_at(alloc, tree, "tracks", CertKey::Tracks)?;
    Ok(Certificate::Unknown {
        powers,
        capped,
        curves,
        tracks,
    })
}
