//! The text of a certificate.
ghost use Rattle.std.specs.Prelude.{◌≡◌, map, codes, string_bytes, IfOk, Ok, Some};
ghost use Rattle.std.specs.Fmt.{decimal};
ghost use Rattle.serde_json.specs.Data.{string, object, member, no_members};
ghost use Rattle.serde_json.specs.View.{view};
ghost use Rattle.cert_text.specs.Certificates.{anchor_seen, anchors_seen, pseudo_anosov, rows_of};
ghost use Rattle.cert_text.specs.Certificates.{seen, track_seen, walks_of};
ghost use Rattle.cert_text.specs.Reading.{IsReadingOf, IsTree, certificate_in};
ghost use Rattle.cert_text.specs.Shapes.{anchor_in, capped_in, coordinate_in, count_in, list_in};
ghost use Rattle.cert_text.specs.Shapes.{track_in, walk_in};
ghost use Rattle.cert_text.specs.Texts.{anchor_data, anchors_data, capped_data, certificate_data};
ghost use Rattle.cert_text.specs.Texts.{certificate_text, coords_data, curve_text, lines_data};
ghost use Rattle.cert_text.specs.Texts.{natural};
ghost use Rattle.cert_text.specs.Texts.{numbers_data, pair_data, rows_data, track_text, walk_data};
ghost use Rattle.cert_text.specs.Texts.{walks_data};

use crate::carried_track::{Anchor, Pa};
use crate::certificate::Certificate;
use crate::lines::TrackLine;
use edge_coords::CurveLine;
use ideal_tri::Memory;
use serde_json::{Value, json};
use std::alloc::{AllocError, Global};

/// The text of a certificate: compact JSON, an object with its keys in alphabetical order, with no
/// end of line behind it.
pub fn write(alloc: Global, c: &Certificate) -> Result<Vec<u8>, Memory>
    ensures text { IfOk result (λ text. text.items ≡ certificate_text (seen c.now)) }

    // So its bytes are JSON, and this is their tree.
    ensures tree { IfOk result (λ text. IsTree text.items (certificate_data (seen c.now))) }

    // What is written is read as the certificate.
    ensures read_back { IfOk result (λ text. IsReadingOf text.items (Ok (seen c.now))) }
{
    Ok(value_of(alloc, c)?.to_vec(alloc)?)
}

/// The JSON tree of a certificate.
fn value_of(alloc: Global, c: &Certificate) -> Result<Value, Memory>
    ensures tree { IfOk result (λ v. view v ≡ certificate_data (seen c.now)) }
    ensures read_back { IfOk result (λ _.
        certificate_in (certificate_data (seen c.now)) ≡ Ok (seen c.now)) }
{
    match c {
        Certificate::Periodic {
            order,
            paths,
            reasons,
        } => {
            let order = count_value(*order);
            let paths = walks_value(alloc, paths)?;
            let reasons = walks_value(alloc, reasons)?;
            Ok(periodic_value(alloc, order, paths, reasons)?)
        }
        Certificate::Reducible { coords } => {
            let coords = coords_value(alloc, coords)?;
            Ok(reducible_value(alloc, coords)?)
        }
        Certificate::PseudoAnosov(track) => Ok(carried_value(alloc, track)?),
        Certificate::Unknown {
            powers,
            capped,
            curves,
            tracks,
        } => {
            let powers = walks_value(alloc, powers)?;
            let capped = capped_value(alloc, *capped)?;
            let curves = curves_value(alloc, curves)?;
            let tracks = tracks_value(alloc, tracks)?;
            Ok(unknown_value(alloc, powers, capped, curves, tracks)?)
        }
    }
}

/// The object of a periodic word.
fn periodic_value(
    alloc: Global,
    order: Value,
    paths: Value,
    reasons: Value,
) -> Result<Value, AllocError>
    ensures { IfOk result (λ v. view v
        ≡ object (member (codes "kind") (string (codes "periodic"))
        (member (codes "order") (view order)
        (member (codes "paths") (view paths)
        (member (codes "reasons") (view reasons) no_members))))) }
{
    json!(in alloc; {"kind": "periodic", "order": order, "paths": paths, "reasons": reasons})
}

/// The object of a reducible word.
fn reducible_value(alloc: Global, coords: Value) -> Result<Value, AllocError>
    ensures { IfOk result (λ v. view v
        ≡ object (member (codes "coords") (view coords)
        (member (codes "kind") (string (codes "reducible")) no_members))) }
{
    json!(in alloc; {"coords": coords, "kind": "reducible"})
}

/// The object of a pseudo-Anosov word.
fn carried_value(alloc: Global, track: &Pa) -> Result<Value, Memory>
    ensures tree { IfOk result (λ v.
        view v ≡ certificate_data (pseudo_anosov (track_seen track.now))) }
    ensures read_back { IfOk result (λ _.
        certificate_in (certificate_data (pseudo_anosov (track_seen track.now)))
        ≡ Ok (pseudo_anosov (track_seen track.now))) }
{
    let anchors = anchors_value(alloc, &track.anchors)?;
    let exponent = count_value(track.exponent);
    let flips = flips_value(alloc, &track.flips)?;
    let images = walks_value(alloc, &track.images)?;
    let left_out = walk_value(alloc, &track.left_out)?;
    let matrix = rows_value(alloc, &track.matrix)?;
    let power = count_value(track.power);
    let u = row_value(alloc, &track.u)?;
    Ok(track_value(
        alloc, track, anchors, exponent, flips, images, left_out, matrix, power, u,
    )?)
}

/// The object of a pseudo-Anosov word, of its numbers and the trees of its lists.
fn track_value(
    alloc: Global,
    track: &Pa,
    anchors: Value,
    exponent: Value,
    flips: Value,
    images: Value,
    left_out: Value,
    matrix: Value,
    power: Value,
    u: Value,
) -> Result<Value, AllocError>
    ensures { IfOk result (λ v. view v
        ≡ object (member (codes "anchors") (view anchors)
        (member (codes "exponent") (view exponent)
        (member (codes "flips") (view flips)
        (member (codes "high") (pair_data track.now.high)
        (member (codes "images") (view images)
        (member (codes "kind") (string (codes "pseudo-anosov"))
        (member (codes "left_out") (view left_out)
        (member (codes "low") (pair_data track.now.low)
        (member (codes "matrix") (view matrix)
        (member (codes "power") (view power)
        (member (codes "u") (view u) no_members)))))))))))) }
{
    json!(in alloc; {
        "anchors": anchors, "exponent": exponent, "flips": flips,
        "high": [track.high.0, track.high.1], "images": images, "kind": "pseudo-anosov",
        "left_out": left_out, "low": [track.low.0, track.low.1], "matrix": matrix,
        "power": power, "u": u
    })
}

/// The object of a word without a verdict.
fn unknown_value(
    alloc: Global,
    powers: Value,
    capped: Value,
    curves: Value,
    tracks: Value,
) -> Result<Value, AllocError>
    ensures { IfOk result (λ v. view v
        ≡ object (member (codes "capped") (view capped)
        (member (codes "curves") (view curves)
        (member (codes "kind") (string (codes "unknown"))
        (member (codes "powers") (view powers)
        (member (codes "tracks") (view tracks) no_members)))))) }
{
    json!(in alloc; {
        "capped": capped, "curves": curves, "kind": "unknown", "powers": powers, "tracks": tracks
    })
}

/// A whole number of 32 bits.
fn count_value(n: u32) -> Value
    ensures tree { view result ≡ natural n }
    ensures read_back { count_in (natural n) ≡ Some n }
{
    Value::from(n)
}

/// The list of a list of walks.
fn walks_value(alloc: Global, walks: &[Vec<i32>]) -> Result<Value, Memory>
    ensures tree { IfOk result (λ v. view v ≡ walks_data (walks_of walks.now)) }
    ensures read_back { IfOk result (λ _.
        list_in walk_in (walks_data (walks_of walks.now)) ≡ Some (walks_of walks.now)) }
{
    let mut list = Vec::new(alloc);
    for walk in walks {
        list.push(walk_value(alloc, walk)?)?;
    }
    Ok(Value::from(list))
}

/// The list of a walk's letters.
fn walk_value(alloc: Global, letters: &[i32]) -> Result<Value, Memory>
    ensures tree { IfOk result (λ v. view v ≡ walk_data letters.now) }
    ensures read_back { IfOk result (λ _. walk_in (walk_data letters.now) ≡ Some letters.now) }
{
    let mut list = Vec::new(alloc);
    for letter in letters {
        list.push(Value::from(*letter))?;
    }
    Ok(Value::from(list))
}

/// The list of where switches go.
fn anchors_value(alloc: Global, anchors: &[Anchor]) -> Result<Value, Memory>
    ensures tree { IfOk result (λ v. view v ≡ anchors_data (anchors_seen anchors.now)) }
    ensures read_back { IfOk result (λ _.
        list_in anchor_in (anchors_data (anchors_seen anchors.now))
        ≡ Some (anchors_seen anchors.now)) }
{
    let mut list = Vec::new(alloc);
    for anchor in anchors {
        list.push(anchor_value(alloc, anchor)?)?;
    }
    Ok(Value::from(list))
}

/// The object of where one switch goes.
fn anchor_value(alloc: Global, anchor: &Anchor) -> Result<Value, Memory>
    ensures tree { IfOk result (λ v. view v ≡ anchor_data (anchor_seen anchor.now)) }
    ensures read_back { IfOk result (λ _.
        anchor_in (anchor_data (anchor_seen anchor.now)) ≡ Some (anchor_seen anchor.now)) }
{
    let connect = walk_value(alloc, &anchor.connect)?;
    Ok(json!(in alloc; {"connect": connect, "switch": anchor.switch, "to": anchor.to})?)
}

/// The list of the lists of a matrix's rows.
fn rows_value(alloc: Global, rows: &[Vec<u64>]) -> Result<Value, Memory>
    ensures { IfOk result (λ v. view v ≡ rows_data (rows_of rows.now)) }
{
    let mut list = Vec::new(alloc);
    for row in rows {
        list.push(row_value(alloc, row)?)?;
    }
    Ok(Value::from(list))
}

/// The list of a row's numbers.
fn row_value(alloc: Global, row: &[u64]) -> Result<Value, Memory>
    ensures { IfOk result (λ v. view v ≡ numbers_data row.now) }
{
    let mut list = Vec::new(alloc);
    for n in row {
        list.push(Value::from(*n))?;
    }
    Ok(Value::from(list))
}

/// The list of the numbers of edges.
fn flips_value(alloc: Global, edges: &[u32]) -> Result<Value, Memory>
    ensures tree { IfOk result (λ v. view v ≡ numbers_data edges.now) }
    ensures read_back { IfOk result (λ _.
        list_in count_in (numbers_data edges.now) ≡ Some edges.now) }
{
    let mut list = Vec::new(alloc);
    for edge in edges {
        list.push(Value::from(*edge))?;
    }
    Ok(Value::from(list))
}

/// The list of the texts of coordinates. They aren't numbers of JSON, since many readers hold none
/// above 2^53 exactly.
fn coords_value(alloc: Global, coords: &[u128]) -> Result<Value, Memory>
    ensures tree { IfOk result (λ v. view v ≡ coords_data coords.now) }
    ensures read_back { IfOk result (λ _.
        list_in coordinate_in (coords_data coords.now) ≡ Some coords.now) }
{
    let mut list = Vec::new(alloc);
    for n in coords {
        list.push(Value::from(digits(alloc, *n)?))?;
    }
    Ok(Value::from(list))
}

/// The decimal digits of a number.
fn digits(alloc: Global, n: u128) -> Result<String, Memory>
    ensures { IfOk result (λ text. string_bytes text ≡ decimal n) }
{
    Ok(format!(in alloc; "{n}")?)
}

/// Null, or the list of the power and the letters.
fn capped_value(alloc: Global, capped: Option<(u32, u64)>) -> Result<Value, Memory>
    ensures tree { IfOk result (λ v. view v ≡ capped_data capped) }
    ensures read_back { IfOk result (λ _. capped_in (capped_data capped) ≡ Some capped) }
{
    match capped {
        Some((power, letters)) => {
            let power = count_value(power);
            Ok(json!(in alloc; [power, letters])?)
        }
        None => Ok(Value::Null),
    }
}

/// The list of the texts of lines on curves.
fn curves_value(alloc: Global, lines: &[CurveLine]) -> Result<Value, Memory>
    ensures { IfOk result (λ v. view v ≡ lines_data (map curve_text lines.now)) }
{
    let mut list = Vec::new(alloc);
    for line in lines {
        list.push(Value::try_from_str(alloc, curve_text(*line))?)?;
    }
    Ok(Value::from(list))
}

/// The list of the texts of lines on tracks.
fn tracks_value(alloc: Global, lines: &[TrackLine]) -> Result<Value, Memory>
    ensures tree { IfOk result (λ v. view v ≡ lines_data (map track_text lines.now)) }
    ensures read_back { IfOk result (λ _.
        list_in track_in (lines_data (map track_text lines.now)) ≡ Some lines.now) }
{
    let mut list = Vec::new(alloc);
    for line in lines {
        list.push(Value::from(line.text(alloc)?))?;
    }
    Ok(Value::from(list))
}

/// The text of a line on a curve.
fn curve_text(line: CurveLine) -> &'static str
    ensures { result.now ≡ curve_text line }
{
    match line {
        CurveLine::Overflow => "overflow",
        CurveLine::NotMulticurve => "not_multicurve",
        CurveLine::Empty => "empty",
        CurveLine::Moved => "moved",
    }
}
