//! Generators with a twist along a curve.
ghost use Rattle.std.specs.Prelude.{◌≡◌, ◌<◌, ◌^◌, length, All, Ok, Err, IfOk, OnOk, IfErr, IfSome};
ghost use Rattle.std.specs.Prelude.{codes};
ghost use Rattle.std.specs.Option.{option_map};
ghost use Rattle.serde_json.specs.View.{view};
ghost use Rattle.tri_atlas.specs.Arena.{triangulation, Grows};
ghost use Rattle.tri_atlas.specs.Paths.{moves_of};
ghost use Rattle.edge_coords.specs.Coordinates.{AreCoordinatesIn};
ghost use Rattle.surface_lib.specs.Readings.{read_at};
ghost use Rattle.surface_lib.specs.Surfaces.{IsLoop};
ghost use Rattle.surface_lib.specs.TwistForms.{count_in, counts_in, hand_in, IsFaultOfVector};
ghost use Rattle.surface_lib.specs.TwistForms.{IsTwistAlong, IsReadAsTwist};
ghost use Rattle.surface_lib.specs.inside.Faults.{IsFault};
ghost use Rattle.surface_lib.specs.declared.surface_error.Key.TheVariants.{Twist as TwistKey};
ghost use Rattle.surface_lib.specs.declared.surface_error.Key.TheVariants.{Hand as HandKey};

use crate::json::{list_in, whole_in};
use crate::refused::Refused;
use crate::surface_error::{GeneratorFault, Key};
use crate::twister::{Hand, Twister};
use edge_coords::{Coords, CoordsError};
use ideal_tri::Memory;
use serde_json::Value;
use std::alloc::Global;
use tri_atlas::{Atlas, Path, atlas_laws};

/// A whole number from `0` to `2^31 - 1`.
fn count_in(value: &Value) -> Option<u128>
    ensures value { result ≡ count_in (view value.now) }
    ensures small { IfSome result (λ n. n < 2 ^ 31) }
{
    num_traits::cast::<i32, u128>(whole_in(value)?)
}

/// The whole numbers of a list of nothing else, none of which is negative.
fn counts_in(alloc: Global, value: &Value) -> Result<Option<Vec<u128>>, Memory>
    ensures read { IfOk result (λ found. option_map (λ v. v.items) found ≡ counts_in (view value.now)) }
    ensures small { IfOk result (λ found. IfSome found (λ v. All (λ n. n < 2 ^ 31) v.items)) }
{
    let Some(list) = list_in(value) else {
        return Ok(None);
    };
    let mut counts = Vec::new(alloc);
    for entry in list {
        let Some(count) = count_in(entry) else {
            return Ok(None);
        };
        counts.push(count)?;
    }
    Ok(Some(counts))
}

/// The vector of a twist.
fn vector_at(alloc: Global, entry: &Value) -> Result<Vec<u128>, Refused>
    ensures read { IfOk result (λ v.
        read_at TwistKey (codes "twist") counts_in (view entry.now) ≡ Ok v.items) }
    ensures small { IfOk result (λ v. All (λ n. n < 2 ^ 31) v.items) }
    ensures refused { IfErr result (IsFault (λ fault.
        read_at TwistKey (codes "twist") counts_in (view entry.now) ≡ Err fault)) }
{
    let Some(value) = entry.get("twist") else {
        return Err(Refused::Fault(GeneratorFault::MissingKey(Key::Twist)));
    };
    let Some(vector) = counts_in(alloc, value)? else {
        return Err(Refused::Fault(GeneratorFault::BadShape(Key::Twist)));
    };
    Ok(vector)
}

/// The hand that a text names.
fn hand_in(value: &Value) -> Option<Hand>
    ensures { result ≡ hand_in (view value.now) }
{
    let text = value.as_str()?;
    if text == "plus" {
        Some(Hand::Plus)
    } else if text == "minus" {
        Some(Hand::Minus)
    } else {
        None
    }
}

/// The hand of a twist.
fn hand_at(entry: &Value) -> Result<Hand, GeneratorFault>
    ensures { result ≡ read_at HandKey (codes "hand") hand_in (view entry.now) }
{
    let Some(value) = entry.get("hand") else {
        return Err(GeneratorFault::MissingKey(Key::Hand));
    };
    let Some(hand) = hand_in(value) else {
        return Err(GeneratorFault::BadShape(Key::Hand));
    };
    Ok(hand)
}

/// The coordinates of a multicurve at the base.
fn curve_at_base(atlas: &Atlas, vector: &[u128]) -> Result<Coords, Refused>
    requires { All (λ n. n < 2 ^ 31) vector.now }
    ensures value { IfOk result (λ c. c ≡ record { tri = 0; numbers = vector.now }) }
    ensures here { IfOk result (AreCoordinatesIn atlas.now) }
    ensures refused { IfErr result (IsFault
        (IsFaultOfVector (triangulation atlas.now 0) vector.now)) }
{
    let fault = match Coords::new(atlas, atlas.base(), vector) {
        Ok(curve) => return Ok(curve),
        Err(CoordsError::WrongLength(n)) => GeneratorFault::WrongLength(n),
        // numbers of 31 bits are not too large
        Err(CoordsError::TooLarge(_)) => unreachable!(),
        Err(CoordsError::OddTriangle(t)) => GeneratorFault::OddTriangle(t),
        Err(CoordsError::LongSide(t)) => GeneratorFault::LongSide(t),
    };
    Err(Refused::Fault(fault))
}

/// The path of the twist along a curve at the base.
fn path_along<T: Twister>(
    alloc: Global,
    atlas: &mut Atlas,
    vector: &[u128],
    hand: Hand,
    twister: &mut T,
) -> Result<Path, Refused>
    requires { All (λ n. n < 2 ^ 31) vector.now }
    ensures grows { Grows atlas.old atlas.new }
    ensures closed { IfOk result (IsLoop atlas.new) }
    ensures base { OnOk result (triangulation atlas.new 0 ≡ triangulation atlas.old 0) }
    ensures short { IfOk result (λ p. length p.moves < 2 ^ 31) }
    ensures read { IfOk result (λ p. IsTwistAlong T.twists (triangulation atlas.old 0)
        (record { vector = vector.now; hand = hand }) (Ok (moves_of atlas.new p))) }
    ensures refused { IfErr result (IsFault (λ fault. IsTwistAlong T.twists
        (triangulation atlas.old 0) (record { vector = vector.now; hand = hand }) (Err fault))) }
{
    atlas_laws();
    let curve = curve_at_base(atlas, vector)?;
    let path = twister.compile(alloc, atlas, &curve, hand)?;
    Ok(path)
}

/// The path of a generator with a twist.
pub(crate) fn twist_path<T: Twister>(
    alloc: Global,
    atlas: &mut Atlas,
    entry: &Value,
    twister: &mut T,
) -> Result<Path, Refused>
    ensures grows { Grows atlas.old atlas.new }
    ensures closed { IfOk result (IsLoop atlas.new) }
    ensures base { OnOk result (triangulation atlas.new 0 ≡ triangulation atlas.old 0) }
    ensures short { IfOk result (λ p. length p.moves < 2 ^ 31) }
    ensures read { IfOk result (λ p. IsReadAsTwist T.twists (triangulation atlas.old 0)
        (view entry.now) (Ok (moves_of atlas.new p))) }
    ensures refused { IfErr result (IsFault (λ fault.
        IsReadAsTwist T.twists (triangulation atlas.old 0) (view entry.now) (Err fault))) }
{
    let vector = vector_at(alloc, entry)?;
    let hand = hand_at(entry)?;
    path_along(alloc, atlas, &vector, hand, twister)
}
