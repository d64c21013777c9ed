//! Bounds of growth of the matrix with the rows (1, 1) and (1, 2).
ghost use Rattle.std.specs.Prelude.{◌≡◌, ◌<◌, ℕ, [], length, slice_index_or, IfOk};
ghost use Rattle.cert_text.specs.Certificates.{rows_of, track_seen};
ghost use Rattle.cert_checker.specs.inside.TrackParts.{IsSquare};

use crate::growth::check_growth;
use crate::verdict::Stop;
use cert_text::Pa;
use ideal_tri::Memory;
use std::alloc::Global;
use std::test::Fail;

/// The rows of the matrix.
fn rows(alloc: Global) -> Result<Vec<Vec<u64>>, Memory>
    ensures { IfOk result (λ v. (i : ℕ) → i < length (rows_of v.items)
        → length (slice_index_or (rows_of v.items) i []) ≡ length (rows_of v.items)) }
{
    let mut rows = Vec::new(alloc);
    rows.push(Vec::from_slice(alloc, &[1, 1])?)?;
    rows.push(Vec::from_slice(alloc, &[1, 2])?)?;
    Ok(rows)
}

/// A certificate with this row of numbers and these bounds.
fn bounded(alloc: Global, u: &[u64], low: (u64, u64), high: (u64, u64)) -> Result<Pa, Memory>
    ensures { IfOk result (λ c. IsSquare (track_seen c)) }
{
    Ok(Pa {
        power: 1,
        flips: Vec::new(alloc),
        left_out: Vec::new(alloc),
        anchors: Vec::new(alloc),
        images: Vec::new(alloc),
        matrix: rows(alloc)?,
        exponent: 1,
        u: Vec::from_slice(alloc, u)?,
        low,
        high,
    })
}

/// The rule fails at this place.
fn at(place: u64) -> Result<(), Stop> {
    Err(Stop::Refused { rule: 18, place })
}

#[test]
fn bounds_of_growth(rt: HostRuntime) -> Result<(), Fail> {
    let alloc = rt.alloc();
    let (low, high) = ((89, 34), (144, 55));
    let cases: [(&[u64], (u64, u64), (u64, u64), Result<(), Stop>); 13] = [
        (&[34, 55], low, high, Ok(())),
        (&[34], low, high, at(2)),
        (&[34, 55, 1], low, high, at(2)),
        (&[34, 55], (55, 55), high, at(3)),
        (&[34, 55], low, (0, 1), at(3)),
        (&[34, 55], low, (144, 1 << 63), at(3)),
        (&[34, 55], (3, 1), high, at(0)),
        (&[34, 55], low, (5, 2), at(0)),
        (&[34, 1 << 63], low, high, at(0)),
        (&[1 << 63, 1], low, high, at(0)),
        (&[34, 0], low, high, at(0)),
        (&[1, 1], (2, 1), (3, 1), Ok(())),
        (&[1, 1], (2, 1), (2, 1), at(1)),
    ];
    for (u, low, high, want) in cases {
        let c = bounded(alloc, u, low, high)?;
        assert!(rt; check_growth(&c) == want);
    }
    Ok(())
}
