//! The rule for the matrix of passes, 17.
ghost use Rattle.std.specs.Prelude.{◌≡◌, ◌<◌, ◌↔◌, ℕ, length, max, slice_index, IsTrue, OnOk, IfOk};
ghost use Rattle.std.specs.Prelude.{IfErr, IfSome, IfNone};
ghost use Rattle.ideal_tri.specs.Triangulations.{IsTriangulation};
ghost use Rattle.train_track.specs.Branches.{IsTrackOn, words_of};
ghost use Rattle.transition_matrix.specs.Matrices.{entry};
ghost use Rattle.carry_map.specs.Iterates.{IsTransition};
ghost use Rattle.cert_text.specs.Certificates.{rows_of, track_seen, walks_of};
ghost use Rattle.cert_checker.specs.FirstFailing.{AllPass, IsFirstFailing};
ghost use Rattle.cert_checker.specs.TrackRefusals.{IsMatrixRefusal};
ghost use Rattle.cert_checker.specs.TrackRules.{IsExponent};
ghost use Rattle.cert_checker.specs.inside.Columns.{ArePassColumns, IsPassColumn, IsPassedWalk};
ghost use Rattle.cert_checker.specs.inside.Columns.{IsRowOf};
ghost use Rattle.cert_checker.specs.inside.Stops.{IsStop, IsRule};
ghost use Rattle.cert_checker.specs.inside.TrackParts.{CanBePassed, IsMatrix};

use crate::verdict::Stop;
use crate::walks::labels;
use cert_text::Pa;
use free_groupoid::Walk;
use ideal_tri::{Memory, Tri, label_laws, surface_laws};
use std::alloc::Global;
use train_track::{Track, track_laws};
use transition_matrix::{Matrix, Scratch, matrix_laws};

/// The greatest exponent.
const EXPONENT_LIMIT: u32 = 1_024;

/// Whether the matrix counts how often each train path passes each branch, and the power of it with
/// the exponent has all entries positive.
pub(crate) fn check_matrix(alloc: Global, tri: &Tri, track: &Track, c: &Pa) -> Result<(), Stop>
    requires { CanBePassed tri.now track.now (track_seen c.now) }
    ensures held { OnOk result (IsMatrix (words_of track.now.branches) (track_seen c.now)) }
    ensures refused { IfErr result (IsStop (IsRule 17
        (IsMatrixRefusal (words_of track.now.branches) (track_seen c.now)))) }
{
    track_laws();
    matrix_laws();
    let Ok(m) = transition(alloc, tri, track, c) else {
        return Err(Stop::Memory);
    };
    if let Some(i) = first_other_row(&m, &c.matrix) {
        return Err(Stop::Refused {
            rule: 17,
            place: i as u64,
        });
    }
    match has_exponent(alloc, &m, c.exponent) {
        Ok(true) => Ok(()),
        Ok(false) => Err(Stop::Refused {
            rule: 17,
            place: m.size() as u64,
        }),
        Err(_) => Err(Stop::Memory),
    }
}

/// The matrix that counts how often each image passes each branch.
fn transition(alloc: Global, tri: &Tri, track: &Track, c: &Pa) -> Result<Matrix, Memory>
    requires { CanBePassed tri.now track.now (track_seen c.now) }
    ensures { IfOk result
        (IsTransition (words_of track.now.branches) (walks_of c.now.images.items)) }
{
    track_laws();
    let columns = columns(alloc, tri, track, c)?;
    match Matrix::from_columns(alloc, columns.len(), &columns) {
        Ok(m) => Ok(m),
        Err(_) => Err(Memory),
    }
}

/// For each image the branches that it passes.
fn columns(alloc: Global, tri: &Tri, track: &Track, c: &Pa) -> Result<Vec<Vec<u32>>, Memory>
    requires { CanBePassed tri.now track.now (track_seen c.now) }
    ensures { IfOk result (λ v. ArePassColumns (words_of track.now.branches)
        (walks_of c.now.images.items) (length c.now.images.items) v.items) }
{
    label_laws();
    surface_laws();
    let mut columns = Vec::new(alloc);
    for j in 0..c.images.len() {
        columns.push(column(alloc, tri, track, &c.images[j])?)?;
    }
    Ok(columns)
}

/// The branches that a legal walk from a switch to a switch passes, in order.
fn column(alloc: Global, tri: &Tri, track: &Track, image: &[i32]) -> Result<Vec<u32>, Memory>
    requires sound { IsTriangulation tri.now }
    requires on { IsTrackOn tri.now track.now }
    requires walk { IsPassedWalk tri.now track.now.left_out image.now }
    ensures { IfOk result (λ v. IsPassColumn (words_of track.now.branches) image.now v.items) }
{
    let letters = labels(alloc, image)?;
    let (start, _) = tri.place(letters[0]);
    match Walk::new(alloc, tri, start, &letters) {
        Ok(walk) => track.decompose(alloc, &walk),
        Err(_) => Err(Memory),
    }
}

/// The first number that is not that of a row of both, or whose rows differ.
pub(crate) fn first_other_row(m: &Matrix, rows: &[Vec<u64>]) -> Option<usize>
    ensures some { IfSome result (IsFirstFailing (max m.now.size (length rows.now))
        (IsRowOf m.now (rows_of rows.now))) }
    ensures none { IfNone result (AllPass (max m.now.size (length rows.now))
        (IsRowOf m.now (rows_of rows.now))) }
{
    for i in 0..m.size().max(rows.len()) {
        if !has_row(m, rows, i) {
            return Some(i);
        }
    }
    None
}

/// Whether there is a row with this number, in the matrix too, and it has these entries.
fn has_row(m: &Matrix, rows: &[Vec<u64>], i: usize) -> bool
    ensures { IsTrue result ↔ IsRowOf m.now (rows_of rows.now) i }
{
    i < m.size() && i < rows.len() && are_entries(m, i, &rows[i])
}

/// Whether these are the entries of a row of the matrix.
fn are_entries(m: &Matrix, i: usize, row: &[u64]) -> bool
    requires { i < m.now.size }
    ensures { IsTrue result ↔ ((length row.now ≡ m.now.size)
        × ((j : ℕ) → j < m.now.size → slice_index row.now j ≡ entry m.now i j)) }
{
    if row.len() != m.size() {
        return false;
    }
    for j in 0..m.size() {
        if row[j] != m.entry(i, j) {
            return false;
        }
    }
    true
}

/// Whether the exponent is in its range, and that power of the matrix has all entries positive.
pub(crate) fn has_exponent(alloc: Global, m: &Matrix, exponent: u32) -> Result<bool, Memory>
    ensures { IfOk result (λ has. IsTrue has ↔ IsExponent m.now exponent) }
{
    matrix_laws();
    if exponent == 0 || exponent > EXPONENT_LIMIT {
        return Ok(false);
    }
    match Scratch::new(alloc, m.size()) {
        Ok(mut scratch) => Ok(m.primitive_exponent(&mut scratch, exponent).is_some()),
        Err(_) => Err(Memory),
    }
}
