//! The matrix of passes of a track on the once-punctured torus, which has the rows (1, 1) and (1, 2).
use crate::matrix::{first_other_row, has_exponent};
use std::alloc::Global;
use std::test::Fail;
use transition_matrix::Matrix;

/// The rows of these numbers.
fn rows_of(alloc: Global, lists: &[&[u64]]) -> Result<Vec<Vec<u64>>, Fail> {
    let mut rows = Vec::new(alloc);
    for list in lists {
        rows.push(Vec::from_slice(alloc, list)?)?;
    }
    Ok(rows)
}

#[test]
fn rows(rt: HostRuntime) -> Result<(), Fail> {
    let alloc = rt.alloc();
    let columns = [[0, 1].to_vec(alloc)?, [1, 0, 1].to_vec(alloc)?];
    let m = Matrix::from_columns(alloc, 2, &columns)?;
    let cases: [(&[&[u64]], Option<usize>); 7] = [
        (&[&[1, 1], &[1, 2]], None),
        (&[&[1, 1], &[1, 1]], Some(1)),
        (&[&[1, 2], &[1, 1]], Some(0)),
        (&[&[1, 1, 0], &[1, 2, 0]], Some(0)),
        (&[&[1, 1], &[1]], Some(1)),
        (&[&[1, 1]], Some(1)),
        (&[&[1, 1], &[1, 2], &[1, 1]], Some(2)),
    ];
    for (lists, want) in cases {
        assert_eq!(rt; first_other_row(&m, &rows_of(alloc, lists)?), want);
    }
    Ok(())
}

#[test]
fn exponents(rt: HostRuntime) -> Result<(), Fail> {
    let alloc = rt.alloc();
    let columns = [[1].to_vec(alloc)?, [0, 1].to_vec(alloc)?];
    let m = Matrix::from_columns(alloc, 2, &columns)?;
    for (exponent, has) in [
        (0, false),
        (1, false),
        (2, true),
        (1024, true),
        (1025, false),
    ] {
        assert_eq!(rt; has_exponent(alloc, &m, exponent)?, has);
    }
    Ok(())
}
