//! Candidates for a carried track on the once-punctured torus.
use crate::series::Series;
use crate::track_growth::growth_of;
use crate::track_tests::{track_of, try_track};
use cert_text::{Pa, TrackLine};
use edge_coords::Coords;
use ideal_tri::Label;
use std::alloc::{AllocGlobal, Global};
use std::process::Abort;
use std::test::Fail;
use surface_lib::{builtin, read_word};
use train_track::Track;
use transition_matrix::Matrix;

/// The line of the track of these coordinates, if it has one.
fn line_of(rt: &(impl Abort + AllocGlobal), numbers: &[u128]) -> Result<Option<TrackLine>, Fail> {
    let alloc: Global = rt.alloc();
    let s = builtin(alloc, "S_1_1")?;
    let coords = Coords::new(&s.atlas, s.atlas.base(), numbers)?;
    match track_of(alloc, &s.atlas, &coords)? {
        Ok(_) => Ok(None),
        Err(line) => Ok(Some(line)),
    }
}

#[test]
fn tracks(rt: HostRuntime) -> Result<(), Fail> {
    assert!(rt; line_of(&rt, &[1, 0, 1])? == Some(TrackLine::TwoLeftOut { n: 0 }));
    assert!(rt; line_of(&rt, &[2, 2, 2])? == Some(TrackLine::VertexClosed { n: 0 }));
    assert!(rt; line_of(&rt, &[1, 1, 2])?.is_none());
    Ok(())
}

#[test]
fn growth(rt: HostRuntime) -> Result<(), Fail> {
    let alloc = rt.alloc();
    let columns = [[0, 0, 1].to_vec(alloc)?, [0, 1].to_vec(alloc)?];
    match growth_of(
        alloc,
        &Matrix::from_columns(alloc, 2, &columns)?,
        Series::First,
    )? {
        Ok(growth) => {
            assert_eq!(rt; growth.exponent, 1);
            assert_eq!(rt; growth.bounds.u.as_slice(), [55, 34].as_slice());
            assert_eq!(rt;
                (growth.bounds.low, growth.bounds.high),
                ((89, 34), (144, 55))
            );
        }
        Err(_) => assert!(rt; false),
    }
    let exchange = [[1].to_vec(alloc)?, [0].to_vec(alloc)?];
    match growth_of(
        alloc,
        &Matrix::from_columns(alloc, 2, &exchange)?,
        Series::First,
    )? {
        Ok(_) => assert!(rt; false),
        Err(line) => assert!(rt; line == TrackLine::NotPrimitive),
    }
    Ok(())
}

/// The matrix with the one entry 1 is primitive, and no row grows.
#[test]
fn no_growth(rt: HostRuntime) -> Result<(), Fail> {
    let alloc = rt.alloc();
    let column = [[0].to_vec(alloc)?];
    match growth_of(
        alloc,
        &Matrix::from_columns(alloc, 1, &column)?,
        Series::First,
    )? {
        Ok(_) => assert!(rt; false),
        Err(line) => assert!(rt; line == TrackLine::NoBounds),
    }
    Ok(())
}

/// What the tests say of the track that leaves out these corners and of a word.
fn tried(
    rt: &(impl Abort + AllocGlobal),
    word: &str,
    left_out: &[Label],
) -> Result<Result<Pa, TrackLine>, Fail> {
    let alloc: Global = rt.alloc();
    let s = builtin(alloc, "S_1_1")?;
    let path = read_word(alloc, &s, word)?;
    let track = Track::from_list(alloc, &s.atlas, s.atlas.base(), left_out)?;
    Ok(try_track(alloc, &s.atlas, &track, &path, Series::First, 1, &[])?)
}

/// The line, if there is one.
fn line_for(
    rt: &(impl Abort + AllocGlobal),
    word: &str,
    left_out: &[Label],
) -> Result<Option<TrackLine>, Fail> {
    match tried(rt, word, left_out)? {
        Ok(_) => Ok(None),
        Err(line) => Ok(Some(line)),
    }
}

#[test]
fn carried_track(rt: HostRuntime) -> Result<(), Fail> {
    let corners = [Label::new(2), Label::new(-3)];
    match tried(&rt, "a.b", &corners)? {
        Ok(pa) => {
            assert_eq!(rt; pa.left_out.as_slice(), [2, -3].as_slice());
            assert_eq!(rt; pa.anchors.len(), 1);
            assert_eq!(rt; (pa.anchors[0].switch, pa.anchors[0].to), (1, 1));
            assert_eq!(rt; pa.anchors[0].connect.as_slice(), [-2, 2, -2].as_slice());
            assert_eq!(rt; pa.images.len(), 2);
            assert_eq!(rt; pa.matrix.len(), 2);
            assert_eq!(rt; pa.matrix[0].as_slice(), [1, 1].as_slice());
            assert_eq!(rt; pa.matrix[1].as_slice(), [1, 2].as_slice());
            assert_eq!(rt; (pa.exponent, pa.power, pa.flips.len()), (1, 1, 0));
            assert_eq!(rt; pa.u.as_slice(), [34, 55].as_slice());
        }
        Err(_) => assert!(rt; false),
    }
    Ok(())
}

#[test]
fn lines(rt: HostRuntime) -> Result<(), Fail> {
    let corners = [Label::new(2), Label::new(-3)];
    let a = line_for(&rt, "", &corners)?;
    assert_eq!(rt; a, Some(TrackLine::NotPrimitive));
    let b = line_for(&rt, "A.b", &corners)?;
    assert_eq!(rt; b, Some(TrackLine::NoCommon { n: 1 }));
    let c = line_for(&rt, "a", &corners)?;
    assert_eq!(rt; c, Some(TrackLine::Illegal { n: 1 }));
    Ok(())
}

/// A map that has too many letters after its 23rd move.
#[test]
fn too_many_letters(rt: HostRuntime) -> Result<(), Fail> {
    let corners = [Label::new(2), Label::new(-3)];
    let line = line_for(&rt, "(a.b)^12", &corners)?;
    assert_eq!(rt; line, Some(TrackLine::Cap { n: 351363 }));
    Ok(())
}
