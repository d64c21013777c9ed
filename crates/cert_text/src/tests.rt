//! Certificates and their texts.
use super::*;
use edge_coords::CurveLine;
use ideal_tri::Memory;
use std::alloc::Global;
use std::test::Fail;

/// The walks of these letters.
fn walks_of(alloc: Global, lists: &[&[i32]]) -> Result<Vec<Vec<i32>>, Memory> {
    let mut walks = Vec::new(alloc);
    for letters in lists {
        walks.push(Vec::from_slice(alloc, letters)?)?;
    }
    Ok(walks)
}

fn periodic(
    alloc: Global,
    order: u32,
    paths: &[&[i32]],
    reasons: &[&[i32]],
) -> Result<Certificate, Memory> {
    Ok(Certificate::Periodic {
        order,
        paths: walks_of(alloc, paths)?,
        reasons: walks_of(alloc, reasons)?,
    })
}

fn reducible(alloc: Global, coords: &[u128]) -> Result<Certificate, Memory> {
    Ok(Certificate::Reducible {
        coords: Vec::from_slice(alloc, coords)?,
    })
}

fn unknown(
    alloc: Global,
    powers: &[&[i32]],
    capped: Option<(u32, u64)>,
    curves: &[CurveLine],
    tracks: &[TrackLine],
) -> Result<Certificate, Memory> {
    Ok(Certificate::Unknown {
        powers: walks_of(alloc, powers)?,
        capped,
        curves: Vec::from_slice(alloc, curves)?,
        tracks: Vec::from_slice(alloc, tracks)?,
    })
}

/// One of each.
const CURVES: [CurveLine; 4] = [
    CurveLine::Overflow,
    CurveLine::NotMulticurve,
    CurveLine::Empty,
    CurveLine::Moved,
];

/// One of each.
const TRACKS: [TrackLine; 8] = [
    TrackLine::TwoLeftOut { n: 3 },
    TrackLine::VertexClosed { n: 0 },
    TrackLine::Cap { n: 262145 },
    TrackLine::NoCommon { n: 95 },
    TrackLine::Illegal { n: 10 },
    TrackLine::PathsCap { n: u64::MAX },
    TrackLine::NotPrimitive,
    TrackLine::NoBounds,
];

#[test]
fn texts(rt: HostRuntime) -> Result<(), Fail> {
    let alloc = rt.alloc();
    let cases = [
        (
            periodic(alloc, 2, &[&[], &[]], &[&[1, -1]])?,
            r#"{"kind":"periodic","order":2,"paths":[[],[]],"reasons":[[1,-1]]}"#,
        ),
        (
            periodic(alloc, 1024, &[&[i32::MAX, i32::MIN], &[0]], &[])?,
            r#"{"kind":"periodic","order":1024,"paths":[[2147483647,-2147483648],[0]],"reasons":[]}"#,
        ),
        (
            reducible(alloc, &[1, 1, 0])?,
            r#"{"coords":["1","1","0"],"kind":"reducible"}"#,
        ),
        (
            reducible(alloc, &[(1 << 126) - 1, 10])?,
            r#"{"coords":["85070591730234615865843651857942052863","10"],"kind":"reducible"}"#,
        ),
        (
            reducible(alloc, &[])?,
            r#"{"coords":[],"kind":"reducible"}"#,
        ),
        (
            unknown(alloc, &[&[1, -1]], Some((12, 351363)), &CURVES, &TRACKS)?,
            concat!(
                r#"{"capped":[12,351363],"curves":["overflow","not_multicurve","empty","moved"],"#,
                r#""kind":"unknown","powers":[[1,-1]],"tracks":["two_left_out 3","#,
                r#""vertex_closed 0","cap 262145","no_common 95","illegal 10","#,
                r#""paths_cap 18446744073709551615","not_primitive","no_bounds"]}"#
            ),
        ),
        (
            unknown(alloc, &[], None, &[], &[])?,
            r#"{"capped":null,"curves":[],"kind":"unknown","powers":[],"tracks":[]}"#,
        ),
    ];
    for (c, text) in &cases {
        assert_eq!(rt; write(alloc, c)?.as_slice(), text.as_bytes(), "{text}");
    }
    Ok(())
}

/// Of the word `a.b` on the torus with one puncture: each branch goes over itself and the other.
fn torus_track(alloc: Global) -> Result<Pa, Memory> {
    let anchor = Anchor {
        switch: 1,
        to: 1,
        connect: Vec::from_slice(alloc, &[-2, 2, -2])?,
    };
    let mut anchors = Vec::new(alloc);
    anchors.push(anchor)?;
    let mut matrix = Vec::new(alloc);
    matrix.push(Vec::from_slice(alloc, &[1, 1])?)?;
    matrix.push(Vec::from_slice(alloc, &[1, 2])?)?;
    Ok(Pa {
        power: 1,
        flips: Vec::new(alloc),
        left_out: Vec::from_slice(alloc, &[2, -3])?,
        anchors,
        images: walks_of(alloc, &[&[1, -3, 1, -1, 1], &[1, -3, 1, -1, 1, -3, 1]])?,
        matrix,
        exponent: 1,
        u: Vec::from_slice(alloc, &[34, 55])?,
        low: (89, 34),
        high: (144, 55),
    })
}

#[test]
fn text_of_a_track(rt: HostRuntime) -> Result<(), Fail> {
    let alloc = rt.alloc();
    let text = concat!(
        r#"{"anchors":[{"connect":[-2,2,-2],"switch":1,"to":1}],"exponent":1,"flips":[],"#,
        r#""high":[144,55],"images":[[1,-3,1,-1,1],[1,-3,1,-1,1,-3,1]],"#,
        r#""kind":"pseudo-anosov","left_out":[2,-3],"low":[89,34],"matrix":[[1,1],[1,2]],"#,
        r#""power":1,"u":[34,55]}"#
    );
    let c = Certificate::PseudoAnosov(torus_track(alloc)?);
    assert_eq!(rt; write(alloc, &c)?.as_slice(), text.as_bytes());
    Ok(())
}
