//! Verdicts of every kind, as the program prints them, and the options that bound their search.
use crate::Status;
use crate::run_tests::{Row, check_sure};
use flip_io::SureShelf;
use std::collections::BTreeMap;
use std::process::Abort;
use std::test::Fail;

/// The file `disc4.json`: the disc with four punctures, and its half twists.
const DISC4: &str = r#"{"format":"flipper-surface",
"generators":[{"flips":[4,1],"name":"s1","relabel":[-1,7,2,4,1,5,6,3,8]},
{"flips":[5,2,7,0],"name":"s2","relabel":[-5,-2,8,3,5,2,6,-1,7]},
{"flips":[8,1],"name":"s3","relabel":[0,-6,-3,3,4,6,8,7,-2]}],"name":"disc4",
"triangles":[[0,4,-4],[-1,3,-8],[1,5,-5],[-2,7,-9],[2,6,-6],[-3,8,-7]],"version":1}"#;

/// Each row holds where there is this file alone.
fn check_rows(rt: &(impl Abort + AllocGlobal), rows: &[Row]) -> Result<(), Fail> {
    let mut files = BTreeMap::new(rt.alloc());
    let name = String::from_str(rt.alloc(), "disc4.json")?;
    files.insert(name, DISC4.as_bytes().to_vec(rt.alloc())?)?;
    let mut shelf = SureShelf { files };
    for row in rows {
        check_sure(rt, &mut shelf, *row)?;
    }
    Ok(())
}

/// Words with a verdict: the tracks are tried last.
const VERDICTS: [Row; 3] = [
    (
        &["classify", "@S_1_1", "a.B", "--tracks=1"],
        Status::Done,
        "periodic 6\n{\"kind\":\"periodic\",\"order\":6,\"paths\":[[],[]],\"reasons\":[[1,-1],[1,-1],[1,-1],[1,-1],[1,-1]]}\n",
        "",
    ),
    (
        &["classify", "@S_1_1", "a", "--tracks", "1"],
        Status::Done,
        "reducible 1 0 1\n{\"coords\":[\"1\",\"0\",\"1\"],\"kind\":\"reducible\"}\n",
        "",
    ),
    (
        &["classify", "@S_1_1", "a.b"],
        Status::Done,
        "pseudo-Anosov power 1 growth 89/34 144/55\n{\"anchors\":[{\"connect\":[-2,2,-2],\"switch\":1,\"to\":1}],\"exponent\":1,\"flips\":[],\"high\":[144,55],\"images\":[[1,-3,1,-1,1],[1,-3,1,-1,1,-3,1]],\"kind\":\"pseudo-anosov\",\"left_out\":[2,-3],\"low\":[89,34],\"matrix\":[[1,1],[1,2]],\"power\":1,\"u\":[34,55]}\n",
        "",
    ),
];

/// Words that no first candidate decides: a further one for a multicurve does, and one for a track.
const FURTHER: [Row; 2] = [
    (
        &["classify", "disc4.json", "S1.S2.s3.s1"],
        Status::Done,
        "reducible 1 1 0 1 0 1 1 2 1\n{\"coords\":[\"1\",\"1\",\"0\",\"1\",\"0\",\"1\",\"1\",\"2\",\"1\"],\"kind\":\"reducible\"}\n",
        "",
    ),
    (
        &[
            "classify",
            "disc4.json",
            "s1.s3.S2.s1",
            "--curves",
            "0",
            "--tracks",
            "256",
        ],
        Status::Done,
        "pseudo-Anosov power 1 growth 570/120 1745/363\n{\"anchors\":[{\"connect\":[1,7,-1,-4,-8],\"switch\":1,\"to\":-2},{\"connect\":[2],\"switch\":2,\"to\":-3},{\"connect\":[0,-8,-2],\"switch\":3,\"to\":1},{\"connect\":[1,7],\"switch\":5,\"to\":-8},{\"connect\":[-8],\"switch\":7,\"to\":7}],\"exponent\":4,\"flips\":[],\"high\":[1745,363],\"images\":[[-2,5,2,8,7],[1,7,3,0,-8,-2],[1,7,3,0,-8],[-3,-6,1,7,-1,-4,-8,-2,5,2,-7,-6,1,7],[-3,-6,1,7,-1,-4,-8,-2,5,2,8,7],[2,-7,-6,1,7],[1,7,-1,-4,-8,-2,5,2,8,7,3,0,-8,-2,-5,-4,-8],[-2,-5,-4,-8]],\"kind\":\"pseudo-anosov\",\"left_out\":[0,-1,2,5,8,-9],\"low\":[570,120],\"matrix\":[[0,2,1,3,2,1,3,0],[0,0,0,0,0,0,1,1],[1,0,0,3,2,1,1,0],[0,0,0,1,0,1,0,0],[1,0,0,0,1,0,1,0],[1,0,0,2,2,0,1,0],[0,1,1,1,1,0,2,0],[0,1,1,1,1,0,3,1]],\"power\":1,\"u\":[363,450,375,1167,973,397,1308,120]}\n",
        "",
    ),
];

/// Words without a verdict within their budget.
const LOGS: [Row; 2] = [
    (
        &[
            "classify", "@S_1_1", "a", "--powers", "1", "--curves", "1", "--tracks", "1",
        ],
        Status::Done,
        "unknown\n{\"capped\":null,\"curves\":[\"moved\"],\"kind\":\"unknown\",\"powers\":[[1,-1]],\"tracks\":[\"not_primitive\"]}\n",
        "",
    ),
    (
        &[
            "classify", "@S_1_1", "a.b", "--curves", "0", "--tracks", "0",
        ],
        Status::Done,
        "unknown\n{\"capped\":[12,351363],\"curves\":[],\"kind\":\"unknown\",\"powers\":[[1,-1],[1,-1],[1,-1],[1,-1],[1,-1],[1,-1],[1,-1],[1,-1],[1,-1],[1,-1],[1,-1]],\"tracks\":[]}\n",
        "",
    ),
];

/// Options that don't fit.
const MISFITS: [Row; 3] = [
    (
        &["classify", "@S_1_1", "a", "--tracks", "4097"],
        Status::WordsRefused,
        "",
        "error: usage\n",
    ),
    (
        &["classify", "@S_1_1", "a", "--tracks=1", "--tracks", "1"],
        Status::WordsRefused,
        "",
        "error: usage\n",
    ),
    (
        &["classify", "@S_1_1", "a", "--tracks"],
        Status::WordsRefused,
        "",
        "error: usage\n",
    ),
];

#[test]
fn verdicts(rt: HostRuntime) -> Result<(), Fail> {
    check_rows(&rt, &VERDICTS)
}

#[test]
fn further(rt: HostRuntime) -> Result<(), Fail> {
    check_rows(&rt, &FURTHER)
}

#[test]
fn logs(rt: HostRuntime) -> Result<(), Fail> {
    check_rows(&rt, &LOGS)
}

#[test]
fn misfits(rt: HostRuntime) -> Result<(), Fail> {
    check_rows(&rt, &MISFITS)
}
