//! Files whose generators are Dehn twists, and the command `twist`.
use crate::Status;
use crate::run_tests::{Row, check_sure};
use flip_io::SureShelf;
use std::alloc::{AllocError, Global};
use std::collections::BTreeMap;
use std::test::Fail;

/// The file `twists.json`: the once-punctured torus, its two twists, and a third about the curve
/// that crosses edge 0 twice.
const TWISTS: &str = r#"{"format":"flipper-surface",
"generators":[{"name":"a","twist":[1,0,1],"hand":"plus"},
{"name":"b","twist":[1,1,0],"hand":"minus"},{"name":"t","twist":[2,1,1],"hand":"plus"}],
"name":"S_1_1","triangles":[[0,1,2],[-1,-2,-3]],"version":1}"#;

/// The file `hidden.json`: a torus in which the curve of the coordinates 4, 2, 2, 2, 4, 4 bounds a
/// torus without a vertex.
const HIDDEN: &str = r#"{"format":"flipper-surface","generators":[],"name":"hidden",
"triangles":[[-3,-5,-1],[1,0,-4],[4,-6,2],[5,3,-2]],"version":1}"#;

/// A shelf with the files.
fn shelf(alloc: Global) -> Result<SureShelf, AllocError> {
    let mut files = BTreeMap::new(alloc);
    for (name, text) in [("twists.json", TWISTS), ("hidden.json", HIDDEN)] {
        files.insert(
            String::from_str(alloc, name)?,
            text.as_bytes().to_vec(alloc)?,
        )?;
    }
    Ok(SureShelf { files })
}

/// Words in the twists of a file.
const WORDS: [Row; 4] = [
    (
        &["image", "twists.json", "a.b.a.b", "1,1,0"],
        Status::Done,
        "2 5 3\n",
        "",
    ),
    (
        &["image", "twists.json", "t", "1,1,0"],
        Status::Done,
        "1 0 1\n",
        "",
    ),
    (
        &["image", "twists.json", "t^-2", "2,1,1"],
        Status::Done,
        "2 1 1\n",
        "",
    ),
    (
        &["classify", "twists.json", "b"],
        Status::Done,
        "reducible 1 1 0\n{\"coords\":[\"1\",\"1\",\"0\"],\"kind\":\"reducible\"}\n",
        "",
    ),
];

#[test]
fn words_in_twists(rt: HostRuntime) -> Result<(), Fail> {
    let mut shelf = shelf(rt.alloc())?;
    for row in WORDS {
        check_sure(&rt, &mut shelf, row)?;
    }
    Ok(())
}

/// Curves, and the steps of their twists.
const STEPS: [Row; 4] = [
    (
        &["twist", "@S_1_1", "1,0,1", "plus"],
        Status::Done,
        "hand plus\ndown\nflip 0\nrelabel 2 1 -1\n",
        "",
    ),
    (
        &["twist", "@S_0_4", "0,1,1,1,1,0", "plus"],
        Status::Done,
        "hand plus\ndown 1 2 3\nflip 4\nrelabel 0 -5 2 3 1 5\n",
        "",
    ),
    (
        &["twist", "@S_1_1", "2,1,1", "minus"],
        Status::Done,
        "hand minus\ndown 0\nflip 1\nrelabel 0 -3 1\n",
        "",
    ),
    (
        &["twist", "twists.json", "1,1,0", "minus"],
        Status::Done,
        "hand minus\ndown\nflip 1\nrelabel -2 0 2\n",
        "",
    ),
];

/// Coordinates without a twist, and why.
const REFUSED: [Row; 9] = [
    (
        &["twist", "@S_1_1", "2,2,0", "plus"],
        Status::InputRefused,
        "",
        "error: twist NotOneCurve\n",
    ),
    (
        &["twist", "@S_1_1", "0,0,0", "plus"],
        Status::InputRefused,
        "",
        "error: twist NotOneCurve\n",
    ),
    (
        &["twist", "@S_1_1", "2,2,2", "plus"],
        Status::InputRefused,
        "",
        "error: twist Peripheral\n",
    ),
    (
        &["twist", "@S_1_1", "4096,4096,0", "minus"],
        Status::InputRefused,
        "",
        "error: twist TotalOver 8192\n",
    ),
    (
        &["twist", "hidden.json", "4,2,2,2,4,4", "minus"],
        Status::InputRefused,
        "",
        "error: twist Stuck 10\n",
    ),
    (
        &["twist", "@S_1_1", "1,,0", "plus"],
        Status::InputRefused,
        "",
        "error: coordinates BadNumber 1\n",
    ),
    (
        &["twist", "@S_1_1", "1,0", "plus"],
        Status::InputRefused,
        "",
        "error: coordinates WrongLength 2\n",
    ),
    (
        &["twist", "@S_1_1", "4,1,1", "plus"],
        Status::InputRefused,
        "",
        "error: coordinates LongSide 0\n",
    ),
    (
        &["twist", "@S_1_2", "1,,0", "plus"],
        Status::InputRefused,
        "",
        "error: surface UnknownBuiltin\n",
    ),
];

/// Words that fit no command.
const UNFIT: [&[&str]; 6] = [
    &["twist"],
    &["twist", "@S_1_1", "1,0,1"],
    &["twist", "@S_1_1", "1,0,1", "Plus"],
    &["twist", "@S_1_1", "1,0,1", "plus", "plus"],
    &["twist", "@S_1_1", "-1,0,1", "plus"],
    &["twist", "-S_1_1", "1,0,1", "plus"],
];

#[test]
fn steps(rt: HostRuntime) -> Result<(), Fail> {
    let mut shelf = shelf(rt.alloc())?;
    for row in STEPS {
        check_sure(&rt, &mut shelf, row)?;
    }
    Ok(())
}

#[test]
fn refusals(rt: HostRuntime) -> Result<(), Fail> {
    let mut shelf = shelf(rt.alloc())?;
    for row in REFUSED {
        check_sure(&rt, &mut shelf, row)?;
    }
    Ok(())
}

#[test]
fn words_that_do_not_fit(rt: HostRuntime) -> Result<(), Fail> {
    let mut shelf = shelf(rt.alloc())?;
    for words in UNFIT {
        let row = (words, Status::WordsRefused, "", "error: usage\n");
        check_sure(&rt, &mut shelf, row)?;
    }
    Ok(())
}
