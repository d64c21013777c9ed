//! Whole runs over shelves and sinks in memory, with a failure at each call in turn.
ghost use Rattle.std.specs.Prelude.{◌≡◌};
ghost use Rattle.flip_io.specs.declared.shelf.ShelfFault.TheVariants.{Failed};

use crate::{Status, run};
use flip_io::{BoxShelf, Held, ShelfFault, SureShelf, SureSink, VecSink};
use std::alloc::{AllocError, Global};
use std::collections::BTreeMap;
use std::process::Abort;
use std::test::Fail;

/// The file `sphere3.json`: the sphere with three punctures, and its rotation r.
const SPHERE3: &str = r#"{"format":"flipper-surface",
"generators":[{"flips":[],"name":"r","relabel":[1,2,0]}],
"name":"S_0_3","triangles":[[0,1,2],[-1,-3,-2]],"version":1}"#;

/// How many calls read it and its end, at one byte a call.
const READS: u64 = 148;

/// The file `sphere4.json`: the sphere with four punctures, and its rotation r.
const SPHERE4: &str = r#"{"format":"flipper-surface",
"generators":[{"flips":[],"name":"r","relabel":[1,2,0,5,-4,-5]}],
"name":"S_0_4","triangles":[[0,3,-2],[2,-5,-1],[1,5,-3],[4,-6,-4]],"version":1}"#;

/// The file `torus.json`: the once-punctured torus, two twists of it, and a product of them.
const TORUS: &str = r#"{"format":"flipper-surface",
"generators":[{"flips":[0],"name":"a","relabel":[2,1,-1]},
{"flips":[0],"name":"b","relabel":[-2,-1,2]},{"name":"p","word":"(a.b)^2"}],
"name":"S_1_1","triangles":[[0,1,2],[-1,-2,-3]],"version":2}"#;

/// The file `pair.json`: two spheres, which `w` exchanges.
const PAIR: &str = r#"{"format":"flipper-surface",
"generators":[{"flips":[],"name":"w","relabel":[3,4,5,0,1,2]}],
"name":"pair","triangles":[[0,1,2],[-1,-3,-2],[3,4,5],[-4,-6,-5]],"version":2}"#;

/// The file `brackets.json`: nested too deep.
const BRACKETS: &str = "[[[[[[[[[[[[[[[[[[[[[[[[[[[[[[[[[[[[[[[[[[[[[[[[[[[[[[[[[[[[[[[[
[[[[[[[[[[[[[[[[[[[[[[[[[[[[[[[[[[[[[[[[[[[[[[[[[[[[[[[[[[[[[[[[[[[[[[[[[[";

/// The number of no call.
const NEVER: u64 = 0;

/// Words, the status, what is printed on the output, and the line on the error stream.
pub(crate) type Row<'a> = (&'a [&'a str], Status, &'a str, &'a str);

pub(crate) fn words_of(alloc: Global, texts: &[&str]) -> Result<Vec<String>, AllocError> {
    let mut words = Vec::new(alloc);
    for text in texts {
        words.push(String::from_str(alloc, text)?)?;
    }
    Ok(words)
}

/// The files, by their names.
const FILES: [(&str, &str); 5] = [
    ("sphere3.json", SPHERE3),
    ("sphere4.json", SPHERE4),
    ("torus.json", TORUS),
    ("pair.json", PAIR),
    ("brackets.json", BRACKETS),
];

/// A shelf with the files. It gives a byte a call, and fails at the call with this number.
fn shelf(alloc: Global, fails: u64) -> Result<BoxShelf, AllocError> {
    let mut files = BTreeMap::new(alloc);
    for (name, text) in FILES {
        let held = Held {
            bytes: text.as_bytes().to_vec(alloc)?,
            faults: 0,
        };
        files.insert(String::from_str(alloc, name)?, held)?;
    }
    Ok(BoxShelf {
        files,
        calls: 0,
        fails: vec![in alloc; fails]?,
        most: 1,
    })
}

/// A sink with room. It takes a byte a call, and fails at the call with this number.
fn sink(alloc: Global, fails: u64) -> Result<VecSink, AllocError> {
    Ok(VecSink {
        bytes: Vec::with_capacity(alloc, 250)?,
        calls: 0,
        fails: vec![in alloc; fails]?,
        faults: 0,
        most: 1,
    })
}

/// The numbers of the calls that fail: of the shelf, the output and the error stream.
type Failing = (u64, u64, u64);

/// A run of these words, where these calls fail, has these answers.
fn check(
    rt: &(impl Abort + AllocGlobal),
    texts: &[&str],
    failing: Failing,
    status: Status,
    printed: &[u8],
    said: &[u8],
) -> Result<(), Fail> {
    let alloc = rt.alloc();
    let words = words_of(alloc, texts)?;
    let mut shelf = shelf(alloc, failing.0)?;
    let mut out = sink(alloc, failing.1)?;
    let mut err = sink(alloc, failing.2)?;
    let answer = run(alloc, words.as_slice(), &mut shelf, &mut out, &mut err);
    assert_eq!(rt; answer, status);
    assert_eq!(rt; out.bytes.as_slice(), printed);
    assert_eq!(rt; err.bytes.as_slice(), said);
    Ok(())
}

/// Rows of calls that read a file that is there.
const READING: [Row; 17] = [
    (
        &["image", "sphere3.json", "r", "2,1,1"],
        Status::Done,
        "1 2 1\n",
        "",
    ),
    (
        &["image", "sphere3.json", "r.r", "2,1,1"],
        Status::Done,
        "1 1 2\n",
        "",
    ),
    (
        &["image", "sphere3.json", "", "0,0,0"],
        Status::Done,
        "0 0 0\n",
        "",
    ),
    (
        &["image", "sphere4.json", "r", "0,1,1,1,1,0"],
        Status::Done,
        "1 0 1 1 0 1\n",
        "",
    ),
    (
        &["image", "torus.json", "p", "1,1,0"],
        Status::Done,
        "2 5 3\n",
        "",
    ),
    (
        &["image", "torus.json", "P.p", "3,1,2"],
        Status::Done,
        "3 1 2\n",
        "",
    ),
    (
        &["image", "pair.json", "w", "2,1,1,0,0,0"],
        Status::Done,
        "0 0 0 2 1 1\n",
        "",
    ),
    (
        &["show", "pair.json"],
        Status::Done,
        "name pair\nedges 6\ntriangles 4\nvertices 6\ngenus 0\ngenerators w\ncomponents 2\n",
        "",
    ),
    (
        &["classify", "sphere3.json", "r"],
        Status::Done,
        "periodic 3\n{\"kind\":\"periodic\",\"order\":3,\"paths\":[[],[]],\"reasons\":[[1,-1],[1,-1]]}\n",
        "",
    ),
    (
        &["classify", "pair.json", "w", "--powers=2"],
        Status::Done,
        "periodic 2\n{\"kind\":\"periodic\",\"order\":2,\"paths\":[[],[],[],[]],\"reasons\":[[1,-1]]}\n",
        "",
    ),
    (
        &["classify", "sphere3.json", "r.q", "--powers", "1"],
        Status::InputRefused,
        "",
        "error: word UnknownName 1\n",
    ),
    (
        &["image", "brackets.json", "r", "2,1,1"],
        Status::InputRefused,
        "",
        "error: surface NotJson\n",
    ),
    (
        &["image", "sphere3.json", "r.q", "2,1,1"],
        Status::InputRefused,
        "",
        "error: word UnknownName 1\n",
    ),
    (
        &["image", "sphere3.json", "r", "2,1,0"],
        Status::InputRefused,
        "",
        "error: coordinates OddTriangle 0\n",
    ),
    (
        &["image", "sphere3.json", "r", "2,1"],
        Status::InputRefused,
        "",
        "error: coordinates WrongLength 2\n",
    ),
    (
        &["image", "sphere3.json", "r", "2,,1"],
        Status::InputRefused,
        "",
        "error: coordinates BadNumber 1\n",
    ),
    (
        &[
            "image",
            "torus.json",
            "a",
            "0,42535295865117307932921825928971026432,42535295865117307932921825928971026432",
        ],
        Status::Overflow,
        "",
        "error: overflow flip 1 edge 0 value 85070591730234615865843651857942052864\n",
    ),
];

/// Rows of calls that read no file that is there.
const ROWS: [Row; 21] = [
    (&[], Status::WordsRefused, "", "error: usage\n"),
    (&["image"], Status::WordsRefused, "", "error: usage\n"),
    (
        &["Image", "sphere3.json", "r", "2,1,1"],
        Status::WordsRefused,
        "",
        "error: usage\n",
    ),
    (
        &["image", "sphere3.json", "-r", "2,1,1"],
        Status::WordsRefused,
        "",
        "error: usage\n",
    ),
    (
        &["image", "sphere3.json", "r", "2,1,1", "2"],
        Status::WordsRefused,
        "",
        "error: usage\n",
    ),
    (
        &["image", "@S_1_1", "(a.B)^-6", "3,1,2"],
        Status::Done,
        "3 1 2\n",
        "",
    ),
    (
        &["show", "@S_1_1"],
        Status::Done,
        "name S_1_1\nedges 3\ntriangles 2\nvertices 1\ngenus 1\ngenerators a b\n",
        "",
    ),
    (
        &["twist", "@S_0_4", "0,1,1,1,1,0", "plus"],
        Status::Done,
        "hand plus\ndown 1 2 3\nflip 4\nrelabel 0 -5 2 3 1 5\n",
        "",
    ),
    (
        &["classify", "@S_1_1", "a.B"],
        Status::Done,
        "periodic 6\n{\"kind\":\"periodic\",\"order\":6,\"paths\":[[],[]],\"reasons\":[[1,-1],[1,-1],[1,-1],[1,-1],[1,-1]]}\n",
        "",
    ),
    (
        &["classify", "@S_1_1", ""],
        Status::Done,
        "periodic 1\n{\"kind\":\"periodic\",\"order\":1,\"paths\":[[],[]],\"reasons\":[]}\n",
        "",
    ),
    (
        &["classify", "@S_1_1", "a"],
        Status::Done,
        "reducible 1 0 1\n{\"coords\":[\"1\",\"0\",\"1\"],\"kind\":\"reducible\"}\n",
        "",
    ),
    (
        &["classify", "@S_1_1", "b", "--curves=1", "--powers", "2"],
        Status::Done,
        "reducible 1 1 0\n{\"coords\":[\"1\",\"1\",\"0\"],\"kind\":\"reducible\"}\n",
        "",
    ),
    (
        &[
            "classify", "@S_1_1", "a.b", "--powers", "1", "--curves", "1", "--tracks", "0",
        ],
        Status::Done,
        "unknown\n{\"capped\":null,\"curves\":[\"moved\"],\"kind\":\"unknown\",\"powers\":[[1,-1]],\"tracks\":[]}\n",
        "",
    ),
    (
        &[
            "classify",
            "@S_1_1",
            "a",
            "--powers",
            "1",
            "--curves",
            "1",
            "--tracks=00",
        ],
        Status::Done,
        "unknown\n{\"capped\":null,\"curves\":[\"moved\"],\"kind\":\"unknown\",\"powers\":[[1,-1]],\"tracks\":[]}\n",
        "",
    ),
    (
        &[
            "classify",
            "@S_1_1",
            "a.B",
            "--powers=0000",
            "--curves=0",
            "--tracks=0",
        ],
        Status::Done,
        "unknown\n{\"capped\":null,\"curves\":[],\"kind\":\"unknown\",\"powers\":[],\"tracks\":[]}\n",
        "",
    ),
    (
        &["classify", "@S_1_1", "a", "--powers", "2000"],
        Status::WordsRefused,
        "",
        "error: usage\n",
    ),
    (
        &["classify", "@S_1_1", "a", "--curves", "65537"],
        Status::WordsRefused,
        "",
        "error: usage\n",
    ),
    (
        &["classify", "absent.json", "a", "--powers", "2"],
        Status::ShelfFault(ShelfFault::Absent),
        "",
        "error: shelf Absent\n",
    ),
    (
        &["classify", "@S_1_2", "a"],
        Status::InputRefused,
        "",
        "error: surface UnknownBuiltin\n",
    ),
    (
        &["show", "@S_1_2"],
        Status::InputRefused,
        "",
        "error: surface UnknownBuiltin\n",
    ),
    (
        &["image", "absent.json", "r", "2,1,1"],
        Status::ShelfFault(ShelfFault::Absent),
        "",
        "error: shelf Absent\n",
    ),
];

#[test]
fn each_read_may_fail(rt: HostRuntime) -> Result<(), Fail> {
    let failed = Status::ShelfFault(ShelfFault::Failed);
    let line = b"error: shelf Failed\n".as_slice();
    let texts: [&str; 4] = ["image", "sphere3.json", "r", "2,1,1"];
    for call in 1..=READS {
        check(&rt, &texts, (call, NEVER, NEVER), failed, b"", line)?;
    }
    // A file that isn't there is absent and not failed, and words that read no file meet no failure
    // of the shelf.
    for (texts, status, printed, said) in ROWS {
        check(
            &rt,
            texts,
            (1, NEVER, NEVER),
            status,
            printed.as_bytes(),
            said.as_bytes(),
        )?;
    }
    Ok(())
}

/// The row holds, and where a write fails the sink holds what came before it.
fn check_writes(rt: &(impl Abort + AllocGlobal), row: Row) -> Result<(), Fail> {
    let (texts, status, printed, said) = row;
    let (printed, said) = (printed.as_bytes(), said.as_bytes());
    for taken in 0..printed.len() {
        let failing = (NEVER, taken as u64 + 1, NEVER);
        check(
            rt,
            texts,
            failing,
            Status::SinkFault,
            &printed[..taken],
            b"",
        )?;
    }
    for taken in 0..said.len() {
        let failing = (NEVER, NEVER, taken as u64 + 1);
        check(rt, texts, failing, Status::SinkFault, b"", &said[..taken])?;
    }
    check(rt, texts, (NEVER, NEVER, NEVER), status, printed, said)
}

#[test]
fn each_write_may_fail(rt: HostRuntime) -> Result<(), Fail> {
    for row in READING {
        check_writes(&rt, row)?;
    }
    for row in ROWS {
        check_writes(&rt, row)?;
    }
    Ok(())
}

/// Over forms that never fail neither a failed read nor a failed write is answered.
fn run_surely(
    alloc: Global,
    words: &[String],
    shelf: &mut SureShelf,
    out: &mut SureSink,
    err: &mut SureSink,
) -> Status
    ensures read { ¬ (result ≡ Status.ShelfFault ShelfFault.Failed) }
    ensures write { ¬ (result ≡ Status.SinkFault) }
{
    run(alloc, words, shelf, out, err)
}

/// The row holds over forms that never fail.
pub(crate) fn check_sure(
    rt: &(impl Abort + AllocGlobal),
    shelf: &mut SureShelf,
    row: Row,
) -> Result<(), Fail> {
    let alloc = rt.alloc();
    let (texts, status, printed, said) = row;
    let words = words_of(alloc, texts)?;
    let mut out = SureSink {
        bytes: Vec::with_capacity(alloc, 800)?,
        dropped: false,
    };
    let mut err = SureSink {
        bytes: Vec::with_capacity(alloc, 250)?,
        dropped: false,
    };
    let answer = run_surely(alloc, words.as_slice(), shelf, &mut out, &mut err);
    assert_eq!(rt; answer, status);
    assert_eq!(rt; out.bytes.as_slice(), printed.as_bytes());
    assert_eq!(rt; err.bytes.as_slice(), said.as_bytes());
    Ok(())
}

#[test]
fn sure_forms_never_fail(rt: HostRuntime) -> Result<(), Fail> {
    let alloc = rt.alloc();
    let mut files = BTreeMap::new(alloc);
    for (name, text) in FILES {
        files.insert(
            String::from_str(alloc, name)?,
            text.as_bytes().to_vec(alloc)?,
        )?;
    }
    let mut shelf = SureShelf { files };
    for row in READING {
        check_sure(&rt, &mut shelf, row)?;
    }
    for row in ROWS {
        check_sure(&rt, &mut shelf, row)?;
    }
    Ok(())
}
