//! Certificates checked by the program, and the reads and writes of a check that fail.
use crate::run_tests::{Row, check_sure, words_of};
use crate::{Status, run};
use flip_io::{BoxShelf, Held, ShelfFault, SureShelf, VecSink};
use std::alloc::{AllocError, Global};
use std::collections::BTreeMap;
use std::process::Abort;
use std::test::Fail;

/// What `classify @S_1_1 a.b` prints.
const TRACK: &str =
    "pseudo-Anosov power 1 growth 89/34 144/55\n{\"anchors\":[{\"connect\":[-2,2,-2],\"switch\":1,\"to\":1}],\"exponent\":1,\"flips\":[],\"high\":[144,55],\"images\":[[1,-3,1,-1,1],[1,-3,1,-1,1,-3,1]],\"kind\":\"pseudo-anosov\",\"left_out\":[2,-3],\"low\":[89,34],\"matrix\":[[1,1],[1,2]],\"power\":1,\"u\":[34,55]}\n";

/// The same with a larger lower bound.
const LOW: &str =
    "pseudo-Anosov power 1 growth 3/1 144/55\n{\"anchors\":[{\"connect\":[-2,2,-2],\"switch\":1,\"to\":1}],\"exponent\":1,\"flips\":[],\"high\":[144,55],\"images\":[[1,-3,1,-1,1],[1,-3,1,-1,1,-3,1]],\"kind\":\"pseudo-anosov\",\"left_out\":[2,-3],\"low\":[3,1],\"matrix\":[[1,1],[1,2]],\"power\":1,\"u\":[34,55]}\n";

/// The once-punctured torus, as in `@S_1_1`.
const TORUS: &str = r#"{"format":"flipper-surface",
"generators":[{"flips":[0],"name":"a","relabel":[2,1,-1]},
{"flips":[0],"name":"b","relabel":[-2,-1,2]}],
"name":"S_1_1","triangles":[[0,1,2],[-1,-2,-3]],"version":1}"#;

/// A surface and a certificate of its generator, in one file.
const BOTH: &str = r#"{"coords":["1","0","1"],"format":"flipper-surface",
"generators":[{"flips":[0],"name":"a","relabel":[2,1,-1]}],"kind":"reducible",
"name":"S_1_1","triangles":[[0,1,2],[-1,-2,-3]],"version":1}"#;

/// The files, by their names.
const FILES: [(&str, &str); 9] = [
    ("c.txt", TRACK),
    ("low.txt", LOW),
    ("torus.json", TORUS),
    ("both.json", BOTH),
    ("kind.json", r#"{"kind":"reducible"}"#),
    (
        "zero.json",
        r#"{"coords":["0","0","0"],"kind":"reducible"}"#,
    ),
    (
        "unknown.json",
        r#"{"capped":null,"curves":["moved"],"kind":"unknown","powers":[[1,-1]],"tracks":[]}"#,
    ),
    ("text.txt", "no claim"),
    ("@S_1_1", r#"{"coords":["1","0","1"],"kind":"reducible"}"#),
];

/// Words, and what is answered over these files.
const ROWS: [Row; 14] = [
    (
        &["check", "@S_1_1", "a.b", "c.txt"],
        Status::Done,
        "accepted\n",
        "",
    ),
    (
        &["check", "@S_1_1", "a.b", "low.txt"],
        Status::RuleFailed,
        "refused rule 18 at 0\n",
        "",
    ),
    (
        &["check", "@S_1_1", "a", "zero.json"],
        Status::RuleFailed,
        "refused rule 10 at 0\n",
        "",
    ),
    (
        &["check", "@S_1_1", "a.b", "unknown.json"],
        Status::Done,
        "no claim\n",
        "",
    ),
    // a certificate's file is a name on the shelf, whatever it begins with
    (
        &["check", "@S_1_1", "a", "@S_1_1"],
        Status::Done,
        "accepted\n",
        "",
    ),
    // one file for both
    (
        &["check", "both.json", "a", "both.json"],
        Status::Done,
        "accepted\n",
        "",
    ),
    (
        &["check", "torus.json", "a", "torus.json"],
        Status::InputRefused,
        "",
        "error: certificate MissingKey kind\n",
    ),
    (
        &["check", "@S_1_1", "a", "kind.json"],
        Status::InputRefused,
        "",
        "error: certificate MissingKey coords\n",
    ),
    (
        &["check", "@S_1_1", "a", "text.txt"],
        Status::InputRefused,
        "",
        "error: certificate NotJson\n",
    ),
    (
        &["check", "@S_1_1", "a", "absent.json"],
        Status::ShelfFault(ShelfFault::Absent),
        "",
        "error: shelf Absent\n",
    ),
    // what stands before the certificate is refused first
    (
        &["check", "@S_1_1", "c", "absent.json"],
        Status::InputRefused,
        "",
        "error: word UnknownName 0\n",
    ),
    (
        &["check", "@S_1_2", "a", "absent.json"],
        Status::InputRefused,
        "",
        "error: surface UnknownBuiltin\n",
    ),
    (
        &["check", "absent.json", "c", "kind.json"],
        Status::ShelfFault(ShelfFault::Absent),
        "",
        "error: shelf Absent\n",
    ),
    (
        &["check", "@S_1_1", "a"],
        Status::WordsRefused,
        "",
        "error: usage\n",
    ),
];

#[test]
fn rows(rt: HostRuntime) -> Result<(), Fail> {
    let alloc = rt.alloc();
    let mut files = BTreeMap::new(alloc);
    for (name, text) in FILES {
        files.insert(
            String::from_str(alloc, name)?,
            text.as_bytes().to_vec(alloc)?,
        )?;
    }
    let mut shelf = SureShelf { files };
    for row in ROWS {
        check_sure(&rt, &mut shelf, row)?;
    }
    Ok(())
}

#[test]
fn too_long(rt: HostRuntime) -> Result<(), Fail> {
    let alloc = rt.alloc();
    let mut bytes = Vec::new(alloc);
    bytes.resize(67_108_865, b' ')?;
    let mut files = BTreeMap::new(alloc);
    files.insert(String::from_str(alloc, "c.txt")?, bytes)?;
    let mut shelf = SureShelf { files };
    let row: Row = (
        &["check", "@S_1_1", "a.b", "c.txt"],
        Status::InputRefused,
        "",
        "error: certificate FileTooLong\n",
    );
    check_sure(&rt, &mut shelf, row)
}

// ---- calls that fail

/// How many bytes one call gives.
const PIECE: usize = 100;

/// How many calls read the two files of the torus and of the certificate, each to its end.
const READS: u64 = 7;

/// A shelf with the files. It gives a piece a call, and fails at the call with this number.
fn shelf(alloc: Global, fails: u64) -> Result<BoxShelf, AllocError> {
    let mut files = BTreeMap::new(alloc);
    for (name, text) in FILES {
        let held = Held {
            bytes: text.as_bytes().to_vec(alloc)?,
            faults: 0,
        };
        files.insert(String::from_str(alloc, name)?, held)?;
    }
    Ok(BoxShelf {
        files,
        calls: 0,
        fails: vec![in alloc; fails]?,
        most: PIECE,
    })
}

/// A sink with room. It takes a byte a call, and fails at the call with this number.
fn sink(alloc: Global, fails: u64) -> Result<VecSink, AllocError> {
    Ok(VecSink {
        bytes: Vec::with_capacity(alloc, 250)?,
        calls: 0,
        fails: vec![in alloc; fails]?,
        faults: 0,
        most: 1,
    })
}

/// The check of a certificate of two files, where a call of the shelf and one of the output fail,
/// has this answer.
fn run_failing(
    rt: &(impl Abort + AllocGlobal),
    read: u64,
    write: u64,
    status: Status,
    printed: &[u8],
    said: &[u8],
) -> Result<(), Fail> {
    let alloc = rt.alloc();
    let words = words_of(alloc, &["check", "torus.json", "a.b", "c.txt"])?;
    let mut shelf = shelf(alloc, read)?;
    let mut out = sink(alloc, write)?;
    let mut err = sink(alloc, 0)?;
    let answer = run(alloc, words.as_slice(), &mut shelf, &mut out, &mut err);
    assert_eq!(rt; answer, status);
    assert_eq!(rt; out.bytes.as_slice(), printed);
    assert_eq!(rt; err.bytes.as_slice(), said);
    Ok(())
}

#[test]
fn each_read_may_fail(rt: HostRuntime) -> Result<(), Fail> {
    let failed = Status::ShelfFault(ShelfFault::Failed);
    for call in 1..=READS {
        run_failing(&rt, call, 0, failed, b"", b"error: shelf Failed\n")?;
    }
    run_failing(&rt, READS + 1, 0, Status::Done, b"accepted\n", b"")
}

#[test]
fn each_write_may_fail(rt: HostRuntime) -> Result<(), Fail> {
    let line = b"accepted\n".as_slice();
    for taken in 0..line.len() {
        let call = taken as u64 + 1;
        run_failing(&rt, 0, call, Status::SinkFault, &line[..taken], b"")?;
    }
    run_failing(&rt, 0, 0, Status::Done, line, b"")
}
