//! Damaged surface files and hostile words, and the lines that answer them.
use crate::{Status, run};
use flip_io::{SureShelf, SureSink};
use std::alloc::{AllocError, AllocGlobal, Global};
use std::collections::BTreeMap;
use std::process::Abort;
use std::test::Fail;

/// The once-punctured torus.
const TORUS: &str = "[[0,1,2],[-1,-2,-3]]";

/// Two three-punctured spheres.
const PAIR: &str = "[[0,1,2],[-1,-3,-2],[3,4,5],[-4,-6,-5]]";

/// Edge 0 has one triangle on both sides.
const FOLDED: &str = "[[0,-1,1],[-2,2,-3]]";

/// A torus with a curve, of the coordinates 4, 2, 2, 2, 4, 4, that bounds a torus without a vertex.
const HIDDEN: &str = "[[-3,-5,-1],[1,0,-4],[4,-6,2],[5,3,-2]]";

/// A twist of the torus.
const TWIST: &str = r#"{"name":"a","flips":[0],"relabel":[2,1,-1]}"#;

/// Versions, triangles and generators of a surface file, and what stands behind `error: surface `.
const FILES: [(&str, &str, &str, &str); 37] = [
    ("3", TORUS, TWIST, "BadShape version"),
    ("1.0", TORUS, TWIST, "BadShape version"),
    ("1", "3", TWIST, "BadShape triangles"),
    ("1", "[[0,1]]", TWIST, "BadShape triangles"),
    ("1", "[]", "3", "NoTriangle"),
    ("1", "[[0,1,2]]", TWIST, "LabelRange 1"),
    ("2", "[[0,1,2],[-1,-2,-4]]", TWIST, "LabelRange -4"),
    ("2", "[[0,1,2],[-1,-2,-2]]", TWIST, "LabelTwice -2"),
    ("1", PAIR, TWIST, "Disconnected 2"),
    ("1", TORUS, "3", "generator 0 BadShape generator"),
    ("1", TORUS, "{}", "generator 0 MissingKey name"),
    ("1", TORUS, r#"{"name":"A"}"#, "generator 0 BadName"),
    ("1", TORUS, r#"{"name":3}"#, "generator 0 BadName"),
    (
        "1",
        TORUS,
        r#"{"name":"a"}"#,
        "generator 0 MissingKey flips",
    ),
    (
        "1",
        TORUS,
        r#"{"name":"a","word":""}"#,
        "generator 0 MissingKey flips",
    ),
    (
        "1",
        TORUS,
        r#"{"name":"a","flips":3}"#,
        "generator 0 BadShape flips",
    ),
    (
        "1",
        TORUS,
        r#"{"name":"a","flips":[7]}"#,
        "generator 0 MissingKey relabel",
    ),
    (
        "1",
        TORUS,
        r#"{"name":"a","flips":[],"relabel":[0.5]}"#,
        "generator 0 BadShape relabel",
    ),
    (
        "1",
        TORUS,
        r#"{"name":"a","flips":[0,7],"relabel":[]}"#,
        "generator 0 NotEdge 1",
    ),
    (
        "1",
        FOLDED,
        r#"{"name":"a","flips":[0],"relabel":[]}"#,
        "generator 0 NotFlippable 0",
    ),
    (
        "1",
        TORUS,
        r#"{"name":"a","flips":[],"relabel":[0,1]}"#,
        "generator 0 WrongLength 2",
    ),
    (
        "1",
        TORUS,
        r#"{"name":"a","flips":[],"relabel":[0,1,9]}"#,
        "generator 0 NotLabel 2",
    ),
    (
        "1",
        TORUS,
        r#"{"name":"a","flips":[],"relabel":[0,1,1]}"#,
        "generator 0 NotBijective 1",
    ),
    (
        "1",
        TORUS,
        r#"{"name":"a","flips":[],"relabel":[1,0,2]}"#,
        "generator 0 BreaksTriangle 0",
    ),
    (
        "1",
        TORUS,
        r#"{"name":"a","twist":[1,0,-1]}"#,
        "generator 0 BadShape twist",
    ),
    (
        "1",
        TORUS,
        r#"{"name":"a","twist":[1,1]}"#,
        "generator 0 MissingKey hand",
    ),
    (
        "1",
        TORUS,
        r#"{"name":"a","twist":[1,1],"hand":"left"}"#,
        "generator 0 BadShape hand",
    ),
    (
        "1",
        TORUS,
        r#"{"name":"a","twist":[1,1],"hand":"plus"}"#,
        "generator 0 WrongLength 2",
    ),
    (
        "1",
        TORUS,
        r#"{"name":"a","twist":[1,1,1],"hand":"plus"}"#,
        "generator 0 OddTriangle 0",
    ),
    (
        "1",
        TORUS,
        r#"{"name":"a","twist":[4,1,1],"hand":"plus"}"#,
        "generator 0 LongSide 0",
    ),
    (
        "1",
        TORUS,
        r#"{"name":"a","twist":[4096,4096,0],"hand":"minus"}"#,
        "generator 0 TotalOver 8192",
    ),
    (
        "1",
        TORUS,
        r#"{"name":"a","twist":[2,2,0],"hand":"minus"}"#,
        "generator 0 NotOneCurve",
    ),
    (
        "1",
        TORUS,
        r#"{"name":"a","twist":[2,2,2],"hand":"plus"}"#,
        "generator 0 Peripheral",
    ),
    (
        "1",
        HIDDEN,
        r#"{"name":"a","twist":[4,2,2,2,4,4],"hand":"plus"}"#,
        "generator 0 Stuck 10",
    ),
    (
        "2",
        TORUS,
        r#"{"name":"a","word":3}"#,
        "generator 0 BadShape word",
    ),
    (
        "2",
        TORUS,
        r#"{"name":"p","word":"p"}"#,
        "generator 0 word UnknownName 0",
    ),
    (
        "2",
        TORUS,
        r#"{"name":"p","word":"()^0"}"#,
        "generator 0 word BadPower 0",
    ),
];

/// Whole files, and what stands behind `error: surface `.
const TEXTS: [(&str, &str); 9] = [
    ("[]", "BadShape file"),
    ("{}", "MissingKey format"),
    (r#"{"format":"flipper-Surface"}"#, "BadShape format"),
    (r#"{"format":"flipper-surface"}"#, "MissingKey version"),
    (
        r#"{"format":"flipper-surface","version":2}"#,
        "MissingKey name",
    ),
    (
        r#"{"format":"flipper-surface","version":2,"name":"a b"}"#,
        "BadShape name",
    ),
    (
        r#"{"format":"flipper-surface","version":2,"name":"S"}"#,
        "MissingKey triangles",
    ),
    (
        r#"{"format":"flipper-surface","version":2,"name":"S","triangles":[]}"#,
        "MissingKey generators",
    ),
    (
        r#"{"format":"flipper-surface","version":2,"name":"S","triangles":[],"generators":3}"#,
        "BadShape generators",
    ),
];

/// Words, and what stands behind `error: word `.
const WORDS: [(&str, &str); 14] = [
    ("(((((((((", "BadGroup 8"),
    ("(a", "BadGroup 2"),
    ("a)", "BadGroup 1"),
    ("é(", "BadGroup 3"),
    (".", "EmptyPart 0"),
    ("().", "EmptyPart 0"),
    ("^2", "UnknownName 0"),
    ("AB", "UnknownName 0"),
    ("a(b)", "UnknownName 0"),
    ("a^0", "BadPower 0"),
    ("a^4097", "BadPower 0"),
    ("a^-", "BadPower 0"),
    ("(a)b", "BadPower 0"),
    ("((a)^4096)^4096", "PartsOver 16777216"),
];

fn file_of(
    alloc: Global,
    version: &str,
    triangles: &str,
    generators: &str,
) -> Result<String, AllocError> {
    format!(in alloc;
        r#"{{"format":"flipper-surface","name":"S","triangles":{triangles},
"generators":[{generators}],"version":{version}}}"#
    )
}

/// What the program says on the error stream to these words, over a shelf with one file.
fn said(
    alloc: Global,
    file: &str,
    surface: &str,
    word: &str,
) -> Result<(Status, Vec<u8>), AllocError> {
    let mut files = BTreeMap::new(alloc);
    files.insert(
        String::from_str(alloc, "s.json")?,
        file.as_bytes().to_vec(alloc)?,
    )?;
    let mut shelf = SureShelf { files };
    let mut out = SureSink {
        bytes: Vec::with_capacity(alloc, 99)?,
        dropped: false,
    };
    let mut err = SureSink {
        bytes: Vec::with_capacity(alloc, 99)?,
        dropped: false,
    };
    let mut words = Vec::new(alloc);
    for text in ["image", surface, word, "1,1,0"] {
        words.push(String::from_str(alloc, text)?)?;
    }
    let status = run(alloc, words.as_slice(), &mut shelf, &mut out, &mut err);
    Ok((status, err.bytes))
}

/// The line that says that this is refused, and why.
fn line_of(alloc: Global, what: &str, why: &str) -> Result<String, AllocError> {
    format!(in alloc; "error: {what} {why}\n")
}

/// The file is refused with this line.
fn check_file(rt: &(impl Abort + AllocGlobal), file: &str, why: &str) -> Result<(), Fail> {
    let alloc = rt.alloc();
    let (status, bytes) = said(alloc, file, "s.json", "a")?;
    assert_eq!(rt; status, Status::InputRefused, "{file}");
    let line = line_of(alloc, "surface", why)?;
    assert_eq!(rt; bytes.as_slice(), line.as_bytes(), "{file}");
    Ok(())
}

#[test]
fn damaged_files(rt: HostRuntime) -> Result<(), Fail> {
    let alloc = rt.alloc();
    for (text, why) in TEXTS {
        check_file(&rt, text, why)?;
    }
    for (version, triangles, generators, why) in FILES {
        let file = file_of(alloc, version, triangles, generators)?;
        check_file(&rt, &file, why)?;
    }
    let twice = format!(in alloc; "{TWIST},{TWIST}")?;
    check_file(
        &rt,
        &file_of(alloc, "1", TORUS, &twice)?,
        "generator 1 SameName",
    )?;
    Ok(())
}

/// 33 triangles have 49 edges, three for each two, and 65 generators are too many.
#[test]
fn large_files(rt: HostRuntime) -> Result<(), Fail> {
    let alloc = rt.alloc();
    let mut triangles = String::from_str(alloc, "[[0,1,2]")?;
    let mut generators = String::from_str(alloc, "3")?;
    for _ in 0..32 {
        triangles.push_str(",[0,1,2]")?;
        generators.push_str(",3,3")?;
    }
    triangles.push_str("]")?;
    check_file(
        &rt,
        &file_of(alloc, "1", &triangles, "")?,
        "TooManyEdges 49",
    )?;
    check_file(
        &rt,
        &file_of(alloc, "1", TORUS, &generators)?,
        "TooManyGenerators 65",
    )?;
    Ok(())
}

/// Each proper beginning of a file is no JSON.
#[test]
fn beginnings_of_files(rt: HostRuntime) -> Result<(), Fail> {
    let file = file_of(rt.alloc(), "1", TORUS, TWIST)?;
    for end in 0..file.len() {
        if let Some(text) = file.get(..end) {
            check_file(&rt, text, "NotJson")?;
        }
    }
    Ok(())
}

#[test]
fn hostile_words(rt: HostRuntime) -> Result<(), Fail> {
    let alloc = rt.alloc();
    for (word, why) in WORDS {
        let (status, bytes) = said(alloc, "", "@S_1_1", word)?;
        assert_eq!(rt; status, Status::InputRefused, "{word}");
        let line = line_of(alloc, "word", why)?;
        assert_eq!(rt; bytes.as_slice(), line.as_bytes(), "{word}");
    }
    Ok(())
}
