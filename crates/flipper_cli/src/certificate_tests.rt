//! Certificates that don't hold, and texts that are no certificates: what is answered of each.
use crate::Status;
use crate::run_tests::{Row, check_sure};
use flip_io::SureShelf;
use std::alloc::Global;
use std::collections::BTreeMap;
use std::process::Abort;
use std::test::Fail;

/// The certificate that `classify @S_1_1 a.b` prints.
const TRACK: &str =
    "{\"anchors\":[{\"connect\":[-2,2,-2],\"switch\":1,\"to\":1}],\"exponent\":1,\"flips\":[],\"high\":[144,55],\"images\":[[1,-3,1,-1,1],[1,-3,1,-1,1,-3,1]],\"kind\":\"pseudo-anosov\",\"left_out\":[2,-3],\"low\":[89,34],\"matrix\":[[1,1],[1,2]],\"power\":1,\"u\":[34,55]}";

/// A word on the once-punctured torus, a certificate, and the rule that refuses it, with its place.
const REFUSED: [(&str, &str, &str); 14] = [
    (
        "a",
        r#"{"kind":"periodic","order":0,"paths":[],"reasons":[]}"#,
        "1 at 0",
    ),
    (
        "a",
        r#"{"kind":"periodic","order":1,"paths":[],"reasons":[]}"#,
        "2 at 0",
    ),
    (
        "a",
        r#"{"kind":"periodic","order":2,"paths":[[],[]],"reasons":[]}"#,
        "3 at 0",
    ),
    (
        "a",
        r#"{"kind":"periodic","order":2,"paths":[[],[]],"reasons":[[]]}"#,
        "4 at 1",
    ),
    (
        "a.b",
        r#"{"kind":"periodic","order":12,"paths":[[],[]],"reasons":[[1,-1],[1,-1],[1,-1],[1,-1],[1,-1],[1,-1],[1,-1],[1,-1],[1,-1],[1,-1],[1,-1]]}"#,
        "5 at 12",
    ),
    (
        "a.b",
        r#"{"kind":"periodic","order":1,"paths":[[],[]],"reasons":[]}"#,
        "6 at 0",
    ),
    (
        "a",
        r#"{"kind":"periodic","order":1,"paths":[[],[]],"reasons":[]}"#,
        "7 at 0",
    ),
    (
        "a.B",
        r#"{"kind":"periodic","order":12,"paths":[[],[]],"reasons":[[1,-1],[1,-1],[1,-1],[1,-1],[1,-1],[1,-1],[1,-1],[1,-1],[1,-1],[1,-1],[1,-1]]}"#,
        "8 at 6",
    ),
    ("a", r#"{"coords":["1","1"],"kind":"reducible"}"#, "9 at 3"),
    (
        "a",
        r#"{"coords":["1","1","1"],"kind":"reducible"}"#,
        "9 at 0",
    ),
    (
        "a",
        r#"{"coords":["9999999999999999999999999999999999999999999999999999999999999999","1","1"],"kind":"reducible"}"#,
        "9 at 0",
    ),
    (
        "a",
        r#"{"coords":["0","0","0"],"kind":"reducible"}"#,
        "10 at 0",
    ),
    (
        "a",
        r#"{"coords":["2","2","2"],"kind":"reducible"}"#,
        "10 at 0",
    ),
    (
        "a",
        r#"{"coords":["1","1","0"],"kind":"reducible"}"#,
        "11 at 0",
    ),
];

/// A part of the certificate for a.b, what stands in its place, and the rule that then refuses it.
const DAMAGED: [(&str, &str, &str); 17] = [
    ("\"power\":1", "\"power\":65", "12 at 0"),
    ("\"power\":1", "\"power\":0", "12 at 0"),
    ("\"flips\":[]", "\"flips\":[7]", "12 at 1"),
    ("[2,-3]", "[0,1]", "13 at 1"),
    ("[2,-3]", "[-3,2]", "13 at 1"),
    ("[2,-3]", "[9]", "13 at 0"),
    ("[2,-3]", "[]", "13 at 1000"),
    ("\"power\":1", "\"power\":30", "14 at 0"),
    (
        "{\"connect\":[-2,2,-2],\"switch\":1,\"to\":1}",
        "",
        "15 at 0",
    ),
    (
        "[[1,-3,1,-1,1],[1,-3,1,-1,1,-3,1]]",
        "[[1,-3,1,-1,1]]",
        "16 at 1",
    ),
    ("[[1,-3,1,-1,1],", "[[1,-1,1],", "16 at 0"),
    ("[1,2]]", "[1,1]]", "17 at 1"),
    ("\"exponent\":1", "\"exponent\":0", "17 at 2"),
    ("[34,55]", "[34]", "18 at 2"),
    ("[89,34]", "[55,55]", "18 at 3"),
    ("[89,34]", "[3,1]", "18 at 0"),
    ("[144,55]", "[0,55]", "18 at 3"),
];

/// A text, and what is said of it.
const NO_CERTIFICATES: [(&str, &str); 17] = [
    ("", "NotJson"),
    ("{", "NotJson"),
    ("accepted", "NotJson"),
    ("periodic 1\n", "NotJson"),
    ("\n{\"kind\":\"periodic\"", "NotJson"),
    ("one line\nanother\n{}", "NotJson"),
    ("\n[]", "BadShape file"),
    ("{}", "MissingKey kind"),
    (r#"{"kind":"Periodic"}"#, "BadShape kind"),
    (
        r#"{"kind":"periodic","order":01,"paths":[],"reasons":[]}"#,
        "NotJson",
    ),
    (
        r#"{"kind":"periodic","order":-1,"paths":[],"reasons":[]}"#,
        "BadShape order",
    ),
    (
        r#"{"kind":"periodic","order":1.0,"paths":[],"reasons":[]}"#,
        "BadShape order",
    ),
    (
        r#"{"kind":"periodic","order":1,"order":"1"}"#,
        "BadShape order",
    ),
    (
        r#"{"kind":"periodic","coords":["1","0","1"]}"#,
        "MissingKey order",
    ),
    (
        r#"{"kind":"reducible","coords":["1","0",1]}"#,
        "BadShape coords",
    ),
    (
        r#"{"kind":"reducible","coords":["1","","1"]}"#,
        "BadShape coords",
    ),
    (
        r#"{"capped":null,"curves":[],"kind":"unknown","powers":[],"tracks":["cap 01"]}"#,
        "BadShape tracks",
    ),
];

/// What `check` answers for this word and this text.
fn answers(
    rt: &(impl Abort + AllocGlobal),
    word: &str,
    text: &str,
    status: Status,
    printed: &str,
    said: &str,
) -> Result<(), Fail> {
    let alloc = rt.alloc();
    let mut files = BTreeMap::new(alloc);
    files.insert(
        String::from_str(alloc, "c.json")?,
        text.as_bytes().to_vec(alloc)?,
    )?;
    let mut shelf = SureShelf { files };
    let words: &[&str] = &["check", "@S_1_1", word, "c.json"];
    let row: Row = (words, status, printed, said);
    check_sure(rt, &mut shelf, row)
}

/// The line that a rule with its place is refused with.
fn refused(alloc: Global, rule: &str) -> Result<String, Fail> {
    let mut line = String::from_str(alloc, "refused rule ")?;
    line.push_str(rule)?;
    line.push('\n')?;
    Ok(line)
}

#[test]
fn certificates_that_fail(rt: HostRuntime) -> Result<(), Fail> {
    for (word, text, rule) in REFUSED {
        let line = refused(rt.alloc(), rule)?;
        answers(&rt, word, text, Status::RuleFailed, line.as_str(), "")?;
    }
    Ok(())
}

#[test]
fn damaged_tracks(rt: HostRuntime) -> Result<(), Fail> {
    let alloc = rt.alloc();
    answers(&rt, "a.b", TRACK, Status::Done, "accepted\n", "")?;
    for (from, to, rule) in DAMAGED {
        let text = TRACK.replace(alloc, from, to)?;
        let line = refused(alloc, rule)?;
        answers(
            &rt,
            "a.b",
            text.as_str(),
            Status::RuleFailed,
            line.as_str(),
            "",
        )?;
    }
    Ok(())
}

#[test]
fn too_many_flips(rt: HostRuntime) -> Result<(), Fail> {
    let alloc = rt.alloc();
    let mut flips = String::from_str(alloc, "\"flips\":[0")?;
    for _ in 0..64 {
        flips.push_str(",0")?;
    }
    flips.push(']')?;
    let text = TRACK.replace(alloc, "\"flips\":[]", flips.as_str())?;
    let line = "refused rule 12 at 100\n";
    answers(&rt, "a.b", text.as_str(), Status::RuleFailed, line, "")
}

#[test]
fn no_certificates(rt: HostRuntime) -> Result<(), Fail> {
    let alloc = rt.alloc();
    for (text, cause) in NO_CERTIFICATES {
        let mut line = String::from_str(alloc, "error: certificate ")?;
        line.push_str(cause)?;
        line.push('\n')?;
        answers(&rt, "a", text, Status::InputRefused, "", line.as_str())?;
    }
    Ok(())
}

/// A text with a part so often between two others.
fn with_many(
    alloc: Global,
    before: &str,
    part: &str,
    often: usize,
    after: &str,
) -> Result<String, Fail> {
    let mut text = String::from_str(alloc, before)?;
    for _ in 0..often {
        text.push_str(part)?;
    }
    text.push_str(after)?;
    Ok(text)
}

#[test]
fn long_and_deep(rt: HostRuntime) -> Result<(), Fail> {
    let alloc = rt.alloc();
    let failed = Status::InputRefused;
    // a number of a thousand digits is none of 64 bits, nor of a tree
    let order = "{\"kind\":\"periodic\",\"paths\":[],\"reasons\":[],\"order\":";
    let text = with_many(alloc, order, "9", 1_000, "}")?;
    answers(
        &rt,
        "a",
        text.as_str(),
        failed,
        "",
        "error: certificate NotJson\n",
    )?;
    let coords = "{\"kind\":\"reducible\",\"coords\":[\"";
    let text = with_many(alloc, coords, "9", 1_000, "\"]}")?;
    answers(
        &rt,
        "a",
        text.as_str(),
        failed,
        "",
        "error: certificate BadShape coords\n",
    )?;
    // lists in lists
    let text = with_many(alloc, "{\"kind\":", "[", 200, "")?;
    answers(
        &rt,
        "a",
        text.as_str(),
        failed,
        "",
        "error: certificate NotJson\n",
    )?;
    // long lists
    let paths = "{\"kind\":\"periodic\",\"order\":1,\"reasons\":[],\"paths\":[[]";
    let text = with_many(alloc, paths, ",[]", 50_000, "]}")?;
    let refused = Status::RuleFailed;
    answers(
        &rt,
        "a",
        text.as_str(),
        refused,
        "refused rule 2 at 0\n",
        "",
    )?;
    let reasons = "{\"kind\":\"periodic\",\"order\":2,\"paths\":[[],[]],\"reasons\":[[9";
    let text = with_many(alloc, reasons, ",9", 50_000, "]]}")?;
    answers(
        &rt,
        "a",
        text.as_str(),
        refused,
        "refused rule 4 at 1\n",
        "",
    )
}
