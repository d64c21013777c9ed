//! Faults at each call in turn, limits, and one test of each form over the system.
ghost use Rattle.std.specs.Prelude.{◌<◌};

use crate::*;
use std::alloc::{AllocError, Global};
use std::collections::BTreeMap;
use std::test::Fail;
use std::{fs, process};

const SEVEN: &[u8] = b"abcdefg";

/// A shelf with the seven bytes under the name "x". The call with this number fails.
fn shelf(alloc: Global, fails: u64, most: usize) -> Result<BoxShelf, AllocError>
    requires { 0 < most }
{
    let mut files = BTreeMap::new(alloc);
    let held = Held {
        bytes: SEVEN.to_vec(alloc)?,
        faults: 0,
    };
    files.insert(String::from_str(alloc, "x")?, held)?;
    Ok(BoxShelf {
        files,
        calls: 0,
        fails: vec![in alloc; fails]?,
        most,
    })
}

fn sink(alloc: Global, fails: u64, most: usize, room: usize) -> Result<VecSink, AllocError>
    requires { 0 < most }
{
    Ok(VecSink {
        bytes: Vec::with_capacity(alloc, room)?,
        calls: 0,
        fails: vec![in alloc; fails]?,
        faults: 0,
        most,
    })
}

#[test]
fn a_read_fails_exactly_where_the_shelf_does(rt: HostRuntime) -> Result<(), Fail> {
    let alloc = rt.alloc();
    // How many calls read the seven bytes and their end, at one byte a call, at two, and so on.
    for (i, &calls) in [8u64, 5, 4, 3, 3, 3, 2, 2].iter().enumerate() {
        for fails in 1..=9 {
            let mut shelf = shelf(alloc, fails, i + 1)?;
            let read = read_all(alloc, &mut shelf, "x", 7);
            let failed = fails <= calls;
            match &read {
                Ok(bytes) => assert_eq!(rt; (bytes.as_slice(), failed), (SEVEN, false)),
                Err(e) => assert_eq!(rt; (*e, failed), (ReadError::Failed, true)),
            }
            assert_eq!(rt; shelf.calls, fails.min(calls));
            let counted =
                matches!(shelf.files.get("x"), Some(held) if (held.faults == 1) == failed);
            assert!(rt; counted);
        }
    }
    let mut five = shelf(alloc, 9, 5)?;
    assert!(rt; matches!(read_all(alloc, &mut five, "y", 7), Err(ReadError::Absent)));
    assert!(rt; matches!(read_all(alloc, &mut five, "x", 7), Ok(bytes) if bytes.len() == 7));
    assert!(rt; matches!(read_all(alloc, &mut five, "x", 6), Err(ReadError::TooLong)));
    Ok(())
}

#[test]
fn a_sink_takes_exactly_a_prefix(rt: HostRuntime) -> Result<(), Fail> {
    let alloc = rt.alloc();
    for most in 1..9usize {
        for fails in 1..9usize {
            let mut sink = sink(alloc, fails as u64, most, 7)?;
            let taken = (fails - 1).saturating_mul(most).min(7);
            let written = write_all(&mut sink, SEVEN);
            assert_eq!(rt; written.is_ok(), taken == 7);
            assert_eq!(rt; sink.bytes.as_slice(), &SEVEN[..taken]);
            assert_eq!(rt; sink.faults == 1, taken < 7);
        }
    }
    for room in 0..9usize {
        let mut sink = sink(alloc, 9, 2, room)?;
        let written = write_all(&mut sink, SEVEN);
        assert_eq!(rt; written.is_ok(), room >= 7);
        assert_eq!(rt; sink.bytes.as_slice(), &SEVEN[..room.min(7)]);
    }
    Ok(())
}

#[test]
fn sure_forms_never_fail(rt: HostRuntime) -> Result<(), Fail> {
    let alloc = rt.alloc();
    let long = vec![in alloc; 7u8; 10_000]?;
    let mut files = BTreeMap::new(alloc);
    files.insert(String::from_str(alloc, "long")?, long)?;
    let mut shelf = SureShelf { files };
    let whole = read_all(alloc, &mut shelf, "long", 10_000);
    assert!(rt;
        matches!(&whole, Ok(v) if v.len() == 10_000 && v.as_slice().iter().all(|&b| b == 7))
    );
    assert!(rt;
        matches!(
            read_all(alloc, &mut shelf, "long", 9_999),
            Err(ReadError::TooLong)
        )
    );
    assert!(rt;
        matches!(
            read_all(alloc, &mut shelf, "short", 9),
            Err(ReadError::Absent)
        )
    );
    let mut sink = SureSink {
        bytes: Vec::with_capacity(alloc, 3)?,
        dropped: false,
    };
    for (bytes, kept, dropped) in [("ab", "ab", false), ("cd", "abc", true), ("e", "abc", true)] {
        assert!(rt; write_all(&mut sink, bytes.as_bytes()).is_ok());
        assert_eq!(rt; sink.bytes.as_slice(), kept.as_bytes());
        assert_eq!(rt; sink.dropped, dropped);
    }
    Ok(())
}

#[test]
fn the_system_has_long_files(rt: HostRuntime) -> Result<(), Fail> {
    let alloc = rt.alloc();
    let name = format!(in alloc; "/tmp/flip_io-long-{}", process::id(rt.process()))?;
    // No two blocks of 4096 bytes are alike, and the last one is short.
    let mut text = String::new(alloc);
    for n in 0..3_000 {
        write!(text, "{n} ")?;
    }
    let long = text.as_bytes();
    fs::write(&rt, &name, long)?;
    let words = Vec::new(alloc);
    let mut shelf = DirShelf::new(&rt, words.as_slice());
    let whole = read_all(alloc, &mut shelf, &name, 13_890);
    let longer = read_all(alloc, &mut shelf, &name, 13_889);
    fs::remove_file(&rt, &name)?;
    assert_eq!(rt; long.len(), 13_890);
    assert!(rt; matches!(&whole, Ok(bytes) if bytes.as_slice() == long));
    assert!(rt; matches!(longer, Err(ReadError::TooLong)));
    Ok(())
}

#[test]
fn the_system_has_files(rt: HostRuntime) -> Result<(), Fail> {
    let alloc = rt.alloc();
    let name = format!(in alloc; "/tmp/flip_io-{}", process::id(rt.process()))?;
    fs::write(&rt, &name, "bytes")?;
    let words = Vec::new(alloc);
    let mut shelf = DirShelf::new(&rt, words.as_slice());
    let whole = read_all(alloc, &mut shelf, &name, 5);
    let long = read_all(alloc, &mut shelf, &name, 4);
    fs::remove_file(&rt, &name)?;
    assert!(rt; matches!(&whole, Ok(bytes) if bytes.as_slice() == b"bytes".as_slice()));
    assert!(rt; matches!(long, Err(ReadError::TooLong)));
    assert!(rt;
        matches!(
            read_all(alloc, &mut shelf, &name, 5),
            Err(ReadError::Absent)
        )
    );
    assert!(rt; matches!(read_all(alloc, &mut shelf, "/", 5), Err(ReadError::Failed)));
    Ok(())
}

#[test]
fn the_system_takes_output(rt: HostRuntime) -> Result<(), Fail> {
    let mut out = StdSink::new(rt.stdout());
    assert!(rt; write_all(&mut out, b"out").is_ok());
    Ok(())
}
