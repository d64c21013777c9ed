//! Texts that are read as certificates, and texts that aren't.
use super::*;
use std::alloc::Global;

/// The text of the certificate that the text is read as, or the refusal.
fn again(alloc: Global, text: &[u8]) -> Result<Vec<u8>, CertError> {
    Ok(write(alloc, &read(alloc, text)?)?)
}

/// Whether this is the refusal.
fn refuses(alloc: Global, text: &str, error: CertError) -> bool {
    matches!(again(alloc, text.as_bytes()), Err(e) if e == error)
}

/// Whether the first text is read as the certificate that the second is the text of.
fn reads(alloc: Global, text: &str, certificate: &str) -> bool {
    match again(alloc, text.as_bytes()) {
        Ok(written) => written.as_slice() == certificate.as_bytes(),
        Err(_) => false,
    }
}

#[test]
fn written_texts(rt: HostRuntime) {
    for text in [
        r#"{"kind":"periodic","order":2,"paths":[[],[-2147483648]],"reasons":[[1,2147483647]]}"#,
        r#"{"coords":["340282366920938463463374607431768211455","0"],"kind":"reducible"}"#,
        concat!(
            r#"{"anchors":[{"connect":[-2,2,-2],"switch":1,"to":-1}],"exponent":4294967295,"#,
            r#""flips":[3],"high":[18446744073709551615,55],"images":[[1,-3],[]],"#,
            r#""kind":"pseudo-anosov","left_out":[2,-3],"low":[89,34],"matrix":[[1,1],[1,2]],"#,
            r#""power":1,"u":[34,55]}"#
        ),
        concat!(
            r#"{"capped":[12,351363],"curves":["overflow","not_multicurve","empty","moved"],"#,
            r#""kind":"unknown","powers":[[1,-1]],"tracks":["two_left_out 3","#,
            r#""vertex_closed 0","cap 262145","no_common 95","illegal 10","#,
            r#""paths_cap 18446744073709551615","not_primitive","no_bounds"]}"#
        ),
        r#"{"capped":null,"curves":[],"kind":"unknown","powers":[],"tracks":[]}"#,
    ] {
        assert!(rt; reads(rt.alloc(), text, text), "{text}");
    }
}

#[test]
fn other_texts(rt: HostRuntime) {
    let zero = r#"{"coords":["0"],"kind":"reducible"}"#;
    let most = r#"{"coords":["340282366920938463463374607431768211455"],"kind":"reducible"}"#;
    for (text, certificate) in [
        (
            "periodic 2\n{\"kind\":\"reducible\",\"coords\":[\"0\"]}\n",
            zero,
        ),
        (
            " \n{\"kind\":\"reducible\",\"x\":1,\"coords\":[\"00\"]}",
            zero,
        ),
        (
            r#"{"kind":"reducible","coords":["340282366920938463463374607431768211456"]}"#,
            most,
        ),
    ] {
        assert!(rt; reads(rt.alloc(), text, certificate), "{text}");
    }
}

#[test]
fn refusals(rt: HostRuntime) {
    for (text, error) in [
        ("", CertError::NotJson),
        ("reducible 1 1 0", CertError::NotJson),
        ("{}{}", CertError::NotJson),
        ("\n[]", CertError::BadShape(CertKey::File)),
        ("{}", CertError::MissingKey(CertKey::Kind)),
        (r#"{"kind":1}"#, CertError::BadShape(CertKey::Kind)),
        (r#"{"kind":"other"}"#, CertError::BadShape(CertKey::Kind)),
        (
            r#"{"kind":"periodic","order":-1}"#,
            CertError::BadShape(CertKey::Order),
        ),
        (
            r#"{"kind":"periodic","order":1.0}"#,
            CertError::BadShape(CertKey::Order),
        ),
        (
            r#"{"kind":"periodic","order":4294967296}"#,
            CertError::BadShape(CertKey::Order),
        ),
        (
            r#"{"kind":"periodic","order":1}"#,
            CertError::MissingKey(CertKey::Paths),
        ),
        (
            r#"{"kind":"reducible","coords":[1]}"#,
            CertError::BadShape(CertKey::Coords),
        ),
        (
            r#"{"kind":"reducible","coords":[""]}"#,
            CertError::BadShape(CertKey::Coords),
        ),
        (
            r#"{"kind":"pseudo-anosov","anchors":[{}]}"#,
            CertError::BadShape(CertKey::Anchors),
        ),
        (
            r#"{"kind":"unknown","capped":[1]}"#,
            CertError::BadShape(CertKey::Capped),
        ),
        (
            r#"{"kind":"unknown","capped":null}"#,
            CertError::MissingKey(CertKey::Curves),
        ),
    ] {
        assert!(rt; refuses(rt.alloc(), text, error), "{text}");
    }
}

/// Lines on candidates for a train track that are none.
#[test]
fn bad_lines(rt: HostRuntime) {
    for line in [
        "cap 01",
        "cap +1",
        "cap ",
        "cap",
        "caps 1",
        "cap 18446744073709551616",
        "no_bounds ",
    ] {
        let text = match format!(in rt.alloc();
            "{{\"kind\":\"unknown\",\"capped\":null,\"curves\":[],\"powers\":[],\"tracks\":[\"{line}\"]}}"
        ) {
            Ok(text) => text,
            Err(_) => return,
        };
        assert!(rt;
            refuses(rt.alloc(), &text, CertError::BadShape(CertKey::Tracks)),
            "{line}"
        );
    }
}
