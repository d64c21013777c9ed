// Lists of generators over the once-punctured torus, and over a surface with two folded edges.
use super::*;
use crate::generators::read_generators;
use crate::json::list_in;
use crate::twister_tests::PlusAlone;
use crate::version::Version;
use ideal_tri::Tri;
use indexmap::IndexMap;
use serde_json::Value;
use std::alloc::Global;
use std::test::Fail;
use tri_atlas::Atlas;

const TORUS: [[i32; 3]; 2] = [[0, 1, 2], [-1, -2, -3]];

/// Edge 0 has the first triangle on both its sides, and edge 1 the second.
const FOLDED: [[i32; 3]; 2] = [[0, -1, 2], [1, -2, -3]];

/// How many moves the generator a has, where a list of generators is read over a triangulation.
fn moves_of_a(alloc: Global, triangles: &[[i32; 3]], list: &str) -> Result<usize, SurfaceError> {
    let Ok(tri) = Tri::from_triples(triangles) else {
        return Err(SurfaceError::BadShape(Key::Triangles));
    };
    let Ok(tree) = Value::from_str(alloc, list) else {
        return Err(SurfaceError::NotJson);
    };
    let Some(entries) = list_in(&tree) else {
        return Err(SurfaceError::BadShape(Key::Generators));
    };
    let atlas = Atlas::new(alloc, tri)?;
    let mut s = Surface {
        name: String::new(alloc),
        atlas,
        generators: IndexMap::new(alloc),
    };
    read_generators(alloc, &mut s, Version::One, entries, &mut PlusAlone)?;
    match s.generators.get("a") {
        Some(path) => Ok(path.moves().len()),
        None => Ok(0),
    }
}

#[test]
fn lists(rt: HostRuntime) -> Result<(), Fail> {
    let alloc = rt.alloc();
    for (list, moves) in [
        ("[]", 0),
        (r#"[{"name":"a","flips":[0],"relabel":[2,1,-1]}]"#, 2),
        (
            r#"[{"name":"b","flips":[],"relabel":[1,2,0],"hand":3,"word":"a"},
{"name":"a","relabel":[0,1,2],"flips":[0,0,0,0]}]"#,
            5,
        ),
        (r#"[{"name":"a","twist":[1,1,0],"hand":"plus"}]"#, 0),
    ] {
        assert_eq!(rt; moves_of_a(alloc, &TORUS, list), Ok(moves), "{list}");
    }
    Ok(())
}

/// Lists of one generator over the torus, and its fault.
const FAULTS: [(&str, GeneratorFault); 22] = [
    ("[3]", GeneratorFault::BadShape(Key::Generator)),
    (r#"[{"flips":3}]"#, GeneratorFault::MissingKey(Key::Name)),
    (r#"[{"name":3}]"#, GeneratorFault::BadName),
    (r#"[{"name":"A"}]"#, GeneratorFault::BadName),
    (r#"[{"name":"a"}]"#, GeneratorFault::MissingKey(Key::Flips)),
    (
        r#"[{"name":"a","flips":[0.0]}]"#,
        GeneratorFault::BadShape(Key::Flips),
    ),
    (
        r#"[{"name":"a","flips":[9]}]"#,
        GeneratorFault::MissingKey(Key::Relabel),
    ),
    (
        r#"[{"name":"a","flips":[9],"relabel":{}}]"#,
        GeneratorFault::BadShape(Key::Relabel),
    ),
    (
        r#"[{"name":"a","flips":[0,3],"relabel":[]}]"#,
        GeneratorFault::NotEdge(1),
    ),
    (
        r#"[{"name":"a","flips":[-1],"relabel":[]}]"#,
        GeneratorFault::NotEdge(0),
    ),
    (
        r#"[{"name":"a","flips":[0],"relabel":[2,1]}]"#,
        GeneratorFault::WrongLength(2),
    ),
    (
        r#"[{"name":"a","flips":[0],"relabel":[2,1,-4]}]"#,
        GeneratorFault::NotLabel(2),
    ),
    (
        r#"[{"name":"a","flips":[0],"relabel":[2,1,1]}]"#,
        GeneratorFault::NotBijective(1),
    ),
    (
        r#"[{"name":"a","flips":[0],"relabel":[2,1,0]}]"#,
        GeneratorFault::BreaksTriangle(0),
    ),
    (
        r#"[{"name":"a","twist":3,"flips":[0],"relabel":[2,1,-1]}]"#,
        GeneratorFault::BadShape(Key::Twist),
    ),
    (
        r#"[{"name":"a","twist":[1,-1,0]}]"#,
        GeneratorFault::BadShape(Key::Twist),
    ),
    (
        r#"[{"name":"a","twist":[1]}]"#,
        GeneratorFault::MissingKey(Key::Hand),
    ),
    (
        r#"[{"name":"a","twist":[1],"hand":"left"}]"#,
        GeneratorFault::BadShape(Key::Hand),
    ),
    (
        r#"[{"name":"a","twist":[1],"hand":"plus"}]"#,
        GeneratorFault::WrongLength(1),
    ),
    (
        r#"[{"name":"a","twist":[1,1,1],"hand":"plus"}]"#,
        GeneratorFault::OddTriangle(0),
    ),
    (
        r#"[{"name":"a","twist":[4,1,1],"hand":"minus"}]"#,
        GeneratorFault::LongSide(0),
    ),
    (
        r#"[{"name":"a","twist":[1,1,0],"hand":"minus"}]"#,
        GeneratorFault::NotOneCurve,
    ),
];

#[test]
fn refusals_of_one(rt: HostRuntime) -> Result<(), Fail> {
    let alloc = rt.alloc();
    for (list, fault) in FAULTS {
        let refusal = Err(SurfaceError::Generator { index: 0, fault });
        assert_eq!(rt; moves_of_a(alloc, &TORUS, list), refusal, "{list}");
    }
    Ok(())
}

#[test]
fn refusals_behind_others(rt: HostRuntime) -> Result<(), Fail> {
    let alloc = rt.alloc();
    let list = r#"[{"name":"a","flips":[],"relabel":[0,1,2]},{"name":"a","flips":3}]"#;
    let fault = GeneratorFault::SameName;
    let refusal = Err(SurfaceError::Generator { index: 1, fault });
    assert_eq!(rt; moves_of_a(alloc, &TORUS, list), refusal);
    for (flips, fault) in [
        ("[0]", GeneratorFault::NotFlippable(0)),
        ("[2,2,0]", GeneratorFault::NotFlippable(2)),
        ("[2,0]", GeneratorFault::WrongLength(0)),
    ] {
        let list = format!(in alloc; r#"[{{"name":"a","flips":{flips},"relabel":[]}}]"#)?;
        let refusal = Err(SurfaceError::Generator { index: 0, fault });
        assert_eq!(rt; moves_of_a(alloc, &FOLDED, &list), refusal, "{list}");
    }
    Ok(())
}

#[test]
fn many_flips(rt: HostRuntime) -> Result<(), Fail> {
    let alloc = rt.alloc();
    let mut list = String::from_str(alloc, r#"[{"name":"a","relabel":[0,1,2],"flips":[0"#)?;
    for _ in 1..4096 {
        list.push_str(",0")?;
    }
    let mut longer = String::from_str(alloc, &list)?;
    list.push_str("]}]")?;
    longer.push_str(",9]}]")?;
    assert_eq!(rt; moves_of_a(alloc, &TORUS, &list), Ok(4097));
    let fault = GeneratorFault::TooManyFlips(4097);
    let refusal = Err(SurfaceError::Generator { index: 0, fault });
    assert_eq!(rt; moves_of_a(alloc, &TORUS, &longer), refusal);
    Ok(())
}
