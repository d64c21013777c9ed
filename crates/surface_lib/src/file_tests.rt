// Surface files, and the built-in surfaces.
use super::*;
use crate::twister_tests::PlusAlone;
use std::alloc::{AllocError, Global};
use std::test::Fail;

/// The three-punctured sphere.
const SPHERE: &str = "[[0,1,2],[-1,-3,-2]]";

/// Two of them.
const SPHERES: &str = "[[0,1,2],[-1,-3,-2],[3,4,5],[-4,-6,-5]]";

/// The rotation of one.
const TURN: &str = r#"{"name":"r","flips":[],"relabel":[1,2,0]}"#;

/// The twist about a curve round one of its vertices.
const TWIST: &str = r#"{"name":"t","twist":[1,1,0],"hand":"plus"}"#;

fn file_of(
    alloc: Global,
    version: u8,
    triangles: &str,
    generators: &str,
) -> Result<String, AllocError> {
    format!(in alloc;
        r#"{{"name":"S_0_3","format":"flipper-surface","triangles":{triangles},"other":[],
"generators":[{generators}],"version":{version}}}"#
    )
}

fn refusal_of(alloc: Global, file: &str) -> Option<SurfaceError> {
    read_surface(alloc, file.as_bytes(), &mut PlusAlone).err()
}

#[test]
fn reads_files(rt: HostRuntime) -> Result<(), Fail> {
    let alloc = rt.alloc();
    for (version, triangles, generators, edges, count) in [
        (1, SPHERE, TURN, 3, 1),
        (1, SPHERE, TWIST, 3, 1),
        (2, SPHERE, "", 3, 0),
        (2, SPHERES, "", 6, 0),
    ] {
        let file = file_of(alloc, version, triangles, generators)?;
        let s = read_surface(alloc, file.as_bytes(), &mut PlusAlone)
            .ok()
            .expect(&rt, "a surface");
        let base = s.atlas.base();
        assert_eq!(rt; s.name.as_str(), "S_0_3");
        assert_eq!(rt; s.atlas.tri(base).edges(), edges);
        assert_eq!(rt; s.generators.len(), count);
    }
    Ok(())
}

#[test]
fn refuses_triangles_and_generators(rt: HostRuntime) -> Result<(), Fail> {
    let alloc = rt.alloc();
    let turned = SurfaceError::Generator {
        index: 0,
        fault: GeneratorFault::BreaksTriangle(0),
    };
    for (version, triangles, generators, refusal) in [
        (3, SPHERE, TURN, SurfaceError::BadShape(Key::Version)),
        (
            1,
            "[[0,1,2.0],[-1,-3,-2]]",
            "3",
            SurfaceError::BadShape(Key::Triangles),
        ),
        (1, "[]", "3", SurfaceError::NoTriangle),
        (1, "[[0,1,2],[-1,-3,3]]", TURN, SurfaceError::LabelRange(3)),
        (
            2,
            "[[0,1,2],[-1,-3,-3]]",
            TURN,
            SurfaceError::LabelTwice(-3),
        ),
        (1, SPHERES, TURN, SurfaceError::Disconnected(2)),
        (
            1,
            SPHERE,
            r#"{"name":"r","flips":[],"relabel":[0,2,1]}"#,
            turned,
        ),
    ] {
        let file = file_of(alloc, version, triangles, generators)?;
        assert_eq!(rt; refusal_of(alloc, &file), Some(refusal), "{file}");
    }
    Ok(())
}

#[test]
fn refuses_shapes(rt: HostRuntime) {
    let alloc = rt.alloc();
    for (file, refusal) in [
        ("", SurfaceError::NotJson),
        ("{}}", SurfaceError::NotJson),
        ("[]", SurfaceError::BadShape(Key::File)),
        (r#"{"version":3}"#, SurfaceError::MissingKey(Key::Format)),
        (
            r#"{"format":"flipper-Surface"}"#,
            SurfaceError::BadShape(Key::Format),
        ),
        (
            r#"{"format":"flipper-surface","version":1.0}"#,
            SurfaceError::BadShape(Key::Version),
        ),
        (
            r#"{"format":"flipper-surface","version":2,"name":"a b"}"#,
            SurfaceError::BadShape(Key::Name),
        ),
        (
            r#"{"format":"flipper-surface","version":2,"name":"a","generators":3}"#,
            SurfaceError::MissingKey(Key::Triangles),
        ),
        (
            r#"{"format":"flipper-surface","version":2,"name":"a","triangles":[[0]],"generators":3}"#,
            SurfaceError::BadShape(Key::Triangles),
        ),
        (
            r#"{"format":"flipper-surface","version":2,"name":"a","triangles":[],"generators":3}"#,
            SurfaceError::BadShape(Key::Generators),
        ),
    ] {
        assert_eq!(rt; refusal_of(alloc, file), Some(refusal), "{file}");
    }
}

/// At most 64 generators; they are counted before the first of them is read.
#[test]
fn counts_generators(rt: HostRuntime) -> Result<(), Fail> {
    let alloc = rt.alloc();
    let mut generators = String::from_str(alloc, "3")?;
    for _ in 0..64 {
        generators.push_str(",3")?;
    }
    let file = file_of(alloc, 1, SPHERE, &generators)?;
    assert_eq!(rt;
        refusal_of(alloc, &file),
        Some(SurfaceError::TooManyGenerators(65))
    );
    Ok(())
}

#[test]
fn long_files(rt: HostRuntime) -> Result<(), Fail> {
    let alloc = rt.alloc();
    let mut file = file_of(alloc, 1, SPHERE, TURN)?;
    let mut spaces = String::from_str(alloc, " ")?;
    for _ in 0..20 {
        let again = spaces.clone()?;
        spaces.push_str(&again)?;
    }
    assert_eq!(rt; spaces.len(), 1_048_576);
    assert_eq!(rt; refusal_of(alloc, &spaces), Some(SurfaceError::NotJson));
    file.push_str(&spaces)?;
    assert_eq!(rt; refusal_of(alloc, &file), Some(SurfaceError::FileTooLong));
    Ok(())
}

/// How many generators a built-in surface has, and moves those with this name.
fn moves_in(alloc: Global, surface: &str, name: &str) -> Result<(usize, usize), BuiltinError> {
    let s = builtin(alloc, surface)?;
    let moves = match s.generators.get(name) {
        Some(path) => path.moves().len(),
        None => 0,
    };
    Ok((s.generators.len(), moves))
}

#[test]
fn built_in(rt: HostRuntime) {
    let alloc = rt.alloc();
    for (surface, name, found) in [
        ("S_1_1", "a", Ok((2, 2))),
        ("S_1_1", "b", Ok((2, 2))),
        ("S_0_3", "r", Ok((1, 1))),
        ("S_0_4", "r", Ok((1, 1))),
        ("S_1_2", "a", Err(BuiltinError::UnknownBuiltin)),
    ] {
        assert_eq!(rt; moves_in(alloc, surface, name), found, "{surface} {name}");
    }
}
