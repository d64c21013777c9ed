// Relations of the Dehn twists of surface files (Farb and Margalit, chapters 3 and 4): twists about
// disjoint curves commute, twists about curves that cross once braid, and products along chains and
// in a lantern are twists about curves round them. Two words are compared by the images of many
// vectors.
ghost use Rattle.std.specs.Prelude.{◌≡◌};
ghost use Rattle.edge_coords.specs.Coordinates.{AreCoordinatesIn};
ghost use Rattle.surface_lib.specs.Surfaces.{IsSurface, IsLoop};

use crate::Compiler;
use edge_coords::Coords;
use std::alloc::AllocGlobal;
use std::process::Abort;
use std::test::Fail;
use surface_lib::{Surface, read_surface, read_word};
use tri_atlas::{Path, atlas_laws};

/// The file `surfaces/s12.json`: the torus with two punctures.
const S12: &str = r#"{"format":"flipper-surface","version":1,"name":"S_1_2",
 "triangles":[[4,-4,5],[1,-5,-3],[0,-6,2],[-1,-2,3]],
 "generators":[{"name":"a","twist":[1,1,1,0,0,0],"hand":"plus"},
               {"name":"b","twist":[1,0,0,1,0,1],"hand":"plus"},
               {"name":"c","twist":[0,1,0,1,1,0],"hand":"plus"},
               {"name":"d","twist":[0,0,1,0,1,1],"hand":"plus"}]}
"#;

/// The file `surfaces/s21.json`: the surface of genus two with one puncture.
const S21: &str = r#"{"format":"flipper-surface","version":1,"name":"S_2_1",
 "triangles":[[0,1,-5],[2,3,-6],[-1,-2,-7],[-3,-4,-8],[4,5,-9],[8,6,7]],
 "generators":[{"name":"c1","twist":[0,0,1,1,0,0,0,0,0],"hand":"plus"},
               {"name":"c2","twist":[0,0,0,1,0,1,0,1,1],"hand":"plus"},
               {"name":"c3","twist":[0,1,0,0,1,0,1,0,1],"hand":"plus"},
               {"name":"c4","twist":[1,1,0,0,0,0,0,0,0],"hand":"plus"},
               {"name":"c5","twist":[0,1,1,1,1,0,1,2,1],"hand":"plus"},
               {"name":"c0","twist":[0,1,1,1,1,2,1,0,1],"hand":"plus"}]}
"#;

/// The file `surfaces/s05.json`: the sphere with five punctures.
const S05: &str = r#"{"format":"flipper-surface","version":1,"name":"S_0_5",
 "triangles":[[-1,2,-6],[-4,-9,4],[6,-2,7],[3,-3,-8],[-5,8,1],[-7,0,5]],
 "generators":[{"name":"a","twist":[0,1,0,1,1,0,0,1,0],"hand":"plus"},
               {"name":"b","twist":[0,0,1,0,0,1,1,1,0],"hand":"plus"},
               {"name":"c","twist":[1,1,1,1,1,0,1,0,0],"hand":"plus"},
               {"name":"d","twist":[1,1,1,1,0,0,1,0,1],"hand":"plus"},
               {"name":"e","twist":[0,1,1,1,0,1,1,0,1],"hand":"plus"},
               {"name":"f","twist":[1,1,0,1,1,1,2,1,0],"hand":"plus"}]}
"#;

/// A surface file, a word of it whose powers stretch curves more and more, and vectors: the curves
/// of its generators, and others. Then pairs of words: alike on all multicurves, and not alike.
#[derive(Clone, Copy)]
struct Tried<'a> {
    file: &'a str,
    stretching: &'a str,
    vectors: &'a [&'a [u128]],
    alike: &'a [(&'a str, &'a str)],
    unlike: &'a [(&'a str, &'a str)],
}

/// The curves round a chain of three run round the punctures.
const TORUS: Tried = Tried {
    file: S12,
    stretching: "a.C.b.D",
    vectors: &[
        &[1, 1, 1, 0, 0, 0],
        &[1, 0, 0, 1, 0, 1],
        &[0, 1, 0, 1, 1, 0],
        &[0, 0, 1, 0, 1, 1],
        &[2, 2, 2, 2, 2, 2],
    ],
    alike: &[
        ("a.b", "b.a"),
        ("c.d", "d.c"),
        ("a.c.a", "c.a.c"),
        ("a.d.a", "d.a.d"),
        ("b.c.b", "c.b.c"),
        ("b.d.b", "d.b.d"),
        ("(a.c.b)^4", ""),
        ("(c.a.d)^4", ""),
        ("d", "b.A.c.a.B"),
    ],
    unlike: &[("a.c", "c.a"), ("(a.c.b)^2", ""), ("(c.a.d)^2", "")],
};

/// The curve round c1 and c2 is crossed by c3 alone, and those round the two longest chains run
/// round the puncture or round nothing.
const GENUS_TWO: Tried = Tried {
    file: S21,
    stretching: "c0.C1.c2.C3.c4.C5",
    vectors: &[
        &[0, 0, 1, 1, 0, 0, 0, 0, 0],
        &[0, 0, 0, 1, 0, 1, 0, 1, 1],
        &[0, 1, 0, 0, 1, 0, 1, 0, 1],
        &[1, 1, 0, 0, 0, 0, 0, 0, 0],
        &[0, 1, 1, 1, 1, 0, 1, 2, 1],
        &[0, 1, 1, 1, 1, 2, 1, 0, 1],
        &[0, 0, 2, 2, 0, 2, 0, 2, 2],
    ],
    alike: &[
        ("c1.c2.c1", "c2.c1.c2"),
        ("c2.c3.c2", "c3.c2.c3"),
        ("c3.c4.c3", "c4.c3.c4"),
        ("c4.c5.c4", "c5.c4.c5"),
        ("c4.c0.c4", "c0.c4.c0"),
        ("c1.c3", "c3.c1"),
        ("c1.c4", "c4.c1"),
        ("c1.c5", "c5.c1"),
        ("c1.c0", "c0.c1"),
        ("c2.c4", "c4.c2"),
        ("c2.c5", "c5.c2"),
        ("c2.c0", "c0.c2"),
        ("c3.c5", "c5.c3"),
        ("c3.c0", "c0.c3"),
        ("c5.c0", "c0.c5"),
        ("(c1.c2.c3)^4", "c5.c0"),
        ("(c1.c2.c3.c4)^10", ""),
        ("(c1.c2.c3.c4.c5)^6", ""),
        ("(c1.c2.c3.c4)^5.c0", "c5.(c1.c2.c3.c4)^5"),
        ("(c1.c2)^6.c1", "c1.(c1.c2)^6"),
        ("(c1.c2)^6.c2", "c2.(c1.c2)^6"),
        ("(c1.c2)^6.c4", "c4.(c1.c2)^6"),
        ("(c1.c2)^6.c5", "c5.(c1.c2)^6"),
        ("(c1.c2)^6.c0", "c0.(c1.c2)^6"),
    ],
    unlike: &[
        ("c5", "c0"),
        ("(c1.c2.c3.c4)^5", ""),
        ("(c1.c2.c3.c4)^2", ""),
        ("(c1.c2.c3.c4.c5)^3", ""),
        ("(c1.c2.c3.c4.c5)^2", ""),
        ("(c1.c2)^6", ""),
        ("(c1.c2)^6.c3", "c3.(c1.c2)^6"),
    ],
};

/// Of the four curves that bound the part of the sphere where b, c and f run, all but a run round
/// punctures.
const SPHERE: Tried = Tried {
    file: S05,
    stretching: "a.D.b.C.e",
    vectors: &[
        &[0, 1, 0, 1, 1, 0, 0, 1, 0],
        &[0, 0, 1, 0, 0, 1, 1, 1, 0],
        &[1, 1, 1, 1, 1, 0, 1, 0, 0],
        &[1, 1, 1, 1, 0, 0, 1, 0, 1],
        &[0, 1, 1, 1, 0, 1, 1, 0, 1],
        &[1, 1, 0, 1, 1, 1, 2, 1, 0],
    ],
    alike: &[
        ("a.b", "b.a"),
        ("a.c", "c.a"),
        ("b.e", "e.b"),
        ("c.d", "d.c"),
        ("d.e", "e.d"),
        ("b.c.f", "a"),
        ("c.f.b", "a"),
    ],
    unlike: &[("c.b.f", "a"), ("a.d", "d.a"), ("a.d.a", "d.a.d")],
};

/// How many images of a vector under powers of the stretching word are compared.
const IMAGES: usize = 10;

/// Whether a vector has the same image under two paths of a surface.
fn is_alike(s: &Surface, left: &Path, right: &Path, v: &Coords) -> bool
    requires surface { IsSurface s.now }
    requires left { IsLoop s.now.atlas left.now }
    requires right { IsLoop s.now.atlas right.now }
    requires here { AreCoordinatesIn s.now.atlas v.now }
    requires base { v.now.tri ≡ 0 }
{
    let mut x = *v;
    let mut y = *v;
    x.follow(&s.atlas, left).is_ok() && y.follow(&s.atlas, right).is_ok() && x == y
}

/// Whether a vector, and its images under powers of a stretching path, have the same images under
/// two paths.
fn are_alike(s: &Surface, left: &Path, right: &Path, stretching: &Path, numbers: &[u128]) -> bool
    requires surface { IsSurface s.now }
    requires left { IsLoop s.now.atlas left.now }
    requires right { IsLoop s.now.atlas right.now }
    requires stretching { IsLoop s.now.atlas stretching.now }
{
    atlas_laws();
    let Ok(start) = Coords::new(&s.atlas, s.atlas.base(), numbers) else {
        return false;
    };
    let mut v = start;
    for _ in 0..IMAGES {
        if !is_alike(s, left, right, &v) {
            return false;
        }
        if v.follow(&s.atlas, stretching).is_err() {
            return false;
        }
    }
    true
}

/// Whether two words of a surface have the same images of its vectors, and of their images under
/// powers of the stretching word.
fn agree(
    rt: &(impl Abort + AllocGlobal),
    tried: &Tried,
    left: &str,
    right: &str,
) -> Result<bool, Fail> {
    let s = read_surface(rt.alloc(), tried.file.as_bytes(), &mut Compiler)?;
    let left = read_word(rt.alloc(), &s, left)?;
    let right = read_word(rt.alloc(), &s, right)?;
    let stretching = read_word(rt.alloc(), &s, tried.stretching)?;
    for numbers in tried.vectors {
        if !are_alike(&s, &left, &right, &stretching, numbers) {
            return Ok(false);
        }
    }
    Ok(true)
}

/// Pairs of words that are alike agree, and those that aren't don't.
fn check(rt: &(impl Abort + AllocGlobal), tried: &Tried) -> Result<(), Fail> {
    for (left, right) in tried.alike {
        assert!(rt; agree(rt, tried, left, right)?, "{left}");
    }
    for (left, right) in tried.unlike {
        assert!(rt; !agree(rt, tried, left, right)?, "{left}");
    }
    Ok(())
}

#[test]
fn torus(rt: HostRuntime) -> Result<(), Fail> {
    check(&rt, &TORUS)
}

#[test]
fn genus_two(rt: HostRuntime) -> Result<(), Fail> {
    check(&rt, &GENUS_TWO)
}

#[test]
fn sphere(rt: HostRuntime) -> Result<(), Fail> {
    check(&rt, &SPHERE)
}

/// Whether a word keeps a vector.
fn is_kept(
    rt: &(impl Abort + AllocGlobal),
    file: &str,
    word: &str,
    numbers: &[u128],
) -> Result<bool, Fail> {
    atlas_laws();
    let s = read_surface(rt.alloc(), file.as_bytes(), &mut Compiler)?;
    let path = read_word(rt.alloc(), &s, word)?;
    let v = Coords::new(&s.atlas, s.atlas.base(), numbers)?;
    let mut moved = v;
    Ok(moved.follow(&s.atlas, &path).is_ok() && moved == v)
}

// The curve cuts off a torus with the curves of c1 and c2.
#[test]
fn curve_round_two(rt: HostRuntime) -> Result<(), Fail> {
    let round = [0, 0, 2, 2, 0, 2, 0, 2, 2];
    for word in ["(c1.c2)^6", "c1", "c2", "c4", "c5", "c0"] {
        assert!(rt; is_kept(&rt, S21, word, &round)?, "{word}");
    }
    assert!(rt; !is_kept(&rt, S21, "c3", &round)?);
    Ok(())
}
