// Words over the once-punctured torus, in two generators that each flip edge 0 and relabel.
ghost use Rattle.std.specs.Prelude.{◌≡◌, ◌<◌, length, IfOk, IfSome};
ghost use Rattle.tri_atlas.specs.Paths.{MovePath};
ghost use Rattle.surface_lib.specs.Surfaces.{IsLoop, IsSurface};

use super::*;
use crate::product::product_path;
use crate::refused::Refused;
use flip_move::flip;
use ideal_tri::{Memory, Tri};
use indexmap::IndexMap;
use relabel::{Relabelling, push};
use serde_json::Value;
use std::alloc::{AllocGlobal, Global};
use std::process::Abort;
use std::test::Fail;
use tri_atlas::{Atlas, Path, atlas_laws};

/// Flips edge 0 of the base and relabels back to the base; nothing where that can't be done.
fn flip_and_relabel(
    alloc: Global,
    atlas: &mut Atlas,
    images: &[i32],
) -> Result<Option<Path>, Memory>
    ensures closed { IfOk result (λ found. IfSome found (IsLoop atlas.new)) }
    ensures short { IfOk result (λ found. IfSome found (λ p. length p.moves < 3)) }
    ensures kept { IfOk result (λ _. (p : MovePath) → IsLoop atlas.old p → IsLoop atlas.new p) }
{
    atlas_laws();
    let base = atlas.base();
    let Some(e) = atlas.edge(base, 0) else {
        return Ok(None);
    };
    let Ok(first) = flip(atlas, e) else {
        return Err(Memory);
    };
    let after = atlas.target(first);
    let Ok(images) = Relabelling::from_list(atlas.tri(after), atlas.tri(base), images) else {
        return Err(Memory);
    };
    let second = push(atlas, after, base, &images)?;
    let mut path = Path::new(alloc, base);
    path.push(atlas, first)?;
    path.push(atlas, second)?;
    Ok(Some(path))
}

/// How many moves the path of a word has.
fn moves_of(alloc: Global, s: &Surface, word: &str) -> Result<usize, WordError>
    requires { IsSurface s.now }
{
    let path = read_word(alloc, s, word)?;
    Ok(path.moves().len())
}

/// The torus with the generators a and b.
fn torus(rt: &(impl Abort + AllocGlobal)) -> Result<Surface, Fail>
    ensures { IfOk result IsSurface }
{
    let alloc = rt.alloc();
    let torus = Tri::from_triples(&[[0, 1, 2], [-1, -2, -3]])?;
    let mut atlas = Atlas::new(alloc, torus)?;
    let a = flip_and_relabel(alloc, &mut atlas, &[2, 1, -1])?.expect(rt, "a path");
    let b = flip_and_relabel(alloc, &mut atlas, &[-2, -1, 2])?.expect(rt, "a path");
    let name = String::from_str(alloc, "S_1_1")?;
    let mut s = Surface {
        name,
        atlas,
        generators: IndexMap::new(alloc),
    };
    s.insert(alloc, "a", a)?;
    s.insert(alloc, "b", b)?;
    Ok(s)
}

#[test]
fn words(rt: HostRuntime) -> Result<(), Fail> {
    let alloc = rt.alloc();
    let s = torus(&rt)?;
    for (word, moves) in [
        ("", Ok(0)),
        ("a.b", Ok(4)),
        ("(a.B)^-6", Ok(24)),
        ("a^4096", Ok(8192)),
        ("(a.b)^91", Ok(364)),
        (
            "(((((((()^4096)^4096)^4096)^4096)^4096)^4096)^4096)^4096",
            Ok(0),
        ),
        ("(((((((((", Err(WordError::BadGroup(8))),
        ("(a.b", Err(WordError::BadGroup(4))),
        ("\u{e9}(", Err(WordError::BadGroup(3))),
        ("a..b", Err(WordError::EmptyPart(1))),
        ("a.c", Err(WordError::UnknownName(1))),
        ("AB", Err(WordError::UnknownName(0))),
        ("\u{e9}", Err(WordError::UnknownName(0))),
        ("(a)b", Err(WordError::BadPower(0))),
        ("a.(b.b)^0", Err(WordError::BadPower(1))),
        ("a^4097", Err(WordError::BadPower(0))),
        ("(a.b)^4096", Err(WordError::PartsOver(8192))),
        ("((a)^4096)^4096", Err(WordError::PartsOver(16_777_216))),
    ] {
        assert_eq!(rt; moves_of(alloc, &s, word), moves, "{word}");
    }
    let mut long = String::from_str(alloc, "a")?;
    let mut open = String::from_str(alloc, "")?;
    for _ in 0..4096 {
        long.push_str(".a")?;
        open.push_str("((((((((((((((((((((((((")?;
    }
    assert_eq!(rt;
        moves_of(alloc, &s, &long),
        Err(WordError::WordTooLong(4097))
    );
    assert_eq!(rt; moves_of(alloc, &s, &open), Err(WordError::BadGroup(8)));
    Ok(())
}

/// How many moves the path of a product has.
fn moves_of_product(alloc: Global, s: &Surface, entry: &Value) -> Result<usize, Refused>
    requires { IsSurface s.now }
{
    let path = product_path(alloc, s, entry)?;
    Ok(path.moves().len())
}

#[test]
fn products(rt: HostRuntime) -> Result<(), Fail> {
    let alloc = rt.alloc();
    let s = torus(&rt)?;
    for (entry, moves) in [
        ("{\"word\": \"(a.B)^3\"}", Ok(12)),
        ("{\"word\": \"\"}", Ok(0)),
        (
            "{\"word\": [\"a\"]}",
            Err(Refused::Fault(GeneratorFault::BadShape(Key::Word))),
        ),
        (
            "{\"word\": \"a.c\"}",
            Err(Refused::Fault(GeneratorFault::Word(WordError::UnknownName(1)))),
        ),
    ] {
        let value = Value::from_str(alloc, entry)?;
        assert_eq!(rt; moves_of_product(alloc, &s, &value), moves, "{entry}");
    }
    Ok(())
}
