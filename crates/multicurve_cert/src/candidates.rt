//! One candidate: how it is made of the images of a cycle, and its tests.
ghost use Rattle.std.specs.Prelude.{◌≡◌, ◌≤◌, ◌<◌, true, false, length, IfOk, IfErr, OnOk};
ghost use Rattle.tri_atlas.specs.Arena.{triangulation};
ghost use Rattle.tri_atlas.specs.Paths.{IsPathIn, moves_of};
ghost use Rattle.multicurve_cert.specs.Candidates.{kinds, is_sum, lower, upper, needed, IsLineOf};
ghost use Rattle.multicurve_cert.specs.inside.Images.{AreImages, AreImagesOf, first_of};
ghost use Rattle.multicurve_cert.specs.inside.Tested.{IsPassing, IsPutTogether};

use crate::images::Images;
use crate::last_tests::test_fixed;
use crate::power_law::power_laws;
use edge_coords::{Coords, CurveLine};
use ideal_tri::Memory;
use tri_atlas::{Atlas, Path};

/// The kinds below this are sums.
const SUMS: u32 = 8;

/// The candidate of this kind, where it passes all tests, or the first test that it fails.
pub(crate) fn candidate(
    atlas: &Atlas,
    word: &Path,
    images: &mut Images,
    kind: u32,
) -> Result<Result<Coords, CurveLine>, Memory>
    requires path { IsPathIn atlas.now word.now }
    requires start { word.now.start ≡ 0 }
    requires end { word.now.end ≡ 0 }
    requires kind { kind < kinds }
    requires images { AreImages atlas.now (moves_of atlas.now word.now) images.old.ended
        images.old.list.items }
    ensures images { OnOk result (AreImages atlas.now (moves_of atlas.now word.now)
        images.new.ended images.new.list.items) }
    ensures first { OnOk result (first_of images.new.list.items
        ≡ first_of images.old.list.items) }
    ensures passing { IfOk result (λ r. IfOk r (IsPassing atlas.now (moves_of atlas.now word.now)
        (first_of images.old.list.items) kind)) }
    ensures line { IfOk result (λ r. IfErr r (IsLineOf (triangulation atlas.now 0)
        (moves_of atlas.now word.now) (first_of images.old.list.items) kind)) }
{
    power_laws(atlas, word);
    let number = needed(kind);
    images.extend(atlas, word, number)?;
    if images.list.len() <= number {
        return Ok(Err(CurveLine::Overflow));
    }
    Ok(outcome(atlas, word, &images.list, kind))
}

/// The candidate or the first test that it fails, where all images that it needs are there.
fn outcome(atlas: &Atlas, word: &Path, list: &[Coords], kind: u32) -> Result<Coords, CurveLine>
    requires path { IsPathIn atlas.now word.now }
    requires start { word.now.start ≡ 0 }
    requires end { word.now.end ≡ 0 }
    requires kind { kind < kinds }
    requires images { AreImagesOf atlas.now (moves_of atlas.now word.now) (first_of list.now)
        list.now }
    requires enough { needed kind < length list.now }
    ensures passing { IfOk result (IsPassing atlas.now (moves_of atlas.now word.now)
        (first_of list.now) kind) }
    ensures line { IfErr result (IsLineOf (triangulation atlas.now 0)
        (moves_of atlas.now word.now) (first_of list.now) kind) }
{
    match put_together(atlas, word, list, kind) {
        Ok(made) => test_fixed(atlas, word, made),
        Err(line) => Err(line),
    }
}

/// How many images the candidate needs.
fn needed(kind: u32) -> usize
    requires { kind < kinds }
    ensures value { result ≡ needed kind }
    ensures few { result < 64 }
{
    if kind < SUMS {
        kind as usize
    } else {
        upper(kind)
    }
}

/// Which image is taken away.
fn lower(kind: u32) -> usize
    requires difference { is_sum kind ≡ false }
    requires kind { kind < kinds }
    ensures value { result ≡ lower kind }
    ensures few { result ≤ 8 }
{
    match (kind - SUMS) / 4 {
        0 => 1,
        1 => 2,
        2 => 4,
        _ => 8,
    }
}

/// From which image it is taken away.
fn upper(kind: u32) -> usize
    requires difference { is_sum kind ≡ false }
    requires kind { kind < kinds }
    ensures value { result ≡ upper kind }
    ensures few { result < 64 }
{
    lower(kind) + (1 + (kind - SUMS) as usize % 4)
}

/// The sum or the difference.
fn put_together(atlas: &Atlas, word: &Path, list: &[Coords], kind: u32) -> Result<Coords, CurveLine>
    requires kind { kind < kinds }
    requires images { AreImagesOf atlas.now (moves_of atlas.now word.now) (first_of list.now)
        list.now }
    requires enough { needed kind < length list.now }
    ensures made { IfOk result (IsPutTogether atlas.now (moves_of atlas.now word.now)
        (first_of list.now) kind) }
    ensures line { IfErr result (IsLineOf (triangulation atlas.now 0)
        (moves_of atlas.now word.now) (first_of list.now) kind) }
{
    if kind < SUMS {
        sum(atlas, word, list, kind)
    } else {
        difference(atlas, word, list, kind)
    }
}

/// The sum of the vector and its first images.
fn sum(atlas: &Atlas, word: &Path, list: &[Coords], kind: u32) -> Result<Coords, CurveLine>
    requires sum { is_sum kind ≡ true }
    requires images { AreImagesOf atlas.now (moves_of atlas.now word.now) (first_of list.now)
        list.now }
    requires enough { kind < length list.now }
    ensures made { IfOk result (IsPutTogether atlas.now (moves_of atlas.now word.now)
        (first_of list.now) kind) }
    ensures line { IfErr result (IsLineOf (triangulation atlas.now 0)
        (moves_of atlas.now word.now) (first_of list.now) kind) }
{
    // what is true of every atlas
    let _ = atlas.base();
    let mut sum = list[0];
    for k in 0..kind as usize {
        match sum.try_add(&list[k + 1]) {
            Ok(()) => {}
            Err(_) => return Err(CurveLine::Overflow),
        }
    }
    Ok(sum)
}

/// The difference of two images.
fn difference(atlas: &Atlas, word: &Path, list: &[Coords], kind: u32) -> Result<Coords, CurveLine>
    requires difference { is_sum kind ≡ false }
    requires kind { kind < kinds }
    requires images { AreImagesOf atlas.now (moves_of atlas.now word.now) (first_of list.now)
        list.now }
    requires enough { upper kind < length list.now }
    ensures made { IfOk result (IsPutTogether atlas.now (moves_of atlas.now word.now)
        (first_of list.now) kind) }
    ensures line { IfErr result (IsLineOf (triangulation atlas.now 0)
        (moves_of atlas.now word.now) (first_of list.now) kind) }
{
    let mut rest = list[upper(kind)];
    match rest.try_sub(atlas, &list[lower(kind)]) {
        Ok(()) => Ok(rest),
        Err(_) => Err(CurveLine::NotMulticurve),
    }
}
