//! The last tests of a candidate, however it was made.
ghost use Rattle.std.specs.Prelude.{◌≡◌, ◌↔◌, IfOk, IfErr, OnOk, IsTrue};
ghost use Rattle.ideal_tri.specs.PeripheralParts.{stripped};
ghost use Rattle.tri_atlas.specs.Arena.{triangulation};
ghost use Rattle.tri_atlas.specs.Paths.{IsPathIn, moves_of};
ghost use Rattle.multicurve_cert.specs.Candidates.{IsNothing};
ghost use Rattle.multicurve_cert.specs.LastTests.{AreAtBase, IsLastLine, IsStripped, PassesLast};

use crate::power_law::power_laws;
use edge_coords::{Coords, CurveLine};
use tri_atlas::{Atlas, Path};

/// Takes the curves round vertices off a multicurve at the base, and tests whether what is left is
/// fixed by a path from the base to the base: what is left, where it is, and else the first test that
/// it fails. `Empty`: nothing is left. `Overflow`: its image reaches 2^126 at some move. `Moved`: the
/// image is another.
pub fn test_fixed(atlas: &Atlas, word: &Path, made: Coords) -> Result<Coords, CurveLine>
    requires path { IsPathIn atlas.now word.now }
    requires start { word.now.start ≡ 0 }
    requires end { word.now.end ≡ 0 }
    requires here { AreAtBase atlas.now made }
    ensures numbers { IfOk result (λ c. c.numbers
        ≡ stripped (triangulation atlas.now 0) made.numbers) }
    ensures stripped { IfOk result (IsStripped atlas.now) }
    ensures passes { OnOk result (PassesLast (triangulation atlas.now 0)
        (moves_of atlas.now word.now) (stripped (triangulation atlas.now 0) made.numbers)) }
    ensures line { IfErr result (IsLastLine (triangulation atlas.now 0)
        (moves_of atlas.now word.now) (stripped (triangulation atlas.now 0) made.numbers)) }
{
    power_laws(atlas, word);
    let mut rest = made;
    rest.strip_peripheral(atlas);
    if is_nothing(&rest) {
        return Err(CurveLine::Empty);
    }
    let mut image = rest;
    match image.follow(atlas, word) {
        Ok(()) => {}
        Err(_) => return Err(CurveLine::Overflow),
    }
    if image.values() != rest.values() {
        return Err(CurveLine::Moved);
    }
    Ok(rest)
}

/// Whether all numbers are 0.
fn is_nothing(c: &Coords) -> bool
    ensures { IsTrue result ↔ IsNothing c.now.numbers }
{
    c.values().iter().all(|n| *n == 0)
}
