//! The candidates for a multicurve that a word fixes, tried in order.
ghost use Rattle.std.specs.Prelude.{◌≡◌, ◌<◌, ◌+◌, ◌*◌, All, IfOk, OnOk, length, map, min};
ghost use Rattle.tri_atlas.specs.Arena.{triangulation};
ghost use Rattle.tri_atlas.specs.Paths.{IsPathIn, moves_of};
ghost use Rattle.multicurve_cert.specs.Candidates.{kinds};
ghost use Rattle.multicurve_cert.specs.CurveAnswers.{IsCurvesAnswer, IsFoundIn};
ghost use Rattle.multicurve_cert.specs.Cycles.{IsCycle, cycle_vector};
ghost use Rattle.multicurve_cert.specs.LastTests.{AreAtBase};
ghost use Rattle.multicurve_cert.specs.inside.Among.{AreKept, IsAnswerAmong};

use crate::candidates::candidate;
use crate::cycle_list::cycles;
use crate::cycle_vectors::cycle_coords;
use crate::images::Images;
use edge_coords::{Coords, CurveLine};
use free_groupoid::Walk;
use ideal_tri::Memory;
use std::alloc::Global;
use tri_atlas::{Atlas, Path};

/// How many candidates there are for each cycle.
const KINDS: usize = 24;

/// What the candidates show.
#[derive(Drop)]
pub enum Curves {
    /// A candidate passes all tests.
    Found {
        /// The first that does, counted from 0.
        number: u32,
        /// Its coordinates at the base.
        coords: Coords,
    },
    /// None does within the budget.
    None {
        /// For each candidate the first test that it fails.
        log: Vec<CurveLine>,
    },
}

/// Tries the candidates for a multicurve that a path from the base to the base fixes, in order, those
/// with numbers below the budget: the first that passes all tests, or for each the first test that it
/// fails.
pub fn search(alloc: Global, atlas: &Atlas, word: &Path, budget: u32) -> Result<Curves, Memory>
    requires path { IsPathIn atlas.now word.now }
    requires start { word.now.start ≡ 0 }
    requires end { word.now.end ≡ 0 }
    ensures answer { IfOk result (IsCurvesAnswer (triangulation atlas.now 0)
        (moves_of atlas.now word.now) budget) }
    ensures found { IfOk result (IsFoundIn atlas.now) }
{
    let cycles = cycles(alloc, atlas.tri(atlas.base()))?;
    let vectors = vectors(alloc, atlas, &cycles)?;
    search_among(alloc, atlas, word, &vectors, budget)
}

/// The coordinates of these cycles.
fn vectors(alloc: Global, atlas: &Atlas, cycles: &[Walk]) -> Result<Vec<Coords>, Memory>
    requires { All (λ w. IsCycle (triangulation atlas.now 0) w.letters) cycles.now }
    ensures value { IfOk result (λ v. map (λ c. c.numbers) v.items
        ≡ map (λ w. cycle_vector (triangulation atlas.now 0) w.letters) cycles.now) }
    ensures here { IfOk result (λ v. All (AreAtBase atlas.now) v.items) }
{
    let mut vectors = Vec::new(alloc);
    for cycle in cycles {
        vectors.push(cycle_coords(atlas, cycle))?;
    }
    Ok(vectors)
}

/// Tries the candidates that are made of these vectors.
pub(crate) fn search_among(
    alloc: Global,
    atlas: &Atlas,
    word: &Path,
    vectors: &[Coords],
    budget: u32,
) -> Result<Curves, Memory>
    requires path { IsPathIn atlas.now word.now }
    requires start { word.now.start ≡ 0 }
    requires end { word.now.end ≡ 0 }
    requires some { 0 < length vectors.now }
    requires here { All (AreAtBase atlas.now) vectors.now }
    ensures answer { IfOk result (IsAnswerAmong (triangulation atlas.now 0)
        (moves_of atlas.now word.now) vectors.now budget) }
    ensures found { IfOk result (IsFoundIn atlas.now) }
{
    let count = candidate_count(vectors.len(), budget);
    let mut kept = Vec::new(alloc);
    let mut log = Vec::new(alloc);
    // n candidates fail
    for n in 0..count {
        keep(alloc, atlas, word, vectors, n as usize, &mut kept)?;
        let place = n as usize % vectors.len();
        let kind = (n as usize / vectors.len()) as u32;
        match candidate(atlas, word, &mut kept[place], kind)? {
            Ok(coords) => return Ok(Curves::Found { number: n, coords }),
            Err(line) => log.push(line)?,
        }
    }
    Ok(Curves::None { log })
}

/// Keeps the vector of candidate n, where no candidate before it has the same.
fn keep(
    alloc: Global,
    atlas: &Atlas,
    word: &Path,
    vectors: &[Coords],
    n: usize,
    kept: &mut Vec<Images>,
) -> Result<(), Memory>
    requires path { IsPathIn atlas.now word.now }
    requires start { word.now.start ≡ 0 }
    requires end { word.now.end ≡ 0 }
    requires here { All (AreAtBase atlas.now) vectors.now }
    requires kept { AreKept atlas.now (moves_of atlas.now word.now) vectors.now n
        kept.old.items }
    ensures { OnOk result (AreKept atlas.now (moves_of atlas.now word.now) vectors.now (n + 1)
        kept.new.items) }
{
    if n < vectors.len() {
        kept.push(Images::new(alloc, atlas, word, vectors[n])?)?;
    }
    Ok(())
}

/// How many candidates of so many vectors there are within the budget.
fn candidate_count(vectors: usize, budget: u32) -> u32
    ensures { result ≡ min budget (kinds * vectors) }
{
    (budget as usize).min(KINDS.saturating_mul(vectors)) as u32
}
