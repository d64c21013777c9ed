//! The path of a twist.
ghost use Rattle.std.specs.Prelude.{◌≡◌, ◌<◌, ◌^◌, ◌++◌, ℕ, ℤ, List, Ok, Err, IfOk, IfErr, length};
ghost use Rattle.std.specs.Prelude.{All, map};
ghost use Rattle.ideal_tri.specs.Labels.{edge_of};
ghost use Rattle.tri_atlas.specs.Arena.{Arena, triangulation, IsMoveIn, step_of, Grows};
ghost use Rattle.tri_atlas.specs.Moves.{back_along};
ghost use Rattle.tri_atlas.specs.MovedVectors.{flipped_edge};
ghost use Rattle.tri_atlas.specs.Paths.{IsPathIn, moves_of};
ghost use Rattle.edge_coords.specs.Coordinates.{AreCoordinatesIn};
ghost use Rattle.curve_shorten.specs.Twists.{IsAnnulus};
ghost use Rattle.twist_compile.specs.TwistPaths.{IsCompiled, IsCompiledFrom, IsTwistable};
ghost use Rattle.twist_compile.specs.TwistPaths.{exchange_images, hand_moves};
ghost use Rattle.twist_compile.specs.inside.EndSteps.{HasTotalTwo, end_moves, joined_three};
ghost use Rattle.twist_compile.specs.inside.EndSteps.{IsSameRefusal};
ghost use Rattle.surface_lib.specs.declared.twister.Hand.TheVariants.{Plus};

use crate::end_steps::{annulus, end_path, exchange};
use curve_shorten::{Short, ShortError, descend};
use edge_coords::Coords;
use ideal_tri::Memory;
use std::alloc::Global;
use surface_lib::{Hand, TwistError};
use tri_atlas::{Atlas, MoveId, Path, Step, atlas_laws};

/// The steps of the twist of hand plus about a curve.
#[derive(Drop)]
pub struct TwistParts {
    /// The edges flipped by the descent.
    pub down: Vec<u32>,
    /// The edge flipped at its end.
    pub flip: u32,
    /// The images of the labels 0, 1, .. under the relabelling behind that flip.
    pub relabel: Vec<i32>,
}

/// The steps of the twist about a curve. The atlas keeps the triangulations of the descent.
pub fn twist_parts(
    alloc: Global,
    atlas: &mut Atlas,
    curve: &Coords,
) -> Result<TwistParts, TwistError>
    requires { AreCoordinatesIn atlas.old curve.now }
    ensures parts { IfOk result (λ t. IsTwistable (triangulation atlas.old curve.now.tri) curve.now.numbers
        × ((end : List (List ℤ)) × (p : ℤ) × (q : ℤ)
        × IsCompiledFrom (triangulation atlas.old curve.now.tri) curve.now.numbers t.down.items end p q
        × (t.flip ≡ edge_of q) × (t.relabel.items ≡ exchange_images end p q))) }
    ensures refused { IfErr result (λ e.
        IsCompiled (triangulation atlas.old curve.now.tri) curve.now.numbers Plus (Err e)) }
    ensures grows { Grows atlas.old atlas.new }
{
    let short = match descend(alloc, atlas, curve) {
        Ok(short) => short,
        Err(e) => return Err(refusal(e)),
    };
    match parts_of(alloc, atlas, &short) {
        Ok(parts) => Ok(parts),
        Err(Memory) => Err(TwistError::Memory),
    }
}

/// The path of the twist about a curve, from its triangulation back to it. The atlas keeps the
/// triangulations and moves that were added.
pub fn twist(
    alloc: Global,
    atlas: &mut Atlas,
    curve: &Coords,
    hand: Hand,
) -> Result<Path, TwistError>
    requires { AreCoordinatesIn atlas.old curve.now }
    ensures path { IfOk result (IsPathIn atlas.new) }
    ensures start { IfOk result (λ p. p.start ≡ curve.now.tri) }
    ensures end { IfOk result (λ p. p.end ≡ curve.now.tri) }
    ensures short { IfOk result (λ p. length p.moves < 2 ^ 31) }
    ensures compiled { IfOk result (λ p. IsCompiled (triangulation atlas.old curve.now.tri)
        curve.now.numbers hand (Ok (moves_of atlas.new p))) }
    ensures refused { IfErr result (λ e.
        IsCompiled (triangulation atlas.old curve.now.tri) curve.now.numbers hand (Err e)) }
    ensures grows { Grows atlas.old atlas.new }
{
    let short = match descend(alloc, atlas, curve) {
        Ok(short) => short,
        Err(e) => return Err(refusal(e)),
    };
    match path_of(alloc, atlas, &short, hand) {
        Ok(path) => Ok(path),
        Err(Memory) => Err(TwistError::Memory),
    }
}

/// The same refusal, of a twist.
fn refusal(e: ShortError) -> TwistError
    ensures { IsSameRefusal e result }
{
    match e {
        ShortError::TotalOver { total } => TwistError::TotalOver { total },
        ShortError::NotOneCurve => TwistError::NotOneCurve,
        ShortError::Peripheral => TwistError::Peripheral,
        ShortError::Stuck { at } => TwistError::Stuck { at },
        ShortError::Memory => TwistError::Memory,
    }
}

/// The steps of the twist of hand plus behind a descent.
fn parts_of(alloc: Global, atlas: &Atlas, short: &Short) -> Result<TwistParts, Memory>
    requires path { IsPathIn atlas.now short.now.path }
    requires here { AreCoordinatesIn atlas.now short.now.coords }
    requires two { HasTotalTwo (triangulation atlas.now short.now.coords.tri)
        short.now.coords.numbers }
    ensures down { IfOk result (λ t. t.down.items
        ≡ map flipped_edge (moves_of atlas.now short.now.path)) }
    ensures steps { IfOk result (λ t. (p : ℤ) × (q : ℤ)
        × IsAnnulus (triangulation atlas.now short.now.coords.tri) short.now.coords.numbers p q
        × (t.flip ≡ edge_of q)
        × (t.relabel.items
        ≡ exchange_images (triangulation atlas.now short.now.coords.tri) p q)) }
{
    let tri = atlas.tri(short.coords.tri());
    let (p, q) = annulus(tri, short.coords.values());
    Ok(TwistParts {
        down: flipped_edges(alloc, atlas, short.path.moves())?,
        flip: q.edge(),
        relabel: exchange(alloc, tri, p, q)?,
    })
}

/// The edges that flips change, in order.
fn flipped_edges(alloc: Global, atlas: &Atlas, moves: &[MoveId]) -> Result<Vec<u32>, Memory>
    requires { All (IsMoveIn atlas.now) moves.now }
    ensures { IfOk result (λ edges. edges.items
        ≡ map (λ m. flipped_edge (step_of atlas.now m)) moves.now) }
{
    let mut edges = Vec::new(alloc);
    for m in moves {
        edges.push(flipped_edge(atlas, *m))?;
    }
    Ok(edges)
}

/// The edge that a flip changes, and 0 for a relabelling.
fn flipped_edge(atlas: &Atlas, m: MoveId) -> u32
    requires { IsMoveIn atlas.now m }
    ensures { result ≡ flipped_edge (step_of atlas.now m) }
{
    match atlas.step(m) {
        Step::Flip { e, .. } | Step::Unflip { e, .. } => e.edge(),
        Step::Relabel(_) => 0,
    }
}

/// The path of the twist of hand plus behind a descent: down, the two steps at the end, and up again.
fn plus_path(alloc: Global, atlas: &mut Atlas, short: &Short) -> Result<Path, Memory>
    requires path { IsPathIn atlas.old short.now.path }
    requires end { short.now.path.end ≡ short.now.coords.tri }
    requires here { AreCoordinatesIn atlas.old short.now.coords }
    requires two { HasTotalTwo (triangulation atlas.old short.now.coords.tri)
        short.now.coords.numbers }
    ensures path { IfOk result (IsPathIn atlas.new) }
    ensures start { IfOk result (λ p. p.start ≡ short.now.path.start) }
    ensures end { IfOk result (λ p. p.end ≡ short.now.path.start) }
    ensures moves { IfOk result (λ path. (p : ℤ) × (q : ℤ)
        × IsAnnulus (triangulation atlas.old short.now.coords.tri) short.now.coords.numbers p q
        × (moves_of atlas.new path ≡ moves_of atlas.old short.now.path
        ++ end_moves (triangulation atlas.old short.now.coords.tri) p q
        ++ back_along (moves_of atlas.old short.now.path))) }
    ensures grows { Grows atlas.old atlas.new }
{
    atlas_laws();
    let (p, q) = annulus(atlas.tri(short.coords.tri()), short.coords.values());
    let steps = end_path(alloc, atlas, &short.coords, p, q)?;
    // what is true of every atlas
    let _ = atlas.base();
    let up = short.path.inverse(alloc, atlas)?;
    joined_three(alloc, &short.path, &steps, &up)
}

/// Three paths, one after another.
fn joined_three(alloc: Global, first: &Path, second: &Path, third: &Path) -> Result<Path, Memory>
    requires second { second.now.start ≡ first.now.end }
    requires third { third.now.start ≡ second.now.end }
    ensures accepted { IfOk result (λ p. p ≡ joined_three first.now second.now third.now) }
    ensures path { IfOk result (λ p. (arena : Arena) → IsPathIn arena first.now
        → IsPathIn arena second.now → IsPathIn arena third.now → IsPathIn arena p) }
{
    let mut path = Path::new(alloc, first.start());
    path.append(first)?;
    path.append(second)?;
    path.append(third)?;
    Ok(path)
}

/// The path of hand plus, or the path backwards for hand minus.
fn of_hand(alloc: Global, atlas: &Atlas, path: Path, hand: Hand) -> Result<Path, Memory>
    requires path { IsPathIn atlas.now path }
    requires round { path.end ≡ path.start }
    ensures path { IfOk result (IsPathIn atlas.now) }
    ensures start { IfOk result (λ p. p.start ≡ path.start) }
    ensures end { IfOk result (λ p. p.end ≡ path.start) }
    ensures moves { IfOk result (λ p. moves_of atlas.now p
        ≡ hand_moves hand (moves_of atlas.now path)) }
{
    atlas_laws();
    // what is true of every atlas
    let _ = atlas.base();
    match hand {
        Hand::Plus => Ok(path),
        Hand::Minus => path.inverse(alloc, atlas),
    }
}

/// The path of the twist behind a descent.
fn path_of(alloc: Global, atlas: &mut Atlas, short: &Short, hand: Hand) -> Result<Path, Memory>
    requires path { IsPathIn atlas.old short.now.path }
    requires end { short.now.path.end ≡ short.now.coords.tri }
    requires here { AreCoordinatesIn atlas.old short.now.coords }
    requires two { HasTotalTwo (triangulation atlas.old short.now.coords.tri)
        short.now.coords.numbers }
    ensures path { IfOk result (IsPathIn atlas.new) }
    ensures start { IfOk result (λ p. p.start ≡ short.now.path.start) }
    ensures end { IfOk result (λ p. p.end ≡ short.now.path.start) }
    ensures moves { IfOk result (λ path. (p : ℤ) × (q : ℤ)
        × IsAnnulus (triangulation atlas.old short.now.coords.tri) short.now.coords.numbers p q
        × (moves_of atlas.new path ≡ hand_moves hand
        (moves_of atlas.old short.now.path
        ++ end_moves (triangulation atlas.old short.now.coords.tri) p q
        ++ back_along (moves_of atlas.old short.now.path)))) }
    ensures grows { Grows atlas.old atlas.new }
{
    let path = plus_path(alloc, atlas, short)?;
    of_hand(alloc, atlas, path, hand)
}
