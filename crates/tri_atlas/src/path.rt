//! Paths of moves.
ghost use Rattle.std.specs.Prelude.{◌≡◌, ◌≢◌, [], ◌++◌, All, count_by, map, IfOk, OnOk, OnErr};
ghost use Rattle.tri_atlas.specs.Arena.{Arena, IsTriIn, IsMoveIn, source_of, target_of, step_of};
ghost use Rattle.tri_atlas.specs.Arena.{back};
ghost use Rattle.tri_atlas.specs.Paths.{IsPathIn, empty_path, then_move, joined, inverse_path};
ghost use Rattle.tri_atlas.specs.Paths.{moves_of, is_flip};

use crate::atlas::Atlas;
use crate::handles::{MoveId, TriId};
use ideal_tri::Memory;
use std::alloc::Global;
use std::marker::Model;

/// A list of moves of an atlas, each starting where the one before ended (an encoding in Bell's
/// flipper).
#[derive(Drop)]
pub struct Path {
    start: TriId,
    end: TriId,
    moves: Vec<MoveId>,
}

impl Model for Path {
    ghost use Rattle.tri_atlas.specs.Paths.{MovePath};

    ghost Value = { MovePath };

    ghost view = { λ a. record { start = a.start; end = a.end; moves = a.moves.items } };
}

impl Path {
    /// The path without moves at a triangulation. It takes no memory.
    pub fn new(alloc: Global, at: TriId) -> Path
        ensures { result ≡ empty_path at }
    {
        Path {
            start: at,
            end: at,
            moves: Vec::new(alloc),
        }
    }

    /// Puts a move at the end, from where the path ends. The path is unchanged where memory is
    /// wanting.
    pub fn push(&mut self, atlas: &Atlas, m: MoveId) -> Result<(), Memory>
        requires path { IsPathIn atlas.now self.old }
        requires here { IsMoveIn atlas.now m }
        requires follows { source_of atlas.now m ≡ self.old.end }
        ensures accepted { OnOk result (self.new ≡ then_move self.old m (target_of atlas.now m)) }
        ensures unchanged { OnErr result (self.new ≡ self.old) }
        ensures path { IsPathIn atlas.now self.new }
    {
        self.moves.push(m)?;
        self.end = atlas.target(m);
        Ok(())
    }

    /// Puts the moves of a path at the end, which starts where this one ends. The path is unchanged
    /// where memory is wanting; for no moves none is wanted.
    pub fn append(&mut self, other: &Path) -> Result<(), Memory>
        requires follows { other.now.start ≡ self.old.end }
        ensures accepted { OnOk result (self.new ≡ joined self.old other.now) }
        ensures refused { OnErr result (other.now.moves ≢ []) }
        ensures unchanged { OnErr result (self.new ≡ self.old) }
        ensures path { (arena : Arena) → IsPathIn arena self.old → IsPathIn arena other.now
            → IsPathIn arena self.new }
    {
        extend(&mut self.moves, &other.moves)?;
        self.end = other.end;
        Ok(())
    }

    /// The path backwards, from its end to its start. For no moves no memory is wanted.
    pub fn inverse(&self, alloc: Global, atlas: &Atlas) -> Result<Path, Memory>
        requires { IsPathIn atlas.now self.now }
        ensures accepted { IfOk result (λ p. p ≡ inverse_path self.now) }
        ensures refused { OnErr result (self.now.moves ≢ []) }
        ensures path { IfOk result (IsPathIn atlas.now) }
    {
        let mut moves = backs(alloc, atlas, &self.moves)?;
        moves.reverse();
        Ok(Path {
            start: self.end,
            end: self.start,
            moves,
        })
    }

    /// The moves, in order.
    pub fn moves(&self) -> &[MoveId]
        ensures { result.now ≡ self.now.moves }
    {
        &self.moves
    }

    /// The triangulation where the path starts.
    pub fn start(&self) -> TriId
        ensures { result ≡ self.now.start }
    {
        self.start
    }

    /// The triangulation where the path ends.
    pub fn end(&self) -> TriId
        ensures { result ≡ self.now.end }
    {
        self.end
    }

    /// How many of the moves are flips, forwards or backwards.
    pub fn flips(&self, atlas: &Atlas) -> u64
        requires { IsPathIn atlas.now self.now }
        ensures { result ≡ count_by is_flip (moves_of atlas.now self.now) }
    {
        count_flips(atlas, &self.moves)
    }
}

/// Puts the others at the end. (`Vec::extend_from_slice` doesn't promise that it wants no memory
/// where there are none.)
fn extend(moves: &mut Vec<MoveId>, others: &[MoveId]) -> Result<(), Memory>
    ensures accepted { OnOk result (moves.new.items ≡ moves.old.items ++ others.now) }
    ensures refused { OnErr result (others.now ≢ []) }
    ensures unchanged { OnErr result (moves.new.items ≡ moves.old.items) }
{
    if !others.is_empty() {
        moves.extend_from_slice(others)?;
    }
    Ok(())
}

/// The same moves, each the other way.
fn backs(alloc: Global, atlas: &Atlas, moves: &[MoveId]) -> Result<Vec<MoveId>, Memory>
    requires { All (IsMoveIn atlas.now) moves.now }
    ensures accepted { IfOk result (λ v. v.items ≡ map back moves.now) }
    ensures refused { OnErr result (moves.now ≢ []) }
{
    let mut backs = Vec::new(alloc);
    for m in moves {
        backs.push(atlas.back(*m))?;
    }
    Ok(backs)
}

/// How many of the moves are flips, forwards or backwards.
fn count_flips(atlas: &Atlas, moves: &[MoveId]) -> u64
    requires { All (IsMoveIn atlas.now) moves.now }
    ensures { result ≡ count_by is_flip (map (step_of atlas.now) moves.now) }
{
    let mut flips = 0;
    for m in moves {
        if atlas.is_flip(*m) {
            flips += 1;
        }
    }
    flips
}
