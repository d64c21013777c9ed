//! Coordinates across moves and along paths.
//!
//! A flip gives its edge the greater of the two sums of opposite sides of its quadrilateral, less
//! the edge's number (Mosher; Penner and Harer), and a relabelling moves the numbers. So the
//! numbers that a path gives are the crossings of the images of the curves, cyclically reduced.
ghost use Rattle.std.specs.Prelude.{◌≡◌, ◌<◌, ◌≤◌, ◌+◌, ℕ, ℤ, suc, length, take, drop, map};
ghost use Rattle.std.specs.Prelude.{count_by, slice_set, All, IsTrue, IfOk, IfErr, OnOk, OnErr};
ghost use Rattle.ideal_tri.specs.Labels.{edge_of};
ghost use Rattle.ideal_tri.specs.Triangulations.{edge_count};
ghost use Rattle.ideal_tri.specs.Vectors.{weight};
ghost use Rattle.tri_atlas.specs.Moves.{relabel};
ghost use Rattle.tri_atlas.specs.Maps.{image_of_letter, path_map};
ghost use Rattle.tri_atlas.specs.Arena.{triangulation, IsMoveIn, source_of, target_of, step_of};
ghost use Rattle.tri_atlas.specs.Paths.{IsPathIn, moves_of, is_flip};
ghost use Rattle.tri_atlas.specs.Steps.{move_of};
ghost use Rattle.tri_atlas.specs.MovedVectors.{flipped_number, vector_after, vector_along, move_at};
ghost use Rattle.tri_atlas.specs.MovedVectors.{IsOver, OverflowsAt};
ghost use Rattle.tri_atlas.specs.VectorLaws.{MovedLaws, AlongLaws, OverflowLaws};
ghost use Rattle.edge_coords.specs.Coordinates.{AreCoordinatesIn, AreSmall};
ghost use Rattle.edge_coords.specs.MovedCoordinates.{moved_by, moved_along, IsImage, IsOverflowOf};
ghost use Rattle.edge_coords.specs.MovedCoordinates.{IsFirstOverflow, IsOverflowAlong};
ghost use Rattle.edge_coords.specs.inside.Steps.{IsFlipOf, IsRelabellingOf, IsStepOf};

use crate::coords::{COORDINATE_LIMIT, Coords, weight};
use ideal_tri::{EDGES, Label, label_laws, relabelling_laws, surface_laws};
use tri_atlas::{Atlas, MoveId, Path, Step, atlas_laws, vector_laws};

/// A number of 2^126 or more, that was to stand at an edge.
#[derive(Clone, Copy, Debug, PartialEq, Eq)]
pub struct Overflow {
    /// The edge.
    pub edge: u32,
    /// The number.
    pub value: u128,
}

/// The first flip of a path that gives its edge a number of 2^126 or more.
#[derive(Clone, Copy, Debug, PartialEq, Eq)]
pub struct OverflowAt {
    /// Which of the flips of the path it is, forwards and backwards, counted from 1.
    pub flip: u64,
    /// The edge.
    pub edge: u32,
    /// The number.
    pub value: u128,
}

impl Coords {
    /// Takes the multicurve across a move from its triangulation. `Overflow` exactly where the new
    /// number of a flip is 2^126 or more; the coordinates are unchanged then.
    pub fn apply_move(&mut self, atlas: &Atlas, m: MoveId) -> Result<(), Overflow>
        requires coordinates { AreCoordinatesIn atlas.now self.old }
        requires here { IsMoveIn atlas.now m }
        requires starts { source_of atlas.now m ≡ self.old.tri }
        ensures moved { OnOk result (self.new ≡ moved_by atlas.now m self.old) }
        ensures image { OnOk result (IsImage (triangulation atlas.now self.old.tri)
            self.old.numbers (image_of_letter (step_of atlas.now m))
            (triangulation atlas.now self.new.tri) self.new.numbers) }
        ensures fits { OnOk result
            (¬ IsOver COORDINATE_LIMIT (step_of atlas.now m) self.old.numbers) }
        ensures refused { IfErr result (IsOverflowOf (step_of atlas.now m) self.old.numbers) }
        ensures unchanged { OnErr result (self.new ≡ self.old) }
        ensures here { AreCoordinatesIn atlas.now self.new }
    {
        move_law(atlas, m, self);
        self.step(&atlas.step(m))?;
        self.tri = atlas.target(m);
        Ok(())
    }

    /// Takes the multicurve along a path from its triangulation. `OverflowAt` names the first flip,
    /// forwards or backwards, whose new number is 2^126 or more: exactly where the image of the
    /// multicurve first has such a number after a flip. The coordinates are unchanged then.
    pub fn follow(&mut self, atlas: &Atlas, p: &Path) -> Result<(), OverflowAt>
        requires coordinates { AreCoordinatesIn atlas.now self.old }
        requires path { IsPathIn atlas.now p.now }
        requires starts { p.now.start ≡ self.old.tri }
        ensures moved { OnOk result (self.new ≡ moved_along atlas.now p.now self.old) }
        ensures image { OnOk result (IsImage (triangulation atlas.now self.old.tri)
            self.old.numbers (path_map (moves_of atlas.now p.now))
            (triangulation atlas.now self.new.tri) self.new.numbers) }
        ensures fits { OnOk result ((k : ℕ) → ¬ OverflowsAt COORDINATE_LIMIT
            (triangulation atlas.now self.old.tri) self.old.numbers (moves_of atlas.now p.now) k) }
        ensures refused { IfErr result (IsOverflowAlong (triangulation atlas.now self.old.tri)
            self.old.numbers (moves_of atlas.now p.now)) }
        ensures unchanged { OnErr result (self.new ≡ self.old) }
        ensures here { AreCoordinatesIn atlas.now self.new }
    {
        path_law(atlas, p, self);
        *self = self.along(atlas, p)?;
        Ok(())
    }

    /// The coordinates at the end of a path.
    fn along(&self, atlas: &Atlas, p: &Path) -> Result<Coords, OverflowAt>
        requires coordinates { AreCoordinatesIn atlas.now self.now }
        requires path { IsPathIn atlas.now p.now }
        requires starts { p.now.start ≡ self.now.tri }
        ensures moved { IfOk result (λ c. c ≡ moved_along atlas.now p.now self.now) }
        ensures fits { OnOk result ((k : ℕ) → k < length (moves_of atlas.now p.now)
            → ¬ IsOver COORDINATE_LIMIT (move_at (moves_of atlas.now p.now) k)
            (vector_along (take k (moves_of atlas.now p.now)) self.now.numbers)) }
        ensures refused { IfErr result
            (IsFirstOverflow self.now.numbers (moves_of atlas.now p.now)) }
        ensures here { IfOk result (AreCoordinatesIn atlas.now) }
    {
        next_law(atlas, p, self);
        let moves = p.moves();
        let mut moved = *self;
        for (k, m) in moves.iter().enumerate() {
            if let Err(overflow) = moved.apply_move(atlas, *m) {
                return Err(OverflowAt {
                    flip: flips(atlas, &moves[..k + 1]),
                    edge: overflow.edge,
                    value: overflow.value,
                });
            }
        }
        Ok(moved)
    }

    /// Takes the numbers across a move.
    fn step(&mut self, step: &Step) -> Result<(), Overflow>
        requires { IsStepOf self.old.numbers (move_of (length self.old.numbers) step.now) }
        ensures moved { OnOk result (self.new ≡ record {
          tri = self.old.tri;
          numbers = vector_after (move_of (length self.old.numbers) step.now) self.old.numbers;
        }) }
        ensures fits { OnOk result (¬ IsOver COORDINATE_LIMIT
            (move_of (length self.old.numbers) step.now) self.old.numbers) }
        ensures refused { IfErr result
            (IsOverflowOf (move_of (length self.old.numbers) step.now) self.old.numbers) }
        ensures unchanged { OnErr result (self.new ≡ self.old) }
    {
        match step {
            Step::Flip { e, a, b, c, d } | Step::Unflip { e, a, b, c, d } => {
                self.flip(*e, *a, *b, *c, *d)
            }
            Step::Relabel(images) => {
                relabel(&mut self.numbers, self.count as usize, images);
                Ok(())
            }
        }
    }

    /// Gives the edge of a flip with these sides its new number.
    fn flip(&mut self, e: Label, a: Label, b: Label, c: Label, d: Label) -> Result<(), Overflow>
        requires { IsFlipOf self.old.numbers e a b c d }
        ensures flipped { OnOk result (self.new ≡ record {
          tri = self.old.tri;
          numbers = slice_set self.old.numbers (edge_of e)
              (flipped_number self.old.numbers e a b c d);
        }) }
        ensures fits { OnOk result
            (flipped_number self.old.numbers e a b c d < COORDINATE_LIMIT) }
        ensures edge { IfErr result (λ o. o.edge ≡ edge_of e) }
        ensures value { IfErr result (λ o. o.value ≡ flipped_number self.old.numbers e a b c d) }
        ensures over { IfErr result (λ o. COORDINATE_LIMIT ≤ o.value) }
        ensures unchanged { OnErr result (self.new ≡ self.old) }
    {
        let value = flipped_number(self.values(), e, a, b, c, d);
        if value >= COORDINATE_LIMIT {
            return Err(Overflow {
                edge: e.edge(),
                value,
            });
        }
        self.numbers[e.edge() as usize] = value;
        Ok(())
    }
}

/// The number that a flip with these sides gives its edge.
fn flipped_number(w: &[u128], e: Label, a: Label, b: Label, c: Label, d: Label) -> u128
    requires small { AreSmall w.now }
    requires flip { IsFlipOf w.now e a b c d }
    ensures { result ≡ flipped_number w.now e a b c d }
{
    let first = weight(w, a) + weight(w, c);
    let second = weight(w, b) + weight(w, d);
    first.max(second) - weight(w, e)
}

/// Moves the number of each edge to the edge of its image. Only the first `count` numbers and
/// images count.
fn relabel(numbers: &mut [u128; EDGES], count: usize, images: &[Label; EDGES])
    requires few { count ≤ EDGES }
    requires small { AreSmall (take count numbers.old) }
    requires relabelling { IsRelabellingOf (take count numbers.old) (take count images.now) }
    ensures moved { take count numbers.new
        ≡ vector_after (relabel (take count images.now)) (take count numbers.old) }
    ensures small { AreSmall (take count numbers.new) }
    ensures rest { drop count numbers.new ≡ drop count numbers.old }
    ensures room { length numbers.new ≡ EDGES }
{
    let before = *numbers;
    for k in 0..count {
        numbers[images[k].edge() as usize] = before[k];
    }
}

/// What is proved of a move from the triangulation of a multicurve.
fn move_law(atlas: &Atlas, m: MoveId, w: &Coords)
    requires coordinates { AreCoordinatesIn atlas.now w.now }
    requires here { IsMoveIn atlas.now m }
    requires starts { source_of atlas.now m ≡ w.now.tri }
    ensures step { IsStepOf w.now.numbers (step_of atlas.now m) }
    ensures moved { MovedLaws (triangulation atlas.now w.now.tri)
        (triangulation atlas.now (target_of atlas.now m)) (step_of atlas.now m) w.now.numbers }
{
    // what is true of every atlas
    let _ = atlas.base();
    label_laws();
    surface_laws();
    relabelling_laws();
    atlas_laws();
    vector_laws();
}

/// What is proved of the numbers along a path, one move after another.
fn next_law(atlas: &Atlas, p: &Path, w: &Coords)
    ensures { (k : ℕ) → k < length (moves_of atlas.now p.now)
        → vector_along (take (suc k) (moves_of atlas.now p.now)) w.now.numbers
        ≡ vector_after (move_at (moves_of atlas.now p.now) k)
        (vector_along (take k (moves_of atlas.now p.now)) w.now.numbers) }
{
    vector_laws();
}

/// What is proved of a path from the triangulation of a multicurve.
fn path_law(atlas: &Atlas, p: &Path, w: &Coords)
    requires coordinates { AreCoordinatesIn atlas.now w.now }
    requires path { IsPathIn atlas.now p.now }
    requires starts { p.now.start ≡ w.now.tri }
    ensures along { AlongLaws (triangulation atlas.now w.now.tri)
        (triangulation atlas.now p.now.end) (moves_of atlas.now p.now) w.now.numbers }
    ensures overflow { OverflowLaws (triangulation atlas.now w.now.tri)
        (moves_of atlas.now p.now) w.now.numbers COORDINATE_LIMIT }
{
    // what is true of every atlas
    let _ = atlas.base();
    atlas_laws();
    vector_laws();
}

/// How many of the moves are flips, forwards or backwards.
fn flips(atlas: &Atlas, moves: &[MoveId]) -> u64
    requires { All (IsMoveIn atlas.now) moves.now }
    ensures { result ≡ count_by is_flip (map (step_of atlas.now) moves.now) }
{
    let mut flips = 0;
    for m in moves {
        if is_flip(&atlas.step(*m)) {
            flips += 1;
        }
    }
    flips
}

/// Whether a move is a flip, forwards or backwards.
fn is_flip(step: &Step) -> bool
    ensures { (n : ℕ) → result ≡ is_flip (move_of n step.now) }
{
    !matches!(step, Step::Relabel(_))
}
