//! Walks on the dual graph of a triangulation.
ghost use Rattle.std.specs.Prelude.{◌≡◌, ◌≢◌, ◌<◌, ◌↔◌, [], length, IsTrue, IfOk, IfErr, All};
ghost use Rattle.ideal_tri.specs.Words.{IsRotation};
ghost use Rattle.ideal_tri.specs.Triangulations.{IsLabel};
ghost use Rattle.ideal_tri.specs.Peripheral.{IsPeripheral};
ghost use Rattle.free_groupoid.specs.Walks.{DualWalk, IsWalkOn, IsClosedOn, reduced_walk};
ghost use Rattle.free_groupoid.specs.Walks.{cyclically_reduced_walk};
ghost use Rattle.free_groupoid.specs.WalkRefusals.{IsRefusedFor};
ghost use Rattle.free_groupoid.specs.inside.Turns.{turn_of, TurnsEach};

use crate::word;
use ideal_tri::{Label, Tri, letter_laws, surface_laws, word_laws};
use std::alloc::{AllocError, Global};
use std::marker::Model;

/// A walk on the dual graph of a triangulation: each letter `x` is a step across an edge, from the
/// triangle of `x` to that of the inverse of `x`, and each starts where the one before ended.
#[derive(Debug, Drop)]
pub struct Walk {
    /// The number of the triangle where the walk starts.
    pub start: u32,
    /// The labels of the edges crossed, in order, each as seen from the triangle that is left.
    pub letters: Vec<Label>,
}

/// Why letters are no walk.
#[derive(Clone, Copy, Debug, PartialEq, Eq)]
pub enum WalkError {
    /// The place of the first letter that is no label, or doesn't start where the walk stands.
    NotComposable(u64),
    /// No memory was found.
    Memory,
}

impl From<AllocError> for WalkError {
    ghost use Rattle.free_groupoid.specs.declared.walk.WalkError.TheVariants.{Memory};

    ghost from_gives = { λ _ e. e ≡ Memory };

    fn from(_: AllocError) -> WalkError {
        WalkError::Memory
    }
}

impl Model for Walk {
    ghost use Rattle.free_groupoid.specs.Walks.{DualWalk};

    ghost Value = { DualWalk };

    ghost view = { λ a. record { start = a.start; letters = a.letters.items } };
}

impl Walk {
    /// The walk of these letters from the triangle `start`.
    pub fn new(alloc: Global, tri: &Tri, start: u32, letters: &[Label]) -> Result<Walk, WalkError>
        requires { start < length tri.now }
        ensures accepted { IfOk result (λ w. IsWalkOn tri.now w × (w
            ≡ record { start = start; letters = letters.now })) }
        ensures refused { IfErr result (IsRefusedFor tri.now (record {
          start = start;
          letters =
              letters.now;
        })) }
    {
        let mut stand = start;
        for (i, x) in letters.iter().enumerate() {
            if x.edge() >= tri.edges() || tri.place(*x).0 != stand {
                return Err(WalkError::NotComposable(i as u64));
            }
            stand = tri.place(x.inverse()).0;
        }
        Ok(Walk {
            start,
            letters: Vec::from_slice(alloc, letters)?,
        })
    }

    /// Deletes neighbours `x` and the inverse of `x` until there are none.
    pub fn reduce(&mut self)
        ensures { self.new ≡ reduced_walk self.old }
    {
        word::reduce(&mut self.letters);
    }

    /// Deletes such neighbours, and such pairs at the two ends of the walk, which is to be closed.
    /// The walk then starts where the letters that are left start.
    pub fn cyclic_reduce(&mut self, tri: &Tri)
        requires { IsClosedOn tri.now self.old }
        ensures value { self.new ≡ cyclically_reduced_walk tri.now self.old }
        ensures closed { IsClosedOn tri.now self.new }
    {
        prove!(self.start < tri.triangles());
        surface_laws();
        word_laws();
        word::cyclic_reduce(&mut self.letters);
        if let Some(x) = self.letters.first() {
            self.start = tri.place(*x).0;
        }
    }
}

/// Whether the letters of the second walk are those of the first, begun at another of their places.
/// For closed walks the letters decide, since a letter fixes its triangle.
pub fn is_rotation(v: &Walk, w: &Walk) -> bool
    ensures { IsTrue result ↔ IsRotation v.now.letters w.now.letters }
{
    word::is_rotation(&v.letters, &w.letters)
}

/// Whether a closed walk runs round one vertex: at each triangle it leaves by the side after the
/// one it entered by, or at each by the side before it.
pub fn is_peripheral(tri: &Tri, w: &Walk) -> bool
    requires { IsClosedOn tri.now w.now }
    ensures { IsTrue result ↔ IsPeripheral tri.now w.now.letters }
{
    surface_laws();
    turns(tri, &w.letters, true) || turns(tri, &w.letters, false)
}

/// Whether a closed word is not empty and turns on at each triangle, or back at each.
fn turns(tri: &Tri, letters: &[Label], on: bool) -> bool
    requires { All (IsLabel tri.now) letters.now }
    ensures { IsTrue result ↔ ((letters.now ≢ []) × TurnsEach tri.now on letters.now) }
{
    letter_laws();
    let count = letters.len();
    if count == 0 {
        return false;
    }
    let mut last = letters[count - 1];
    for x in letters {
        if *x != turn(tri, last, on) {
            return false;
        }
        last = *x;
    }
    true
}

/// The letter after `x` where a walk turns on, or back.
fn turn(tri: &Tri, x: Label, on: bool) -> Label
    requires { IsLabel tri.now x }
    ensures { result ≡ turn_of tri.now on x }
{
    let next = tri.next(x.inverse());
    if on { next } else { tri.next(next) }
}
