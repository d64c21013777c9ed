//! Labels: the two directions of each edge.
ghost use Rattle.std.specs.Prelude.{◌≡◌};
ghost use Rattle.ideal_tri.specs.Labels.{inverse, edge_of, with_sign_of};

use std::marker::Model;

/// A directed edge of a triangulation (after Bell's flipper): edge `n` has the labels `n` and
/// `-1 - n`. Labels mean nothing without their triangulation.
#[derive(Clone, Copy, Debug, Default, PartialEq, Eq)]
pub struct Label(i32);

impl Model for Label {
    ghost use Rattle.std.specs.Prelude.{ℤ};

    ghost Value = { ℤ };

    ghost view = { λ a. a.0 };

    ghost inverse = { λ z. record { 0 = z } };
}

impl Label {
    /// The label with this number: `n` or `-1 - n` for edge `n`.
    pub fn new(number: i32) -> Label
        ensures { result ≡ number }
    {
        Label(number)
    }

    /// The number of the label.
    pub fn get(self) -> i32
        ensures { result ≡ self }
    {
        self.0
    }

    /// The same edge in the other direction, `-1 - x`.
    pub fn inverse(self) -> Label
        ensures { result ≡ inverse self }
    {
        Label(-1 - self.0)
    }

    /// The number of the edge: the one of `x` and `-1 - x` that isn't negative.
    pub fn edge(self) -> u32
        ensures { result ≡ edge_of self }
    {
        let x = self.0;
        let number = if x < 0 { -1 - x } else { x };
        number as u32
    }

    /// The label itself, or its inverse where the number of `sign` is negative.
    pub fn with_sign_of(self, sign: Label) -> Label
        ensures value { result ≡ with_sign_of sign self }
        ensures edge { edge_of result ≡ edge_of self }
    {
        if sign.0 < 0 { self.inverse() } else { self }
    }
}
