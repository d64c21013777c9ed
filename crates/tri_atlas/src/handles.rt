//! Handles of the triangulations, edges and moves of an atlas.
ghost use Rattle.std.specs.Prelude.{◌≡◌};

use ideal_tri::Label;
use std::marker::Model;

/// A triangulation of an atlas, by its number. Only an atlas makes one.
#[derive(Clone, Copy, Debug, PartialEq, Eq)]
pub struct TriId(pub(crate) usize);

impl Model for TriId {
    ghost use Rattle.std.specs.Prelude.{ℕ};

    ghost Value = { ℕ };

    ghost view = { λ a. a.0 };

    ghost inverse = { λ n. record { 0 = n } };
}

/// A directed edge of a triangulation of an atlas. A flip reuses the number of an edge, so that a
/// label means nothing without its triangulation: only an atlas makes these, and `Atlas::carry`
/// alone brings one across a move.
#[derive(Clone, Copy, Debug, PartialEq, Eq)]
pub struct EdgeId {
    pub(crate) tri: TriId,
    pub(crate) label: Label,
}

impl Model for EdgeId {
    ghost use Rattle.tri_atlas.specs.Arena.{EdgeHandle};

    ghost Value = { EdgeHandle };

    ghost view = { λ a. record { tri = a.tri; label = a.label } };

    ghost inverse = { λ e. record { tri = e.tri; label = e.label } };
}

impl EdgeId {
    /// The triangulation that the edge belongs to.
    pub fn tri(self) -> TriId
        ensures { result ≡ self.tri }
    {
        self.tri
    }

    /// The label of the edge in its triangulation.
    pub fn label(self) -> Label
        ensures { result ≡ self.label }
    {
        self.label
    }
}

/// A move of an atlas, read forwards or backwards. Only an atlas makes one.
#[derive(Clone, Copy, Debug, PartialEq, Eq)]
pub struct MoveId {
    pub(crate) number: usize,
    pub(crate) backwards: bool,
}

impl Model for MoveId {
    ghost use Rattle.tri_atlas.specs.Arena.{MoveHandle};

    ghost Value = { MoveHandle };

    ghost view = { λ a. record { number = a.number; backwards = a.backwards } };

    ghost inverse = { λ m. record { number = m.number; backwards = m.backwards } };
}
