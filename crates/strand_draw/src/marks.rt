//! Which strands have been drawn.
ghost use Rattle.std.specs.Prelude.{◌≡◌, ◌<◌, ◌≤◌, ◌^◌, ◌↔◌, ◌++◌, ◌∷◌, [], ℕ, List, length, sum};
ghost use Rattle.std.specs.Prelude.{take};
ghost use Rattle.std.specs.Prelude.{slice_index, IfOk, IsTrue};
ghost use Rattle.ideal_tri.specs.Strands.{State, uses};
ghost use Rattle.ideal_tri.specs.Drawings.{strand_number};
ghost use Rattle.strand_draw.specs.inside.Marks.{HasStrand, AreNumbered, AreMarked};

use crate::strand::Strand;
use edge_coords::Coords;
use ideal_tri::{EDGES, Memory};
use std::alloc::Global;

/// One mark for each strand. The strands are numbered from 0, edge after edge, from the tail of the
/// label that isn't negative.
#[derive(Drop)]
pub(crate) struct Marks {
    /// The number of the first strand of each edge.
    firsts: [usize; EDGES],
    /// Which strands have been drawn.
    drawn: Vec<bool>,
}

impl Marks {
    /// No strand is marked.
    pub(crate) fn new(alloc: Global, w: &Coords, total: usize) -> Result<Marks, Memory>
        requires total { total ≡ sum w.now.numbers }
        requires few { total < 2 ^ 63 }
        ensures { IfOk result (λ m. AreMarked w.now.numbers m []) }
    {
        Ok(Marks {
            firsts: firsts(w.values()),
            drawn: vec![in alloc; false; total]?,
        })
    }

    /// Whether the strand is not marked.
    pub(crate) fn is_free(&self, w: &Coords, q: Strand) -> bool
        requires strand { HasStrand w.now.numbers q }
        requires numbered { AreNumbered w.now.numbers self.now }
        ensures { (run : List State) → AreMarked w.now.numbers self.now run
            → (IsTrue result ↔ (uses w.now.numbers q run ≡ 0)) }
    {
        !self.drawn[self.number(w, q)]
    }

    /// Marks a strand.
    pub(crate) fn mark(&mut self, w: &Coords, q: Strand)
        requires strand { HasStrand w.now.numbers q }
        requires numbered { AreNumbered w.now.numbers self.old }
        ensures numbered { AreNumbered w.now.numbers self.new }
        ensures marked { (run : List State) → AreMarked w.now.numbers self.old run
            → AreMarked w.now.numbers self.new (run ++ (q ∷ [])) }
    {
        let number = self.number(w, q);
        self.drawn[number] = true;
    }

    /// The number of a strand, from whichever side it is seen.
    fn number(&self, w: &Coords, q: Strand) -> usize
        requires strand { HasStrand w.now.numbers q }
        requires numbered { AreNumbered w.now.numbers self.now }
        ensures value { result ≡ strand_number w.now.numbers q }
        ensures within { result < sum w.now.numbers }
    {
        let e = q.label.edge() as usize;
        let count = w.values()[e];
        let place = if q.label.get() < 0 {
            count - 1 - q.place
        } else {
            q.place
        };
        self.firsts[e] + place as usize
    }
}

/// The number of the first strand of each edge.
fn firsts(w: &[u128]) -> [usize; EDGES]
    requires few { length w.now ≤ EDGES }
    requires total { sum w.now < 2 ^ 63 }
    ensures { (e : ℕ) → e < length w.now → slice_index result e ≡ sum (take e w.now) }
{
    let mut firsts = [0; EDGES];
    let mut total = 0;
    for e in 0..w.len() {
        firsts[e] = total;
        total += w[e] as usize;
    }
    firsts
}
