//! The arena of triangulations and moves.
ghost use Rattle.std.specs.Prelude.{◌≡◌, ◌<◌, ◌≤◌, ◌+◌, ℕ, [], ◌∷◌, ◌++◌, length, IfOk, OnOk};
ghost use Rattle.std.specs.Prelude.{OnErr, IfSome, IfNone};
ghost use Rattle.ideal_tri.specs.Triangulations.{IsTriangulation, IsLabel, edge_count};
ghost use Rattle.ideal_tri.specs.Flips.{IsFlippable, flipped};
ghost use Rattle.ideal_tri.specs.Relabellings.{IsRelabelling};
ghost use Rattle.tri_atlas.specs.Moves.{relabel};
ghost use Rattle.tri_atlas.specs.Arena.{triangulation, IsTriIn, IsEdgeIn, IsMoveIn, IsArena, Grows};
ghost use Rattle.tri_atlas.specs.Arena.{source_of, target_of, step_of, back, flip_of, flip_entry};
ghost use Rattle.tri_atlas.specs.Arena.{edge_after, is_flipped_by, images_kept, relabel_entry};
ghost use Rattle.tri_atlas.specs.Arena.{newest};
ghost use Rattle.tri_atlas.specs.Steps.{move_of, edge_in, is_new};
ghost use Rattle.tri_atlas.specs.Paths.{is_flip};

use crate::handles::{EdgeId, MoveId, TriId};
use crate::laws::map_laws;
use crate::step::{Carried, Step, backwards, is_flip, is_flipped, label_after};
use ideal_tri::{EDGES, Label, Memory, Tri, flip_laws, relabelling_laws, surface_laws};
use std::alloc::Global;
use std::marker::Model;

/// A move as it is kept, read forwards.
#[derive(Clone, Copy)]
struct Kept {
    source: TriId,
    target: TriId,
    step: Step,
}

/// An arena of triangulations with the same number of edges, and of moves between them. It only
/// grows.
#[derive(Drop)]
pub struct Atlas {
    /// the number of edges of each triangulation
    edges: u32,
    triangulations: Vec<Tri>,
    moves: Vec<Kept>,
}

impl Model for Atlas {
    ghost use Rattle.tri_atlas.specs.Arena.{Arena};

    ghost Value = { Arena };

    ghost use Rattle.tri_atlas.specs.inside.Fields.{arena_of, IsKept};

    ghost view = { arena_of };

    ghost invariant = { IsKept };
}

impl Atlas {
    /// An atlas of one triangulation, the base, with the number 0.
    pub fn new(alloc: Global, base: Tri) -> Result<Atlas, Memory>
        ensures triangulations { IfOk result (λ a. a.triangulations ≡ base ∷ []) }
        ensures moves { IfOk result (λ a. a.moves ≡ []) }
    {
        let edges = base.edges();
        let mut triangulations = Vec::new(alloc);
        triangulations.push(base)?;
        let moves = Vec::new(alloc);
        Ok(Atlas {
            edges,
            triangulations,
            moves,
        })
    }

    /// The triangulation that the atlas began with.
    pub fn base(&self) -> TriId
        ensures number { result ≡ 0 }
        ensures here { IsTriIn self.now result }
        ensures sound { IsArena self.now }
    {
        // what is true of every atlas is known from where a field is read
        let _ = &self.triangulations;
        TriId(0)
    }

    /// The triangulation of a handle of this atlas.
    pub fn tri(&self, t: TriId) -> &Tri
        requires { IsTriIn self.now t }
        ensures value { result.now ≡ triangulation self.now t }
        ensures sound { IsTriangulation result.now }
    {
        &self.triangulations[t.0]
    }

    /// The edge of a triangulation with this label; none exactly where it is no label there.
    pub fn edge(&self, t: TriId, x: i32) -> Option<EdgeId>
        requires { IsTriIn self.now t }
        ensures some { IfSome result (λ e. e ≡ record { tri = t; label = x }) }
        ensures here { IfSome result (IsEdgeIn self.now) }
        ensures none { IfNone result (¬ IsLabel (triangulation self.now t) x) }
    {
        let label = Label::new(x);
        if label.edge() < self.edges {
            Some(EdgeId { tri: t, label })
        } else {
            None
        }
    }

    /// Makes room for `n` pushes, which then take no memory. It wants memory only where there isn't
    /// the room already; where there is, or where memory is wanting, nothing changes.
    pub fn reserve(&mut self, n: usize) -> Result<(), Memory>
        ensures accepted { OnOk result (n ≤ self.new.spare) }
        ensures refused { OnErr result (self.old.spare < n) }
        ensures enough { n ≤ self.old.spare → self.new ≡ self.old }
        ensures no_less { self.old.spare ≤ self.new.spare }
        ensures unchanged { OnErr result (self.new ≡ self.old) }
        ensures triangulations { self.new.triangulations ≡ self.old.triangulations }
        ensures moves { self.new.moves ≡ self.old.moves }
        ensures grows { Grows self.old self.new }
    {
        if n <= self.moves.capacity() - self.moves.len() {
            return Ok(());
        }
        // as much again as is kept, so that reserving for each push in turn stays cheap
        let room = n.max(self.moves.len());
        // exactly this room for moves, so that the triangulations have at least as much
        self.triangulations.reserve(room)?;
        self.moves.reserve_exact(room)?;
        Ok(())
    }

    /// Keeps the flip of an edge and the triangulation after it, which is to be the flipped
    /// triangulation of a flippable edge. There must be room, made by `reserve`; this uses one
    /// place of it, and takes no memory.
    pub fn push_flip(&mut self, e: EdgeId, after: Tri) -> MoveId
        requires room { 0 < self.old.spare }
        requires here { IsEdgeIn self.old e }
        requires flippable { IsFlippable (triangulation self.old e.tri) e.label }
        requires flipped { after ≡ flipped (triangulation self.old e.tri) e.label }
        ensures triangulations { self.new.triangulations ≡ self.old.triangulations ++ after ∷ [] }
        ensures moves { self.new.moves ≡ self.old.moves ++ flip_entry self.old e ∷ [] }
        ensures spare { self.new.spare + 1 ≡ self.old.spare }
        ensures handle { result ≡ newest self.old.moves }
        ensures grows { Grows self.old self.new }
        ensures here { IsMoveIn self.new result }
        ensures source { source_of self.new result ≡ e.tri }
        ensures target { target_of self.new result ≡ length self.old.triangulations }
        ensures after { triangulation self.new (target_of self.new result) ≡ after }
        ensures step { step_of self.new result ≡ flip_of (triangulation self.old e.tri) e.label }
    {
        // the flipped triangulation is one, with as many edges
        flip_laws();
        let number = self.moves.len();
        let source = e.tri();
        let target = TriId(self.triangulations.len());
        let step = flip_step(self.tri(source), e.label());
        self.triangulations.push_reserved(after);
        self.moves.push_reserved(Kept {
            source,
            target,
            step,
        });
        MoveId {
            number,
            backwards: false,
        }
    }

    /// Keeps a relabelling, whose images carry one triangulation onto the other. With `n` edges,
    /// only the first `n` images count. There must be room, made by `reserve`; this uses one place
    /// of it, and takes no memory.
    pub fn push_relabel(&mut self, from: TriId, to: TriId, images: [Label; EDGES]) -> MoveId
        requires room { 0 < self.old.spare }
        requires from { IsTriIn self.old from }
        requires to { IsTriIn self.old to }
        requires carries { IsRelabelling (triangulation self.old from) (triangulation self.old to)
            (images_kept self.old from images) }
        ensures triangulations { self.new.triangulations ≡ self.old.triangulations }
        ensures moves { self.new.moves
            ≡ self.old.moves ++ relabel_entry self.old from to images ∷ [] }
        ensures spare { self.new.spare + 1 ≡ self.old.spare }
        ensures handle { result ≡ newest self.old.moves }
        ensures grows { Grows self.old self.new }
        ensures here { IsMoveIn self.new result }
        ensures source { source_of self.new result ≡ from }
        ensures target { target_of self.new result ≡ to }
        ensures step { step_of self.new result ≡ relabel (images_kept self.old from images) }
    {
        let number = self.moves.len();
        self.moves.push_reserved(Kept {
            source: from,
            target: to,
            step: Step::Relabel(images),
        });
        MoveId {
            number,
            backwards: false,
        }
    }

    /// The triangulation where a move starts.
    pub fn source(&self, m: MoveId) -> TriId
        requires { IsMoveIn self.now m }
        ensures value { result ≡ source_of self.now m }
        ensures here { IsTriIn self.now result }
    {
        let kept = &self.moves[m.number];
        if m.backwards {
            kept.target
        } else {
            kept.source
        }
    }

    /// The triangulation where a move ends.
    pub fn target(&self, m: MoveId) -> TriId
        requires { IsMoveIn self.now m }
        ensures value { result ≡ target_of self.now m }
        ensures here { IsTriIn self.now result }
    {
        let kept = &self.moves[m.number];
        if m.backwards {
            kept.source
        } else {
            kept.target
        }
    }

    /// What a move does.
    pub fn step(&self, m: MoveId) -> Step
        requires { IsMoveIn self.now m }
        ensures { move_of (edge_count (triangulation self.now (source_of self.now m))) result
            ≡ step_of self.now m }
    {
        // a relabelling is a bijection of labels, so it can be read backwards
        relabelling_laws();
        let kept = &self.moves[m.number];
        if m.backwards {
            backwards(&kept.step, self.edges as usize)
        } else {
            kept.step
        }
    }

    /// The same move, the other way.
    pub fn back(&self, m: MoveId) -> MoveId
        requires { IsMoveIn self.now m }
        ensures value { result ≡ back m }
        ensures here { IsMoveIn self.now result }
        ensures twice { back result ≡ m }
        ensures source { source_of self.now result ≡ target_of self.now m }
        ensures target { target_of self.now result ≡ source_of self.now m }
    {
        MoveId {
            number: m.number,
            backwards: !m.backwards,
        }
    }

    /// Brings an edge across a move from its triangulation: to the same label for a flip, to the
    /// new label for a relabelling. It is new exactly where a flip took the edge away and put
    /// another in its place.
    pub fn carry(&self, m: MoveId, e: EdgeId) -> Carried
        requires here { IsMoveIn self.now m }
        requires edge { IsEdgeIn self.now e }
        requires source { e.tri ≡ source_of self.now m }
        ensures edge { edge_in result ≡ edge_after self.now m e }
        ensures new { is_new result ≡ is_flipped_by (step_of self.now m) e.label }
        ensures here { IsEdgeIn self.now (edge_in result) }
    {
        let after = self.edge_after(m, e);
        let kept = &self.moves[m.number];
        if is_flipped(&kept.step, e.label()) {
            Carried::New(after)
        } else {
            Carried::Same(after)
        }
    }

    /// The edge after a move.
    fn edge_after(&self, m: MoveId, e: EdgeId) -> EdgeId
        requires here { IsMoveIn self.now m }
        requires edge { IsEdgeIn self.now e }
        requires source { e.tri ≡ source_of self.now m }
        ensures value { result ≡ edge_after self.now m e }
        ensures here { IsEdgeIn self.now result }
    {
        // a label of the first triangulation goes to a label of the second
        map_laws();
        let kept = &self.moves[m.number];
        EdgeId {
            tri: self.target(m),
            label: label_after(&kept.step, self.edges as usize, m.backwards, e.label()),
        }
    }

    /// Whether a move is a flip, forwards or backwards.
    pub(crate) fn is_flip(&self, m: MoveId) -> bool
        requires { IsMoveIn self.now m }
        ensures { result ≡ is_flip (step_of self.now m) }
    {
        let kept = &self.moves[m.number];
        is_flip(&kept.step)
    }
}

/// The flip of an edge, with the sides of its two triangles.
fn flip_step(tri: &Tri, x: Label) -> Step
    requires sound { IsTriangulation tri.now }
    requires label { IsLabel tri.now x }
    ensures { (n : ℕ) → move_of n result ≡ flip_of tri.now x }
{
    // the side after a label is a label too
    surface_laws();
    let a = tri.next(x);
    let c = tri.next(x.inverse());
    Step::Flip {
        e: x,
        a,
        b: tri.next(a),
        c,
        d: tri.next(c),
    }
}
