//! The components of a multicurve, as closed walks.
ghost use Rattle.std.specs.Prelude.{◌≡◌, ◌<◌, ◌≤◌, ◌+◌, ◌^◌, ◌↔◌, ◌++◌, ℕ, pos, List, length, map};
ghost use Rattle.std.specs.Prelude.{sum, All};
ghost use Rattle.std.specs.Prelude.{IfOk, IfErr, OnOk, IsTrue};
ghost use Rattle.ideal_tri.specs.Labels.{edge_of};
ghost use Rattle.ideal_tri.specs.Triangulations.{IsLabel};
ghost use Rattle.ideal_tri.specs.Strands.{State, IsStrand, state_at, word_of, words_of};
ghost use Rattle.ideal_tri.specs.Drawings.{curve_from, draw};
ghost use Rattle.tri_atlas.specs.Arena.{triangulation};
ghost use Rattle.edge_coords.specs.Coordinates.{AreCoordinatesIn, total_of};
ghost use Rattle.free_groupoid.specs.Walks.{IsClosedOn, walk_of_letters};
ghost use Rattle.strand_draw.specs.Refusals.{IsRefusedFor};
ghost use Rattle.strand_draw.specs.inside.Marks.{AreNumbered, AreMarked};
ghost use Rattle.strand_draw.specs.inside.InOrder.{strands_before, AreDrawn};

use crate::marks::Marks;
use crate::strand::{Strand, step, step_laws, weight};
use edge_coords::Coords;
use free_groupoid::Walk;
use ideal_tri::{Label, Memory, drawing_laws, surface_laws};
use std::alloc::Global;
use tri_atlas::Atlas;

/// Why a multicurve isn't drawn.
#[derive(Clone, Copy, Debug, PartialEq, Eq)]
pub enum DrawError {
    /// No memory was found.
    Memory,
    /// It has more strands than the cap.
    TotalOver {
        /// How many: the sum of its coordinates, or 2^128 - 1 where that is greater.
        total: u128,
    },
}

impl From<Memory> for DrawError {
    ghost use Rattle.strand_draw.specs.declared.drawing.DrawError.TheVariants.{Memory};

    ghost from_gives = { λ _ e. e ≡ Memory };

    fn from(_: Memory) -> DrawError {
        DrawError::Memory
    }
}

/// The components of a multicurve, each as the closed walk of the letters that it crosses. They are
/// ordered by their least strands (by edge, and then from the tail of the label that isn't
/// negative), and each begins there, with that label. `TotalOver` exactly where there are more
/// strands than the cap, which is below 2^63. The time and the memory are in proportion to the
/// strands.
pub fn components(
    alloc: Global,
    atlas: &Atlas,
    w: &Coords,
    cap: u64,
) -> Result<Vec<Walk>, DrawError>
    requires coordinates { AreCoordinatesIn atlas.now w.now }
    requires cap { cap < 2 ^ 63 }
    ensures words { IfOk result (λ walks. map (λ v. v.letters) walks.items
        ≡ words_of (draw (triangulation atlas.now w.now.tri) w.now.numbers)) }
    ensures closed { IfOk result (λ walks.
        All (IsClosedOn (triangulation atlas.now w.now.tri)) walks.items) }
    ensures within { IfOk result (λ _. total_of w.now.numbers ≤ cap) }
    ensures refused { IfErr result (IsRefusedFor w.now.numbers cap) }
{
    let total = w.total();
    if total > u128::from(cap) {
        return Err(DrawError::TotalOver { total });
    }
    Ok(draw(alloc, atlas, w, total as usize)?)
}

/// Whether a multicurve has exactly one component. `TotalOver` exactly where it has more strands
/// than the cap, which is below 2^63.
pub fn is_one_curve(alloc: Global, atlas: &Atlas, w: &Coords, cap: u64) -> Result<bool, DrawError>
    requires coordinates { AreCoordinatesIn atlas.now w.now }
    requires cap { cap < 2 ^ 63 }
    ensures value { IfOk result (λ one. IsTrue one
        ↔ (length (draw (triangulation atlas.now w.now.tri) w.now.numbers) ≡ 1)) }
    ensures within { IfOk result (λ _. total_of w.now.numbers ≤ cap) }
    ensures refused { IfErr result (IsRefusedFor w.now.numbers cap) }
{
    Ok(components(alloc, atlas, w, cap)?.len() == 1)
}

/// The components of a multicurve with that many strands.
fn draw(alloc: Global, atlas: &Atlas, w: &Coords, total: usize) -> Result<Vec<Walk>, Memory>
    requires coordinates { AreCoordinatesIn atlas.now w.now }
    requires total { total ≡ sum w.now.numbers }
    requires few { total < 2 ^ 63 }
    ensures words { IfOk result (λ walks. map (λ v. v.letters) walks.items
        ≡ words_of (draw (triangulation atlas.now w.now.tri) w.now.numbers)) }
    ensures closed { IfOk result (λ walks.
        All (IsClosedOn (triangulation atlas.now w.now.tri)) walks.items) }
{
    are_closed(atlas, w);
    let mut marks = Marks::new(alloc, w, total)?;
    let mut walks = Vec::new(alloc);
    for e in 0..atlas.tri(w.tri()).edges() {
        draw_edge(
            alloc,
            atlas,
            w,
            Label::new(e as i32),
            &mut marks,
            &mut walks,
        )?;
    }
    Ok(walks)
}

/// The walks along the curves of a multicurve are closed.
fn are_closed(atlas: &Atlas, w: &Coords)
    requires { AreCoordinatesIn atlas.now w.now }
    ensures { All (IsClosedOn (triangulation atlas.now w.now.tri))
        (map (walk_of_letters (triangulation atlas.now w.now.tri))
        (words_of (draw (triangulation atlas.now w.now.tri) w.now.numbers))) }
{
    let _ = atlas.tri(w.tri());
    drawing_laws();
    surface_laws();
}

/// Goes on with the curves whose least strands are those of one edge.
fn draw_edge(
    alloc: Global,
    atlas: &Atlas,
    w: &Coords,
    x: Label,
    marks: &mut Marks,
    walks: &mut Vec<Walk>,
) -> Result<(), Memory>
    requires coordinates { AreCoordinatesIn atlas.now w.now }
    requires label { IsLabel (triangulation atlas.now w.now.tri) x }
    requires positive { x ≡ pos (edge_of x) }
    requires drawn { AreDrawn (triangulation atlas.now w.now.tri) w.now.numbers
        (strands_before w.now.numbers (state_at x 0)) marks.old walks.old.items }
    ensures { OnOk result (AreDrawn (triangulation atlas.now w.now.tri) w.now.numbers
        (strands_before w.now.numbers (state_at (pos (edge_of x + 1)) 0)) marks.new
        walks.new.items) }
{
    for place in 0..weight(w, x) {
        draw_strand(alloc, atlas, w, Strand { label: x, place }, marks, walks)?;
    }
    Ok(())
}

/// Goes on with the curve whose least strand is this one, if there is one: where the strand isn't
/// marked yet.
fn draw_strand(
    alloc: Global,
    atlas: &Atlas,
    w: &Coords,
    q: Strand,
    marks: &mut Marks,
    walks: &mut Vec<Walk>,
) -> Result<(), Memory>
    requires coordinates { AreCoordinatesIn atlas.now w.now }
    requires strand { IsStrand (triangulation atlas.now w.now.tri) w.now.numbers q }
    requires positive { q.label ≡ pos (edge_of q.label) }
    requires drawn { AreDrawn (triangulation atlas.now w.now.tri) w.now.numbers
        (strands_before w.now.numbers q) marks.old walks.old.items }
    ensures { OnOk result (AreDrawn (triangulation atlas.now w.now.tri) w.now.numbers
        (strands_before w.now.numbers (state_at q.label (q.place + 1))) marks.new walks.new.items) }
{
    step_laws(atlas, w);
    if marks.is_free(w, q) {
        let letters = trace(alloc, atlas, w, q, marks)?;
        let start = atlas.tri(w.tri()).place(q.label).0;
        walks.push(Walk { start, letters })?;
    }
    Ok(())
}

/// The letters along the curve of a strand, from that strand on, whose strands are marked.
fn trace(
    alloc: Global,
    atlas: &Atlas,
    w: &Coords,
    q: Strand,
    marks: &mut Marks,
) -> Result<Vec<Label>, Memory>
    requires coordinates { AreCoordinatesIn atlas.now w.now }
    requires strand { IsStrand (triangulation atlas.now w.now.tri) w.now.numbers q }
    requires numbered { AreNumbered w.now.numbers marks.old }
    ensures letters { IfOk result (λ letters. letters.items
        ≡ word_of (curve_from (triangulation atlas.now w.now.tri) w.now.numbers q)) }
    ensures marked { OnOk result ((run : List State) → AreMarked w.now.numbers marks.old run
        → AreMarked w.now.numbers marks.new
        (run ++ curve_from (triangulation atlas.now w.now.tri) w.now.numbers q)) }
{
    step_laws(atlas, w);
    let mut letters = Vec::new(alloc);
    letters.push(q.label)?;
    marks.mark(w, q);
    let mut at = step(atlas, w, q);
    while at != q {
        letters.push(at.label)?;
        marks.mark(w, at);
        at = step(atlas, w, at);
    }
    Ok(letters)
}
