//! Generators with flips and a relabelling.
ghost use Rattle.std.specs.Prelude.{◌≡◌, ◌<◌, ◌≤◌, ◌^◌, length, is_some, Ok, Err, IfOk, OnOk, IfErr};
ghost use Rattle.std.specs.Prelude.{IfSome, List, ℤ};
ghost use Rattle.serde_json.specs.View.{view};
ghost use Rattle.ideal_tri.specs.Flips.{flipped};
ghost use Rattle.ideal_tri.specs.Triangulations.{edge_count};
ghost use Rattle.tri_atlas.specs.Arena.{triangulation, IsTriIn, IsEdgeIn, IsMoveIn, Grows};
ghost use Rattle.tri_atlas.specs.Arena.{source_of, target_of, step_of};
ghost use Rattle.tri_atlas.specs.Paths.{IsPathIn, moves_of};
ghost use Rattle.relabel.specs.Refusals.{IsRefusedFor};
ghost use Rattle.surface_lib.specs.FlipsForms.{flips_most, is_edge, flip_at, flips_in};
ghost use Rattle.surface_lib.specs.FlipsForms.{IsFaultOfImages, IsClosedBy, IsReadAsFlips};
ghost use Rattle.surface_lib.specs.Json.{numbers_in};
ghost use Rattle.surface_lib.specs.Readings.{read_at};
ghost use Rattle.surface_lib.specs.Surfaces.{IsLoop};
ghost use Rattle.surface_lib.specs.inside.Faults.{IsFault};

use crate::json::numbers_in;
use crate::refused::Refused;
use crate::surface_error::{GeneratorFault, Key};
use flip_move::{FlipError, flip};
use relabel::{RelabelError, Relabelling, push};
use serde_json::Value;
use std::alloc::Global;
use tri_atlas::{Atlas, EdgeId, MoveId, Path, TriId, atlas_laws};

/// The most flips of a generator.
const FLIPS_MOST: usize = 4_096;

/// The whole numbers of the list that an object has at a key.
fn numbers_at(alloc: Global, entry: &Value, name: &str, key: Key) -> Result<Vec<i32>, Refused>
    ensures read { IfOk result (λ v.
        read_at key name.now numbers_in (view entry.now) ≡ Ok v.items) }
    ensures refused { IfErr result (IsFault (λ fault.
        read_at key name.now numbers_in (view entry.now) ≡ Err fault)) }
{
    let Some(value) = entry.get(name) else {
        return Err(Refused::Fault(GeneratorFault::MissingKey(key)));
    };
    let Some(numbers) = numbers_in(alloc, value)? else {
        return Err(Refused::Fault(GeneratorFault::BadShape(key)));
    };
    Ok(numbers)
}

/// The edge with this number, if it is one.
fn edge_at(atlas: &Atlas, t: TriId, edge: i32) -> Option<EdgeId>
    requires { IsTriIn atlas.now t }
    ensures edge { IfSome result (λ e. e ≡ record { tri = t; label = edge }) }
    ensures here { IfSome result (IsEdgeIn atlas.now) }
    ensures test { is_some result ≡ is_edge (triangulation atlas.now t) edge }
{
    if edge < 0 {
        return None;
    }
    atlas.edge(t, edge)
}

/// Flips an edge, which is the flip with this index.
fn flip_at(atlas: &mut Atlas, t: TriId, index: usize, edge: i32) -> Result<MoveId, Refused>
    requires { IsTriIn atlas.old t }
    ensures grows { Grows atlas.old atlas.new }
    ensures here { IfOk result (IsMoveIn atlas.new) }
    ensures source { IfOk result (λ m. source_of atlas.new m ≡ t) }
    ensures after { IfOk result (λ m. triangulation atlas.new (target_of atlas.new m)
        ≡ flipped (triangulation atlas.old t) edge) }
    ensures read { IfOk result (λ m.
        flip_at (triangulation atlas.old t) index edge ≡ Ok (step_of atlas.new m)) }
    ensures refused { IfErr result (IsFault (λ fault.
        flip_at (triangulation atlas.old t) index edge ≡ Err fault)) }
{
    atlas_laws();
    let Some(e) = edge_at(atlas, t, edge) else {
        return Err(Refused::Fault(GeneratorFault::NotEdge(index as u64)));
    };
    match flip(atlas, e) {
        Ok(m) => Ok(m),
        Err(FlipError::NotFlippable) => {
            Err(Refused::Fault(GeneratorFault::NotFlippable(index as u64)))
        }
        Err(FlipError::Memory) => Err(Refused::Memory),
    }
}

/// The path of flips of edges, one after another, from the base.
pub(crate) fn flips_in(alloc: Global, atlas: &mut Atlas, edges: &[i32]) -> Result<Path, Refused>
    ensures grows { Grows atlas.old atlas.new }
    ensures path { IfOk result (IsPathIn atlas.new) }
    ensures start { IfOk result (λ p. p.start ≡ 0) }
    ensures base { OnOk result (triangulation atlas.new 0 ≡ triangulation atlas.old 0) }
    ensures short { IfOk result (λ p. length p.moves ≤ flips_most) }
    ensures read { IfOk result (λ p. flips_in (triangulation atlas.old 0) edges.now
        ≡ Ok (record { moves = moves_of atlas.new p; reached = triangulation atlas.new p.end })) }
    ensures refused { IfErr result (IsFault (λ fault.
        flips_in (triangulation atlas.old 0) edges.now ≡ Err fault)) }
{
    atlas_laws();
    if edges.len() > FLIPS_MOST {
        return Err(Refused::Fault(GeneratorFault::TooManyFlips(edges.len() as u64)));
    }
    let mut path = Path::new(alloc, atlas.base());
    for index in 0..edges.len() {
        let m = flip_at(atlas, path.end(), index, edges[index])?;
        path.push(atlas, m)?;
    }
    Ok(path)
}

/// The fault of a generator whose images are refused as those of a relabelling.
fn fault_of(error: RelabelError) -> GeneratorFault
    ensures { (from to : List (List ℤ)) (images : List ℤ)
        → IsRefusedFor from to images error → IsFaultOfImages from to images result }
{
    match error {
        RelabelError::WrongLength(n) => GeneratorFault::WrongLength(n),
        RelabelError::NotLabel(place) => GeneratorFault::NotLabel(place),
        RelabelError::NotBijective(edge) => GeneratorFault::NotBijective(edge),
        RelabelError::BreaksTriangle(triangle) => GeneratorFault::BreaksTriangle(triangle),
    }
}

/// The path of flips, and behind it the relabelling of what they lead to onto the base.
pub(crate) fn closed_by(atlas: &mut Atlas, flips: Path, images: &[i32]) -> Result<Path, Refused>
    requires path { IsPathIn atlas.old flips }
    requires start { flips.start ≡ 0 }
    requires short { length flips.moves ≤ flips_most }
    ensures grows { Grows atlas.old atlas.new }
    ensures closed { IfOk result (IsLoop atlas.new) }
    ensures base { OnOk result (triangulation atlas.new 0 ≡ triangulation atlas.old 0) }
    ensures short { IfOk result (λ p. length p.moves < 2 ^ 31) }
    ensures read { IfOk result (λ p. IsClosedBy (triangulation atlas.old 0) images.now
        (record { moves = moves_of atlas.old flips; reached = triangulation atlas.old flips.end })
        (Ok (moves_of atlas.new p))) }
    ensures refused { IfErr result (IsFault (λ fault.
        IsClosedBy (triangulation atlas.old 0) images.now
        (record { moves = moves_of atlas.old flips; reached = triangulation atlas.old flips.end })
        (Err fault))) }
{
    atlas_laws();
    let base = atlas.base();
    let end = flips.end();
    let relabelling = match Relabelling::from_list(atlas.tri(end), atlas.tri(base), images) {
        Ok(relabelling) => relabelling,
        Err(error) => return Err(Refused::Fault(fault_of(error))),
    };
    let m = push(atlas, end, base, &relabelling)?;
    let mut path = flips;
    path.push(atlas, m)?;
    Ok(path)
}

/// The path of a generator with flips and a relabelling.
pub(crate) fn flips_path(alloc: Global, atlas: &mut Atlas, entry: &Value) -> Result<Path, Refused>
    ensures grows { Grows atlas.old atlas.new }
    ensures closed { IfOk result (IsLoop atlas.new) }
    ensures base { OnOk result (triangulation atlas.new 0 ≡ triangulation atlas.old 0) }
    ensures short { IfOk result (λ p. length p.moves < 2 ^ 31) }
    ensures read { IfOk result (λ p. IsReadAsFlips (triangulation atlas.old 0) (view entry.now)
        (Ok (moves_of atlas.new p))) }
    ensures refused { IfErr result (IsFault (λ fault.
        IsReadAsFlips (triangulation atlas.old 0) (view entry.now) (Err fault))) }
{
    atlas_laws();
    let edges = numbers_at(alloc, entry, "flips", Key::Flips)?;
    let images = numbers_at(alloc, entry, "relabel", Key::Relabel)?;
    let flips = flips_in(alloc, atlas, &edges)?;
    let path = closed_by(atlas, flips, &images)?;
    Ok(path)
}
