//! The tracks of the further candidates, which leave out the corners with light counts.
ghost use Rattle.std.specs.Prelude.{◌≡◌, ◌<◌, ◌*◌, ◌↔◌, List, IsTrue, IfOk, IfErr};
ghost use Rattle.ideal_tri.specs.Triangulations.{IsLabel};
ghost use Rattle.ideal_tri.specs.Vectors.{corner_count};
ghost use Rattle.ideal_tri.specs.Vertices.{label_of_rank};
ghost use Rattle.ideal_tri.specs.declared.tri.TheConstants.{EDGES};
ghost use Rattle.tri_atlas.specs.Arena.{triangulation};
ghost use Rattle.edge_coords.specs.Coordinates.{AreCoordinatesIn};
ghost use Rattle.cycle_stages.specs.Light.{greatest_of, IsLight};
ghost use Rattle.verdict_plan.specs.FurtherTracks.{AreLightCorners};
ghost use Rattle.verdict_plan.specs.inside.FurtherSites.{IsLightTrack, HasNoLightTrack};

use cert_text::TrackLine;
use cycle_stages::{greatest, is_light};
use edge_coords::Coords;
use ideal_tri::{Label, Memory, label_laws};
use std::alloc::Global;
use train_track::{Track, TrackError};
use tri_atlas::Atlas;

/// The track of the corners with light counts, or why there is none that fills.
pub(crate) fn light_track(
    alloc: Global,
    atlas: &Atlas,
    w: &Coords,
) -> Result<Result<Track, TrackLine>, Memory>
    requires { AreCoordinatesIn atlas.now w.now }
    ensures track { IfOk result (λ r. IfOk r (IsLightTrack atlas.now w.now)) }
    ensures refused { IfOk result (λ r. IfErr r
        (HasNoLightTrack (triangulation atlas.now w.now.tri) w.now.numbers)) }
{
    let left_out = light_corners(alloc, atlas, w)?;
    match Track::from_list(alloc, atlas, w.tri(), &left_out) {
        Ok(track) => Ok(Ok(track)),
        // labels in their order
        Err(TrackError::NotLabel(_)) => unreachable!(),
        Err(TrackError::TwoLeftOut(n)) => Ok(Err(TrackLine::TwoLeftOut { n })),
        Err(TrackError::VertexClosed(n)) => Ok(Err(TrackLine::VertexClosed { n })),
        Err(TrackError::Memory) => Err(Memory),
    }
}

/// The corners with light counts, in the order of labels.
fn light_corners(alloc: Global, atlas: &Atlas, w: &Coords) -> Result<Vec<Label>, Memory>
    requires { AreCoordinatesIn atlas.now w.now }
    ensures { IfOk result (λ found. AreLightCorners (triangulation atlas.now w.now.tri)
        w.now.numbers found.items) }
{
    label_laws();
    let most = greatest(w.values());
    let mut found = Vec::new(alloc);
    for k in 0..2 * atlas.tri(w.tri()).edges() {
        let x = label_of_rank(k);
        if has_light_count(atlas, w, most, x) {
            found.push(x)?;
        }
    }
    Ok(found)
}

/// Whether the count at a corner is light beside numbers with this greatest one.
fn has_light_count(atlas: &Atlas, w: &Coords, most: u128, x: Label) -> bool
    requires coordinates { AreCoordinatesIn atlas.now w.now }
    requires label { IsLabel (triangulation atlas.now w.now.tri) x }
    requires most { most ≡ greatest_of w.now.numbers }
    ensures { IsTrue result
        ↔ IsLight w.now.numbers (corner_count (triangulation atlas.now w.now.tri) w.now.numbers x) }
{
    is_light(most, w.corner_count(atlas, x))
}

/// The label at a place in their order.
fn label_of_rank(k: u32) -> Label
    requires { k < 2 * EDGES }
    ensures { result ≡ label_of_rank k }
{
    let first = Label::new((k / 2) as i32);
    if k % 2 == 0 { first } else { first.inverse() }
}
