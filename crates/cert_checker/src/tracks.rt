//! The rules for certificates of pseudo-Anosov words, 12 to 18, one after another.
ghost use Rattle.std.specs.Prelude.{List, OnOk, IfErr};
ghost use Rattle.tri_atlas.specs.Arena.{Grows, triangulation};
ghost use Rattle.tri_atlas.specs.Moves.{Move};
ghost use Rattle.tri_atlas.specs.Paths.{moves_of};
ghost use Rattle.surface_lib.specs.Surfaces.{IsLoop};
ghost use Rattle.carry_map.specs.AnchorAnswers.{IsMapOnTrack};
ghost use Rattle.cert_text.specs.Certificates.{track_seen};
ghost use Rattle.cert_text.specs.PseudoAnosov.{IsPseudoAnosovCertificate};
ghost use Rattle.cert_checker.specs.TrackRefusals.{IsTrackRefusal};
ghost use Rattle.cert_checker.specs.inside.Sites.{IsSite};
ghost use Rattle.cert_checker.specs.inside.Stops.{IsStop};

use crate::anchors::check_anchors;
use crate::growth::check_growth;
use crate::images::check_images;
use crate::matrix::check_matrix;
use crate::sites::{Site, make_site};
use crate::verdict::Stop;
use carry_map::agreement_laws;
use cert_text::Pa;
use std::alloc::Global;
use train_track::track_laws;
use tri_atlas::{Atlas, Path, atlas_laws};

/// Whether the word carries the track of this certificate, which fills its triangulation, with a
/// primitive matrix and these bounds of growth. The flips to the track may add triangulations to the
/// atlas.
pub(crate) fn check_track(
    alloc: Global,
    atlas: &mut Atlas,
    word: &Path,
    track: &Pa,
) -> Result<(), Stop>
    requires closed { IsLoop atlas.old word.now }
    ensures held { OnOk result (IsPseudoAnosovCertificate (triangulation atlas.old 0)
        (moves_of atlas.old word.now) (track_seen track.now)) }
    ensures refused { IfErr result (IsStop (IsTrackRefusal (triangulation atlas.old 0)
        (moves_of atlas.old word.now) (track_seen track.now))) }
    ensures grows { Grows atlas.old atlas.new }
{
    atlas_laws();
    // what is true of every atlas
    let _ = atlas.base();
    let site = make_site(alloc, atlas, word, track)?;
    check_carrying(alloc, atlas, &site, track)
}

/// The rules 15 to 18, one after another, for the track of a certificate and the map of its path.
fn check_carrying(alloc: Global, atlas: &Atlas, site: &Site, c: &Pa) -> Result<(), Stop>
    requires here { IsMapOnTrack atlas.now site.now.track site.now.map }
    ensures held { (moves : List Move) → IsSite atlas.now moves (track_seen c.now) site.now
        → OnOk result (IsPseudoAnosovCertificate (triangulation atlas.now 0) moves
        (track_seen c.now)) }
    ensures refused { (moves : List Move) → IsSite atlas.now moves (track_seen c.now) site.now
        → IfErr result (IsStop (IsTrackRefusal (triangulation atlas.now 0) moves
        (track_seen c.now))) }
{
    track_laws();
    agreement_laws();
    // what is true of every atlas
    let _ = atlas.base();
    let tri = atlas.tri(site.track.tri());
    check_anchors(alloc, atlas, site, &c.anchors)?;
    check_images(alloc, atlas, site, c)?;
    check_matrix(alloc, tri, &site.track, c)?;
    check_growth(c)
}
