//! Where the labels of switches go, and the walks there, as a certificate has them.
ghost use Rattle.std.specs.Prelude.{◌≡◌, ◌≢◌, ℕ, pos, [], length, IfOk, Contains};
ghost use Rattle.ideal_tri.specs.Labels.{edge_of};
ghost use Rattle.ideal_tri.specs.Triangulations.{IsLabel, IsWalk, triangle_of};
ghost use Rattle.tri_atlas.specs.Arena.{triangulation};
ghost use Rattle.free_groupoid.specs.GroupoidMaps.{substitution, reduced_image};
ghost use Rattle.train_track.specs.Branches.{letter_at};
ghost use Rattle.carry_map.specs.AnchorAnswers.{IsMapOnTrack};
ghost use Rattle.carry_map.specs.CarriedMaps.{connection, goes_to};
ghost use Rattle.cert_text.specs.Certificates.{track_seen};
ghost use Rattle.cert_text.specs.PseudoAnosov.{carrying_of};
ghost use Rattle.cert_checker.specs.inside.TrainPaths.{IsFirstAt};

use crate::letters::reduced;
use crate::sites::Site;
use crate::walks::labels;
use cert_text::Pa;
use free_groupoid::Walk;
use ideal_tri::{Label, Memory, label_laws, surface_laws, word_laws};
use std::alloc::Global;
use tri_atlas::Atlas;

/// The label that the label of a switch goes to.
pub(crate) fn goes_to(site: &Site, c: &Pa, x: Label) -> Label
    requires as_many { length c.now.anchors.items ≡ length site.now.track.switches }
    requires listed { Contains site.now.track.switches (pos (edge_of x)) }
    ensures { result ≡ goes_to site.now.track.switches (carrying_of (track_seen c.now)) x }
{
    label_laws();
    let anchor = &c.anchors[place_of(site.track.switches(), forwards(x))];
    Label::new(anchor.to).with_sign_of(x)
}

/// The walk from the image of where the label of a switch starts to where the label starts that it
/// goes to.
pub(crate) fn connection(
    alloc: Global,
    atlas: &Atlas,
    site: &Site,
    c: &Pa,
    x: Label,
) -> Result<Vec<Label>, Memory>
    requires here { IsMapOnTrack atlas.now site.now.track site.now.map }
    requires as_many { length c.now.anchors.items ≡ length site.now.track.switches }
    requires label { IsLabel (triangulation atlas.now site.now.track.tri) x }
    requires listed { Contains site.now.track.switches (pos (edge_of x)) }
    ensures { IfOk result (λ v. v.items ≡ connection (substitution site.now.map.images)
        site.now.track.switches (carrying_of (track_seen c.now)) x) }
{
    label_laws();
    word_laws();
    let s = forwards(x);
    let anchor = &c.anchors[place_of(site.track.switches(), s)];
    if x == s {
        return labels(alloc, &anchor.connect);
    }
    let mut letters = image(alloc, atlas, site, &[x])?;
    letters.extend_from_slice(&labels(alloc, &anchor.connect)?)?;
    letters.push(Label::new(anchor.to))?;
    Ok(reduced(letters))
}

/// The image of a walk of at least one letter, reduced.
pub(crate) fn image(
    alloc: Global,
    atlas: &Atlas,
    site: &Site,
    word: &[Label],
) -> Result<Vec<Label>, Memory>
    requires here { IsMapOnTrack atlas.now site.now.track site.now.map }
    requires some { word.now ≢ [] }
    requires walk { (t : ℕ) × IsWalk (triangulation atlas.now site.now.track.tri)
        (triangle_of (triangulation atlas.now site.now.track.tri) (letter_at word.now 0)) word.now
        t }
    ensures { IfOk result (λ v. v.items
        ≡ reduced_image (substitution site.now.map.images) word.now) }
{
    let _ = atlas.base();
    surface_laws();
    let start = atlas.tri(site.track.tri()).place(word[0]).0;
    let letters = Vec::from_slice(alloc, word)?;
    let image = site.map.image(alloc, &Walk { start, letters })?;
    Ok(image.letters)
}

/// The first place of a switch, given by its label that isn't negative.
fn place_of(switches: &[Label], s: Label) -> usize
    requires { Contains switches.now s }
    ensures { IsFirstAt switches.now s result }
{
    for i in 0..switches.len() {
        if switches[i] == s {
            return i;
        }
    }
    0
}

/// The label of the edge that isn't negative.
pub(crate) fn forwards(x: Label) -> Label
    ensures { result ≡ pos (edge_of x) }
{
    x.with_sign_of(x)
}
