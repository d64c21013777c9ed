//! The rule for the train paths of a track, 16.
ghost use Rattle.std.specs.Prelude.{◌≡◌, ◌↔◌, length, min, IsTrue, IfOk, OnOk, IfErr, IfSome, IfNone};
ghost use Rattle.tri_atlas.specs.Arena.{triangulation};
ghost use Rattle.free_groupoid.specs.GroupoidMaps.{substitution, vertex_image};
ghost use Rattle.free_groupoid.specs.MapRefusals.{told};
ghost use Rattle.train_track.specs.Branches.{words_of};
ghost use Rattle.carry_map.specs.AnchorAnswers.{IsMapOnTrack};
ghost use Rattle.carry_map.specs.AnchorLaws.{AreConnected};
ghost use Rattle.cert_text.specs.Certificates.{track_seen, walks_of};
ghost use Rattle.cert_text.specs.PseudoAnosov.{carrying_of, letters_of_words};
ghost use Rattle.cert_checker.specs.FirstFailing.{AllPass, IsFirstFailing};
ghost use Rattle.cert_checker.specs.inside.Stops.{IsStop, IsRule};
ghost use Rattle.cert_checker.specs.inside.TrackParts.{AreImages, AreNoImages, IsImageOf};

use crate::sites::Site;
use crate::train_paths::is_train_path;
use crate::verdict::Stop;
use cert_text::Pa;
use ideal_tri::Memory;
use std::alloc::Global;
use tri_atlas::Atlas;

/// The most letters that the train paths of all branches have together.
const LETTER_CAP: u64 = 262_144;

/// Whether the image of each branch is its train path, with few letters in all.
pub(crate) fn check_images(alloc: Global, atlas: &Atlas, site: &Site, c: &Pa) -> Result<(), Stop>
    requires here { IsMapOnTrack atlas.now site.now.track site.now.map }
    requires connected { AreConnected (triangulation atlas.now site.now.track.tri)
        site.now.track.left_out (vertex_image site.now.map) (carrying_of (track_seen c.now)) }
    ensures held { OnOk result (AreImages (triangulation atlas.now site.now.track.tri)
        site.now.track.left_out (substitution site.now.map.images) (track_seen c.now)
        (words_of site.now.track.branches)) }
    ensures refused { IfErr result (IsStop (IsRule 16
        (AreNoImages (triangulation atlas.now site.now.track.tri) site.now.track.left_out
        (substitution site.now.map.images) (track_seen c.now)
        (words_of site.now.track.branches)))) }
{
    if let Some(j) = first_other(alloc, atlas, site, c)? {
        return Err(Stop::Refused {
            rule: 16,
            place: j as u64,
        });
    }
    let given = c.images.len() as u64;
    let wanted = site.track.branches().len() as u64;
    if given != wanted {
        return Err(Stop::Refused {
            rule: 16,
            place: given.min(wanted),
        });
    }
    if letters_in(&c.images) > LETTER_CAP {
        return Err(Stop::Refused {
            rule: 16,
            place: wanted,
        });
    }
    Ok(())
}

/// The first place where the image isn't the train path of the branch, in the shorter of the two
/// lists.
fn first_other(alloc: Global, atlas: &Atlas, site: &Site, c: &Pa) -> Result<Option<usize>, Memory>
    requires here { IsMapOnTrack atlas.now site.now.track site.now.map }
    requires connected { AreConnected (triangulation atlas.now site.now.track.tri)
        site.now.track.left_out (vertex_image site.now.map) (carrying_of (track_seen c.now)) }
    ensures some { IfOk result (λ found. IfSome found (IsFirstFailing
        (min (length (track_seen c.now).images) (length (words_of site.now.track.branches)))
        (IsImageOf (triangulation atlas.now site.now.track.tri) site.now.track.left_out
        (substitution site.now.map.images) (track_seen c.now)
        (words_of site.now.track.branches)))) }
    ensures none { IfOk result (λ found. IfNone found (AllPass
        (min (length (track_seen c.now).images) (length (words_of site.now.track.branches)))
        (IsImageOf (triangulation atlas.now site.now.track.tri) site.now.track.left_out
        (substitution site.now.map.images) (track_seen c.now)
        (words_of site.now.track.branches)))) }
{
    let branches = site.track.branches();
    for j in 0..c.images.len().min(branches.len()) {
        let (branch, image) = (&branches[j], &c.images[j]);
        if !is_train_path(alloc, atlas, site, c, &branch.letters, image)? {
            return Ok(Some(j));
        }
    }
    Ok(None)
}

/// How many letters the words have together, or 2^64 - 1 where there are more.
fn letters_in(words: &[Vec<i32>]) -> u64
    ensures { result ≡ told (letters_of_words (walks_of words.now)) }
{
    let mut letters = 0u64;
    for word in words {
        letters = letters.saturating_add(word.len() as u64);
    }
    letters
}
