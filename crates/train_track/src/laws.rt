//! What is proved of tracks.
ghost use Rattle.train_track.specs.TrackLaws.{TrackLaws};

use ideal_tri::{label_laws, surface_laws};

/// What is proved of tracks: each triangle has a switch among its sides, a branch has two or three
/// letters, of a branch and its inverse one is listed, and legal walks between switches are glued
/// from passes of branches, each from one list of passes alone. It does nothing: a caller learns
/// the laws.
pub fn track_laws()
    ensures { TrackLaws }
{
    label_laws();
    surface_laws();
}
