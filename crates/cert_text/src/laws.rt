//! What is proved of certificates that hold.
ghost use Rattle.cert_text.specs.CertificateLaws.{CertificateLaws};

use carry_map::iterate_laws;
use free_groupoid::periodic_laws;
use ideal_tri::{corner_laws, drawing_laws};
use tri_atlas::{map_laws, vector_laws};

/// What is proved of certificates: that one which holds means what its verdict says, and that a
/// reducible word's holds exactly where its numbers say so. It does nothing: a caller learns the
/// laws.
pub fn certificate_laws()
    ensures { CertificateLaws }
{
    periodic_laws();
    drawing_laws();
    corner_laws();
    vector_laws();
    map_laws();
    iterate_laws();
}
