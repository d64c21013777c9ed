//! Why a text is no certificate.
use ideal_tri::Memory;
use thiserror::Error;

/// A place of a certificate's text: the whole text, or the value at a key.
#[derive(Clone, Copy, Debug, PartialEq, Eq)]
pub enum CertKey {
    /// The text itself.
    File,
    /// The kind of the certificate.
    Kind,
    /// Where the switches go.
    Anchors,
    /// Where a map had too many letters.
    Capped,
    /// The coordinates of a multicurve.
    Coords,
    /// The lines on candidates for a multicurve.
    Curves,
    /// The exponent of a matrix.
    Exponent,
    /// The edges that are flipped.
    Flips,
    /// The upper bound of growth.
    High,
    /// The train paths.
    Images,
    /// The corners that a track leaves out.
    LeftOut,
    /// The lower bound of growth.
    Low,
    /// The matrix of passes.
    Matrix,
    /// The order of a periodic word.
    Order,
    /// The walks by which a power is inner.
    Paths,
    /// How often the word is taken.
    Power,
    /// The closed walks that powers move.
    Powers,
    /// The closed walks that smaller powers move.
    Reasons,
    /// The lines on candidates for a train track.
    Tracks,
    /// The row that a matrix stretches.
    U,
}

/// Why a text is no certificate: the first test that fails. The keys are tested one after another,
/// the kind first and then those of the kind in alphabetical order.
#[derive(Clone, Copy, Debug, PartialEq, Eq, Error)]
pub enum CertError {
    /// What is read is no JSON text, nested at most 127 deep.
    #[error("NotJson")]
    NotJson,
    /// The object has no such key.
    #[error("MissingKey")]
    MissingKey(CertKey),
    /// What is read is no object, or the value at its key has another shape.
    #[error("BadShape")]
    BadShape(CertKey),
    /// No memory was found.
    #[error("Memory")]
    Memory,
}

impl From<Memory> for CertError {
    ghost use Rattle.std.specs.Prelude.{◌≡◌};
    ghost use Rattle.cert_text.specs.declared.cert_error.CertError.TheVariants.{Memory};

    ghost from_gives = { λ _ error. error ≡ Memory };

    fn from(_: Memory) -> CertError {
        CertError::Memory
    }
}
