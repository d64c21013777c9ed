//! Certificates of what the searches found.
ghost use Rattle.std.specs.Prelude.{◌≡◌, Some, None, IfOk};
ghost use Rattle.periodic_cert.specs.PowerAnswers.{letters_of_walks};
ghost use Rattle.cert_text.specs.Certificates.{periodic, reducible, seen, unknown, walks_of};

use cert_text::{Certificate, TrackLine};
use edge_coords::{Coords, CurveLine};
use free_groupoid::Walk;
use ideal_tri::{Label, Memory};
use std::alloc::Global;

/// The certificate of a periodic word.
pub(crate) fn periodic(
    alloc: Global,
    order: u32,
    paths: &[Walk],
    reasons: &[Walk],
) -> Result<Certificate, Memory>
    ensures { IfOk result (λ c. seen c
        ≡ periodic order (letters_of_walks paths.now) (letters_of_walks reasons.now)) }
{
    Ok(Certificate::Periodic {
        order,
        paths: letters_of(alloc, paths)?,
        reasons: letters_of(alloc, reasons)?,
    })
}

/// The certificate of a reducible word.
pub(crate) fn reducible(alloc: Global, w: &Coords) -> Result<Certificate, Memory>
    ensures { IfOk result (λ c. seen c ≡ reducible w.now.numbers) }
{
    Ok(Certificate::Reducible {
        coords: Vec::from_slice(alloc, w.values())?,
    })
}

/// The log of a word without a verdict.
pub(crate) fn unknown(
    alloc: Global,
    reasons: &[Walk],
    capped: Option<(u32, u64)>,
    curves: Vec<CurveLine>,
    tracks: Vec<TrackLine>,
) -> Result<Certificate, Memory>
    ensures { IfOk result (λ c. seen c
        ≡ unknown (letters_of_walks reasons.now) capped curves.items tracks.items) }
{
    Ok(Certificate::Unknown {
        powers: letters_of(alloc, reasons)?,
        capped,
        curves,
        tracks,
    })
}

/// The numbers of the letters of walks.
fn letters_of(alloc: Global, walks: &[Walk]) -> Result<Vec<Vec<i32>>, Memory>
    ensures { IfOk result (λ v. walks_of v.items ≡ letters_of_walks walks.now) }
{
    let mut lists = Vec::new(alloc);
    for walk in walks {
        lists.push(numbers_of(alloc, &walk.letters)?)?;
    }
    Ok(lists)
}

/// The numbers of labels.
pub(crate) fn numbers_of(alloc: Global, letters: &[Label]) -> Result<Vec<i32>, Memory>
    ensures { IfOk result (λ v. v.items ≡ letters.now) }
{
    let mut numbers = Vec::new(alloc);
    for x in letters {
        numbers.push(x.get())?;
    }
    Ok(numbers)
}
