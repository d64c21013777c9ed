//! From the word to its verdict and certificate.
ghost use Rattle.std.specs.Prelude.{◌≡◌, ◌⊎◌, Err, IfOk, IfErr, Some, map};
ghost use Rattle.std.specs.Prelude.{string_bytes};
ghost use Rattle.cert_text.specs.Certificates.{seen};
ghost use Rattle.surface_lib.specs.Described.{described};
ghost use Rattle.surface_lib.specs.Refusals.{moves_kind, reading};
ghost use Rattle.surface_lib.specs.Surfaces.{IsSurface};
ghost use Rattle.flipper_cli.specs.Headline.{IsVerdictLines};
ghost use Rattle.flipper_cli.specs.Options.{budget_of};
ghost use Rattle.flipper_cli.specs.Report.{IsClassifyReport};
ghost use Rattle.flipper_cli.specs.inside.Shown.{shown};
ghost use Rattle.flipper_cli.specs.Verdicts.{verdict_lines, verdict_text};
ghost use Rattle.flipper_cli.specs.inside.AboutSurfaces.{IsAboutSurface};
ghost use Rattle.flipper_cli.specs.inside.SeenCommand.{budget_given};

use crate::line::push_numbers;
use crate::options::read_options;
use crate::refusal::Refusal;
use cert_text::{Certificate, write};
use ideal_tri::Memory;
use std::alloc::Global;
use surface_lib::{Surface, read_word};

/// The verdict on a word in the generators of the surface, and its certificate, as two lines. The
/// surface keeps its name and generators; the search may add triangulations to its atlas.
pub(crate) fn classify(
    alloc: Global,
    s: &mut Surface,
    word: &str,
    options: &[String],
) -> Result<Vec<u8>, Refusal>
    requires surface { IsSurface s.old }
    requires options { budget_of (map string_bytes options.now)
        ≡ Some (budget_given (map string_bytes options.now)) }
    ensures report { IsClassifyReport (described s.old)
        (reading moves_kind (described s.old).generators word.now)
        (budget_given (map string_bytes options.now)) (shown result) ⊎ (result ≡ Err Refusal.Memory) }
    ensures printed { IfOk result (λ bytes. IsVerdictLines (described s.old) word.now
        (budget_given (map string_bytes options.now)) bytes.items) }
    ensures refused { IfErr result IsAboutSurface }
{
    let path = read_word(alloc, s, word)?;
    let budget = read_options(alloc, options)?;
    let certificate = verdict_plan::classify(alloc, s, &path, &budget)?;
    Ok(lines(alloc, &certificate)?)
}

/// The line of the verdict, and the line of its certificate.
fn lines(alloc: Global, c: &Certificate) -> Result<Vec<u8>, Memory>
    ensures { IfOk result (λ bytes. bytes.items ≡ verdict_lines (seen c.now)) }
{
    let mut line = verdict_text(alloc, c)?;
    line.push('\n')?;
    let mut lines = line.into_bytes();
    lines.extend_from_slice(&write(alloc, c)?)?;
    lines.push(b'\n')?;
    Ok(lines)
}

/// The verdict alone: `periodic` and the order, `reducible` and the numbers of a multicurve that the
/// word fixes, `pseudo-Anosov` with the power that carries a track and the bounds of its growth, or
/// `unknown`.
fn verdict_text(alloc: Global, c: &Certificate) -> Result<String, Memory>
    ensures { IfOk result (λ text. string_bytes text ≡ verdict_text (seen c.now)) }
{
    let mut text = String::new(alloc);
    match c {
        Certificate::Periodic { order, .. } => write!(text, "periodic {order}")?,
        Certificate::Reducible { coords } => {
            text.push_str("reducible ")?;
            push_numbers(&mut text, coords)?;
        }
        Certificate::PseudoAnosov(track) => {
            let (low, high) = (track.low, track.high);
            write!(
                text,
                "pseudo-Anosov power {} growth {}/{} {}/{}",
                track.power, low.0, low.1, high.0, high.1
            )?;
        }
        Certificate::Unknown { .. } => text.push_str("unknown")?,
    }
    Ok(text)
}

#[cfg(test)]
mod tests {
    use super::*;
    use cert_text::{Pa, TrackLine};
    use edge_coords::CurveLine;
    use std::test::Fail;

    #[test]
    fn lines_of_a_carried_track(rt: HostRuntime) -> Result<(), Fail> {
        let alloc = rt.alloc();
        let track = Certificate::PseudoAnosov(Pa {
            power: 2,
            flips: vec![in alloc; 4]?,
            left_out: Vec::new(alloc),
            anchors: Vec::new(alloc),
            images: Vec::new(alloc),
            matrix: Vec::new(alloc),
            exponent: 3,
            u: vec![in alloc; 34, 55]?,
            low: (89, 34),
            high: (9_223_372_036_854_775_807, 2),
        });
        let text =
            "pseudo-Anosov power 2 growth 89/34 9223372036854775807/2\n{\"anchors\":[],\"exponent\":3,\"flips\":[4],\"high\":[9223372036854775807,2],\"images\":[],\"kind\":\"pseudo-anosov\",\"left_out\":[],\"low\":[89,34],\"matrix\":[],\"power\":2,\"u\":[34,55]}\n";
        assert_eq!(rt; lines(alloc, &track)?.as_slice(), text.as_bytes());
        Ok(())
    }

    #[test]
    fn lines_of_verdicts(rt: HostRuntime) -> Result<(), Fail> {
        let alloc = rt.alloc();
        let reducible = Certificate::Reducible {
            coords: vec![in alloc; (1 << 126) - 1, 0, 10]?,
        };
        let unknown = Certificate::Unknown {
            powers: Vec::new(alloc),
            capped: Some((1, 262_145)),
            curves: vec![in alloc; CurveLine::Empty, CurveLine::Moved]?,
            tracks: vec![in alloc; TrackLine::Cap { n: 262_145 }, TrackLine::NoBounds]?,
        };
        for (certificate, text) in [
            (
                reducible,
                "reducible 85070591730234615865843651857942052863 0 10\n{\"coords\":[\"85070591730234615865843651857942052863\",\"0\",\"10\"],\"kind\":\"reducible\"}\n",
            ),
            (
                unknown,
                "unknown\n{\"capped\":[1,262145],\"curves\":[\"empty\",\"moved\"],\"kind\":\"unknown\",\"powers\":[],\"tracks\":[\"cap 262145\",\"no_bounds\"]}\n",
            ),
        ] {
            let bytes = lines(alloc, &certificate)?;
            assert_eq!(rt; bytes.as_slice(), text.as_bytes());
        }
        Ok(())
    }
}
