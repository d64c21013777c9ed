//! From the word and the file of a certificate to the checker's verdict.
ghost use Rattle.std.specs.Prelude.{◌≡◌, ◌⊎◌, ◌↔◌, ℕ, List, Some, None, Ok, Err, Result, IfOk};
ghost use Rattle.std.specs.Prelude.{IsErrOf};
ghost use Rattle.flip_io.specs.Counts.{SameCounts, raised};
ghost use Rattle.flip_io.specs.Files.{Files};
ghost use Rattle.flip_io.specs.Reads.{AfterReads};
ghost use Rattle.cert_text.specs.Certificates.{seen};
ghost use Rattle.surface_lib.specs.Described.{described};
ghost use Rattle.surface_lib.specs.Refusals.{moves_kind, reading};
ghost use Rattle.surface_lib.specs.Surfaces.{IsSurface};
ghost use Rattle.flipper_cli.specs.Answers.{checked};
ghost use Rattle.flipper_cli.specs.Report.{IsCertificateIn, IsCheckReport};
ghost use Rattle.flipper_cli.specs.ReadNames.{IsWordOf};
ghost use Rattle.flipper_cli.specs.inside.CertificateFiles.{IsCheckedOutput, IsHeldUnless};
ghost use Rattle.flipper_cli.specs.inside.Shown.{made_as, put_out};

use crate::answers::Output;
use crate::refusal::{Refusal, unread_certificate};
use cert_checker::Verdict;
use cert_text::{Certificate, read};
use flip_io::{Shelf, read_all};
use ideal_tri::Memory;
use std::alloc::Global;
use surface_lib::{Surface, read_word};

/// The most bytes of a certificate's file.
const CERTIFICATE_LIMIT: u64 = 67_108_864;

/// The certificate that a file holds.
fn certificate_in<S: Shelf>(
    alloc: Global,
    shelf: &mut S,
    name: &str,
) -> Result<Certificate, Refusal>
    ensures found { (files : Files) → S.told shelf.old ≡ Some files
        → IsHeldUnless (IsCertificateIn (files name.now)) result }
    ensures some_file { IfOk result (λ c.
        (bytes : List ℕ) × IsCertificateIn (Some bytes) (Ok (seen c))) }

    // The reads.
    ensures told { S.told shelf.new ≡ S.told shelf.old }
    ensures reads { AfterReads S.after_read (λ read. read ≡ name.now) shelf.old shelf.new }

    // The causes, and the counts.
    ensures usage { ¬ IsErrOf result Refusal.Usage }
    ensures failed { IsErrOf result Refusal.Failed
        → S.faults shelf.new name.now ≡ raised (S.faults shelf.old name.now) }
    ensures lacks { (files : Files) → S.told shelf.old ≡ Some files
        → IsErrOf result Refusal.Absent → files name.now ≡ None }
    ensures absent { S.told shelf.old ≡ None → IsErrOf result Refusal.Absent
        → S.faults shelf.new name.now ≡ raised (S.faults shelf.old name.now) }
    ensures uncounted { (¬ IsErrOf result Refusal.Failed) → (¬ IsErrOf result Refusal.Absent)
        → SameCounts (S.faults shelf.old) (S.faults shelf.new) }
    ensures missed { (files : Files) → S.told shelf.old ≡ Some files
        → IsErrOf result Refusal.Absent → SameCounts (S.faults shelf.old) (S.faults shelf.new) }
{
    let bytes = match read_all(alloc, shelf, name, CERTIFICATE_LIMIT) {
        Ok(bytes) => bytes,
        Err(error) => return Err(unread_certificate(error)),
    };
    Ok(read(alloc, bytes.as_slice())?)
}

/// The checker's verdict on the certificate that the file of this name holds, for a word in the
/// generators of the surface. The file is read only if the word is one. The check may add
/// triangulations to the surface's atlas.
pub(crate) fn check<S: Shelf>(
    alloc: Global,
    shelf: &mut S,
    s: &mut Surface,
    word: &str,
    certificate: &str,
) -> Result<Output, Refusal>
    requires surface { IsSurface s.old }
    ensures report { (files : Files) → S.told shelf.old ≡ Some files
        → IsCheckReport (described s.old) (reading moves_kind (described s.old).generators word.now)
        (files certificate.now) (made_as result)
        ⊎ ((result ≡ Err Refusal.Failed) ⊎ (result ≡ Err Refusal.Memory)) }

    // What is printed.
    ensures output { (files : Files) → S.told shelf.old ≡ Some files → IfOk result (λ output.
        IsCheckedOutput (described s.old) word.now (files certificate.now) output) }
    ensures some_file { IfOk result (λ output. (bytes : List ℕ)
        × IsCheckedOutput (described s.old) word.now (Some bytes) output) }

    // The reads.
    ensures told { S.told shelf.new ≡ S.told shelf.old }
    ensures reads { AfterReads S.after_read (λ read. (read ≡ certificate.now)
        × IsWordOf (described s.old) word.now) shelf.old shelf.new }

    // The causes, and the counts.
    ensures usage { ¬ IsErrOf result Refusal.Usage }
    ensures failed { IsErrOf result Refusal.Failed
        → (S.faults shelf.new certificate.now ≡ raised (S.faults shelf.old certificate.now))
        × IsWordOf (described s.old) word.now }
    ensures lacks { (files : Files) → S.told shelf.old ≡ Some files
        → IsErrOf result Refusal.Absent
        → (files certificate.now ≡ None) × IsWordOf (described s.old) word.now }
    ensures absent { S.told shelf.old ≡ None → IsErrOf result Refusal.Absent
        → (S.faults shelf.new certificate.now ≡ raised (S.faults shelf.old certificate.now))
        × IsWordOf (described s.old) word.now }
    ensures uncounted { (¬ IsErrOf result Refusal.Failed) → (¬ IsErrOf result Refusal.Absent)
        → SameCounts (S.faults shelf.old) (S.faults shelf.new) }
    ensures missed { (files : Files) → S.told shelf.old ≡ Some files
        → IsErrOf result Refusal.Absent → SameCounts (S.faults shelf.old) (S.faults shelf.new) }
{
    let path = read_word(alloc, s, word)?;
    let certificate = certificate_in(alloc, shelf, certificate)?;
    let verdict = cert_checker::check(alloc, s, &path, &certificate)?;
    Ok(output_of(alloc, verdict)?)
}

/// The line of a verdict: `accepted`, `no claim`, or `refused` and the first rule that fails, with
/// its place.
fn output_of(alloc: Global, verdict: Verdict) -> Result<Output, Memory>
    ensures { IfOk result (λ output. put_out output ≡ checked verdict) }
{
    let mut line = String::new(alloc);
    match verdict {
        Verdict::Accepted => line.push_str("accepted\n")?,
        Verdict::NoClaim => line.push_str("no claim\n")?,
        Verdict::Refused { rule, place } => {
            write!(line, "refused rule {rule} at {place}\n")?;
            return Ok(Output::FailedRule(line.into_bytes()));
        }
    }
    Ok(Output::Success(line.into_bytes()))
}

#[cfg(test)]
mod tests {
    use super::*;
    use std::test::Fail;

    #[test]
    fn outputs(rt: HostRuntime) -> Result<(), Fail> {
        let refused = Verdict::Refused {
            rule: 12,
            place: 9_223_372_036_854_775_807,
        };
        for (verdict, status, line) in [
            (Verdict::Accepted, 0, "accepted\n"),
            (Verdict::NoClaim, 0, "no claim\n"),
            (refused, 7, "refused rule 12 at 9223372036854775807\n"),
        ] {
            let output = output_of(rt.alloc(), verdict)?;
            assert_eq!(rt; output.status().number(), status);
            assert_eq!(rt; output.bytes(), line.as_bytes());
        }
        Ok(())
    }
}
