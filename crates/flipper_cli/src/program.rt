//! A run of the program.
ghost use Rattle.std.specs.Prelude.{◌≡◌, ◌⊎◌, ◌≤◌, ℕ, List, [], Option, Some, None};
ghost use Rattle.flip_io.specs.Counts.{SameCounts, raised};
ghost use Rattle.flip_io.specs.Files.{Files};
ghost use Rattle.flip_io.specs.Reads.{AfterReads};
ghost use Rattle.flip_io.specs.Taken.{Took, TookPrefix};
ghost use Rattle.flip_io.specs.declared.shelf.ShelfFault.TheVariants.{Absent, Failed};
ghost use Rattle.flipper_cli.specs.Answers.{Report, status_of};
ghost use Rattle.flipper_cli.specs.Commands.{command};
ghost use Rattle.flipper_cli.specs.ReadNames.{IsReadBy};
ghost use Rattle.flipper_cli.specs.Run.{IsLacking, IsMade, IsOver, IsQuiet, IsReported, IsRun};
ghost use Rattle.flipper_cli.specs.Run.{IsWritten, LacksSurface, PrintsHeadline, PrintsRule};
ghost use Rattle.flipper_cli.specs.Run.{ReadRaised, SinkRaised, TellsNoFault};
ghost use Rattle.flipper_cli.specs.inside.Places.{HasLine};
ghost use Rattle.flipper_cli.specs.inside.Shown.{bytes_of, made_as, status_with};

use crate::answers::{Output, Status};
use crate::refusal::Refusal;
use crate::settled::{Settled, fixed_line, settled_work};
use flip_io::{Shelf, ShelfFault, Sink, write_all};
use std::alloc::Global;

/// Writes what the work found: its bytes to the output, or the line of a refusal to the error
/// stream.
fn deliver<O: Sink, E: Sink>(settled: Settled, out: &mut O, err: &mut E) -> Status
    requires { HasLine settled }
    ensures written { IsWritten (made_as settled.made) result
        (O.told out.old) (O.told out.new) (E.told err.old) (E.told err.new) }
    ensures sinks { result ≡ Status.SinkFault
        → SinkRaised (O.faults out.old) (O.faults out.new) (E.faults err.old) (E.faults err.new) }
    ensures uncounted { ¬ (result ≡ Status.SinkFault)
        → (O.faults out.new ≡ O.faults out.old) × (E.faults err.new ≡ E.faults err.old) }
{
    let Settled { made, line } = settled;
    match made {
        Ok(output) => write_output(out, &output),
        Err(refusal) => {
            let line = match fixed_line(refusal) {
                Some(line) => line.as_bytes(),
                None => line.as_slice(),
            };
            write_refusal(err, refusal, line)
        }
    }
}

/// Writes what a command prints to the output.
fn write_output<O: Sink>(out: &mut O, output: &Output) -> Status
    ensures written { ((result ≡ status_with output.now)
        × Took (O.told out.old) (O.told out.new) (bytes_of output.now))
        ⊎ ((result ≡ Status.SinkFault)
        × TookPrefix (O.told out.old) (O.told out.new) (bytes_of output.now)) }
    ensures sinks { result ≡ Status.SinkFault → O.faults out.new ≡ raised (O.faults out.old) }
    ensures uncounted { ¬ (result ≡ Status.SinkFault) → O.faults out.new ≡ O.faults out.old }
{
    if write_all(out, output.bytes()).is_err() {
        return Status::SinkFault;
    }
    output.status()
}

/// Writes the line of a refusal to the error stream.
fn write_refusal<E: Sink>(err: &mut E, refusal: Refusal, line: &[u8]) -> Status
    ensures written { ((result ≡ status_of refusal)
        × Took (E.told err.old) (E.told err.new) line.now)
        ⊎ ((result ≡ Status.SinkFault) × TookPrefix (E.told err.old) (E.told err.new) line.now) }
    ensures sinks { result ≡ Status.SinkFault → E.faults err.new ≡ raised (E.faults err.old) }
    ensures uncounted { ¬ (result ≡ Status.SinkFault) → E.faults err.new ≡ E.faults err.old }
{
    if write_all(err, line).is_err() {
        return Status::SinkFault;
    }
    refusal.status()
}

/// Runs the command that the words name: reads its files from the shelf, and writes what it prints
/// to the output, or one line to the error stream. A write that fails takes the place of any other
/// status.
pub fn run<S: Shelf, O: Sink, E: Sink>(
    alloc: Global,
    words: &[String],
    shelf: &mut S,
    out: &mut O,
    err: &mut E,
) -> Status
    // THE REPORT. The report of the words over the files that the shelf tells is written, or the
    // line of a failed read or of want of memory; where a write failed, the first bytes of it.
    ensures run { (files : Files) → IsOver (S.told shelf.old) (command words.now) files
        → IsRun (command words.now) files result
        (O.told out.old) (O.told out.new) (E.told err.old) (E.told err.new) }

    // Over any shelf it is bytes on the output with the status of success or of a rule that fails,
    // or the line of a refusal with its status.
    ensures written { (made : Report) × IsMade made × IsWritten made result
        (O.told out.old) (O.told out.new) (E.told err.old) (E.told err.new) }

    // With any other status than those two the output took nothing, unless a write failed.
    ensures silent { ¬ (result ≡ Status.Done) → ¬ (result ≡ Status.RuleFailed)
        → ¬ (result ≡ Status.SinkFault) → Took (O.told out.old) (O.told out.new) [] }

    // COMPLETENESS. Where nothing failed, it is the report of the words, written whole, if there
    // was memory.
    ensures quiet { (files : Files) → IsOver (S.told shelf.old) (command words.now) files
        → IsQuiet (command words.now) (S.told shelf.old) (S.faults shelf.old) (S.faults shelf.new)
        (O.faults out.old) (O.faults out.new) (E.faults err.old) (E.faults err.new)
        → IsReported (command words.now) files result
        (O.told out.old) (O.told out.new) (E.told err.old) (E.told err.new)
        ⊎ (result ≡ Status.Memory) }

    // THE CAUSES. A failed read is answered only where the count of a name that the words read
    // rose.
    ensures failed { result ≡ Status.ShelfFault ShelfFault.Failed
        → ReadRaised (command words.now) (S.told shelf.old) (S.faults shelf.old) (S.faults shelf.new) }

    // A file is absent only where the files lack it, or where they aren't told and the count of its
    // name rose.
    ensures lacks { (files : Files) → S.told shelf.old ≡ Some files
        → result ≡ Status.ShelfFault ShelfFault.Absent → IsLacking (command words.now) files }
    ensures absent { S.told shelf.old ≡ None → result ≡ Status.ShelfFault ShelfFault.Absent
        → ReadRaised (command words.now) (S.told shelf.old) (S.faults shelf.old) (S.faults shelf.new) }

    // Where the files lack that of the surface, it is the answer, unless a write failed; of the
    // certificate's the report says so.
    ensures lacking { (files : Files) → S.told shelf.old ≡ Some files
        → LacksSurface (command words.now) files → (result ≡ Status.ShelfFault ShelfFault.Absent) ⊎ (result ≡ Status.SinkFault) }

    // A write failed only where the count of a sink rose.
    ensures sinks { result ≡ Status.SinkFault
        → SinkRaised (O.faults out.old) (O.faults out.new) (E.faults err.old) (E.faults err.new) }

    // No other answer raises a count.
    ensures uncounted { TellsNoFault result
        → SameCounts (S.faults shelf.old) (S.faults shelf.new) }
    ensures missed { (files : Files) → S.told shelf.old ≡ Some files
        → result ≡ Status.ShelfFault ShelfFault.Absent
        → SameCounts (S.faults shelf.old) (S.faults shelf.new) }
    ensures written_uncounted { ¬ (result ≡ Status.SinkFault)
        → (O.faults out.new ≡ O.faults out.old) × (E.faults err.new ≡ E.faults err.old) }

    // THE READS. Only names that the words read are read, and the files stay. Words that fit no
    // command leave the shelf as it was.
    ensures reads { AfterReads S.after_read (IsReadBy (command words.now) (S.told shelf.old))
        shelf.old shelf.new }
    ensures told { S.told shelf.new ≡ S.told shelf.old }
    ensures unread { command words.now ≡ None → shelf.new ≡ shelf.old }

    // Words are refused exactly where they fit no command, unless a write failed.
    ensures usage { result ≡ Status.WordsRefused → command words.now ≡ None }
    ensures unfit { command words.now ≡ None
        → (result ≡ Status.WordsRefused) ⊎ (result ≡ Status.SinkFault) }

    // THE HEADLINE. With the status of success the output took bytes of which it is true over the
    // shelf's files, and over any shelf over some files.
    ensures headline { (files : Files) → S.told shelf.old ≡ Some files → result ≡ Status.Done
        → PrintsHeadline (command words.now) files files (O.told out.old) (O.told out.new) }
    ensures some_files { result ≡ Status.Done → (files : Files) × (later : Files)
        × PrintsHeadline (command words.now) files later (O.told out.old) (O.told out.new) }

    // The status of a rule that fails is answered for `check` alone, and the output took the line of
    // the first rule that fails.
    ensures rule { (files : Files) → S.told shelf.old ≡ Some files → result ≡ Status.RuleFailed
        → PrintsRule (command words.now) files files (O.told out.old) (O.told out.new) }
    ensures some_rule { result ≡ Status.RuleFailed → (files : Files) × (later : Files)
        × PrintsRule (command words.now) files later (O.told out.old) (O.told out.new) }
{
    let settled = settled_work(alloc, words, shelf);
    deliver(settled, out, err)
}
