//! Answers whose lines are made, before anything is written.
ghost use Rattle.std.specs.Prelude.{◌≡◌, ◌⊎◌, ◌↔◌, ℕ, List, Some, None, Err, Result, IfOk};
ghost use Rattle.std.specs.Prelude.{IfErr, IsErrOf, IsTrue, MatchOption};
ghost use Rattle.flip_io.specs.Counts.{SameCounts};
ghost use Rattle.flip_io.specs.Files.{Files};
ghost use Rattle.flip_io.specs.Reads.{AfterReads};
ghost use Rattle.flipper_cli.specs.Commands.{command};
ghost use Rattle.flipper_cli.specs.ReadNames.{IsReadBy};
ghost use Rattle.flipper_cli.specs.RefusalLines.{line_for};
ghost use Rattle.flipper_cli.specs.Run.{IsAnswer, IsLacking, IsOver, LacksSurface, ReadRaised};
ghost use Rattle.flipper_cli.specs.inside.Places.{HasPlace, HasLine, IsSettled};
ghost use Rattle.flipper_cli.specs.inside.Shown.{IsOutputOf, made_as};

use crate::answers::Output;
use crate::refusal::Refusal;
use crate::work::work;
use flip_io::Shelf;
use std::alloc::Global;

/// What the work found, and the line of its refusal where that tells of a place or a number.
#[derive(Drop)]
pub(crate) struct Settled {
    pub(crate) made: Result<Output, Refusal>,
    pub(crate) line: Vec<u8>,
}

/// The line of a refusal that tells of no place; none for the others.
pub(crate) fn fixed_line(refusal: Refusal) -> Option<&'static str>
    ensures { MatchOption result (HasPlace refusal)
        (λ line. (¬ HasPlace refusal) × (line.now ≡ line_for refusal)) }
{
    match refusal {
        Refusal::Usage => Some("error: usage\n"),
        Refusal::Absent => Some("error: shelf Absent\n"),
        Refusal::Failed => Some("error: shelf Failed\n"),
        Refusal::UnknownBuiltin => Some("error: surface UnknownBuiltin\n"),
        Refusal::Memory => Some("error: memory\n"),
        Refusal::Surface(_)
        | Refusal::Word(_)
        | Refusal::Coordinates(_)
        | Refusal::Twist(_)
        | Refusal::Certificate(_)
        | Refusal::Overflow(_) => None,
    }
}

/// Makes the line of a refusal; without memory for it the refusal is want of memory.
fn with_line(alloc: Global, refusal: Refusal) -> Settled
    requires { HasPlace refusal }
    ensures settled { (result.made ≡ Err refusal) ⊎ (result.made ≡ Err Refusal.Memory) }
    ensures line { HasLine result }
{
    match refusal.line(alloc) {
        Ok(line) => Settled {
            made: Err(refusal),
            line,
        },
        Err(_) => Settled {
            made: Err(Refusal::Memory),
            line: Vec::new(alloc),
        },
    }
}

/// Makes the line of what was made, if it is a refusal that tells of a place.
fn settle(alloc: Global, made: Result<Output, Refusal>) -> Settled
    ensures settled { IsSettled made result.made }
    ensures line { HasLine result }
{
    match made {
        Ok(output) => Settled {
            made: Ok(output),
            line: Vec::new(alloc),
        },
        Err(refusal) => match fixed_line(refusal) {
            Some(_) => Settled {
                made: Err(refusal),
                line: Vec::new(alloc),
            },
            None => with_line(alloc, refusal),
        },
    }
}

/// What the command that the words fit prints, with the line of a refusal.
pub(crate) fn settled_work<S: Shelf>(alloc: Global, words: &[String], shelf: &mut S) -> Settled
    ensures line { HasLine result }
    ensures report { (files : Files) → IsOver (S.told shelf.old) (command words.now) files
        → IsAnswer (command words.now) files (made_as result.made) }
    ensures usage { IsErrOf result.made Refusal.Usage ↔ (command words.now ≡ None) }

    // The reads.
    ensures told { S.told shelf.new ≡ S.told shelf.old }
    ensures reads { AfterReads S.after_read (IsReadBy (command words.now) (S.told shelf.old))
        shelf.old shelf.new }
    ensures unread { command words.now ≡ None → shelf.new ≡ shelf.old }

    // The causes, and the counts.
    ensures failed { IsErrOf result.made Refusal.Failed
        → ReadRaised (command words.now) (S.told shelf.old) (S.faults shelf.old) (S.faults shelf.new) }
    ensures lacks { (files : Files) → S.told shelf.old ≡ Some files
        → IsErrOf result.made Refusal.Absent → IsLacking (command words.now) files }
    ensures lacking { (files : Files) → S.told shelf.old ≡ Some files
        → LacksSurface (command words.now) files → IsErrOf result.made Refusal.Absent }
    ensures absent { S.told shelf.old ≡ None → IsErrOf result.made Refusal.Absent
        → ReadRaised (command words.now) (S.told shelf.old) (S.faults shelf.old) (S.faults shelf.new) }
    ensures uncounted { (¬ IsErrOf result.made Refusal.Failed)
        → (¬ IsErrOf result.made Refusal.Absent)
        → SameCounts (S.faults shelf.old) (S.faults shelf.new) }
    ensures missed { (files : Files) → S.told shelf.old ≡ Some files
        → IsErrOf result.made Refusal.Absent
        → SameCounts (S.faults shelf.old) (S.faults shelf.new) }

    // What is printed.
    ensures headline { (files : Files) → S.told shelf.old ≡ Some files
        → IfOk result.made (λ output. IsOutputOf (command words.now) files files output) }
    ensures some_files { IfOk result.made (λ output. (files : Files) × (later : Files)
        × IsOutputOf (command words.now) files later output) }
{
    let made = work(alloc, words, shelf);
    settle(alloc, made)
}
