//! From the words and the shelf to what is printed.
ghost use Rattle.std.specs.Prelude.{◌≡◌, ◌⊎◌, ◌↔◌, ℕ, List, Some, None, Err, IfOk, IfErr, IsErrOf};
ghost use Rattle.flip_io.specs.Counts.{SameCounts};
ghost use Rattle.flip_io.specs.Files.{Files};
ghost use Rattle.flip_io.specs.Reads.{AfterReads};
ghost use Rattle.surface_lib.specs.Described.{described};
ghost use Rattle.surface_lib.specs.Surfaces.{IsSurface};
ghost use Rattle.flipper_cli.specs.Commands.{command, source_in};
ghost use Rattle.flipper_cli.specs.ReadNames.{IsCertificateOf, IsReadBy};
ghost use Rattle.flipper_cli.specs.Report.{IsSurfaceReport};
ghost use Rattle.flipper_cli.specs.Run.{IsAnswer, IsLacking, IsOver, LacksSurface, ReadRaised};
ghost use Rattle.flipper_cli.specs.inside.AboutSurfaces.{IsAboutSurface};
ghost use Rattle.flipper_cli.specs.inside.CertificateFiles.{IsReadBehind, LacksBehind};
ghost use Rattle.flipper_cli.specs.inside.CertificateFiles.{ReadBehindRaised};
ghost use Rattle.flipper_cli.specs.inside.SeenCommand.{seen, seen_source, HasBudget};
ghost use Rattle.flipper_cli.specs.inside.Shown.{IsOutputOf, IsTrueOutput, as_output, made_as};

use crate::answers::Output;
use crate::check::check;
use crate::classify::classify;
use crate::commands::{Command, Source, command_of};
use crate::image::image;
use crate::refusal::Refusal;
use crate::show::show;
use crate::source::find;
use crate::twist::twist;
use flip_io::Shelf;
use std::alloc::Global;
use surface_lib::Surface;

/// The surface that a command is about.
fn source_of(command: Command<'_>) -> Source<'_>
    ensures { seen_source result ≡ source_in (seen command.entry) }
{
    match command {
        Command::Show { source } => source,
        Command::Image { source, .. }
        | Command::Twist { source, .. }
        | Command::Classify { source, .. }
        | Command::Check { source, .. } => source,
    }
}

/// What goes to the output of a command that fails no rule.
fn success(made: Result<Vec<u8>, Refusal>) -> Result<Output, Refusal>
    ensures { result ≡ as_output made }
{
    match made {
        Ok(bytes) => Ok(Output::Success(bytes)),
        Err(refusal) => Err(refusal),
    }
}

/// What a command prints about its surface.
fn about<S: Shelf>(
    alloc: Global,
    shelf: &mut S,
    s: &mut Surface,
    command: Command,
) -> Result<Output, Refusal>
    requires surface { IsSurface s.old }
    requires budget { HasBudget command }
    ensures report { (files : Files) → (S.told shelf.old ≡ Some files)
        ⊎ ((name : List ℕ) → ¬ IsCertificateOf (seen command.entry) name)
        → IsSurfaceReport (seen command.entry) files (described s.old) (made_as result)
        ⊎ ((result ≡ Err Refusal.Failed) ⊎ (result ≡ Err Refusal.Memory)) }

    // What is printed.
    ensures output { (files : Files) → S.told shelf.old ≡ Some files → IfOk result (λ output.
        IsTrueOutput (seen command.entry) (described s.old) files output) }
    ensures some_files { IfOk result (λ output. (later : Files)
        × IsTrueOutput (seen command.entry) (described s.old) later output) }

    // The reads.
    ensures told { S.told shelf.new ≡ S.told shelf.old }
    ensures reads { AfterReads S.after_read (IsReadBehind (seen command.entry) (described s.old))
        shelf.old shelf.new }

    // The causes, and the counts.
    ensures usage { ¬ IsErrOf result Refusal.Usage }
    ensures failed { IsErrOf result Refusal.Failed
        → ReadBehindRaised (seen command.entry) (described s.old) (S.faults shelf.old)
        (S.faults shelf.new) }
    ensures lacks { (files : Files) → S.told shelf.old ≡ Some files
        → IsErrOf result Refusal.Absent → LacksBehind (seen command.entry) (described s.old) files }
    ensures absent { S.told shelf.old ≡ None → IsErrOf result Refusal.Absent
        → ReadBehindRaised (seen command.entry) (described s.old) (S.faults shelf.old)
        (S.faults shelf.new) }
    ensures uncounted { (¬ IsErrOf result Refusal.Failed) → (¬ IsErrOf result Refusal.Absent)
        → SameCounts (S.faults shelf.old) (S.faults shelf.new) }
    ensures missed { (files : Files) → S.told shelf.old ≡ Some files
        → IsErrOf result Refusal.Absent → SameCounts (S.faults shelf.old) (S.faults shelf.new) }
{
    match command {
        Command::Show { .. } => Ok(Output::Success(show(alloc, s)?)),
        Command::Image {
            word,
            coordinates,
            ..
        } => success(image(alloc, s, word, coordinates)),
        Command::Twist {
            coordinates,
            hand,
            ..
        } => success(twist(alloc, s, coordinates, hand)),
        Command::Classify { word, options, .. } => success(classify(alloc, s, word, options)),
        Command::Check {
            word,
            certificate,
            ..
        } => check(alloc, shelf, s, word, certificate),
    }
}

/// What a command prints.
fn answer<S: Shelf>(alloc: Global, shelf: &mut S, command: Command) -> Result<Output, Refusal>
    requires { HasBudget command }
    ensures report { (files : Files)
        → IsOver (S.told shelf.old) (Some (seen command.entry)) files
        → IsAnswer (Some (seen command.entry)) files (made_as result) }
    ensures usage { ¬ IsErrOf result Refusal.Usage }

    // The reads.
    ensures told { S.told shelf.new ≡ S.told shelf.old }
    ensures reads { AfterReads S.after_read (IsReadBy (Some (seen command.entry)) (S.told shelf.old))
        shelf.old shelf.new }

    // The causes, and the counts.
    ensures failed { IsErrOf result Refusal.Failed
        → ReadRaised (Some (seen command.entry)) (S.told shelf.old)
        (S.faults shelf.old) (S.faults shelf.new) }
    ensures lacks { (files : Files) → S.told shelf.old ≡ Some files
        → IsErrOf result Refusal.Absent → IsLacking (Some (seen command.entry)) files }
    ensures lacking { (files : Files) → S.told shelf.old ≡ Some files
        → LacksSurface (Some (seen command.entry)) files → IsErrOf result Refusal.Absent }
    ensures absent { S.told shelf.old ≡ None → IsErrOf result Refusal.Absent
        → ReadRaised (Some (seen command.entry)) (S.told shelf.old)
        (S.faults shelf.old) (S.faults shelf.new) }
    ensures uncounted { (¬ IsErrOf result Refusal.Failed) → (¬ IsErrOf result Refusal.Absent)
        → SameCounts (S.faults shelf.old) (S.faults shelf.new) }
    ensures missed { (files : Files) → S.told shelf.old ≡ Some files
        → IsErrOf result Refusal.Absent → SameCounts (S.faults shelf.old) (S.faults shelf.new) }

    // What is printed.
    ensures headline { (files : Files) → S.told shelf.old ≡ Some files → IfOk result (λ output.
        IsOutputOf (Some (seen command.entry)) files files output) }
    ensures some_files { IfOk result (λ output. (files : Files) × (later : Files)
        × IsOutputOf (Some (seen command.entry)) files later output) }
{
    let mut surface = find(alloc, shelf, source_of(command))?;
    about(alloc, shelf, &mut surface, command)
}

/// What the command that the words fit prints.
pub(crate) fn work<S: Shelf>(
    alloc: Global,
    words: &[String],
    shelf: &mut S,
) -> Result<Output, Refusal>
    ensures report { (files : Files) → IsOver (S.told shelf.old) (command words.now) files
        → IsAnswer (command words.now) files (made_as result) }
    ensures usage { IsErrOf result Refusal.Usage ↔ (command words.now ≡ None) }

    // The reads.
    ensures told { S.told shelf.new ≡ S.told shelf.old }
    ensures reads { AfterReads S.after_read (IsReadBy (command words.now) (S.told shelf.old))
        shelf.old shelf.new }
    ensures unread { command words.now ≡ None → shelf.new ≡ shelf.old }

    // The causes, and the counts.
    ensures failed { IsErrOf result Refusal.Failed
        → ReadRaised (command words.now) (S.told shelf.old) (S.faults shelf.old) (S.faults shelf.new) }
    ensures lacks { (files : Files) → S.told shelf.old ≡ Some files
        → IsErrOf result Refusal.Absent → IsLacking (command words.now) files }
    ensures lacking { (files : Files) → S.told shelf.old ≡ Some files
        → LacksSurface (command words.now) files → IsErrOf result Refusal.Absent }
    ensures absent { S.told shelf.old ≡ None → IsErrOf result Refusal.Absent
        → ReadRaised (command words.now) (S.told shelf.old) (S.faults shelf.old) (S.faults shelf.new) }
    ensures uncounted { (¬ IsErrOf result Refusal.Failed) → (¬ IsErrOf result Refusal.Absent)
        → SameCounts (S.faults shelf.old) (S.faults shelf.new) }
    ensures missed { (files : Files) → S.told shelf.old ≡ Some files
        → IsErrOf result Refusal.Absent → SameCounts (S.faults shelf.old) (S.faults shelf.new) }

    // What is printed.
    ensures headline { (files : Files) → S.told shelf.old ≡ Some files
        → IfOk result (λ output. IsOutputOf (command words.now) files files output) }
    ensures some_files { IfOk result (λ output. (files : Files) × (later : Files)
        × IsOutputOf (command words.now) files later output) }
{
    match command_of(words) {
        None => Err(Refusal::Usage),
        Some(command) => answer(alloc, shelf, command),
    }
}
