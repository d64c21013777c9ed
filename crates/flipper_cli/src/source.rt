//! The surface that FILE stands for.
ghost use Rattle.std.specs.Prelude.{◌≡◌, ◌⊎◌, ◌↔◌, ℕ, List, Some, None, Ok, IfOk, IsErrOf};
ghost use Rattle.flip_io.specs.Counts.{SameCounts, raised};
ghost use Rattle.flip_io.specs.Files.{Files};
ghost use Rattle.flip_io.specs.Reads.{AfterReads};
ghost use Rattle.surface_lib.specs.Described.{described};
ghost use Rattle.surface_lib.specs.Surfaces.{IsSurface};
ghost use Rattle.flipper_cli.specs.Commands.{IsReadFrom};
ghost use Rattle.flipper_cli.specs.Report.{IsFound, IsFoundIn};
ghost use Rattle.flipper_cli.specs.inside.SeenCommand.{seen_source};
ghost use Rattle.flipper_cli.specs.inside.Sources.{found_as, IsFoundUnless, LacksSource};
ghost use Rattle.flipper_cli.specs.inside.Sources.{ReadOfSourceRaised};

use crate::commands::Source;
use crate::refusal::Refusal;
use flip_io::{Shelf, read_all};
use std::alloc::Global;
use surface_lib::{Surface, builtin, read_surface};
use twist_compile::Compiler;

/// The most bytes of a surface file.
const SURFACE_LIMIT: u64 = 1_048_576;

/// The surface of a file.
fn in_file<S: Shelf>(alloc: Global, shelf: &mut S, name: &str) -> Result<Surface, Refusal>
    ensures surface { IfOk result IsSurface }
    ensures found { (files : Files) → S.told shelf.old ≡ Some files
        → IsFoundUnless (IsFoundIn (files name.now)) result }
    ensures some_file { IfOk result (λ s.
        (bytes : List ℕ) × IsFoundIn (Some bytes) (Ok (described s))) }

    // The reads.
    ensures told { S.told shelf.new ≡ S.told shelf.old }
    ensures reads { AfterReads S.after_read (λ read. read ≡ name.now) shelf.old shelf.new }

    // The causes, and the counts.
    ensures usage { ¬ IsErrOf result Refusal.Usage }
    ensures failed { IsErrOf result Refusal.Failed
        → S.faults shelf.new name.now ≡ raised (S.faults shelf.old name.now) }
    ensures lacks { (files : Files) → S.told shelf.old ≡ Some files
        → IsErrOf result Refusal.Absent ↔ (files name.now ≡ None) }
    ensures absent { S.told shelf.old ≡ None → IsErrOf result Refusal.Absent
        → S.faults shelf.new name.now ≡ raised (S.faults shelf.old name.now) }
    ensures uncounted { (¬ IsErrOf result Refusal.Failed) → (¬ IsErrOf result Refusal.Absent)
        → SameCounts (S.faults shelf.old) (S.faults shelf.new) }
    ensures missed { (files : Files) → S.told shelf.old ≡ Some files
        → IsErrOf result Refusal.Absent → SameCounts (S.faults shelf.old) (S.faults shelf.new) }
{
    let bytes = read_all(alloc, shelf, name, SURFACE_LIMIT)?;
    let mut compiler = Compiler;
    Ok(read_surface(alloc, bytes.as_slice(), &mut compiler)?)
}

/// The surface that FILE stands for, of a file or built in.
pub(crate) fn find<S: Shelf>(
    alloc: Global,
    shelf: &mut S,
    source: Source,
) -> Result<Surface, Refusal>
    ensures surface { IfOk result IsSurface }
    ensures found { (files : Files)
        → (S.told shelf.old ≡ Some files) ⊎ ((name : List ℕ) → ¬ IsReadFrom (seen_source source.entry) name)
        → IsFoundUnless (IsFound files (seen_source source.entry)) result }
    ensures some_files { IfOk result (λ s.
        (files : Files) × IsFound files (seen_source source.entry) (Ok (described s))) }

    // The reads.
    ensures told { S.told shelf.new ≡ S.told shelf.old }
    ensures reads { AfterReads S.after_read (IsReadFrom (seen_source source.entry)) shelf.old shelf.new }

    // The causes, and the counts.
    ensures usage { ¬ IsErrOf result Refusal.Usage }
    ensures failed { IsErrOf result Refusal.Failed → ReadOfSourceRaised (seen_source source.entry)
        (S.faults shelf.old) (S.faults shelf.new) }
    ensures lacks { (files : Files) → S.told shelf.old ≡ Some files
        → IsErrOf result Refusal.Absent ↔ LacksSource (seen_source source.entry) files }
    ensures absent { S.told shelf.old ≡ None → IsErrOf result Refusal.Absent
        → ReadOfSourceRaised (seen_source source.entry) (S.faults shelf.old) (S.faults shelf.new) }
    ensures uncounted { (¬ IsErrOf result Refusal.Failed) → (¬ IsErrOf result Refusal.Absent)
        → SameCounts (S.faults shelf.old) (S.faults shelf.new) }
    ensures missed { (files : Files) → S.told shelf.old ≡ Some files
        → IsErrOf result Refusal.Absent → SameCounts (S.faults shelf.old) (S.faults shelf.new) }
{
    match source {
        Source::File(name) => in_file(alloc, shelf, name),
        Source::Builtin(name) => Ok(builtin(alloc, name)?),
    }
}
