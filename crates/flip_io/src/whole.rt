//! Reading a whole file.
ghost use Rattle.std.specs.Prelude.{◌≡◌, ◌≢◌, ◌≤◌, ◌<◌, ◌^◌, ◌↔◌, ℕ, List, Option, Some, None};
ghost use Rattle.std.specs.Prelude.{length, IfOk, IsErrOf};
ghost use Rattle.flip_io.specs.Counts.{SameCounts, raised};
ghost use Rattle.flip_io.specs.Files.{Files};
ghost use Rattle.flip_io.specs.Reads.{AfterReads};
ghost use Rattle.flip_io.specs.Whole.{IsWhole, IsLonger};
ghost use Rattle.flip_io.specs.declared.whole.ReadError.TheVariants.{Memory};

use crate::{Shelf, ShelfFault};
use std::alloc::{AllocError, Global};

/// Why a file was not read.
#[derive(Clone, Copy, Debug, PartialEq, Eq)]
pub enum ReadError {
    /// There is no file of this name.
    Absent,
    /// A read of this name failed.
    Failed,
    /// The file has more bytes than the limit.
    TooLong,
    /// There is no memory for the bytes.
    Memory,
}

impl From<AllocError> for ReadError {
    ghost from_gives = { λ _ e. e ≡ Memory };

    fn from(_: AllocError) -> Self {
        ReadError::Memory
    }
}

impl From<ShelfFault> for ReadError {
    ghost use Rattle.flip_io.specs.Whole.{as_read_error};

    ghost from_gives = { λ fault e. e ≡ as_read_error fault };

    fn from(fault: ShelfFault) -> Self {
        match fault {
            ShelfFault::Absent => ReadError::Absent,
            ShelfFault::Failed => ReadError::Failed,
        }
    }
}

/// How many bytes one read asks for.
const CHUNK: usize = 4096;

/// Reads the whole of a file, to its end, if it has no more bytes than the limit. Each read fills a
/// buffer on the stack before memory is asked for, so an absent file is answered as such even where
/// there is no memory.
pub fn read_all<S: Shelf>(
    alloc: Global,
    shelf: &mut S,
    name: &str,
    limit: u64,
) -> Result<Vec<u8>, ReadError>
    requires { limit < 2 ^ 31 }
    ensures told { S.told shelf.new ≡ S.told shelf.old }
    ensures reads { AfterReads S.after_read (λ read. read ≡ name.now) shelf.old shelf.new }

    // Over a shelf that tells its files.
    ensures whole { (files : Files) → S.told shelf.old ≡ Some files
        → IsWhole (files name.now) limit result }
    ensures lacks { (files : Files) → S.told shelf.old ≡ Some files
        → IsErrOf result ReadError.Absent ↔ (files name.now ≡ None) }
    ensures too_long { (files : Files) → S.told shelf.old ≡ Some files
        → IsErrOf result ReadError.TooLong
        ↔ (IsLonger (files name.now) limit
        × (¬ IsErrOf result ReadError.Failed) × (¬ IsErrOf result ReadError.Memory)) }

    // Over any shelf.
    ensures within { IfOk result (λ v. length v.items ≤ limit) }

    // A failure raises the count of the name by one. So does absence where no files are told.
    ensures failed { IsErrOf result ReadError.Failed
        → S.faults shelf.new name.now ≡ raised (S.faults shelf.old name.now) }
    ensures absent { S.told shelf.old ≡ None → IsErrOf result ReadError.Absent
        → S.faults shelf.new name.now ≡ raised (S.faults shelf.old name.now) }

    // Nothing else raises a count, and none falls.
    ensures uncounted { (¬ IsErrOf result ReadError.Failed) → (¬ IsErrOf result ReadError.Absent)
        → SameCounts (S.faults shelf.old) (S.faults shelf.new) }
    ensures missed { (files : Files) → S.told shelf.old ≡ Some files
        → IsErrOf result ReadError.Absent → SameCounts (S.faults shelf.old) (S.faults shelf.new) }
    ensures others { (files : Files) → S.told shelf.old ≡ Some files → (other : List ℕ)
        → other ≢ name.now → S.faults shelf.new other ≡ S.faults shelf.old other }
    ensures later { (other : List ℕ) → S.faults shelf.old other ≤ S.faults shelf.new other }
{
    let mut bytes = Vec::new(alloc);
    let mut buf = [0u8; CHUNK];
    loop {
        let at = bytes.len() as u64;
        let n = shelf.read(name, at, &mut buf)?;
        if n == 0 {
            return Ok(bytes);
        }
        if n as u64 > limit - at {
            return Err(ReadError::TooLong);
        }
        bytes.extend_from_slice(&buf[..n])?;
    }
}
