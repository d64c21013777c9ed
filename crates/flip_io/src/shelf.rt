//! A place that files are read from by name.
ghost use Rattle.std.specs.Prelude.{◌≡◌, ◌≢◌, ◌↔◌, ◌≤◌, ◌<◌, ◌^◌, ℕ, List, Option, Some, None};
ghost use Rattle.std.specs.Prelude.{length, take, drop, IfOk, OnOk, IsErrOf};
ghost use Rattle.flip_io.specs.Counts.{SameCounts, raised};
ghost use Rattle.flip_io.specs.Files.{Files};
ghost use Rattle.flip_io.specs.Finite.{IsFinite};

/// Why a read gave no bytes.
#[derive(Clone, Copy, Debug, PartialEq, Eq)]
pub enum ShelfFault {
    /// There is no file of this name.
    Absent,
    /// The read failed. The name may have a file all the same.
    Failed,
}

/// A place that files are read from by name. It may tell its files to contracts, and then it has
/// finitely many; it may also keep them to itself, as the system does. It counts the reads that
/// failed, name by name; where the files are told each name has a count of its own. Reading changes
/// no file.
pub trait Shelf {
    /// The bytes of each name, where the shelf tells them.
    ghost told: { Self → Option Files };

    /// How often reads of a name have failed: a count of 64 bits, which stays at its last value.
    ghost faults: { Self → List ℕ → ℕ };

    /// What the shelf may be after a read of a name. By this a caller says which names were read.
    ghost after_read: { Self → List ℕ → Self → Type 0 };

    /// Reads bytes of the named file from the place `at` on, counted from 0, into the front of
    /// `buf`, and answers how many. It answers 0 only at the end of the file, and may give fewer
    /// bytes than there is room for.
    fn read(&mut self, name: &str, at: u64, buf: &mut [u8]) -> Result<usize, ShelfFault>
        requires room { 0 < length buf.old }
        requires place { at < 2 ^ 32 }
        ensures count { IfOk result (λ n. n ≤ length buf.new) }
        ensures told { told self.new ≡ told self.old }
        ensures read { after_read self.old name.now self.new }

        // What a told file gives.
        ensures bytes { IfOk result (λ n. (files : Files) (file : List ℕ)
            → told self.old ≡ Some files
            → files name.now ≡ Some file → take n buf.new ≡ take n (drop at file)) }
        ensures end { IfOk result (λ n. (files : Files) (file : List ℕ) → told self.old ≡ Some files
            → files name.now ≡ Some file → n ≡ 0 → length file ≤ at) }

        // A told file is absent exactly where there is none of this name.
        ensures lacks { (files : Files) → told self.old ≡ Some files
            → IsErrOf result ShelfFault.Absent ↔ (files name.now ≡ None) }

        // A failure raises the count of its name by one. So does absence where no files are told.
        ensures failed { IsErrOf result ShelfFault.Failed
            → faults self.new name.now ≡ raised (faults self.old name.now) }
        ensures absent { told self.old ≡ None → IsErrOf result ShelfFault.Absent
            → faults self.new name.now ≡ raised (faults self.old name.now) }

        // Nothing else raises a count, and none falls.
        ensures uncounted { OnOk result (SameCounts (faults self.old) (faults self.new)) }
        ensures missed { (files : Files) → told self.old ≡ Some files
            → IsErrOf result ShelfFault.Absent → SameCounts (faults self.old) (faults self.new) }
        ensures others { (files : Files) → told self.old ≡ Some files → (other : List ℕ)
            → other ≢ name.now → faults self.new other ≡ faults self.old other }
        ensures later { (other : List ℕ) → faults self.old other ≤ faults self.new other };

    /// Only finitely many names have a file.
    ghost finite: { (shelf : Self) (files : Files) → told shelf ≡ Some files → IsFinite files };
}
