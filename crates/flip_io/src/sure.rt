//! A shelf and a sink in memory that never fail.
ghost use Rattle.std.specs.Prelude.{◌≡◌, ◌≤◌, ◌<◌, ◌+◌, ◌-◌, ◌^◌, ◌++◌, ◌||◌, ◌↔◌, min, nat_lt, ℕ};
ghost use Rattle.std.specs.Prelude.{List, length, take, drop, Some, None, IfOk, IsErrOf};
ghost use Rattle.std.specs.Prelude.{vec_capacity, [], OnErr};
ghost use Rattle.flip_io.specs.Files.{Files};
ghost use Rattle.flip_io.specs.inside.FiniteMaps.{told_map_is_finite};
ghost use Rattle.flip_io.specs.Sure.{files_of, told_unless, room_of};
ghost use Rattle.flip_io.specs.Taken.{Took};

use crate::part::{append, copy_part};
use crate::{Shelf, ShelfFault, Sink, SinkFault};
use std::collections::BTreeMap;

/// Files in memory, of which each read is answered: no read fails, and the count of faults is
/// always 0.
#[derive(Drop)]
pub struct SureShelf {
    /// The bytes of each name.
    pub files: BTreeMap<String, Vec<u8>>,
}

impl Shelf for SureShelf {
    ghost told = { λ s. Some (files_of s.files) };

    ghost faults = { λ s name. 0 };

    ghost after_read = { λ s name t. t ≡ s };

    ghost finite = { λ s files told. told_map_is_finite (λ file. file.items) s.files files told };

    fn read(&mut self, name: &str, at: u64, buf: &mut [u8]) -> Result<usize, ShelfFault>
        requires room { 0 < length buf.old }
        requires place { at < 2 ^ 32 }
        ensures count { IfOk result (λ n. n ≤ length buf.new) }
        ensures read { self.new ≡ self.old }
        ensures bytes { IfOk result (λ n. (file : List ℕ)
            → files_of self.old.files name.now ≡ Some file
            → take n buf.new ≡ take n (drop at file)) }
        ensures end { IfOk result (λ n. (file : List ℕ)
            → files_of self.old.files name.now ≡ Some file → n ≡ 0 → length file ≤ at) }
        ensures lacks { IsErrOf result ShelfFault.Absent
            ↔ (files_of self.old.files name.now ≡ None) }
        ensures never_failed { ¬ IsErrOf result ShelfFault.Failed }

        // It gives all that is left of the file, if that fits.
        ensures most { IfOk result (λ n. (file : List ℕ)
            → files_of self.old.files name.now ≡ Some file
            → n ≡ min (length buf.new) (length file - at)) }
    {
        match self.files.get(name) {
            None => Err(ShelfFault::Absent),
            Some(file) => {
                let most = buf.len();
                Ok(copy_part(file, at, buf, most))
            }
        }
    }
}

/// Takes all bytes, and keeps those that find room in the buffer, so that it takes no memory. Once
/// it has dropped a byte it tells nothing. No write fails, and the count of faults is always 0.
#[derive(Drop)]
pub struct SureSink {
    /// The buffer, whose capacity is the room.
    pub bytes: Vec<u8>,
    /// Whether a byte found no room so far.
    pub dropped: bool,
}

impl Sink for SureSink {
    ghost told = { λ s. told_unless s.dropped s.bytes.items };

    ghost faults = { λ s. 0 };

    fn write(&mut self, bytes: &[u8]) -> Result<usize, SinkFault>
        requires { 0 < length bytes.now }
        ensures count { IfOk result (λ n. n ≤ length bytes.now) }
        ensures some { IfOk result (λ n. 0 < n) }
        ensures took { IfOk result (λ n. Took
            (told_unless self.old.dropped self.old.bytes.items)
            (told_unless self.new.dropped self.new.bytes.items) (take n bytes.now)) }

        // No fault: all bytes are taken, and those behind the room are dropped.
        ensures takes_all { result ≡ Ok (length bytes.now) }
        ensures dropped { self.new.dropped
            ≡ (self.old.dropped || nat_lt (room_of self.old.bytes) (length bytes.now)) }
        ensures kept { self.new.bytes.items
            ≡ self.old.bytes.items ++ take (room_of self.old.bytes) bytes.now }

        // With room for all, all are added and none is dropped.
        ensures fits { length bytes.now ≤ room_of self.old.bytes
            → self.new.dropped ≡ self.old.dropped }
        ensures added { length bytes.now ≤ room_of self.old.bytes
            → self.new.bytes.items ≡ self.old.bytes.items ++ bytes.now }
        ensures capacity { vec_capacity self.new.bytes ≡ vec_capacity self.old.bytes }
    {
        let room = self.bytes.capacity() - self.bytes.len();
        if bytes.len() <= room {
            append(&mut self.bytes, bytes);
        } else {
            append(&mut self.bytes, &bytes[..room]);
            self.dropped = true;
        }
        Ok(bytes.len())
    }
}
