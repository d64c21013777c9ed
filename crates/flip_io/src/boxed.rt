//! A shelf and a sink in memory, whose calls fail where they are told to.
ghost use Rattle.std.specs.Prelude.{◌≡◌, ◌≢◌, ◌≤◌, ◌<◌, ◌-◌, ◌^◌, ◌⊎◌, ◌↔◌, min, ℕ, List, []};
ghost use Rattle.std.specs.Prelude.{length, take, drop, Some, None, false, IsSome, IfOk, IsErr};
ghost use Rattle.std.specs.Prelude.{IsOk, OnOk, OnErr, IsErrOf, vec_capacity};
ghost use Rattle.std.specs.Str.{bytes_eq};
ghost use Rattle.flip_io.specs.Counts.{SameCounts, raised};
ghost use Rattle.flip_io.specs.Taken.{Took};
ghost use Rattle.flip_io.specs.inside.FiniteMaps.{told_map_is_finite};
ghost use Rattle.flip_io.specs.Held.{IsListed, SparesOthers, held_files, held_faults};
ghost use Rattle.flip_io.specs.Sure.{room_of};

use crate::part::{append, copy_part};
use crate::{Shelf, ShelfFault, Sink, SinkFault};
use std::collections::BTreeMap;

/// A file, and how often reads of it have failed.
#[derive(Drop)]
pub struct Held {
    pub bytes: Vec<u8>,
    pub faults: u64,
}

/// Files in memory. Calls are counted from 1, and a call whose number is listed fails if its file
/// is there. A name without a file has the count 0.
#[derive(Drop)]
pub struct BoxShelf {
    /// The file of each name.
    pub files: BTreeMap<String, Held>,
    /// How many calls there were, up to the last value of 64 bits.
    pub calls: u64,
    /// The numbers of the calls that fail.
    pub fails: Vec<u64>,
    /// How many bytes one call gives at most, which is one or more.
    pub most: usize,
    ghost gives: { 0 < most },
}

impl Shelf for BoxShelf {
    ghost told = { λ s. Some (held_files s.files) };

    ghost faults = { λ s name. held_faults s.files name };

    ghost after_read = { λ s name t. SparesOthers s.files name t.files };

    ghost finite = { λ s files told. told_map_is_finite (λ h. h.bytes.items) s.files files told };

    fn read(&mut self, name: &str, at: u64, buf: &mut [u8]) -> Result<usize, ShelfFault>
        requires room { 0 < length buf.old }
        requires place { at < 2 ^ 32 }
        ensures count { IfOk result (λ n. n ≤ length buf.new) }
        ensures told { held_files self.new.files ≡ held_files self.old.files }
        ensures bytes { IfOk result (λ n. (file : List ℕ)
            → held_files self.old.files name.now ≡ Some file
            → take n buf.new ≡ take n (drop at file)) }
        ensures end { IfOk result (λ n. (file : List ℕ)
            → held_files self.old.files name.now ≡ Some file → n ≡ 0 → length file ≤ at) }
        ensures lacks { IsErrOf result ShelfFault.Absent
            ↔ (held_files self.old.files name.now ≡ None) }
        ensures failed { IsErrOf result ShelfFault.Failed
            → held_faults self.new.files name.now ≡ raised (held_faults self.old.files name.now) }
        ensures uncounted { OnOk result
            (SameCounts (held_faults self.old.files) (held_faults self.new.files)) }
        ensures missed { IsErrOf result ShelfFault.Absent
            → SameCounts (held_faults self.old.files) (held_faults self.new.files) }
        ensures others { (other : List ℕ) → other ≢ name.now
            → held_faults self.new.files other ≡ held_faults self.old.files other }
        ensures later { (other : List ℕ)
            → held_faults self.old.files other ≤ held_faults self.new.files other }

        // Which calls fail, and how much the others give.
        ensures calls { self.new.calls ≡ raised self.old.calls }
        ensures same_fails { self.new.fails.items ≡ self.old.fails.items }
        ensures same_most { self.new.most ≡ self.old.most }
        ensures fails { IsErrOf result ShelfFault.Failed
            ↔ (IsListed self.new.calls self.old.fails.items
            × IsSome (held_files self.old.files name.now)) }
        ensures most { IfOk result (λ n. (file : List ℕ)
            → held_files self.old.files name.now ≡ Some file
            → n ≡ min (min self.old.most (length buf.new)) (length file - at)) }
    {
        self.calls = self.calls.saturating_add(1);
        let fails = self.fails.as_slice().contains(&self.calls);
        let most = self.most;
        match self.files.get_mut(name) {
            None => Err(ShelfFault::Absent),
            Some(held) => {
                if fails {
                    held.faults = held.faults.saturating_add(1);
                    return Err(ShelfFault::Failed);
                }
                Ok(copy_part(held.bytes.as_slice(), at, buf, most))
            }
        }
    }
}

/// A buffer that takes bytes as far as it has room, and takes no memory. Calls are counted from 1;
/// a call whose number is listed fails, and so does one that finds no room. A call that fails takes
/// no byte.
#[derive(Drop)]
pub struct VecSink {
    /// The buffer, whose capacity is the room.
    pub bytes: Vec<u8>,
    /// How many calls there were, up to the last value of 64 bits.
    pub calls: u64,
    /// The numbers of the calls that fail.
    pub fails: Vec<u64>,
    /// How many calls failed.
    pub faults: u64,
    /// How many bytes one call takes at most, which is one or more.
    pub most: usize,
    ghost takes: { 0 < most },
}

impl Sink for VecSink {
    ghost told = { λ s. Some s.bytes.items };

    ghost faults = { λ s. s.faults };

    fn write(&mut self, bytes: &[u8]) -> Result<usize, SinkFault>
        requires { 0 < length bytes.now }
        ensures count { IfOk result (λ n. n ≤ length bytes.now) }
        ensures some { IfOk result (λ n. 0 < n) }
        ensures took { IfOk result (λ n.
            Took (Some self.old.bytes.items) (Some self.new.bytes.items) (take n bytes.now)) }
        ensures none { OnErr result
            (Took (Some self.old.bytes.items) (Some self.new.bytes.items) []) }
        ensures counted { OnErr result (self.new.faults ≡ raised self.old.faults) }
        ensures uncounted { OnOk result (self.new.faults ≡ self.old.faults) }
        ensures later { self.old.faults ≤ self.new.faults }

        // Which calls fail, and how much the others take.
        ensures calls { self.new.calls ≡ raised self.old.calls }
        ensures same_fails { self.new.fails.items ≡ self.old.fails.items }
        ensures same_most { self.new.most ≡ self.old.most }
        ensures fails { IsErr result
            ↔ (IsListed self.new.calls self.old.fails.items ⊎ (room_of self.old.bytes ≡ 0)) }
        ensures most { IfOk result (λ n.
            n ≡ min (min self.old.most (length bytes.now)) (room_of self.old.bytes)) }
        ensures capacity { vec_capacity self.new.bytes ≡ vec_capacity self.old.bytes }
    {
        self.calls = self.calls.saturating_add(1);
        let fails = self.fails.as_slice().contains(&self.calls);
        let room = self.bytes.capacity() - self.bytes.len();
        if fails || room == 0 {
            self.faults = self.faults.saturating_add(1);
            return Err(SinkFault);
        }
        let n = self.most.min(bytes.len()).min(room);
        append(&mut self.bytes, &bytes[..n]);
        Ok(n)
    }
}
