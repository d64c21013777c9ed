//! A shelf over the system's files.
ghost use Rattle.std.specs.Prelude.{◌≡◌, ◌≢◌, ◌≤◌, ◌↔◌, ℕ, List, None, length, IfOk, OnErr, OnOk};
ghost use Rattle.std.specs.IoError.{error_kind};
ghost use Rattle.flip_io.specs.Counts.{SameCounts, raised};
ghost use Rattle.flip_io.specs.inside.FiniteMaps.{not_none};
ghost use Rattle.flip_io.specs.inside.Dir.{SparesOthers, count_at, raise_at, read_faults_of};
ghost use Rattle.flip_io.specs.inside.Dir.{words_of};
ghost use Rattle.flip_io.specs.Counters.{is_word, counter_of};
ghost use Rattle.flip_io.specs.declared.dir.Counter.{Counter};

use crate::{Shelf, ShelfFault};
use std::fs;
use std::io::{self, ErrorKind, Read, Seek, SeekFrom};
use std::rt::Files;

/// Which of the three counters a name has.
#[derive(Clone, Copy)]
pub(crate) enum Counter {
    First,
    Second,
    Third,
}

/// How often reads have failed: of the name that is word 1, of the name that is word 3 and not word
/// 1, and of all other names.
#[derive(Drop)]
pub(crate) struct Counters {
    first: u64,
    second: u64,
    third: u64,
}

impl Counters {
    /// Raises one counter, up to its last value.
    fn raise(&mut self, counter: Counter)
        ensures raised { self.new ≡ raise_at self.old counter }
        ensures later { (other : Counter) → count_at self.old other ≤ count_at self.new other }
    {
        match counter {
            Counter::First => self.first = self.first.saturating_add(1),
            Counter::Second => self.second = self.second.saturating_add(1),
            Counter::Third => self.third = self.third.saturating_add(1),
        }
    }
}

/// Whether the word at this place is this name.
fn is_word(words: &[String], at: usize, name: &str) -> bool
    ensures { result ≡ is_word words.now at name.now }
{
    match words.get(at) {
        Some(word) => word.as_str() == name,
        None => false,
    }
}

/// Which counter a name has.
fn counter_of(words: &[String], name: &str) -> Counter
    ensures { result ≡ counter_of words.now name.now }
{
    if is_word(words, 1, name) {
        Counter::First
    } else if is_word(words, 3, name) {
        Counter::Second
    } else {
        Counter::Third
    }
}

/// Reads from the place `at` on, counted from 0.
fn read_at<F: Read + Seek>(file: &mut F, at: u64, buf: &mut [u8]) -> io::Result<usize>
    ensures { IfOk result (λ n. n ≤ length buf.new) }
{
    file.seek(SeekFrom::Start(at))?;
    file.read(buf)
}

/// What it means that a file can't be opened: only a name that isn't there is absent.
fn fault_of(error: &io::Error) -> ShelfFault
    ensures { (result ≡ ShelfFault.Absent) ↔ (error_kind error.now ≡ ErrorKind.NotFound) }
{
    if error.kind() == ErrorKind::NotFound {
        ShelfFault::Absent
    } else {
        ShelfFault::Failed
    }
}

/// Reads bytes of the named file. It is opened anew for each piece, since each call names a file
/// and a place: nothing stays open between calls. A folder, a file that can't be read, and want of
/// memory in the system are failures like others.
fn read_named<R: Files>(rt: &R, name: &str, at: u64, buf: &mut [u8]) -> Result<usize, ShelfFault>
    ensures { IfOk result (λ n. n ≤ length buf.new) }
{
    match fs::open(rt, name) {
        Ok(mut file) => match read_at(&mut file, at, buf) {
            Ok(n) => Ok(n),
            Err(_) => Err(ShelfFault::Failed),
        },
        Err(e) => Err(fault_of(&e)),
    }
}

/// The files that the system has, by names relative to the folder that the program runs in. It
/// tells no content.
///
/// It keeps three counters of faults: one for the name that is word 1 of the command line, one for
/// the name that is word 3 and not word 1, and one for all other names. Words are counted from 0:
/// words 1 and 3 are where the program's commands name files. Each failure raises the counter of
/// its name, also that of a name that isn't there.
#[derive(Drop)]
pub struct DirShelf<'a, R: Files> {
    rt: &'a R,
    words: &'a [String],
    counters: Counters,
}

impl<'a, R: Files> DirShelf<'a, R> {
    /// The files that `rt` reaches, with no fault so far. `words` is the command line without the
    /// program's name.
    pub fn new(rt: &'a R, words: &'a [String]) -> Self
        ensures words { words_of result ≡ words.now }
        ensures faults { (name : List ℕ) → read_faults_of result name ≡ 0 }
    {
        let counters = Counters {
            first: 0,
            second: 0,
            third: 0,
        };
        DirShelf {
            rt,
            words,
            counters,
        }
    }

    /// Reads, and raises the count of the name where that fails.
    fn read_counted(&mut self, name: &str, at: u64, buf: &mut [u8]) -> Result<usize, ShelfFault>
        ensures count { IfOk result (λ n. n ≤ length buf.new) }
        ensures spares { SparesOthers self.old name.now self.new }
        ensures counted { OnErr result
            (read_faults_of self.new name.now ≡ raised (read_faults_of self.old name.now)) }
        ensures uncounted { OnOk result
            (SameCounts (read_faults_of self.old) (read_faults_of self.new)) }
        ensures later { (other : List ℕ)
            → read_faults_of self.old other ≤ read_faults_of self.new other }
    {
        match read_named(self.rt, name, at, buf) {
            Ok(n) => Ok(n),
            Err(fault) => {
                self.counters.raise(counter_of(self.words, name));
                Err(fault)
            }
        }
    }
}

impl<'a, R: Files> Shelf for DirShelf<'a, R> {
    ghost told = { λ _. None };

    ghost faults = { λ s name. read_faults_of s name };

    ghost after_read = { λ s name t. SparesOthers s name t };

    ghost finite = { λ s files told. absurd (not_none files told) };

    fn read(&mut self, name: &str, at: u64, buf: &mut [u8]) -> Result<usize, ShelfFault> {
        self.read_counted(name, at, buf)
    }
}
