//! The program: the words from the system, the real files and streams, and the exit status.
//!
//! All that it does is `flipper_cli::run` over these; its files are read by their names, relative
//! to the folder that the program is started in.
//!
//! ```text
//! flipper image sphere3.json r 2,1,1
//! ```
#![tactic(auto)]

ghost use Rattle.std.specs.Prelude.{◌≡◌, ◌⊎◌, ℕ, List, None, drop, IfOk, String};
ghost use Rattle.std.specs.Process.{exit_status};
ghost use Rattle.std.specs.Vec.Iter.{into_iter_items};
ghost use Rattle.flip_io.specs.Files.{Files as FilesOf};
ghost use Rattle.flipper_cli.specs.Answers.{number_of};
ghost use Rattle.flipper_cli.specs.Commands.{command};
ghost use Rattle.flipper_cli.specs.Headline.{IsHeadline};

use flip_io::{DirShelf, StdSink};
use flipper_cli::{Status, run};
use std::alloc::{AllocError, Global};
use std::env::{self, Args};
use std::io::Write;
use std::process::ExitCode;
use std::rt::Files;

/// The status where the words can't be had as text.
const NO_WORDS: u8 = 8;

/// All words of the command line, the program's name first.
fn all_words(alloc: Global, args: Args) -> Result<Vec<String>, AllocError>
    ensures { IfOk result (λ words. words.items ≡ into_iter_items args) }
{
    args.collect(alloc)
}

/// The words after the program's name.
fn words_after_name(all: &[String]) -> &[String]
    ensures { result.now ≡ drop 1 all.now }
{
    match all {
        [_name, words @ ..] => words,
        [] => all,
    }
}

fn exit_code(status: Status) -> ExitCode
    ensures { exit_status result ≡ number_of status }
{
    ExitCode::from(status.number())
}

/// Runs the words after the program's name over the system's files and these streams.
fn run_words<R: Files, O: Write + Drop, E: Write + Drop>(
    rt: &R,
    alloc: Global,
    all: &[String],
    out: O,
    err: E,
) -> ExitCode
    ensures usage { exit_status result ≡ 2 → command (drop 1 all.now) ≡ None }
    ensures unfit { command (drop 1 all.now) ≡ None
        → (exit_status result ≡ 2) ⊎ (exit_status result ≡ 4) }
    ensures headline { exit_status result ≡ 0
        → (files : FilesOf) × (later : FilesOf) × (printed : List ℕ)
        × IsHeadline (command (drop 1 all.now)) files later printed }
{
    let words = words_after_name(all);
    let mut shelf = DirShelf::new(rt, words);
    let mut out = StdSink::new(out);
    let mut err = StdSink::new(err);
    exit_code(run(alloc, words, &mut shelf, &mut out, &mut err))
}

fn main(rt: HostRuntime) -> ExitCode {
    let Ok(args) = env::args(&rt) else {
        return ExitCode::from(NO_WORDS);
    };
    let Ok(all) = all_words(rt.alloc(), args) else {
        return ExitCode::from(NO_WORDS);
    };
    run_words(&rt, rt.alloc(), &all, rt.stdout(), rt.stderr())
}
