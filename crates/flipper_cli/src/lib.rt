//! The program's work: from a call's words to its report.
//!
//! `run` is the program's top call. Its contract is the project's claim, read in `specs/` in this
//! order: `Commands` and `Options` (what the words ask for), `Coordinates` (the numbers of a vector),
//! `Twists` and `Verdicts` (the lines of a twist, of a verdict and of a check), `Report` (which status
//! and which bytes a call answers), `Headline` (what the printed vector, steps and verdicts mean),
//! `ReadNames` (which files are read) and `Run` (the causes of all other answers, and what the sinks
//! took). What a surface file and a word are is defined in `surface_lib`, what the Dehn twist about a
//! curve is in `twist_compile`, the first verdict within a budget in `verdict_plan`, what its
//! certificate says and means in `cert_text`, and the rules by which one is checked in `cert_checker`.
//! `WorkedDrawings` shows at three vectors what the headline speaks of.
//!
//! ```text
//! let words = ["image", "sphere3.json", "r", "2,1,1"];
//! let status = run(rt.alloc(), &words, &mut shelf, &mut out, &mut err);
//! // the output took `1 2 1` and the end of the line, and the status is Status::Done
//! ```
//!
//! Below it, `settled` makes the line of a refusal, and `work` goes from the words and the shelf to
//! the bytes that are printed: `commands`, `coordinates` and `options` read the words, `source` finds
//! the surface, `show`, `image`, `twist`, `classify` and `check` are the commands, `line` writes the
//! numbers of a vector; `answers` and `refusal` are the statuses and the refusals with their lines.
#![tactic(auto)]

mod answers;
mod check;
mod classify;
mod commands;
mod coordinates;
mod drawings;
mod image;
mod line;
mod options;
mod program;
mod refusal;
mod settled;
mod show;
mod source;
mod twist;
mod work;

pub use answers::Status;
pub use drawings::worked_drawings;
pub use program::run;
pub use refusal::{CertificateFault, CoordinatesError, Refusal, TwistFault};

#[cfg(test)]
mod certificate_tests;
#[cfg(test)]
mod check_tests;
#[cfg(test)]
mod classify_tests;
#[cfg(test)]
mod damaged_tests;
#[cfg(test)]
mod run_tests;
#[cfg(test)]
mod twist_tests;
