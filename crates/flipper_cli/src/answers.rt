//! How a run ends.
ghost use Rattle.std.specs.Prelude.{◌≡◌};
ghost use Rattle.flipper_cli.specs.Answers.{status_of, number_of};
ghost use Rattle.flipper_cli.specs.inside.Shown.{bytes_of, status_with};

use crate::refusal::Refusal;
use flip_io::ShelfFault;

/// How a run ends.
#[derive(Clone, Copy, Debug, PartialEq, Eq)]
pub enum Status {
    /// All went well; the answer is on the output.
    Done,
    /// The surface file, the word, the coordinates, the curve of a twist or the certificate's file are
    /// refused.
    InputRefused,
    /// The words of the command line fit no command.
    WordsRefused,
    /// The file of the surface or of the certificate isn't there, or reading it failed.
    ShelfFault(ShelfFault),
    /// A write to the output or to the error stream failed.
    SinkFault,
    /// No memory was found.
    Memory,
    /// A flip of the word gives a coordinate of 2^126 or more.
    Overflow,
    /// A rule of the checker fails: the certificate doesn't hold for the word. The line of the first
    /// that does is on the output.
    RuleFailed,
}

impl Status {
    /// The exit status, from 0 to 7.
    pub fn number(self) -> u8
        ensures { result ≡ number_of self }
    {
        match self {
            Status::Done => 0,
            Status::InputRefused => 1,
            Status::WordsRefused => 2,
            Status::ShelfFault(_) => 3,
            Status::SinkFault => 4,
            Status::Memory => 5,
            Status::Overflow => 6,
            Status::RuleFailed => 7,
        }
    }
}

impl Refusal {
    /// The status that goes with it.
    pub(crate) fn status(self) -> Status
        ensures { result ≡ status_of self }
    {
        match self {
            Refusal::Usage => Status::WordsRefused,
            Refusal::Absent => Status::ShelfFault(ShelfFault::Absent),
            Refusal::Failed => Status::ShelfFault(ShelfFault::Failed),
            Refusal::UnknownBuiltin
            | Refusal::Surface(_)
            | Refusal::Word(_)
            | Refusal::Coordinates(_)
            | Refusal::Twist(_)
            | Refusal::Certificate(_) => Status::InputRefused,
            Refusal::Overflow(_) => Status::Overflow,
            Refusal::Memory => Status::Memory,
        }
    }
}

/// What a command prints on the output.
#[derive(Drop)]
pub(crate) enum Output {
    /// The answer to the command.
    Success(Vec<u8>),
    /// The line of the first rule that a certificate fails.
    FailedRule(Vec<u8>),
}

impl Output {
    /// The bytes that are printed.
    pub(crate) fn bytes(&self) -> &[u8]
        ensures { result.now ≡ bytes_of self.now }
    {
        match self {
            Output::Success(bytes) | Output::FailedRule(bytes) => bytes.as_slice(),
        }
    }

    /// The status that goes with it.
    pub(crate) fn status(&self) -> Status
        ensures { result ≡ status_with self.now }
    {
        match self {
            Output::Success(_) => Status::Done,
            Output::FailedRule(_) => Status::RuleFailed,
        }
    }
}
