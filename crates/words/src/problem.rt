ghost use Rattle.std.specs.Prelude.{◌≡◌, Some};
ghost use Rattle.words.specs.Problems.{text_of};
ghost use Rattle.words.specs.declared.problem.Problem.TheVariants.{OutOfMemory};

use std::alloc::AllocError;
use std::error::Error;
use std::fmt;

/// Why a line is no command.
#[derive(Clone, Copy, Debug, PartialEq, Eq)]
pub enum Problem {
    UnknownCommand,
    MissingWord,
    ExtraWord,
    NotANumber,
    OutOfRange,
    NotARecord,
    OddHex,
    NotHex,
    NotAVerdict,
    NotAnAsk,
    NotAsks,
    NoMember,
    OutOfMemory,
}

impl Problem {
    /// What is wrong, in words.
    pub fn as_str(self) -> &'static str
        ensures { result.now ≡ text_of self }
    {
        match self {
            Problem::UnknownCommand => "unknown command",
            Problem::MissingWord => "a word is missing",
            Problem::ExtraWord => "a word too many",
            Problem::NotANumber => "not a decimal number",
            Problem::OutOfRange => "number out of range",
            Problem::NotARecord => "not a record: expected 'bytes' or a kind",
            Problem::OddHex => "odd number of hex digits",
            Problem::NotHex => "not lower-case hex digits",
            Problem::NotAVerdict => "not a verdict: expected 'pass' or 'fail'",
            Problem::NotAnAsk => "not an ask: expected 'nullification' or 'notarization'",
            Problem::NotAsks =>
                "not asks: expected 'background', 'nullification', 'notarization' or '-'",
            Problem::NoMember => "no member yet",
            Problem::OutOfMemory => "out of memory",
        }
    }
}

impl fmt::Display for Problem {
    ghost output = { λ p. Some (text_of p) };

    fn fmt<W: fmt::Write>(&self, f: &mut fmt::Formatter<W>) -> fmt::Result {
        f.write_str(self.as_str())
    }
}

impl Error for Problem {}

impl From<AllocError> for Problem {
    ghost from_gives = { λ _ p. p ≡ OutOfMemory };

    fn from(_error: AllocError) -> Problem {
        Problem::OutOfMemory
    }
}
