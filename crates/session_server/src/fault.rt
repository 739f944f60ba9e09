//! Why a question is not answered.

ghost use Rattle.std.specs.Prelude.{◌≡◌, Some};
ghost use Rattle.session_server.specs.Answers.{ask_code, ask_fault};

use cord_search::FindFault;
use lazy_file::SourceFault;
use std::error::Error;
use std::fmt;

/// Why a question is not answered.
#[derive(Clone, Copy, Debug, PartialEq, Eq)]
pub enum AskFault {
    /// `E1`: the session has no such revision.
    NoRevision,
    /// `E3`: a place is not inside the text.
    Range,
    /// `F1`: the pattern is too long.
    PatternTooLong,
    /// A read of a source failed.
    Source(SourceFault),
    /// Memory was refused.
    Memory,
}

/// The code that is told: `E1`, `E3`, `F1`, that of the source's fault, or `memory`.
impl fmt::Display for AskFault {
    ghost output = { λ fault. Some (ask_code fault) };

    ghost use Rattle.std.specs.Prelude.{Some};
    ghost use Rattle.session_server.specs.Answers.{ask_code};

    fn fmt<W: fmt::Write>(&self, f: &mut fmt::Formatter<W>) -> fmt::Result {
        match self {
            AskFault::NoRevision => f.write_str("E1"),
            AskFault::Range => f.write_str("E3"),
            AskFault::PatternTooLong => f.write_str("F1"),
            AskFault::Source(SourceFault::Memory) | AskFault::Memory => f.write_str("memory"),
            AskFault::Source(fault) => write!(f, "{fault}"),
        }
    }
}

impl Error for AskFault {}

impl From<FindFault> for AskFault {
    ghost from_gives = { λ fault e. e ≡ ask_fault fault };

    ghost use Rattle.std.specs.Prelude.{◌≡◌};
    ghost use Rattle.session_server.specs.Answers.{ask_fault};

    fn from(fault: FindFault) -> AskFault {
        match fault {
            FindFault::PatternTooLong => AskFault::PatternTooLong,
            FindFault::Source(fault) => AskFault::Source(fault),
            FindFault::Memory => AskFault::Memory,
        }
    }
}
