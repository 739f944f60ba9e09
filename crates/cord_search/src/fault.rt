//! Why a search or a write of a text failed.

ghost use Rattle.std.specs.Prelude.{◌≡◌, Some};
ghost use Rattle.cord_search.specs.Faults.{find_fault_code};

use byte_output::WriteFault;
use lazy_file::SourceFault;
use std::alloc::AllocError;
use std::error::Error;
use std::fmt;

/// Why a search has no answer.
#[derive(Clone, Copy, Debug, PartialEq, Eq)]
pub enum FindFault {
    /// `F1`: the pattern is longer than `PATTERN_LIMIT`.
    PatternTooLong,
    /// A byte of the text could not be read.
    Source(SourceFault),
    /// Memory was refused.
    Memory,
}

impl fmt::Display for FindFault {
    ghost output = { λ fault. Some (find_fault_code fault) };

    fn fmt<W: fmt::Write>(&self, f: &mut fmt::Formatter<W>) -> fmt::Result {
        match self {
            FindFault::PatternTooLong => f.write_str("F1"),
            FindFault::Source(fault) => write!(f, "{fault}"),
            FindFault::Memory => f.write_str("Memory"),
        }
    }
}

impl Error for FindFault {}

impl From<SourceFault> for FindFault {
    ghost use Rattle.cord_search.specs.declared.fault.FindFault.TheVariants.{Source};

    ghost from_gives = { λ e f. f ≡ Source e };

    fn from(fault: SourceFault) -> FindFault {
        FindFault::Source(fault)
    }
}

impl From<AllocError> for FindFault {
    ghost use Rattle.cord_search.specs.declared.fault.FindFault.TheVariants.{Memory};

    ghost from_gives = { λ _ f. f ≡ Memory };

    fn from(_error: AllocError) -> FindFault {
        FindFault::Memory
    }
}

/// Why a text was not written to its end.
#[derive(Clone, Copy, Debug, PartialEq, Eq)]
pub enum PutFault {
    /// A byte of the text could not be read.
    Source(SourceFault),
    /// The writer failed, or took no byte.
    Write,
}

impl From<SourceFault> for PutFault {
    ghost use Rattle.cord_search.specs.declared.fault.PutFault.TheVariants.{Source};

    ghost from_gives = { λ e f. f ≡ Source e };

    fn from(fault: SourceFault) -> PutFault {
        PutFault::Source(fault)
    }
}

impl From<WriteFault> for PutFault {
    ghost use Rattle.cord_search.specs.declared.fault.PutFault.TheVariants.{Write};

    ghost from_gives = { λ _ f. f ≡ Write };

    fn from(_fault: WriteFault) -> PutFault {
        PutFault::Write
    }
}
