//! How a run ends.

ghost use Rattle.std.specs.Prelude.{◌≡◌};
ghost use Rattle.line_server.specs.declared.fault.ServeFault.TheVariants.{Memory};

use std::alloc::{AllocError, AllocFailed};

/// How a run ended that was asked to.
#[derive(Clone, Copy, Debug, PartialEq, Eq)]
pub enum End {
    /// By a line that ends it.
    Asked,
    /// There are no more lines. What stands behind the last end of a line is none.
    Input,
}

/// Why a run ended.
#[derive(Clone, Copy, Debug, PartialEq, Eq)]
pub enum ServeFault {
    /// No line could be read.
    Read,
    /// A line was taken, and could not be kept.
    Keep,
    /// A line was taken, and kept where it was to be; it could not be answered.
    Write,
    /// Memory was refused, to a line or to its answer.
    Memory,
}

impl From<AllocError> for ServeFault {
    ghost from_gives = { λ _ e. e ≡ Memory };

    fn from(_error: AllocError) -> ServeFault {
        ServeFault::Memory
    }
}

impl<T: Drop> From<AllocFailed<T>> for ServeFault {
    ghost from_gives = { λ _ e. e ≡ Memory };

    fn from(_error: AllocFailed<T>) -> ServeFault {
        ServeFault::Memory
    }
}
