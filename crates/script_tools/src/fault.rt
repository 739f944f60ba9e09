//! Why a script gave no image, and an image no log or blame.

ghost use Rattle.std.specs.Prelude.{◌≡◌};
ghost use Rattle.script_tools.specs.declared.fault.PieceFault.TheVariants.{Memory, Write};

use byte_output::WriteFault;
use edit_commands::EditFault;
use edit_script::Stopped;
use saved_session::TakeFault;
use session_checker::CheckFault;
use std::alloc::{AllocError, AllocFailed};

/// Why a script gave no image.
#[derive(Clone, Copy, Debug, PartialEq, Eq)]
pub enum ApplyFault {
    /// A line was not taken.
    Stop(Stopped),
    /// A source was not.
    Source(EditFault),
    /// The image was not written to its end.
    Write,
}

/// Why a script gave no image behind another.
#[derive(Clone, Copy, Debug, PartialEq, Eq)]
pub enum OntoFault {
    /// The image was not accepted: it is refused, or a read of a source failed.
    Check(CheckFault),
    /// No session goes on from the image.
    TakeUp(TakeFault),
    /// A line was not taken.
    Stop(Stopped),
    /// The new image was not written to its end.
    Write,
}

/// Why a log was not written to its end.
#[derive(Clone, Copy, Debug, PartialEq, Eq)]
pub enum LogFault {
    /// The image was not accepted: it is refused, or a read of a source failed.
    Check(CheckFault),
    /// Memory for a piece of a line was refused.
    Memory,
    /// The writer failed, or took no byte.
    Write,
}

/// Why it was not told to the end where bytes come from.
#[derive(Clone, Copy, Debug, PartialEq, Eq)]
pub enum BlameFault {
    /// The image was not accepted: it is refused, or a read of a source failed.
    Check(CheckFault),
    /// The image has no such revision.
    NoRevision,
    /// Memory was refused.
    Memory,
    /// The writer failed, or took no byte.
    Write,
}

/// Why a piece of a log was not written.
#[derive(Clone, Copy, Debug, PartialEq, Eq)]
pub(crate) enum PieceFault {
    /// Memory for it was refused.
    Memory,
    /// The writer failed, or took no byte.
    Write,
}

impl From<AllocError> for PieceFault {
    ghost from_gives = { λ _ e. e ≡ Memory };

    fn from(_error: AllocError) -> PieceFault {
        PieceFault::Memory
    }
}

impl<T: Drop> From<AllocFailed<T>> for PieceFault {
    ghost from_gives = { λ _ e. e ≡ Memory };

    fn from(_error: AllocFailed<T>) -> PieceFault {
        PieceFault::Memory
    }
}

impl From<WriteFault> for PieceFault {
    ghost from_gives = { λ _ e. e ≡ Write };

    fn from(_fault: WriteFault) -> PieceFault {
        PieceFault::Write
    }
}
