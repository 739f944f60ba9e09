//! Why no frame was made.

ghost use Rattle.std.specs.Prelude.{◌≡◌};

use lazy_file::SourceFault;
use std::alloc::{AllocError, AllocFailed};

/// Why no frame was made.
#[derive(Clone, Copy, Debug, PartialEq, Eq)]
pub enum FrameFault {
    /// A byte to be shown, or a line break, could not be read.
    Source(SourceFault),
    /// Memory was refused.
    Memory,
}

impl From<SourceFault> for FrameFault {
    ghost use Rattle.text_lines.specs.declared.fault.FrameFault.TheVariants.{Source};

    ghost from_gives = { λ e f. f ≡ Source e };

    fn from(fault: SourceFault) -> FrameFault {
        FrameFault::Source(fault)
    }
}

impl From<AllocError> for FrameFault {
    ghost use Rattle.text_lines.specs.declared.fault.FrameFault.TheVariants.{Memory};

    ghost from_gives = { λ _ f. f ≡ Memory };

    fn from(_refused: AllocError) -> FrameFault {
        FrameFault::Memory
    }
}

impl<T: Drop> From<AllocFailed<T>> for FrameFault {
    ghost use Rattle.text_lines.specs.declared.fault.FrameFault.TheVariants.{Memory};

    ghost from_gives = { λ _ f. f ≡ Memory };

    fn from(_refused: AllocFailed<T>) -> FrameFault {
        FrameFault::Memory
    }
}
