//! Why a command line was not read.

ghost use Rattle.std.specs.Prelude.{◌≡◌};
ghost use Rattle.cord_words.specs.Refusals.{fault_from};
ghost use Rattle.cord_words.specs.declared.fault.WordsFault.TheVariants.{Memory};

use clap::error::ErrorKind;
use std::alloc::AllocError;
use thiserror::Error;

/// Why no action was read of the words.
#[derive(Debug, Drop, Error)]
pub enum WordsFault {
    /// The words are not as the program takes them, or ask for help. The text for the user is the
    /// error's `Display`.
    #[error("{0}")]
    Usage(clap::Error),
    /// The words ask for the program's version, which is the error's `Display`.
    #[error("{0}")]
    Version(clap::Error),
    /// Memory ran out.
    #[error("memory")]
    Memory,
}

impl From<clap::Error> for WordsFault {
    ghost from_gives = { λ e f. f ≡ fault_from e };

    fn from(error: clap::Error) -> WordsFault {
        match error.kind() {
            ErrorKind::OutOfMemory => WordsFault::Memory,
            ErrorKind::DisplayVersion => WordsFault::Version(error),
            _ => WordsFault::Usage(error),
        }
    }
}

impl From<AllocError> for WordsFault {
    ghost from_gives = { λ _ f. f ≡ Memory };

    fn from(_error: AllocError) -> WordsFault {
        WordsFault::Memory
    }
}
