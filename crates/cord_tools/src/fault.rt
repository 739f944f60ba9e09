//! Why a tool ended without its answer.

ghost use Rattle.std.specs.Prelude.{◌≡◌};
ghost use Rattle.cord_tools.specs.Faults.{add_fault, check_fault, edit_fault, editor_fault, find_fault, put_fault, read_fault, run_fault, take_fault, tool_rope_fault};

use byte_output::WriteFault;
use cord_search::{FindFault, PutFault};
use edit_commands::EditFault;
use lazy_file::{AddFault, SourceFault};
use node_table::NodeFault;
use rebalance::BalanceFault;
use saved_session::TakeFault;
use screen_editor::{EditorFault, FrameFault, RunFault};
use session_checker::CheckFault;
use std::alloc::AllocError;
use thiserror::Error;

/// A tool that refused its input or was stopped. The program prints the words on standard error; it ends with status 1
/// after a refusal, and with status 3 where it was stopped.
#[derive(Clone, Copy, Debug, PartialEq, Eq, Error)]
pub enum ToolFault {
    /// An allocation was refused.
    #[error("memory")]
    Memory,
    /// An input could not be read to its end.
    #[error("read")]
    Read,
    /// The output could not be written.
    #[error("write")]
    Write,
    /// The image is refused.
    #[error("refused {0}")]
    Refused(CheckFault),
    /// A source is refused: there are too many sources, or one is too long.
    #[error("refused {0}")]
    Source(AddFault),
    /// The image has no such revision.
    #[error("refused no revision")]
    NoRevision,
    /// The pattern of a search has more than 4,096 bytes.
    #[error("refused F1")]
    PatternTooLong,
    /// The rope of joined files is refused: its text is too long.
    #[error("refused {0}")]
    Rope(BalanceFault),
    /// No session goes on from the image.
    #[error("refused {0}")]
    TakeUp(TakeFault),
    /// The session refused a command or a source.
    #[error("refused {0}")]
    Edit(EditFault),
    /// The file to be edited has more than 2,147,483,647 bytes.
    #[error("refused K1")]
    TextTooLong,
    /// The editor took 16,777,216 keys, and none ended its run.
    #[error("refused K2")]
    TooManyKeys,
    /// The journal keeps the keys or the lines of another text, or is no journal.
    #[error("refused J1")]
    OtherKeys,
    /// Another session has the journal, or keeps one beside the image.
    #[error("refused J2")]
    KeysInUse,
    /// The image is there already, and is not to be replaced.
    #[error("refused J3")]
    ImageThere,
    /// Where the image is to stand, there is not what was there when the session began.
    #[error("refused J4")]
    OtherImage,
    /// The file of keys of the session is gone, or another one has its name.
    #[error("refused J5")]
    KeysGone,
    /// The file to be committed is the image, or a source of its session.
    #[error("refused J6")]
    OwnFile,
}

impl From<AddFault> for ToolFault {
    ghost from_gives = { λ e f. f ≡ add_fault e };

    fn from(fault: AddFault) -> ToolFault {
        match fault {
            AddFault::Memory => ToolFault::Memory,
            AddFault::TooManySources | AddFault::SourceTooLong => ToolFault::Source(fault),
        }
    }
}

impl From<AllocError> for ToolFault {
    ghost use Rattle.cord_tools.specs.declared.fault.ToolFault.TheVariants.{Memory};

    ghost from_gives = { λ _ f. f ≡ Memory };

    fn from(_error: AllocError) -> ToolFault {
        ToolFault::Memory
    }
}

impl From<WriteFault> for ToolFault {
    ghost use Rattle.cord_tools.specs.declared.fault.ToolFault.TheVariants.{Write};

    ghost from_gives = { λ _ f. f ≡ Write };

    fn from(_fault: WriteFault) -> ToolFault {
        ToolFault::Write
    }
}

impl From<SourceFault> for ToolFault {
    ghost from_gives = { λ e f. f ≡ read_fault e };

    fn from(fault: SourceFault) -> ToolFault {
        match fault {
            SourceFault::Memory => ToolFault::Memory,
            SourceFault::Device | SourceFault::Short | SourceFault::BadSource => ToolFault::Read,
        }
    }
}

impl From<CheckFault> for ToolFault {
    ghost from_gives = { λ e f. f ≡ check_fault e };

    fn from(fault: CheckFault) -> ToolFault {
        match fault {
            CheckFault::Source(fault) => ToolFault::from(fault),
            _ => ToolFault::Refused(fault),
        }
    }
}

impl From<PutFault> for ToolFault {
    ghost from_gives = { λ e f. f ≡ put_fault e };

    fn from(fault: PutFault) -> ToolFault {
        match fault {
            PutFault::Source(fault) => ToolFault::from(fault),
            PutFault::Write => ToolFault::Write,
        }
    }
}

impl From<FindFault> for ToolFault {
    ghost from_gives = { λ e f. f ≡ find_fault e };

    fn from(fault: FindFault) -> ToolFault {
        match fault {
            FindFault::PatternTooLong => ToolFault::PatternTooLong,
            FindFault::Source(fault) => ToolFault::from(fault),
            FindFault::Memory => ToolFault::Memory,
        }
    }
}

impl From<BalanceFault> for ToolFault {
    ghost from_gives = { λ e f. f ≡ tool_rope_fault e };

    fn from(fault: BalanceFault) -> ToolFault {
        match fault {
            BalanceFault::Node(NodeFault::Memory) => ToolFault::Memory,
            _ => ToolFault::Rope(fault),
        }
    }
}

impl From<EditFault> for ToolFault {
    ghost from_gives = { λ e f. f ≡ edit_fault e };

    fn from(fault: EditFault) -> ToolFault {
        match fault {
            EditFault::Memory => ToolFault::Memory,
            _ => ToolFault::Edit(fault),
        }
    }
}

impl From<TakeFault> for ToolFault {
    ghost from_gives = { λ e f. f ≡ take_fault e };

    fn from(fault: TakeFault) -> ToolFault {
        match fault {
            TakeFault::Memory => ToolFault::Memory,
            TakeFault::OverSource(_) | TakeFault::TooManyRows => ToolFault::TakeUp(fault),
        }
    }
}

impl From<EditorFault> for ToolFault {
    ghost from_gives = { λ e f. f ≡ editor_fault e };

    fn from(fault: EditorFault) -> ToolFault {
        match fault {
            EditorFault::TooLong => ToolFault::TextTooLong,
            EditorFault::Edit(fault) => ToolFault::from(fault),
            EditorFault::Memory => ToolFault::Memory,
        }
    }
}

impl From<RunFault> for ToolFault {
    ghost from_gives = { λ e f. f ≡ run_fault e };

    fn from(fault: RunFault) -> ToolFault {
        match fault {
            RunFault::Read => ToolFault::Read,
            RunFault::Write => ToolFault::Write,
            RunFault::Frame(FrameFault::Source(fault)) => ToolFault::from(fault),
            RunFault::Frame(FrameFault::Memory) => ToolFault::Memory,
            RunFault::TooManyKeys => ToolFault::TooManyKeys,
        }
    }
}
