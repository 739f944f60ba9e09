//! Why a call of the editor failed, and how a run ended.

ghost use Rattle.std.specs.Prelude.{◌≡◌};
ghost use Rattle.lazy_file.specs.Faults.{source_fault_code};
ghost use Rattle.screen_editor.specs.Editing.{edit_code, key_code};

use byte_output::WriteFault;
use edit_commands::EditFault;
use lazy_file::SourceFault;
use std::alloc::AllocError;
use text_lines::FrameFault;

/// Why no editor was made.
#[derive(Clone, Copy, Debug, PartialEq, Eq)]
pub enum EditorFault {
    /// `K1`: source 0, or a text of the session that is gone on with, has more than 2,147,483,647 bytes.
    TooLong,
    /// The session refused its first revision, or memory was refused.
    Edit(EditFault),
    /// Memory was refused.
    Memory,
}

impl From<EditFault> for EditorFault {
    ghost use Rattle.screen_editor.specs.declared.fault.EditorFault.TheVariants.{Edit};

    ghost from_gives = { λ e f. f ≡ Edit e };

    fn from(fault: EditFault) -> EditorFault {
        EditorFault::Edit(fault)
    }
}

impl From<AllocError> for EditorFault {
    ghost use Rattle.screen_editor.specs.declared.fault.EditorFault.TheVariants.{Memory};

    ghost from_gives = { λ _ f. f ≡ Memory };

    fn from(_refused: AllocError) -> EditorFault {
        EditorFault::Memory
    }
}

/// Why a key was refused.
#[derive(Clone, Copy, Debug, PartialEq, Eq)]
pub enum KeyFault {
    /// `K1`: the text would have more than 2,147,483,647 bytes.
    TooLong,
    /// The session refused the key's command, or memory was refused.
    Edit(EditFault),
    /// A line break was looked for, and a read failed.
    Source(SourceFault),
}

/// The code of a refused command.
fn edit_code(fault: EditFault) -> &'static str
    ensures { result.now ≡ edit_code fault }
{
    match fault {
        EditFault::NoRevision => "E1",
        EditFault::NoSource => "E2",
        EditFault::Range => "E3",
        EditFault::EmptyText => "E4",
        EditFault::TooManyRevisions => "E5",
        EditFault::TooManyRows => "E6",
        EditFault::Node(_) => "E7",
        EditFault::TooManyPieces => "E8",
        EditFault::SpliceCount => "E9",
        EditFault::TooManySplices => "E10",
        EditFault::Memory => "Memory",
    }
}

/// The code of a failed read.
fn source_code(fault: SourceFault) -> &'static str
    ensures { result.now ≡ source_fault_code fault }
{
    match fault {
        SourceFault::Device => "S1",
        SourceFault::Short => "S2",
        SourceFault::BadSource => "S3",
        SourceFault::Memory => "Memory",
    }
}

impl KeyFault {
    /// The code that a message names: `K1`, `E1` to `E10`, `S1` to `S3`, or `Memory`.
    pub fn code(&self) -> &'static str
        ensures { result.now ≡ key_code self.now }
    {
        match *self {
            KeyFault::TooLong => "K1",
            KeyFault::Edit(fault) => edit_code(fault),
            KeyFault::Source(fault) => source_code(fault),
        }
    }
}

/// How a run ended.
#[derive(Clone, Copy, Debug, PartialEq, Eq)]
pub enum End {
    /// At the key Save.
    Save,
    /// At the key Leave, or where no key was left.
    Leave,
}

/// Why a run failed.
#[derive(Clone, Copy, Debug, PartialEq, Eq)]
pub enum RunFault {
    /// The keys could not be read.
    Read,
    /// The screen could not be written.
    Write,
    /// A frame could not be made.
    Frame(FrameFault),
    /// `K2`: 16,777,216 keys were taken, and none ended the run.
    TooManyKeys,
}

impl From<FrameFault> for RunFault {
    ghost use Rattle.screen_editor.specs.declared.fault.RunFault.TheVariants.{Frame};

    ghost from_gives = { λ e f. f ≡ Frame e };

    fn from(fault: FrameFault) -> RunFault {
        RunFault::Frame(fault)
    }
}

impl From<WriteFault> for RunFault {
    ghost use Rattle.screen_editor.specs.declared.fault.RunFault.TheVariants.{Write};

    ghost from_gives = { λ _ f. f ≡ Write };

    fn from(_fault: WriteFault) -> RunFault {
        RunFault::Write
    }
}
