//! Why a file was not committed.

use edit_commands::EditFault;
use lazy_file::SourceFault;
use saved_session::TakeFault;
use session_checker::CheckFault;

/// Why there is no new image.
#[derive(Clone, Copy, Debug, PartialEq, Eq)]
pub enum CommitFault {
    /// The older image was not accepted: it is refused, or a read of a source failed.
    Check(CheckFault),
    /// No session goes on from it.
    TakeUp(TakeFault),
    /// A byte of the last text is one of a source, and the read of it failed.
    Read(SourceFault),
    /// The session did not take a command: a limit was met.
    Edit(EditFault),
    /// Memory was refused.
    Memory,
    /// The image was not written to its end.
    Write,
}
