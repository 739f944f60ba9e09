//! How a run of the program ends.

ghost use Rattle.std.specs.Prelude.{◌≡◌};
ghost use Rattle.cord_tools.specs.Outcomes.{exit_status, fault_status};

use crate::fault::ToolFault;
use crate::status::Status;

/// How a run of the program ended.
#[derive(Clone, Copy, Debug, PartialEq, Eq)]
pub enum Outcome {
    /// The answer is out.
    Answered(Status),
    /// The input was refused, or the tool was stopped.
    Ended(ToolFault),
    /// The words ask for nothing that the program does.
    Misused,
}

/// 1 after a refusal, and 3 where the tool was stopped.
fn fault_status(fault: ToolFault) -> u8
    ensures { result ≡ fault_status fault }
{
    match fault {
        ToolFault::Refused(_)
        | ToolFault::Source(_)
        | ToolFault::NoRevision
        | ToolFault::PatternTooLong
        | ToolFault::Rope(_)
        | ToolFault::TakeUp(_)
        | ToolFault::Edit(_)
        | ToolFault::TextTooLong
        | ToolFault::TooManyKeys
        | ToolFault::OtherKeys
        | ToolFault::KeysInUse
        | ToolFault::ImageThere
        | ToolFault::OtherImage
        | ToolFault::KeysGone
        | ToolFault::OwnFile => 1,
        ToolFault::Memory | ToolFault::Read | ToolFault::Write => 3,
    }
}

/// The status that the program ends with: 0 for accepted, found or equal; 1 for refused, not found or different; 2 for
/// words that it does not know; 3 where it was stopped by want of memory, or by an input or an output that failed.
pub fn exit_status(outcome: Outcome) -> u8
    ensures { result ≡ exit_status outcome }
{
    match outcome {
        Outcome::Answered(Status::Success) => 0,
        Outcome::Answered(Status::Failure) => 1,
        Outcome::Ended(fault) => fault_status(fault),
        Outcome::Misused => 2,
    }
}
