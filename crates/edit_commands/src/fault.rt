//! Why a session took no command.

use node_table::NodeFault;
use rebalance::BalanceFault;
use span_certificate::MakeFault;
use std::error::Error;
use std::fmt;

/// Why a session took no command, or no source.
#[derive(Clone, Copy, Debug, PartialEq, Eq)]
pub enum EditFault {
    /// `E1`: the session has no such revision.
    NoRevision,
    /// `E2`: the session has no such source.
    NoSource,
    /// `E3`: a place or a span is not inside its text, or changes are out of order.
    Range,
    /// `E4`: no bytes were handed in, or a change changes nothing.
    EmptyText,
    /// `E5`: there are 1,048,576 revisions already.
    TooManyRevisions,
    /// `E6`: the session's rows would be more than 16,777,216.
    TooManyRows,
    /// `E7`: a call of the store made no node, or added no source.
    Node(NodeFault),
    /// `E8`: the text of a rope goes through more than 1,048,576 pieces.
    TooManyPieces,
    /// `E9`: there is no change, or there are more than 4,096.
    SpliceCount,
    /// `E10`: the session's splices would be more than 16,777,216.
    TooManySplices,
    /// Memory was refused.
    Memory,
}

impl From<NodeFault> for EditFault {
    ghost from_gives = { λ fault e. e ≡ node_fault fault };

    ghost use Rattle.std.specs.Prelude.{◌≡◌};
    ghost use Rattle.edit_commands.specs.Codes.{node_fault};

    fn from(fault: NodeFault) -> EditFault {
        match fault {
            NodeFault::Memory => EditFault::Memory,
            _ => EditFault::Node(fault),
        }
    }
}

impl From<BalanceFault> for EditFault {
    ghost from_gives = { λ fault e. e ≡ rope_fault fault };

    ghost use Rattle.std.specs.Prelude.{◌≡◌};
    ghost use Rattle.edit_commands.specs.Codes.{rope_fault};

    fn from(fault: BalanceFault) -> EditFault {
        match fault {
            BalanceFault::TooManyPieces => EditFault::TooManyPieces,
            BalanceFault::Node(fault) => EditFault::from(fault),
        }
    }
}

impl From<MakeFault> for EditFault {
    ghost from_gives = { λ fault e. e ≡ rows_fault fault };

    ghost use Rattle.std.specs.Prelude.{◌≡◌};
    ghost use Rattle.edit_commands.specs.Codes.{rows_fault};

    fn from(fault: MakeFault) -> EditFault {
        match fault {
            MakeFault::TooManyRows => EditFault::TooManyRows,
            MakeFault::Memory => EditFault::Memory,
        }
    }
}

/// The code that a program prints: `E1` to `E6`, `E7` with the store's refusal as in `E7(N1)`, `E8` to
/// `E10`, or `Memory`.
impl fmt::Display for EditFault {
    ghost use Rattle.std.specs.Prelude.{Some};
    ghost use Rattle.edit_commands.specs.Codes.{edit_fault_code};

    ghost output = { λ e. Some (edit_fault_code e) };

    fn fmt<W: fmt::Write>(&self, f: &mut fmt::Formatter<W>) -> fmt::Result {
        match self {
            EditFault::NoRevision => f.write_str("E1"),
            EditFault::NoSource => f.write_str("E2"),
            EditFault::Range => f.write_str("E3"),
            EditFault::EmptyText => f.write_str("E4"),
            EditFault::TooManyRevisions => f.write_str("E5"),
            EditFault::TooManyRows => f.write_str("E6"),
            EditFault::Node(fault) => write!(f, "E7({fault})"),
            EditFault::TooManyPieces => f.write_str("E8"),
            EditFault::SpliceCount => f.write_str("E9"),
            EditFault::TooManySplices => f.write_str("E10"),
            EditFault::Memory => f.write_str("Memory"),
        }
    }
}

impl Error for EditFault {}
