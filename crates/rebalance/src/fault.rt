//! Why a rope was not made shallow.

use node_table::NodeFault;
use std::error::Error;
use std::fmt;

/// Why a call gave no rope.
#[derive(Clone, Copy, Debug, PartialEq, Eq)]
pub enum BalanceFault {
    /// `B1`: the text of a rope goes through more than 1,048,576 pieces.
    TooManyPieces,
    /// A call of the store made no node.
    Node(NodeFault),
}

impl From<NodeFault> for BalanceFault {
    ghost use Rattle.std.specs.Prelude.{◌≡◌};
    ghost use Rattle.rebalance.specs.declared.fault.BalanceFault.TheVariants.{Node};

    ghost from_gives = { λ fault e. e ≡ Node fault };

    fn from(fault: NodeFault) -> BalanceFault {
        BalanceFault::Node(fault)
    }
}

/// The code that a program prints: `B1`, or that of the store's refusal.
impl fmt::Display for BalanceFault {
    ghost use Rattle.std.specs.Prelude.{Some};
    ghost use Rattle.rebalance.specs.Codes.{balance_fault_code};

    ghost output = { λ e. Some (balance_fault_code e) };

    fn fmt<W: fmt::Write>(&self, f: &mut fmt::Formatter<W>) -> fmt::Result {
        match self {
            BalanceFault::TooManyPieces => f.write_str("B1"),
            BalanceFault::Node(fault) => write!(f, "{fault}"),
        }
    }
}

impl Error for BalanceFault {}
