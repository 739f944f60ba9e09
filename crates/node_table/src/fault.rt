//! Why a call made no node.

use std::alloc::AllocError;
use std::error::Error;
use std::fmt;

/// Why a call made no node, or added no source. Everything is then as before.
#[derive(Clone, Copy, Debug, PartialEq, Eq)]
pub enum NodeFault {
    /// `N1`: the text would be longer than 2^40 - 1 bytes, or more than 65,536 bytes were handed in.
    TooLong,
    /// `N2`: the rope would be deeper than 64.
    TooDeep,
    /// `N3`: fewer numbers are free than the call makes nodes.
    TableFull,
    /// `N4`: the pool would be longer than 2^32 - 1 bytes.
    PoolFull,
    /// `N5`: there is no such source, or the span is not inside it.
    BadSpan,
    /// `N6`: there are 255 sources already.
    TooManySources,
    /// No memory was given.
    Memory,
}

impl From<AllocError> for NodeFault {
    ghost use Rattle.std.specs.Prelude.{◌≡◌};
    ghost use Rattle.node_table.specs.declared.fault.NodeFault.TheVariants.{Memory};

    ghost from_gives = { λ _ e. e ≡ Memory };

    fn from(_refused: AllocError) -> NodeFault {
        NodeFault::Memory
    }
}

/// The code that a program prints: `N1` to `N6`, or `Memory`.
impl fmt::Display for NodeFault {
    ghost use Rattle.std.specs.Prelude.{Some};
    ghost use Rattle.node_table.specs.Codes.{node_fault_code};

    ghost output = { λ e. Some (node_fault_code e) };

    fn fmt<W: fmt::Write>(&self, f: &mut fmt::Formatter<W>) -> fmt::Result {
        f.write_str(match self {
            NodeFault::TooLong => "N1",
            NodeFault::TooDeep => "N2",
            NodeFault::TableFull => "N3",
            NodeFault::PoolFull => "N4",
            NodeFault::BadSpan => "N5",
            NodeFault::TooManySources => "N6",
            NodeFault::Memory => "Memory",
        })
    }
}

impl Error for NodeFault {}
