//! Ropes, places, orders and refusals as numbers.

ghost use Rattle.std.specs.Prelude.{◌≡◌, IfSome};
ghost use Rattle.function_leaf.specs.Coded.{coded_byte};
ghost use Rattle.node_table.specs.Held.{table_of};
ghost use Rattle.rope_node.specs.Denotes.{IsRope};
ghost use Rattle.cord_store.specs.Numbers.{find_fault_number, node_number, order_number, place_number, rope_fault_number, rope_number, rope_told};

use crate::codes::{
    BAD_SPAN, LONG_PATTERN, MANY_PIECES, MANY_SOURCES, MEMORY, POOL_FULL, TABLE_FULL, TOO_DEEP,
    TOO_LONG, UNHELD,
};
use cord_search::FindFault;
use function_leaf::Coded;
use node_table::NodeFault;
use rebalance::BalanceFault;
use rope_node::{NodeId, NodeSpace, Rope};
use rope_store::Store;
use std::cmp::Ordering;

/// The rope of a number, where the store has it: 0 is the empty one, and above it stand the nodes.
pub fn known(store: &Store<Coded>, number: u64) -> Option<Rope>
    ensures value { result ≡ rope_told store.now number }
    ensures rope { IfSome result (IsRope (table_of coded_byte store.now)) }
{
    let count = u64::from(store.count());
    if number == 0 {
        return Some(None);
    }
    if number > count {
        return None;
    }
    Some(Some(NodeId((number - 1) as u32)))
}

/// The number of a rope.
pub(crate) fn number(rope: Rope) -> u64
    ensures { result ≡ rope_number rope }
{
    match rope {
        None => 0,
        Some(node) => node.0 as u64 + 1,
    }
}

/// The number of a place; of none the largest there is.
pub(crate) fn place_number(place: Option<u64>) -> u64
    ensures { result ≡ place_number place }
{
    match place {
        Some(place) => place,
        None => u64::MAX,
    }
}

/// The number of an order.
pub(crate) fn order_number(order: Ordering) -> u32
    ensures { result ≡ order_number order }
{
    match order {
        Ordering::Less => 0,
        Ordering::Equal => 1,
        Ordering::Greater => 2,
    }
}

/// The number of the store's refusal.
pub fn node_number(fault: NodeFault) -> u32
    ensures { result ≡ node_number fault }
{
    match fault {
        NodeFault::TooLong => TOO_LONG,
        NodeFault::TooDeep => TOO_DEEP,
        NodeFault::TableFull => TABLE_FULL,
        NodeFault::PoolFull => POOL_FULL,
        NodeFault::BadSpan => BAD_SPAN,
        NodeFault::TooManySources => MANY_SOURCES,
        NodeFault::Memory => MEMORY,
    }
}

/// The number of a refusal of a call that balances.
pub(crate) fn rope_fault_number(fault: BalanceFault) -> u32
    ensures { result ≡ rope_fault_number fault }
{
    match fault {
        BalanceFault::TooManyPieces => MANY_PIECES,
        BalanceFault::Node(fault) => node_number(fault),
    }
}

/// The number of why a search has no answer.
pub(crate) fn find_fault_number(fault: FindFault) -> u32
    ensures { result ≡ find_fault_number fault }
{
    match fault {
        FindFault::PatternTooLong => LONG_PATTERN,
        FindFault::Source(_) => UNHELD,
        FindFault::Memory => MEMORY,
    }
}
