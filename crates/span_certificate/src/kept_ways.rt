//! The ways down that are kept between the rows of a revision, and when none is.

use command_parts::{PartIter, Splices};
use rope_node::Rope;
use span_descent::{CountedSpace, Trail, Ways};
use std::sync::ledger::Ledger;

/// The ways down to the last place, kept from call to call by who makes or verifies rows again and again.
#[derive(Clone, Copy, Debug)]
pub struct Trails {
    pub(crate) ways: Ways<Trail>,
}

impl Trails {
    /// Of no ropes.
    pub fn new() -> Trails {
        let none = Trail::new();
        let ways = Ways {
            of_part: none,
            of_root: none,
        };
        Trails { ways }
    }
}

/// Whether a way down from this rope is so short that it is not worth keeping for the next one.
#[inline(always)]
fn is_short<S: CountedSpace<L>, L: Ledger>(space: &S, rope: Rope) -> bool {
    match rope {
        Some(node) if node.0 < space.node_count() => space.is_shallow(node),
        _ => true,
    }
}

/// Whether all ways down from a command's parts and its root are so short. Rows are the same by either ways.
#[inline(always)]
pub fn are_short<S: CountedSpace<L>, P: Splices, L: Ledger>(
    space: &S,
    parts: &PartIter<'_, P>,
    root: Rope,
) -> bool {
    let [first, second, last] = parts.ready_ropes();
    is_short::<S, L>(space, root)
        && is_short::<S, L>(space, first)
        && is_short::<S, L>(space, second)
        && is_short::<S, L>(space, last)
        && is_short::<S, L>(space, parts.cut_rope())
}
