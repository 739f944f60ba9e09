//! What is sought in ropes, and their order.

ghost use Rattle.std.specs.Prelude.{◌≡◌};
ghost use Rattle.function_leaf.specs.Coded.{coded_byte};
ghost use Rattle.node_table.specs.Held.{table_of};
ghost use Rattle.rope_node.specs.Denotes.{IsRope};
ghost use Rattle.cord_types.specs.HeldTexts.{stated_as_held};
ghost use Rattle.cord_store.specs.Asked.{ComparesParts, FindsByte, FindsLastByte, FindsText};

use crate::codes::{BAD_SOURCES, DONE, UNHELD};
use crate::numbers::{find_fault_number, order_number, place_number};
use cord_search::{chr, find, ncmp, rchr};
use cord_types::{CordSource, HeldSources};
use function_leaf::Coded;
use rope_node::Rope;
use rope_store::Store;
use std::alloc::Global;

/// The first place of a pattern in a rope from a place on.
pub fn first_match(
    alloc: Global,
    store: &Store<Coded>,
    sources: &[CordSource],
    rope: Rope,
    from: u64,
    pattern: &[u8],
    place: &mut u64,
) -> u32
    requires { IsRope (table_of coded_byte store.now) rope }
    ensures { FindsText (table_of coded_byte store.now) (stated_as_held sources.now) rope pattern.now from
        result place.old place.new }
{
    let Ok(mut held) = HeldSources::new(sources) else {
        return BAD_SOURCES;
    };
    match find(alloc, store, &mut held, rope, from, pattern) {
        Ok(found) => {
            *place = place_number(found);
            DONE
        }
        Err(fault) => find_fault_number(fault),
    }
}

/// The first place of a byte in a rope from a place on.
pub fn first_byte(
    alloc: Global,
    store: &Store<Coded>,
    sources: &[CordSource],
    rope: Rope,
    from: u64,
    byte: u8,
    place: &mut u64,
) -> u32
    requires { IsRope (table_of coded_byte store.now) rope }
    ensures { FindsByte (table_of coded_byte store.now) (stated_as_held sources.now) rope byte from
        result place.old place.new }
{
    let Ok(mut held) = HeldSources::new(sources) else {
        return BAD_SOURCES;
    };
    match chr(alloc, store, &mut held, rope, from, byte) {
        Ok(found) => {
            *place = place_number(found);
            DONE
        }
        Err(_) => UNHELD,
    }
}

/// The last place of a byte in a rope at a place or earlier.
pub fn last_byte(
    alloc: Global,
    store: &Store<Coded>,
    sources: &[CordSource],
    rope: Rope,
    from: u64,
    byte: u8,
    place: &mut u64,
) -> u32
    requires { IsRope (table_of coded_byte store.now) rope }
    ensures { FindsLastByte (table_of coded_byte store.now) (stated_as_held sources.now) rope byte from
        result place.old place.new }
{
    let Ok(mut held) = HeldSources::new(sources) else {
        return BAD_SOURCES;
    };
    match rchr(alloc, store, &mut held, rope, from, byte) {
        Ok(found) => {
            *place = place_number(found);
            DONE
        }
        Err(_) => UNHELD,
    }
}

/// The order of `n` bytes of one rope from `i` on and of another from `j` on: 0 less, 1 equal, 2 greater.
pub fn compare_parts(
    alloc: Global,
    store: &Store<Coded>,
    sources: &[CordSource],
    left: Rope,
    i: u64,
    right: Rope,
    j: u64,
    n: u64,
    order: &mut u32,
) -> u32
    requires left { IsRope (table_of coded_byte store.now) left }
    requires right { IsRope (table_of coded_byte store.now) right }
    ensures { ComparesParts (table_of coded_byte store.now) (stated_as_held sources.now) left i right j n
        result order.old order.new }
{
    let Ok(mut held) = HeldSources::new(sources) else {
        return BAD_SOURCES;
    };
    match ncmp(alloc, store, &mut held, left, i, right, j, n) {
        Ok(found) => {
            *order = order_number(found);
            DONE
        }
        Err(_) => UNHELD,
    }
}
