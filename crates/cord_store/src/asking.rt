//! What is asked of the rope that a caller names, where there is one: else this reason is answered.

ghost use Rattle.std.specs.Prelude.{IfSome};
ghost use Rattle.function_leaf.specs.Coded.{coded_byte};
ghost use Rattle.node_table.specs.Held.{held_coded, table_of};
ghost use Rattle.rope_node.specs.Denotes.{IsRope};
ghost use Rattle.cord_types.specs.HeldTexts.{stated_as_held};
ghost use Rattle.cord_store.specs.Asked.{ComparesNamed, FetchesNamed, FindsByteNamed, FindsLastNamed, FindsNamed, LocatesNamed, ReadsNamed, TellsDepth, TellsLen};

use crate::codes::DONE;
use crate::finding::{compare_parts, first_byte, first_match, last_byte};
use crate::reading::{fetch_place, locate_place, read_part};
use cord_types::{CordRun, CordSource};
use function_leaf::Coded;
use rope_node::Rope;
use rope_store::Store;
use std::alloc::Global;

/// How long a rope is.
pub fn tell_len(store: &Store<Coded>, named: Option<Rope>, reason: u32, len: &mut u64) -> u32
    requires { IfSome named (IsRope (table_of coded_byte store.now)) }
    ensures { TellsLen (table_of coded_byte store.now) named reason result len.old len.new }
{
    match named {
        Some(rope) => {
            *len = store.len(rope);
            DONE
        }
        None => reason,
    }
}

/// How deep a rope is.
pub fn tell_depth(store: &Store<Coded>, named: Option<Rope>, reason: u32, depth: &mut u32) -> u32
    requires { IfSome named (IsRope (table_of coded_byte store.now)) }
    ensures { TellsDepth (table_of coded_byte store.now) named reason result depth.old depth.new }
{
    match named {
        Some(rope) => {
            *depth = u32::from(store.depth(rope));
            DONE
        }
        None => reason,
    }
}

/// Bytes of a rope from a place on, as many as `out` takes, up to the end of the run there.
pub fn read_bytes(
    store: &Store<Coded>,
    sources: &[CordSource],
    named: Option<Rope>,
    reason: u32,
    place: u64,
    out: &mut [u8],
    count: &mut usize,
) -> u32
    requires { IfSome named (IsRope (table_of coded_byte store.now)) }
    ensures { ReadsNamed (table_of coded_byte store.now) (stated_as_held sources.now) named reason place
        out.old out.new count.new result }
{
    match named {
        Some(rope) => read_part(store, sources, rope, place, out, count),
        None => {
            *count = 0;
            reason
        }
    }
}

/// The byte at a place of a rope.
pub fn fetch_byte(
    store: &Store<Coded>,
    sources: &[CordSource],
    named: Option<Rope>,
    reason: u32,
    place: u64,
    byte: &mut u8,
) -> u32
    requires { IfSome named (IsRope (table_of coded_byte store.now)) }
    ensures { FetchesNamed (table_of coded_byte store.now) (stated_as_held sources.now) named reason place
        byte.old byte.new result }
{
    match named {
        Some(rope) => fetch_place(store, sources, rope, place, byte),
        None => reason,
    }
}

/// Where the byte at a place of a rope stands, and how many bytes follow it there.
pub fn locate_byte(
    store: &Store<Coded>,
    named: Option<Rope>,
    reason: u32,
    place: u64,
    run: &mut CordRun,
) -> u32
    requires { IfSome named (IsRope (table_of coded_byte store.now)) }
    ensures { LocatesNamed (table_of coded_byte store.now) (held_coded store.now) named reason place
        run.old run.new result }
{
    match named {
        Some(rope) => locate_place(store, rope, place, run),
        None => reason,
    }
}

/// The first place of a pattern in a rope from a place on; of none the largest number.
pub fn find_pattern(
    alloc: Global,
    store: &Store<Coded>,
    sources: &[CordSource],
    named: Option<Rope>,
    reason: u32,
    from: u64,
    pattern: &[u8],
    place: &mut u64,
) -> u32
    requires { IfSome named (IsRope (table_of coded_byte store.now)) }
    ensures { FindsNamed (table_of coded_byte store.now) (stated_as_held sources.now) named reason pattern.now from
        result place.old place.new }
{
    match named {
        Some(rope) => first_match(alloc, store, sources, rope, from, pattern, place),
        None => reason,
    }
}

/// The first place of a byte in a rope from a place on; of none the largest number.
pub fn find_byte(
    alloc: Global,
    store: &Store<Coded>,
    sources: &[CordSource],
    named: Option<Rope>,
    reason: u32,
    from: u64,
    byte: u8,
    place: &mut u64,
) -> u32
    requires { IfSome named (IsRope (table_of coded_byte store.now)) }
    ensures { FindsByteNamed (table_of coded_byte store.now) (stated_as_held sources.now) named reason byte from
        result place.old place.new }
{
    match named {
        Some(rope) => first_byte(alloc, store, sources, rope, from, byte, place),
        None => reason,
    }
}

/// The last place of a byte in a rope at a place or earlier; of none the largest number.
pub fn find_last_byte(
    alloc: Global,
    store: &Store<Coded>,
    sources: &[CordSource],
    named: Option<Rope>,
    reason: u32,
    from: u64,
    byte: u8,
    place: &mut u64,
) -> u32
    requires { IfSome named (IsRope (table_of coded_byte store.now)) }
    ensures { FindsLastNamed (table_of coded_byte store.now) (stated_as_held sources.now) named reason byte from
        result place.old place.new }
{
    match named {
        Some(rope) => last_byte(alloc, store, sources, rope, from, byte, place),
        None => reason,
    }
}

/// The order of `n` bytes of one rope from `i` on and of another from `j` on: 0 less, 1 equal, 2 greater.
pub fn compare_ropes(
    alloc: Global,
    store: &Store<Coded>,
    sources: &[CordSource],
    left: Option<Rope>,
    i: u64,
    right: Option<Rope>,
    j: u64,
    n: u64,
    reason: u32,
    order: &mut u32,
) -> u32
    requires left { IfSome left (IsRope (table_of coded_byte store.now)) }
    requires right { IfSome right (IsRope (table_of coded_byte store.now)) }
    ensures { ComparesNamed (table_of coded_byte store.now) (stated_as_held sources.now) left right reason i j n
        result order.old order.new }
{
    let Some(left) = left else {
        return reason;
    };
    let Some(right) = right else {
        return reason;
    };
    compare_parts(alloc, store, sources, left, i, right, j, n, order)
}
