//! The functions for C that ask ropes without a history.

ghost use Rattle.std.specs.Prelude.{◌≡◌};
ghost use Rattle.function_leaf.specs.Coded.{coded_byte};
ghost use Rattle.node_table.specs.Held.{held_coded, table_of};
ghost use Rattle.cord_types.specs.HeldTexts.{stated_as_held};
ghost use Rattle.cord_store.specs.declared.codes.TheConstants.{NO_ROPE};
ghost use Rattle.cord_store.specs.Numbers.{rope_told};
ghost use Rattle.cord_store.specs.Handles.{AsksRopes};
ghost use Rattle.cord_store.specs.Asked.{ComparesNamed, FetchesNamed, FindsByteNamed, FindsLastNamed, FindsNamed, LocatesNamed, ReadsNamed, TellsDepth, TellsLen};

use cord_store::codes::{CLOSED, NO_ROPE};
use cord_store::{
    CordStore, compare_ropes, fetch_byte, find_byte, find_last_byte, find_pattern, known,
    locate_byte, read_bytes, tell_depth, tell_len,
};
use cord_types::{CordRun, CordSource};
use std::alloc::Global;

/// How long a rope is.
#[unsafe(no_mangle)]
pub extern "C" fn cord_store_len(alloc: Global, store: &mut CordStore, x: u64, len: &mut u64) -> u32
    ensures { AsksRopes store.old.slot.value store.new.slot.value result (len.new ≡ len.old)
        (λ h. TellsLen (table_of coded_byte h) (rope_told h x) NO_ROPE result len.old len.new) }
{
    match store.take(alloc) {
        Some(ropes) => {
            let rope = known(&ropes.store, x);
            let outcome = tell_len(&ropes.store, rope, NO_ROPE, len);
            *store = CordStore::of(ropes);
            outcome
        }
        None => CLOSED,
    }
}

/// How deep a rope is.
#[unsafe(no_mangle)]
pub extern "C" fn cord_store_depth(
    alloc: Global,
    store: &mut CordStore,
    x: u64,
    depth: &mut u32,
) -> u32
    ensures { AsksRopes store.old.slot.value store.new.slot.value result (depth.new ≡ depth.old)
        (λ h. TellsDepth (table_of coded_byte h) (rope_told h x) NO_ROPE result depth.old depth.new) }
{
    match store.take(alloc) {
        Some(ropes) => {
            let rope = known(&ropes.store, x);
            let outcome = tell_depth(&ropes.store, rope, NO_ROPE, depth);
            *store = CordStore::of(ropes);
            outcome
        }
        None => CLOSED,
    }
}

/// Bytes of a rope from a place on, as many as `out` takes, up to the end of the run there.
#[unsafe(no_mangle)]
pub extern "C" fn cord_store_read(
    alloc: Global,
    store: &mut CordStore,
    sources: &[CordSource],
    x: u64,
    place: u64,
    out: &mut [u8],
    count: &mut usize,
) -> u32
    ensures { AsksRopes store.old.slot.value store.new.slot.value result ((count.new ≡ 0) × (out.new ≡ out.old))
        (λ h. ReadsNamed (table_of coded_byte h) (stated_as_held sources.now) (rope_told h x) NO_ROPE place
        out.old out.new count.new result) }
{
    match store.take(alloc) {
        Some(ropes) => {
            let rope = known(&ropes.store, x);
            let outcome = read_bytes(&ropes.store, sources, rope, NO_ROPE, place, out, count);
            *store = CordStore::of(ropes);
            outcome
        }
        None => {
            *count = 0;
            CLOSED
        }
    }
}

/// The byte at a place of a rope.
#[unsafe(no_mangle)]
pub extern "C" fn cord_store_fetch(
    alloc: Global,
    store: &mut CordStore,
    sources: &[CordSource],
    x: u64,
    place: u64,
    byte: &mut u8,
) -> u32
    ensures { AsksRopes store.old.slot.value store.new.slot.value result (byte.new ≡ byte.old)
        (λ h. FetchesNamed (table_of coded_byte h) (stated_as_held sources.now) (rope_told h x) NO_ROPE place
        byte.old byte.new result) }
{
    match store.take(alloc) {
        Some(ropes) => {
            let rope = known(&ropes.store, x);
            let outcome = fetch_byte(&ropes.store, sources, rope, NO_ROPE, place, byte);
            *store = CordStore::of(ropes);
            outcome
        }
        None => CLOSED,
    }
}

/// Where the byte at a place of a rope stands, and how many bytes follow it there.
#[unsafe(no_mangle)]
pub extern "C" fn cord_store_locate(
    alloc: Global,
    store: &mut CordStore,
    x: u64,
    place: u64,
    run: &mut CordRun,
) -> u32
    ensures { AsksRopes store.old.slot.value store.new.slot.value result (run.new ≡ run.old)
        (λ h. LocatesNamed (table_of coded_byte h) (held_coded h) (rope_told h x) NO_ROPE place
        run.old run.new result) }
{
    match store.take(alloc) {
        Some(ropes) => {
            let rope = known(&ropes.store, x);
            let outcome = locate_byte(&ropes.store, rope, NO_ROPE, place, run);
            *store = CordStore::of(ropes);
            outcome
        }
        None => CLOSED,
    }
}

/// The first place of a pattern from a place on; of none the largest number.
#[unsafe(no_mangle)]
pub extern "C" fn cord_store_find(
    alloc: Global,
    store: &mut CordStore,
    sources: &[CordSource],
    x: u64,
    from: u64,
    pattern: &[u8],
    place: &mut u64,
) -> u32
    ensures { AsksRopes store.old.slot.value store.new.slot.value result (place.new ≡ place.old)
        (λ h. FindsNamed (table_of coded_byte h) (stated_as_held sources.now) (rope_told h x) NO_ROPE pattern.now from
        result place.old place.new) }
{
    match store.take(alloc) {
        Some(ropes) => {
            let rope = known(&ropes.store, x);
            let outcome = find_pattern(
                alloc,
                &ropes.store,
                sources,
                rope,
                NO_ROPE,
                from,
                pattern,
                place,
            );
            *store = CordStore::of(ropes);
            outcome
        }
        None => CLOSED,
    }
}

/// The first place of a byte from a place on; of none the largest number.
#[unsafe(no_mangle)]
pub extern "C" fn cord_store_chr(
    alloc: Global,
    store: &mut CordStore,
    sources: &[CordSource],
    x: u64,
    from: u64,
    byte: u8,
    place: &mut u64,
) -> u32
    ensures { AsksRopes store.old.slot.value store.new.slot.value result (place.new ≡ place.old)
        (λ h. FindsByteNamed (table_of coded_byte h) (stated_as_held sources.now) (rope_told h x) NO_ROPE byte from
        result place.old place.new) }
{
    match store.take(alloc) {
        Some(ropes) => {
            let rope = known(&ropes.store, x);
            let outcome = find_byte(
                alloc,
                &ropes.store,
                sources,
                rope,
                NO_ROPE,
                from,
                byte,
                place,
            );
            *store = CordStore::of(ropes);
            outcome
        }
        None => CLOSED,
    }
}

/// The last place of a byte at a place or earlier; of none the largest number.
#[unsafe(no_mangle)]
pub extern "C" fn cord_store_rchr(
    alloc: Global,
    store: &mut CordStore,
    sources: &[CordSource],
    x: u64,
    from: u64,
    byte: u8,
    place: &mut u64,
) -> u32
    ensures { AsksRopes store.old.slot.value store.new.slot.value result (place.new ≡ place.old)
        (λ h. FindsLastNamed (table_of coded_byte h) (stated_as_held sources.now) (rope_told h x) NO_ROPE byte from
        result place.old place.new) }
{
    match store.take(alloc) {
        Some(ropes) => {
            let rope = known(&ropes.store, x);
            let outcome = find_last_byte(
                alloc,
                &ropes.store,
                sources,
                rope,
                NO_ROPE,
                from,
                byte,
                place,
            );
            *store = CordStore::of(ropes);
            outcome
        }
        None => CLOSED,
    }
}

/// The order of `n` bytes of one rope from `i` on and of another from `j` on: 0 less, 1 equal, 2 greater.
#[unsafe(no_mangle)]
pub extern "C" fn cord_store_compare(
    alloc: Global,
    store: &mut CordStore,
    sources: &[CordSource],
    x: u64,
    i: u64,
    y: u64,
    j: u64,
    n: u64,
    order: &mut u32,
) -> u32
    ensures { AsksRopes store.old.slot.value store.new.slot.value result (order.new ≡ order.old)
        (λ h. ComparesNamed (table_of coded_byte h) (stated_as_held sources.now) (rope_told h x) (rope_told h y) NO_ROPE
        i j n result order.old order.new) }
{
    match store.take(alloc) {
        Some(ropes) => {
            let left = known(&ropes.store, x);
            let right = known(&ropes.store, y);
            let outcome = compare_ropes(
                alloc,
                &ropes.store,
                sources,
                left,
                i,
                right,
                j,
                n,
                NO_ROPE,
                order,
            );
            *store = CordStore::of(ropes);
            outcome
        }
        None => CLOSED,
    }
}
