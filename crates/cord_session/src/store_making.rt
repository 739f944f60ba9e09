//! The functions for C that make ropes without a history.

ghost use Rattle.std.specs.Prelude.{◌≡◌, ◌≢◌, [], None, Some};
ghost use Rattle.std.specs.Option.{option_map};
ghost use Rattle.edit_commands.specs.Session.{store_with};
ghost use Rattle.cord_store.specs.declared.codes.TheConstants.{DONE, MEMORY};
ghost use Rattle.cord_store.specs.Handles.{UsesRopes};
ghost use Rattle.cord_store.specs.Made.{AddsSourceTold, AppendsTold, BalancesTold, CatsTold, MakesBytesTold, MakesFunctionTold, MakesSourceTold, PartsTold};

use cord_store::codes::{CLOSED, DONE, MEMORY};
use cord_store::{
    CordStore, Ropes, add_source, append, balanced, cat, of_bytes, of_function, of_source, substr,
};
use rope_store::Store;
use std::alloc::Global;

/// Begins a store without ropes and sources. One that was there is ended.
#[unsafe(no_mangle)]
pub extern "C" fn cord_store_begin(alloc: Global, store: &mut CordStore) -> u32
    ensures done { result ≡ DONE → option_map (λ k. k.store) store.new.slot.value ≡ Some (store_with []) }
    ensures refused { result ≢ DONE → (result ≡ MEMORY) × (store.new.slot.value ≡ store.old.slot.value) }
{
    let ropes = Ropes {
        store: Store::new(alloc),
    };
    match Box::new(alloc, ropes) {
        Ok(ropes) => {
            *store = CordStore::of(ropes);
            DONE
        }
        Err(_) => MEMORY,
    }
}

/// Ends a store, where there is one.
#[unsafe(no_mangle)]
pub extern "C" fn cord_store_end(alloc: Global, store: &mut CordStore)
    ensures { store.new.slot.value ≡ None }
{
    *store = CordStore::none(alloc);
}

/// Adds a source of so many bytes, and tells its number.
#[unsafe(no_mangle)]
pub extern "C" fn cord_store_add_source(
    alloc: Global,
    store: &mut CordStore,
    len: u64,
    source: &mut u32,
) -> u32
    ensures { UsesRopes store.old.slot.value store.new.slot.value result (source.new ≡ source.old)
        (λ old new. AddsSourceTold old new len result source.old source.new) }
{
    match store.take(alloc) {
        Some(mut ropes) => {
            let outcome = add_source(&mut ropes.store, len, source);
            *store = CordStore::of(ropes);
            outcome
        }
        None => CLOSED,
    }
}

/// These bytes.
#[unsafe(no_mangle)]
pub extern "C" fn cord_store_bytes(
    alloc: Global,
    store: &mut CordStore,
    bytes: &[u8],
    rope: &mut u64,
) -> u32
    ensures { UsesRopes store.old.slot.value store.new.slot.value result (rope.new ≡ rope.old)
        (λ old new. MakesBytesTold old new bytes.now result rope.old rope.new) }
{
    match store.take(alloc) {
        Some(mut ropes) => {
            let outcome = of_bytes(&mut ropes.store, bytes, rope);
            *store = CordStore::of(ropes);
            outcome
        }
        None => CLOSED,
    }
}

/// Bytes of a source.
#[unsafe(no_mangle)]
pub extern "C" fn cord_store_source(
    alloc: Global,
    store: &mut CordStore,
    source: u32,
    i: u64,
    n: u64,
    rope: &mut u64,
) -> u32
    ensures { UsesRopes store.old.slot.value store.new.slot.value result (rope.new ≡ rope.old)
        (λ old new. MakesSourceTold old new source i n result rope.old rope.new) }
{
    match store.take(alloc) {
        Some(mut ropes) => {
            let outcome = of_source(&mut ropes.store, source, i, n, rope);
            *store = CordStore::of(ropes);
            outcome
        }
        None => CLOSED,
    }
}

/// The first `n` bytes that a function gives.
#[unsafe(no_mangle)]
pub extern "C" fn cord_store_function(
    alloc: Global,
    store: &mut CordStore,
    function: u32,
    pattern: &[u8],
    n: u64,
    rope: &mut u64,
) -> u32
    ensures { UsesRopes store.old.slot.value store.new.slot.value result (rope.new ≡ rope.old)
        (λ old new. MakesFunctionTold old new function pattern.now n result rope.old rope.new) }
{
    match store.take(alloc) {
        Some(mut ropes) => {
            let outcome = of_function(&mut ropes.store, function, pattern, n, rope);
            *store = CordStore::of(ropes);
            outcome
        }
        None => CLOSED,
    }
}

/// Two ropes, one behind the other.
#[unsafe(no_mangle)]
pub extern "C" fn cord_store_cat(
    alloc: Global,
    store: &mut CordStore,
    x: u64,
    y: u64,
    rope: &mut u64,
) -> u32
    ensures { UsesRopes store.old.slot.value store.new.slot.value result (rope.new ≡ rope.old)
        (λ old new. CatsTold old new x y result rope.old rope.new) }
{
    match store.take(alloc) {
        Some(mut ropes) => {
            let outcome = cat(&mut ropes.store, x, y, rope);
            *store = CordStore::of(ropes);
            outcome
        }
        None => CLOSED,
    }
}

/// A rope with bytes behind it.
#[unsafe(no_mangle)]
pub extern "C" fn cord_store_append(
    alloc: Global,
    store: &mut CordStore,
    x: u64,
    bytes: &[u8],
    rope: &mut u64,
) -> u32
    ensures { UsesRopes store.old.slot.value store.new.slot.value result (rope.new ≡ rope.old)
        (λ old new. AppendsTold old new x bytes.now result rope.old rope.new) }
{
    match store.take(alloc) {
        Some(mut ropes) => {
            let outcome = append(&mut ropes.store, x, bytes, rope);
            *store = CordStore::of(ropes);
            outcome
        }
        None => CLOSED,
    }
}

/// At most `n` bytes of a rope from place `i` on.
#[unsafe(no_mangle)]
pub extern "C" fn cord_store_substr(
    alloc: Global,
    store: &mut CordStore,
    x: u64,
    i: u64,
    n: u64,
    rope: &mut u64,
) -> u32
    ensures { UsesRopes store.old.slot.value store.new.slot.value result (rope.new ≡ rope.old)
        (λ old new. PartsTold old new x i n result rope.old rope.new) }
{
    match store.take(alloc) {
        Some(mut ropes) => {
            let outcome = substr(&mut ropes.store, x, i, n, rope);
            *store = CordStore::of(ropes);
            outcome
        }
        None => CLOSED,
    }
}

/// The same text by a balanced rope.
#[unsafe(no_mangle)]
pub extern "C" fn cord_store_balance(
    alloc: Global,
    store: &mut CordStore,
    x: u64,
    rope: &mut u64,
) -> u32
    ensures { UsesRopes store.old.slot.value store.new.slot.value result (rope.new ≡ rope.old)
        (λ old new. BalancesTold old new x result rope.old rope.new) }
{
    match store.take(alloc) {
        Some(mut ropes) => {
            let outcome = balanced(&mut ropes.store, x, rope);
            *store = CordStore::of(ropes);
            outcome
        }
        None => CLOSED,
    }
}
