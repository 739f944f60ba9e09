//! Ropes made, by numbers.

ghost use Rattle.std.specs.Prelude.{◌≡◌};
ghost use Rattle.cord_store.specs.Numbers.{node_after, node_outcome, rope_after, rope_outcome};
ghost use Rattle.cord_store.specs.Made.{AddsSourceTold, AppendsTold, BalancesTold, CatsTold, MakesBytesTold, MakesFunctionTold, MakesSourceTold, PartsTold, named_function};

use crate::codes::{DONE, NO_COMMAND, NO_ROPE};
use crate::numbers::{known, node_number, number, rope_fault_number};
use function_leaf::{Coded, PATTERN_LIMIT};
use image_reader::codes::{CYCLE, FILL, RAMP};
use node_table::NodeFault;
use rebalance::{BalanceFault, append_any, balance, cat_any, substr_any};
use rope_node::Rope;
use rope_store::Store;

/// Tells a rope, or why there is none.
fn tell(made: Result<Rope, BalanceFault>, rope: &mut u64) -> u32
    ensures outcome { result ≡ rope_outcome made }
    ensures number { rope.new ≡ rope_after made rope.old }
{
    match made {
        Ok(root) => {
            *rope = number(root);
            DONE
        }
        Err(fault) => rope_fault_number(fault),
    }
}

/// Tells a rope of one leaf, or why there is none.
fn tell_leaf(made: Result<Rope, NodeFault>, rope: &mut u64) -> u32
    ensures outcome { result ≡ node_outcome made }
    ensures number { rope.new ≡ node_after made rope.old }
{
    match made {
        Ok(root) => {
            *rope = number(root);
            DONE
        }
        Err(fault) => node_number(fault),
    }
}

/// Adds a source of so many bytes, and tells its number.
pub fn add_source(store: &mut Store<Coded>, len: u64, source: &mut u32) -> u32
    ensures { AddsSourceTold store.old store.new len result source.old source.new }
{
    match store.add_source(len) {
        Ok(number) => {
            *source = u32::from(number);
            DONE
        }
        Err(fault) => node_number(fault),
    }
}

/// These bytes.
pub fn of_bytes(store: &mut Store<Coded>, bytes: &[u8], rope: &mut u64) -> u32
    ensures { MakesBytesTold store.old store.new bytes.now result rope.old rope.new }
{
    let made = store.from_bytes(bytes);
    tell_leaf(made, rope)
}

/// Bytes of a source.
pub fn of_source(store: &mut Store<Coded>, s: u32, i: u64, n: u64, rope: &mut u64) -> u32
    ensures { MakesSourceTold store.old store.new s i n result rope.old rope.new }
{
    let made = store.from_source(s, i, n);
    tell_leaf(made, rope)
}

/// The function that these numbers name.
fn named_function(function: u32, pattern: &[u8]) -> Option<Coded>
    ensures { result ≡ named_function function pattern.now }
{
    if function == u32::from(FILL) {
        return Some(Coded::fill(*pattern.first()?));
    }
    if function == u32::from(RAMP) {
        return Some(Coded::ramp(*pattern.first()?));
    }
    if function == u32::from(CYCLE) && !pattern.is_empty() && pattern.len() <= PATTERN_LIMIT {
        return Coded::cycle(pattern);
    }
    None
}

/// The first `n` bytes that a function gives.
pub fn of_function(
    store: &mut Store<Coded>,
    function: u32,
    pattern: &[u8],
    n: u64,
    rope: &mut u64,
) -> u32
    ensures { MakesFunctionTold store.old store.new function pattern.now n result rope.old rope.new }
{
    match named_function(function, pattern) {
        Some(function) => {
            let made = store.from_fn(function, n);
            tell_leaf(made, rope)
        }
        None => NO_COMMAND,
    }
}

/// Two ropes, one behind the other.
pub fn cat(store: &mut Store<Coded>, x: u64, y: u64, rope: &mut u64) -> u32
    ensures { CatsTold store.old store.new x y result rope.old rope.new }
{
    let Some(left) = known(store, x) else {
        return NO_ROPE;
    };
    let Some(right) = known(store, y) else {
        return NO_ROPE;
    };
    let made = cat_any(store, left, right);
    tell(made, rope)
}

/// At most `n` bytes of a rope from place `i` on.
pub fn substr(store: &mut Store<Coded>, x: u64, i: u64, n: u64, rope: &mut u64) -> u32
    ensures { PartsTold store.old store.new x i n result rope.old rope.new }
{
    let Some(whole) = known(store, x) else {
        return NO_ROPE;
    };
    let made = substr_any(store, whole, i, n);
    tell(made, rope)
}

/// The same text by a balanced rope.
pub fn balanced(store: &mut Store<Coded>, x: u64, rope: &mut u64) -> u32
    ensures { BalancesTold store.old store.new x result rope.old rope.new }
{
    let Some(whole) = known(store, x) else {
        return NO_ROPE;
    };
    let made = balance(store, whole);
    tell(made, rope)
}

/// A rope with bytes behind it.
pub fn append(store: &mut Store<Coded>, x: u64, bytes: &[u8], rope: &mut u64) -> u32
    ensures { AppendsTold store.old store.new x bytes.now result rope.old rope.new }
{
    let Some(before) = known(store, x) else {
        return NO_ROPE;
    };
    match append_any(store, before, bytes) {
        Ok((made, _)) => {
            *rope = number(made);
            DONE
        }
        Err(fault) => rope_fault_number(fault),
    }
}
