//! The calls of a store, each in a function of its own: what it ensures is not needed to prove a test.

use function_leaf::Coded;
use node_table::NodeFault;
use rope_node::Rope;
use rope_store::Store;
use std::process::Abort;

pub(super) fn add_source(rt: &impl Abort, store: &mut Store<Coded>, len: u64) -> u32 {
    u32::from(store.add_source(len).expect(rt, "a source"))
}

pub(super) fn from_source(
    store: &mut Store<Coded>,
    s: u32,
    a: u64,
    n: u64,
) -> Result<Rope, NodeFault> {
    store.from_source(s, a, n)
}

pub(super) fn source_leaf(
    rt: &impl Abort,
    store: &mut Store<Coded>,
    s: u32,
    a: u64,
    n: u64,
) -> Rope {
    from_source(store, s, a, n).expect(rt, "a part of a source")
}

pub(super) fn literal(rt: &impl Abort, store: &mut Store<Coded>, bytes: &[u8]) -> Rope {
    store.from_bytes(bytes).expect(rt, "a literal")
}

pub(super) fn function(rt: &impl Abort, store: &mut Store<Coded>, f: Coded, n: u64) -> Rope {
    store.from_fn(f, n).expect(rt, "a function")
}

pub(super) fn cat(
    rt: &impl Abort,
    store: &mut Store<Coded>,
    l: Rope,
    r: Rope,
) -> Result<Rope, NodeFault> {
    assert!(rt; store.has(l) && store.has(r));
    store.cat(l, r)
}

pub(super) fn joined(rt: &impl Abort, store: &mut Store<Coded>, l: Rope, r: Rope) -> Rope {
    cat(rt, store, l, r).expect(rt, "a rope")
}

pub(super) fn substr(rt: &impl Abort, store: &mut Store<Coded>, x: Rope, i: u64, n: u64) -> Rope {
    assert!(rt; store.has(x));
    store.substr(x, i, n).expect(rt, "a part")
}

/// A rope's length and depth.
pub(super) fn size_of(rt: &impl Abort, store: &Store<Coded>, rope: Rope) -> (u64, u8) {
    assert!(rt; store.has(rope));
    (store.len(rope), store.depth(rope))
}
