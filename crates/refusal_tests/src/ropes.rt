//! Ropes that are joined, cut, balanced and appended to. The answers are those of the store's worked examples.

use crate::kept::{byte_at, size_of};
use crate::refusals::{Refusals, assert_same};
use crate::stores::{Call, answered, copied, node_count, rope_of};
use function_leaf::Coded;
use lazy_file::MemSources;
use node_table::NodeFault;
use rebalance::BalanceFault;
use rope_node::{NodeId, NodeSpace, NodeView, Rope};
use rope_store::Store;
use std::alloc::AllocGlobal;
use std::process::Abort;

/// A store with a source of one byte.
fn one_byte<A: AllocGlobal + Abort>(rt: &A, refusals: &mut Refusals) -> Store<Coded> {
    let mut store = Store::new(rt.alloc());
    let added = answered(rt, &mut store, &Call::AddSource(1), refusals);
    assert_same(rt, &added.expect(rt, "a source").number, &0, &"a source");
    store
}

/// So many leaves of one byte of a source, each behind the others.
fn chain<A: Abort>(rt: &A, store: &mut Store<Coded>, count: u32, refusals: &mut Refusals) -> Rope {
    let mut rope = None;
    for _ in 0..count {
        let leaf = rope_of(rt, store, &Call::Source(0, 0, 1), refusals);
        rope = rope_of(rt, store, &Call::Cat(rope, leaf), refusals);
    }
    rope
}

pub(crate) fn eight_leaves<A: AllocGlobal + Abort>(rt: &A, refusals: &mut Refusals) {
    let mut store = one_byte(rt, refusals);
    let rope = chain(rt, &mut store, 8, refusals);
    assert_same(rt, &size_of(rt, &store, rope), &(8, 7), &"the chain");
    let count = node_count(&store);
    let were_none = refusals.are_none();
    let shallow = rope_of(rt, &mut store, &Call::Balance(rope), refusals);
    assert_same(rt, &size_of(rt, &store, shallow), &(8, 3), &"balanced");
    if were_none && refusals.are_none() {
        let wanted = count.saturating_add(7);
        assert_same(rt, &node_count(&store), &wanted, &"seven nodes");
    }
}

/// A chain of 65 leaves and one more: too deep for one node, so they are put together anew.
pub(crate) fn deepest_joined<A: AllocGlobal + Abort>(rt: &A, refusals: &mut Refusals) {
    let mut store = one_byte(rt, refusals);
    let rope = chain(rt, &mut store, 65, refusals);
    assert_same(rt, &size_of(rt, &store, rope), &(65, 64), &"the chain");
    let leaf = chain(rt, &mut store, 1, refusals);
    let refused = answered(rt, &mut store, &Call::Cat(rope, leaf), refusals);
    let too_deep = Err(BalanceFault::Node(NodeFault::TooDeep));
    assert_same(rt, &refused, &too_deep, &"too deep");
    let both = rope_of(rt, &mut store, &Call::CatAny(rope, leaf), refusals);
    assert_same(rt, &size_of(rt, &store, both), &(66, 8), &"joined");
}

pub(crate) fn deepest_cut<A: AllocGlobal + Abort>(rt: &A, refusals: &mut Refusals) {
    let mut store = one_byte(rt, refusals);
    let rope = chain(rt, &mut store, 65, refusals);
    let part = rope_of(rt, &mut store, &Call::SubstrAny(rope, 1, 64), refusals);
    let (len, _) = size_of(rt, &store, part);
    assert_same(rt, &len, &64, &"the part");
}

pub(crate) fn deepest_appended<A: AllocGlobal + Abort>(rt: &A, refusals: &mut Refusals) {
    let mut store = one_byte(rt, refusals);
    let rope = chain(rt, &mut store, 65, refusals);
    let call = &Call::AppendAny(rope, b"x");
    let longer = answered(rt, &mut store, call, refusals).expect(rt, "a rope");
    let (len, _) = size_of(rt, &store, longer.rope);
    assert_same(rt, &len, &66, &"appended");
    let mut sources = MemSources::new(rt.alloc());
    let last = byte_at(rt, &store, &mut sources, longer.rope, 65);
    assert_same(rt, &last, &Some(b'x'), &"the last byte");
}

/// Fails the test where a rope is not this node, or not so long and deep.
fn assert_shape<A: Abort>(
    rt: &A,
    store: &Store<Coded>,
    rope: Rope,
    view: NodeView,
    size: (u64, u8),
) {
    let node = rope.expect(rt, "a node");
    assert!(rt; node.0 < store.count());
    assert_same(rt, &store.node(node), &view, &rope);
    assert_same(rt, &size_of(rt, store, rope), &size, &rope);
}

/// 31 bytes.
const LONG: &[u8] = b"0123456789abcdef0123456789abcde";

pub(crate) fn short_literals<A: AllocGlobal + Abort>(rt: &A, refusals: &mut Refusals) {
    let mut store = Store::new(rt.alloc());
    let ab = rope_of(rt, &mut store, &Call::Bytes(b"ab"), refusals);
    let cd = rope_of(rt, &mut store, &Call::Bytes(b"cd"), refusals);
    let both = rope_of(rt, &mut store, &Call::Cat(ab, cd), refusals);
    assert_shape(rt, &store, both, NodeView::Lit { a: 4 }, (4, 0));
    let nil = rope_of(rt, &mut store, &Call::Cat(None, ab), refusals);
    assert_same(rt, &nil, &ab, &"a nil side");
    let half = rope_of(rt, &mut store, &Call::Bytes(&LONG[..16]), refusals);
    let whole = rope_of(rt, &mut store, &Call::Cat(half, half), refusals);
    let node = half.expect(rt, "a node");
    assert_shape(
        rt,
        &store,
        whole,
        NodeView::Cat { l: node, r: node },
        (32, 1),
    );
    let ramp = &Call::Function(Coded::ramp(b'a'), 2);
    let function = rope_of(rt, &mut store, ramp, refusals);
    assert_shape(rt, &store, function, NodeView::Fun, (2, 0));
}

pub(crate) fn merged_last_literals<A: AllocGlobal + Abort>(rt: &A, refusals: &mut Refusals) {
    let mut store = Store::new(rt.alloc());
    let long = rope_of(rt, &mut store, &Call::Bytes(LONG), refusals);
    let ab = rope_of(rt, &mut store, &Call::Bytes(b"ab"), refusals);
    let first = rope_of(rt, &mut store, &Call::Cat(long, ab), refusals);
    let cd = rope_of(rt, &mut store, &Call::Bytes(b"cd"), refusals);
    let both = rope_of(rt, &mut store, &Call::Cat(first, cd), refusals);
    let [l, r] = [NodeId(0), NodeId(4)];
    assert_shape(rt, &store, both, NodeView::Cat { l, r }, (35, 1));
    assert_shape(rt, &store, Some(r), NodeView::Lit { a: 35 }, (4, 0));
    let call = &Call::CatPlain(l, r);
    let plain = rope_of(rt, &mut store, call, refusals);
    assert_shape(rt, &store, plain, NodeView::Cat { l, r }, (35, 1));
}

pub(crate) fn parts_of_five_bytes<A: AllocGlobal + Abort>(rt: &A, refusals: &mut Refusals) {
    let mut store = Store::new(rt.alloc());
    let text = rope_of(rt, &mut store, &Call::Bytes(b"abcde"), refusals);
    let part = rope_of(rt, &mut store, &Call::Substr(text, 1, 3), refusals);
    assert_shape(rt, &store, part, NodeView::Lit { a: 1 }, (3, 0));
    let behind = rope_of(rt, &mut store, &Call::Substr(text, 5, 1), refusals);
    assert_same(rt, &behind, &None, &"nil");
    let whole = rope_of(rt, &mut store, &Call::Substr(text, 0, 9), refusals);
    assert_same(rt, &whole, &text, &"the rope itself");
}

/// A literal that grows in place, and one that does not.
pub(crate) fn last_literals_grow<A: AllocGlobal + Abort>(rt: &A, refusals: &mut Refusals) {
    let mut store = Store::new(rt.alloc());
    let a = rope_of(rt, &mut store, &Call::Append(None, b"a"), refusals);
    let ab = rope_of(rt, &mut store, &Call::Append(a, b"b"), refusals);
    assert_shape(rt, &store, ab, NodeView::Lit { a: 0 }, (2, 0));
    assert_shape(rt, &store, a, NodeView::Lit { a: 0 }, (1, 0));
    let fill = rope_of(rt, &mut store, &Call::Chars(b'x', 40), refusals);
    let sub = rope_of(rt, &mut store, &Call::Substr(fill, 1, 39), refusals);
    let base = fill.expect(rt, "a node");
    assert_shape(rt, &store, sub, NodeView::Sub { b: base, i: 1 }, (39, 1));
    let longer = rope_of(rt, &mut store, &Call::Append(a, b"c"), refusals);
    assert_shape(rt, &store, longer, NodeView::Lit { a: 3 }, (2, 0));
}

/// A copy of leaves of each kind goes on by itself.
pub(crate) fn copied_store<A: AllocGlobal + Abort>(rt: &A, refusals: &mut Refusals) {
    let mut store = one_byte(rt, refusals);
    let leaves = chain(rt, &mut store, 3, refusals);
    let dashes = rope_of(rt, &mut store, &Call::Chars(b'-', 4), refusals);
    let left = rope_of(rt, &mut store, &Call::Cat(leaves, dashes), refusals);
    let abc = rope_of(rt, &mut store, &Call::Bytes(b"abc"), refusals);
    let mut copy = copied(rt, &store, refusals);
    let all = rope_of(rt, &mut copy, &Call::Cat(left, abc), refusals);
    let longer = rope_of(rt, &mut copy, &Call::Append(all, b"d"), refusals);
    assert_same(rt, &size_of(rt, &copy, longer).0, &11, &"one more");
}
