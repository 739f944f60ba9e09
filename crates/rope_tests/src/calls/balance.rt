use super::assert_same;
use super::ropes::assert_shape;
use super::stores::{add_source, cat, function, joined, literal, size_of, source_leaf, substr};
use function_leaf::Coded;
use node_table::NodeFault;
use rebalance::{BalanceFault, append_any, balance, cat_any, is_balanced, substr_any};
use rope_node::{NodeId, NodeSpace, NodeView, Rope};
use rope_store::Store;
use std::process::Abort;

// What a call ensures is not needed to prove a test, so each stands in a function of its own that ensures nothing.

fn balanced(rt: &impl Abort, store: &mut Store<Coded>, rope: Rope) -> Rope {
    assert!(rt; store.has(rope));
    balance(store, rope).expect(rt, "a rope")
}

fn balance_fault(rt: &impl Abort, store: &mut Store<Coded>, rope: Rope) -> Option<BalanceFault> {
    assert!(rt; store.has(rope));
    balance(store, rope).err()
}

fn any_joined(rt: &impl Abort, store: &mut Store<Coded>, l: Rope, r: Rope) -> Rope {
    assert!(rt; store.has(l) && store.has(r));
    cat_any(store, l, r).expect(rt, "a rope")
}

fn any_part(rt: &impl Abort, store: &mut Store<Coded>, rope: Rope, i: u64, n: u64) -> Rope {
    assert!(rt; store.has(rope));
    substr_any(store, rope, i, n).expect(rt, "a part")
}

/// The rope with the bytes behind it, and the pool's place of the bytes.
fn appended(rt: &impl Abort, store: &mut Store<Coded>, rope: Rope, bytes: &[u8]) -> (Rope, u64) {
    assert!(rt; store.has(rope));
    append_any(store, rope, bytes).expect(rt, "a rope")
}

fn len_of(rt: &impl Abort, store: &Store<Coded>, rope: Rope) -> u64 {
    let (len, _) = size_of(rt, store, rope);
    len
}

/// So many leaves of one byte of a source, each behind the others.
fn chain(rt: &impl Abort, store: &mut Store<Coded>, count: u32) -> Rope {
    let s = add_source(rt, store, 1);
    let mut rope = None;
    for _ in 0..count {
        let leaf = source_leaf(rt, store, s, 0, 1);
        rope = joined(rt, store, rope, leaf);
    }
    rope
}

/// One byte of a source, joined so often with itself.
fn doubled(rt: &impl Abort, store: &mut Store<Coded>, times: u32) -> Rope {
    let s = add_source(rt, store, 1);
    let mut rope = source_leaf(rt, store, s, 0, 1);
    for _ in 0..times {
        rope = joined(rt, store, rope, rope);
    }
    rope
}

#[test]
fn eight_leaves_balance_to_depth_three(rt: HostRuntime) {
    let mut store: Store<Coded> = Store::new(rt.alloc());
    let rope = chain(&rt, &mut store, 8);
    assert_same(&rt, &size_of(&rt, &store, rope), &(8, 7));
    let count = store.count();
    let shallow = balanced(&rt, &mut store, rope);
    assert_same(&rt, &size_of(&rt, &store, shallow), &(8, 3));
    assert_same(&rt, &u64::from(store.count()), &(u64::from(count) + 7));
}

#[test]
fn balanced_lengths_begin_at_fibonacci_numbers(rt: HostRuntime) {
    for (len, depth, balanced) in [
        (8, 3, true),
        (12_586_269_025, 48, true),
        (12_586_269_024, 48, false),
        (1_099_511_627_775, 58, false),
    ] {
        assert_same(&rt, &is_balanced(len, depth), &balanced);
    }
}

#[test]
fn the_deepest_is_joined_cut_and_appended_to(rt: HostRuntime) {
    let mut store: Store<Coded> = Store::new(rt.alloc());
    let rope = chain(&rt, &mut store, 65);
    let leaf = chain(&rt, &mut store, 1);
    assert_same(&rt, &size_of(&rt, &store, rope), &(65, 64));
    assert_same(
        &rt,
        &cat(&rt, &mut store, rope, leaf),
        &Err(NodeFault::TooDeep),
    );
    let both = any_joined(&rt, &mut store, rope, leaf);
    assert_same(&rt, &size_of(&rt, &store, both), &(66, 8));
    let inner = any_part(&rt, &mut store, rope, 1, 64);
    assert_same(&rt, &len_of(&rt, &store, inner), &64);
    let (longer, place) = appended(&rt, &mut store, rope, b"x");
    assert_same(&rt, &len_of(&rt, &store, longer), &66);
    assert_same(&rt, &place, &0);
}

#[test]
fn what_is_there_takes_no_node(rt: HostRuntime) {
    let mut store: Store<Coded> = Store::new(rt.alloc());
    let rope = chain(&rt, &mut store, 3);
    let text = literal(&rt, &mut store, b"rope");
    let count = store.count();
    let child = any_part(&rt, &mut store, rope, 0, 2);
    assert_same(&rt, &size_of(&rt, &store, child), &(2, 1));
    for rope in [None, text] {
        assert_same(&rt, &balanced(&rt, &mut store, rope), &rope);
    }
    assert_same(&rt, &store.count(), &count);
}

#[test]
fn a_part_of_a_function_is_a_literal_below_32_bytes(rt: HostRuntime) {
    let mut store: Store<Coded> = Store::new(rt.alloc());
    let fill = function(&rt, &mut store, Coded::fill(b'x'), 100);
    let b = NodeId(0);
    for (n, view, depth) in [
        (31, NodeView::Lit { a: 0 }, 0),
        (32, NodeView::Sub { b, i: 10 }, 1),
    ] {
        let part = substr(&rt, &mut store, fill, 10, n);
        let shallow = balanced(&rt, &mut store, part);
        assert_shape(&rt, &store, shallow, view, n, depth);
    }
    assert!(rt; store.pool_len() == 31);
    assert_same(&rt, &store.pool(0), &[b'x'; 31].as_slice());
}

// Node 0 is a literal and node 1 a part of a source. Both joined is a node, and six bytes over the joint another; of
// these balancing makes three more: the left leaf's part, the right one's, and both joined.
#[test]
fn parts_of_literals_and_sources_are_such_leaves(rt: HostRuntime) {
    let mut store: Store<Coded> = Store::new(rt.alloc());
    let s = add_source(&rt, &mut store, 20);
    let text = literal(&rt, &mut store, b"abcde");
    let source = source_leaf(&rt, &mut store, s, 7, 5);
    for (l, r, root) in [(text, source, 6), (source, text, 11)] {
        let both = joined(&rt, &mut store, l, r);
        let part = substr(&rt, &mut store, both, 2, 6);
        let shallow = balanced(&rt, &mut store, part);
        assert_same(&rt, &shallow, &Some(NodeId(root)));
        assert_same(&rt, &size_of(&rt, &store, shallow), &(6, 1));
    }
    for (node, view) in [
        (4, NodeView::Lit { a: 2 }),
        (5, NodeView::Src { s, a: 7 }),
        (9, NodeView::Src { s, a: 9 }),
        (10, NodeView::Lit { a: 0 }),
    ] {
        assert_shape(&rt, &store, Some(NodeId(node)), view, 3, 0);
    }
    assert_same(&rt, &store.pool_len(), &5);
}

/// A byte put in at this place.
fn typed(rt: &impl Abort, store: &mut Store<Coded>, rope: Rope, place: u64) -> Rope {
    let front = any_part(rt, store, rope, 0, place);
    let (longer, _) = appended(rt, store, front, b"x");
    let rest = any_part(rt, store, rope, place, u64::MAX);
    any_joined(rt, store, longer, rest)
}

#[test]
fn a_key_in_the_middle_takes_three_nodes(rt: HostRuntime) {
    let mut store: Store<Coded> = Store::new(rt.alloc());
    let s = add_source(&rt, &mut store, 1 << 20);
    let mut rope = source_leaf(&rt, &mut store, s, 0, 1 << 20);
    for key in 0..1000 {
        rope = typed(&rt, &mut store, rope, (1 << 19) + key);
    }
    assert_same(&rt, &size_of(&rt, &store, rope), &((1 << 20) + 1000, 2));
    assert!(rt; store.count() <= 3010);
}

#[test]
fn most_pieces_are_taken(rt: HostRuntime) {
    let mut store: Store<Coded> = Store::new(rt.alloc());
    let most = doubled(&rt, &mut store, 20);
    let shallow = balanced(&rt, &mut store, most);
    assert_same(&rt, &len_of(&rt, &store, shallow), &1_048_576);
}

#[test]
fn more_pieces_are_refused(rt: HostRuntime) {
    let mut store: Store<Coded> = Store::new(rt.alloc());
    let most = doubled(&rt, &mut store, 20);
    let twice = joined(&rt, &mut store, most, most);
    let one = chain(&rt, &mut store, 1);
    let more = joined(&rt, &mut store, most, one);
    let count = store.count();
    for rope in [twice, more] {
        let fault = balance_fault(&rt, &mut store, rope);
        assert_same(&rt, &fault, &Some(BalanceFault::TooManyPieces));
    }
    assert_same(&rt, &store.count(), &count);
}
