//! What a table refuses by itself. Its nodes are put by the store above, whose tests put them.

use super::stores::{add_source, function, joined, literal, size_of, source_leaf, substr};
use super::{assert_same, assert_same_at};
use function_leaf::Coded;
use leaf_buffer::Piece;
use node_table::{NodeFault, NodeTable};
use rope_node::{
    CodedSpace, MOST_NODES, MOST_SOURCES, NodeId, NodeSpace, NodeView, Rope, Span, StepDown,
    step_down,
};
use rope_store::Store;
use std::process::Abort;

#[test]
fn a_source_is_shorter_than_2_to_40_bytes(rt: HostRuntime) {
    let mut table = NodeTable::<Coded>::new(rt.alloc());
    assert_same(&rt, &(table.count(), table.pool_len()), &(0, 0));
    assert_same(&rt, &table.source_count(), &0);
    assert!(&rt; !table.can_grow(Piece { start: 0, len: 1 }, 1));
    assert_same(&rt, &table.add_source((1 << 40) - 1), &Ok(0));
    assert_same(&rt, &table.add_source(1 << 40), &Err(NodeFault::TooLong));
    assert_same(&rt, &table.source_count(), &1);
}

// Three blocks of nodes: each node stays as it was put when there are more.
#[test]
fn nine_thousand_nodes_are_each_what_was_put(rt: HostRuntime) {
    let mut store = Store::<Coded>::new(rt.alloc());
    let s = add_source(&rt, &mut store, 20_000);
    for n in 1..9_001 {
        assert!(rt; source_leaf(&rt, &mut store, s, n, n).is_some());
    }
    assert_same(&rt, &store.count(), &9_000);
    for k in 0..store.count() {
        let n = u64::from(k) + 1;
        let leaf = NodeView::Src { s, a: n };
        assert_same(&rt, &store.node(NodeId(k)), &leaf);
        assert_same(&rt, &size_of(&rt, &store, Some(NodeId(k))), &(n, 0));
    }
}

// A call puts up to three nodes, of which the last may stand over the others.
#[test]
fn a_concatenation_tells_the_length_of_its_left_part(rt: HostRuntime) {
    let mut store = Store::<Coded>::new(rt.alloc());
    let s = add_source(&rt, &mut store, 20_000);
    let mut text = None;
    for n in 1..200 {
        if n % 15 == 0 {
            text = None;
        }
        let leaf = source_leaf(&rt, &mut store, s, n, 10 * n);
        text = joined(&rt, &mut store, leaf, text);
        assert!(rt; store.has(text));
        text = store.append(text, b"as many bytes").expect(&rt, "a rope");
        text = substr(&rt, &mut store, text, 1, 30 * n);
    }
    let mut met: u32 = 0;
    for k in 0..store.count() {
        if let NodeView::Cat { l, .. } = store.node(NodeId(k)) {
            assert!(rt; store.has(Some(l)));
            let wanted = store.len(Some(l));
            assert_same_at(&rt, &store.left_len(NodeId(k), l), &wanted, &u64::from(k));
            met = met.saturating_add(1);
        }
    }
    assert!(rt; 300 < met);
}

// The step down from a span, which has to lie in its node.
fn step(rt: &impl Abort, store: &Store<Coded>, x: Span, least: u64) -> StepDown {
    assert!(rt; store.has(Some(x.node)));
    assert!(rt; 1 <= least && least <= x.len);
    let len = store.len(Some(x.node));
    assert!(rt; x.start < len && x.len <= len - x.start);
    let view = store.node(x.node);
    step_down(store, x, view, least)
}

// By hand: 30 bytes and 40 behind them, and a part of a function.
#[test]
fn a_step_down_leads_to_a_child_or_across_both(rt: HostRuntime) {
    let mut store = Store::<Coded>::new(rt.alloc());
    let s = add_source(&rt, &mut store, 100);
    let l = source_leaf(&rt, &mut store, s, 1, 30);
    let r = source_leaf(&rt, &mut store, s, 50, 40);
    let text = joined(&rt, &mut store, l, r);
    let f = function(&rt, &mut store, Coded::fill(b'x'), 100);
    let part = substr(&rt, &mut store, f, 10, 50);
    let of = |rope: Rope, start: u64, len: u64| Span {
        node: rope.expect(&rt, "a node"),
        start,
        len,
    };
    let both = StepDown::Across(of(l, 20, 10), of(r, 0, 15));
    assert_same(
        &rt,
        &step(&rt, &store, of(text, 20, 10), 10),
        &StepDown::Below(of(l, 20, 10)),
    );
    assert_same(&rt, &step(&rt, &store, of(text, 20, 25), 25), &both);
    assert_same(&rt, &step(&rt, &store, of(text, 20, 25), 11), &both);
    assert_same(
        &rt,
        &step(&rt, &store, of(text, 20, 25), 10),
        &StepDown::Below(of(l, 20, 10)),
    );
    assert_same(
        &rt,
        &step(&rt, &store, of(text, 30, 40), 40),
        &StepDown::Below(of(r, 0, 40)),
    );
    assert_same(
        &rt,
        &step(&rt, &store, of(part, 7, 3), 3),
        &StepDown::Below(of(f, 17, 3)),
    );
    assert_same(&rt, &step(&rt, &store, of(l, 7, 3), 3), &StepDown::Leaf);
}

/// `bc----xx`: a part of a literal, a function and a part of a source.
fn three_kinds(rt: &impl Abort, store: &mut Store<Coded>) -> Rope {
    let s = add_source(rt, store, 20);
    let abc = literal(rt, store, b"abc");
    let dashes = function(rt, store, Coded::fill(b'-'), 4);
    let xs = source_leaf(rt, store, s, 2, 2);
    let left = joined(rt, store, abc, dashes);
    let all = joined(rt, store, left, xs);
    substr(rt, store, all, 1, 8)
}

/// A node, its length and its depth, its function and the length of its left part, where it has them.
fn record_of<S: CodedSpace>(
    rt: &impl Abort,
    space: &S,
    id: NodeId,
) -> (NodeView, u64, u8, Option<Coded>, u64) {
    assert!(rt; id.0 < space.count());
    let view = space.node(id);
    let (function, left) = match view {
        NodeView::Fun => (Some(space.coded(id)), 0),
        NodeView::Cat { l, .. } => (None, space.left_len(id, l)),
        _ => (None, 0),
    };
    (view, space.len(id), space.depth(id), function, left)
}

fn copied<S: CodedSpace>(rt: &(impl AllocGlobal + Abort), space: &S) -> NodeTable<Coded> {
    assert!(rt; space.count() <= MOST_NODES && space.source_count() <= MOST_SOURCES);
    NodeTable::copied(rt.alloc(), space).expect(rt, "memory")
}

#[test]
fn a_copied_table_has_the_same_nodes(rt: HostRuntime) {
    let mut store = Store::<Coded>::new(rt.alloc());
    let text = three_kinds(&rt, &mut store);
    assert_same(&rt, &size_of(&rt, &store, text), &(8, 3));
    let table = copied(&rt, &store);
    assert_same(
        &rt,
        &(table.count(), table.source_count()),
        &(store.count(), 1),
    );
    assert!(rt; table.source_count() == 1);
    assert_same(&rt, &table.source_len(0), &20);
    assert!(rt; table.pool_len() == 3);
    assert_same(&rt, &table.pool(0), &b"abc".as_slice());
    for k in 0..store.count() {
        let wanted = record_of(&rt, &store, NodeId(k));
        assert_same_at(
            &rt,
            &record_of(&rt, &table, NodeId(k)),
            &wanted,
            &u64::from(k),
        );
    }
}

#[test]
fn refusals_print_their_codes(rt: HostRuntime) {
    for (fault, code) in [
        (NodeFault::TooLong, "N1"),
        (NodeFault::TooDeep, "N2"),
        (NodeFault::TableFull, "N3"),
        (NodeFault::PoolFull, "N4"),
        (NodeFault::BadSpan, "N5"),
        (NodeFault::TooManySources, "N6"),
        (NodeFault::Memory, "Memory"),
    ] {
        let printed = fault.to_string(rt.alloc()).expect(&rt, "memory");
        assert_same(&rt, &printed.as_str(), &code);
    }
}
