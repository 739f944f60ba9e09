//! Positions in a rope of two sources, a literal and a function.

use super::places::{fetch, fill, index, next, prev, run_bytes, run_left, set, skip, valid};
use super::searches::leaves;
use super::stores::{function, joined, literal};
use super::{assert_same, assert_same_at};
use cord_position::fill_part;
use function_leaf::Coded;
use lazy_file::{MemSources, SourceFault};
use rope_node::{NodeId, NodeSpace, NodeView, Rope};
use rope_store::Store;
use std::process::Abort;

/// `ab`, `c`, `def` and the bytes 0 to 3, each a leaf: nodes 0, 1, 3 and 4 of a new store.
fn four_leaves(rt: &impl Abort, store: &mut Store<Coded>, sources: &mut MemSources<'_>) -> Rope {
    let front = leaves(rt, store, sources, &[b"ab", b"c"]);
    let text = literal(rt, store, b"def");
    let numbers = function(rt, store, Coded::ramp(0), 4);
    let back = joined(rt, store, text, numbers);
    joined(rt, store, front, back)
}

#[test]
fn steps_and_skips_end_at_both_ends(rt: HostRuntime) {
    let mut store: Store<Coded> = Store::new(rt.alloc());
    let mut sources = MemSources::new(rt.alloc());
    let all = four_leaves(&rt, &mut store, &mut sources);
    let mut pos = set(&rt, &store, all, 0);
    assert!(rt; !prev(&mut pos));
    for byte in *b"abcdef\0\x01\x02\x03" {
        assert_same(&rt, &fetch(&pos, &mut sources), &Ok(Some(byte)));
        assert!(rt; next(&mut pos));
    }
    assert!(rt; !next(&mut pos));
    assert_same(&rt, &fetch(&pos, &mut sources), &Ok(None));
    assert!(rt; prev(&mut pos));
    assert_same(&rt, &index(&pos), &9);
    for (rope, i, n, end) in [
        (all, 11, 0, 10),
        (all, 2, 3, 5),
        (all, 5, u64::MAX, 10),
        (None, 1, 1, 0),
    ] {
        let mut pos = set(&rt, &store, rope, i);
        skip(&mut pos, n);
        assert_same_at(&rt, &(index(&pos), valid(&pos)), &(end, end == 5), &i);
    }
}

#[test]
fn a_run_ends_with_its_leaf_or_the_buffer(rt: HostRuntime) {
    let mut store: Store<Coded> = Store::new(rt.alloc());
    let mut sources = MemSources::new(rt.alloc());
    let all = four_leaves(&rt, &mut store, &mut sources);
    for (i, left, literal, room, filled, bytes) in [
        (0, 2, "", 5, 2, *b"ab..."),
        (0, 2, "", 0, 0, *b"....."),
        (1, 1, "", 5, 1, *b"b...."),
        (2, 1, "", 5, 1, *b"c...."),
        (3, 3, "def", 2, 2, *b"de..."),
        (4, 2, "ef", 5, 2, *b"ef..."),
        (6, 4, "", 5, 4, *b"\0\x01\x02\x03."),
        (7, 3, "", 5, 3, *b"\x01\x02\x03.."),
        (9, 1, "", 5, 1, *b"\x03...."),
        (11, 0, "", 5, 0, *b"....."),
    ] {
        let pos = set(&rt, &store, all, i);
        assert_same_at(&rt, &run_left(&pos), &left, &i);
        assert_same_at(&rt, &run_bytes(&pos), &literal.as_bytes(), &i);
        let mut buffer = *b".....";
        let (front, _) = buffer.split_at_mut(room);
        assert_same_at(&rt, &fill(&pos, &mut sources, front), &Ok(filled), &i);
        assert_same_at(&rt, &buffer, &bytes, &i);
    }
}

/// Two bytes of a leaf from `start` on.
fn two_bytes(
    rt: &impl Abort,
    store: &Store<Coded>,
    sources: &mut MemSources<'_>,
    leaf: NodeId,
    start: u64,
) -> Result<[u8; 2], SourceFault> {
    assert!(rt; store.has(Some(leaf)) && start < 4 && NodeSpace::len(store, leaf) >= start + 2);
    let mut two = *b"..";
    match store.node(leaf) {
        NodeView::Lit { .. } | NodeView::Src { .. } | NodeView::Fun => {
            fill_part(store, sources, leaf, start, &mut two)?;
            Ok(two)
        }
        NodeView::Cat { .. } | NodeView::Sub { .. } => panic!(rt; "no leaf"),
    }
}

#[test]
fn a_part_of_a_leaf_fills_its_buffer(rt: HostRuntime) {
    let mut store: Store<Coded> = Store::new(rt.alloc());
    let mut sources = MemSources::new(rt.alloc());
    let all = four_leaves(&rt, &mut store, &mut sources);
    for (leaf, start, bytes) in [(0, 0, *b"ab"), (3, 1, *b"ef"), (4, 2, [2, 3])] {
        let found = two_bytes(&rt, &store, &mut sources, NodeId(leaf), start);
        assert_same_at(&rt, &found, &Ok(bytes), &leaf);
    }
    let mut none = MemSources::new(rt.alloc());
    let pos = set(&rt, &store, all, 0);
    assert_same(
        &rt,
        &fill(&pos, &mut none, &mut [0]),
        &Err(SourceFault::BadSource),
    );
    assert_same(&rt, &fetch(&pos, &mut none), &Err(SourceFault::BadSource));
    assert_same(&rt, &fill(&pos, &mut none, &mut []), &Ok(0));
}
