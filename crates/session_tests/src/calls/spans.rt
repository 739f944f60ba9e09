//! What spans are described by, the parts of commands, and the rows that are kept.

// The lines `let _count = store.count();` are for the proof: the store keeps its rules, as its count says.

use super::texts::{made, two_texts};
use super::{assert_same, assert_same_at};
use command_parts::{Edit, Part, PartIter, Splice, Splices, parts};
use edit_commands::Command;
use function_leaf::Coded;
use rope_node::{NodeId, NodeSpace, Rope};
use rope_store::Store;
use span_certificate::{Row, RowKind, describe_part};
use span_descent::{Description, describe_leaf};
use std::alloc::AllocGlobal;
use std::process::Abort;

/// What `n` bytes of a rope from `i` on are described by.
fn described<A: Abort>(
    rt: &A,
    store: &Store<Coded>,
    rope: Rope,
    i: u64,
    n: u64,
) -> Option<Description> {
    assert!(rt; store.has(rope));
    let _count = store.count();
    let end = i.checked_add(n).expect(rt, "an end");
    assert!(rt; n >= 1 && end <= store.len(rope));
    describe_part(store, Part::Old { rope, i: 0, n: end }, i, n)
}

/// What the span of a leaf from `start` on is described by.
fn described_leaf<A: Abort>(
    rt: &A,
    store: &Store<Coded>,
    rope: Rope,
    start: u64,
) -> Option<Description> {
    let leaf = rope.expect(rt, "a leaf");
    assert!(rt; store.has(rope));
    let _count = store.count();
    assert!(rt; start <= store.len(rope));
    describe_leaf(store, leaf, store.node(leaf), start)
}

/// A function from its place `i` on.
fn computed(f: Coded, i: u64) -> Option<Description> {
    Some(Description::Computed { f, i })
}

#[test]
fn ramps_are_described_by_their_first_byte(rt: HostRuntime) {
    let mut store: Store<Coded> = Store::new(rt.alloc());
    let rope = store.from_fn(Coded::ramp(0), 556).expect(&rt, "a ramp");
    for (i, first) in [(0, 0), (256, 0), (257, 1), (255, 255)] {
        let wanted = computed(Coded::ramp(first), 0);
        assert_same_at(&rt, &described(&rt, &store, rope, i, 299), &wanted, &i);
        assert_same_at(&rt, &described_leaf(&rt, &store, rope, i), &wanted, &i);
    }
}

/// A cycle of this pattern.
fn cycle<A: Abort>(rt: &A, pattern: &[u8]) -> Coded {
    Coded::cycle(pattern).expect(rt, "a pattern")
}

#[test]
fn cycles_are_described_by_their_place_in_the_pattern(rt: HostRuntime) {
    let mut store: Store<Coded> = Store::new(rt.alloc());
    for pattern in [b"ab".as_slice(), b"abab"] {
        let rope = store
            .from_fn(cycle(&rt, pattern), 20)
            .expect(&rt, "a cycle");
        for i in 0..10u64 {
            let wanted = computed(cycle(&rt, pattern), i % pattern.len().max(1) as u64);
            assert_same_at(&rt, &described(&rt, &store, rope, i, 10), &wanted, &i);
            assert_same_at(&rt, &described_leaf(&rt, &store, rope, i), &wanted, &i);
        }
    }
}

#[test]
fn leaves_are_described_by_their_bytes_places(rt: HostRuntime) {
    let mut store: Store<Coded> = Store::new(rt.alloc());
    let text = store.from_bytes(&[b'x'; 40]).expect(&rt, "a literal");
    assert_same(&rt, &store.add_source(50), &Ok(0));
    let source = store.from_source(0, 3, 40).expect(&rt, "a span");
    assert!(&rt; store.has(text) && store.has(source));
    let both = store.cat(text, source).expect(&rt, "a text");
    let pooled = Some(Description::Pooled { a: 35 });
    assert_same(&rt, &described(&rt, &store, both, 35, 5), &pooled);
    let sourced = Some(Description::Sourced { s: 0, a: 4 });
    assert_same(&rt, &described(&rt, &store, both, 41, 39), &sourced);
    assert_same(&rt, &described(&rt, &store, both, 35, 6), &None);
}

const SPLICES: &[Splice] = &[Splice {
    p: 1,
    m: 1,
    a: 0,
    n: 2,
}];

/// The first four parts of some, as far as there are so many.
fn first_four<P: Splices>(parts: PartIter<'_, P>) -> [Option<Part>; 4] {
    let mut parts = parts;
    let (first, second) = (parts.next(), parts.next());
    [first, second, parts.next(), parts.next()]
}

/// The parts of a cut, of an insertion and of a splice of a text of three bytes, whose pool has at least two.
fn parts_of_each<A: Abort>(rt: &A, store: &Store<Coded>, rope: Rope) -> [[Option<Part>; 4]; 3] {
    assert!(rt; store.has(rope));
    let _count = store.count();
    assert!(rt; store.len(rope) == 3 && store.pool_len() >= 2);
    let roots = [rope];
    let cut = Edit::Cut { r: 0, i: 1, n: 2 };
    let insert = Edit::Insert {
        r: 0,
        p: 3,
        a: 0,
        n: 2,
    };
    let many = Edit::Many {
        r: 0,
        first: 0,
        count: 1,
    };
    [
        first_four(parts(store, &&roots[..], &SPLICES, &cut)),
        first_four(parts(store, &&roots[..], &SPLICES, &insert)),
        first_four(parts(store, &&roots[..], &SPLICES, &many)),
    ]
}

#[test]
fn parts_come_in_order_and_none_is_empty(rt: HostRuntime) {
    let session = two_texts(&rt, b"abc");
    let rope = session.root(1).expect(&rt, "a revision");
    let old = |i, n| Some(Part::Old { rope, i, n });
    let pool = Some(Part::Pool { a: 0, n: 2 });
    let wanted = [
        [old(1, 2), None, None, None],
        [old(0, 3), pool, None, None],
        [old(0, 1), pool, old(2, 1), None],
    ];
    assert_same(&rt, &parts_of_each(&rt, session.space(), rope), &wanted);
    assert_same(&rt, &pool.map(|part| part.len()), &Some(2));
}

#[test]
fn what_is_left_of_a_text_is_shared(rt: HostRuntime) {
    let mut session = two_texts(&rt, b"abc");
    let fill = Command::Fill {
        r: 0,
        p: 0,
        c: b'a',
        n: 300,
    };
    let insert = Command::Insert {
        r: 2,
        p: 100,
        bytes: b"xyz",
    };
    for command in [fill, insert, Command::Back { r: 1 }] {
        made(&rt, &mut session, command);
    }
    let row = |len, kind| Row { len, kind };
    let shared = |k, o| RowKind::Shared(NodeId(k), o);
    let wanted = [
        row(100, shared(1, 0)),
        row(3, RowKind::Leaf),
        row(200, shared(1, 100)),
    ];
    assert_same(&rt, &session.rows(3), &Some(wanted.as_slice()));
    let taken_back = [row(3, shared(0, 0))];
    assert_same(&rt, &session.rows(4), &Some(taken_back.as_slice()));
}
