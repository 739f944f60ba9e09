use super::stores::{from_source, function, joined, literal, size_of, substr};
use super::{assert_same, assert_same_at};
use function_leaf::Coded;
use node_table::NodeFault;
use rope_node::{CodedSpace, MOST_NODES, MOST_SOURCES, NodeId, NodeSpace, NodeView, Rope};
use rope_store::Store;
use std::alloc::AllocGlobal;
use std::process::Abort;

fn chars(store: &mut Store<Coded>, c: u8, n: u64) -> Result<Rope, NodeFault> {
    store.chars(c, n)
}

fn append(rt: &impl Abort, store: &mut Store<Coded>, x: Rope, bytes: &[u8]) -> Rope {
    assert!(rt; store.has(x));
    store.append(x, bytes).expect(rt, "a text")
}

fn cat_plain(rt: &impl Abort, store: &mut Store<Coded>, l: NodeId, r: NodeId) -> Rope {
    assert!(rt; store.has(Some(l)) && store.has(Some(r)));
    store.cat_plain(l, r).expect(rt, "a rope")
}

/// The rope is this node, of this length and depth.
pub(super) fn assert_shape(
    rt: &impl Abort,
    store: &Store<Coded>,
    rope: Rope,
    view: NodeView,
    len: u64,
    depth: u8,
) {
    assert!(rt; store.has(rope));
    match rope {
        Some(node) => {
            assert_same(rt, &store.node(node), &view);
            assert_same(rt, &size_of(rt, store, rope), &(len, depth));
        }
        None => panic!(rt; "nil"),
    }
}

#[test]
fn functions_are_one_leaf(rt: HostRuntime) {
    let mut store: Store<Coded> = Store::new(rt.alloc());
    let ramp = function(&rt, &mut store, Coded::ramp(b'a'), 3);
    assert_shape(&rt, &store, ramp, NodeView::Fun, 3, 0);
    let longest = Some(NodeId(1));
    assert_same(&rt, &chars(&mut store, b'a', (1 << 40) - 1), &Ok(longest));
    assert_shape(&rt, &store, longest, NodeView::Fun, (1 << 40) - 1, 0);
    assert_same(
        &rt,
        &chars(&mut store, b'a', 1 << 40),
        &Err(NodeFault::TooLong),
    );
    assert_same(&rt, &function(&rt, &mut store, Coded::ramp(0), 0), &None);
    assert_same(&rt, &chars(&mut store, b'a', 0), &Ok(None));
    assert_same(&rt, &store.count(), &2);
    assert_same(&rt, &byte_of_function(&rt, &store, NodeId(0), 2), &b'c');
}

/// Byte `i` of a function leaf that is a ramp from `a`.
fn byte_of_function(rt: &impl Abort, store: &Store<Coded>, leaf: NodeId, i: u64) -> u8 {
    assert!(rt; store.has(Some(leaf)) && i < NodeSpace::len(store, leaf));
    match store.node(leaf) {
        NodeView::Fun => {
            assert!(rt; store.coded(leaf).is_same(&Coded::ramp(b'a')));
            store.fun_byte(leaf, i)
        }
        _ => panic!(rt; "a function"),
    }
}

#[test]
fn spans_lie_in_their_source(rt: HostRuntime) {
    let mut store: Store<Coded> = Store::new(rt.alloc());
    for s in 0..255 {
        assert_same(&rt, &store.add_source(3), &Ok(s));
    }
    assert_same(&rt, &store.add_source(3), &Err(NodeFault::TooManySources));
    for (s, a, n, rope) in [
        (0, 1, 2, Ok(Some(NodeId(0)))),
        (254, 0, 3, Ok(Some(NodeId(1)))),
        (0, 3, 0, Ok(None)),
        (0, 2, 2, Err(NodeFault::BadSpan)),
        (0, 4, 0, Err(NodeFault::BadSpan)),
        (0, u64::MAX, u64::MAX, Err(NodeFault::BadSpan)),
        (255, 0, 0, Err(NodeFault::BadSpan)),
    ] {
        let found = from_source(&mut store, s, a, n);
        assert_same_at(&rt, &found, &rope, &(s, a, n));
    }
    assert_same(&rt, &store.count(), &2);
}

#[test]
fn bytes_are_one_literal(rt: HostRuntime) {
    let mut store: Store<Coded> = Store::new(rt.alloc());
    assert_same(&rt, &literal(&rt, &mut store, b""), &None);
    assert_same(&rt, &literal(&rt, &mut store, b"ab"), &Some(NodeId(0)));
    let rope = literal(&rt, &mut store, b"cdefg");
    assert_same(&rt, &rope, &Some(NodeId(1)));
    assert_shape(&rt, &store, rope, NodeView::Lit { a: 2 }, 5, 0);
    let part = substr(&rt, &mut store, rope, 1, 3);
    assert_shape(&rt, &store, part, NodeView::Lit { a: 3 }, 3, 0);
    for (i, n, wanted) in [(5, 1, None), (2, 0, None), (0, 9, rope)] {
        assert_same_at(&rt, &substr(&rt, &mut store, rope, i, n), &wanted, &(i, n));
    }
}

#[test]
fn short_literals_become_one(rt: HostRuntime) {
    let mut store: Store<Coded> = Store::new(rt.alloc());
    let ab = literal(&rt, &mut store, b"ab");
    let cd = literal(&rt, &mut store, b"cd");
    let both = joined(&rt, &mut store, ab, cd);
    assert_shape(&rt, &store, both, NodeView::Lit { a: 4 }, 4, 0);
    assert_same(&rt, &store.pool_len(), &8);
    assert_same(&rt, &joined(&rt, &mut store, None, ab), &ab);
    assert_same(&rt, &joined(&rt, &mut store, ab, None), &ab);
}

#[test]
fn longer_literals_are_concatenated(rt: HostRuntime) {
    let mut store: Store<Coded> = Store::new(rt.alloc());
    let l = NodeId(0);
    let long = literal(&rt, &mut store, b"0123456789abcdef0123456789abcde");
    let x = literal(&rt, &mut store, b"x");
    let first = joined(&rt, &mut store, long, x);
    assert_shape(&rt, &store, first, NodeView::Cat { l, r: NodeId(1) }, 32, 1);
    assert_same(&rt, &(store.count(), store.pool_len()), &(3, 32));
    let cd = literal(&rt, &mut store, b"cd");
    let both = joined(&rt, &mut store, first, cd);
    assert_shape(&rt, &store, both, NodeView::Cat { l, r: NodeId(4) }, 34, 1);
    assert_shape(&rt, &store, Some(NodeId(4)), NodeView::Lit { a: 34 }, 3, 0);
}

#[test]
fn parts_of_a_part(rt: HostRuntime) {
    let mut store: Store<Coded> = Store::new(rt.alloc());
    let x = function(&rt, &mut store, Coded::fill(b'x'), 100);
    let part = substr(&rt, &mut store, x, 10, 50);
    let inner = substr(&rt, &mut store, part, 20, 100);
    let view = NodeView::Sub {
        b: NodeId(0),
        i: 30,
    };
    assert_shape(&rt, &store, inner, view, 30, 1);
}

#[test]
fn last_literals_grow_in_place(rt: HostRuntime) {
    let mut store: Store<Coded> = Store::new(rt.alloc());
    let a = append(&rt, &mut store, None, b"a");
    let ab = append(&rt, &mut store, a, b"b");
    assert_shape(&rt, &store, a, NodeView::Lit { a: 0 }, 1, 0);
    assert_shape(&rt, &store, ab, NodeView::Lit { a: 0 }, 2, 0);
    assert_same(&rt, &store.pool_len(), &2);
    assert_same(&rt, &append(&rt, &mut store, ab, b""), &ab);
    let other = literal(&rt, &mut store, b"x");
    let abc = append(&rt, &mut store, ab, b"c");
    assert_shape(&rt, &store, abc, NodeView::Lit { a: 4 }, 3, 0);
    assert_shape(&rt, &store, other, NodeView::Lit { a: 2 }, 1, 0);
    assert_same(&rt, &(store.count(), store.pool_len()), &(5, 7));
}

#[test]
fn plain_concatenation_makes_one_node(rt: HostRuntime) {
    let mut store: Store<Coded> = Store::new(rt.alloc());
    let [l, r] = [NodeId(0), NodeId(1)];
    assert_same(&rt, &literal(&rt, &mut store, b"ab"), &Some(l));
    assert_same(&rt, &literal(&rt, &mut store, b"cd"), &Some(r));
    let both = cat_plain(&rt, &mut store, l, r);
    assert_shape(&rt, &store, both, NodeView::Cat { l, r }, 4, 1);
    assert_same(&rt, &(store.count(), store.pool_len()), &(3, 4));
}

fn copied(rt: &(impl AllocGlobal + Abort), store: &Store<Coded>) -> Store<Coded> {
    assert!(rt; store.count() <= MOST_NODES && store.source_count() <= MOST_SOURCES);
    Store::copied(rt.alloc(), store).expect(rt, "memory")
}

/// A byte more behind `abc`, which is the literal at `a` then, with so many nodes and bytes in the store.
fn assert_grows<R: AllocGlobal + Abort>(
    rt: &R,
    store: &mut Store<Coded>,
    abc: Rope,
    a: u64,
    counts: (u32, u64),
) {
    let longer = append(rt, store, abc, b"d");
    assert_shape(rt, store, longer, NodeView::Lit { a }, 4, 0);
    assert_shape(rt, store, abc, NodeView::Lit { a: 0 }, 3, 0);
    assert_same(rt, &(store.count(), store.pool_len()), &counts);
}

// The bytes that a copy begins with stand in a block that takes no more, so its last literal does not grow in place:
// the byte that comes is a literal by itself, and then one with the three before it.
#[test]
fn a_copied_store_goes_on(rt: HostRuntime) {
    let mut store: Store<Coded> = Store::new(rt.alloc());
    let abc = literal(&rt, &mut store, b"abc");
    let mut copy = copied(&rt, &store);
    assert_grows(&rt, &mut store, abc, 0, (2, 4));
    assert_grows(&rt, &mut copy, abc, 4, (3, 8));
    assert!(rt; copy.pool_len() == 8);
    assert_same(&rt, &copy.pool(3), &b"dabcd".as_slice());
}
