//! The rows of a revision by the plainest walk: down two sides, with both looked at anew at each step.

use command_parts::{Edit, Part, Splice};
use edit_commands::Session;
use function_leaf::Coded;
use rope_node::{NodeId, NodeSpace, NodeView, Rope};
use rope_store::Store;
use span_certificate::{BYTES_LIMIT, Row, RowKind};
use span_descent::{Description, describe_leaf};
use std::alloc::AllocGlobal;
use std::process::Abort;

/// More steps than any walk down two ropes takes.
const MOST_STEPS: u32 = 200;

/// More rows than any part here has.
const MOST_ROWS: u32 = 100_000;

/// Some bytes of a node.
#[derive(Clone, Copy)]
struct Span {
    node: NodeId,
    start: u64,
    len: u64,
}

impl Span {
    /// Its first `n` bytes.
    fn shortened(self, n: u64) -> Span {
        Span {
            node: self.node,
            start: self.start,
            len: n,
        }
    }
}

/// What a node is.
fn view<A: Abort>(rt: &A, store: &Store<Coded>, node: NodeId) -> NodeView {
    assert!(rt; store.has(Some(node)));
    store.node(node)
}

/// The length of a rope.
pub(crate) fn rope_len<A: Abort>(rt: &A, store: &Store<Coded>, rope: Rope) -> u64 {
    assert!(rt; store.has(rope));
    store.len(rope)
}

/// The sum of two numbers.
fn sum<A: Abort>(rt: &A, x: u64, y: u64) -> u64 {
    x.checked_add(y).expect(rt, "a place")
}

/// How much is left of a length behind a place.
fn left<A: Abort>(rt: &A, len: u64, place: u64) -> u64 {
    len.checked_sub(place).expect(rt, "a place inside")
}

/// Where the first bytes of a span lie in a child or a base of
/// its node: as many of them as lie in one. A leaf has none.
fn down<A: Abort>(rt: &A, store: &Store<Coded>, x: Span) -> Option<Span> {
    match view(rt, store, x.node) {
        NodeView::Cat { l, r } => {
            let middle = rope_len(rt, store, Some(l));
            if middle <= x.start {
                Some(Span {
                    node: r,
                    start: left(rt, x.start, middle),
                    len: x.len,
                })
            } else {
                Some(Span {
                    node: l,
                    start: x.start,
                    len: x.len.min(left(rt, middle, x.start)),
                })
            }
        }
        NodeView::Sub { b, i } => Some(Span {
            node: b,
            start: sum(rt, x.start, i),
            len: x.len,
        }),
        NodeView::Lit { .. } | NodeView::Src { .. } | NodeView::Fun => None,
    }
}

/// The leaf span that a span begins with, as far as it goes.
fn leaf_of<A: Abort>(rt: &A, store: &Store<Coded>, x: Span) -> Span {
    let mut at = x;
    for _ in 0..MOST_STEPS {
        match down(rt, store, at) {
            None => return at,
            Some(below) => at = below,
        }
    }
    panic!(rt; "no leaf")
}

/// What a leaf span is described by.
fn described<A: Abort>(rt: &A, store: &Store<Coded>, x: Span) -> Description {
    assert!(rt; store.has(Some(x.node)));
    // The store keeps its rules, as its count says.
    let _count = store.count();
    assert!(rt; x.start <= store.len(Some(x.node)));
    let description = describe_leaf(store, x.node, store.node(x.node), x.start);
    description.expect(rt, "a leaf")
}

/// The row for two leaf spans of these descriptions and one length.
fn described_row(d: Description, e: Description, len: u64) -> Row {
    if d.is_same(e) {
        Row {
            len,
            kind: RowKind::Leaf,
        }
    } else {
        Row {
            len: len.min(BYTES_LIMIT),
            kind: RowKind::Bytes,
        }
    }
}

/// The row for the first bytes of two spans: over the first node that both lead
/// to at one place, or over two leaf spans. Where neither side is a leaf, that of
/// the greater number goes down, and the first one where both are of one number.
fn next_old<A: Abort>(rt: &A, store: &Store<Coded>, x: Span, y: Span) -> Row {
    let (mut a, mut b) = (x, y);
    for _ in 0..MOST_STEPS {
        if a.node.0 == b.node.0 && a.start == b.start {
            return Row {
                len: a.len,
                kind: RowKind::Shared(a.node, a.start),
            };
        }
        match (down(rt, store, a), down(rt, store, b)) {
            (None, None) => {
                return described_row(described(rt, store, a), described(rt, store, b), a.len);
            }
            (Some(z), None) => {
                a = z;
                b = b.shortened(z.len);
            }
            (None, Some(w)) => {
                a = a.shortened(w.len);
                b = w;
            }
            (Some(z), Some(w)) => {
                if a.node.0 >= b.node.0 {
                    a = z;
                    b = b.shortened(z.len);
                } else {
                    a = a.shortened(w.len);
                    b = w;
                }
            }
        }
    }
    panic!(rt; "no row")
}

/// The row for the first bytes of a leaf span of this description and of another span.
fn next_leaf<A: Abort>(rt: &A, store: &Store<Coded>, d: Description, y: Span) -> Row {
    let z = leaf_of(rt, store, y);
    described_row(d, described(rt, store, z), z.len)
}

/// The row for what is left of a part from its place `off` on, over this span of the root.
fn next_row<A: Abort>(rt: &A, store: &Store<Coded>, part: Part, off: u64, y: Span) -> Row {
    match part {
        Part::Old { rope, i, .. } => {
            let x = Span {
                node: rope.expect(rt, "a node"),
                start: sum(rt, i, off),
                len: y.len,
            };
            next_old(rt, store, x, y)
        }
        Part::Pool { a, .. } => {
            let a = sum(rt, a, off);
            next_leaf(rt, store, Description::Pooled { a }, y)
        }
        Part::Source { s, .. } => next_leaf(rt, store, Description::Sourced { s, a: off }, y),
        Part::Fill { c, .. } => {
            let f = Coded::fill(c);
            next_leaf(rt, store, Description::Computed { f, i: 0 }, y)
        }
    }
}

/// The rows of a part that begins at this place of the root, behind others; the place where it ends.
fn put_rows<A: Abort>(
    rt: &A,
    store: &Store<Coded>,
    part: Part,
    root: NodeId,
    place: u64,
    rows: &mut Vec<Row>,
) -> u64 {
    let mut off = 0;
    for _ in 0..MOST_ROWS {
        if off == part.len() {
            return sum(rt, place, off);
        }
        let y = Span {
            node: root,
            start: sum(rt, place, off),
            len: left(rt, part.len(), off),
        };
        let row = next_row(rt, store, part, off, y);
        rows.push(row).expect(rt, "memory");
        off = sum(rt, off, row.len);
    }
    panic!(rt; "too many rows")
}

/// The root of a revision.
pub(crate) fn root<A: Abort>(rt: &A, session: &Session, r: u32) -> Rope {
    session.root(r).expect(rt, "a revision")
}

/// A part behind others, where it is not empty.
fn put<A: Abort>(rt: &A, parts: &mut Vec<Part>, part: Part) {
    if part.len() > 0 {
        parts.push(part).expect(rt, "memory");
    }
}

/// What stands of a rope from one place to another.
fn old<A: Abort>(rt: &A, rope: Rope, from: u64, to: u64) -> Part {
    Part::Old {
        rope,
        i: from,
        n: left(rt, to, from),
    }
}

/// A rope whose `m` bytes at place `p` give way to `middle`.
fn around<A: Abort>(
    rt: &A,
    store: &Store<Coded>,
    parts: &mut Vec<Part>,
    rope: Rope,
    (p, m): (u64, u64),
    middle: Part,
) {
    put(rt, parts, old(rt, rope, 0, p));
    put(rt, parts, middle);
    let len = rope_len(rt, store, rope);
    put(rt, parts, old(rt, rope, sum(rt, p, m), len));
}

/// A whole rope.
fn whole<A: Abort>(rt: &A, store: &Store<Coded>, parts: &mut Vec<Part>, rope: Rope) {
    put(rt, parts, old(rt, rope, 0, rope_len(rt, store, rope)));
}

/// A rope with splices.
fn cutting<A: Abort>(
    rt: &A,
    store: &Store<Coded>,
    parts: &mut Vec<Part>,
    rope: Rope,
    splices: &[Splice],
) {
    let mut from = 0;
    for splice in splices {
        put(rt, parts, old(rt, rope, from, splice.p));
        let (a, n) = (splice.a, splice.n);
        put(rt, parts, Part::Pool { a, n });
        from = sum(rt, splice.p, splice.m);
    }
    let len = rope_len(rt, store, rope);
    put(rt, parts, old(rt, rope, from, len));
}

/// The source `s` from its beginning to its end.
fn opened<A: Abort>(rt: &A, store: &Store<Coded>, s: u32) -> Part {
    assert!(rt; s < store.source_count());
    let n = store.source_len(s);
    Part::Source { s, n }
}

/// The parts of the command of revision `k`.
fn parts<A: AllocGlobal + Abort>(rt: &A, session: &Session, k: u32) -> Vec<Part> {
    let store = session.space();
    let mut parts: Vec<Part> = Vec::new(rt.alloc());
    let into = &mut parts;
    match session.edit(k).expect(rt, "a revision") {
        Edit::New => {}
        Edit::Open { s } => put(rt, into, opened(rt, store, s)),
        Edit::Insert { r, p, a, n } => {
            let middle = Part::Pool { a, n };
            around(rt, store, into, root(rt, session, r), (p, 0), middle);
        }
        Edit::Delete { r, p, n } => {
            let middle = Part::Pool { a: 0, n: 0 };
            around(rt, store, into, root(rt, session, r), (p, n), middle);
        }
        Edit::Replace { r, p, m, a, n } => {
            let middle = Part::Pool { a, n };
            around(rt, store, into, root(rt, session, r), (p, m), middle);
        }
        Edit::Paste { r, p, q, i, n } => {
            let middle = old(rt, root(rt, session, q), i, sum(rt, i, n));
            around(rt, store, into, root(rt, session, r), (p, 0), middle);
        }
        Edit::Join { r, q } => {
            whole(rt, store, into, root(rt, session, r));
            whole(rt, store, into, root(rt, session, q));
        }
        Edit::Cut { r, i, n } => put(rt, into, old(rt, root(rt, session, r), i, sum(rt, i, n))),
        Edit::Fill { r, p, c, n } => {
            let c = u8::try_from(c).expect(rt, "a byte");
            let middle = Part::Fill { c, n };
            around(rt, store, into, root(rt, session, r), (p, 0), middle);
        }
        Edit::Back { r } | Edit::Balance { r } => {
            whole(rt, store, into, root(rt, session, r));
        }
        Edit::Many { r, .. } => {
            let splices = session.splices(k).expect(rt, "a revision");
            cutting(rt, store, into, root(rt, session, r), splices);
        }
    }
    parts
}

/// The rows of revision `k`.
pub(crate) fn plain_rows<A: AllocGlobal + Abort>(rt: &A, session: &Session, k: u32) -> Vec<Row> {
    let store = session.space();
    let mut rows: Vec<Row> = Vec::new(rt.alloc());
    let mut place = 0;
    let parts = parts(rt, session, k);
    let rope = root(rt, session, k);
    for part in &parts {
        let node = rope.expect(rt, "a node");
        place = put_rows(rt, store, *part, node, place, &mut rows);
    }
    assert!(rt; place == rope_len(rt, store, rope));
    rows
}
