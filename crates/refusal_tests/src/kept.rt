//! What may be seen of a store or a session, in one number: where one of its bytes or numbers changes, so does that.

use cord_position::fetch;
use edit_commands::Session;
use function_leaf::Coded;
use image_reader::Revision;
use lazy_file::Sources;
use rope_node::{CodedSpace, NodeId, NodeSpace, NodeView, Rope};
use rope_store::Store;
use session_image::{Record, node_record, revision_record, row_record, splice_record};
use std::process::Abort;

/// How many bytes of a text are fetched from its start on. The last one is too.
const FETCHED: u64 = 24;

/// A number of the bytes that were put in, one behind the other.
#[derive(Clone, Copy, Debug, PartialEq, Eq)]
pub struct Digest(u64);

impl Digest {
    pub(crate) fn new() -> Digest {
        Digest(0x9e37_79b9_7f4a_7c15)
    }

    pub(crate) fn put(&mut self, number: u64) {
        self.0 = (self.0.rotate_left(5) ^ number).wrapping_mul(0x517c_c1b7_2722_0a95);
    }

    pub(crate) fn put_bytes(&mut self, bytes: &[u8]) {
        for byte in bytes {
            self.put(u64::from(*byte));
        }
    }

    fn put_record(&mut self, record: &Record) {
        self.put_bytes(record.as_slice());
    }
}

/// How many nodes and pool bytes of a store there were before a call.
#[derive(Clone, Copy, Debug, PartialEq, Eq)]
pub struct Reach {
    nodes: u32,
    pool: u64,
}

impl Reach {
    /// All of a store's.
    pub(crate) fn of(store: &Store<Coded>) -> Reach {
        Reach {
            nodes: store.count(),
            pool: store.pool_len(),
        }
    }
}

/// The function of a node, where it is one.
fn function_of<A: Abort>(rt: &A, store: &Store<Coded>, id: NodeId) -> Option<Coded> {
    assert!(rt; id.0 < store.count());
    match store.node(id) {
        NodeView::Fun => Some(store.coded(id)),
        _ => None,
    }
}

/// Puts in a node, its length and its depth.
fn put_node<A: Abort>(rt: &A, digest: &mut Digest, store: &Store<Coded>, id: NodeId) {
    let function = function_of(rt, store, id);
    assert!(rt; id.0 < store.count());
    let len = NodeSpace::len(store, id);
    let depth = NodeSpace::depth(store, id);
    digest.put_record(&node_record(store.node(id), len, depth, function));
}

/// The bytes of the pool from place `a` on, one or more of them.
fn pool_from<'a, A: Abort>(rt: &A, store: &'a Store<Coded>, a: u64) -> &'a [u8] {
    assert!(rt; a < store.pool_len());
    store.pool(a)
}

/// Puts in the first bytes of the pool.
fn put_pool<A: Abort>(rt: &A, digest: &mut Digest, store: &Store<Coded>, end: u64) {
    let mut done = 0u64;
    for _ in 0..u64::MAX {
        if done >= end {
            break;
        }
        let block = pool_from(rt, store, done);
        let count = (end.saturating_sub(done)).min(block.len() as u64);
        digest.put_bytes(block.get(..count as usize).unwrap_or(block));
        done = done.saturating_add(block.len() as u64);
    }
}

/// Puts in the lengths of a store's sources.
fn put_sources<A: Abort>(rt: &A, digest: &mut Digest, store: &Store<Coded>) {
    for s in 0..store.source_count() {
        assert!(rt; s < store.source_count());
        digest.put(store.source_len(s));
    }
}

/// The first nodes and pool bytes of a store, and its sources.
pub(crate) fn store_digest<A: Abort>(rt: &A, store: &Store<Coded>, reach: Reach) -> Digest {
    let mut digest = Digest::new();
    put_sources(rt, &mut digest, store);
    assert!(rt; reach.nodes <= store.count() && reach.pool <= store.pool_len());
    for k in 0..reach.nodes {
        put_node(rt, &mut digest, store, NodeId(k));
    }
    put_pool(rt, &mut digest, store, reach.pool);
    digest
}

/// The byte at a place of a rope.
pub(crate) fn byte_at<A: Abort, T: Sources>(
    rt: &A,
    store: &Store<Coded>,
    sources: &mut T,
    rope: Rope,
    i: u64,
) -> Option<u8> {
    assert!(rt; store.has(rope));
    let (byte, _) = fetch(store, sources, rope, i).expect(rt, "a byte");
    byte
}

/// A rope's length and depth.
pub(crate) fn size_of<A: Abort>(rt: &A, store: &Store<Coded>, rope: Rope) -> (u64, u8) {
    assert!(rt; store.has(rope));
    (store.len(rope), store.depth(rope))
}

/// Puts in a text's length, its first bytes and its last one, as they are fetched.
fn put_text<A: Abort, T: Sources>(
    rt: &A,
    digest: &mut Digest,
    store: &Store<Coded>,
    sources: &mut T,
    rope: Rope,
) {
    let (len, depth) = size_of(rt, store, rope);
    digest.put(len);
    digest.put(u64::from(depth));
    for i in 0..len.min(FETCHED) {
        digest.put(u64::from(byte_at(rt, store, sources, rope, i).unwrap_or(0)));
    }
    let last = byte_at(rt, store, sources, rope, len.saturating_sub(1));
    digest.put(u64::from(last.unwrap_or(0)));
}

/// Puts in a revision: its command with its splices, its mark, its root, its rows, and its text.
fn put_revision<A: Abort, T: Sources>(
    rt: &A,
    digest: &mut Digest,
    session: &Session,
    sources: &mut T,
    k: u32,
) {
    let rows = session.rows(k).expect(rt, "rows");
    let root = session.root(k).expect(rt, "a root");
    digest.put_record(&revision_record(Revision {
        edit: session.edit(k).expect(rt, "a command"),
        mark: session.mark(k).expect(rt, "a mark"),
        root,
        rows: u32::try_from(rows.len()).expect(rt, "a number"),
    }));
    for row in rows {
        digest.put_record(&row_record(*row));
    }
    for splice in session.splices(k).expect(rt, "splices") {
        digest.put_record(&splice_record(*splice));
    }
    put_text(rt, digest, session.space(), sources, root);
}

/// A session's revisions, and the first nodes and pool bytes of its store.
pub(crate) fn session_digest<A: Abort, T: Sources>(
    rt: &A,
    session: &Session,
    sources: &mut T,
    reach: Reach,
) -> Digest {
    let mut digest = store_digest(rt, session.space(), reach);
    digest.put(u64::from(session.count()));
    for k in 0..session.count() {
        put_revision(rt, &mut digest, session, sources, k);
    }
    digest
}
