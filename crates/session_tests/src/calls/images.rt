//! What an image gives of its bytes, and of those before its pool.

use super::records::{
    Records, compared, filled, image_of, joined, literal, one_insert, open, opened,
};
use super::{assert_same, assert_same_at};
use command_parts::Edit;
use function_leaf::Coded;
use image_reader::{FormatVersion, HEADER_SIZE, Image, Revision, judged_len, looks_bound};
use rope_node::{NodeId, NodeView};
use span_certificate::{Row, RowKind};
use std::alloc::AllocGlobal;
use std::process::Abort;

/// The image of a source of three bytes opened, with four more nodes and a pool.
fn five_nodes<A: AllocGlobal + Abort>(rt: &A) -> Vec<u8> {
    image_of(
        rt,
        &Records {
            version: 2,
            sources: &[[3]],
            nodes: &[
                opened(0, 3),
                literal(1, 2),
                filled(0x61, 5),
                joined(1, 2, 1, 7),
                joined(0, 3, 2, 10),
            ],
            revisions: &[open(0, 1, 0, 1)],
            splices: &[],
            rows: &[compared(3)],
            pool: b"abc",
        },
    )
}

/// The function of a node.
fn function<A: Abort>(rt: &A, image: &Image<'_>, id: NodeId) -> Coded {
    assert!(rt; id.0 < image.node_count());
    match image.node(id) {
        NodeView::Fun => image.coded(id),
        view => panic!(rt; "{view:?}"),
    }
}

#[test]
fn nodes_are_read_by_their_numbers(rt: HostRuntime) {
    let bytes = five_nodes(&rt);
    let image = Image::read(&bytes).expect(&rt, "an image");
    let (l, r) = (NodeId(0), NodeId(3));
    for (id, view, len, depth) in [
        (0, NodeView::Src { s: 0, a: 0 }, 3, 0),
        (1, NodeView::Lit { a: 1 }, 2, 0),
        (2, NodeView::Fun, 5, 0),
        (4, NodeView::Cat { l, r }, 10, 2),
    ] {
        let node = NodeId(id);
        assert!(&rt; id < image.node_count());
        let found = (image.node(node), image.len(node), image.depth(node));
        assert_same_at(&rt, &found, &(view, len, depth), &id);
    }
    assert_same(&rt, &function(&rt, &image, NodeId(2)), &Coded::fill(b'a'));
    assert!(&rt; image.node_count() == 5);
    let held = (image.function(NodeId(0)), image.function(NodeId(2)));
    assert_same(&rt, &held, &(None, Some(Coded::fill(b'a'))));
}

#[test]
fn image_gives_its_counts_and_records(rt: HostRuntime) {
    let bytes = five_nodes(&rt);
    let image = Image::read(&bytes).expect(&rt, "an image").same();
    assert!(&rt; image.source_count() == 1 && image.node_count() == 5);
    assert!(&rt; image.revision_count() == 1);
    assert!(&rt; image.row_count() == 1 && image.splice_count() == 0);
    let opened = Revision {
        edit: Edit::Open { s: 0 },
        mark: true,
        root: Some(NodeId(0)),
        rows: 1,
    };
    assert_same(&rt, &image.version(), &FormatVersion::Two);
    assert_same(&rt, &image.source_len(0), &3);
    assert_same(&rt, &image.revision(0, 0), &opened);
    assert_same(
        &rt,
        &(image.root(0), image.mark(0)),
        &(Some(NodeId(0)), true),
    );
    let row = Row {
        len: 3,
        kind: RowKind::Bytes,
    };
    assert_same(&rt, &image.row(0), &row);
    assert_same(&rt, &image.pool(), &b"abc".as_slice());
    assert_same(
        &rt,
        &Some(image.records()),
        &bytes.get(40..bytes.len().saturating_sub(3)),
    );
}

/// How many of the bytes are judged, by the header that they begin with.
fn judged<A: Abort>(rt: &A, bytes: &[u8]) -> u64 {
    let header = bytes.get(..HEADER_SIZE).expect(rt, "a header");
    assert!(rt; header.len() == HEADER_SIZE);
    judged_len(header)
}

#[test]
fn header_tells_how_many_bytes_are_judged(rt: HostRuntime) {
    let mut bytes = one_insert(&rt, 1);
    assert_same(&rt, &judged(&rt, &bytes), &212);
    let image = Image::read(&bytes).expect(&rt, "an image");
    assert_same(&rt, &looks_bound(&image), &137);
    assert!(&rt; bytes.len() > 11);
    bytes[11] = 3;
    assert_same(&rt, &judged(&rt, &bytes), &40);
}
