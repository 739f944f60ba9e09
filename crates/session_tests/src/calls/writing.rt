//! The bytes of images that are written, and of images written anew.

use super::fakes::{LONGEST, Short};
use super::many::three_changes;
use super::records::{
    NIL, Records, compared, empty, filled, image_of, insert, leaf, literal, one_insert,
};
use super::texts::{made, restated, two_texts, written};
use super::{assert_same, assert_same_at};
use byte_output::WriteFault;
use command_parts::{Edit, Splice};
use edit_commands::{Command, Session};
use image_reader::{FormatVersion, Image, Revision};
use lazy_file::MemSources;
use rope_node::{NodeId, NodeSpace, NodeView};
use session_checker::check;
use session_image::{
    Counts, Record, header_record, node_record, restate, revision_record, row_record,
    source_record, splice_record, write,
};
use span_certificate::{Row, RowKind};
use std::alloc::AllocGlobal;
use std::process::Abort;

#[test]
fn two_insertions_take_346_bytes(rt: HostRuntime) {
    let mut session = two_texts(&rt, b"a");
    let second = Command::Insert {
        r: 1,
        p: 1,
        bytes: b"b",
    };
    made(&rt, &mut session, second);
    let wanted = Records {
        version: 2,
        sources: &[],
        nodes: &[literal(0, 1), literal(0, 2)],
        revisions: &[
            empty(),
            insert(0, 0, 0, 1, 1, 0, 1),
            insert(1, 1, 1, 1, 1, 1, 2),
        ],
        splices: &[],
        rows: &[leaf(1), leaf(1), leaf(1)],
        pool: b"ab",
    };
    let image = written(&rt, &session);
    assert_same(&rt, &image, &image_of(&rt, &wanted));
    assert_same(&rt, &image.len(), &346);
    let mut none = MemSources::new(rt.alloc());
    let checked = check(&image, &mut none).expect(&rt, "the image is accepted");
    let counts = (checked.revisions(), checked.count(), checked.rows());
    assert_same(&rt, &counts, &(3, 2, 3));
}

#[test]
fn empty_text_again_takes_267_bytes(rt: HostRuntime) {
    let mut session = two_texts(&rt, b"abc");
    made(&rt, &mut session, Command::Delete { r: 1, p: 0, n: 3 });
    let wanted = Records {
        version: 2,
        sources: &[],
        nodes: &[literal(0, 3)],
        revisions: &[
            empty(),
            insert(0, 0, 0, 3, 1, 0, 1),
            [4, 0, 0, NIL, 1, 0, 0, 0, 0, 3, 0, 0],
        ],
        splices: &[],
        rows: &[leaf(3)],
        pool: b"abc",
    };
    let image = written(&rt, &session);
    assert_same(&rt, &image, &image_of(&rt, &wanted));
    assert_same(&rt, &image.len(), &267);
}

#[test]
fn fill_of_the_longest_text_takes_208_bytes(rt: HostRuntime) {
    let mut session = Session::new(rt.alloc());
    made(&rt, &mut session, Command::New);
    let fill = Command::Fill {
        r: 0,
        p: 0,
        c: b'a',
        n: LONGEST,
    };
    made(&rt, &mut session, fill);
    let wanted = Records {
        version: 2,
        sources: &[],
        nodes: &[filled(0x61, LONGEST)],
        revisions: &[empty(), [9, 1, 0, 0, 0, 0, 0, 0, 0x61, LONGEST, 1, 0]],
        splices: &[],
        rows: &[leaf(LONGEST)],
        pool: &[],
    };
    let image = written(&rt, &session);
    assert_same(&rt, &image, &image_of(&rt, &wanted));
    assert_same(&rt, &image.len(), &208);
}

/// Its literals and its pool are those that the calls of the store leave, from left to right.
#[test]
fn three_changes_take_756_bytes(rt: HostRuntime) {
    let one = compared(1);
    let wanted = Records {
        version: 2,
        sources: &[],
        nodes: &[
            literal(0, 6),
            literal(0, 1),
            literal(6, 1),
            literal(7, 2),
            literal(3, 1),
            literal(9, 3),
            literal(9, 5),
            literal(4, 1),
            literal(14, 6),
        ],
        revisions: &[
            empty(),
            insert(0, 0, 0, 6, 1, 0, 1),
            [12, 1, 0, 8, 1, 3, 0, 0, 0, 0, 5, 0],
        ],
        splices: &[[1, 2, 6, 1], [4, 0, 12, 2], [5, 1, 0, 0]],
        rows: &[leaf(6), one, one, one, compared(2), one],
        pool: b"abcdefXaXaXdYZaXdYZe",
    };
    let image = written(&rt, &three_changes(&rt));
    assert_same(&rt, &image, &image_of(&rt, &wanted));
    assert_same(&rt, &image.len(), &756);
}

#[test]
fn image_of_version_1_is_written_anew_in_version_2(rt: HostRuntime) {
    let first = one_insert(&rt, 1);
    let second = one_insert(&rt, 2);
    assert_same(&rt, &(first.len(), second.len()), &(211, 211));
    assert_same(&rt, &restated(&rt, &first), &second);
    assert_same(&rt, &restated(&rt, &second), &second);
}

/// What a writer takes that has room for so many bytes, and then
/// fails or takes nothing, of a session or of an image written anew.
fn prefixes<A: AllocGlobal + Abort>(
    rt: &A,
    session: &Session,
    image: &Image<'_>,
    room: usize,
    fails: bool,
) -> (Vec<u8>, Vec<u8>) {
    let mut taken: Vec<u8> = Vec::new(rt.alloc());
    let mut anew: Vec<u8> = Vec::new(rt.alloc());
    let mut short = Short {
        taken: &mut taken,
        room,
        fails,
    };
    assert_same(rt, &write(session, &mut short), &Err(WriteFault));
    let mut short = Short {
        taken: &mut anew,
        room,
        fails,
    };
    assert_same(rt, &restate(image, &mut short), &Err(WriteFault));
    (taken, anew)
}

#[test]
fn prefix_is_written_where_no_more_is_taken(rt: HostRuntime) {
    let session = two_texts(&rt, b"abc");
    let first = one_insert(&rt, 1);
    let image = Image::read(&first).expect(&rt, "an image");
    let wanted = one_insert(&rt, 2);
    for room in 0..wanted.len() {
        for fails in [true, false] {
            let (taken, anew) = prefixes(&rt, &session, &image, room, fails);
            assert_same_at(&rt, &Some(taken.as_slice()), &wanted.get(..room), &room);
            assert_same_at(&rt, &anew, &taken, &room);
        }
    }
}

fn assert_record(rt: &impl Abort, record: Record, wanted: &[u8]) {
    assert_same(rt, &record.as_slice(), &wanted);
}

/// The records of an insertion of `abc` into an empty text, in version 2, and of a source and a splice.
#[test]
fn records_are_their_fields_one_behind_the_other(rt: HostRuntime) {
    let counts = Counts {
        version: FormatVersion::Two,
        sources: 0,
        nodes: 1,
        revisions: 2,
        splices: 0,
        rows: 1,
        pool: 3,
    };
    let header =
        b"CORDSESS\0\0\0\x02\0\0\0\0\0\0\0\x01\0\0\0\x02\0\0\0\x01\0\0\0\0\0\0\0\0\0\0\0\x03";
    assert_record(&rt, header_record(counts), header);
    assert_record(&rt, source_record(5), b"\0\0\0\0\0\0\0\x05");
    let node = b"\x01\0\0\0\0\0\0\0\0\0\0\0\0\0\0\x03\0\0\0\0\0\0\0\0\0\0\0\0\0\0\0\0";
    assert_record(&rt, node_record(NodeView::Lit { a: 0 }, 3, 0, None), node);
    let revision = Revision {
        edit: Edit::Insert {
            r: 0,
            p: 0,
            a: 0,
            n: 3,
        },
        mark: true,
        root: Some(NodeId(0)),
        rows: 1,
    };
    let inserted = b"\x03\x01\0\0\0\0\0\0\0\0\0\0\0\0\0\0\0\0\0\0\0\0\0\0\0\0\0\0\0\0\0\0\
        \0\0\0\0\0\0\0\0\0\0\0\0\0\0\0\x03\0\0\0\x01\0\0\0\0";
    assert_record(&rt, revision_record(revision), inserted);
    let splice = Splice {
        p: 4,
        m: 0,
        a: 12,
        n: 2,
    };
    let spliced = b"\0\0\0\0\0\0\0\x04\0\0\0\0\0\0\0\0\0\0\0\0\0\0\0\x0c\0\0\0\0\0\0\0\x02";
    assert_record(&rt, splice_record(splice), spliced);
    let row = Row {
        len: 3,
        kind: RowKind::Leaf,
    };
    let covered = b"\x02\0\0\0\0\0\0\0\0\0\0\0\0\0\0\x03\0\0\0\0\0\0\0\0";
    assert_record(&rt, row_record(row), covered);
}
