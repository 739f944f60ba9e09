//! Sessions: what commands make, why they are refused, and what is then as before.

use super::fakes::{LONGEST, Unreadable};
use super::texts::{applied, counts, made, row_count, size, text, two_texts, written};
use super::{assert_same, assert_same_at};
use command_parts::Edit;
use edit_commands::{Command, EditFault, Session};
use lazy_file::MemSources;
use node_table::NodeFault;
use rope_node::{NodeId, NodeSpace, NodeView};
use session_checker::check;
use span_certificate::{Row, RowKind};
use std::alloc::AllocGlobal;
use std::process::Abort;

const TOO_LONG: EditFault = EditFault::Node(NodeFault::TooLong);

/// `a`, and then `b` behind it.
fn two_insertions<A: AllocGlobal + Abort>(rt: &A) -> Session {
    let mut session = two_texts(rt, b"a");
    let second = Command::Insert {
        r: 1,
        p: 1,
        bytes: b"b",
    };
    assert_same(rt, &applied(rt, &mut session, second), &Ok(2));
    session
}

#[test]
fn apply_succeeds(rt: HostRuntime) {
    let session = two_insertions(&rt);
    assert_same(&rt, &session.count(), &3);
    for (k, wanted) in [(0, b"".as_slice()), (1, b"a"), (2, b"ab")] {
        assert_same_at(&rt, &text(&rt, &session, k).as_slice(), &wanted, &k);
    }
    let roots = (session.root(0), session.root(2), session.root(3));
    assert_same(&rt, &roots, &(Some(None), Some(Some(NodeId(1))), None));
    let marks = (session.mark(0), session.mark(2), session.mark(3));
    assert_same(&rt, &marks, &(Some(false), Some(true), None));
    let put_behind = Edit::Insert {
        r: 1,
        p: 1,
        a: 1,
        n: 1,
    };
    assert_same(
        &rt,
        &(session.edit(2), session.edit(3)),
        &(Some(put_behind), None),
    );
    let leaf = Row {
        len: 1,
        kind: RowKind::Leaf,
    };
    assert_same(&rt, &session.rows(0), &Some([].as_slice()));
    assert_same(&rt, &session.rows(2), &Some([leaf, leaf].as_slice()));
    assert_same(&rt, &session.rows(3), &None);
    assert_same(&rt, &session.splices(2), &Some([].as_slice()));
    assert_same(&rt, &session.splices(3), &None);
}

#[test]
fn a_literal_that_is_extended_keeps_its_bytes(rt: HostRuntime) {
    let session = two_insertions(&rt);
    let space = session.space();
    assert!(&rt; space.count() == 2);
    let literal = NodeView::Lit { a: 0 };
    for (id, len) in [(0, 1), (1, 2)] {
        let node = NodeId(id);
        assert_same_at(&rt, &space.node(node), &literal, &id);
        assert_same_at(&rt, &space.len(Some(node)), &len, &id);
    }
    assert_same(&rt, &space.pool_len(), &2);
}

#[test]
fn refusals_come_in_order_and_change_nothing(rt: HostRuntime) {
    let long = [b'x'; 65_537];
    let mut session = two_texts(&rt, b"abc");
    let insert = |r, p, bytes| Command::Insert { r, p, bytes };
    let delete = |n| Command::Delete { r: 1, p: n, n };
    for (command, fault) in [
        (insert(5, 0, b"".as_slice()), EditFault::NoRevision),
        (Command::Open { s: 0 }, EditFault::NoSource),
        (insert(1, 4, b""), EditFault::Range),
        (insert(1, 4, b"x"), EditFault::Range),
        (insert(1, 0, b""), EditFault::EmptyText),
        (Command::Cut { r: 1, i: 1, n: 3 }, EditFault::Range),
        (delete(u64::MAX), EditFault::Range),
        (insert(1, 0, &long), TOO_LONG),
    ] {
        assert_same_at(
            &rt,
            &applied(&rt, &mut session, command),
            &Err(fault),
            &fault,
        );
        assert_same_at(&rt, &session.count(), &2, &fault);
        assert_same_at(&rt, &session.space().pool_len(), &3, &fault);
    }
    assert_same(&rt, &text(&rt, &session, 1).as_slice(), &b"abc".as_slice());
}

#[test]
fn texts_are_what_commands_give(rt: HostRuntime) {
    let mut session = two_texts(&rt, b"abc");
    let paste = |p, i, n| Command::Paste {
        r: 1,
        p,
        q: 1,
        i,
        n,
    };
    for (command, wanted) in [
        (Command::Delete { r: 1, p: 1, n: 0 }, b"abc".as_slice()),
        (paste(1, 0, 3), b"aabcbc"),
        (
            Command::Replace {
                r: 3,
                p: 1,
                m: 4,
                bytes: b"--",
            },
            b"a--c",
        ),
        (Command::Join { r: 1, q: 4 }, b"abca--c"),
        (Command::Cut { r: 5, i: 2, n: 3 }, b"ca-"),
        (
            Command::Fill {
                r: 6,
                p: 1,
                c: b'x',
                n: 3,
            },
            b"cxxxa-",
        ),
        (Command::Delete { r: 7, p: 1, n: 4 }, b"c-"),
        (Command::Back { r: 5 }, b"abca--c"),
        (Command::Balance { r: 7 }, b"cxxxa-"),
        (Command::New, b""),
    ] {
        let k = made(&rt, &mut session, command);
        assert_same_at(&rt, &text(&rt, &session, k).as_slice(), &wanted, &k);
    }
    assert_same(&rt, &session.root(9), &session.root(5));
    assert_same(&rt, &text(&rt, &session, 1).as_slice(), &b"abc".as_slice());
}

#[test]
fn fill_of_the_longest_text_is_taken(rt: HostRuntime) {
    let mut session = two_texts(&rt, b"abc");
    let fill = |n| Command::Fill {
        r: 0,
        p: 0,
        c: b'a',
        n,
    };
    assert_same(
        &rt,
        &applied(&rt, &mut session, fill(LONGEST + 1)),
        &Err(TOO_LONG),
    );
    assert_same(&rt, &made(&rt, &mut session, fill(LONGEST)), &2);
    assert_same(&rt, &size(&rt, &session, 2), &(LONGEST, 0));
}

/// `x` and thirty-nine revisions, each the one before it and that again.
fn doubled<A: AllocGlobal + Abort>(rt: &A) -> (Session, u32) {
    let mut session = two_texts(rt, b"x");
    let mut last = 1;
    for _ in 0..39 {
        last = made(rt, &mut session, Command::Join { r: last, q: last });
    }
    (session, last)
}

/// A walk over the text that is checked would take more than five hundred billion steps.
#[test]
fn doublings_need_few_rows(rt: HostRuntime) {
    let (session, last) = doubled(&rt);
    assert_same(&rt, &size(&rt, &session, last), &(1 << 39, 35));
    let rows = row_count(&session);
    assert!(&rt; rows <= 100, "{rows} rows");
    let image = written(&rt, &session);
    let mut none = MemSources::new(rt.alloc());
    let checked = check(&image, &mut none).expect(&rt, "the image is accepted");
    assert_same(&rt, &(checked.rows() as usize), &rows);
    let found = checked.fetch(&mut none, last, (1 << 39) - 1);
    assert_same(&rt, &found, &Ok((Some(b'x'), 36)));
}

#[test]
fn texts_of_too_many_pieces_are_not_balanced(rt: HostRuntime) {
    let (mut session, last) = doubled(&rt);
    let refused = applied(&rt, &mut session, Command::Balance { r: last });
    assert_same(&rt, &refused, &Err(EditFault::TooManyPieces));
    assert_same(&rt, &session.count(), &41);
    assert_same(
        &rt,
        &made(&rt, &mut session, Command::Balance { r: 20 }),
        &41,
    );
}

#[test]
fn source_that_no_read_succeeds_of_is_opened_cut_and_taken_back(rt: HostRuntime) {
    let mut session = Session::new(rt.alloc());
    assert_same(&rt, &session.add_source(LONGEST), &Ok(0));
    assert_same(&rt, &session.add_source(LONGEST + 1), &Err(TOO_LONG));
    let cut = Command::Cut {
        r: 0,
        i: 0,
        n: 1_000_000_000_000,
    };
    for command in [Command::Open { s: 0 }, cut, Command::Back { r: 0 }] {
        made(&rt, &mut session, command);
    }
    assert_same(&rt, &size(&rt, &session, 0), &(LONGEST, 0));
    assert_same(&rt, &size(&rt, &session, 1), &(1_000_000_000_000, 0));
    assert_same(&rt, &session.root(2), &session.root(0));
    let rows = row_count(&session);
    assert!(&rt; rows <= 3, "{rows} rows");
    let image = written(&rt, &session);
    let mut sources = Unreadable { is_read: false };
    assert_same(&rt, &counts(&image, &mut sources), &Ok((3, rows)));
    assert!(&rt; !sources.is_read);
}
