//! Calls whose looks at nodes are counted.

ghost use Rattle.span_descent.specs.Counts.{BeginsCount};

use super::records::{inserted, leaf};
use super::texts::made;
use super::{assert_same, assert_same_at};
use command_parts::{Edit, Splice};
use edit_commands::{Command, Session};
use function_leaf::Coded;
use image_reader::{Image, NodeRecord, Records, Revisions};
use lazy_file::MemSources;
use rope_node::{NodeId, NodeView};
use session_checker::{CheckFault, check_tables, revisions_counted, tables_counted};
use span_certificate::{Looks, Row, RowKind, Verdict, verify_counted};
use span_descent::Count;
use std::alloc::AllocGlobal;
use std::marker::Brand;
use std::process::Abort;
use std::sync::ledger::{Blank, Ledger};

/// What the counted calls answer of an image of one insertion of `abc` without sources.
fn checked<A: AllocGlobal + Abort, L: Ledger>(
    rt: &A,
    bytes: &[u8],
    blank: Blank,
) -> Result<(), CheckFault>
    requires { BeginsCount L.name L.parts blank.name blank.parts }
{
    let image = Image::read(bytes).expect(rt, "an image");
    let mut none = MemSources::new(rt.alloc());
    let mut count = Count::<L>::new(blank);
    let mut records = Records::over(&image, &mut count);
    assert!(rt; records.node_count() == 1);
    let wanted = NodeRecord {
        view: NodeView::Lit { a: 0 },
        len: 3,
        depth: 0,
        function: None,
    };
    assert_same(rt, &records.node(NodeId(0)), &wanted);
    tables_counted(&mut records, &none)?;
    let tables = check_tables(&image, &none)?;
    let mut looks = Looks::over(&tables, &mut count);
    revisions_counted(&mut looks, &Revisions::over(tables.image()), &mut none)
}

#[test]
fn counted_calls_accept_and_refuse(rt: HostRuntime) {
    for (rows, answer) in [
        ([leaf(3)].as_slice(), Ok(())),
        (&[leaf(2)], Err(CheckFault::Rows(1, 1))),
    ] {
        let image = inserted(&rt, 2, b"abc", rows);
        let found = checked::<_, Brand>(&rt, &image, Blank::new(1));
        assert_same_at(&rt, &found, &answer, &rows);
    }
}

const NO_SPLICES: &[Splice] = &[];

/// What the rows of the whole of revision 1 of a session are found to be, of a text of one function.
fn looked_at<A: AllocGlobal + Abort, L: Ledger>(
    rt: &A,
    session: &Session,
    rows: &[Row],
    blank: Blank,
) -> Verdict
    requires { BeginsCount L.name L.parts blank.name blank.parts }
{
    let store = session.space();
    let rope = session.root(1).expect(rt, "a revision");
    let mut count = Count::<L>::new(blank);
    let mut looks = Looks::over(store, &mut count);
    let node = rope.expect(rt, "a node");
    assert!(rt; node.0 < looks.node_count());
    match looks.node(node) {
        NodeView::Fun => {
            assert_same(rt, &looks.coded(node), &Coded::fill(b'a'));
            assert_same(rt, &looks.fun_byte(node, 7), &b'a');
        }
        view => panic!(rt; "{view:?}"),
    }
    let n = looks.rope_len(rope);
    let roots = [rope];
    let parts = looks.parts(&&roots[..], &NO_SPLICES, &Edit::Cut { r: 0, i: 0, n });
    let mut none = MemSources::new(rt.alloc());
    verify_counted(&mut looks, &mut none, parts, rope, &rows).expect(rt, "no fault")
}

#[test]
fn rows_are_verified_by_looks(rt: HostRuntime) {
    let mut session = Session::new(rt.alloc());
    made(&rt, &mut session, Command::New);
    let fill = Command::Fill {
        r: 0,
        p: 0,
        c: b'a',
        n: 9,
    };
    made(&rt, &mut session, fill);
    let row = |len, kind| Row { len, kind };
    let shared = |o| RowKind::Shared(NodeId(0), o);
    for (rows, wanted) in [
        ([row(9, shared(0))].as_slice(), Verdict::Good),
        (&[row(9, RowKind::Leaf)], Verdict::Good),
        (&[row(4, RowKind::Bytes), row(5, shared(4))], Verdict::Good),
        (
            &[row(4, RowKind::Bytes), row(5, shared(5))],
            Verdict::Bad(1),
        ),
        (&[row(8, RowKind::Leaf)], Verdict::Bad(1)),
        (&[row(10, RowKind::Bytes)], Verdict::Bad(0)),
        (&[], Verdict::Bad(0)),
    ] {
        let found = looked_at::<_, Brand>(&rt, &session, rows, Blank::new(1));
        assert_same_at(&rt, &found, &wanted, &rows);
    }
}
