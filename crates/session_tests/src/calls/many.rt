//! Many replacements in one command.

use super::texts::{applied, counts_alone, made, text, two_texts, written};
use super::{assert_same, assert_same_at};
use command_parts::{Edit, Splice};
use edit_commands::{Change, Command, EditFault, Session};
use image_reader::{FormatVersion, Image};
use std::alloc::AllocGlobal;
use std::process::Abort;

fn change(p: u64, m: u64, n: u64) -> Change {
    Change { p, m, n }
}

/// `abcdef`, of which `bc` becomes `X`, `YZ` comes before the `e`, and the `f` goes.
pub(crate) fn three_changes<A: AllocGlobal + Abort>(rt: &A) -> Session {
    let mut session = two_texts(rt, b"abcdef");
    let command = Command::Many {
        r: 1,
        changes: &[change(1, 2, 1), change(4, 0, 2), change(5, 1, 0)],
        bytes: b"XYZ",
    };
    assert_same(rt, &made(rt, &mut session, command), &2);
    session
}

/// The splices of that.
const SPLICES: &[Splice] = &[
    Splice {
        p: 1,
        m: 2,
        a: 6,
        n: 1,
    },
    Splice {
        p: 4,
        m: 0,
        a: 12,
        n: 2,
    },
    Splice {
        p: 5,
        m: 1,
        a: 0,
        n: 0,
    },
];

#[test]
fn places_are_those_of_the_old_text(rt: HostRuntime) {
    let session = three_changes(&rt);
    assert_same(
        &rt,
        &text(&rt, &session, 2).as_slice(),
        &b"aXdYZe".as_slice(),
    );
    assert_same(
        &rt,
        &text(&rt, &session, 1).as_slice(),
        &b"abcdef".as_slice(),
    );
    assert_same(&rt, &session.splices(2), &Some(SPLICES));
    assert_same(&rt, &session.splices(1), &Some([].as_slice()));
    let edit = Edit::Many {
        r: 1,
        first: 0,
        count: 3,
    };
    assert_same(&rt, &session.edit(2), &Some(edit));
    assert_same(&rt, &edit.splice_count(), &3);
}

#[test]
fn splices_are_read_by_their_places(rt: HostRuntime) {
    let mut session = three_changes(&rt);
    let last = Command::Many {
        r: 2,
        changes: &[change(0, 6, 1)],
        bytes: b"-",
    };
    assert_same(&rt, &made(&rt, &mut session, last), &3);
    assert_same(&rt, &text(&rt, &session, 3).as_slice(), &b"-".as_slice());
    let bytes = written(&rt, &session);
    assert_same(&rt, &counts_alone(&rt, &bytes), &Ok((4, 7)));
    let image = Image::read(&bytes).expect(&rt, "an image");
    assert_same(&rt, &image.version(), &FormatVersion::Two);
    assert!(&rt; image.splice_count() == 4);
    for (j, wanted) in (0u32..).zip(SPLICES.iter()) {
        assert!(&rt; j < 4);
        assert_same_at(&rt, &image.splice(j), wanted, &j);
    }
    let edit = Edit::Many {
        r: 2,
        first: 3,
        count: 1,
    };
    assert_same(&rt, &session.edit(3), &Some(edit));
}

#[test]
fn changes_are_refused_in_order(rt: HostRuntime) {
    let mut session = two_texts(&rt, b"abcdef");
    let many = |r, changes, bytes| Command::Many { r, changes, bytes };
    let over = [change(0, 1, 0); 4097];
    let overlapping = [change(1, 2, 1), change(2, 1, 1)];
    let at_one_place = [change(1, 0, 1), change(1, 0, 1)];
    for (command, fault) in [
        (
            many(2, [].as_slice(), b"".as_slice()),
            EditFault::NoRevision,
        ),
        (many(1, &[], b""), EditFault::SpliceCount),
        (many(1, &over, b""), EditFault::SpliceCount),
        (many(1, &[change(2, 0, 0)], b""), EditFault::EmptyText),
        (many(1, &[change(6, 1, 0)], b""), EditFault::Range),
        (many(1, &overlapping, b"XY"), EditFault::Range),
        (many(1, &at_one_place, b"XY"), EditFault::Range),
    ] {
        assert_same_at(
            &rt,
            &applied(&rt, &mut session, command),
            &Err(fault),
            &fault,
        );
        assert_same_at(&rt, &session.count(), &2, &fault);
    }
}
