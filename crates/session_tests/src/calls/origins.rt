//! Where each byte of a text comes from. The runs are those of the commands, by hand.

use super::many::three_changes;
use super::texts::{made, two_texts, written};
use super::{assert_same, assert_same_at};
use byte_origins::{Brought, Origin, OriginRun, Origins, leaf_span, origin};
use edit_commands::{Change, Command, Session};
use lazy_file::{MemSources, Sources};
use rope_node::{LeafSpan, NodeId, NodeSpace};
use session_checker::{Checked, check};
use std::alloc::AllocGlobal;
use std::process::Abort;

/// A run's place and length, the revision that brought it, and its place there.
type Told = (u64, u64, u32, u64);

/// The longest runs of `count` bytes of text `k` from `start` on, which are few.
fn runs<A: AllocGlobal + Abort>(
    rt: &A,
    image: &Checked<'_>,
    k: u32,
    start: u64,
    count: u64,
) -> Vec<OriginRun> {
    assert!(rt; k < image.revisions());
    let mut left = Origins::of(rt.alloc(), image, k, start, count).expect(rt, "memory");
    let mut runs: Vec<OriginRun> = Vec::new(rt.alloc());
    for _ in 0..32 {
        let Some(run) = left.next().expect(rt, "memory") else {
            return runs;
        };
        runs.push(run).expect(rt, "memory");
    }
    panic!(rt; "there are more runs than were made")
}

/// Each byte of a run has its origin by itself.
fn assert_each<A: Abort>(rt: &A, image: &Checked<'_>, k: u32, place: u64, run: OriginRun) {
    for i in 0..run.len {
        let found = origin(image, k, place.saturating_add(i)).expect(rt, "an origin");
        let before = OriginRun {
            first: run.first,
            len: i,
        };
        assert!(rt; before.goes_on(&found), "{k} {place} {i}");
        assert!(rt;
            found.len >= 1 && found.len <= run.len - i,
            "{k} {place} {i}"
        );
    }
}

/// The longest runs of text `k` are these, and each byte of theirs has that origin; behind them there is none.
fn assert_runs<A: AllocGlobal + Abort, S: Sources>(
    rt: &A,
    session: &Session,
    sources: &mut S,
    k: u32,
    wanted: &[Told],
) {
    let bytes = written(rt, session);
    let image = check(&bytes, sources).expect(rt, "the image is accepted");
    let found = runs(rt, &image, k, 0, u64::MAX);
    assert_same_at(rt, &found.len(), &wanted.len(), &k);
    let mut place = 0u64;
    for (i, run) in found.iter().enumerate() {
        let line = (place, run.len, run.first.revision, run.first.place);
        assert_same_at(rt, &Some(&line), &wanted.get(i), &(k, i));
        assert_each(rt, &image, k, place, *run);
        place = place.saturating_add(run.len);
    }
    assert_same_at(rt, &origin(&image, k, place), &None, &k);
}

/// The longest runs of text `k` of a session without sources are these.
fn assert_runs_alone<A: AllocGlobal + Abort>(rt: &A, session: &Session, k: u32, wanted: &[Told]) {
    let mut none = MemSources::new(rt.alloc());
    assert_runs(rt, session, &mut none, k, wanted);
}

/// `the fox`, and `brown ` put in at place 4.
fn brown_fox<A: AllocGlobal + Abort>(rt: &A) -> Session {
    let mut session = two_texts(rt, b"the fox");
    let brown = Command::Insert {
        r: 1,
        p: 4,
        bytes: b"brown ",
    };
    assert_same(rt, &made(rt, &mut session, brown), &2);
    session
}

#[test]
fn bytes_put_in_between_split_a_run(rt: HostRuntime) {
    let session = brown_fox(&rt);
    assert_runs_alone(&rt, &session, 0, &[]);
    assert_runs_alone(&rt, &session, 1, &[(0, 7, 1, 0)]);
    assert_runs_alone(
        &rt,
        &session,
        2,
        &[(0, 4, 1, 0), (4, 6, 2, 4), (10, 3, 1, 4)],
    );
}

/// A run of the pool.
fn of_pool(revision: u32, place: u64, a: u64, len: u64) -> OriginRun {
    let brought = Brought::Pool { a };
    OriginRun {
        first: Origin {
            revision,
            place,
            brought,
        },
        len,
    }
}

#[test]
fn a_part_of_a_text_has_the_origins_of_that_part(rt: HostRuntime) {
    let bytes = written(&rt, &brown_fox(&rt));
    let mut none = MemSources::new(rt.alloc());
    let image = check(&bytes, &mut none).expect(&rt, "the image is accepted");
    let wanted = [of_pool(2, 5, 8, 5), of_pool(1, 4, 4, 1)];
    assert_same(
        &rt,
        &runs(&rt, &image, 2, 5, 6).as_slice(),
        &wanted.as_slice(),
    );
    for (start, count) in [(13, 1), (5, 0), (u64::MAX, u64::MAX)] {
        assert_same_at(&rt, &runs(&rt, &image, 2, start, count).len(), &0, &start);
    }
    assert_same(&rt, &origin(&image, 3, 0), &None);
}

#[test]
fn what_is_pasted_keeps_its_origin(rt: HostRuntime) {
    let mut session = two_texts(&rt, b"abc");
    let pasted = Command::Paste {
        r: 1,
        p: 1,
        q: 1,
        i: 0,
        n: 3,
    };
    assert_same(&rt, &made(&rt, &mut session, pasted), &2);
    assert_runs_alone(
        &rt,
        &session,
        2,
        &[(0, 1, 1, 0), (1, 3, 1, 0), (4, 2, 1, 1)],
    );
}

#[test]
fn the_same_byte_typed_again_has_an_origin_of_its_own(rt: HostRuntime) {
    let mut session = two_texts(&rt, b"abc");
    for (command, k) in [
        (Command::Delete { r: 1, p: 1, n: 1 }, 2),
        (
            Command::Insert {
                r: 2,
                p: 1,
                bytes: b"b",
            },
            3,
        ),
        (Command::Back { r: 1 }, 4),
    ] {
        assert_same(&rt, &made(&rt, &mut session, command), &k);
    }
    assert_runs_alone(
        &rt,
        &session,
        3,
        &[(0, 1, 1, 0), (1, 1, 3, 1), (2, 1, 1, 2)],
    );
    assert_runs_alone(&rt, &session, 4, &[(0, 3, 1, 0)]);
}

#[test]
fn each_change_of_a_command_is_a_run(rt: HostRuntime) {
    let session = three_changes(&rt);
    assert_runs_alone(
        &rt,
        &session,
        2,
        &[
            (0, 1, 1, 0),
            (1, 1, 2, 1),
            (2, 1, 1, 3),
            (3, 2, 2, 3),
            (5, 1, 1, 4),
        ],
    );
}

#[test]
fn a_source_and_a_fill_are_told_apart(rt: HostRuntime) {
    let mut sources = MemSources::new(rt.alloc());
    sources.add(b"abcde").expect(&rt, "a source");
    let mut session = Session::new(rt.alloc());
    session.add_source(5).expect(&rt, "a source");
    assert_same(&rt, &made(&rt, &mut session, Command::Open { s: 0 }), &0);
    let filled = Command::Fill {
        r: 0,
        p: 2,
        c: 45,
        n: 3,
    };
    assert_same(&rt, &made(&rt, &mut session, filled), &1);
    assert_runs(
        &rt,
        &session,
        &mut sources,
        1,
        &[(0, 2, 0, 0), (2, 3, 1, 2), (5, 3, 0, 2)],
    );
    let bytes = written(&rt, &session);
    let image = check(&bytes, &mut sources).expect(&rt, "the image is accepted");
    for (place, brought) in [
        (1, Brought::Source { s: 0, p: 1 }),
        (4, Brought::Fill { c: 45 }),
        (7, Brought::Source { s: 0, p: 4 }),
    ] {
        let found = origin(&image, 1, place).map(|run| run.first.brought);
        assert_same_at(&rt, &found, &Some(brought), &place);
    }
}

/// How many bytes the longer text has, of which each second one is changed.
const LONG: usize = 800;

/// Each second byte of a text gives way to another one, so that a run
/// is one byte long: more of them than are walked for so few revisions.
#[test]
fn many_runs_are_told_in_their_order(rt: HostRuntime) {
    let mut session = two_texts(&rt, &[b'a'; LONG]);
    let mut changes = [Change { p: 0, m: 1, n: 1 }; LONG / 2];
    let mut place = 0u64;
    for change in changes.iter_mut() {
        change.p = place;
        place = place.saturating_add(2);
    }
    let command = Command::Many {
        r: 1,
        changes: &changes,
        bytes: &[b'b'; LONG / 2],
    };
    assert_same(&rt, &made(&rt, &mut session, command), &2);
    assert_same(
        &rt,
        &made(&rt, &mut session, Command::Join { r: 2, q: 1 }),
        &3,
    );
    let bytes = written(&rt, &session);
    let mut none = MemSources::new(rt.alloc());
    let image = check(&bytes, &mut none).expect(&rt, "the image is accepted");
    assert!(&rt; 3 < image.revisions());
    let mut left = Origins::of(rt.alloc(), &image, 3, 0, u64::MAX).expect(&rt, "memory");
    for place in 0..LONG as u64 {
        let run = left.next().expect(&rt, "memory").expect(&rt, "a run");
        let revision = if place % 2 == 0 { 2 } else { 1 };
        assert_same_at(&rt, &run.len, &1, &place);
        assert_same_at(&rt, &run.first.revision, &revision, &place);
        assert_same_at(&rt, &run.first.place, &place, &place);
        assert_same_at(&rt, &origin(&image, 3, place), &Some(run), &place);
    }
    let run = left.next().expect(&rt, "memory").expect(&rt, "a run");
    assert_same(
        &rt,
        &(run.first.revision, run.first.place, run.len),
        &(1, 0, LONG as u64),
    );
    assert_same(&rt, &left.next().expect(&rt, "memory"), &None);
}

/// A node's bytes from a place on lie in one leaf up to the leaf's end.
#[test]
fn a_way_leads_down_to_a_leaf(rt: HostRuntime) {
    let mut session = two_texts(&rt, &[b'a'; 40]);
    assert_same(
        &rt,
        &made(&rt, &mut session, Command::Join { r: 1, q: 1 }),
        &2,
    );
    let bytes = written(&rt, &session);
    let mut none = MemSources::new(rt.alloc());
    let image = check(&bytes, &mut none).expect(&rt, "the image is accepted");
    let root = image.root(2).expect(&rt, "a root").expect(&rt, "a text");
    for (place, start, len) in [(0, 0, 40), (39, 39, 1), (40, 0, 40), (45, 5, 35)] {
        let leaf = NodeId(0);
        assert!(&rt; root.0 < image.count() && place < image.len(root));
        assert_same_at(
            &rt,
            &leaf_span(&image, root, place),
            &LeafSpan { leaf, start, len },
            &place,
        );
    }
}

/// Each place of these texts has this origin, or none, while the session is open.
fn assert_open<A: Abort>(rt: &A, session: &Session, wanted: &[(u32, u64, Option<OriginRun>)]) {
    for (k, place, run) in wanted {
        let found = session_origins::origin(session, *k, *place);
        assert_same_at(rt, &found, run, &(*k, *place));
    }
}

#[test]
fn an_open_session_tells_where_its_bytes_come_from(rt: HostRuntime) {
    assert_open(
        &rt,
        &brown_fox(&rt),
        &[
            (2, 0, Some(of_pool(1, 0, 0, 4))),
            (2, 5, Some(of_pool(2, 5, 8, 5))),
            (2, 12, Some(of_pool(1, 6, 6, 1))),
            (2, 13, None),
            (1, 2, Some(of_pool(1, 2, 2, 5))),
            (0, 0, None),
            (3, 0, None),
        ],
    );
}

/// `aXdYZe`, and then `XdYZ`: the splices of the last command are not the first ones.
#[test]
fn an_open_session_goes_back_over_many_changes(rt: HostRuntime) {
    let mut session = three_changes(&rt);
    let ends_cut = Command::Many {
        r: 2,
        changes: &[Change { p: 0, m: 1, n: 0 }, Change { p: 5, m: 1, n: 0 }],
        bytes: b"",
    };
    assert_same(&rt, &made(&rt, &mut session, ends_cut), &3);
    assert_open(
        &rt,
        &session,
        &[
            (2, 0, Some(of_pool(1, 0, 0, 1))),
            (2, 4, Some(of_pool(2, 4, 13, 1))),
            (2, 5, Some(of_pool(1, 4, 4, 1))),
            (3, 0, Some(of_pool(2, 1, 6, 1))),
            (3, 1, Some(of_pool(1, 3, 3, 1))),
            (3, 2, Some(of_pool(2, 3, 12, 2))),
            (3, 4, None),
        ],
    );
}
