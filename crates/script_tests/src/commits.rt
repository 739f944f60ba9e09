//! Files committed to images. The logs are worked by hand from what each command means.

use super::logs::{logged, sources_of};
use super::tools::{ONE_INSERT, assert_same};
use commit_tools::{Commit, run_commit, run_commit_anew};
use line_changes::changes;
use script_tools::LogTexts;
use std::alloc::AllocGlobal;
use std::process::Abort;
use work_progress::Untold;

/// The log of a file of one line, committed, and then of two.
const TWO_STATES: &[u8] = b"new # 0: 0 bytes, depth 0, 0 rows
many 0 0 0 \"one\\n\" # 1: 4 bytes, depth 0, balanced, 1 rows
many 1 4 0 \"two\\n\" # 2: 8 bytes, depth 0, balanced, 2 rows
";

/// What a file makes of an image, and what is written.
fn committed<A: AllocGlobal + Abort>(rt: &A, image: &[u8], file: &[u8]) -> (Commit, Vec<u8>) {
    let older = image.to_vec(rt.alloc()).expect(rt, "room");
    let mut newer: Vec<u8> = Vec::new(rt.alloc());
    let commit = run_commit(
        rt.alloc(),
        older,
        &mut sources_of(rt, &[]),
        None,
        file,
        &mut newer,
        &mut Untold,
    );
    (commit.expect(rt, "a commit"), newer)
}

#[test]
fn states_of_a_file(rt: HostRuntime) {
    let mut first: Vec<u8> = Vec::new(rt.alloc());
    let begun = run_commit_anew(rt.alloc(), b"one\n", &mut first);
    assert_same(&rt, &begun, &Ok(Commit::Added(1)));
    let (commit, second) = committed(&rt, &first, b"one\ntwo\n");
    assert_same(&rt, &commit, &Commit::Added(2));
    let log = logged(&rt, &second, &[], LogTexts::Whole);
    assert_same(&rt, &log.as_slice(), &TWO_STATES);
}

#[test]
fn the_same_text_writes_nothing(rt: HostRuntime) {
    let (commit, written) = committed(&rt, ONE_INSERT, b"abc");
    assert_same(&rt, &(commit, written.len()), &(Commit::Same(1), 0));
}

/// The bytes of a revision and of its row.
const ONE_REVISION: usize = 80;

/// The states of a file behind its first two, `one` and `two`, the revision of each, and the line of the log with which it
/// comes back.
const STATES_THAT_COME_BACK: [(&[u8], u32, &[u8]); 5] = [
    (
        b"one\n",
        3,
        b"\nback 1 # 3: 4 bytes, depth 0, balanced, 1 rows\n",
    ),
    (
        b"two\n",
        4,
        b"\nback 2 # 4: 4 bytes, depth 0, balanced, 1 rows\n",
    ),
    (
        b"one\n",
        5,
        b"\nback 3 # 5: 4 bytes, depth 0, balanced, 1 rows\n",
    ),
    (b"", 6, b"\nback 0 # 6: 0 bytes, depth 0, 0 rows\n"),
    (
        b"two\n",
        7,
        b"\nback 4 # 7: 4 bytes, depth 0, balanced, 1 rows\n",
    ),
];

#[test]
fn states_that_come_back(rt: HostRuntime) {
    let mut first: Vec<u8> = Vec::new(rt.alloc());
    let begun = run_commit_anew(rt.alloc(), b"one\n", &mut first);
    assert_same(&rt, &begun, &Ok(Commit::Added(1)));
    let (_, mut image) = committed(&rt, &first, b"two\n");
    for (file, revision, line) in STATES_THAT_COME_BACK {
        let (commit, newer) = committed(&rt, &image, file);
        assert_same(&rt, &commit, &Commit::Added(revision));
        let grown = newer.len().saturating_sub(image.len());
        assert!(rt; grown <= ONE_REVISION, "{revision}: {grown} bytes more");
        let log = logged(&rt, &newer, &[], LogTexts::Whole);
        assert!(rt; log.ends_with(line), "{revision}");
        image = newer;
    }
}

/// The first text with the changes that turn it into the second.
fn changed<A: AllocGlobal + Abort>(rt: &A, old: &[u8], new: &[u8]) -> Vec<u8> {
    let mut made: Vec<u8> = Vec::new(rt.alloc());
    let mut place = 0;
    let found = changes(rt.alloc(), old, new).expect(rt, "room");
    for change in &found {
        let kept = old.get(place..change.from).expect(rt, "in order");
        made.extend_from_slice(kept).expect(rt, "room");
        let put = new
            .get(change.put_from..change.put_to)
            .expect(rt, "bytes of the second");
        made.extend_from_slice(put).expect(rt, "room");
        place = change.to;
    }
    let kept = old.get(place..).expect(rt, "the rest");
    made.extend_from_slice(kept).expect(rt, "room");
    made
}

#[test]
fn changes_give_the_second_text(rt: HostRuntime) {
    for (old, new) in [
        (b"a\nb\nc\n".as_slice(), b"a\nx\nc\n".as_slice()),
        (b"", b"a\n"),
        (b"a\n", b""),
        (b"a\nb\nc\nd\n", b"d\nb\na\n"),
        (b"one line", b"another line"),
    ] {
        assert_same(&rt, &changed(&rt, old, new).as_slice(), &new);
    }
}
