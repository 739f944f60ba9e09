//! All the places of a pattern in a file.

use crate::fakes::{Flaky, Full, Taker};
use crate::same::assert_same;
use crate::tools::texts_in;
use cord_tools::{Status, ToolFault, run_find_all};
use lazy_file::Sources;
use std::alloc::AllocGlobal;
use std::process::Abort;

/// Asserts what is written of the pattern's places in the sources, and how it ends.
fn assert_places<R: AllocGlobal + Abort, S: Sources>(
    rt: &R,
    sources: &mut S,
    start: u64,
    pattern: &[u8],
    lines: &[u8],
    ended: Result<Status, ToolFault>,
) {
    let mut writer = Taker::with_room(64, Full::Fails);
    let at = (start, pattern.len());
    let count = sources.count();
    assert!(rt; count >= 1);
    let found = run_find_all(rt.alloc(), sources, start, pattern, &mut writer);
    assert_same(rt, &found, &ended, &at);
    assert_same(rt, &writer.taken(), &lines, &at);
}

#[test]
fn each_place_is_behind_the_end_of_the_one_before(rt: HostRuntime) {
    for (text, start, pattern, lines) in [
        (
            b"aaaaa".as_slice(),
            0,
            b"aa".as_slice(),
            b"0\n2\n".as_slice(),
        ),
        (b"aaaaa", 1, b"aa", b"1\n3\n"),
        (b"aaaaa", 3, b"aa", b"3\n"),
        (b"abcabcabc", 0, b"abcabc", b"0\n"),
        (b"abcabcabc", 1, b"abc", b"3\n6\n"),
        (b"xxxxx", 0, b"x", b"0\n1\n2\n3\n4\n"),
        (b"\xff\x00\xff\x00", 0, b"\xff\x00", b"0\n2\n"),
        // An empty pattern stands at each place, and at the end.
        (b"ab", 0, b"", b"0\n1\n2\n"),
        (b"ab", 2, b"", b"2\n"),
        (b"", 0, b"", b"0\n"),
    ] {
        let mut sources = texts_in(&rt, &[text]);
        let ended = Ok(Status::Success);
        assert_places(&rt, &mut sources, start, pattern, lines, ended);
    }
}

#[test]
fn a_pattern_that_stands_nowhere_has_no_line(rt: HostRuntime) {
    for (text, start, pattern) in [
        (b"aaaaa".as_slice(), 4, b"aa".as_slice()),
        (b"aaaaa", 5, b"aa"),
        (b"aaaaa", 9, b"aa"),
        (b"aaaaa", u64::MAX, b"aa"),
        (b"aaaaa", 0, b"aaaaaa"),
        (b"aaaaa", 0, b"b"),
        (b"", 0, b"a"),
        (b"ab", 3, b""),
        (b"ab", u64::MAX, b""),
    ] {
        let mut sources = texts_in(&rt, &[text]);
        let ended = Ok(Status::Failure);
        assert_places(&rt, &mut sources, start, pattern, b"", ended);
    }
}

#[test]
fn a_long_pattern_is_refused(rt: HostRuntime) {
    let pattern = [b'a'; 4097];
    let mut sources = texts_in(&rt, &[&pattern]);
    let refused = Err(ToolFault::PatternTooLong);
    assert_places(&rt, &mut sources, 0, &pattern, b"", refused);
    let ended = Ok(Status::Success);
    assert_places(&rt, &mut sources, 1, &pattern[1..], b"1\n", ended);
}

/// A text in which `aa` stands at 7, at 65,535, where the first 65,536 bytes end, and at 70,000.
fn long_text() -> [u8; 70_010] {
    let mut text = [b'b'; 70_010];
    text[7] = b'a';
    text[8] = b'a';
    text[65_535] = b'a';
    text[65_536] = b'a';
    text[70_000] = b'a';
    text[70_001] = b'a';
    text
}

#[test]
fn places_are_found_in_all_of_a_long_text(rt: HostRuntime) {
    let text = long_text();
    let ended = Ok(Status::Success);
    let mut sources = texts_in(&rt, &[&text]);
    assert_places(&rt, &mut sources, 0, b"aa", b"7\n65535\n70000\n", ended);
    assert_places(&rt, &mut sources, 8, b"aa", b"65535\n70000\n", ended);
    assert_places(&rt, &mut sources, 65_536, b"aa", b"70000\n", ended);
}

#[test]
fn the_first_places_are_written_where_a_later_read_fails(rt: HostRuntime) {
    let text = long_text();
    let mut files = Flaky {
        texts: texts_in(&rt, &[&text]),
        broken: 0,
        left: 1,
        failed: 0,
    };
    let ended = Err(ToolFault::Read);
    assert_places(&rt, &mut files, 0, b"aa", b"7\n", ended);
}
