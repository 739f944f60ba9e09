//! Searches of the longest texts: their leaves repeat, and no search goes through them byte by byte.

use super::assert_same_at;
use super::searches::{find_in, places_in};
use super::stores::{function, joined, literal};
use function_leaf::Coded;
use lazy_file::MemSources;
use rope_node::Rope;
use rope_store::Store;
use std::alloc::AllocGlobal;
use std::process::Abort;

/// The most bytes in a text.
const LONGEST: u64 = (1 << 40) - 1;

/// The longest text of a function.
fn longest(rt: &(impl AllocGlobal + Abort), f: Coded) -> (Store<Coded>, Rope) {
    let mut store: Store<Coded> = Store::new(rt.alloc());
    let text = function(rt, &mut store, f, LONGEST);
    (store, text)
}

fn cycle(rt: &impl Abort) -> Coded {
    Coded::cycle(b"abc").expect(rt, "a cycle")
}

#[test]
fn patterns_of_leaves_that_repeat(rt: HostRuntime) {
    let mut none = MemSources::new(rt.alloc());
    for (f, start, pattern, found) in [
        (Coded::fill(b'a'), 0, b"aa", Some(0)),
        (
            Coded::fill(b'a'),
            1_099_511_627_773,
            b"aa",
            Some(1_099_511_627_773),
        ),
        (Coded::fill(b'a'), 1_099_511_627_774, b"aa", None),
        (Coded::fill(b'a'), u64::MAX, b"aa", None),
        (Coded::fill(b'a'), 0, b"ba", None),
        (Coded::ramp(b'a'), 0, b"ba", None),
        (cycle(&rt), 0, b"ba", None),
    ] {
        let (store, text) = longest(&rt, f);
        let answer = find_in(&rt, &store, &mut none, text, start, pattern);
        assert_same_at(&rt, &answer, &Ok(found), &(start, pattern));
    }
    for (f, i) in [
        (Coded::fill(b'a'), 0),
        (cycle(&rt), 0),
        (Coded::fill(b'a'), LONGEST),
        (cycle(&rt), LONGEST),
    ] {
        let (store, text) = longest(&rt, f);
        let places = places_in(&rt, &store, &mut none, text, i, b'x');
        assert_same_at(&rt, &places, &Ok((None, None)), &i);
    }
}

/// `xy`, then as many `a` as there can be, then `bc`.
fn longest_between(rt: &impl Abort, store: &mut Store<Coded>) -> Rope {
    let front = literal(rt, store, b"xy");
    let most = function(rt, store, Coded::fill(b'a'), LONGEST - 4);
    let back = literal(rt, store, b"bc");
    let text = joined(rt, store, front, most);
    joined(rt, store, text, back)
}

#[test]
fn joints_of_a_leaf_that_repeats(rt: HostRuntime) {
    let mut store: Store<Coded> = Store::new(rt.alloc());
    let mut none = MemSources::new(rt.alloc());
    let text = longest_between(&rt, &mut store);
    for (pattern, found) in [
        (b"ya".as_slice(), Some(1)),
        (b"yaa", Some(1)),
        (b"aabc", Some(LONGEST - 4)),
        (b"abc", Some(LONGEST - 3)),
        (b"bc", Some(LONGEST - 2)),
        (b"ac", None),
    ] {
        let answer = find_in(&rt, &store, &mut none, text, 0, pattern);
        assert_same_at(&rt, &answer, &Ok(found), &pattern);
    }
    for (i, byte, first, last) in [
        (2, b'b', Some(LONGEST - 2), None),
        (LONGEST - 3, b'y', None, Some(1)),
    ] {
        let places = places_in(&rt, &store, &mut none, text, i, byte);
        assert_same_at(&rt, &places, &Ok((first, last)), &i);
    }
}
