//! Comparison, search and a write of texts over several leaves.

use super::stores::{add_source, joined, literal, source_leaf};
use super::{assert_same, assert_same_at};
use cord_search::{FindFault, PutFault, chr, cmp, find, ncmp, put, rchr};
use function_leaf::Coded;
use lazy_file::{MemSources, SourceFault, Sources};
use rope_node::Rope;
use rope_store::Store;
use std::alloc::AllocGlobal;
use std::cmp::Ordering;
use std::io;
use std::process::Abort;

// What a call ensures is not needed to prove a test, so each stands in a function of its own that ensures nothing.

pub(super) fn find_in<T: Sources>(
    rt: &(impl AllocGlobal + Abort),
    store: &Store<Coded>,
    sources: &mut T,
    text: Rope,
    start: u64,
    pattern: &[u8],
) -> Result<Option<u64>, FindFault> {
    assert!(rt; store.has(text));
    find(rt.alloc(), store, sources, text, start, pattern)
}

/// The first place of a byte from `i` on, and the last one up to `i`.
pub(super) fn places_in<T: Sources>(
    rt: &(impl AllocGlobal + Abort),
    store: &Store<Coded>,
    sources: &mut T,
    text: Rope,
    i: u64,
    byte: u8,
) -> Result<(Option<u64>, Option<u64>), SourceFault> {
    assert!(rt; store.has(text));
    let first = chr(rt.alloc(), store, sources, text, i, byte)?;
    let last = rchr(rt.alloc(), store, sources, text, i, byte)?;
    Ok((first, last))
}

pub(super) fn cmp_texts<T: Sources>(
    rt: &(impl AllocGlobal + Abort),
    store: &Store<Coded>,
    sources: &mut T,
    texts: [Rope; 2],
) -> Result<Ordering, SourceFault> {
    let [x, y] = texts;
    assert!(rt; store.has(x) && store.has(y));
    cmp(rt.alloc(), store, sources, x, y)
}

/// At most `n` bytes from these places on.
pub(super) fn cmp_parts<T: Sources>(
    rt: &(impl AllocGlobal + Abort),
    store: &Store<Coded>,
    sources: &mut T,
    texts: [Rope; 2],
    places: (u64, u64),
    n: u64,
) -> Result<Ordering, SourceFault> {
    let [x, y] = texts;
    let (i, j) = places;
    assert!(rt; store.has(x) && store.has(y));
    ncmp(rt.alloc(), store, sources, x, i, y, j, n)
}

pub(super) fn put_to<T: Sources, W: io::Write>(
    rt: &(impl AllocGlobal + Abort),
    store: &Store<Coded>,
    sources: &mut T,
    text: Rope,
    out: &mut W,
) -> Result<(), PutFault> {
    assert!(rt; store.has(text));
    put(rt.alloc(), store, sources, text, out)
}

/// Texts that are each a source of its own, one behind the other.
pub(super) fn leaves<'a>(
    rt: &impl Abort,
    store: &mut Store<Coded>,
    sources: &mut MemSources<'a>,
    texts: &[&'a [u8]],
) -> Rope {
    let mut rope = None;
    for text in texts {
        let s = add_source(rt, store, text.len() as u64);
        assert_same(rt, &sources.add(text).map(u32::from), &Ok(s));
        let leaf = source_leaf(rt, store, s, 0, text.len() as u64);
        rope = joined(rt, store, rope, leaf);
    }
    rope
}

/// `abcde`, over three leaves.
fn three_leaves(rt: &impl Abort, store: &mut Store<Coded>, sources: &mut MemSources<'_>) -> Rope {
    leaves(rt, store, sources, &[b"ab", b"c", b"de"])
}

/// The first place of a pattern from `start` on, over leaves of these texts.
fn place_in(
    rt: &(impl AllocGlobal + Abort),
    texts: &[&[u8]],
    start: u64,
    pattern: &[u8],
) -> Option<u64> {
    let mut store: Store<Coded> = Store::new(rt.alloc());
    let mut sources = MemSources::new(rt.alloc());
    let text = leaves(rt, &mut store, &mut sources, texts);
    find_in(rt, &store, &mut sources, text, start, pattern).expect(rt, "a search")
}

#[test]
fn find_succeeds(rt: HostRuntime) {
    let three: [&[u8]; 3] = [b"ab", b"c", b"de"];
    let repeated: [&[u8]; 3] = [b"aab", b"aa", b"b"];
    let bytes: [&[u8]; 6] = [b"a", b"b", b"c", b"a", b"b", b"d"];
    for (texts, start, pattern, found) in [
        (three.as_slice(), 0, b"bcd".as_slice(), Some(1)),
        (&three, 2, b"bcd", None),
        (&three, 5, b"", Some(5)),
        (&three, 6, b"", None),
        (&three, 0, b"abcdef", None),
        (&three, u64::MAX, b"a", None),
        (&repeated, 0, b"baab", Some(2)),
        (&repeated, 1, b"aab", Some(3)),
        (&repeated, 4, b"aab", None),
        (&bytes, 0, b"abd", Some(3)),
    ] {
        let place = place_in(&rt, texts, start, pattern);
        assert_same_at(&rt, &place, &found, &(start, pattern));
    }
}

#[test]
fn patterns_have_a_limit(rt: HostRuntime) {
    let store: Store<Coded> = Store::new(rt.alloc());
    let mut sources = MemSources::new(rt.alloc());
    let pattern = [b'a'; 4097];
    for (pattern, answer) in [
        (pattern.as_slice(), Err(FindFault::PatternTooLong)),
        (&pattern[1..], Ok(None)),
    ] {
        let found = find_in(&rt, &store, &mut sources, None, 0, pattern);
        assert_same(&rt, &found, &answer);
    }
}

/// The order of parts of two texts, or of the whole texts where no part is given.
fn order_of(
    rt: &(impl AllocGlobal + Abort),
    texts: [&[u8]; 2],
    part: Option<(u64, u64, u64)>,
) -> Ordering {
    let mut store: Store<Coded> = Store::new(rt.alloc());
    let mut sources = MemSources::new(rt.alloc());
    let x = literal(rt, &mut store, texts[0]);
    let y = literal(rt, &mut store, texts[1]);
    let order = match part {
        Some((i, j, n)) => cmp_parts(rt, &store, &mut sources, [x, y], (i, j), n),
        None => cmp_texts(rt, &store, &mut sources, [x, y]),
    };
    order.expect(rt, "an order")
}

#[test]
fn texts_and_their_parts_are_compared(rt: HostRuntime) {
    for (x, y, part, want) in [
        (
            b"abc".as_slice(),
            b"xbd".as_slice(),
            Some((1, 1, 1)),
            Ordering::Equal,
        ),
        (b"abc", b"xbd", Some((1, 1, 2)), Ordering::Less),
        (b"abc", b"xbd", Some((0, 0, 3)), Ordering::Less),
        (b"abc", b"xbd", Some((2, 1, 1)), Ordering::Greater),
        (
            b"abc",
            b"xbd",
            Some((9, u64::MAX, u64::MAX)),
            Ordering::Equal,
        ),
        (b"ab", b"abc", None, Ordering::Less),
        (b"b", b"abc", None, Ordering::Greater),
        (b"\x7f", b"\x80", None, Ordering::Less),
        (b"", b"", None, Ordering::Equal),
    ] {
        assert_same_at(&rt, &order_of(&rt, [x, y], part), &want, &(x, part));
    }
}

#[test]
fn bytes_have_a_first_and_a_last_place(rt: HostRuntime) {
    let mut store: Store<Coded> = Store::new(rt.alloc());
    let mut sources = MemSources::new(rt.alloc());
    let text = literal(&rt, &mut store, b"abab");
    for (i, byte, first, last) in [
        (0, b'a', Some(0), Some(0)),
        (1, b'a', Some(2), Some(0)),
        (3, b'a', None, Some(2)),
        (9, b'a', None, Some(2)),
        (u64::MAX, b'a', None, Some(2)),
        (9, b'c', None, None),
    ] {
        let places = places_in(&rt, &store, &mut sources, text, i, byte);
        assert_same_at(&rt, &places, &Ok((first, last)), &i);
    }
}

/// Takes `room` bytes, one a write, and then fails or takes nothing.
#[derive(Drop)]
struct Sink {
    held: [u8; 8],
    count: usize,
    room: usize,
    fails: bool,
}

impl Sink {
    fn with_room(room: usize, fails: bool) -> Sink {
        Sink {
            held: [0; 8],
            count: 0,
            room,
            fails,
        }
    }

    fn taken(&self) -> &[u8] {
        self.held.get(..self.count).unwrap_or(&[])
    }
}

impl io::Write for Sink {
    fn write(&mut self, buf: &[u8]) -> io::Result<usize> {
        match (buf.first(), self.held.get_mut(self.count)) {
            (Some(byte), Some(place)) if self.count < self.room => {
                *place = *byte;
                self.count += 1;
                Ok(1)
            }
            _ if self.fails => Err(io::Error::from(io::ErrorKind::StorageFull)),
            _ => Ok(0),
        }
    }

    fn flush(&mut self) -> io::Result<()> {
        Ok(())
    }
}

#[test]
fn text_is_written_up_to_where_no_more_is_taken(rt: HostRuntime) {
    let mut store: Store<Coded> = Store::new(rt.alloc());
    let mut sources = MemSources::new(rt.alloc());
    let text = three_leaves(&rt, &mut store, &mut sources);
    for room in 0..5 {
        for fails in [true, false] {
            let mut sink = Sink::with_room(room, fails);
            let written = put_to(&rt, &store, &mut sources, text, &mut sink);
            assert_same_at(&rt, &written, &Err(PutFault::Write), &(room, fails));
            assert_same_at(&rt, &Some(sink.taken()), &b"abcde".get(..room), &room);
        }
    }
    let mut sink = Sink::with_room(5, true);
    let written = put_to(&rt, &store, &mut sources, text, &mut sink);
    assert_same(
        &rt,
        &(written, sink.taken()),
        &(Ok(()), b"abcde".as_slice()),
    );
    let mut bytes: Vec<u8> = Vec::new(rt.alloc());
    let written = put_to(&rt, &store, &mut sources, text, &mut bytes);
    assert_same(&rt, &written, &Ok(()));
    assert_same(&rt, &bytes.as_slice(), &b"abcde".as_slice());
}
