//! Texts of 30,000 bytes in leaves of many sizes, searched and compared beside plain loops.

use super::patterns::plain_find;
use super::searches::{cmp_parts, cmp_texts, find_in, places_in, put_to};
use super::stores::{add_source, joined, literal, source_leaf};
use super::{assert_same, assert_same_at};
use function_leaf::Coded;
use lazy_file::MemSources;
use rope_node::Rope;
use rope_store::Store;
use std::alloc::AllocGlobal;
use std::cmp::Ordering;
use std::process::Abort;

const LENGTH: u64 = 30_000;

/// The next of some numbers without a pattern that matters, below `end`.
pub(super) fn below(seed: &mut u64, end: u64) -> u64 {
    *seed = seed
        .wrapping_mul(6_364_136_223_846_793_005)
        .wrapping_add(1_442_695_040_888_963_407);
    (*seed >> 33) % end.max(1)
}

/// Letters a and b, with a few z among them.
fn letters(rt: &(impl AllocGlobal + Abort), seed: &mut u64) -> Vec<u8> {
    let mut bytes = Vec::new(rt.alloc());
    for k in 0..LENGTH {
        let byte = if k == 29_990 || below(seed, 2500) == 0 {
            b'z'
        } else if below(seed, 2) == 0 {
            b'a'
        } else {
            b'b'
        };
        bytes.push(byte).expect(rt, "memory");
    }
    bytes
}

/// The last place up to `i` at which the byte stands.
fn plain_last(bytes: &[u8], i: u64, byte: u8) -> Option<u64> {
    let mut last = None;
    for (place, here) in bytes.iter().enumerate() {
        if *here == byte && place as u64 <= i {
            last = Some(place as u64);
        }
    }
    last
}

/// The bytes of a source as a rope of at most 64 leaves, each of at most `most` bytes but for the last: every second is
/// a part of the source where `mixed` says so, and the others are literals.
fn cut_up(
    rt: &impl Abort,
    store: &mut Store<Coded>,
    bytes: &[u8],
    mixed: bool,
    most: u64,
    seed: &mut u64,
) -> Rope {
    let mut rope = None;
    let mut rest = bytes;
    let mut place: u64 = 0;
    for turn in 0..64 {
        let n = if turn == 63 {
            rest.len()
        } else {
            rest.len().min(below(seed, most).saturating_add(1) as usize)
        };
        let (piece, after) = rest.split_at(n);
        let leaf = if mixed && turn % 2 == 1 {
            source_leaf(rt, store, 0, place, n as u64)
        } else {
            literal(rt, store, piece)
        };
        rope = joined(rt, store, rope, leaf);
        place = place.saturating_add(n as u64);
        rest = after;
    }
    rope
}

fn look_for_patterns(
    rt: &(impl AllocGlobal + Abort),
    store: &Store<Coded>,
    sources: &mut MemSources<'_>,
    text: Rope,
    bytes: &[u8],
    seed: &mut u64,
) {
    for len in [1, 2, 13, 20, 300, 4000, 4096] {
        let from = below(seed, 25_000);
        let start = below(seed, from.saturating_add(1));
        let rest = bytes.get(from as usize..).expect(rt, "a place");
        let pattern = rest.get(..len).expect(rt, "a pattern");
        let found = find_in(rt, store, sources, text, start, pattern);
        let wanted = plain_find(bytes, start, pattern);
        assert_same_at(rt, &found, &Ok(wanted), &(start, len));
    }
    let none = find_in(rt, store, sources, text, 0, b"zzzzz");
    assert_same(rt, &none, &Ok(None));
}

fn look_for_bytes(
    rt: &(impl AllocGlobal + Abort),
    store: &Store<Coded>,
    sources: &mut MemSources<'_>,
    text: Rope,
    bytes: &[u8],
    seed: &mut u64,
) {
    for _ in 0..10 {
        let i = below(seed, 31_000);
        let places = places_in(rt, store, sources, text, i, b'z');
        let wanted = (plain_find(bytes, i, b"z"), plain_last(bytes, i, b'z'));
        assert_same_at(rt, &places, &Ok(wanted), &i);
    }
}

/// The bytes from `i` on, at most `n`.
fn part<'a>(rt: &impl Abort, bytes: &'a [u8], i: u64, n: u64) -> &'a [u8] {
    let rest = bytes.get(i.min(LENGTH) as usize..).expect(rt, "a place");
    let (front, _) = rest.split_at(rest.len().min(n as usize));
    front
}

fn compare(
    rt: &(impl AllocGlobal + Abort),
    store: &Store<Coded>,
    sources: &mut MemSources<'_>,
    texts: [Rope; 2],
    bytes: &[u8],
    seed: &mut u64,
) {
    let order = cmp_texts(rt, store, sources, texts);
    assert_same(rt, &order, &Ok(Ordering::Equal));
    for _ in 0..10 {
        let (i, j) = (below(seed, 31_000), below(seed, 31_000));
        let n = below(seed, 6000);
        let order = cmp_parts(rt, store, sources, texts, (i, j), n);
        let wanted = part(rt, bytes, i, n).cmp(part(rt, bytes, j, n));
        assert_same_at(rt, &order, &Ok(wanted), &(i, j, n));
    }
}

/// All calls over a text in leaves of at most `most` bytes.
fn agree(rt: &(impl AllocGlobal + Abort), mixed: bool, most: u64) {
    let mut seed = most;
    let letters = letters(rt, &mut seed);
    let bytes = letters.as_slice();
    let mut store: Store<Coded> = Store::new(rt.alloc());
    let mut sources = MemSources::new(rt.alloc());
    let s = add_source(rt, &mut store, LENGTH);
    assert_same(rt, &sources.add(bytes).map(u32::from), &Ok(s));
    let text = cut_up(rt, &mut store, bytes, mixed, most, &mut seed);
    let other = cut_up(rt, &mut store, bytes, mixed, 1500, &mut seed);
    let mut written: Vec<u8> = Vec::new(rt.alloc());
    let outcome = put_to(rt, &store, &mut sources, text, &mut written);
    assert_same(rt, &outcome, &Ok(()));
    assert!(rt; written.as_slice() == bytes);
    look_for_patterns(rt, &store, &mut sources, text, bytes, &mut seed);
    look_for_bytes(rt, &store, &mut sources, text, bytes, &mut seed);
    compare(rt, &store, &mut sources, [text, other], bytes, &mut seed);
}

#[test]
fn texts_in_literals_agree_with_plain_loops(rt: HostRuntime) {
    for most in [40, 700, 3000, 9000, 40_000] {
        agree(&rt, false, most);
    }
}

#[test]
fn texts_in_literals_and_sources_agree_with_plain_loops(rt: HostRuntime) {
    for most in [40, 700, 3000, 9000, 40_000] {
        agree(&rt, true, most);
    }
}
