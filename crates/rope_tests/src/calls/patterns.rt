//! Patterns in texts of many leaves, beside a plain search.

use super::searches::find_in;
use super::stores::{add_source, joined, source_leaf};
use super::{assert_same, assert_same_at};
use function_leaf::Coded;
use lazy_file::MemSources;
use rope_node::Rope;
use rope_store::Store;
use std::alloc::AllocGlobal;
use std::process::Abort;

/// The first place of the pattern from `start` on, place by place.
pub(super) fn plain_find(text: &[u8], start: u64, pattern: &[u8]) -> Option<u64> {
    for place in start as usize..text.len() {
        if text
            .get(place..)
            .is_some_and(|rest| rest.starts_with(pattern))
        {
            return Some(place as u64);
        }
    }
    if pattern.is_empty() && start <= text.len() as u64 {
        return Some(text.len() as u64);
    }
    None
}

/// For each number below 256, the letters a and b that its bits spell, the lowest bit first.
fn letters(rt: &(impl AllocGlobal + Abort)) -> Vec<u8> {
    let mut all = Vec::new(rt.alloc());
    for number in 0..256 {
        let mut rest = number;
        for _ in 0..8 {
            all.push(if rest % 2 == 1 { b'b' } else { b'a' })
                .expect(rt, "memory");
            rest /= 2;
        }
    }
    all
}

/// The first letters of a number.
fn word<'a>(rt: &impl Abort, all: &'a [u8], number: u64, len: u64) -> &'a [u8] {
    let from = all.get(number.saturating_mul(8) as usize..);
    from.expect(rt, "a number below 256")
        .get(..len as usize)
        .expect(rt, "at most 8 letters")
}

/// Bytes of a source in leaves: one ends where a bit of `ends` is
/// set, the lowest for the first byte, and one at the last byte.
fn cut_up(
    rt: &impl Abort,
    store: &mut Store<Coded>,
    s: u32,
    start: u64,
    len: u64,
    ends: u64,
) -> Rope {
    let mut rope = None;
    let mut rest = ends;
    let mut first: u64 = 0;
    for k in 0..len {
        if rest % 2 == 1 || k + 1 == len {
            let place = start.saturating_add(first);
            let part = source_leaf(rt, store, s, place, (k + 1).saturating_sub(first));
            rope = joined(rt, store, rope, part);
            first = k + 1;
        }
        rest /= 2;
    }
    rope
}

/// A pattern, and its first place in a text.
#[derive(Drop)]
struct Sought<'a> {
    pattern: &'a [u8],
    place: Option<u64>,
}

/// Every pattern of up to four letters, with its place in the text.
fn patterns_in<'a>(rt: &(impl AllocGlobal + Abort), text: &[u8], all: &'a [u8]) -> Vec<Sought<'a>> {
    let mut patterns = Vec::new(rt.alloc());
    for (len, count) in [(0, 1), (1, 2), (2, 4), (3, 8), (4, 16)] {
        for number in 0..count {
            let pattern = word(rt, all, number, len);
            let place = plain_find(text, 0, pattern);
            patterns
                .push(Sought { pattern, place })
                .expect(rt, "memory");
        }
    }
    patterns
}

fn look_for_each(
    rt: &(impl AllocGlobal + Abort),
    store: &Store<Coded>,
    sources: &mut MemSources<'_>,
    rope: Rope,
    patterns: &[Sought<'_>],
    text: &[u8],
) {
    for sought in patterns {
        let found = find_in(rt, store, sources, rope, 0, sought.pattern);
        assert_same_at(rt, &found, &Ok(sought.place), &(text, sought.pattern));
    }
}

/// Every pattern of up to four letters, in the texts of `len` letters of these numbers, each cut in as many ways.
fn look_in_texts(
    rt: &(impl AllocGlobal + Abort),
    all: &[u8],
    len: u64,
    first: u64,
    texts: u64,
    cuts: u64,
) {
    let mut store: Store<Coded> = Store::new(rt.alloc());
    let mut sources = MemSources::new(rt.alloc());
    let s = add_source(rt, &mut store, 2048);
    assert_same(rt, &sources.add(all).map(u32::from), &Ok(s));
    for k in 0..texts {
        let number = first.saturating_add(k);
        let text = word(rt, all, number, len);
        let patterns = patterns_in(rt, text, all);
        for ends in 0..cuts {
            let place = number.saturating_mul(8);
            let rope = cut_up(rt, &mut store, s, place, len, ends);
            look_for_each(rt, &store, &mut sources, rope, patterns.as_slice(), text);
        }
    }
}

#[test]
fn every_text_of_up_to_six_letters(rt: HostRuntime) {
    let all = letters(&rt);
    for (len, texts, cuts) in [
        (0, 1, 1),
        (1, 2, 1),
        (2, 4, 2),
        (3, 8, 4),
        (4, 16, 8),
        (5, 32, 16),
        (6, 64, 32),
    ] {
        look_in_texts(&rt, all.as_slice(), len, 0, texts, cuts);
    }
}

#[test]
fn every_text_of_seven_letters(rt: HostRuntime) {
    let all = letters(&rt);
    look_in_texts(&rt, all.as_slice(), 7, 0, 128, 64);
}

#[test]
fn every_text_of_eight_letters_that_ends_with_aa(rt: HostRuntime) {
    let all = letters(&rt);
    look_in_texts(&rt, all.as_slice(), 8, 0, 64, 128);
}

#[test]
fn every_text_of_eight_letters_that_ends_with_ba(rt: HostRuntime) {
    let all = letters(&rt);
    look_in_texts(&rt, all.as_slice(), 8, 64, 64, 128);
}

#[test]
fn every_text_of_eight_letters_that_ends_with_ab(rt: HostRuntime) {
    let all = letters(&rt);
    look_in_texts(&rt, all.as_slice(), 8, 128, 64, 128);
}

#[test]
fn every_text_of_eight_letters_that_ends_with_bb(rt: HostRuntime) {
    let all = letters(&rt);
    look_in_texts(&rt, all.as_slice(), 8, 192, 64, 128);
}

/// A leaf for each byte of a source of 8,192, joined by halves.
fn byte_leaves(rt: &(impl AllocGlobal + Abort), store: &mut Store<Coded>, s: u32) -> Rope {
    let mut row = Vec::new(rt.alloc());
    for k in 0..8192 {
        row.push(source_leaf(rt, store, s, k, 1))
            .expect(rt, "memory");
    }
    for _ in 0..13 {
        let mut next = Vec::new(rt.alloc());
        for pair in row.chunks(2) {
            let rope = match pair {
                [l, r] => joined(rt, store, *l, *r),
                _ => None,
            };
            next.push(rope).expect(rt, "memory");
        }
        row = next;
    }
    row.first().copied().flatten()
}

#[test]
fn longest_pattern_over_a_leaf_for_each_byte(rt: HostRuntime) {
    let mut text = Vec::new(rt.alloc());
    for k in 0..8192_u64 {
        text.push((k * 2_654_435_761 / 65_536 % 256) as u8)
            .expect(&rt, "memory");
    }
    let mut store: Store<Coded> = Store::new(rt.alloc());
    let mut sources = MemSources::new(rt.alloc());
    let s = add_source(&rt, &mut store, 8192);
    assert_same(&rt, &sources.add(text.as_slice()).map(u32::from), &Ok(s));
    let rope = byte_leaves(&rt, &mut store, s);
    for start in [0, 1, 2047, 4096] {
        let pattern = text.get(start..start + 4096).expect(&rt, "a pattern");
        let found = find_in(&rt, &store, &mut sources, rope, 0, pattern);
        assert_same(&rt, &found, &Ok(Some(start as u64)));
    }
}
