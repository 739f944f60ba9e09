//! A pattern over three leaves, over sources in memory.

use crate::kept::{Digest, Reach, store_digest};
use crate::refusals::{Refusals, TRIES, assert_same};
use crate::stores::{Call, answered, rope_of};
use cord_search::{FindFault, find};
use function_leaf::Coded;
use lazy_file::{AddFault, MemSources, Sources};
use rope_node::Rope;
use rope_store::Store;
use std::alloc::AllocGlobal;
use std::process::Abort;

fn add<'a>(sources: &mut MemSources<'a>, text: &'a [u8]) -> Result<u8, AddFault> {
    sources.add(text)
}

/// How many sources there are, and their bytes together.
fn kept(sources: &MemSources<'_>) -> (u8, u64) {
    let mut sum = 0u64;
    for s in 0..sources.count() {
        sum = sum.saturating_add(sources.len(s));
    }
    (sources.count(), sum)
}

/// Adds a text behind the others, once more where that was refused memory.
pub(crate) fn added<'a, A: Abort>(
    rt: &A,
    sources: &mut MemSources<'a>,
    text: &'a [u8],
    refusals: &mut Refusals,
) -> u8 {
    let before = kept(sources);
    for _ in 0..TRIES {
        match add(sources, text) {
            Err(AddFault::Memory) => refusals.met(rt, &kept(sources), &before),
            answer => return answer.expect(rt, "a source"),
        }
    }
    panic!(rt; "refused each time")
}

/// Texts that are each a source of its own, one behind the other.
fn leaves<'a, A: Abort>(
    rt: &A,
    store: &mut Store<Coded>,
    sources: &mut MemSources<'a>,
    texts: &[&'a [u8]],
    refusals: &mut Refusals,
) -> Rope {
    let mut rope = None;
    for text in texts {
        let len = text.len() as u64;
        let s = added(rt, sources, *text, refusals);
        let stated = answered(rt, store, &Call::AddSource(len), refusals);
        assert_same(
            rt,
            &stated.expect(rt, "a source").number,
            &u64::from(s),
            text,
        );
        let call = &Call::Source(u32::from(s), 0, len);
        let leaf = rope_of(rt, store, call, refusals);
        rope = rope_of(rt, store, &Call::Cat(rope, leaf), refusals);
    }
    rope
}

fn find_in<A: AllocGlobal + Abort>(
    rt: &A,
    store: &Store<Coded>,
    sources: &mut MemSources<'_>,
    rope: Rope,
    start: u64,
    pattern: &[u8],
) -> Result<Option<u64>, FindFault> {
    assert!(rt; store.has(rope));
    find(rt.alloc(), store, sources, rope, start, pattern)
}

/// A store's nodes and its sources.
fn all_of<A: Abort>(rt: &A, store: &Store<Coded>, sources: &MemSources<'_>) -> (Digest, (u8, u64)) {
    (store_digest(rt, store, Reach::of(store)), kept(sources))
}

/// Searches, once more where that was refused memory.
fn found<A: AllocGlobal + Abort>(
    rt: &A,
    store: &Store<Coded>,
    sources: &mut MemSources<'_>,
    rope: Rope,
    asked: (u64, &[u8]),
    refusals: &mut Refusals,
) -> Result<Option<u64>, FindFault> {
    let before = all_of(rt, store, sources);
    let (start, pattern) = asked;
    for _ in 0..TRIES {
        match find_in(rt, store, sources, rope, start, pattern) {
            Err(FindFault::Memory) => refusals.met(rt, &all_of(rt, store, sources), &before),
            answer => return answer,
        }
    }
    panic!(rt; "refused each time")
}

pub(crate) fn three_leaves<A: AllocGlobal + Abort>(rt: &A, refusals: &mut Refusals) {
    let mut store = Store::new(rt.alloc());
    let mut sources = MemSources::new(rt.alloc());
    let texts = [b"ab".as_slice(), b"c", b"de"];
    let rope = leaves(rt, &mut store, &mut sources, &texts, refusals);
    let long = [b'a'; 4097];
    for (start, pattern, wanted) in [
        (0, b"bcd".as_slice(), Ok(Some(1))),
        (2, b"bcd", Ok(None)),
        (5, b"", Ok(Some(5))),
        (6, b"", Ok(None)),
        (0, long.as_slice(), Err(FindFault::PatternTooLong)),
    ] {
        let answer = found(rt, &store, &mut sources, rope, (start, pattern), refusals);
        assert_same(rt, &answer, &wanted, &start);
    }
}
