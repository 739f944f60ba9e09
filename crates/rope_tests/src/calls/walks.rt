//! Positions that walk through many leaves, beside a plain list of their bytes.

use super::places::{fetch, fill, index, next, prev, run_bytes, run_left, set, skip, valid};
use super::stores::{add_source, function, joined, literal, size_of, source_leaf, substr};
use super::{assert_same, assert_same_at};
use function_leaf::Coded;
use lazy_file::MemSources;
use rope_node::Rope;
use rope_store::Store;
use std::alloc::AllocGlobal;
use std::process::Abort;

/// A rope, and the bytes that it should have.
#[derive(Drop)]
struct Sample {
    rope: Rope,
    bytes: Vec<u8>,
}

/// `abcdefghi`, over a literal, a part of a source, a function and a literal of one byte.
fn four_leaves(
    rt: &(impl AllocGlobal + Abort),
    store: &mut Store<Coded>,
    sources: &mut MemSources<'static>,
) -> Sample {
    let source = add_source(rt, store, 4);
    assert_same(rt, &sources.add(b"xdey").map(u32::from), &Ok(source));
    let abc = literal(rt, store, b"abc");
    let de = source_leaf(rt, store, source, 1, 2);
    let fgh = function(rt, store, Coded::ramp(b'f'), 3);
    let i = literal(rt, store, b"i");
    let left = joined(rt, store, abc, de);
    let right = joined(rt, store, fgh, i);
    let mut bytes = Vec::new(rt.alloc());
    bytes.extend_from_slice(b"abcdefghi").expect(rt, "memory");
    Sample {
        rope: joined(rt, store, left, right),
        bytes,
    }
}

/// One text behind another, without its first and its last byte.
fn joined_and_cut(
    rt: &(impl AllocGlobal + Abort),
    store: &mut Store<Coded>,
    left: &Sample,
    right: &Sample,
) -> Sample {
    let mut all = Vec::new(rt.alloc());
    all.extend_from_slice(&left.bytes).expect(rt, "memory");
    all.extend_from_slice(&right.bytes).expect(rt, "memory");
    let [_, inner @ .., _] = all.as_slice() else {
        panic!(rt; "no inner bytes");
    };
    let mut bytes = Vec::new(rt.alloc());
    bytes.extend_from_slice(inner).expect(rt, "memory");
    let rope = joined(rt, store, left.rope, right.rope);
    Sample {
        rope: substr(rt, store, rope, 1, inner.len() as u64),
        bytes,
    }
}

/// From the first byte to the end, and back, byte by byte.
fn walk(
    rt: &(impl AllocGlobal + Abort),
    store: &Store<Coded>,
    sources: &mut MemSources<'static>,
    sample: &Sample,
) {
    let mut pos = set(rt, store, sample.rope, 0);
    for (i, byte) in sample.bytes.iter().enumerate() {
        assert_same(rt, &index(&pos), &(i as u64));
        assert_same_at(rt, &fetch(&pos, sources), &Ok(Some(*byte)), &i);
        assert!(rt; next(&mut pos));
    }
    assert_same(rt, &fetch(&pos, sources), &Ok(None));
    assert!(rt; !next(&mut pos));
    for byte in sample.bytes.iter().rev() {
        assert!(rt; prev(&mut pos));
        assert_same(rt, &fetch(&pos, sources), &Ok(Some(*byte)));
    }
    assert!(rt; !prev(&mut pos));
}

/// From run to run, each one's bytes at once, and how many runs there are.
fn count_runs(
    rt: &(impl AllocGlobal + Abort),
    store: &Store<Coded>,
    sources: &mut MemSources<'static>,
    sample: &Sample,
) -> usize {
    let mut pos = set(rt, store, sample.rope, 0);
    let mut rest = sample.bytes.as_slice();
    for count in 0..sample.bytes.len() {
        if rest.is_empty() {
            assert!(rt; !valid(&pos));
            return count;
        }
        let mut buffer = [0; 8];
        let filled = fill(&pos, sources, &mut buffer).unwrap_or(0);
        assert_same(rt, &(filled as u64), &run_left(&pos));
        assert_same(rt, &buffer.get(..filled), &rest.get(..filled));
        let literal = run_bytes(&pos);
        if !literal.is_empty() {
            assert_same(rt, &Some(literal), &buffer.get(..filled));
        }
        skip(&mut pos, filled as u64);
        rest = rest.get(filled..).unwrap_or(&[]);
    }
    assert!(rt; rest.is_empty() && !valid(&pos));
    sample.bytes.len()
}

/// A place one after the other as if at random, each by a position set there and by one that goes on.
fn jump(
    rt: &(impl AllocGlobal + Abort),
    store: &Store<Coded>,
    sources: &mut MemSources<'static>,
    sample: &Sample,
) {
    let mut pos = set(rt, store, sample.rope, 0);
    let mut place: u64 = 0;
    for k in 0..1000 {
        let ahead = (k * 2_654_435_761) % 211;
        skip(&mut pos, ahead);
        place = place.saturating_add(ahead);
        if place >= sample.bytes.len() as u64 {
            assert!(rt; !valid(&pos));
            pos = set(rt, store, sample.rope, ahead);
            place = ahead;
        }
        let byte = sample.bytes.get(place as usize).copied();
        assert_same_at(rt, &fetch(&pos, sources), &Ok(byte), &place);
    }
}

#[test]
fn ten_thousand_leaves_forth_and_back(rt: HostRuntime) {
    let mut store: Store<Coded> = Store::new(rt.alloc());
    let mut sources = MemSources::new(rt.alloc());
    let mut sample = four_leaves(&rt, &mut store, &mut sources);
    for _ in 0..12 {
        sample = joined_and_cut(&rt, &mut store, &sample, &sample);
    }
    walk(&rt, &store, &mut sources, &sample);
    jump(&rt, &store, &mut sources, &sample);
    assert!(rt; count_runs(&rt, &store, &mut sources, &sample) > 10_000);
}

#[test]
fn parts_of_parts_down_to_the_greatest_depth(rt: HostRuntime) {
    let mut store: Store<Coded> = Store::new(rt.alloc());
    let mut sources = MemSources::new(rt.alloc());
    let leaves = four_leaves(&rt, &mut store, &mut sources);
    let mut sample = joined_and_cut(&rt, &mut store, &leaves, &leaves);
    for k in 0..30 {
        if k % 2 == 0 {
            sample = joined_and_cut(&rt, &mut store, &sample, &leaves);
        } else {
            sample = joined_and_cut(&rt, &mut store, &leaves, &sample);
        }
    }
    let (_, depth) = size_of(&rt, &store, sample.rope);
    assert_same(&rt, &depth, &64);
    walk(&rt, &store, &mut sources, &sample);
    jump(&rt, &store, &mut sources, &sample);
    count_runs(&rt, &store, &mut sources, &sample);
}
