//! Two sources of which one fails: what reads it tells its fault, and what does not leaves it alone.

use super::files::{Slice, one_block};
use super::searches::{cmp_texts, find_in, put_to};
use super::stores::{add_source, joined, literal, source_leaf};
use super::{assert_same, assert_same_at};
use cord_search::{FindFault, PutFault};
use function_leaf::Coded;
use lazy_file::{FileSources, SourceFault, Sources};
use rope_node::Rope;
use rope_store::Store;
use std::alloc::AllocGlobal;
use std::process::Abort;

/// A call that reads a whole text.
#[derive(Clone, Copy, Debug)]
enum Call {
    Find,
    Compare,
    Put,
}

/// The fault of a source that the call meets, if it meets one.
fn fault_of(
    rt: &(impl AllocGlobal + Abort),
    call: Call,
    store: &Store<Coded>,
    sources: &mut FileSources<Slice<'_>>,
    texts: [Rope; 2],
) -> Option<SourceFault> {
    let [text, _] = texts;
    match call {
        Call::Find => match find_in(rt, store, sources, text, 0, b"x") {
            Err(FindFault::Source(fault)) => Some(fault),
            found => {
                assert_same(rt, &found, &Ok(None));
                None
            }
        },
        Call::Compare => cmp_texts(rt, store, sources, texts).err(),
        Call::Put => {
            let mut bytes: Vec<u8> = Vec::new(rt.alloc());
            match put_to(rt, store, sources, text, &mut bytes) {
                Err(PutFault::Source(fault)) => Some(fault),
                outcome => {
                    assert_same(rt, &outcome, &Ok(()));
                    None
                }
            }
        }
    }
}

/// Each call over the text, where the first read of one source fails: it meets that fault if it reads the source, and
/// leaves it to the next read if it does not.
fn meets_its_own_faults(
    rt: &(impl AllocGlobal + Abort),
    store: &Store<Coded>,
    texts: [Rope; 2],
    reads: [bool; 2],
) {
    let [ab, cd] = [Slice::new(b"ab"), Slice::new(b"cd")];
    for call in [Call::Find, Call::Compare, Call::Put] {
        for (s, devices, is_read) in [
            (0, [ab.failing_at(1), cd], reads[0]),
            (1, [ab, cd.failing_at(1)], reads[1]),
        ] {
            let mut sources = one_block(rt, &devices);
            let met = fault_of(rt, call, store, &mut sources, texts);
            let left = sources.read(s, 0, &mut [0]).is_err();
            let wanted = is_read.then_some(SourceFault::Device);
            assert_same_at(rt, &(met, left), &(wanted, !is_read), &(call, s));
        }
    }
}

#[test]
fn a_fault_is_of_a_source_that_is_read(rt: HostRuntime) {
    let mut store: Store<Coded> = Store::new(rt.alloc());
    let [s, t] = [
        add_source(&rt, &mut store, 2),
        add_source(&rt, &mut store, 2),
    ];
    let ab = source_leaf(&rt, &mut store, s, 0, 2);
    let cd = source_leaf(&rt, &mut store, t, 0, 2);
    let both = joined(&rt, &mut store, ab, cd);
    for (text, plain, reads) in [
        (ab, b"abx", [true, false]),
        (cd, b"cdx", [false, true]),
        (both, b"abc", [true, true]),
    ] {
        let other = literal(&rt, &mut store, plain);
        meets_its_own_faults(&rt, &store, [text, other], reads);
    }
}
