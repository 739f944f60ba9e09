//! The calls of a position, each in a function of its own: what it ensures is not needed to prove a test.

use cord_position::Pos;
use function_leaf::Coded;
use lazy_file::{MemSources, SourceFault};
use rope_node::Rope;
use rope_store::Store;
use std::alloc::AllocGlobal;
use std::process::Abort;

pub(super) type Place<'a> = Pos<'a, Store<Coded>>;

pub(super) fn set<'a>(
    rt: &(impl AllocGlobal + Abort),
    store: &'a Store<Coded>,
    rope: Rope,
    i: u64,
) -> Place<'a> {
    assert!(rt; store.has(rope));
    Pos::set(rt.alloc(), store, rope, i)
}

pub(super) fn valid(pos: &Place<'_>) -> bool {
    pos.valid()
}

pub(super) fn index(pos: &Place<'_>) -> u64 {
    pos.index()
}

pub(super) fn fetch(
    pos: &Place<'_>,
    sources: &mut MemSources<'_>,
) -> Result<Option<u8>, SourceFault> {
    pos.fetch(sources)
}

pub(super) fn next(pos: &mut Place<'_>) -> bool {
    pos.next()
}

pub(super) fn prev(pos: &mut Place<'_>) -> bool {
    pos.prev()
}

pub(super) fn skip(pos: &mut Place<'_>, n: u64) {
    pos.skip(n);
}

pub(super) fn run_left(pos: &Place<'_>) -> u64 {
    pos.run_left()
}

pub(super) fn run_bytes<'b>(pos: &'b Place<'_>) -> &'b [u8] {
    pos.run_bytes()
}

pub(super) fn fill(
    pos: &Place<'_>,
    sources: &mut MemSources<'_>,
    buffer: &mut [u8],
) -> Result<usize, SourceFault> {
    pos.fill(sources, buffer)
}
