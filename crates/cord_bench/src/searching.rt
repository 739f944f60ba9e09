//! A pattern at the end of a megabyte, of a source or of literals, edited or not, beside the same bytes in one piece.

ghost use Rattle.std.specs.Prelude.{◌<◌, IfOk};
ghost use Rattle.function_leaf.specs.Coded.{coded_byte};
ghost use Rattle.rope_node.specs.Denotes.{IsRope};
ghost use Rattle.node_table.specs.Held.{table_of};

use crate::balancing::{insert_often, open};
use crate::ropes::{MEGABYTE, place};
use anyhow::{Result, bail};
use cord_search::{FindFault, find, put};
use function_leaf::Coded;
use lazy_file::MemSources;
use memchr::memmem;
use rebalance::{BalanceFault, cat_any};
use rope_node::Rope;
use rope_store::Store;
use std::alloc::Global;
use std::time::Instant;

/// So many insertions are made before a search.
const INSERTIONS: [u32; 3] = [10, 100, 1000];

/// What is looked for.
const NEEDLE: &[u8] = b"the very end";

/// So many bytes has a long literal, and a short one.
const LONG: usize = 65_536;

const SHORT: usize = 64;

/// So often each search is made.
const TIMES: u32 = 100;

/// A megabyte of letters.
fn letters(rt: &HostRuntime) -> Result<Vec<u8>> {
    let mut bytes = Vec::new(rt.alloc());
    for k in 0..MEGABYTE as u32 {
        bytes.push(b'a' + place(k, 26) as u8)?;
    }
    Ok(bytes)
}

/// Bytes in literals of so many, one behind the other.
fn in_literals(store: &mut Store<Coded>, bytes: &[u8], len: usize) -> Result<Rope, BalanceFault>
    requires { 0 < len }
    ensures { IfOk result (IsRope (table_of coded_byte store.new)) }
{
    let mut text = None;
    for piece in bytes.chunks(len) {
        let leaf = store.from_bytes(piece)?;
        text = cat_any(store, text, leaf)?;
    }
    Ok(text)
}

/// A text with insertions at random places, and what is looked for at its end.
fn edited(store: &mut Store<Coded>, text: Rope, insertions: u32) -> Result<Rope, BalanceFault>
    requires { IsRope (table_of coded_byte store.old) text }
    ensures { IfOk result (IsRope (table_of coded_byte store.new)) }
{
    let text = insert_often(store, text, insertions)?;
    let longer = store.append(text, NEEDLE)?;
    Ok(longer)
}

fn find_often(
    alloc: Global,
    store: &Store<Coded>,
    sources: &mut MemSources<'_>,
    text: Rope,
) -> Result<u64, FindFault>
    requires { IsRope (table_of coded_byte store.now) text }
{
    let mut sum: u64 = 0;
    for _ in 0..TIMES {
        let found = find(alloc, store, sources, text, 0, NEEDLE)?;
        sum = sum.wrapping_add(found.unwrap_or(0));
    }
    Ok(sum)
}

fn find_plain_often(bytes: &[u8]) -> u64 {
    let mut sum: u64 = 0;
    for _ in 0..TIMES {
        let found = memmem::find(bytes, NEEDLE);
        sum = sum.wrapping_add(found.unwrap_or(0) as u64);
    }
    sum
}

/// Prints how long each search took.
fn report(rt: &HostRuntime, work: &str, text: &str, start: Instant) -> Result<()> {
    let taken = start.elapsed(rt)?.as_nanos() / TIMES as u128;
    let line = format!(in rt.alloc(); "{work}: {text}")?;
    eprintln!(rt; "  {line:<34} {taken:>6} ns")?;
    Ok(())
}

/// Times the search of a text, beside that of its bytes in one piece.
fn time_text(
    rt: &HostRuntime,
    name: &str,
    store: &Store<Coded>,
    sources: &mut MemSources<'_>,
    text: Rope,
) -> Result<()>
    requires { IsRope (table_of coded_byte store.now) text }
{
    let mut plain = Vec::new(rt.alloc());
    if put(rt.alloc(), store, sources, text, &mut plain).is_err() {
        bail!("the text was not written whole");
    }
    let start = Instant::now(rt)?;
    let places = find_often(rt.alloc(), store, sources, text)?;
    report(rt, "a search", name, start)?;
    let start = Instant::now(rt)?;
    let same = find_plain_often(plain.as_slice()) == places;
    report(rt, "one piece", name, start)?;
    if !same {
        bail!("the searches differ");
    }
    Ok(())
}

fn time_source(rt: &HostRuntime, bytes: &[u8], insertions: u32) -> Result<()> {
    let mut sources = MemSources::new(rt.alloc());
    sources.add(bytes)?;
    let mut store = Store::new(rt.alloc());
    let text = open(&mut store)?;
    let text = edited(&mut store, text, insertions)?;
    let name = format!(in rt.alloc(); "source, {insertions} edits")?;
    time_text(rt, name.as_str(), &store, &mut sources, text)
}

fn time_literals(rt: &HostRuntime, bytes: &[u8], len: usize, insertions: u32) -> Result<()>
    requires { 0 < len }
{
    let mut sources = MemSources::new(rt.alloc());
    let mut store = Store::new(rt.alloc());
    let text = in_literals(&mut store, bytes, len)?;
    let text = edited(&mut store, text, insertions)?;
    let name = format!(in rt.alloc(); "{len} each, {insertions} edits")?;
    time_text(rt, name.as_str(), &store, &mut sources, text)
}

/// Times searches for a pattern at the end of a megabyte: of a source
/// and of long literals after so many insertions, and of short literals.
pub fn time(rt: &HostRuntime) -> Result<()> {
    let bytes = letters(rt)?;
    for insertions in INSERTIONS {
        time_source(rt, bytes.as_slice(), insertions)?;
    }
    for insertions in INSERTIONS {
        time_literals(rt, bytes.as_slice(), LONG, insertions)?;
    }
    time_literals(rt, bytes.as_slice(), SHORT, 0)
}
