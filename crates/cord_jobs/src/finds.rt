//! Searches of ropes for what is there, and ropes that differ late.

ghost use Rattle.std.specs.Prelude.{◌<◌, IfOk};
ghost use Rattle.function_leaf.specs.Coded.{coded_byte};
ghost use Rattle.rope_node.specs.Denotes.{IsRope};
ghost use Rattle.node_table.specs.Held.{table_of};

use crate::chance::Chance;
use crate::digest::Digest;
use crate::keys::prose;
use crate::searches::{PUT_IN, in_literals, insert_often, source_text, told};
use anyhow::{Result, bail};
use cord_search::{chr, cmp, find, put, rchr};
use function_leaf::Coded;
use lazy_file::MemSources;
use rope_node::Rope;
use rope_store::Store;
use std::alloc::Global;
use std::cmp::Ordering;

/// So many bytes has a literal, of a text and of another one of the same bytes.
const SHORT: usize = 64;

const LONG: usize = 1000;

/// What was put in, from each place on to which chance leads; and the line breaks there, before and behind.
fn find_often(
    alloc: Global,
    store: &Store<Coded>,
    sources: &mut MemSources<'_>,
    chance: &mut Chance,
    text: Rope,
    times: u64,
    digest: &mut Digest,
) -> Result<()>
    requires { IsRope (table_of coded_byte store.now) text }
{
    let len = store.len(text);
    for _ in 0..times {
        let place = chance.up_to(len);
        told(digest, find(alloc, store, sources, text, place, PUT_IN)?);
        told(digest, chr(alloc, store, sources, text, place, b'\n')?);
        told(digest, rchr(alloc, store, sources, text, place, b'\n')?);
    }
    Ok(())
}

/// All bytes of a text but for the last, and another one behind them, in longer literals.
fn differing(
    alloc: Global,
    store: &mut Store<Coded>,
    sources: &mut MemSources<'_>,
    text: Rope,
) -> Result<Rope>
    requires { IsRope (table_of coded_byte store.old) text }
    ensures { IfOk result (IsRope (table_of coded_byte store.new)) }
{
    let mut bytes = Vec::new(alloc);
    if put(alloc, store, sources, text, &mut bytes).is_err() {
        bail!("a text was not written");
    }
    bytes.pop();
    bytes.push(b'#')?;
    Ok(in_literals(store, &bytes, LONG)?)
}

/// A text beside itself with another last byte, compared both ways so often.
fn compare_late(
    alloc: Global,
    store: &mut Store<Coded>,
    sources: &mut MemSources<'_>,
    text: Rope,
    times: u64,
    digest: &mut Digest,
) -> Result<()>
    requires { IsRope (table_of coded_byte store.old) text }
{
    let other = differing(alloc, store, sources, text)?;
    if !store.has(text) || !store.has(other) {
        bail!("a text is of another store");
    }
    for _ in 0..times {
        for (x, y) in [(text, other), (other, text)] {
            let order = cmp(alloc, store, sources, x, y)?;
            digest.number(u64::from(order == Ordering::Less));
        }
    }
    Ok(())
}

/// A text of a source that was edited all over, and one of literals.
pub fn find_texts(
    alloc: Global,
    chance: &mut Chance,
    scale: u64,
    digest: &mut Digest,
) -> Result<()> {
    let len = scale.saturating_mul(40_000);
    let times = scale.saturating_mul(200);
    let text = prose(alloc, chance, len, true)?;
    let mut sources = MemSources::new(alloc);
    sources.add(&text)?;
    let mut store = Store::new(alloc);
    let rope = source_text(&mut store, len)?;
    let rope = insert_often(&mut store, chance, rope, times)?;
    find_often(alloc, &store, &mut sources, chance, rope, times, digest)?;
    compare_late(
        alloc,
        &mut store,
        &mut sources,
        rope,
        scale / 20 + 1,
        digest,
    )?;
    let mut store = Store::new(alloc);
    let rope = in_literals(&mut store, &text, SHORT)?;
    let rope = insert_often(&mut store, chance, rope, times)?;
    find_often(alloc, &store, &mut sources, chance, rope, times, digest)?;
    compare_late(
        alloc,
        &mut store,
        &mut sources,
        rope,
        scale / 20 + 1,
        digest,
    )
}
