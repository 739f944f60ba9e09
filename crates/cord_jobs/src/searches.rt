//! Searches and walks over ropes that were edited, and the store's own operations.

ghost use Rattle.std.specs.Prelude.{◌≡◌, ◌<◌, IfOk};
ghost use Rattle.function_leaf.specs.Coded.{coded_byte};
ghost use Rattle.rope_node.specs.Denotes.{IsRope};
ghost use Rattle.node_table.specs.Held.{table_of};

use crate::chance::Chance;
use crate::digest::Digest;
use crate::keys::{opened, prose};
use anyhow::{Result, bail};
use cord_position::{Pos, fetch};
use cord_search::{chr, cmp, find, put, rchr};
use cord_tools::run_find_all;
use function_leaf::Coded;
use lazy_file::{MemSources, Sources};
use node_table::NodeFault;
use rebalance::{BalanceFault, append_any, cat_any, substr_any};
use rope_node::{NodeSpace, Rope};
use rope_store::Store;
use std::alloc::Global;

/// A byte that no text has, and a pattern with it.
const ABSENT: u8 = b'#';

const NEEDLE: &[u8] = b"the very # end";

/// What an insertion puts in.
pub const PUT_IN: &[u8] = b"0123456789";

/// A number or none, digested.
pub fn told(digest: &mut Digest, found: Option<u64>) {
    digest.number(found.unwrap_or(u64::MAX));
}

/// A rope, by its number, its length and its depth, digested.
fn tell_rope(digest: &mut Digest, store: &Store<Coded>, rope: Rope)
    requires { IsRope (table_of coded_byte store.now) rope }
{
    let number = rope.map_or(u32::MAX, |node| node.0);
    digest.number(u64::from(number) | (u64::from(store.depth(rope)) << 32));
    digest.number(store.len(rope));
}

/// The text with bytes put in at a place.
fn insert(
    store: &mut Store<Coded>,
    text: Rope,
    place: u64,
    bytes: &[u8],
) -> Result<Rope, BalanceFault>
    requires { IsRope (table_of coded_byte store.old) text }
    ensures { IfOk result (IsRope (table_of coded_byte store.new)) }
{
    let before = substr_any(store, text, 0, place)?;
    let (longer, _) = append_any(store, before, bytes)?;
    let behind = substr_any(store, text, place, u64::MAX)?;
    cat_any(store, longer, behind)
}

/// So many insertions into a text, at places that chance picks.
pub fn insert_often(
    store: &mut Store<Coded>,
    chance: &mut Chance,
    text: Rope,
    edits: u64,
) -> Result<Rope, BalanceFault>
    requires { IsRope (table_of coded_byte store.old) text }
    ensures { IfOk result (IsRope (table_of coded_byte store.new)) }
{
    let mut text = text;
    for _ in 0..edits {
        let place = chance.up_to(store.len(text));
        text = insert(store, text, place, PUT_IN)?;
    }
    Ok(text)
}

/// The text of source 0.
pub fn source_text(store: &mut Store<Coded>, len: u64) -> Result<Rope, NodeFault>
    ensures { IfOk result (IsRope (table_of coded_byte store.new)) }
{
    let source = store.add_source(len)?;
    store.from_source(u32::from(source), 0, len)
}

/// Bytes in literals of so many, one behind the other.
pub fn in_literals(store: &mut Store<Coded>, bytes: &[u8], len: usize) -> Result<Rope, BalanceFault>
    requires { 0 < len }
    ensures { IfOk result (IsRope (table_of coded_byte store.new)) }
{
    let mut text = None;
    for piece in bytes.chunks(len) {
        let leaf = store.from_bytes(piece)?;
        text = cat_any(store, text, leaf)?;
    }
    Ok(text)
}

/// A pattern and a byte that a text has not, its order beside itself, and its bytes.
fn search<T: Sources>(
    alloc: Global,
    store: &Store<Coded>,
    sources: &mut T,
    text: Rope,
    digest: &mut Digest,
) -> Result<()>
    requires { IsRope (table_of coded_byte store.now) text }
{
    told(digest, find(alloc, store, sources, text, 0, NEEDLE)?);
    told(digest, chr(alloc, store, sources, text, 0, ABSENT)?);
    told(digest, rchr(alloc, store, sources, text, u64::MAX, ABSENT)?);
    let order = cmp(alloc, store, sources, text, text)?;
    digest.number(u64::from(order.is_eq()));
    if put(alloc, store, sources, text, digest).is_err() {
        bail!("a text was not written");
    }
    Ok(())
}

/// A text of a source that was edited so often, searched.
fn search_edited(
    alloc: Global,
    chance: &mut Chance,
    len: u64,
    edits: u64,
    digest: &mut Digest,
) -> Result<()> {
    let text = prose(alloc, chance, len, true)?;
    let mut sources = MemSources::new(alloc);
    sources.add(&text)?;
    let mut store = Store::new(alloc);
    let rope = source_text(&mut store, len)?;
    let rope = insert_often(&mut store, chance, rope, edits)?;
    search(alloc, &store, &mut sources, rope, digest)
}

/// A text of literals of 64 bytes that was edited so often, searched, its bytes fetched anywhere and walked.
fn search_literals(
    alloc: Global,
    chance: &mut Chance,
    len: u64,
    edits: u64,
    digest: &mut Digest,
) -> Result<()> {
    let text = prose(alloc, chance, len, true)?;
    let mut sources = MemSources::new(alloc);
    let mut store = Store::new(alloc);
    let rope = in_literals(&mut store, &text, 64)?;
    let rope = insert_often(&mut store, chance, rope, edits)?;
    search(alloc, &store, &mut sources, rope, digest)?;
    fetch_often(&store, &mut sources, chance, rope, edits, digest)?;
    walk(alloc, &store, &mut sources, rope, len, digest)
}

/// So many bytes of a text, at places that chance picks.
fn fetch_often(
    store: &Store<Coded>,
    sources: &mut MemSources<'_>,
    chance: &mut Chance,
    text: Rope,
    times: u64,
    digest: &mut Digest,
) -> Result<()>
    requires { IsRope (table_of coded_byte store.now) text }
{
    let len = store.len(text);
    for _ in 0..times.saturating_mul(10) {
        if let (Some(byte), visited) = fetch(store, sources, text, chance.up_to(len))? {
            digest.number(u64::from(byte) ^ (u64::from(visited) << 8));
        }
    }
    Ok(())
}

/// So many bytes of a text, one after the other, put into one number.
fn walk(
    alloc: Global,
    store: &Store<Coded>,
    sources: &mut MemSources<'_>,
    text: Rope,
    times: u64,
    digest: &mut Digest,
) -> Result<()>
    requires { IsRope (table_of coded_byte store.now) text }
{
    let mut pos = Pos::set(alloc, store, text, 0);
    let mut all: u64 = 0;
    for _ in 0..times {
        if let Some(byte) = pos.fetch(sources)? {
            all = all.rotate_left(5) ^ u64::from(byte);
        }
        pos.next();
    }
    digest.number(all);
    Ok(())
}

/// A text to which so many bytes are appended one by one, each rope of it told.
fn append_bytes(
    store: &mut Store<Coded>,
    chance: &mut Chance,
    count: u64,
    digest: &mut Digest,
) -> Result<Rope, NodeFault>
    ensures { IfOk result (IsRope (table_of coded_byte store.new)) }
{
    let mut text = None;
    for _ in 0..count {
        text = store.append(text, &[chance.letter()])?;
        tell_rope(digest, store, text);
    }
    Ok(text)
}

/// So many parts of a text, each joined with itself, and all of these ropes told.
fn take_parts(
    store: &mut Store<Coded>,
    chance: &mut Chance,
    text: Rope,
    count: u64,
    digest: &mut Digest,
) -> Result<(), NodeFault>
    requires { IsRope (table_of coded_byte store.old) text }
{
    let len = store.len(text);
    for _ in 0..count {
        let part = store.substr(text, chance.up_to(len), 1000)?;
        tell_rope(digest, store, part);
        let twice = store.cat(part, part)?;
        tell_rope(digest, store, twice);
    }
    Ok(())
}

/// The store's operations: bytes appended, parts taken and joined.
fn use_store(alloc: Global, chance: &mut Chance, count: u64, digest: &mut Digest) -> Result<()> {
    let mut store = Store::new(alloc);
    let text = append_bytes(&mut store, chance, count, digest)?;
    take_parts(&mut store, chance, text, count, digest)?;
    digest.number(u64::from(store.count()));
    digest.number(store.pool_len());
    Ok(())
}

/// All places of a pattern in a file.
fn find_all(
    alloc: Global,
    chance: &mut Chance,
    len: u64,
    pattern: &[u8],
    digest: &mut Digest,
) -> Result<()> {
    let text = prose(alloc, chance, len, true)?;
    let mut sources = opened(alloc, text)?;
    if run_find_all(alloc, &mut sources, 0, pattern, digest).is_err() {
        bail!("a pattern was not looked for");
    }
    Ok(())
}

/// Searches of files and of ropes, and the store's operations.
pub fn search_texts(
    alloc: Global,
    chance: &mut Chance,
    scale: u64,
    digest: &mut Digest,
) -> Result<()> {
    find_all(alloc, chance, scale.saturating_mul(160_000), b"e", digest)?;
    find_all(alloc, chance, scale.saturating_mul(160_000), b"qu", digest)?;
    let len = scale.saturating_mul(60_000);
    search_edited(alloc, chance, len, scale.saturating_mul(400), digest)?;
    search_literals(alloc, chance, len, scale.saturating_mul(400), digest)?;
    use_store(alloc, chance, scale.saturating_mul(10_000), digest)
}
