//! Ropes put together, taken apart and balanced, and every node that came of it.

ghost use Rattle.std.specs.Prelude.{◌≡◌, IfOk};
ghost use Rattle.function_leaf.specs.Coded.{coded_byte};
ghost use Rattle.rope_node.specs.Denotes.{IsRope};
ghost use Rattle.node_table.specs.Held.{table_of};

use crate::chance::Chance;
use crate::digest::Digest;
use crate::report::Report;
use anyhow::Result;
use function_leaf::Coded;
use node_table::NodeFault;
use rebalance::{BalanceFault, append_any, balance, cat_any, substr_any};
use rope_node::{CodedSpace, NodeId, NodeSpace, NodeView, Rope};
use rope_store::Store;
use std::alloc::Global;

/// How long leaves are: functions below 32 bytes become literals where a rope is balanced.
const LENGTHS: [u64; 14] = [0, 1, 2, 5, 16, 30, 31, 32, 33, 64, 100, 4096, 5000, 65_536];

/// How long source 0 is.
const SOURCE: u64 = 1 << 20;

const LETTERS: &[u8; 64] = b"abcdefghijklmnopqrstuvwxyzABCDEFGHIJKLMNOPQRSTUVWXYZ0123456789+-";

/// A store and the ropes that were made in it.
#[derive(Drop)]
pub struct Ropes {
    store: Store<Coded>,
    made: Vec<Rope>,
}

/// A rope of a store, or nil.
fn there(store: &Store<Coded>, rope: Rope) -> Rope
    ensures { IsRope (table_of coded_byte store.now) result }
{
    if store.has(rope) { rope } else { None }
}

/// One of the ropes, mostly one of the last.
fn pick(store: &Store<Coded>, made: &[Rope], chance: &mut Chance) -> Rope
    ensures { IsRope (table_of coded_byte store.now) result }
{
    let count = made.len() as u64;
    let back = if chance.below(3) > 0 {
        chance.below(count.min(4))
    } else {
        chance.below(count)
    };
    let k = count.saturating_sub(back).saturating_sub(1) as usize;
    there(store, made.get(k).copied().unwrap_or(None))
}

/// A function leaf.
fn function(store: &mut Store<Coded>, chance: &mut Chance) -> Result<Rope, NodeFault> {
    let n = chance.pick(&LENGTHS);
    let c = (chance.below(256) % 256) as u8;
    match chance.below(3) {
        0 => store.chars(c, n),
        1 => store.from_fn(Coded::ramp(c), n),
        _ => {
            let len = chance.between(1, 7) as usize;
            match Coded::cycle(LETTERS.get(..len).unwrap_or(&[])) {
                Some(cycle) => store.from_fn(cycle, n),
                None => Ok(None),
            }
        }
    }
}

/// Letters, as many as a literal takes.
fn letters(alloc: Global, chance: &mut Chance) -> Result<Vec<u8>> {
    let mut bytes = Vec::new(alloc);
    for _ in 0..chance.pick(&LENGTHS).min(5000) {
        let k = chance.below(64) as usize;
        bytes.push(LETTERS.get(k).copied().unwrap_or(b'.'))?;
    }
    Ok(bytes)
}

/// A leaf.
fn leaf(
    alloc: Global,
    store: &mut Store<Coded>,
    chance: &mut Chance,
) -> Result<Result<Rope, NodeFault>> {
    match chance.below(4) {
        0 => {
            let bytes = letters(alloc, chance)?;
            Ok(store.from_bytes(&bytes))
        }
        1 | 2 => {
            let n = chance.pick(&LENGTHS);
            let room = chance.pick(&[0, 1, 5000, SOURCE]);
            let a = chance.below(SOURCE.saturating_add(room).saturating_sub(n));
            Ok(store.from_source(0, a, n))
        }
        _ => Ok(function(store, chance)),
    }
}

/// A part of a rope: mostly inside it, also empty ones and ones past its end.
fn part(
    store: &mut Store<Coded>,
    chance: &mut Chance,
    x: Rope,
    any: bool,
) -> Result<Rope, BalanceFault>
    requires { IsRope (table_of coded_byte store.old) x }
{
    let len = store.len(x);
    let i = chance.below(len.saturating_add(2));
    let left = len.saturating_sub(i);
    let n = match chance.below(5) {
        0 => chance.pick(&LENGTHS),
        1 => u64::MAX,
        2 => left,
        _ => chance.below(left.saturating_add(2)),
    };
    if any {
        substr_any(store, x, i, n)
    } else {
        Ok(store.substr(x, i, n)?)
    }
}

/// A rope under so many nodes more, each with one of two ropes at its other side.
fn deepened(
    store: &mut Store<Coded>,
    chance: &mut Chance,
    text: Rope,
    beside: Rope,
    levels: u64,
) -> Result<Rope, NodeFault> {
    let mut text = text;
    let side = chance.below(3);
    for k in 0..levels {
        let x = there(store, text);
        let y = there(store, beside);
        text = match side {
            0 => store.cat(x, y)?,
            1 => store.cat(y, x)?,
            _ if k % 2 == 0 => store.cat(x, y)?,
            _ => store.cat(y, x)?,
        };
    }
    Ok(text)
}

/// A rope that was doubled so often: one node at two places.
fn doubled(store: &mut Store<Coded>, text: Rope, times: u64) -> Result<Rope, NodeFault> {
    let mut text = text;
    for _ in 0..times {
        let x = there(store, text);
        text = store.cat(x, x)?;
    }
    Ok(text)
}

/// A part of a rope, then a part of that, and so on: each leaves the first or the last byte out.
fn narrowed(
    store: &mut Store<Coded>,
    chance: &mut Chance,
    text: Rope,
    times: u64,
) -> Result<Rope, NodeFault> {
    let mut text = text;
    for _ in 0..times {
        let x = there(store, text);
        let len = store.len(x);
        if len < 4 {
            break;
        }
        text = store.substr(x, chance.below(2), len.saturating_sub(1))?;
    }
    Ok(text)
}

/// What a call is named in the lines that are printed, and what it made.
fn step(
    alloc: Global,
    ropes: &mut Ropes,
    chance: &mut Chance,
) -> Result<(&'static str, Result<Rope, BalanceFault>)> {
    let store = &mut ropes.store;
    let x = pick(store, &ropes.made, chance);
    let y = pick(store, &ropes.made, chance);
    let made = match chance.below(20) {
        0..4 => (
            "leaf",
            leaf(alloc, store, chance)?.map_err(BalanceFault::Node),
        ),
        4..7 => ("cat_any", cat_any(store, x, y)),
        7 => ("cat", store.cat(x, y).map_err(BalanceFault::Node)),
        8..11 => ("substr_any", part(store, chance, x, true)),
        11 => ("substr", part(store, chance, x, false)),
        12 | 13 => {
            let bytes = letters(alloc, chance)?;
            (
                "append_any",
                append_any(store, x, &bytes).map(|(rope, _)| rope),
            )
        }
        14 => {
            let levels = chance.between(1, 66);
            (
                "deepen",
                deepened(store, chance, x, y, levels).map_err(BalanceFault::Node),
            )
        }
        15 => {
            let times = chance.between(1, 6);
            (
                "double",
                doubled(store, x, times).map_err(BalanceFault::Node),
            )
        }
        16 | 17 => {
            let times = chance.between(1, 12);
            (
                "narrow",
                narrowed(store, chance, x, times).map_err(BalanceFault::Node),
            )
        }
        _ => ("balance", balance(store, x)),
    };
    Ok(made)
}

/// What came of a call: the node and how many there are, or the refusal.
fn tell_step(
    alloc: Global,
    ropes: &mut Ropes,
    name: &str,
    made: Result<Rope, BalanceFault>,
    report: &mut Report,
) -> Result<()> {
    report.words(name)?;
    report.words(" -> ")?;
    match made {
        Ok(rope) => {
            match rope {
                Some(node) => report.entry("", u64::from(node.0))?,
                None => report.words("nil")?,
            }
            if rope.is_some() {
                ropes.made.push(rope)?;
            }
        }
        Err(fault) => report.words(&format!(in alloc; "{fault}")?)?,
    }
    report.entry(" of ", u64::from(ropes.store.count()))?;
    report.entry(" pool ", ropes.store.pool_len())?;
    report.end()
}

/// What a node is, digested.
fn digest_node(store: &Store<Coded>, k: u32, digest: &mut Digest) {
    let rope = there(store, Some(NodeId(k)));
    let Some(id) = rope else {
        return;
    };
    digest.word(NodeSpace::len(store, id));
    digest.word(u64::from(NodeSpace::depth(store, id)));
    match store.node(id) {
        NodeView::Lit { a } => digest.words(1, a, 0),
        NodeView::Src { s, a } => digest.words(2, u64::from(s), a),
        NodeView::Cat { l, r } => digest.words(3, u64::from(l.0), u64::from(r.0)),
        NodeView::Sub { b, i } => digest.words(4, u64::from(b.0), i),
        NodeView::Fun => digest.words(5, u64::from(store.fun_byte(id, 0)), 0),
    }
}

/// The bytes of the pool, digested.
fn digest_pool(store: &Store<Coded>, digest: &mut Digest) {
    let mut done: u64 = 0;
    for _ in 0..store.pool_len() {
        if done >= store.pool_len() {
            break;
        }
        let block = store.pool(done);
        digest.take(block);
        done = done.saturating_add(block.len() as u64);
    }
}

/// All nodes and the pool, digested.
fn tell_store(store: &Store<Coded>, report: &mut Report) -> Result<()> {
    let mut digest = Digest::new();
    for k in 0..store.count() {
        digest_node(store, k, &mut digest);
    }
    digest_pool(store, &mut digest);
    report.words("nodes and pool ")?;
    report.hex(digest.value(), 16)?;
    report.end()
}

/// A store with a source and no ropes but nil.
fn begun(alloc: Global) -> Result<Ropes> {
    let mut store = Store::new(alloc);
    store.add_source(SOURCE)?;
    let mut made = Vec::new(alloc);
    made.push(None)?;
    Ok(Ropes { store, made })
}

/// A rope of as many pieces as are allowed, balanced until the table is full: a refusal in the middle.
fn fill_the_table(alloc: Global, ropes: &mut Ropes, report: &mut Report) -> Result<()> {
    let store = &mut ropes.store;
    let byte = store.from_source(0, 7, 1)?;
    let text = doubled(store, byte, 20)?;
    for _ in 0..18 {
        let x = there(&ropes.store, text);
        let made = balance(&mut ropes.store, x);
        tell_step(alloc, ropes, "balance", made, report)?;
    }
    Ok(())
}

/// Calls by chance.
pub fn joins(alloc: Global, chance: &mut Chance, seed: u64, report: &mut Report) -> Result<()> {
    report.words(":")?;
    report.end()?;
    let mut ropes = begun(alloc)?;
    if seed == 0 {
        fill_the_table(alloc, &mut ropes, report)?;
    }
    let steps = if seed == 0 { 2 } else { chance.between(10, 50) };
    for _ in 0..steps {
        let (name, made) = step(alloc, &mut ropes, chance)?;
        tell_step(alloc, &mut ropes, name, made, report)?;
    }
    tell_store(&ropes.store, report)
}
