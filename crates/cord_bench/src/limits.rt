//! The limits of a store and of a pool, each met behind as much as there may be.

use anyhow::Result;
use function_leaf::Coded;
use leaf_buffer::{BLOCK_SIZE, LeafError, Pool};
use node_table::NodeFault;
use rope_node::{MOST_NODES, NodeSpace};
use rope_store::Store;

/// More blocks than a pool takes.
const BLOCKS: u32 = 1 << 16;

/// What each block is filled with.
const BLOCK: &[u8] = &[b'x'; BLOCK_SIZE];

/// Adds nodes until one is refused.
fn fill_table(store: &mut Store<Coded>) -> Option<NodeFault> {
    for _ in 0..MOST_NODES {
        if let Err(fault) = store.chars(b'x', 1) {
            return Some(fault);
        }
    }
    store.chars(b'x', 1).err()
}

/// Adds blocks of bytes to a store until one is refused.
fn fill_store(store: &mut Store<Coded>) -> Option<NodeFault> {
    for _ in 0..BLOCKS {
        if let Err(fault) = store.from_bytes(BLOCK) {
            return Some(fault);
        }
    }
    None
}

/// Adds blocks of bytes to a pool until one is refused.
fn fill_pool(pool: &mut Pool) -> Option<LeafError> {
    for _ in 0..BLOCKS {
        if let Err(fault) = pool.append(BLOCK) {
            return Some(fault);
        }
    }
    None
}

fn tell_table(rt: &HostRuntime) -> Result<()> {
    let mut store: Store<Coded> = Store::new(rt.alloc());
    let fault = fill_table(&mut store);
    println!(rt; "{} nodes, {fault:?}", store.count())?;
    Ok(())
}

fn tell_store(rt: &HostRuntime) -> Result<()> {
    let mut store: Store<Coded> = Store::new(rt.alloc());
    let fault = fill_store(&mut store);
    println!(rt; "{} bytes of a store, {fault:?}", store.pool_len())?;
    Ok(())
}

fn tell_pool(rt: &HostRuntime) -> Result<()> {
    let mut pool = Pool::new(rt.alloc());
    let fault = fill_pool(&mut pool);
    println!(rt; "{} bytes of a pool, {fault:?}", pool.len())?;
    Ok(())
}

/// Tells how much each takes, and how it refuses more.
pub fn tell(rt: &HostRuntime) -> Result<()> {
    tell_table(rt)?;
    tell_store(rt)?;
    tell_pool(rt)
}
