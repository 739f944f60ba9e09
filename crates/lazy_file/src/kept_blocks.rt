//! Blocks of sources that are kept in memory, the last ones that were read.
ghost use Rattle.std.specs.Prelude.{◌≡◌, ◌≤◌, ◌+◌, IsTrue, OnOk, drop, length, take};
ghost use Rattle.std.specs.Map.{keys_of};
ghost use Rattle.lazy_file.specs.KeptBlocks.{AreWithin, CopiesKept, KeepsBlock, KeepsOne, UsesBlock, used_block};

use lru::LruCache;
use std::alloc::AllocError;

/// The bytes of a block; the last one of a source may be shorter.
pub const BLOCK_SIZE: usize = 4096;

/// Copies a block's bytes from its place `from` on into the whole of `part`, and answers whether it has enough of them.
fn copy_part(block: &[u8], from: usize, part: &mut [u8]) -> bool
    ensures copied { IsTrue result → part.new ≡ take (length part.new) (drop from block.now) }
    ensures inside { from + length part.old ≤ length block.now → IsTrue result }
{
    let Some(end) = from.checked_add(part.len()) else {
        return false;
    };
    if end > block.len() {
        return false;
    }
    part.copy_from_slice(&block[from..end]);
    true
}

/// Copies the bytes of the block under `key`, from its place `from` on, into the whole of `part`, and answers whether
/// it did: only where a block is kept there that is long enough.
pub(crate) fn copy_kept(
    kept: &mut LruCache<(u8, u64), Vec<u8>>,
    key: (u8, u64),
    from: usize,
    part: &mut [u8],
) -> bool
    requires within { AreWithin kept.old.cap (keys_of kept.old.entries) }
    ensures copies { CopiesKept kept.old.entries kept.new.entries key from part.new result }
    ensures uses { IsTrue result
        → keys_of kept.new.entries ≡ used_block kept.old.cap (keys_of kept.old.entries) key }
    ensures unkept { (KeepsBlock kept.old.entries key → ⊥) → kept.new.entries ≡ kept.old.entries }
    ensures most { kept.new.cap ≡ kept.old.cap }
{
    match kept.get(&key) {
        Some(block) => copy_part(block, from, part),
        None => false,
    }
}

/// Keeps a block under `key`; where there are as many as may be, the one that was not used for longest goes.
pub(crate) fn keep(
    kept: &mut LruCache<(u8, u64), Vec<u8>>,
    key: (u8, u64),
    block: Vec<u8>,
) -> Result<(), AllocError>
    requires within { AreWithin kept.old.cap (keys_of kept.old.entries) }
    ensures one { KeepsOne kept.old.entries kept.new.entries key block }
    ensures kept { OnOk result (KeepsBlock kept.new.entries key) }
    ensures uses { UsesBlock kept.old.cap (keys_of kept.old.entries) (keys_of kept.new.entries) key result }
    ensures most { kept.new.cap ≡ kept.old.cap }
{
    kept.put(key, block)?;
    Ok(())
}
