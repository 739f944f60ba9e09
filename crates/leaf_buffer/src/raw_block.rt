//! Memory that is taken once, written from the front, and never moved.

ghost use Rattle.std.specs.Prelude.{◌≡◌, ◌+◌, ◌≤◌, ◌++◌, [], length, IfOk};
ghost use Rattle.leaf_buffer.specs.declared.block.TheConstants.{BLOCK_SIZE};

use crate::room::{Deed, Room, give, take};
use std::alloc::{AllocError, Global};
use std::marker::Model;

/// The memory of a block, seen as the bytes that were written into it.
pub(crate) struct RawBlock {
    alloc: Global,
    /// Where the block begins.
    first: *mut u8,
    /// How many bytes were written.
    len: usize,
    room: Room,
    deed: Deed<Global>,
}

impl Model for RawBlock {
    ghost use Rattle.std.specs.Prelude.{◌≡◌, ℕ, List, ◌≤◌, length};

    ghost Value = { List ℕ };

    ghost use Rattle.leaf_buffer.specs.declared.block.TheConstants.{BLOCK_SIZE};

    ghost view = { λ b. b.room.bytes };

    ghost invariant = { λ b. (b.room.first ≡ b.first) × (b.deed.first ≡ b.first) × (b.deed.alloc ≡ b.alloc)
        × (b.len ≡ length b.room.bytes) × (b.len ≤ BLOCK_SIZE) };
}

impl RawBlock {
    /// A block that holds nothing yet.
    pub(crate) fn new(alloc: Global) -> Result<RawBlock, AllocError>
        ensures { IfOk result (λ block. block ≡ []) }
    {
        let (first, room, deed) = take(&alloc)?;
        Ok(RawBlock {
            alloc,
            first,
            len: 0,
            room,
            deed,
        })
    }

    /// A new block that begins with these bytes.
    pub(crate) fn with(alloc: Global, bytes: &[u8]) -> Result<RawBlock, AllocError>
        requires { length bytes.now ≤ BLOCK_SIZE }
        ensures { IfOk result (λ block. block ≡ bytes.now) }
    {
        let mut block = RawBlock::new(alloc)?;
        block.append(bytes);
        Ok(block)
    }

    /// Writes these bytes behind those that are there.
    pub(crate) fn append(&mut self, bytes: &[u8])
        requires { length self.old + length bytes.now ≤ BLOCK_SIZE }
        ensures { self.new ≡ self.old ++ bytes.now }
    {
        self.room.append(self.first, self.len, bytes);
        self.len += bytes.len();
    }

    /// The bytes that were written.
    pub(crate) fn as_slice(&self) -> &[u8]
        ensures { result.now ≡ self.now }
    {
        self.room.slice(self.first, self.len)
    }

    /// How many bytes were written.
    pub(crate) fn len(&self) -> usize
        ensures len { result ≡ length self.now }
        ensures limit { result ≤ BLOCK_SIZE }
    {
        self.len
    }
}

impl Drop for RawBlock {
    fn drop(self) {
        let RawBlock {
            alloc,
            first,
            len: _,
            room,
            deed,
        } = self;
        give(&alloc, first, room, deed);
    }
}
