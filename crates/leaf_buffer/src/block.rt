//! A block of the pool: bytes that never move, and the room behind them.

ghost use Rattle.std.specs.Prelude.{◌≡◌, ◌<◌, ◌≤◌, length, IfOk};
ghost use Rattle.leaf_buffer.specs.Filled.{written_block, filled_behind};

use crate::raw_block::RawBlock;
use std::alloc::{AllocError, Global};
use std::marker::Model;

/// How many bytes a block takes.
pub const BLOCK_SIZE: usize = 65_536;

/// What a block's bytes lie in.
#[derive(Drop)]
enum Kind {
    /// Memory of the pool's own, which takes more.
    Written(RawBlock),
    /// A vector that was handed over, which takes no more.
    Handed(Vec<u8>),
}

/// A block, seen as its bytes and how many more it takes.
#[derive(Drop)]
pub(crate) struct Block {
    kind: Kind,
}

impl Model for Block {
    ghost use Rattle.leaf_buffer.specs.Filled.{Filled};
    ghost use Rattle.leaf_buffer.specs.Kinds.{filled_of};

    ghost Value = { Filled };

    ghost view = { λ b. filled_of b.kind };
}

impl Block {
    /// A new block that begins with these bytes.
    pub(crate) fn with(alloc: Global, bytes: &[u8]) -> Result<Block, AllocError>
        requires { length bytes.now ≤ BLOCK_SIZE }
        ensures { IfOk result (λ block. block ≡ written_block bytes.now) }
    {
        let block = RawBlock::with(alloc, bytes)?;
        Ok(Block {
            kind: Kind::Written(block),
        })
    }

    /// A block of these bytes, which takes no more.
    pub(crate) fn holding(bytes: Vec<u8>) -> Block
        ensures { result ≡ record { bytes = bytes.items; room = 0 } }
    {
        Block {
            kind: Kind::Handed(bytes),
        }
    }

    /// Writes these bytes behind those that are there.
    pub(crate) fn append(&mut self, bytes: &[u8])
        requires some { 0 < length bytes.now }
        requires fits { length bytes.now ≤ self.old.room }
        ensures { self.new ≡ filled_behind self.old bytes.now }
    {
        match &mut self.kind {
            Kind::Written(block) => block.append(bytes),
            Kind::Handed(_) => unreachable!(),
        }
    }

    /// The bytes.
    pub(crate) fn as_slice(&self) -> &[u8]
        ensures { result.now ≡ self.now.bytes }
    {
        match &self.kind {
            Kind::Written(block) => block.as_slice(),
            Kind::Handed(bytes) => bytes,
        }
    }

    /// How many bytes it holds.
    pub(crate) fn len(&self) -> usize
        ensures { result ≡ length self.now.bytes }
    {
        match &self.kind {
            Kind::Written(block) => block.len(),
            Kind::Handed(bytes) => bytes.len(),
        }
    }

    /// How many bytes more it takes.
    pub(crate) fn room(&self) -> usize
        ensures room { result ≡ self.now.room }
        ensures limit { result ≤ BLOCK_SIZE }
    {
        match &self.kind {
            Kind::Written(block) => BLOCK_SIZE - block.len(),
            Kind::Handed(_) => 0,
        }
    }
}
