//! A list that only grows, in blocks.

ghost use Rattle.std.specs.Prelude.{◌≡◌, ◌+◌, ◌<◌, ◌≤◌, ◌++◌, ◌∷◌, [], length, get_or, ◌^◌, IfOk, OnErr, IsErr};

use crate::block::{Block, ITEMS_IN_BLOCK};
use std::alloc::{AllocError, Global};
use std::marker::Model;

/// A list whose items stay where they are: as it grows, only the short vector of its blocks is copied.
#[derive(Drop)]
pub(crate) struct Blocks<T: Copy> {
    alloc: Global,
    blocks: Vec<Block<T>>,
    /// How many items there are.
    len: u32,
}

impl<T: Copy> Model for Blocks<T> {
    ghost use Rattle.node_table.specs.Blocks.{block_contents, BlockContents, HasBlocks};

    ghost Value = { BlockContents T };

    ghost view = { λ a. block_contents a.blocks.items };

    ghost invariant = { λ a. HasBlocks a.blocks.items a.len };
}

impl<T: Copy> Blocks<T> {
    /// No items. It takes no memory.
    pub(crate) fn new(alloc: Global) -> Blocks<T>
        ensures { result ≡ record { items = []; room = 0 } }
    {
        Blocks {
            alloc,
            blocks: Vec::new(alloc),
            len: 0,
        }
    }

    /// How many items there are.
    pub(crate) fn len(&self) -> u32
        ensures { result ≡ length self.now.items }
    {
        self.len
    }

    /// The item at place `i`.
    pub(crate) fn at(&self, i: usize) -> &T
        requires { i < length self.now.items }
        ensures { result.now ≡ get_or self.now.items i result.now }
    {
        self.blocks[i / ITEMS_IN_BLOCK].at(i % ITEMS_IN_BLOCK)
    }

    /// Makes room for `count` items more. Where there is room it takes no memory.
    ///
    /// # Errors
    ///
    /// `AllocError` where no memory was given for a new block. Everything is then as before.
    pub(crate) fn reserve(&mut self, count: usize) -> Result<(), AllocError>
        requires some { 1 ≤ count }
        requires few { count ≤ ITEMS_IN_BLOCK }
        ensures items { self.new.items ≡ self.old.items }
        ensures room { IfOk result (λ _. count ≤ self.new.room) }
        ensures memory { IsErr result → self.old.room < count }
        ensures within { count ≤ self.old.room → self.new ≡ self.old }
        ensures err { OnErr result (self.new ≡ self.old) }
    {
        let last = (self.len as usize + (count - 1)) / ITEMS_IN_BLOCK;
        if last >= self.blocks.len() {
            let block = Block::new(self.alloc)?;
            self.blocks.push(block)?;
        }
        Ok(())
    }

    /// Puts an item behind the others, where there is room for it. It takes no memory.
    pub(crate) fn push(&mut self, item: T)
        requires room { 1 ≤ self.old.room }
        requires limit { length self.old.items + 1 < 2 ^ 32 }
        ensures items { self.new.items ≡ self.old.items ++ item ∷ [] }
        ensures room { self.old.room ≡ self.new.room + 1 }
    {
        let last = self.len as usize / ITEMS_IN_BLOCK;
        self.blocks[last].push(item);
        self.len += 1;
    }
}
