//! A block: room for items that is taken once, filled from the front and never moved.

ghost use Rattle.std.specs.Prelude.{◌≡◌, ◌<◌, ◌++◌, ◌∷◌, [], length, get_or, IfOk};

use std::alloc::{AllocError, Global};
use std::marker::Model;

/// How many items a block takes.
pub(crate) const ITEMS_IN_BLOCK: usize = 4_096;

/// A block, seen as the items that were put into it.
#[derive(Drop)]
pub(crate) struct Block<T: Copy> {
    items: Vec<T>,
}

impl<T: Copy> Model for Block<T> {
    ghost use Rattle.std.specs.Prelude.{List, ◌≤◌, vec_len, vec_capacity};
    ghost use Rattle.node_table.specs.declared.block.TheConstants.{ITEMS_IN_BLOCK};

    ghost Value = { List T };

    ghost view = { λ b. b.items.items };

    ghost invariant = { λ b. (vec_len b.items ≤ ITEMS_IN_BLOCK) × (ITEMS_IN_BLOCK ≤ vec_capacity b.items) };
}

impl<T: Copy> Block<T> {
    /// A block that holds nothing yet.
    pub(crate) fn new(alloc: Global) -> Result<Block<T>, AllocError>
        ensures { IfOk result (λ block. block ≡ []) }
    {
        let items = Vec::with_capacity(alloc, ITEMS_IN_BLOCK)?;
        Ok(Block { items })
    }

    /// Puts an item behind those that are there. It takes no memory.
    pub(crate) fn push(&mut self, item: T)
        requires { length self.old < ITEMS_IN_BLOCK }
        ensures { self.new ≡ self.old ++ item ∷ [] }
    {
        let done = self.items.push(item);
        prove!(done.is_ok());
    }

    /// Its item at place `i`.
    pub(crate) fn at(&self, i: usize) -> &T
        requires { i < length self.now }
        ensures { result.now ≡ get_or self.now i result.now }
    {
        &self.items[i]
    }
}
