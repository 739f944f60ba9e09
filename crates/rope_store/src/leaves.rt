//! Texts of one leaf.

ghost use Rattle.function_leaf.specs.Coded.{coded_byte};
ghost use Rattle.function_leaf.specs.declared.coded.Coded.TheVariants.{Fill};
ghost use Rattle.rope_store.specs.Calls.{MakesBytes, MakesFunction, MakesSource};

use crate::store::Store;
use function_leaf::{Coded, LeafFn};
use leaf_buffer::BLOCK_SIZE;
use node_table::{NewNodes, NodeFault, Record};
use rope_node::{NodeSpace, Rope, TEXT_LIMIT};

impl<F: LeafFn> Store<F> {
    /// The text of these bytes: nil for none of them, else one literal.
    ///
    /// # Errors
    ///
    /// `TooLong` for more than 65,536 bytes, `TableFull`, `PoolFull`, `Memory`. The store is then as before.
    pub fn from_bytes(&mut self, bytes: &[u8]) -> Result<Rope, NodeFault>
        ensures { MakesBytes F.meaning self.old bytes.now result self.new }
    {
        let (start, count) = (self.table.pool_len(), bytes.len());
        if count == 0 {
            return Ok(None);
        }
        if count > BLOCK_SIZE {
            return Err(NodeFault::TooLong);
        }
        self.make(bytes, NewNodes::One(Record::literal(start, count as u64)))
    }

    /// The text of the function's bytes at 0 to `n - 1`: nil for no bytes, else one function leaf.
    ///
    /// # Errors
    ///
    /// `TooLong` for 2^40 bytes or more, `TableFull`, `Memory`. The store is then as before.
    pub fn from_fn(&mut self, f: F, n: u64) -> Result<Rope, NodeFault>
        ensures { MakesFunction F.meaning self.old f n result self.new }
    {
        // The table keeps its rules, as a look at it says.
        let _kept = &self.table;
        if n == 0 {
            return Ok(None);
        }
        if n >= TEXT_LIMIT {
            return Err(NodeFault::TooLong);
        }
        self.make(&[], NewNodes::One(Record::function(f, n)))
    }

    /// The `n` bytes of source `s` from place `a` on: nil for no bytes, else one source leaf.
    ///
    /// # Errors
    ///
    /// `BadSpan` where there is no such source or the span is not
    /// inside it, `TableFull`, `Memory`. The store is then as before.
    pub fn from_source(&mut self, s: u32, a: u64, n: u64) -> Result<Rope, NodeFault>
        ensures { MakesSource F.meaning self.old s a n result self.new }
    {
        if s >= self.table.source_count() {
            return Err(NodeFault::BadSpan);
        }
        let len = self.table.source_len(s);
        if a > len || n > len - a {
            return Err(NodeFault::BadSpan);
        }
        if n == 0 {
            return Ok(None);
        }
        self.make(&[], NewNodes::One(Record::source(s, a, n)))
    }
}

impl Store<Coded> {
    /// The byte `c`, `n` times: nil for none, else one function leaf.
    ///
    /// # Errors
    ///
    /// `TooLong` for 2^40 bytes or more, `TableFull`, `Memory`. The store is then as before.
    pub fn chars(&mut self, c: u8, n: u64) -> Result<Rope, NodeFault>
        ensures { MakesFunction coded_byte self.old (Fill c) n result self.new }
    {
        self.from_fn(Coded::fill(c), n)
    }
}
