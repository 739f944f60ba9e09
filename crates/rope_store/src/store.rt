//! The store.

ghost use Rattle.std.specs.Prelude.{◌≡◌, ◌↔◌, ◌<◌, ◌≤◌, [], length, IsTrue};
ghost use Rattle.leaf_buffer.specs.Contents.{appended, extended, LastBlockTakes};
ghost use Rattle.rope_node.specs.Denotes.{rope_len, rope_depth, IsRope};
ghost use Rattle.node_table.specs.Held.{Held, held_of, table_of, CanHold};
ghost use Rattle.node_table.specs.NodeLists.{listed};
ghost use Rattle.node_table.specs.Puts.{AddsSource, Puts, PutsGrown};

use function_leaf::LeafFn;
use leaf_buffer::BLOCK_SIZE;
use node_table::{NewNodes, NodeFault, NodeTable};
use rope_node::{MOST_DEPTH, NodeSpace, Rope, TEXT_LIMIT};
use std::alloc::Global;
use std::marker::Model;

/// A store of ropes. Its nodes, bytes and sources only grow, so a rope denotes the same text for good.
// What a store keeps is known to the check where a field of it is
// read. A method that reads none names the table for that, as `_kept`.
#[derive(Drop)]
pub struct Store<F: LeafFn> {
    pub(crate) table: NodeTable<F>,
}

impl<F: LeafFn> Model for Store<F> {
    ghost use Rattle.node_table.specs.Held.{Held, IsKept};

    ghost Value = { Held F };

    ghost view = { λ a. a.table };

    ghost invariant = { λ a. IsKept F.meaning a.table };
}

impl<F: LeafFn> Store<F> {
    /// A store with no nodes and no sources. It takes no memory.
    pub fn new(alloc: Global) -> Store<F>
        ensures { result ≡ held_of [] (record { bytes = []; borders = []; room = 0 }) [] }
    {
        Store {
            table: NodeTable::new(alloc),
        }
    }

    /// Adds a source of `len` bytes, and answers its number.
    ///
    /// # Errors
    ///
    /// `TooManySources` where there are 255, `TooLong` for 2^40 bytes or more, `Memory`. The store is then as before.
    pub fn add_source(&mut self, len: u64) -> Result<u8, NodeFault>
        ensures { AddsSource F.meaning self.old len result self.new }
    {
        self.table.add_source(len)
    }

    /// Whether this is a rope of the store: nil, or a number below the count of nodes.
    pub fn has(&self, rope: Rope) -> bool
        ensures { IsTrue result ↔ IsRope (table_of F.meaning self.now) rope }
    {
        match rope {
            None => true,
            Some(node) => node.0 < self.table.count(),
        }
    }

    /// The length of a rope in bytes, 0 for nil.
    pub fn len(&self, rope: Rope) -> u64
        requires { IsRope (table_of F.meaning self.now) rope }
        ensures exact { result ≡ rope_len (table_of F.meaning self.now) rope }
        ensures limit { result < TEXT_LIMIT }
    {
        match rope {
            None => 0,
            Some(node) => self.table.len(node),
        }
    }

    /// The depth of a rope, 0 for nil.
    pub fn depth(&self, rope: Rope) -> u8
        requires { IsRope (table_of F.meaning self.now) rope }
        ensures exact { result ≡ rope_depth (table_of F.meaning self.now) rope }
        ensures limit { result ≤ MOST_DEPTH }
    {
        match rope {
            None => 0,
            Some(node) => self.table.depth(node),
        }
    }

    /// Puts these bytes at the pool's end and these nodes behind the others, and answers the last of them.
    #[inline(always)]
    pub(crate) fn make(&mut self, bytes: &[u8], nodes: NewNodes<F>) -> Result<Rope, NodeFault>
        requires short { length bytes.now ≤ BLOCK_SIZE }
        requires nodes { CanHold F.meaning self.old (appended self.old.pool bytes.now) (listed nodes) }
        ensures { Puts F.meaning self.old bytes.now (listed nodes) result self.new }
    {
        self.table.put(bytes, nodes)
    }

    /// Lets the pool's last piece grow in place by these bytes, puts
    /// these nodes behind the others, and answers the last of them.
    #[inline(always)]
    pub(crate) fn make_grown(&mut self, bytes: &[u8], nodes: NewNodes<F>) -> Result<Rope, NodeFault>
        requires takes { LastBlockTakes self.old.pool (length bytes.now) }
        requires nodes { CanHold F.meaning self.old (extended self.old.pool bytes.now) (listed nodes) }
        ensures { PutsGrown F.meaning self.old bytes.now (listed nodes) result self.new }
    {
        self.table.put_grown(bytes, nodes)
    }
}
