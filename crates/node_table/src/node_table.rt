//! The table.

ghost use Rattle.std.specs.Prelude.{◌≡◌, ◌↔◌, ◌+◌, ◌<◌, ◌≤◌, [], length, get_or, None, IsTrue, OnOk, OnErr, IfErr};
ghost use Rattle.leaf_buffer.specs.Contents.{appended, extended, CanExtend, KeepsPieces, LastBlockTakes};
ghost use Rattle.rope_node.specs.Table.{no_node};
ghost use Rattle.node_table.specs.Entries.{record_of, stored_function};
ghost use Rattle.node_table.specs.Held.{Held, held_of, node_of, CanHold, IsKept};
ghost use Rattle.node_table.specs.Lefts.{KeepsLeft};
ghost use Rattle.node_table.specs.NodeLists.{listed};
ghost use Rattle.node_table.specs.Puts.{AddsSource, Puts, PutsGrown};

use crate::blocks::Blocks;
use crate::entry::Entry;
use crate::fault::NodeFault;
use crate::new_nodes::{NewNodes, put_behind};
use function_leaf::LeafFn;
use leaf_buffer::{BLOCK_SIZE, POOL_LIMIT, Piece, Pool};
use rope_node::{MOST_NODES, MOST_SOURCES, NodeId, Rope, TEXT_LIMIT};
use smallvec::SmallVec;
use std::alloc::Global;
use std::marker::Model;

/// So many sources want no memory.
pub const FEW_SOURCES: usize = 8;

/// The lengths of sources.
pub(crate) type Lengths = SmallVec<u64, 8>;

/// A sound table of nodes with true records. Nodes are put behind the others and never change.
#[derive(Drop)]
pub struct NodeTable<F: LeafFn> {
    pub(crate) entries: Blocks<Entry<F>>,
    pub(crate) pool: Pool,
    pub(crate) sources: Lengths,
}

impl<F: LeafFn> Model for NodeTable<F> {
    ghost use Rattle.std.specs.Prelude.{◌≤◌, map};
    ghost use Rattle.node_table.specs.Entries.{record_of};
    ghost use Rattle.node_table.specs.Held.{Held, held_of, IsKept};
    ghost use Rattle.node_table.specs.Lefts.{KeepLefts};
    ghost use Rattle.node_table.specs.declared.node_table.TheConstants.{FEW_SOURCES};

    ghost Value = { Held F };

    ghost view = { λ a. held_of (map record_of a.entries.items) a.pool a.sources.items };

    ghost invariant = { λ a. IsKept F.meaning (held_of (map record_of a.entries.items) a.pool a.sources.items)
        × KeepLefts a.entries.items × (FEW_SOURCES ≤ a.sources.capacity) };
}

/// Puts these bytes at the pool's end, in one block.
fn append(pool: &mut Pool, bytes: &[u8]) -> Result<(), NodeFault>
    requires short { length bytes.now ≤ BLOCK_SIZE }
    requires limit { length pool.old.bytes + length bytes.now < POOL_LIMIT }
    ensures ok { OnOk result (pool.new ≡ appended pool.old bytes.now) }
    ensures faults { IfErr result (λ e. e ≡ NodeFault.Memory) }
    ensures err { OnErr result (pool.new ≡ pool.old) }
    ensures keeps { KeepsPieces pool.old pool.new }
{
    if !bytes.is_empty() {
        pool.put(bytes)?;
    }
    Ok(())
}

impl<F: LeafFn> NodeTable<F> {
    /// No nodes, no sources and an empty pool. It takes no memory.
    pub fn new(alloc: Global) -> NodeTable<F>
        ensures { result ≡ held_of [] (record { bytes = []; borders = []; room = 0 }) [] }
    {
        NodeTable {
            entries: Blocks::new(alloc),
            pool: Pool::new(alloc),
            sources: SmallVec::new(alloc),
        }
    }

    /// Adds a source of `len` bytes, and answers its number.
    ///
    /// # Errors
    ///
    /// `TooManySources` where there are 255, `TooLong` for 2^40 bytes or more, `Memory` only behind `FEW_SOURCES`
    /// others. The table is then as before.
    pub fn add_source(&mut self, len: u64) -> Result<u8, NodeFault>
        ensures { AddsSource F.meaning self.old len result self.new }
    {
        let number = self.sources.len();
        if number >= MOST_SOURCES as usize {
            return Err(NodeFault::TooManySources);
        }
        if len >= TEXT_LIMIT {
            return Err(NodeFault::TooLong);
        }
        if self.sources.push(len).is_err() {
            return Err(NodeFault::Memory);
        }
        Ok(number as u8)
    }

    /// Whether this piece of the pool can grow in place by `count`
    /// bytes: it ends at the pool's end, and its block takes them.
    pub fn can_grow(&self, piece: Piece, count: usize) -> bool
        ensures { IsTrue result ↔ CanExtend self.now.pool piece count }
    {
        self.pool.can_extend(piece, count)
    }

    /// What is stored of a node of the table.
    pub(crate) fn entry(&self, id: NodeId) -> &Entry<F>
        requires { id.0 < length self.now.nodes }
        ensures node { get_or self.now.nodes id.0 no_node ≡ node_of (record_of result.now) }
        ensures function { get_or self.now.functions id.0 None ≡ stored_function result.now.kind }
        ensures left { KeepsLeft self.now.nodes result.now.kind }
        ensures held { IsKept F.meaning self.now }
    {
        self.entries.at(id.0 as usize)
    }

    /// Whether the table takes `count` nodes more.
    fn has_room(&self, count: u32) -> bool
        ensures { IsTrue result ↔ (length self.now.nodes + count ≤ MOST_NODES) }
    {
        count <= MOST_NODES - self.entries.len()
    }

    /// Whether the pool takes `count` bytes more.
    fn has_pool_room(&self, count: usize) -> bool
        ensures { IsTrue result ↔ (length self.now.pool.bytes + count < POOL_LIMIT) }
    {
        (count as u64) < POOL_LIMIT - self.pool.len()
    }

    /// Puts these bytes at the pool's end, in one block, and these nodes
    /// behind the others, and answers the last of them: all of it or nothing.
    ///
    /// # Errors
    ///
    /// `TableFull`, then `PoolFull`, then `Memory`.
    #[inline(always)]
    pub fn put(&mut self, bytes: &[u8], nodes: NewNodes<F>) -> Result<Rope, NodeFault>
        requires short { length bytes.now ≤ BLOCK_SIZE }
        requires nodes { CanHold F.meaning self.old (appended self.old.pool bytes.now) (listed nodes) }
        ensures { Puts F.meaning self.old bytes.now (listed nodes) result self.new }
    {
        let first = self.entries.len();
        let count = nodes.count();
        if !self.has_room(count) {
            return Err(NodeFault::TableFull);
        }
        if !self.has_pool_room(bytes.len()) {
            return Err(NodeFault::PoolFull);
        }
        self.entries.reserve(count as usize)?;
        append(&mut self.pool, bytes)?;
        put_behind(&mut self.entries, nodes);
        Ok(Some(NodeId(first + (count - 1))))
    }

    /// Lets the pool's last piece grow in place by these bytes, puts these nodes behind the others, and answers the
    /// last of them: all of it or nothing. The nodes that were there keep their texts.
    ///
    /// # Errors
    ///
    /// `TableFull`, then `Memory`.
    #[inline(always)]
    pub fn put_grown(&mut self, bytes: &[u8], nodes: NewNodes<F>) -> Result<Rope, NodeFault>
        requires takes { LastBlockTakes self.old.pool (length bytes.now) }
        requires nodes { CanHold F.meaning self.old (extended self.old.pool bytes.now) (listed nodes) }
        ensures { PutsGrown F.meaning self.old bytes.now (listed nodes) result self.new }
    {
        let first = self.entries.len();
        let count = nodes.count();
        if !self.has_room(count) {
            return Err(NodeFault::TableFull);
        }
        self.entries.reserve(count as usize)?;
        self.pool.extend(bytes);
        put_behind(&mut self.entries, nodes);
        Ok(Some(NodeId(first + (count - 1))))
    }
}
