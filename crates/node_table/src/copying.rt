//! A table that is made of another one, node for node.

ghost use Rattle.std.specs.Prelude.{◌≡◌, ◌⊎◌, ◌<◌, ◌≤◌, length, map, IfOk, IsOk, IsErr};
ghost use Rattle.function_leaf.specs.Coded.{coded_byte};
ghost use Rattle.leaf_buffer.specs.declared.pool.TheConstants.{POOL_LIMIT};
ghost use Rattle.rope_node.specs.declared.limits.TheConstants.{MOST_NODES, MOST_SOURCES};
ghost use Rattle.rope_node.specs.Table.{view_at, IsSound, HasTrueRecords};
ghost use Rattle.node_table.specs.declared.node_table.TheConstants.{FEW_SOURCES};
ghost use Rattle.node_table.specs.Copies.{CopiesFirst, IsCopyOf, TakesMemory, copied_record, function_in};
ghost use Rattle.node_table.specs.Entries.{record_of};
ghost use Rattle.node_table.specs.Held.{IsKept};
ghost use Rattle.node_table.specs.Lefts.{KeepLefts};

use crate::blocks::Blocks;
use crate::entry::Entry;
use crate::new_nodes::put_one;
use crate::node_table::{Lengths, NodeTable};
use crate::record::Record;
use function_leaf::Coded;
use leaf_buffer::Pool;
use rope_node::{CodedSpace, NodeId, NodeSpace, NodeView};
use smallvec::SmallVec;
use std::alloc::{AllocError, Global};

/// The bytes of the pool.
fn pool_bytes<S: NodeSpace>(alloc: Global, space: &S) -> Result<Vec<u8>, AllocError>
    ensures bytes { IfOk result (λ bytes. bytes.items ≡ (S.table space.now).pool) }
    ensures limit { length (S.table space.now).pool < POOL_LIMIT }
    ensures memory { IsErr result → 0 < length (S.table space.now).pool }
{
    let len = space.pool_len();
    let mut bytes = Vec::with_capacity(alloc, len as usize)?;
    while (bytes.len() as u64) < len {
        bytes.extend_from_slice(space.pool(bytes.len() as u64))?;
    }
    Ok(bytes)
}

/// The lengths of the sources.
fn source_lengths<S: NodeSpace>(alloc: Global, space: &S) -> Result<Lengths, AllocError>
    ensures lengths { IfOk result (λ lengths. lengths.items ≡ (S.table space.now).sources) }
    ensures room { IfOk result (λ lengths. FEW_SOURCES ≤ lengths.capacity) }
    ensures few { length (S.table space.now).sources ≤ FEW_SOURCES → IsOk result }
{
    let mut lengths = SmallVec::new(alloc);
    for s in 0..space.source_count() {
        lengths.push(space.source_len(s))?;
    }
    Ok(lengths)
}

/// The function of a node, where it is a function's.
fn function_of<S: CodedSpace>(space: &S, id: NodeId, view: NodeView) -> Option<Coded>
    requires there { id.0 < length (S.NodeSpace.table space.now).nodes }
    requires view { view ≡ view_at (S.NodeSpace.table space.now) id.0 }
    ensures { result ≡ function_in (S.coded space.now id.0) view }
{
    match view {
        NodeView::Fun => Some(space.coded(id)),
        NodeView::Lit { .. } | NodeView::Src { .. } | NodeView::Cat { .. } | NodeView::Sub { .. } =>
            None,
    }
}

/// What the space says of a node.
fn record_at<S: CodedSpace>(space: &S, id: NodeId) -> Record<Coded>
    requires { id.0 < length (S.NodeSpace.table space.now).nodes }
    ensures record { result ≡ copied_record (S.NodeSpace.table space.now) (S.coded space.now) id.0 }
    ensures sound { IsSound (S.NodeSpace.table space.now) }
    ensures true_records { HasTrueRecords (S.NodeSpace.table space.now) }
{
    let view = space.node(id);
    Record {
        view,
        len: space.len(id),
        depth: space.depth(id),
        function: function_of(space, id, view),
    }
}

/// The nodes, one by one.
fn entries_of<S: CodedSpace>(alloc: Global, space: &S) -> Result<Blocks<Entry<Coded>>, AllocError>
    requires { length (S.NodeSpace.table space.now).nodes ≤ MOST_NODES }
    ensures copied { IfOk result (λ entries. CopiesFirst (S.NodeSpace.table space.now) (S.coded space.now)
        (length (S.NodeSpace.table space.now).nodes) (map record_of entries.items)) }
    ensures lefts { IfOk result (λ entries. KeepLefts entries.items) }
    ensures memory { IsErr result → 0 < length (S.NodeSpace.table space.now).nodes }
{
    let mut entries = Blocks::new(alloc);
    for id in 0..space.count() {
        entries.reserve(1)?;
        put_one(&mut entries, record_at(space, NodeId(id)));
    }
    Ok(entries)
}

impl NodeTable<Coded> {
    /// What this space has: its nodes, its pool in one block that takes no more, and its sources.
    ///
    /// # Errors
    ///
    /// `AllocError` where memory was refused. Without nodes and bytes in the pool, few sources want none.
    pub fn copied<S: CodedSpace>(alloc: Global, space: &S) -> Result<NodeTable<Coded>, AllocError>
        requires nodes { length (S.NodeSpace.table space.now).nodes ≤ MOST_NODES }
        requires sources { length (S.NodeSpace.table space.now).sources ≤ MOST_SOURCES }
        ensures copied { IfOk result (IsCopyOf (S.NodeSpace.table space.now) (S.coded space.now)) }
        ensures kept { IfOk result (IsKept coded_byte) }
        ensures memory { IsErr result → TakesMemory (S.NodeSpace.table space.now) }
    {
        let bytes = pool_bytes(alloc, space)?;
        let pool = Pool::holding(alloc, bytes)?;
        let sources = source_lengths(alloc, space)?;
        let entries = entries_of(alloc, space)?;
        // The table that is copied is sound, as its count says.
        let _count = space.count();
        Ok(NodeTable {
            entries,
            pool,
            sources,
        })
    }
}
