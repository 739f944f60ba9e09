//! A store that is made of another table, node for node.

ghost use Rattle.std.specs.Prelude.{◌≤◌, length, IfOk, IsErr};
ghost use Rattle.rope_node.specs.declared.limits.TheConstants.{MOST_NODES, MOST_SOURCES};
ghost use Rattle.node_table.specs.Copies.{IsCopyOf, TakesMemory};

use crate::store::Store;
use function_leaf::Coded;
use node_table::NodeTable;
use rope_node::{CodedSpace, NodeSpace};
use std::alloc::{AllocError, Global};

impl Store<Coded> {
    /// What this table has: its nodes, its pool in one block that takes no more, and its sources.
    ///
    /// # Errors
    ///
    /// `AllocError` where memory was refused. Without nodes and bytes in the pool, few sources want none.
    pub fn copied<S: CodedSpace>(alloc: Global, space: &S) -> Result<Store<Coded>, AllocError>
        requires nodes { length (S.NodeSpace.table space.now).nodes ≤ MOST_NODES }
        requires sources { length (S.NodeSpace.table space.now).sources ≤ MOST_SOURCES }
        ensures copied { IfOk result (IsCopyOf (S.NodeSpace.table space.now) (S.coded space.now)) }
        ensures memory { IsErr result → TakesMemory (S.NodeSpace.table space.now) }
    {
        let table = NodeTable::copied(alloc, space)?;
        Ok(Store { table })
    }
}
