//! The store as a space of nodes.

use crate::store::Store;
use function_leaf::{Coded, LeafFn};
use rope_node::{CodedSpace, NodeId, NodeSpace, NodeView};

impl<F: LeafFn> NodeSpace for Store<F> {
    ghost use Rattle.std.specs.Prelude.{◌≡◌, length};
    ghost use Rattle.rope_node.specs.Table.{IsSound, HasTrueRecords};
    ghost use Rattle.node_table.specs.Held.{table_of, IsKept};

    ghost table = { λ h. table_of F.meaning h };

    fn count(&self) -> u32
        ensures count { result ≡ length self.now.nodes }
        ensures sound { IsSound (table_of F.meaning self.now) }
        ensures true_records { HasTrueRecords (table_of F.meaning self.now) }
        ensures kept { IsKept F.meaning self.now }
    {
        self.table.count()
    }

    fn node(&self, id: NodeId) -> NodeView {
        self.table.node(id)
    }

    fn len(&self, id: NodeId) -> u64 {
        self.table.len(id)
    }

    fn left_len(&self, id: NodeId, l: NodeId) -> u64 {
        self.table.left_len(id, l)
    }

    fn depth(&self, id: NodeId) -> u8 {
        self.table.depth(id)
    }

    fn literal(&self, id: NodeId, off: u64) -> &[u8] {
        self.table.literal(id, off)
    }

    fn fun_byte(&self, id: NodeId, i: u64) -> u8 {
        self.table.fun_byte(id, i)
    }

    fn period(&self, id: NodeId) -> Option<u64> {
        self.table.period(id)
    }

    fn source_count(&self) -> u32 {
        self.table.source_count()
    }

    fn source_len(&self, s: u32) -> u64 {
        self.table.source_len(s)
    }

    fn pool_len(&self) -> u64 {
        self.table.pool_len()
    }

    fn pool(&self, a: u64) -> &[u8] {
        self.table.pool(a)
    }
}

impl CodedSpace for Store<Coded> {
    ghost use Rattle.node_table.specs.Held.{held_coded};
    ghost use Rattle.std.specs.Prelude.{get_or, None};
    ghost use Rattle.rope_node.specs.Coded.{answers_as_filled};

    ghost coded = { held_coded };

    ghost answered = { λ h id. answers_as_filled (get_or h.functions id None) };

    fn coded(&self, id: NodeId) -> Coded {
        self.table.coded(id)
    }
}
