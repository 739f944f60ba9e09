//! The table as a space of nodes.

use crate::entry::EntryKind;
use crate::node_table::NodeTable;
use function_leaf::{Coded, LeafFn};
use leaf_buffer::Piece;
use rope_node::{CodedSpace, NodeId, NodeSpace, NodeView};

impl<F: LeafFn> NodeSpace for NodeTable<F> {
    ghost use Rattle.node_table.specs.Held.{table_of};

    ghost table = { λ h. table_of F.meaning h };

    fn count(&self) -> u32 {
        self.entries.len()
    }

    fn node(&self, id: NodeId) -> NodeView {
        self.entry(id).view()
    }

    fn len(&self, id: NodeId) -> u64 {
        self.entry(id).len
    }

    fn left_len(&self, id: NodeId, _: NodeId) -> u64 {
        match self.entry(id).kind {
            EntryKind::Concatenation { left, .. } => left,
            _ => unreachable!(),
        }
    }

    fn depth(&self, id: NodeId) -> u8 {
        self.entry(id).depth()
    }

    fn literal(&self, id: NodeId, off: u64) -> &[u8] {
        let entry = self.entry(id);
        match entry.kind {
            EntryKind::Literal { a } => {
                let piece = Piece {
                    start: a as u32,
                    len: entry.len as u32,
                };
                match self.pool.get(piece) {
                    Some(bytes) => &bytes[off as usize..],
                    None => unreachable!(),
                }
            }
            _ => unreachable!(),
        }
    }

    fn fun_byte(&self, id: NodeId, i: u64) -> u8 {
        match self.entry(id).kind {
            EntryKind::Function(function) => function.byte(i),
            _ => unreachable!(),
        }
    }

    fn period(&self, id: NodeId) -> Option<u64> {
        match self.entry(id).kind {
            EntryKind::Function(function) => function.period(),
            _ => unreachable!(),
        }
    }

    fn source_count(&self) -> u32 {
        self.sources.len() as u32
    }

    fn source_len(&self, s: u32) -> u64 {
        self.sources[s as usize]
    }

    fn pool_len(&self) -> u64 {
        self.pool.len()
    }

    fn pool(&self, a: u64) -> &[u8] {
        self.pool.rest_of_block(a as u32)
    }
}

impl CodedSpace for NodeTable<Coded> {
    ghost use Rattle.node_table.specs.Held.{held_coded};
    ghost use Rattle.std.specs.Prelude.{get_or, None};
    ghost use Rattle.rope_node.specs.Coded.{answers_as_filled};

    ghost coded = { held_coded };

    ghost answered = { λ h id. answers_as_filled (get_or h.functions id None) };

    fn coded(&self, id: NodeId) -> Coded {
        match self.entry(id).kind {
            EntryKind::Function(function) => function,
            _ => unreachable!(),
        }
    }
}
