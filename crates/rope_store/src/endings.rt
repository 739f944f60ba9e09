//! Literals at the end of texts.

ghost use Rattle.std.specs.Prelude.{◌≡◌, ◌<◌, length, IfSome};
ghost use Rattle.rope_node.specs.Table.{IsLiteral, view_at};
ghost use Rattle.node_table.specs.Held.{table_of};
ghost use Rattle.rope_store.specs.Joining.{ending_of, ending_taking, ending_with, IsShortEnding, TakesLiteral};

use crate::store::Store;
use function_leaf::LeafFn;
use rope_node::{NodeId, NodeSpace, NodeView, Rope, TEXT_LIMIT};

/// The most bytes in a literal that two make.
pub const MOST_MERGED: usize = 31;

/// The literal that a text ends with, and what stands before it.
#[derive(Clone, Copy)]
pub(crate) struct Ending {
    pub(crate) before: Rope,
    pub(crate) literal: NodeId,
}

impl<F: LeafFn> Store<F> {
    /// The literal that a node is, or its right child.
    pub(crate) fn ending(&self, x: NodeId) -> Option<Ending>
        requires { x.0 < length self.now.nodes }
        ensures { result ≡ ending_of (table_of F.meaning self.now) x }
    {
        match self.table.node(x) {
            NodeView::Lit { .. } => Some(Ending {
                before: None,
                literal: x,
            }),
            NodeView::Cat { l, r } => match self.table.node(r) {
                NodeView::Lit { .. } => Some(Ending {
                    before: Some(l),
                    literal: r,
                }),
                NodeView::Src { .. }
                | NodeView::Fun
                | NodeView::Cat { .. }
                | NodeView::Sub { .. } => None,
            },
            NodeView::Src { .. } | NodeView::Fun | NodeView::Sub { .. } => None,
        }
    }

    /// The ending of a node, where it stays short with `count` bytes more.
    pub(crate) fn short_ending(&self, x: NodeId, count: u64) -> Option<Ending>
        requires there { x.0 < length self.now.nodes }
        requires count { count < TEXT_LIMIT }
        ensures exact { result ≡ ending_with (table_of F.meaning self.now) x count }
        ensures sound { IfSome result (IsShortEnding (table_of F.meaning self.now) x count) }
    {
        // The table keeps its rules, as a look at it says.
        let _kept = &self.table;
        match self.ending(x) {
            Some(ending) => {
                if self.table.len(ending.literal) + count <= MOST_MERGED as u64 {
                    Some(ending)
                } else {
                    None
                }
            }
            None => None,
        }
    }

    /// The ending of `l` that takes the bytes of `r`, where that is a literal and both stay short.
    pub(crate) fn ending_for(&self, l: NodeId, r: NodeId) -> Option<Ending>
        requires left { l.0 < length self.now.nodes }
        requires right { r.0 < length self.now.nodes }
        ensures exact { result ≡ ending_taking (table_of F.meaning self.now) l r }
        ensures sound { IfSome result (TakesLiteral (table_of F.meaning self.now) l r) }
        ensures literal { IfSome result (λ e. IsLiteral (view_at (table_of F.meaning self.now) r.0)) }
    {
        match self.table.node(r) {
            NodeView::Lit { .. } => self.short_ending(l, self.table.len(r)),
            NodeView::Src { .. } | NodeView::Fun | NodeView::Cat { .. } | NodeView::Sub { .. } =>
                None,
        }
    }
}
