//! One node as a table stores it.

ghost use Rattle.std.specs.Prelude.{◌≡◌, ◌∷◌, [], length};
ghost use Rattle.node_table.specs.Entries.{record_of, stored_view, stored_depth, stored_function, IsStorable};
ghost use Rattle.node_table.specs.Lefts.{nodes_in, HaveLeftsBefore, KeepsLeft};

use crate::blocks::Blocks;
use crate::record::Record;
use function_leaf::{Coded, LeafFn};
use rope_node::{NodeId, NodeView};

/// What a node is, with the function of one that is a function, and with the depth of one that is no leaf.
#[derive(Clone, Copy)]
pub(crate) enum EntryKind<F: LeafFn> {
    Literal {
        a: u64,
    },
    Source {
        s: u32,
        a: u64,
    },
    Function(F),
    /// With the length of `l`, so that a way down need not ask that node for it.
    Concatenation {
        l: NodeId,
        depth: u8,
        r: NodeId,
        left: u64,
    },
    Part {
        b: NodeId,
        depth: u8,
        i: u64,
    },
}

/// A node's record in less space.
#[derive(Clone, Copy)]
pub(crate) struct Entry<F: LeafFn> {
    pub(crate) kind: EntryKind<F>,
    /// The length in bytes.
    pub(crate) len: u64,
}

// A table of coded functions takes 32 bytes for a node.
const _: () = prove!(size_of::<Entry<Coded>>() <= 32);

/// What is stored of this node behind these entries, which tell how long the left part of a concatenation is.
#[inline(always)]
fn kind_of<F: LeafFn>(entries: &Blocks<Entry<F>>, node: Record<F>) -> EntryKind<F>
    requires storable { IsStorable node }
    requires before { HaveLeftsBefore (length entries.now.items) (node ∷ []) }
    ensures view { stored_view result ≡ node.view }
    ensures depth { stored_depth result ≡ node.depth }
    ensures function { stored_function result ≡ node.function }
    ensures left { KeepsLeft (nodes_in entries.now.items) result }
{
    let depth = node.depth;
    match node.view {
        NodeView::Lit { a } => EntryKind::Literal { a },
        NodeView::Src { s, a } => EntryKind::Source { s, a },
        NodeView::Fun => match node.function {
            Some(function) => EntryKind::Function(function),
            None => unreachable!(),
        },
        NodeView::Cat { l, r } => {
            let left = entries.at(l.0 as usize).len;
            EntryKind::Concatenation { l, depth, r, left }
        }
        NodeView::Sub { b, i } => EntryKind::Part { b, depth, i },
    }
}

impl<F: LeafFn> Entry<F> {
    /// What is stored of this node behind these entries.
    #[inline(always)]
    pub(crate) fn of(entries: &Blocks<Entry<F>>, node: Record<F>) -> Entry<F>
        requires storable { IsStorable node }
        requires before { HaveLeftsBefore (length entries.now.items) (node ∷ []) }
        ensures record { record_of result ≡ node }
        ensures left { KeepsLeft (nodes_in entries.now.items) result.kind }
    {
        Entry {
            kind: kind_of(entries, node),
            len: node.len,
        }
    }

    /// What the node is.
    pub(crate) fn view(&self) -> NodeView
        ensures { result ≡ (record_of self.now).view }
    {
        match self.kind {
            EntryKind::Literal { a } => NodeView::Lit { a },
            EntryKind::Source { s, a } => NodeView::Src { s, a },
            EntryKind::Function(_) => NodeView::Fun,
            EntryKind::Concatenation { l, r, .. } => NodeView::Cat { l, r },
            EntryKind::Part { b, i, .. } => NodeView::Sub { b, i },
        }
    }

    /// The node's depth, which is 0 for a leaf.
    pub(crate) fn depth(&self) -> u8
        ensures { result ≡ (record_of self.now).depth }
    {
        match self.kind {
            EntryKind::Concatenation { depth, .. } => depth,
            EntryKind::Part { depth, .. } => depth,
            _ => 0,
        }
    }
}
