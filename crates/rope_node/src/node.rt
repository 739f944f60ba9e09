//! Nodes, ropes and what a node is.

/// The number of a node in its table.
#[derive(Clone, Copy, Debug, PartialEq, Eq)]
pub struct NodeId(pub u32);

/// A rope: a node with all below it, or nothing, which is the empty text.
pub type Rope = Option<NodeId>;

/// What a node is, without its recorded length and depth.
#[derive(Clone, Copy, Debug, PartialEq, Eq)]
pub enum NodeView {
    /// The bytes of the pool from place `a` on, as many as the node is long.
    Lit { a: u64 },
    /// The bytes of source `s` from place `a` on.
    Src { s: u32, a: u64 },
    /// The bytes that a function answers at 0, 1, 2 and so on.
    Fun,
    /// The text of `l` followed by the text of `r`.
    Cat { l: NodeId, r: NodeId },
    /// The bytes of `b` from place `i` on.
    Sub { b: NodeId, i: u64 },
}

/// Some bytes of a node.
#[derive(Clone, Copy, Debug, PartialEq, Eq)]
pub struct Span {
    pub node: NodeId,
    /// The first of them, counted from the node's.
    pub start: u64,
    pub len: u64,
}

/// A span of one leaf.
#[derive(Clone, Copy, Debug, PartialEq, Eq)]
pub struct LeafSpan {
    pub leaf: NodeId,
    /// Where it begins, counted from the leaf's first byte.
    pub start: u64,
    /// How many bytes it has.
    pub len: u64,
}
