//! The pieces that a rope's text is put together from.

// The lines `let _count = store.count();` and `let _len = ..` are for the proof: the store keeps its rules, and no leaf
// is longer than a text may be, as these calls say.

ghost use Rattle.std.specs.Prelude.{◌≡◌, ◌↔◌, ◌+◌, ◌<◌, ◌≤◌, length, take, IsTrue, IfOk};
ghost use Rattle.rope_node.specs.Table.{view_at, len_at, IsLeaf, IsFunction};
ghost use Rattle.node_table.specs.Held.{table_of};
ghost use Rattle.rebalance.specs.Pieces.{answered_bytes, is_kept, span_pieces, IsEarlierSpan, IsOfChildren, IsPieceSpan, IsInsideNode, IsSplit, Tallies};
ghost use Rattle.rebalance.specs.declared.pieces.TheConstants.{MOST_PIECES};
ghost use Rattle.rebalance.specs.Balancing.{IsPartOfNode};
ghost use Rattle.rebalance.specs.Slots.{IsShallowPiece};
ghost use Rattle.rebalance.specs.Steps.{AddsPiece};

use crate::balanced::fibonacci;
use function_leaf::LeafFn;
use node_table::NodeFault;
use rope_node::{NodeId, NodeSpace, NodeView, Rope, Span};
use rope_store::{MOST_MERGED, Store};

/// The most pieces that a rope is put together from.
pub const MOST_PIECES: u32 = 1 << 20;

/// The shortest part of a function leaf that is a part, in bytes; a shorter one is a literal.
const SHORTEST_PART: u64 = 32;

/// All the bytes of a node.
pub(crate) fn whole<F: LeafFn>(store: &Store<F>, node: NodeId) -> Span
    requires { node.0 < length store.now.nodes }
    ensures is { result ≡ record { node = node; start = 0; len = len_at (table_of F.meaning store.now) node.0 } }
    ensures span { IsInsideNode (table_of F.meaning store.now) result }
{
    Span {
        node,
        start: 0,
        len: NodeSpace::len(store, node),
    }
}

/// Whether this span, where nodes are kept, is a piece as it is: all of a node that leaves room for one more above it.
fn is_kept<F: LeafFn>(store: &Store<F>, keep: bool, node: NodeId, start: u64, len: u64) -> bool
    requires { node.0 < length store.now.nodes }
    ensures { result ≡ is_kept keep (table_of F.meaning store.now) node.0 start len }
{
    keep && start == 0
        && len == NodeSpace::len(store, node)
        && fibonacci(NodeSpace::depth(store, node) + 3) <= len
}

/// What a span's bytes are: one piece, or bytes of the nodes below.
#[derive(Clone, Copy)]
pub(crate) enum Split {
    /// One piece.
    Piece,
    /// Bytes of the base.
    Base(Span),
    /// Bytes of the left child, and then of the right one. One of these spans may be empty.
    Children(Span, Span),
}

/// What a span's bytes are, one step down.
pub(crate) fn step_down<F: LeafFn>(store: &Store<F>, keep: bool, span: Span) -> Split
    requires span { IsInsideNode (table_of F.meaning store.now) span }
    requires some { 1 ≤ span.len }
    ensures { IsSplit keep (table_of F.meaning store.now) span result }
{
    let _count = store.count();
    let Span { node, start, len } = span;
    if is_kept(store, keep, node, start, len) {
        return Split::Piece;
    }
    match store.node(node) {
        NodeView::Cat { l, r } => {
            let left = NodeSpace::left_len(store, node, l);
            let skipped = start.min(left);
            let count = len.min(left - skipped);
            let first = Span {
                node: l,
                start: skipped,
                len: count,
            };
            let second = Span {
                node: r,
                start: start - skipped,
                len: len - count,
            };
            Split::Children(first, second)
        }
        NodeView::Sub { b, i } => Split::Base(Span {
            node: b,
            start: start + i,
            len,
        }),
        NodeView::Lit { .. } | NodeView::Src { .. } | NodeView::Fun => Split::Piece,
    }
}

/// What is told of pieces that are counted one behind the other.
#[derive(Clone, Copy)]
pub(crate) enum Tally {
    /// So many, and a rope is put together from as many.
    So(u32),
    /// With those behind them they are as many at most.
    Few,
    /// They are more.
    Many,
}

/// The spans that a span has in its children, the longer one first.
fn longer_first<F: LeafFn>(
    store: &Store<F>,
    keep: bool,
    span: Span,
    left: Span,
    right: Span,
) -> (Span, Span)
    requires { IsOfChildren keep (table_of F.meaning store.now) span left right }
    ensures first { IsEarlierSpan (table_of F.meaning store.now) span result.0 }
    ensures second { IsEarlierSpan (table_of F.meaning store.now) span result.1 }
    ensures count { span_pieces keep (table_of F.meaning store.now) span
        ≡ span_pieces keep (table_of F.meaning store.now) result.0
        + span_pieces keep (table_of F.meaning store.now) result.1 }
{
    if left.len < right.len {
        (right, left)
    } else {
        (left, right)
    }
}

/// Counts a span's pieces behind `count` others, where `behind` bytes more are to be counted. Each piece has a byte, so
/// it ends where the bytes that are left can be no pieces too many: early, as it goes to the longer child first. It
/// goes past no more pieces than a rope is put together from, and calls itself as deep as the node is.
fn count_on<F: LeafFn>(store: &Store<F>, keep: bool, span: Span, count: u32, behind: u64) -> Tally
    requires span { IsInsideNode (table_of F.meaning store.now) span }
    requires few { count ≤ MOST_PIECES }
    ensures { Tallies (span_pieces keep (table_of F.meaning store.now) span) count behind result }
{
    let _count = store.count();
    if span.len.saturating_add(behind) <= u64::from(MOST_PIECES - count) {
        return Tally::Few;
    }
    if span.len == 0 {
        return Tally::So(count);
    }
    match step_down(store, keep, span) {
        Split::Piece => {
            if count < MOST_PIECES {
                Tally::So(count + 1)
            } else {
                Tally::Many
            }
        }
        Split::Base(base) => count_on(store, keep, base, count, behind),
        Split::Children(left, right) => {
            let (first, second) = longer_first(store, keep, span, left, right);
            match count_on(store, keep, first, count, behind.saturating_add(second.len)) {
                Tally::So(more) => count_on(store, keep, second, more, behind),
                told => told,
            }
        }
    }
}

/// Whether a span goes through at most as many pieces as a rope is put together from.
pub(crate) fn has_few_pieces<F: LeafFn>(store: &Store<F>, keep: bool, span: Span) -> bool
    requires { IsInsideNode (table_of F.meaning store.now) span }
    ensures { IsTrue result ↔ (span_pieces keep (table_of F.meaning store.now) span ≤ MOST_PIECES) }
{
    match count_on(store, keep, span, 0, 0) {
        Tally::So(_) | Tally::Few => true,
        Tally::Many => false,
    }
}

/// A piece as a rope: the node where it is all of it, else a part of a leaf that holds no leaf for a few bytes.
pub(crate) fn piece<F: LeafFn>(store: &mut Store<F>, span: Span) -> Result<Rope, NodeFault>
    requires there { span.node.0 < length store.old.nodes }
    requires is { IsPieceSpan (table_of F.meaning store.old) span }
    requires some { 1 ≤ span.len }
    requires inside { span.start + span.len ≤ len_at (table_of F.meaning store.old) span.node.0 }
    ensures steps { AddsPiece F.meaning store.old result store.new }
    ensures piece { IfOk result (λ rope. IsShallowPiece (table_of F.meaning store.new) rope) }
    ensures text { IfOk result (IsPartOfNode F.meaning store.old span.node span.start span.len store.new) }
{
    let Span { node, start, len } = span;
    if len == NodeSpace::len(store, node) {
        return Ok(Some(node));
    }
    leaf_part(store, node, start, len)
}

/// Some bytes of a leaf, and not all.
fn leaf_part<F: LeafFn>(
    store: &mut Store<F>,
    leaf: NodeId,
    start: u64,
    len: u64,
) -> Result<Rope, NodeFault>
    requires there { leaf.0 < length store.old.nodes }
    requires leaf { IsLeaf (view_at (table_of F.meaning store.old) leaf.0) }
    requires some { 1 ≤ len }
    requires inside { start + len ≤ len_at (table_of F.meaning store.old) leaf.0 }
    requires less { ¬ (len ≡ len_at (table_of F.meaning store.old) leaf.0) }
    ensures steps { AddsPiece F.meaning store.old result store.new }
    ensures piece { IfOk result (λ rope. IsShallowPiece (table_of F.meaning store.new) rope) }
    ensures text { IfOk result (IsPartOfNode F.meaning store.old leaf start len store.new) }
{
    let _count = store.count();
    match store.node(leaf) {
        NodeView::Fun if len < SHORTEST_PART => written(store, leaf, start, len),
        _ => store.substr(Some(leaf), start, len),
    }
}
/// The bytes of a function leaf from `start` on, as a literal.
fn written<F: LeafFn>(
    store: &mut Store<F>,
    leaf: NodeId,
    start: u64,
    len: u64,
) -> Result<Rope, NodeFault>
    requires there { leaf.0 < length store.old.nodes }
    requires function { IsFunction (view_at (table_of F.meaning store.old) leaf.0) }
    requires some { 1 ≤ len }
    requires short { len < 32 }
    requires inside { start + len ≤ len_at (table_of F.meaning store.old) leaf.0 }
    ensures steps { AddsPiece F.meaning store.old result store.new }
    ensures piece { IfOk result (λ rope. IsShallowPiece (table_of F.meaning store.new) rope) }
    ensures text { IfOk result (IsPartOfNode F.meaning store.old leaf start len store.new) }
{
    let _len = NodeSpace::len(store, leaf);
    let bytes = read(store, leaf, start, len);
    let count = len as usize;
    store.from_bytes(&bytes[..count])
}

/// The bytes of a function leaf from `start` on, in front of zeros.
fn read<F: LeafFn>(store: &Store<F>, leaf: NodeId, start: u64, len: u64) -> [u8; MOST_MERGED]
    requires there { leaf.0 < length store.now.nodes }
    requires function { IsFunction (view_at (table_of F.meaning store.now) leaf.0) }
    requires short { len < 32 }
    requires inside { start + len ≤ len_at (table_of F.meaning store.now) leaf.0 }
    ensures { take len result ≡ answered_bytes (table_of F.meaning store.now) leaf start len }
{
    let _len = NodeSpace::len(store, leaf);
    let mut bytes = [0; MOST_MERGED];
    for k in 0..len as usize {
        bytes[k] = store.fun_byte(leaf, start + k as u64);
    }
    bytes
}
