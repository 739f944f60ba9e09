//! A rope put together anew.

// The lines `let _count = store.count();` are for the proof: the store keeps its rules, as its count says.

ghost use Rattle.std.specs.Prelude.{◌+◌, ◌<◌, ◌≤◌, ◌↔◌, length, IfOk, IsTrue};
ghost use Rattle.rope_node.specs.declared.limits.TheConstants.{TEXT_LIMIT};
ghost use Rattle.rope_node.specs.Table.{len_at};
ghost use Rattle.rope_node.specs.Denotes.{IsRope};
ghost use Rattle.node_table.specs.Held.{table_of};
ghost use Rattle.rebalance.specs.Balancing.{text_with, Fills, FillsSpan, IsNearlyBalanced, IsPartOfNode, Rebalances, RebuildsPart, RebuildsRope, StepsThrough};
ghost use Rattle.rebalance.specs.Pieces.{all_pieces, cells_in_span, span_pieces, IsPieceSpan, IsInsideNode};
ghost use Rattle.rebalance.specs.declared.pieces.TheConstants.{MOST_PIECES};
ghost use Rattle.rebalance.specs.Slots.{AreEmptyBelow, AreSlots};

use crate::fault::BalanceFault;
use crate::pieces::{Split, has_few_pieces, piece, step_down, whole};
use crate::slots::{SLOTS, Slots, insert, join_below};
use function_leaf::LeafFn;
use node_table::NodeFault;
use rope_node::{NodeId, NodeSpace, Rope, Span};
use rope_store::Store;

/// A rope of the same text that is about as shallow as its length allows: it is at least as long, in bytes, as the
/// Fibonacci number at its depth and one. It is put together from the leaf spans that the text goes through, one after
/// the other, by Boehm, Atkinson and Plass's rule. Nil gives nil.
///
/// # Errors
///
/// `TooManyPieces` for more than 1,048,576 leaf spans, and the store is then as before; `TableFull`, `PoolFull`,
/// `Memory` of the store, and then it may have more nodes and bytes.
pub fn balance<F: LeafFn>(store: &mut Store<F>, rope: Rope) -> Result<Rope, BalanceFault>
    requires { IsRope (table_of F.meaning store.old) rope }
    ensures { Rebalances F.meaning store.old rope result store.new }
{
    balance_by(store, rope, false)
}

/// As `balance`, by leaf spans or, where `keep` says so, with every node kept that is longer than its depth asks for.
pub(crate) fn balance_by<F: LeafFn>(
    store: &mut Store<F>,
    rope: Rope,
    keep: bool,
) -> Result<Rope, BalanceFault>
    requires { IsRope (table_of F.meaning store.old) rope }
    ensures { RebuildsRope F.meaning store.old keep rope result store.new }
{
    if !rope_has_few_pieces(store, rope, keep) {
        return Err(BalanceFault::TooManyPieces);
    }
    rebuild_rope(store, rope, keep)
}

/// Whether a rope goes through at most as many pieces as a rope is put together from.
pub(crate) fn rope_has_few_pieces<F: LeafFn>(store: &Store<F>, rope: Rope, keep: bool) -> bool
    requires { IsRope (table_of F.meaning store.now) rope }
    ensures { IsTrue result ↔ (all_pieces keep (table_of F.meaning store.now) rope ≤ MOST_PIECES) }
{
    match rope {
        None => true,
        Some(node) => has_few_pieces(store, keep, whole(store, node)),
    }
}

/// A rope of few pieces put together from them.
pub(crate) fn rebuild_rope<F: LeafFn>(
    store: &mut Store<F>,
    rope: Rope,
    keep: bool,
) -> Result<Rope, BalanceFault>
    requires there { IsRope (table_of F.meaning store.old) rope }
    requires few { all_pieces keep (table_of F.meaning store.old) rope ≤ MOST_PIECES }
    ensures { RebuildsRope F.meaning store.old keep rope result store.new }
{
    let _count = store.count();
    let Some(node) = rope else {
        return Ok(None);
    };
    let span = whole(store, node);
    rebuild_few(store, keep, span)
}

/// The bytes of a node from `start` on as such a rope.
pub(crate) fn balance_part<F: LeafFn>(
    store: &mut Store<F>,
    keep: bool,
    node: NodeId,
    start: u64,
    len: u64,
) -> Result<Rope, BalanceFault>
    requires there { node.0 < length store.old.nodes }
    requires inside { start + len ≤ len_at (table_of F.meaning store.old) node.0 }
    ensures { RebuildsPart F.meaning store.old keep node start len result store.new }
{
    let span = Span { node, start, len };
    if !has_few_pieces(store, keep, span) {
        return Err(BalanceFault::TooManyPieces);
    }
    rebuild_few(store, keep, span)
}

/// A span that goes through few pieces as such a rope.
fn rebuild_few<F: LeafFn>(
    store: &mut Store<F>,
    keep: bool,
    span: Span,
) -> Result<Rope, BalanceFault>
    requires span { IsInsideNode (table_of F.meaning store.old) span }
    requires few { span_pieces keep (table_of F.meaning store.old) span ≤ MOST_PIECES }
    ensures { RebuildsPart F.meaning store.old keep span.node span.start span.len result store.new }
{
    Ok(rebuild(store, keep, span)?)
}

/// A span put together from its pieces.
fn rebuild<F: LeafFn>(store: &mut Store<F>, keep: bool, span: Span) -> Result<Rope, NodeFault>
    requires { IsInsideNode (table_of F.meaning store.old) span }
    ensures steps { StepsThrough F.meaning store.old keep span.node span.start span.len result store.new }
    ensures is_rope { IfOk result (λ rope. IsRope (table_of F.meaning store.new) rope) }
    ensures text { IfOk result (IsPartOfNode F.meaning store.old span.node span.start span.len store.new) }
    ensures shallow { IfOk result (λ rope. IsNearlyBalanced (table_of F.meaning store.new) rope) }
{
    let _count = store.count();
    let mut slots = Slots::empty();
    fill(store, &mut slots, keep, span)?;
    let _count = store.count();
    join_below(store, &mut slots, SLOTS)
}

/// Puts a span's pieces behind the text of the slots. It goes to each node on
/// the way once, and calls itself as deep as the node is, which is at most 64.
fn fill<F: LeafFn>(
    store: &mut Store<F>,
    slots: &mut Slots,
    keep: bool,
    span: Span,
) -> Result<(), NodeFault>
    requires span { IsInsideNode (table_of F.meaning store.old) span }
    requires slots { AreSlots (table_of F.meaning store.old) slots.old.ropes }
    requires empty { AreEmptyBelow slots.old.low slots.old.ropes }
    requires short { length (text_with (table_of F.meaning store.old) slots.old.ropes span) < TEXT_LIMIT }
    ensures fills { FillsSpan F.meaning store.old keep slots.old.ropes span result slots.new.ropes store.new }
    ensures empty { IfOk result (λ _. AreEmptyBelow slots.new.low slots.new.ropes) }
{
    let _count = store.count();
    if span.len == 0 {
        return Ok(());
    }
    match step_down(store, keep, span) {
        Split::Piece => put(store, slots, span),
        Split::Base(base) => fill(store, slots, keep, base),
        Split::Children(left, right) => {
            fill(store, slots, keep, left)?;
            let _count = store.count();
            fill(store, slots, keep, right)
        }
    }
}

/// Puts a span that is one piece behind the text of the slots.
fn put<F: LeafFn>(store: &mut Store<F>, slots: &mut Slots, span: Span) -> Result<(), NodeFault>
    requires span { IsInsideNode (table_of F.meaning store.old) span }
    requires piece { IsPieceSpan (table_of F.meaning store.old) span }
    requires some { 1 ≤ span.len }
    requires slots { AreSlots (table_of F.meaning store.old) slots.old.ropes }
    requires empty { AreEmptyBelow slots.old.low slots.old.ropes }
    requires short { length (text_with (table_of F.meaning store.old) slots.old.ropes span) < TEXT_LIMIT }
    ensures fills { Fills F.meaning store.old slots.old.ropes 1
        (cells_in_span (table_of F.meaning store.old) span) result slots.new.ropes store.new }
    ensures empty { IfOk result (λ _. AreEmptyBelow slots.new.low slots.new.ropes) }
{
    let _count = store.count();
    let rope = piece(store, span)?;
    let _count = store.count();
    insert(store, slots, rope)
}
