//! The rules that each node has to keep, tested by its record and those of its children.

ghost use Rattle.std.specs.Prelude.{◌≡◌, ◌+◌, ◌<◌, ◌↔◌, nat_le, length, IsTrue, IsOk, IfErr};
ghost use Rattle.rope_node.specs.Table.{depth_of, HasGoodReferences, HasSpanInside};
ghost use Rattle.image_reader.specs.Value.{image_table};
ghost use Rattle.image_reader.specs.Accepted.{IsAcceptedNode};
ghost use Rattle.session_checker.specs.NodeRules.{HasGoodLength, HasGoodDepth, BreaksFirst};

use image_reader::Records;
use rope_node::{MOST_DEPTH, NodeId, NodeView, TEXT_LIMIT};
use std::sync::ledger::Ledger;

/// A rule of nodes.
#[derive(Clone, Copy)]
pub enum NodeRule {
    /// Each child is below its own node, and each source is there.
    Reference,
    /// The length is not 0, not over the limit, and the sum of the children's.
    Length,
    /// The depth follows from the children's and is at most 64.
    Depth,
    /// Each span lies inside the pool, the source or the base.
    Span,
}

/// Whether its source is there, and its children stand before it.
fn has_good_references<L: Ledger>(records: &Records<'_, '_, '_, L>, id: u32, view: NodeView) -> bool
    ensures { IsTrue result ↔ HasGoodReferences (image_table records.now.image.now) id view }
{
    match view {
        NodeView::Lit { .. } | NodeView::Fun => true,
        NodeView::Src { s, .. } => s < records.source_count(),
        NodeView::Cat { l, r } => l.0 < id && r.0 < id,
        NodeView::Sub { b, .. } => b.0 < id,
    }
}

/// Whether its length is that of a text, and a concatenation's is its children's sum.
fn has_good_length<L: Ledger>(
    records: &Records<'_, '_, '_, L>,
    id: u32,
    view: NodeView,
    len: u64,
) -> bool
    requires id { id < length (image_table records.now.image.now).nodes }
    requires references { HasGoodReferences (image_table records.now.image.now) id view }
    ensures { IsTrue result ↔ HasGoodLength (image_table records.now.image.now) len view }
{
    let is_in_range = len >= 1 && len < TEXT_LIMIT;
    match view {
        NodeView::Cat { l, r } => is_in_range
            && records.len(l).checked_add(records.len(r)) == Some(len),
        NodeView::Lit { .. } | NodeView::Src { .. } | NodeView::Fun | NodeView::Sub { .. } =>
            is_in_range,
    }
}

/// The depth that follows from the children's.
fn depth_of<L: Ledger>(records: &Records<'_, '_, '_, L>, id: u32, view: NodeView) -> u32
    requires id { id < length (image_table records.now.image.now).nodes }
    requires references { HasGoodReferences (image_table records.now.image.now) id view }
    ensures { result ≡ depth_of (image_table records.now.image.now) view }
{
    match view {
        NodeView::Lit { .. } | NodeView::Src { .. } | NodeView::Fun => 0,
        NodeView::Cat { l, r } => 1 + (records.depth(l) as u32).max(records.depth(r) as u32),
        NodeView::Sub { b, .. } => 1 + records.depth(b) as u32,
    }
}

/// Whether its depth follows from the children's and is at most 64.
fn has_good_depth<L: Ledger>(
    records: &Records<'_, '_, '_, L>,
    id: u32,
    view: NodeView,
    depth: u8,
) -> bool
    requires id { id < length (image_table records.now.image.now).nodes }
    requires references { HasGoodReferences (image_table records.now.image.now) id view }
    ensures { IsTrue result ↔ HasGoodDepth (image_table records.now.image.now) depth view }
{
    depth as u32 == depth_of(records, id, view) && depth as u32 <= u32::from(MOST_DEPTH)
}

/// Whether the `len` places from `start` on end at `end` or before.
pub fn is_inside(start: u64, len: u64, end: u64) -> bool
    ensures { result ≡ nat_le (start + len) end }
{
    len <= end && start <= end - len
}

/// Whether its span lies inside the pool, the source or the base.
fn has_span_inside<L: Ledger>(
    records: &Records<'_, '_, '_, L>,
    id: u32,
    view: NodeView,
    len: u64,
) -> bool
    requires id { id < length (image_table records.now.image.now).nodes }
    requires references { HasGoodReferences (image_table records.now.image.now) id view }
    ensures { IsTrue result ↔ HasSpanInside (image_table records.now.image.now) len view }
{
    match view {
        NodeView::Lit { a } => is_inside(a, len, records.pool_len()),
        NodeView::Src { s, a } => is_inside(a, len, records.source_len(s)),
        NodeView::Fun | NodeView::Cat { .. } => true,
        NodeView::Sub { b, i } => is_inside(i, len, records.len(b)),
    }
}

/// Tests the rules of node `id` in their order, and answers the first that it breaks.
pub fn check_node<L: Ledger>(
    records: &mut Records<'_, '_, '_, L>,
    id: NodeId,
) -> Result<(), NodeRule>
    requires { id.0 < length (image_table records.old.image.now).nodes }
    ensures ok { IsOk result ↔ IsAcceptedNode (image_table records.old.image.now) id.0 }
    ensures err { IfErr result (BreaksFirst (image_table records.old.image.now) id.0) }
    ensures looks { records.new.count.now ≡ records.old.count.now + 1 }
    ensures image { records.new.image.now ≡ records.old.image.now }
    ensures same_reference { records.new.count.ghost_name ≡ records.old.count.ghost_name }
{
    let node = records.node(id);
    if !has_good_references(records, id.0, node.view) {
        return Err(NodeRule::Reference);
    }
    if !has_good_length(records, id.0, node.view, node.len) {
        return Err(NodeRule::Length);
    }
    if !has_good_depth(records, id.0, node.view, node.depth) {
        return Err(NodeRule::Depth);
    }
    if !has_span_inside(records, id.0, node.view, node.len) {
        return Err(NodeRule::Span);
    }
    Ok(())
}
