//! The longest row that fits at a place.

ghost use Rattle.std.specs.Prelude.{◌≡◌, ◌↔◌, ℕ, ◌+◌, ◌<◌, ◌≤◌, min, IsTrue};
ghost use Rattle.rope_node.specs.Table.{view_at, IsLeaf, IsSound, HasTrueRecords};
ghost use Rattle.span_descent.specs.Descents.{IsStand};
ghost use Rattle.rope_node.specs.Steps.{first_of, IsSpan};
ghost use Rattle.span_certificate.specs.Longest.{GoesToLeafEnd, SpansStayWithin};
ghost use Rattle.span_certificate.specs.SpanRows.{CellsAs, IsRowOf, IsDescribedRow};
ghost use Rattle.span_descent.specs.Steps.{span_cells};
ghost use Rattle.span_descent.specs.Trails.{IsOnWay, IsWayOf};
ghost use Rattle.span_certificate.specs.declared.walk.TheConstants.{BYTES_LIMIT};
ghost use Rattle.rope_node.specs.declared.node.NodeId.{NodeId};

use crate::row::{Row, RowKind};
use rope_node::{NodeId, NodeView, Span};
use span_descent::{Count, CountedSpace, Descent, Description, Way, describe, first_leaf};
use std::sync::ledger::Ledger;

/// The most bytes of a row that compares bytes.
pub const BYTES_LIMIT: u64 = 4096;

/// The row for two leaf spans of one length and the same cells.
pub fn leaf_row<S: CountedSpace<L>, L: Ledger>(
    space: &S,
    x: Span,
    of_x: NodeView,
    y: Span,
    of_y: NodeView,
    count: &mut Count<L>,
) -> Row
    requires sound { IsSound (S.table space.now) }
    requires x { IsSpan (S.table space.now) x }
    requires of_x { of_x ≡ view_at (S.table space.now) x.node.0 }
    requires leaf_x { IsLeaf of_x }
    requires y { IsSpan (S.table space.now) y }
    requires of_y { of_y ≡ view_at (S.table space.now) y.node.0 }
    requires leaf_y { IsLeaf of_y }
    requires len { y.len ≡ x.len }
    requires same { span_cells (S.table space.now) x ≡ span_cells (S.table space.now) y }
    ensures row { IsRowOf (S.table space.now) (S.coded space.now) x y result }
    ensures ends { GoesToLeafEnd x.len result.len result.kind }
{
    match (
        describe(space, x.node, of_x, x.start, count),
        describe(space, y.node, of_y, y.start, count),
    ) {
        (Some(d), Some(e)) => described_row(d, e, x.len),
        _ => unreachable!(),
    }
}

/// The row for two leaf spans of these descriptions and one length.
fn described_row(d: Description, e: Description, len: u64) -> Row
    ensures leaf { result.kind ≡ RowKind.Leaf → (d ≡ e) × (result.len ≡ len) }
    ensures bytes { result.kind ≡ RowKind.Bytes → ¬ (d ≡ e) × (result.len ≡ min len BYTES_LIMIT) }
    ensures kind { (k : NodeId) → (o : ℕ) → ¬ (result.kind ≡ RowKind.Shared k o) }
    ensures ends { GoesToLeafEnd len result.len result.kind }
{
    if d.is_same(e) {
        Row {
            len,
            kind: RowKind::Leaf,
        }
    } else {
        Row {
            len: len.min(BYTES_LIMIT),
            kind: RowKind::Bytes,
        }
    }
}

/// Whether a node is a leaf.
#[inline(always)]
fn is_leaf(view: NodeView) -> bool
    ensures { IsTrue result ↔ IsLeaf view }
{
    match view {
        NodeView::Cat { .. } | NodeView::Sub { .. } => false,
        NodeView::Lit { .. } | NodeView::Src { .. } | NodeView::Fun => true,
    }
}

/// Whether of two sides the first goes down: the one of the greater number does, or the other where that is a leaf.
#[inline(always)]
fn goes_first(a: NodeId, of_a: NodeView, b: NodeId, of_b: NodeView) -> bool
    ensures first { IsTrue result → ¬ IsLeaf of_a }
    ensures second { ¬ IsTrue result → IsLeaf of_b → IsLeaf of_a }
{
    !is_leaf(of_a) && (a.0 >= b.0 || is_leaf(of_b))
}

/// The stop below one whose node, which is `view`, is no leaf.
#[inline(always)]
fn go_down<S: CountedSpace<L>, W: Way, L: Ledger>(
    space: &S,
    way: &mut W,
    x: Span,
    here: W::Here,
    view: NodeView,
) -> W::Here
    requires on { IsOnWay W.is_way W.is_at W.lies (S.table space.now) x way.old here }
    requires view { view ≡ view_at (S.table space.now) (W.lies x here).node.0 }
    requires inner { ¬ IsLeaf view }
    ensures on { IsOnWay W.is_way W.is_at W.lies (S.table space.now) x way.new result }
    ensures lower { (W.lies x result).node.0 < (W.lies x here).node.0 }
{
    match way.step(space, x, here, view, 1) {
        Descent::Below(below) => below,
        Descent::Leaf | Descent::Border => unreachable!(),
    }
}

/// The row over the node where ways down two spans stand at one place.
#[inline(always)]
fn shared_row<S: CountedSpace<L>, L: Ledger>(space: &S, x: Span, a: Span, y: Span, b: Span) -> Row
    requires sound { IsSound (S.table space.now) }
    requires true_records { HasTrueRecords (S.table space.now) }
    requires len { y.len ≡ x.len }
    requires a { IsStand (S.table space.now) x a }
    requires b { IsStand (S.table space.now) y b }
    requires same_node { a.node ≡ b.node }
    requires same_place { a.start ≡ b.start }
    ensures row { IsRowOf (S.table space.now) (S.coded space.now) x y result }
    ensures longest { result.len < x.len
        → ¬ SpansStayWithin (S.table space.now) (result.len + 1) x y result.kind }
{
    Row {
        len: a.len.min(b.len),
        kind: RowKind::Shared(a.node, a.start),
    }
}

/// The row over the leaves where ways down two spans of the same cells end.
#[inline(always)]
fn ends_row<S: CountedSpace<L>, L: Ledger>(
    space: &S,
    x: Span,
    a: Span,
    of_a: NodeView,
    y: Span,
    b: Span,
    of_b: NodeView,
    count: &mut Count<L>,
) -> Row
    requires sound { IsSound (S.table space.now) }
    requires true_records { HasTrueRecords (S.table space.now) }
    requires x { IsSpan (S.table space.now) x }
    requires y { IsSpan (S.table space.now) y }
    requires len { y.len ≡ x.len }
    requires a { IsStand (S.table space.now) x a }
    requires of_a { of_a ≡ view_at (S.table space.now) a.node.0 }
    requires leaf_a { IsLeaf of_a }
    requires b { IsStand (S.table space.now) y b }
    requires of_b { of_b ≡ view_at (S.table space.now) b.node.0 }
    requires leaf_b { IsLeaf of_b }
    requires same { span_cells (S.table space.now) x ≡ span_cells (S.table space.now) y }
    ensures row { IsRowOf (S.table space.now) (S.coded space.now) x y result }
    ensures longest { result.len < x.len
        → ¬ SpansStayWithin (S.table space.now) (result.len + 1) x y result.kind }
{
    let len = a.len.min(b.len);
    let first = Span { len, ..a };
    let second = Span { len, ..b };
    leaf_row(space, first, of_a, second, of_b, count)
}

/// A row for the first bytes of two spans of the same cells: over the first node that both lead to at one place, or
/// over two leaf spans. A node that both ways kept is at one place of both only where the row before was over that node
/// to its end. So the first node of both is met where one side comes to a new stop.
pub fn next_old<S: CountedSpace<L>, W: Way, L: Ledger>(
    space: &S,
    of_part: &mut W,
    of_root: &mut W,
    x: Span,
    y: Span,
    count: &mut Count<L>,
) -> Row
    requires of_part { IsWayOf W.is_way (S.table space.now) of_part.old }
    requires of_root { IsWayOf W.is_way (S.table space.now) of_root.old }
    requires x { IsSpan (S.table space.now) x }
    requires y { IsSpan (S.table space.now) y }
    requires len { y.len ≡ x.len }
    requires same { span_cells (S.table space.now) x ≡ span_cells (S.table space.now) y }
    ensures row { IsRowOf (S.table space.now) (S.coded space.now) x y result }
    ensures longest { result.len < x.len
        → ¬ SpansStayWithin (S.table space.now) (result.len + 1) x y result.kind }
    ensures of_part { IsWayOf W.is_way (S.table space.now) of_part.new }
    ensures of_root { IsWayOf W.is_way (S.table space.now) of_root.new }
{
    let mut a = of_part.begin(space, x, 1, 0);
    let mut b = of_root.begin(space, y, 1, 0);
    let mut first = of_part.span(space, x, a);
    let mut second = of_root.span(space, y, b);
    if let Some(z) = of_root.find(space, y, b, first) {
        return shared_row(space, x, first, y, z);
    }
    if let Some(z) = of_part.find(space, x, a, second) {
        return shared_row(space, x, z, y, second);
    }
    let mut of_a = space.look(first.node, count);
    let mut of_b = space.look(second.node, count);
    'down: loop {
        if goes_first(first.node, of_a, second.node, of_b) {
            a = go_down(space, of_part, x, a, of_a);
            first = of_part.span(space, x, a);
            if let Some(z) = of_root.find(space, y, b, first) {
                return shared_row(space, x, first, y, z);
            }
            of_a = space.look(first.node, count);
        } else if is_leaf(of_b) {
            return ends_row(space, x, first, of_a, y, second, of_b, count);
        } else {
            b = go_down(space, of_root, y, b, of_b);
            second = of_root.span(space, y, b);
            if let Some(z) = of_part.find(space, x, a, second) {
                return shared_row(space, x, z, y, second);
            }
            of_b = space.look(second.node, count);
        }
    }
}

/// A row for the first bytes of a leaf span of this description and of a span of the same cells.
pub fn next_leaf<S: CountedSpace<L>, W: Way, L: Ledger>(
    space: &S,
    way: &mut W,
    d: Description,
    y: Span,
    count: &mut Count<L>,
) -> Row
    requires way { IsWayOf W.is_way (S.table space.now) way.old }
    requires y { IsSpan (S.table space.now) y }
    requires same { CellsAs y.len d (span_cells (S.table space.now) y) }
    ensures row { IsDescribedRow (S.table space.now) (S.coded space.now) d y result }
    ensures ends { GoesToLeafEnd (first_of (S.table space.now) y).len result.len result.kind }
    ensures way { IsWayOf W.is_way (S.table space.now) way.new }
{
    let z = first_leaf(space, way, y, count);
    match describe(space, z.span.node, z.view, z.span.start, count) {
        Some(e) => described_row(d, e, z.span.len),
        None => unreachable!(),
    }
}
