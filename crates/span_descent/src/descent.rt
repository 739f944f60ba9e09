//! Ways from a span down: to the leaf that it begins in, to the leaf that it lies in, to one place.

ghost use Rattle.std.specs.Prelude.{◌≡◌, ◌↔◌, ◌+◌, ◌≤◌, Some, IfSome, IsTrue};
ghost use Rattle.span_descent.specs.Descents.{IsLeafOf, IsSpanPlace, LeadsToSpan};
ghost use Rattle.span_descent.specs.Leads.{Leads};
ghost use Rattle.rope_node.specs.Steps.{IsSpan};
ghost use Rattle.span_descent.specs.Trails.{IsWayOf};
ghost use Rattle.span_descent.specs.declared.descent.SpanPlace.{SpanPlace};

use crate::counted::{Count, CountedSpace};
use crate::way::{Descent, Way};
use rope_node::{NodeId, NodeView, Span};
use std::sync::ledger::Ledger;

/// A leaf span that is the first bytes of another span, and what its leaf is.
#[derive(Clone, Copy, Debug, PartialEq, Eq)]
pub struct Reached {
    pub span: Span,
    pub view: NodeView,
}

/// Where a span lies in a leaf.
#[derive(Clone, Copy, Debug, PartialEq, Eq)]
pub struct SpanPlace {
    pub leaf: NodeId,
    /// Its first byte, counted from the leaf's.
    pub start: u64,
    /// What the leaf is.
    pub view: NodeView,
}

/// The leaf span that a span begins with, as far as it goes.
pub fn first_leaf<S: CountedSpace<L>, W: Way, L: Ledger>(
    space: &S,
    way: &mut W,
    x: Span,
    count: &mut Count<L>,
) -> Reached
    requires way { IsWayOf W.is_way (S.table space.now) way.old }
    requires span { IsSpan (S.table space.now) x }
    ensures leaf { IsLeafOf (S.table space.now) x result }
    ensures way { IsWayOf W.is_way (S.table space.now) way.new }
    ensures few { count.new ≤ count.old + 65 }
{
    let mut here = way.begin(space, x, 1, 0);
    'down: loop {
        let span = way.span(space, x, here);
        let view = space.look(span.node, count);
        match way.step(space, x, here, view, 1) {
            Descent::Below(below) => here = below,
            Descent::Leaf => return Reached { span, view },
            Descent::Border => unreachable!(),
        }
    }
}

/// The leaf span to which a span leads, or nothing where its bytes lie in several leaves.
pub fn leaf_span<S: CountedSpace<L>, W: Way, L: Ledger>(
    space: &S,
    way: &mut W,
    x: Span,
    count: &mut Count<L>,
) -> Option<SpanPlace>
    requires way { IsWayOf W.is_way (S.table space.now) way.old }
    requires span { IsSpan (S.table space.now) x }
    ensures inside { IfSome result (IsSpanPlace (S.table space.now) x.len) }
    ensures leads { (s : SpanPlace)
        → (result ≡ Some s) ↔ LeadsToSpan (S.table space.now) x.len x.node.0 x.start s }
    ensures way { IsWayOf W.is_way (S.table space.now) way.new }
    ensures few { count.new ≤ count.old + 65 }
{
    let mut here = way.begin(space, x, x.len, 0);
    'down: loop {
        let at = way.span(space, x, here);
        let view = space.look(at.node, count);
        match way.step(space, x, here, view, x.len) {
            Descent::Below(below) => here = below,
            Descent::Leaf => {
                return Some(SpanPlace {
                    leaf: at.node,
                    start: at.start,
                    view,
                });
            }
            Descent::Border => return None,
        }
    }
}

/// Whether a span leads to the bytes of a node from a place on.
pub fn leads_to<S: CountedSpace<L>, W: Way, L: Ledger>(
    space: &S,
    way: &mut W,
    x: Span,
    node: NodeId,
    at: u64,
    count: &mut Count<L>,
) -> bool
    requires way { IsWayOf W.is_way (S.table space.now) way.old }
    requires span { IsSpan (S.table space.now) x }
    ensures leads { IsTrue result ↔ Leads (S.table space.now) x.len node.0 at x.node.0 x.start }
    ensures way { IsWayOf W.is_way (S.table space.now) way.new }
    ensures few { count.new ≤ count.old + 65 }
{
    let mut here = way.begin(space, x, x.len, node.0);
    'down: loop {
        let there = way.span(space, x, here);
        if there.node.0 == node.0 && there.start == at {
            return true;
        }
        let view = space.look(there.node, count);
        match way.step(space, x, here, view, x.len) {
            Descent::Below(below) => here = below,
            Descent::Leaf => return false,
            Descent::Border => return false,
        }
    }
}
