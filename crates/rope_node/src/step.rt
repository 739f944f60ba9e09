//! The step from some bytes of a node to its child.

ghost use Rattle.std.specs.Prelude.{◌≡◌, ◌≤◌};
ghost use Rattle.rope_node.specs.Table.{view_at, IsSound, HasTrueRecords};
ghost use Rattle.rope_node.specs.Steps.{IsSpan, StepsDownTo};

use crate::node::{NodeView, Span};
use crate::space::NodeSpace;

/// Where the bytes of a node lie.
#[derive(Clone, Copy, Debug, PartialEq, Eq)]
pub enum StepDown {
    /// In one child: these are they, or as many of the first ones as the left child of a concatenation has.
    Below(Span),
    /// In no child: the node is a leaf.
    Leaf,
    /// In both children of a concatenation: the first ones are these of the left child, the others these of the right.
    Across(Span, Span),
}

/// A step down from a span, whose node is `view`, where its first `least` bytes lie in one child.
#[inline(always)]
pub fn step_down<S: NodeSpace>(space: &S, x: Span, view: NodeView, least: u64) -> StepDown
    requires sound { IsSound (S.table space.now) }
    requires true_records { HasTrueRecords (S.table space.now) }
    requires span { IsSpan (S.table space.now) x }
    requires view { view ≡ view_at (S.table space.now) x.node.0 }
    requires some { 1 ≤ least }
    requires few { least ≤ x.len }
    ensures { StepsDownTo (S.table space.now) x view least result }
{
    match view {
        NodeView::Cat { l, r } => {
            let left = space.left_len(x.node, l);
            if left <= x.start {
                return StepDown::Below(Span {
                    node: r,
                    start: x.start - left,
                    len: x.len,
                });
            }
            let first = Span {
                node: l,
                start: x.start,
                len: x.len.min(left - x.start),
            };
            if least <= first.len {
                return StepDown::Below(first);
            }
            let others = Span {
                node: r,
                start: 0,
                len: x.len - first.len,
            };
            StepDown::Across(first, others)
        }
        NodeView::Sub { b, i } => StepDown::Below(Span {
            node: b,
            start: x.start + i,
            len: x.len,
        }),
        NodeView::Lit { .. } | NodeView::Src { .. } | NodeView::Fun => StepDown::Leaf,
    }
}
