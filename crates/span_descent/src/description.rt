//! What a span of a leaf is, told apart from the leaf.

ghost use Rattle.std.specs.Prelude.{◌≡◌, ◌+◌, ◌<◌, ◌≤◌, ◌↔◌, length, IfSome, IsTrue};
ghost use Rattle.rope_node.specs.Table.{view_at, len_at, IsSound};
ghost use Rattle.span_descent.specs.Counts.{BeginsCount};
ghost use Rattle.span_descent.specs.Leads.{coded_description, leaf_description, Describes};

use crate::counted::{Count, CountedSpace};
use function_leaf::{Coded, LeafFn};
use rope_node::{CodedSpace, NodeId, NodeView};
use std::marker::Brand;
use std::sync::ledger::{Blank, Ledger};

/// Two leaf spans of one length and one description have the same bytes.
#[derive(Clone, Copy, Debug, PartialEq, Eq)]
pub enum Description {
    /// The bytes of the pool from `a` on.
    Pooled { a: u64 },
    /// The bytes of source `s` from `a` on.
    Sourced { s: u32, a: u64 },
    /// The bytes of a function from its place `i` on: a fill and a ramp from 0 on, the ramp beginning
    /// with the span's first byte, and a cycle from a place inside its pattern on.
    Computed { f: Coded, i: u64 },
}

impl Description {
    /// Whether the two are one description.
    #[inline(always)]
    pub fn is_same(self, other: Description) -> bool
        ensures { IsTrue result ↔ (self ≡ other) }
    {
        match (self, other) {
            (Description::Pooled { a }, Description::Pooled { a: b }) => a == b,
            (Description::Sourced { s, a }, Description::Sourced { s: r, a: b }) => s == r
                && a == b,
            (Description::Computed { f, i }, Description::Computed { f: g, i: j }) => f.is_same(&g)
                && i == j,
            _ => false,
        }
    }
}

/// What a function is from its place `start` on.
fn describe_function(f: Coded, start: u64) -> Description
    ensures { result ≡ coded_description start f }
{
    match f {
        Coded::Fill(_) => Description::Computed { f, i: 0 },
        Coded::Ramp(_) => Description::Computed {
            f: Coded::ramp(f.byte(start)),
            i: 0,
        },
        Coded::Cycle(pattern) => Description::Computed {
            f,
            i: start % pattern.as_slice().len() as u64,
        },
    }
}

/// What the span of a leaf from `start` on is, where `view` is what the leaf is; of no leaf, nothing. It
/// costs at most one look.
pub fn describe<S: CountedSpace<L>, L: Ledger>(
    space: &S,
    leaf: NodeId,
    view: NodeView,
    start: u64,
    count: &mut Count<L>,
) -> Option<Description>
    requires sound { IsSound (S.table space.now) }
    requires there { leaf.0 < length (S.table space.now).nodes }
    requires inside { start ≤ len_at (S.table space.now) leaf.0 }
    requires view { view ≡ view_at (S.table space.now) leaf.0 }
    ensures value { result ≡ leaf_description (S.coded space.now leaf.0) start view }
    ensures describes { IfSome result (Describes (S.table space.now) leaf.0 start) }
    ensures few { count.new ≤ count.old + 1 }
{
    match view {
        NodeView::Lit { a } => Some(Description::Pooled { a: a + start }),
        NodeView::Src { s, a } => Some(Description::Sourced { s, a: a + start }),
        NodeView::Fun => Some(describe_function(space.look_coded(leaf, count), start)),
        NodeView::Cat { .. } | NodeView::Sub { .. } => None,
    }
}

/// Describes the span of a leaf, with a count that begins here.
fn describe_with<S: CodedSpace, L: Ledger>(
    space: &S,
    leaf: NodeId,
    view: NodeView,
    start: u64,
    blank: Blank,
) -> Option<Description>
    requires sound { IsSound (S.NodeSpace.table space.now) }
    requires there { leaf.0 < length (S.NodeSpace.table space.now).nodes }
    requires inside { start ≤ len_at (S.NodeSpace.table space.now) leaf.0 }
    requires view { view ≡ view_at (S.NodeSpace.table space.now) leaf.0 }
    requires blank { BeginsCount L.name L.parts blank.name blank.parts }
    ensures value { result ≡ leaf_description (S.coded space.now leaf.0) start view }
    ensures describes { IfSome result (Describes (S.NodeSpace.table space.now) leaf.0 start) }
{
    describe(space, leaf, view, start, &mut Count::<L>::new(blank))
}

/// What the span of a leaf from `start` on is, where `view` is what the leaf is; of no leaf, nothing.
pub fn describe_leaf<S: CodedSpace>(
    space: &S,
    leaf: NodeId,
    view: NodeView,
    start: u64,
) -> Option<Description>
    requires sound { IsSound (S.NodeSpace.table space.now) }
    requires there { leaf.0 < length (S.NodeSpace.table space.now).nodes }
    requires inside { start ≤ len_at (S.NodeSpace.table space.now) leaf.0 }
    requires view { view ≡ view_at (S.NodeSpace.table space.now) leaf.0 }
    ensures value { result ≡ leaf_description (S.coded space.now leaf.0) start view }
    ensures describes { IfSome result (Describes (S.NodeSpace.table space.now) leaf.0 start) }
{
    describe_with::<S, Brand>(space, leaf, view, start, Blank::new(1))
}
