//! Ways down to the places that rows stand at: kept for the next place, or each from the root.

use crate::counted::CountedSpace;
use crate::from_root::FromRoot;
use rope_node::{NodeView, Span};
use std::sync::ledger::Ledger;

/// Where a step down leads.
#[derive(Clone, Copy, Debug)]
pub enum Descent<P> {
    /// To this stop.
    Below(P),
    /// Nowhere: the node is a leaf.
    Leaf,
    /// Nowhere: the bytes lie in no one child of the node.
    Border,
}

/// A way down to a place of a rope. Whatever it keeps of it for the next place, the answers are the same.
pub trait Way {
    ghost use Rattle.std.specs.Prelude.{◌≡◌, ◌≤◌, ◌⊎◌, IfSome};
    ghost use Rattle.rope_node.specs.Table.{Table, view_at};
    ghost use Rattle.span_descent.specs.Descents.{IsStandAt, GoesDownTo, stop_after};
    ghost use Rattle.rope_node.specs.Steps.{IsSpan};
    ghost use Rattle.span_descent.specs.Trails.{IsOnWay, IsWayOf};
    ghost use Rattle.rope_node.specs.declared.node.Span.{Span};

    /// A node on the way.
    type Here: Copy;

    // What it keeps is of a rope of this table, or it keeps nothing.
    ghost is_way: { Table → Self → Type 0 };

    // Down this span it has come to this stop.
    ghost is_at: { Table → Span → Self → Self.Here → Type 0 };

    // The bytes of the stop's node to which the first bytes of this span lead.
    ghost lies: { Span → Self.Here → Span };

    /// It keeps nothing any more.
    fn forget(&mut self)
        ensures { (t : Table) → is_way t self.new };

    /// Where the way down a span goes on: at a stop that holds the first `len` bytes and is the root or no lower than
    /// `low`.
    fn begin<S: CountedSpace<L>, L: Ledger>(
        &mut self,
        space: &S,
        x: Span,
        len: u64,
        low: u32,
    ) -> Self::Here
        requires way { IsWayOf is_way (S.table space.now) self.old }
        requires span { IsSpan (S.table space.now) x }
        requires some { 1 ≤ len }
        requires inside { len ≤ x.len }
        ensures on { IsOnWay is_way is_at lies (S.table space.now) x self.new result }
        ensures long { len ≤ (lies x result).len }
        ensures low { (low ≤ (lies x result).node.0) ⊎ (lies x result ≡ x) };

    /// The bytes of a stop's node to which the first ones of the span lead.
    fn span<S: CountedSpace<L>, L: Ledger>(&self, space: &S, x: Span, here: Self::Here) -> Span
        requires { IsOnWay is_way is_at lies (S.table space.now) x self.now here }
        ensures { result ≡ lies x here };

    /// A step down from a stop, whose node is `view`, where the first `least` bytes lie in one child.
    fn step<S: CountedSpace<L>, L: Ledger>(
        &mut self,
        space: &S,
        x: Span,
        here: Self::Here,
        view: NodeView,
        least: u64,
    ) -> Descent<Self::Here>
        requires on { IsOnWay is_way is_at lies (S.table space.now) x self.old here }
        requires view { view ≡ view_at (S.table space.now) (lies x here).node.0 }
        requires some { 1 ≤ least }
        requires long { least ≤ (lies x here).len }
        ensures on { IsOnWay is_way is_at lies (S.table space.now) x self.new (stop_after here result) }
        ensures goes { GoesDownTo (lies x) (S.table space.now) (lies x here) view least result };

    /// The bytes at the place where another span stands, if the span's first ones are known to lead there. The way has
    /// come to `last`.
    fn find<S: CountedSpace<L>, L: Ledger>(
        &self,
        space: &S,
        x: Span,
        last: Self::Here,
        other: Span,
    ) -> Option<Span>
        requires { IsOnWay is_way is_at lies (S.table space.now) x self.now last }
        ensures { IfSome result (IsStandAt (S.table space.now) x other) };
}

/// The ways down of the part and of the root that a row stands at.
#[derive(Clone, Copy, Debug)]
pub struct Ways<W> {
    pub of_part: W,
    pub of_root: W,
}

impl Ways<FromRoot> {
    /// Ways of which nothing is kept.
    pub fn from_root() -> Ways<FromRoot> {
        Ways {
            of_part: FromRoot,
            of_root: FromRoot,
        }
    }
}

impl<W: Way> Ways<W> {
    ghost use Rattle.rope_node.specs.Table.{Table, IsSound, HasTrueRecords};
    ghost use Rattle.span_descent.specs.Trails.{AreWays};

    /// They keep nothing any more. What they were of may have changed meanwhile.
    #[inline(always)]
    pub fn forget(&mut self)
        ensures { (t : Table) → IsSound t → HasTrueRecords t → AreWays W.is_way t self.new }
    {
        self.of_part.forget();
        self.of_root.forget();
    }
}
