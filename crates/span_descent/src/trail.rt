//! The way down to a place of a rope, kept for the next place: what lies beside it is found from the last node that
//! holds both.

ghost use Rattle.std.specs.Prelude.{◌≡◌, length};
ghost use Rattle.span_descent.specs.declared.stop.TheConstants.{MOST_STOPS};

use crate::counted::CountedSpace;
use crate::stop::{MOST_STOPS, NO_STOP, Stop};
use crate::way::{Descent, Way};
use rope_node::{NodeId, NodeView, Span};
use std::sync::ledger::Ledger;

/// How many of the last stops are looked at one by one.
const NEAR: usize = 4;

/// The nodes on the way down to a place, each below the one before.
#[derive(Clone, Copy, Debug)]
pub struct Trail {
    stops: [Stop; MOST_STOPS],
    count: usize,
    ghost room: { length stops ≡ MOST_STOPS },
}

impl Trail {
    ghost use Rattle.std.specs.Prelude.{◌≡◌, ◌<◌, ◌≤◌, ◌⊎◌, IfSome, length};
    ghost use Rattle.rope_node.specs.Table.{Table, view_at, IsSound, HasTrueRecords};
    ghost use Rattle.span_descent.specs.Descents.{GoesDownTo};
    ghost use Rattle.rope_node.specs.Steps.{IsSpan};
    ghost use Rattle.span_descent.specs.Trails.{FollowsLast, IsFound, IsLastStop, IsStopOf, IsTrail, IsTrailOf, StopHolds, first_stop, stop_span};

    /// A trail of no rope.
    pub fn new() -> Trail
        ensures { (t : Table) → IsTrail t result }
    {
        Trail {
            stops: [NO_STOP; MOST_STOPS],
            count: 0,
        }
    }

    /// Begins at this root, where the trail is of another one.
    #[inline(always)]
    pub(crate) fn begin_at<S: CountedSpace<L>, L: Ledger>(&mut self, space: &S, root: NodeId)
        requires sound { IsSound (S.table space.now) }
        requires there { root.0 < length (S.table space.now).nodes }
        requires trail { IsTrail (S.table space.now) self.old }
        ensures { IsTrailOf (S.table space.now) root self.new }
    {
        if self.count == 0 || self.stops[0].node.0 != root.0 {
            self.stops[0] = Stop {
                node: root,
                from: 0,
                end: space.node_len(root),
                start: 0,
            };
            self.count = 1;
        }
    }

    /// The last stop that holds the first `len` bytes of a span and is the root or no lower than `low`; those behind it
    /// are forgotten.
    #[inline(always)]
    pub(crate) fn back_to<S: CountedSpace<L>, L: Ledger>(
        &mut self,
        space: &S,
        x: Span,
        len: u64,
        low: u32,
    ) -> Stop
        requires sound { IsSound (S.table space.now) }
        requires trail { IsTrailOf (S.table space.now) x.node self.old }
        requires span { IsSpan (S.table space.now) x }
        requires some { 1 ≤ len }
        requires inside { len ≤ x.len }
        ensures last { IsLastStop (S.table space.now) x self.new result }
        ensures holds { StopHolds result x.start len }
        ensures low { (low ≤ result.node.0) ⊎ (result ≡ first_stop (S.table space.now) x.node) }
    {
        let end = x.start + len;
        while self.count > 1 {
            let stop = self.stops[self.count - 1];
            if stop.from <= x.start && end <= stop.end && low <= stop.node.0 {
                return stop;
            }
            self.count -= 1;
        }
        self.stops[0]
    }

    /// A step down from the last stop, whose node is `view`, where the span's first `least` bytes lie in one child.
    #[inline(always)]
    pub(crate) fn below<S: CountedSpace<L>, L: Ledger>(
        &self,
        space: &S,
        x: Span,
        stop: Stop,
        view: NodeView,
        least: u64,
    ) -> Descent<Stop>
        requires sound { IsSound (S.table space.now) }
        requires true_records { HasTrueRecords (S.table space.now) }
        requires span { IsSpan (S.table space.now) x }
        requires last { IsLastStop (S.table space.now) x self.now stop }
        requires view { view ≡ view_at (S.table space.now) stop.node.0 }
        requires some { 1 ≤ least }
        requires long { least ≤ (stop_span x stop).len }
        ensures goes { GoesDownTo (stop_span x) (S.table space.now) (stop_span x stop) view least result }
        ensures behind { FollowsLast (S.table space.now) x self.now result }
    {
        // Not by `step_down`: a stop has more than the span, and this is the step that checks take most of.
        match view {
            NodeView::Cat { l, r } => {
                let start = stop.place_in(x.start);
                let left = space.left_length(stop.node, l);
                if left <= start {
                    Descent::Below(stop.in_right(r, left))
                } else if least <= left - start {
                    Descent::Below(stop.in_left(l, left))
                } else {
                    Descent::Border
                }
            }
            NodeView::Sub { b, i } => Descent::Below(stop.in_base(b, i)),
            NodeView::Lit { .. } | NodeView::Src { .. } | NodeView::Fun => Descent::Leaf,
        }
    }

    /// One stop more.
    #[inline(always)]
    pub(crate) fn push<S: CountedSpace<L>, L: Ledger>(&mut self, space: &S, x: Span, stop: Stop)
        requires { IsStopOf (S.table space.now) x self.old self.old.count stop }
        ensures { IsLastStop (S.table space.now) x self.new stop }
    {
        // Field by field, so that what lies between them is not written.
        let place = &mut self.stops[self.count];
        place.node = stop.node;
        place.from = stop.from;
        place.end = stop.end;
        place.start = stop.start;
        self.count += 1;
    }

    /// The stop at which the root's byte at `place` is the byte `start` of this node, where there is one.
    #[inline(always)]
    pub(crate) fn find_stop<S: CountedSpace<L>, L: Ledger>(
        &self,
        space: &S,
        root: NodeId,
        place: u64,
        node: NodeId,
        start: u64,
    ) -> Option<Stop>
        requires { IsTrailOf (S.table space.now) root self.now }
        ensures { IfSome result (IsFound (S.table space.now) root.0 place node start) }
    {
        // Their numbers fall from the root on, so the lowest stop that is no lower than the node tells. Mostly it is
        // one of the last.
        if node.0 > self.stops[0].node.0 {
            return None;
        }
        let mut i = self.count;
        while i > 0 {
            i -= 1;
            let stop = self.stops[i];
            if stop.node.0 >= node.0 {
                return stop.found(place, node, start);
            }
            if self.count - i >= NEAR {
                return self.find_far(space, root, place, node, start, i);
            }
        }
        None
    }

    /// Looks for the stop among the first `end` ones, by halves.
    #[cold]
    #[inline(never)]
    fn find_far<S: CountedSpace<L>, L: Ledger>(
        &self,
        space: &S,
        root: NodeId,
        place: u64,
        node: NodeId,
        start: u64,
        end: usize,
    ) -> Option<Stop>
        requires trail { IsTrailOf (S.table space.now) root self.now }
        requires few { end ≤ self.now.count }
        ensures { IfSome result (IsFound (S.table space.now) root.0 place node start) }
    {
        let mut low = 0;
        let mut high = end;
        while high - low > 1 {
            let middle = low + (high - low) / 2;
            if self.stops[middle].node.0 >= node.0 {
                low = middle;
            } else {
                high = middle;
            }
        }
        self.stops[low].found(place, node, start)
    }
}

impl Way for Trail {
    ghost use Rattle.span_descent.specs.Trails.{IsTrail, IsLastStop, stop_span};

    type Here = Stop;

    ghost is_way = { IsTrail };

    ghost is_at = { IsLastStop };

    ghost lies = { stop_span };

    #[inline(always)]
    fn forget(&mut self) {
        self.count = 0;
    }

    #[inline(always)]
    fn begin<S: CountedSpace<L>, L: Ledger>(
        &mut self,
        space: &S,
        x: Span,
        len: u64,
        low: u32,
    ) -> Stop {
        self.begin_at(space, x.node);
        self.back_to(space, x, len, low)
    }

    #[inline(always)]
    fn span<S: CountedSpace<L>, L: Ledger>(&self, space: &S, x: Span, here: Stop) -> Span {
        here.span_of(x)
    }

    #[inline(always)]
    fn step<S: CountedSpace<L>, L: Ledger>(
        &mut self,
        space: &S,
        x: Span,
        here: Stop,
        view: NodeView,
        least: u64,
    ) -> Descent<Stop> {
        match self.below(space, x, here, view, least) {
            Descent::Below(stop) => {
                self.push(space, x, stop);
                Descent::Below(stop)
            }
            Descent::Leaf => Descent::Leaf,
            Descent::Border => Descent::Border,
        }
    }

    #[inline(always)]
    fn find<S: CountedSpace<L>, L: Ledger>(
        &self,
        space: &S,
        x: Span,
        last: Stop,
        other: Span,
    ) -> Option<Span> {
        match self.find_stop(space, x.node, x.start, other.node, other.start) {
            Some(stop) => Some(stop.span_of(x)),
            None => None,
        }
    }
}
