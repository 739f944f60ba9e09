//! A node on the way down to a place of a rope.

ghost use Rattle.std.specs.Prelude.{◌≡◌, ◌+◌, ◌-◌, ◌<◌, ◌≤◌, ◌^◌, IfSome};
ghost use Rattle.span_descent.specs.Trails.{IsThisStop, base_stop, left_stop, place_in, right_stop, stop_span};

use rope_node::{MOST_DEPTH, NodeId, Span};

/// The most nodes of a way down.
pub const MOST_STOPS: usize = MOST_DEPTH as usize + 1;

/// A node on the way down from a root. The root's bytes from `from` up to `end` are the node's from `start` on.
#[derive(Clone, Copy, Debug, PartialEq, Eq)]
pub struct Stop {
    pub node: NodeId,
    pub from: u64,
    pub end: u64,
    pub start: u64,
}

/// No node.
pub(crate) const NO_STOP: Stop = Stop {
    node: NodeId(0),
    from: 0,
    end: 0,
    start: 0,
};

impl Stop {
    /// Where the root's byte at `place` stands in the node.
    #[inline(always)]
    pub(crate) fn place_in(self, place: u64) -> u64
        requires behind { self.from ≤ place }
        requires fits { place_in self place < 2 ^ 64 }
        ensures { result ≡ place_in self place }
    {
        self.start + (place - self.from)
    }

    /// The bytes of its node to which the first ones of a span of the root lead.
    #[inline(always)]
    pub(crate) fn span_of(self, x: Span) -> Span
        requires behind { self.from ≤ x.start }
        requires ahead { x.start ≤ self.end }
        requires fits { place_in self x.start < 2 ^ 64 }
        ensures { result ≡ stop_span x self }
    {
        Span {
            node: self.node,
            start: self.place_in(x.start),
            len: x.len.min(self.end - x.start),
        }
    }

    /// What of it lies in the left child `l`, which has `left` bytes.
    #[inline(always)]
    pub(crate) fn in_left(self, l: NodeId, left: u64) -> Stop
        requires some { self.start < left }
        requires fits { self.from + left < 2 ^ 64 }
        ensures { result ≡ left_stop self l left }
    {
        Stop {
            node: l,
            from: self.from,
            end: self.end.min(self.from + (left - self.start)),
            start: self.start,
        }
    }

    /// What of it lies in the right child `r`, beside a left one of `left` bytes.
    #[inline(always)]
    pub(crate) fn in_right(self, r: NodeId, left: u64) -> Stop
        requires fits { self.from + left < 2 ^ 64 }
        ensures { result ≡ right_stop self r left }
    {
        Stop {
            node: r,
            from: self.from + left.saturating_sub(self.start),
            end: self.end,
            start: self.start.saturating_sub(left),
        }
    }

    /// This stop, if the root's byte at `place` is the byte `start` of this node in it.
    #[inline(always)]
    pub(crate) fn found(self, place: u64, node: NodeId, start: u64) -> Option<Stop>
        ensures { IfSome result (IsThisStop self place node start) }
    {
        if self.node.0 == node.0
            && self.from <= place
            && place < self.end
            && self.start <= start
            && start - self.start == place - self.from
        {
            Some(self)
        } else {
            None
        }
    }

    /// All of it, in the base `b` of which it is the bytes from `i` on.
    #[inline(always)]
    pub(crate) fn in_base(self, b: NodeId, i: u64) -> Stop
        requires { self.start + i < 2 ^ 64 }
        ensures { result ≡ base_stop self b i }
    {
        Stop {
            node: b,
            from: self.from,
            end: self.end,
            start: self.start + i,
        }
    }
}
