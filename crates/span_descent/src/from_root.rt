//! Ways of which nothing is kept.

ghost use Rattle.std.specs.Prelude.{⊤};

use crate::counted::CountedSpace;
use crate::way::{Descent, Way};
use rope_node::{NodeView, Span, StepDown};
use std::sync::ledger::Ledger;

/// Each way begins at its root, and nothing is kept of it. For shallow ropes that costs less.
#[derive(Clone, Copy, Debug)]
pub struct FromRoot;

impl Way for FromRoot {
    type Here = Span;

    ghost is_way = { λ _ _. ⊤ };

    ghost is_at = { λ _ _ _ _. ⊤ };

    ghost lies = { λ _ z. z };

    fn forget(&mut self) {}

    #[inline(always)]
    fn begin<S: CountedSpace<L>, L: Ledger>(
        &mut self,
        space: &S,
        x: Span,
        len: u64,
        low: u32,
    ) -> Span {
        let _ = (len, low);
        x
    }

    #[inline(always)]
    fn span<S: CountedSpace<L>, L: Ledger>(&self, space: &S, x: Span, here: Span) -> Span {
        let _ = x;
        here
    }

    #[inline(always)]
    fn step<S: CountedSpace<L>, L: Ledger>(
        &mut self,
        space: &S,
        x: Span,
        here: Span,
        view: NodeView,
        least: u64,
    ) -> Descent<Span> {
        match space.step_down(here, view, least) {
            StepDown::Below(below) => Descent::Below(below),
            StepDown::Leaf => Descent::Leaf,
            StepDown::Across(..) => Descent::Border,
        }
    }

    #[inline(always)]
    fn find<S: CountedSpace<L>, L: Ledger>(
        &self,
        space: &S,
        x: Span,
        last: Span,
        other: Span,
    ) -> Option<Span> {
        if last.node.0 == other.node.0 && last.start == other.start {
            Some(last)
        } else {
            None
        }
    }
}
