//! Looks at the nodes of a space, counted.

ghost use Rattle.std.specs.Prelude.{◌≡◌, ◌+◌, ◌<◌, ◌≤◌, length, take, drop, IsTrue};
ghost use Rattle.rope_node.specs.declared.limits.TheConstants.{TEXT_LIMIT};
ghost use Rattle.span_descent.specs.Counts.{BeginsCount};
ghost use Rattle.span_descent.specs.declared.counted.TheConstants.{SHALLOW_DEPTH};
ghost use Rattle.rope_node.specs.Denotes.{rope_len, IsRope};
ghost use Rattle.rope_node.specs.Table.{view_at, len_at, depth_at, IsSound, HasTrueRecords, IsLeftPart, IsFunction};
ghost use Rattle.rope_node.specs.Steps.{IsSpan, StepsDownTo};

use function_leaf::Coded;
use rope_node::{CodedSpace, NodeId, NodeView, Rope, Span, StepDown, rope_len, step_down};
use std::marker::Model;
use std::sync::ledger::{Blank, Book, Ledger, Share};

/// A rope of at most this depth is shallow: a way down from its root costs less than what is kept of it.
const SHALLOW_DEPTH: u8 = 6;

/// How many looks were taken. It has no bytes, and no call lowers it.
#[derive(Drop)]
pub struct Count<L: Ledger> {
    book: Book<L>,
    share: Share<L>,
}

impl<L: Ledger> Model for Count<L> {
    ghost use Rattle.std.specs.Prelude.{ℕ, ◌<◌};

    ghost Value = { ℕ };

    ghost view = { λ a. a.book.total };

    ghost invariant = { λ a. 0 < a.share.parts };
}

impl<L: Ledger> Count<L> {
    /// A count of none.
    pub fn new(blank: Blank) -> Count<L>
        requires { BeginsCount L.name L.parts blank.name blank.parts }
        ensures { result ≡ 0 }
    {
        let (book, share) = blank.open::<L>();
        Count { book, share }
    }

    /// One look more.
    pub fn raise(&mut self)
        ensures { self.new ≡ self.old + 1 }
    {
        self.book.add(&mut self.share, 1);
    }
}

/// A space of which each look is counted by `L`. Not counted are how many nodes there are, lengths, bytes of the pool,
/// what is shallow, and the step down from a node that was looked at.
pub trait CountedSpace<L: Ledger> {
    ghost use Rattle.std.specs.Prelude.{ℕ};
    ghost use Rattle.function_leaf.specs.declared.coded.Coded.{Coded};
    ghost use Rattle.span_descent.specs.Counts.{BeginsCount};
    ghost use Rattle.rope_node.specs.Denotes.{rope_len, IsRope};
    ghost use Rattle.rope_node.specs.Table.{Table};
    ghost use Rattle.rope_node.specs.Coded.{AnswersCoded};

    ghost table: { Self → Table };

    ghost coded: { Self → ℕ → Coded };

    /// What a node is: one look.
    fn look(&self, id: NodeId, count: &mut Count<L>) -> NodeView
        requires { id.0 < length (table self.now).nodes }
        ensures view { result ≡ view_at (table self.now) id.0 }
        ensures sound { IsSound (table self.now) }
        ensures true_records { HasTrueRecords (table self.now) }
        ensures count { count.new ≡ count.old + 1 };

    /// The function at a node: one look.
    fn look_coded(&self, id: NodeId, count: &mut Count<L>) -> Coded
        requires there { id.0 < length (table self.now).nodes }
        requires function { IsFunction (view_at (table self.now) id.0) }
        ensures value { result ≡ coded self.now id.0 }
        ensures count { count.new ≡ count.old + 1 };

    /// Whether a way down from a node is so short that it is not worth keeping for the next one. Both lead to the same.
    fn is_shallow(&self, id: NodeId) -> bool
        requires { id.0 < length (table self.now).nodes }
        ensures { IsTrue result → depth_at (table self.now) id.0 ≤ SHALLOW_DEPTH }
    {
        let _ = id;
        false
    }

    /// How many nodes there are.
    fn node_count(&self) -> u32
        ensures count { result ≡ length (table self.now).nodes }
        ensures sound { IsSound (table self.now) }
        ensures true_records { HasTrueRecords (table self.now) };

    /// The recorded length of a node, in bytes.
    fn node_len(&self, id: NodeId) -> u64
        requires { id.0 < length (table self.now).nodes }
        ensures value { result ≡ len_at (table self.now) id.0 }
        ensures limit { result < TEXT_LIMIT }
        ensures sound { IsSound (table self.now) }
        ensures true_records { HasTrueRecords (table self.now) };

    /// The recorded length of the left part `l` of the concatenation `id`, in bytes.
    fn left_length(&self, id: NodeId, l: NodeId) -> u64
        requires there { id.0 < length (table self.now).nodes }
        requires left { IsLeftPart (view_at (table self.now) id.0) l }
        ensures value { result ≡ len_at (table self.now) l.0 }
        ensures limit { result < TEXT_LIMIT }
        ensures sound { IsSound (table self.now) }
        ensures true_records { HasTrueRecords (table self.now) }
    {
        let _ = id;
        let _count = self.node_count();
        self.node_len(l)
    }

    /// A step down from a span, whose node is `view`, where its first `least` bytes lie in one child.
    fn step_down(&self, x: Span, view: NodeView, least: u64) -> StepDown
        requires sound { IsSound (table self.now) }
        requires true_records { HasTrueRecords (table self.now) }
        requires span { IsSpan (table self.now) x }
        requires view { view ≡ view_at (table self.now) x.node.0 }
        requires some { 1 ≤ least }
        requires few { least ≤ x.len }
        ensures { StepsDownTo (table self.now) x view least result };

    /// The length of a rope's text in bytes, 0 for nil.
    fn length(&self, rope: Rope) -> u64
        requires { IsRope (table self.now) rope }
        ensures exact { result ≡ rope_len (table self.now) rope }
        ensures short { result < TEXT_LIMIT };

    /// The length of the pool, in bytes.
    fn pool_length(&self) -> u64
        ensures { result ≡ length (table self.now).pool };

    /// Bytes of the pool from place `a` on: one or more of them.
    fn pool_from(&self, a: u64) -> &[u8]
        requires { a < length (table self.now).pool }
        ensures some { 1 ≤ length result.now }
        ensures bytes { result.now ≡ take (length result.now) (drop a (table self.now).pool) };

    // What the table answers at a node is what its function gives.
    ghost answered: { (s : Self) → (id : ℕ) → AnswersCoded (table s) id (coded s id) };
}

impl<S: CodedSpace, L: Ledger> CountedSpace<L> for S {
    ghost table = { S.NodeSpace.table };

    ghost coded = { S.coded };

    ghost answered = { S.answered };

    fn look(&self, id: NodeId, count: &mut Count<L>) -> NodeView {
        count.raise();
        self.node(id)
    }

    fn look_coded(&self, id: NodeId, count: &mut Count<L>) -> Coded {
        count.raise();
        self.coded(id)
    }

    fn is_shallow(&self, id: NodeId) -> bool {
        self.depth(id) <= SHALLOW_DEPTH
    }

    fn node_count(&self) -> u32 {
        self.count()
    }

    fn node_len(&self, id: NodeId) -> u64 {
        self.len(id)
    }

    fn left_length(&self, id: NodeId, l: NodeId) -> u64 {
        self.left_len(id, l)
    }

    #[inline(always)]
    fn step_down(&self, x: Span, view: NodeView, least: u64) -> StepDown {
        step_down(self, x, view, least)
    }

    fn length(&self, rope: Rope) -> u64 {
        rope_len(self, rope)
    }

    fn pool_length(&self) -> u64 {
        self.pool_len()
    }

    fn pool_from(&self, a: u64) -> &[u8] {
        self.pool(a)
    }
}
