//! What every table of nodes offers.

ghost use Rattle.std.specs.Prelude.{◌≡◌, ◌<◌, ◌≤◌, ℕ, length, take, drop, get_or, IfSome};
ghost use Rattle.leaf_buffer.specs.declared.pool.TheConstants.{POOL_LIMIT};
ghost use Rattle.rope_node.specs.declared.limits.TheConstants.{MOST_DEPTH, TEXT_LIMIT};
ghost use Rattle.rope_node.specs.Denotes.{rope_cells, rope_len, IsRope};
ghost use Rattle.rope_node.specs.Table.{Table, view_at, len_at, depth_at, IsSound, HasTrueRecords, IsLeftPart, IsLiteral, IsFunction, literal_from};
ghost use Rattle.rope_node.specs.Coded.{AnswersCoded};
ghost use Rattle.function_leaf.specs.declared.coded.Coded.{Coded};
ghost use Rattle.function_leaf.specs.Repeating.{Repeats};

use crate::node::{NodeId, NodeView, Rope};
use function_leaf::Coded;

/// A sound table of nodes whose records are true.
pub trait NodeSpace {
    ghost table: { Self → Table };

    /// How many nodes there are. Their numbers begin at 0.
    fn count(&self) -> u32
        ensures count { result ≡ length (table self.now).nodes }
        ensures sound { IsSound (table self.now) }
        ensures true_records { HasTrueRecords (table self.now) };

    /// What a node is.
    fn node(&self, id: NodeId) -> NodeView
        requires { id.0 < length (table self.now).nodes }
        ensures view { result ≡ view_at (table self.now) id.0 }
        ensures sound { IsSound (table self.now) }
        ensures true_records { HasTrueRecords (table self.now) };

    /// The recorded length, in bytes.
    fn len(&self, id: NodeId) -> u64
        requires { id.0 < length (table self.now).nodes }
        ensures value { result ≡ len_at (table self.now) id.0 }
        ensures limit { result < TEXT_LIMIT }
        ensures sound { IsSound (table self.now) }
        ensures true_records { HasTrueRecords (table self.now) };

    /// The recorded length of the left part `l` of the concatenation `id`, in bytes. A table may keep it with the
    /// concatenation.
    fn left_len(&self, id: NodeId, l: NodeId) -> u64
        requires there { id.0 < length (table self.now).nodes }
        requires left { IsLeftPart (view_at (table self.now) id.0) l }
        ensures value { result ≡ len_at (table self.now) l.0 }
        ensures limit { result < TEXT_LIMIT }
        ensures sound { IsSound (table self.now) }
        ensures true_records { HasTrueRecords (table self.now) }
    {
        let _ = id;
        let _count = self.count();
        self.len(l)
    }

    /// The recorded depth.
    fn depth(&self, id: NodeId) -> u8
        requires { id.0 < length (table self.now).nodes }
        ensures value { result ≡ depth_at (table self.now) id.0 }
        ensures limit { result ≤ MOST_DEPTH };

    /// A literal's bytes from its byte `off` on.
    fn literal(&self, id: NodeId, off: u64) -> &[u8]
        requires there { id.0 < length (table self.now).nodes }
        requires literal { IsLiteral (view_at (table self.now) id.0) }
        requires inside { off ≤ len_at (table self.now) id.0 }
        ensures { result.now ≡ literal_from (table self.now) id.0 off };

    /// The byte that the function at a node answers at place `i`.
    fn fun_byte(&self, id: NodeId, i: u64) -> u8
        requires there { id.0 < length (table self.now).nodes }
        requires function { IsFunction (view_at (table self.now) id.0) }
        ensures { result ≡ (table self.now).answer id.0 i };

    /// After how many bytes those of the function at a node repeat, where that is known.
    fn period(&self, id: NodeId) -> Option<u64>
        requires there { id.0 < length (table self.now).nodes }
        requires function { IsFunction (view_at (table self.now) id.0) }
        ensures { IfSome result (Repeats ((table self.now).answer id.0)) };

    /// How many sources there are.
    fn source_count(&self) -> u32
        ensures { result ≡ length (table self.now).sources };

    /// The length of source `s`, in bytes.
    fn source_len(&self, s: u32) -> u64
        requires { s < length (table self.now).sources }
        ensures value { result ≡ get_or (table self.now).sources s 0 }
        ensures limit { result < TEXT_LIMIT };

    /// The length of the pool, in bytes.
    fn pool_len(&self) -> u64
        ensures value { result ≡ length (table self.now).pool }
        ensures limit { result < POOL_LIMIT };

    /// Bytes of the pool from place `a` on: one or more of them.
    fn pool(&self, a: u64) -> &[u8]
        requires { a < length (table self.now).pool }
        ensures some { 1 ≤ length result.now }
        ensures bytes { result.now ≡ take (length result.now) (drop a (table self.now).pool) };
}

/// A table whose functions are those that an image can hold.
pub trait CodedSpace: NodeSpace {
    ghost coded: { Self → ℕ → Coded };

    /// The function at a node.
    fn coded(&self, id: NodeId) -> Coded
        requires there { id.0 < length (Self.NodeSpace.table self.now).nodes }
        requires function { IsFunction (view_at (Self.NodeSpace.table self.now) id.0) }
        ensures { result ≡ coded self.now id.0 };

    // What the table answers at a node is what its function gives.
    ghost answered: { (s : Self) → (id : ℕ) → AnswersCoded (Self.NodeSpace.table s) id (coded s id) };
}

/// The length of a rope's text in bytes, 0 for nil.
pub fn rope_len<S: NodeSpace>(space: &S, rope: Rope) -> u64
    requires { IsRope (S.table space.now) rope }
    ensures exact { result ≡ rope_len (S.table space.now) rope }
    ensures cells { result ≡ length (rope_cells (S.table space.now) rope) }
    ensures short { result < TEXT_LIMIT }
{
    match rope {
        None => 0,
        Some(node) => space.len(node),
    }
}
