//! Looks at the nodes of a space, and how many a row takes.

ghost use Rattle.std.specs.Prelude.{◌≡◌, ◌+◌, ◌*◌, ◌<◌, ◌≤◌, length, take, drop, get_or};
ghost use Rattle.rope_node.specs.declared.limits.TheConstants.{MOST_DEPTH, TEXT_LIMIT};
ghost use Rattle.command_parts.specs.Commands.{full_edit, NamesSplices};
ghost use Rattle.command_parts.specs.Parts.{parts_of, IsInRange, AreRopes, AreParts};
ghost use Rattle.span_certificate.specs.declared.looks.TheConstants.{LOOKS_LIMIT};
ghost use Rattle.span_descent.specs.declared.stop.TheConstants.{MOST_STOPS};
ghost use Rattle.rope_node.specs.Denotes.{rope_len, IsRope};
ghost use Rattle.rope_node.specs.Table.{view_at, len_at, depth_at, IsSound, HasTrueRecords, IsLiteral, IsFunction, literal_from};

use command_parts::{Edit, PartIter, Roots, Splices, parts};
use function_leaf::Coded;
use rope_node::{CodedSpace, NodeId, NodeSpace, NodeView, Rope, rope_len};
use span_descent::Count;
use std::sync::ledger::Ledger;

/// The most looks that a row takes; for each byte that it compares, it takes at most as many more.
pub const LOOKS_LIMIT: u64 = 132;

/// They are those of two ways down, each of its most nodes and of the function that it ends at.
pub fn looks_of_two_ways()
    ensures ways { LOOKS_LIMIT ≡ 2 * (MOST_STOPS + 1) }
    ensures nodes { MOST_STOPS ≡ MOST_DEPTH + 1 }
{}

/// A space whose nodes are had for looks alone, and the count of them.
#[derive(Drop)]
pub struct Looks<'a, 'c, S, L: Ledger> {
    pub(crate) space: &'a S,
    pub(crate) count: &'c mut Count<L>,
}

impl<'a, 'c, S: CodedSpace, L: Ledger> Looks<'a, 'c, S, L> {
    /// Looks at a space that raise a count.
    pub fn over(space: &'a S, count: &'c mut Count<L>) -> Looks<'a, 'c, S, L>
        ensures space { result.space.now ≡ space.now }
        ensures count { result.count.now ≡ count.old }
        ensures same_reference { result.count.ghost_name ≡ count.entry.ghost_name }
    {
        Looks { space, count }
    }

    /// What a node is: one look.
    pub fn node(&mut self, id: NodeId) -> NodeView
        requires { id.0 < length (S.NodeSpace.table self.old.space.now).nodes }
        ensures view { result ≡ view_at (S.NodeSpace.table self.old.space.now) id.0 }
        ensures space { self.new.space.now ≡ self.old.space.now }
        ensures count { self.new.count.now ≡ self.old.count.now + 1 }
        ensures same_reference { self.new.count.ghost_name ≡ self.old.count.ghost_name }
    {
        self.count.raise();
        self.space.node(id)
    }

    /// The function at a node: one look.
    pub fn coded(&mut self, id: NodeId) -> Coded
        requires there { id.0 < length (S.NodeSpace.table self.old.space.now).nodes }
        requires function { IsFunction (view_at (S.NodeSpace.table self.old.space.now) id.0) }
        ensures value { result ≡ S.coded self.old.space.now id.0 }
        ensures space { self.new.space.now ≡ self.old.space.now }
        ensures count { self.new.count.now ≡ self.old.count.now + 1 }
        ensures same_reference { self.new.count.ghost_name ≡ self.old.count.ghost_name }
    {
        self.count.raise();
        self.space.coded(id)
    }

    /// A literal's bytes from its byte `off` on: one look.
    pub fn literal(&mut self, id: NodeId, off: u64) -> &'a [u8]
        requires there { id.0 < length (S.NodeSpace.table self.old.space.now).nodes }
        requires literal { IsLiteral (view_at (S.NodeSpace.table self.old.space.now) id.0) }
        requires inside { off ≤ len_at (S.NodeSpace.table self.old.space.now) id.0 }
        ensures value { result.now ≡ literal_from (S.NodeSpace.table self.old.space.now) id.0 off }
        ensures space { self.new.space.now ≡ self.old.space.now }
        ensures count { self.new.count.now ≡ self.old.count.now + 1 }
        ensures same_reference { self.new.count.ghost_name ≡ self.old.count.ghost_name }
    {
        self.count.raise();
        self.space.literal(id, off)
    }

    /// The byte that the function at a node answers at place `i`: one look.
    pub fn fun_byte(&mut self, id: NodeId, i: u64) -> u8
        requires there { id.0 < length (S.NodeSpace.table self.old.space.now).nodes }
        requires function { IsFunction (view_at (S.NodeSpace.table self.old.space.now) id.0) }
        ensures value { result ≡ (S.NodeSpace.table self.old.space.now).answer id.0 i }
        ensures space { self.new.space.now ≡ self.old.space.now }
        ensures count { self.new.count.now ≡ self.old.count.now + 1 }
        ensures same_reference { self.new.count.ghost_name ≡ self.old.count.ghost_name }
    {
        self.count.raise();
        self.space.fun_byte(id, i)
    }

    /// How many nodes there are.
    pub fn node_count(&self) -> u32
        ensures count { result ≡ length (S.NodeSpace.table self.now.space.now).nodes }
        ensures sound { IsSound (S.NodeSpace.table self.now.space.now) }
        ensures true_records { HasTrueRecords (S.NodeSpace.table self.now.space.now) }
    {
        self.space.count()
    }

    /// The recorded length, in bytes.
    pub fn len(&self, id: NodeId) -> u64
        requires { id.0 < length (S.NodeSpace.table self.now.space.now).nodes }
        ensures value { result ≡ len_at (S.NodeSpace.table self.now.space.now) id.0 }
        ensures limit { result < TEXT_LIMIT }
    {
        self.space.len(id)
    }

    /// The recorded depth.
    pub fn depth(&self, id: NodeId) -> u8
        requires { id.0 < length (S.NodeSpace.table self.now.space.now).nodes }
        ensures value { result ≡ depth_at (S.NodeSpace.table self.now.space.now) id.0 }
        ensures limit { result ≤ MOST_DEPTH }
    {
        self.space.depth(id)
    }

    /// The length of a rope's text in bytes, 0 for nil.
    pub fn rope_len(&self, rope: Rope) -> u64
        requires { IsRope (S.NodeSpace.table self.now.space.now) rope }
        ensures exact { result ≡ rope_len (S.NodeSpace.table self.now.space.now) rope }
        ensures short { result < TEXT_LIMIT }
    {
        rope_len(self.space, rope)
    }

    /// How many sources there are.
    pub fn source_count(&self) -> u32
        ensures { result ≡ length (S.NodeSpace.table self.now.space.now).sources }
    {
        self.space.source_count()
    }

    /// The length of source `s`, in bytes.
    pub fn source_len(&self, s: u32) -> u64
        requires { s < length (S.NodeSpace.table self.now.space.now).sources }
        ensures { result ≡ get_or (S.NodeSpace.table self.now.space.now).sources s 0 }
    {
        self.space.source_len(s)
    }

    /// The length of the pool, in bytes.
    pub fn pool_len(&self) -> u64
        ensures { result ≡ length (S.NodeSpace.table self.now.space.now).pool }
    {
        self.space.pool_len()
    }

    /// Bytes of the pool from place `a` on: one or more of them.
    pub fn pool(&self, a: u64) -> &'a [u8]
        requires { a < length (S.NodeSpace.table self.now.space.now).pool }
        ensures some { 1 ≤ length result.now }
        ensures bytes { result.now ≡ take (length result.now) (drop a (S.NodeSpace.table self.now.space.now).pool) }
    {
        self.space.pool(a)
    }

    /// The parts of a command in range.
    pub fn parts<'p, R: Roots, P: Splices>(
        &self,
        roots: &R,
        splices: &'p P,
        edit: &Edit,
    ) -> PartIter<'p, P>
        requires ropes { AreRopes (S.NodeSpace.table self.now.space.now) (R.roots roots.now) }
        requires named { NamesSplices (P.splices splices.now) edit.now }
        requires in_range { IsInRange (S.NodeSpace.table self.now.space.now) (R.roots roots.now)
            (full_edit (P.splices splices.now) edit.now) }
        ensures exact { result ≡ parts_of (S.NodeSpace.table self.now.space.now) (R.roots roots.now)
            (full_edit (P.splices splices.now) edit.now) }
        ensures are_parts { AreParts (S.NodeSpace.table self.now.space.now) result }
    {
        parts(self.space, roots, splices, edit)
    }
}
