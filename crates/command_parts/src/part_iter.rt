//! The parts of which a command makes its text, one behind the other.

ghost use Rattle.std.specs.Prelude.{◌≡◌, ◌+◌, ◌≤◌, [], ◌∷◌, drop, MatchOption};
ghost use Rattle.rope_node.specs.Denotes.{rope_len, IsRope};
ghost use Rattle.command_parts.specs.Commands.{full_edit, NamesSplices};
ghost use Rattle.command_parts.specs.declared.pieces.TheConstants.{READY};
ghost use Rattle.command_parts.specs.Parts.{nonempty, front, rest, parts_of, IsInRange, AreRopes, AreParts};

use crate::edit::Edit;
use crate::part::{NO_PART, Part, front, opened, rest, whole};
use crate::pieces::{Pieces, READY};
use crate::roots::Roots;
use crate::splices::Splices;
use rope_node::{NodeSpace, Rope, rope_len};
use std::marker::Model;

/// The parts of a command that are left, in their order, none of them empty. It takes no memory, whatever their number.
#[derive(Drop)]
pub struct PartIter<'a, P: Splices> {
    /// The next ones, and empty ones that are passed over.
    ready: [Part; READY],
    /// How many of those are behind.
    given: usize,
    pieces: Pieces<'a, P>,
}

impl<'a, P: Splices> Model for PartIter<'a, P> {
    ghost use Rattle.std.specs.Prelude.{List, ◌≡◌, ◌≤◌, ◌++◌, length, drop};
    ghost use Rattle.command_parts.specs.declared.pieces.TheConstants.{READY};
    ghost use Rattle.command_parts.specs.declared.part.Part.{Part};
    ghost use Rattle.command_parts.specs.Parts.{nonempty};

    ghost Value = { List Part };

    ghost view = { λ s. nonempty (drop s.given s.ready) ++ nonempty s.pieces };

    ghost invariant = { λ s. (length s.ready ≡ READY) × (s.given ≤ READY) };
}

impl<'a, P: Splices> PartIter<'a, P> {
    /// The next part, where there is one.
    #[inline(always)]
    pub fn next(&mut self) -> Option<Part>
        ensures { MatchOption result ((self.old ≡ []) × (self.new ≡ [])) (λ part. self.old ≡ part ∷ self.new) }
    {
        loop {
            if self.given == READY {
                if self.pieces.is_done() {
                    return None;
                }
                self.pieces.cut(&mut self.ready);
                self.given = 0;
            }
            let part = self.ready[self.given];
            self.given += 1;
            if part.len() > 0 {
                return Some(part);
            }
        }
    }

    /// The ropes of the parts that stood ready first.
    #[inline(always)]
    pub fn ready_ropes(&self) -> [Rope; READY] {
        let [first, second, last] = self.ready;
        [first.rope(), second.rope(), last.rope()]
    }

    /// The rope that is cut into pieces, where one is.
    #[inline(always)]
    pub fn cut_rope(&self) -> Rope {
        self.pieces.rope()
    }

    /// The parts from the `given`th on that are not empty.
    #[inline(always)]
    fn few(ready: [Part; READY], given: usize, splices: &'a P) -> PartIter<'a, P>
        requires { given ≤ READY }
        ensures { result ≡ nonempty (drop given ready) }
    {
        PartIter {
            ready,
            given,
            pieces: Pieces::none(splices),
        }
    }

    /// The one part, where it is not empty.
    #[inline(always)]
    fn one(part: Part, splices: &'a P) -> PartIter<'a, P>
        ensures { result ≡ nonempty (part ∷ []) }
    {
        PartIter::few([NO_PART, NO_PART, part], 2, splices)
    }

    /// Those of the two that are not empty.
    #[inline(always)]
    fn two(first: Part, second: Part, splices: &'a P) -> PartIter<'a, P>
        ensures { result ≡ nonempty (first ∷ second ∷ []) }
    {
        PartIter::few([NO_PART, first, second], 1, splices)
    }

    /// The parts of a rope whose `m` bytes at place `p` give way to `middle`.
    #[inline(always)]
    fn around<S: NodeSpace>(
        space: &S,
        rope: Rope,
        p: u64,
        m: u64,
        middle: Part,
        splices: &'a P,
    ) -> PartIter<'a, P>
        requires there { IsRope (S.table space.now) rope }
        requires inside { p + m ≤ rope_len (S.table space.now) rope }
        ensures { result ≡ nonempty (front rope p ∷ middle ∷ rest (S.table space.now) rope (p + m) ∷ []) }
    {
        PartIter::few(
            [front(rope, p), middle, rest(space, rope, p, m)],
            0,
            splices,
        )
    }

    /// The pieces of a rope that are not empty.
    #[inline(always)]
    fn cutting(pieces: Pieces<'a, P>) -> PartIter<'a, P>
        ensures { result ≡ nonempty pieces.entry }
    {
        PartIter {
            ready: [NO_PART; READY],
            given: READY,
            pieces,
        }
    }
}

/// The parts of a command in range.
pub fn parts<'a, S: NodeSpace, R: Roots, P: Splices>(
    space: &S,
    roots: &R,
    splices: &'a P,
    edit: &Edit,
) -> PartIter<'a, P>
    requires ropes { AreRopes (S.table space.now) (R.roots roots.now) }
    requires named { NamesSplices (P.splices splices.now) edit.now }
    requires in_range { IsInRange (S.table space.now) (R.roots roots.now)
        (full_edit (P.splices splices.now) edit.now) }
    ensures exact { result ≡ parts_of (S.table space.now) (R.roots roots.now)
        (full_edit (P.splices splices.now) edit.now) }
    ensures are_parts { AreParts (S.table space.now) result }
{
    match *edit {
        Edit::New => PartIter::few([NO_PART; READY], READY, splices),
        Edit::Open { s } => PartIter::one(opened(space, s), splices),
        Edit::Insert { r, p, a, n } => {
            PartIter::around(space, roots.root(r), p, 0, Part::Pool { a, n }, splices)
        }
        Edit::Delete { r, p, n } => {
            let rope = roots.root(r);
            PartIter::two(front(rope, p), rest(space, rope, p, n), splices)
        }
        Edit::Replace { r, p, m, a, n } => {
            PartIter::around(space, roots.root(r), p, m, Part::Pool { a, n }, splices)
        }
        Edit::Paste { r, p, q, i, n } => {
            let rope = roots.root(q);
            let part = Part::Old { rope, i, n };
            PartIter::around(space, roots.root(r), p, 0, part, splices)
        }
        Edit::Join { r, q } => {
            let first = whole(space, roots.root(r));
            PartIter::two(first, whole(space, roots.root(q)), splices)
        }
        Edit::Cut { r, i, n } => {
            let rope = roots.root(r);
            PartIter::one(Part::Old { rope, i, n }, splices)
        }
        Edit::Fill { r, p, c, n } => {
            let part = Part::Fill { c: c as u8, n };
            PartIter::around(space, roots.root(r), p, 0, part, splices)
        }
        Edit::Back { r } | Edit::Balance { r } => {
            PartIter::one(whole(space, roots.root(r)), splices)
        }
        Edit::Many { r, first, count } => {
            let rope = roots.root(r);
            let len = rope_len(space, rope);
            PartIter::cutting(Pieces::of(rope, len, splices, first, count))
        }
    }
}
