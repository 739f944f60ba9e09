//! What is left of a rope between splices.

ghost use Rattle.std.specs.Prelude.{◌≡◌, ◌↔◌, ◌+◌, ◌^◌, ◌<◌, ◌≤◌, [], ◌++◌, length, take, drop, IsTrue};
ghost use Rattle.command_parts.specs.Parts.{nonempty, pieces, Follow};
ghost use Rattle.command_parts.specs.declared.pieces.TheConstants.{READY};

use crate::part::{NO_PART, Part};
use crate::splices::Splices;
use rope_node::Rope;
use std::marker::Model;

/// How many parts stand ready at once, empty ones among them.
pub const READY: usize = 3;

/// The parts of a rope from a place on, with what each of the splices that are left names replaced. They may be
/// empty. Contracts see the list of them.
#[derive(Drop)]
pub struct Pieces<'a, P: Splices> {
    rope: Rope,
    /// The rope's length.
    len: u64,
    /// How far the rope's bytes have gone into parts.
    from: u64,
    splices: &'a P,
    /// The place of the next splice.
    next: u32,
    /// How many splices are left.
    left: u32,
    /// Whether the rope's last piece is still to come.
    more: bool,
}

impl<'a, P: Splices> Model for Pieces<'a, P> {
    ghost use Rattle.std.specs.Prelude.{List, take, drop};
    ghost use Rattle.command_parts.specs.declared.part.Part.{Part};
    ghost use Rattle.command_parts.specs.Parts.{IsCutting, pieces_left};

    ghost Value = { List Part };

    ghost view = { λ s. pieces_left s.more s.rope s.len s.from
        (take s.left (drop s.next (P.splices s.splices.now))) };

    ghost invariant = { λ s. IsCutting (P.splices s.splices.now) s.len s.from s.next s.left };
}

impl<'a, P: Splices> Pieces<'a, P> {
    /// No pieces.
    pub fn none(splices: &'a P) -> Pieces<'a, P>
        ensures { result ≡ [] }
    {
        Pieces {
            rope: None,
            len: 0,
            from: 0,
            splices,
            next: 0,
            left: 0,
            more: false,
        }
    }

    /// The rope of which they are pieces.
    #[inline(always)]
    pub fn rope(&self) -> Rope {
        self.rope
    }

    /// Those of a rope of this length, with `count` splices from place `first` on.
    pub fn of(rope: Rope, len: u64, splices: &'a P, first: u32, count: u32) -> Pieces<'a, P>
        requires there { first + count ≤ length (P.splices splices.now) }
        requires fit { first + count < 2 ^ 32 }
        requires follow { Follow len 0 (take count (drop first (P.splices splices.now))) }
        ensures { result ≡ pieces rope len 0 (take count (drop first (P.splices splices.now))) }
    {
        Pieces {
            rope,
            len,
            from: 0,
            splices,
            next: first,
            left: count,
            more: true,
        }
    }

    /// Whether none is left.
    pub fn is_done(&self) -> bool
        ensures { IsTrue result ↔ (self.now ≡ []) }
    {
        !self.more
    }

    /// Puts the next ones, at most two of them not empty, in the place of others.
    #[inline(never)]
    pub fn cut(&mut self, ready: &mut [Part; READY])
        requires { 1 ≤ length self.old }
        ensures size { length ready.new ≡ READY }
        ensures parts { nonempty ready.new ++ nonempty self.new ≡ nonempty self.old }
        ensures fewer { length self.new < length self.old }
    {
        if self.left == 0 {
            self.more = false;
            let last = Part::Old {
                rope: self.rope,
                i: self.from,
                n: self.len - self.from,
            };
            *ready = [last, NO_PART, NO_PART];
            return;
        }
        let splice = self.splices.splice(self.next);
        let before = Part::Old {
            rope: self.rope,
            i: self.from,
            n: splice.p - self.from,
        };
        self.from = splice.p + splice.m;
        self.next += 1;
        self.left -= 1;
        let put = Part::Pool {
            a: splice.a,
            n: splice.n,
        };
        *ready = [before, put, NO_PART];
    }
}
