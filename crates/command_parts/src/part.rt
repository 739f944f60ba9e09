//! The parts of which a command makes its text.

ghost use Rattle.std.specs.Prelude.{◌≡◌, ◌+◌, ◌<◌, ◌≤◌, length, get_or};
ghost use Rattle.rope_node.specs.Denotes.{rope_len, IsRope};
ghost use Rattle.command_parts.specs.Parts.{part_len, front, rest, whole};

use rope_node::{NodeSpace, Rope, rope_len};

/// A piece of a command's text.
#[derive(Clone, Copy, Debug, PartialEq, Eq)]
pub enum Part {
    /// The `n` bytes of an earlier text from `i` on.
    Old { rope: Rope, i: u64, n: u64 },
    /// The `n` bytes of the pool from `a` on.
    Pool { a: u64, n: u64 },
    /// The first `n` bytes of source `s`.
    Source { s: u32, n: u64 },
    /// `n` bytes `c`.
    Fill { c: u8, n: u64 },
}

impl Part {
    /// How many bytes it has.
    pub fn len(self) -> u64
        ensures { result ≡ part_len self }
    {
        match self {
            Part::Old { n, .. }
            | Part::Pool { n, .. }
            | Part::Source { n, .. }
            | Part::Fill { n, .. } => n,
        }
    }
}

impl Part {
    /// The rope of which it is a piece, where it is one.
    #[inline(always)]
    pub(crate) fn rope(self) -> Rope {
        match self {
            Part::Old { rope, .. } => rope,
            Part::Pool { .. } | Part::Source { .. } | Part::Fill { .. } => None,
        }
    }
}

/// A part of no bytes.
pub const NO_PART: Part = Part::Pool { a: 0, n: 0 };

/// The whole of source `s`.
pub fn opened<S: NodeSpace>(space: &S, s: u32) -> Part
    requires { s < length (S.table space.now).sources }
    ensures { result ≡ Part.Source s (get_or (S.table space.now).sources s 0) }
{
    let n = space.source_len(s);
    Part::Source { s, n }
}

/// A rope up to place `p`.
pub fn front(rope: Rope, p: u64) -> Part
    ensures { result ≡ front rope p }
{
    Part::Old { rope, i: 0, n: p }
}

/// A rope from the end of its `m` bytes at place `p` on.
pub fn rest<S: NodeSpace>(space: &S, rope: Rope, p: u64, m: u64) -> Part
    requires there { IsRope (S.table space.now) rope }
    requires inside { p + m ≤ rope_len (S.table space.now) rope }
    ensures { result ≡ rest (S.table space.now) rope (p + m) }
{
    let len = rope_len(space, rope);
    Part::Old {
        rope,
        i: p + m,
        n: len - (p + m),
    }
}

/// The whole of a rope.
pub fn whole<S: NodeSpace>(space: &S, rope: Rope) -> Part
    requires { IsRope (S.table space.now) rope }
    ensures { result ≡ whole (S.table space.now) rope }
{
    Part::Old {
        rope,
        i: 0,
        n: rope_len(space, rope),
    }
}
