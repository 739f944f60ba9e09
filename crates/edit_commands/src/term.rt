//! The terms of which a command makes its text.

ghost use Rattle.std.specs.Prelude.{◌≡◌, ◌≤◌, [], ◌∷◌, ◌++◌, length, drop, MatchOption, Some};
ghost use Rattle.std.specs.List.{sum_by};
ghost use Rattle.edit_commands.specs.Terms.{changed_terms, front_term, next_place, ready, term_of, AreInOrder};

use crate::command::Change;
use rope_node::Rope;
use std::marker::Model;

/// What is taken from a session as it stands.
#[derive(Clone, Copy)]
pub enum Piece {
    /// An earlier root.
    Whole { rope: Rope },
    /// The `n` bytes of an earlier root from `i` on.
    Span { rope: Rope, i: u64, n: u64 },
    /// An earlier root, put together anew.
    Balanced { rope: Rope },
    /// All of source `s`.
    Source { s: u32 },
    /// `n` bytes `c`.
    Chars { c: u8, n: u64 },
}

/// The next term of a command's text.
#[derive(Clone, Copy)]
pub enum NextTerm<'a> {
    /// A piece of what is there.
    Taken { piece: Piece },
    /// Bytes handed in.
    Handed { bytes: &'a [u8] },
}

/// The terms of a command that are left, in their order: those that are ready, and behind them a rope with changes. It
/// takes no memory, whatever their number. Contracts see the list of them.
#[derive(Drop)]
pub struct Terms<'a> {
    first: Option<NextTerm<'a>>,
    second: Option<NextTerm<'a>>,
    third: Option<NextTerm<'a>>,
    rope: Rope,
    /// The rope's length.
    len: u64,
    /// The changes that are left, and the bytes for them.
    changes: &'a [Change],
    bytes: &'a [u8],
}

impl<'a> Model for Terms<'a> {
    ghost use Rattle.std.specs.Prelude.{◌≤◌, ◌++◌, List, length};
    ghost use Rattle.std.specs.List.{sum_by};
    ghost use Rattle.edit_commands.specs.Terms.{changed_terms, ready, AreInOrder, Term};

    ghost Value = { List Term };

    ghost view = { λ s. ready s.first ++ (ready s.second ++ (ready s.third
        ++ changed_terms s.rope s.len s.changes.now s.bytes.now)) };

    ghost invariant = { λ s. AreInOrder s.len s.changes.now
        × (sum_by (λ c. c.n) s.changes.now ≤ length s.bytes.now) };
}

/// Where the first of the changes stands, or this length where there is none.
fn next_place(changes: &[Change], len: u64) -> u64
    ensures { result ≡ next_place len changes.now }
{
    if changes.len() > 0 { changes[0].p } else { len }
}

impl<'a> Terms<'a> {
    /// At most three terms.
    pub fn few(
        first: Option<NextTerm<'a>>,
        second: Option<NextTerm<'a>>,
        third: Option<NextTerm<'a>>,
    ) -> Terms<'a>
        ensures { result ≡ ready first.entry ++ (ready second.entry ++ (ready third.entry ++ [])) }
    {
        Terms {
            first,
            second,
            third,
            rope: None,
            len: 0,
            changes: &[],
            bytes: &[],
        }
    }

    /// A rope of this length with these changes.
    pub fn changed(rope: Rope, len: u64, changes: &'a [Change], bytes: &'a [u8]) -> Terms<'a>
        requires order { AreInOrder len changes.now }
        requires takes { sum_by (λ c. c.n) changes.now ≤ length bytes.now }
        ensures { result ≡ front_term rope (next_place len changes.now) ∷ changed_terms rope len changes.now bytes.now }
    {
        let n = next_place(changes, len);
        let piece = Piece::Span { rope, i: 0, n };
        Terms {
            first: Some(NextTerm::Taken { piece }),
            second: None,
            third: None,
            rope,
            len,
            changes,
            bytes,
        }
    }

    /// The next term, where there is one.
    pub fn next(&mut self) -> Option<NextTerm<'a>>
        ensures { MatchOption result ((self.old ≡ []) × (self.new ≡ []))
            (λ term. self.old ≡ term_of term ∷ self.new) }
    {
        if let Some(term) = self.first {
            self.first = None;
            return Some(term);
        }
        if let Some(term) = self.second {
            self.second = None;
            return Some(term);
        }
        if let Some(term) = self.third {
            self.third = None;
            return Some(term);
        }
        let (change, later) = self.changes.split_first()?;
        let to = next_place(later, self.len);
        let i = change.p + change.m;
        let (bytes, rest) = self.bytes.split_at(change.n as usize);
        let piece = Piece::Span {
            rope: self.rope,
            i,
            n: to - i,
        };
        self.first = Some(NextTerm::Taken { piece });
        self.changes = later;
        self.bytes = rest;
        Some(NextTerm::Handed { bytes })
    }
}
