//! A long line whose borders are known, so that it is not searched through again.

ghost use Rattle.std.specs.Prelude.{◌≡◌, ◌↔◌, ◌<◌, ◌≤◌, ◌+◌, ◌-◌, ◌^◌, ◌∷◌, [], ℕ, List, length, IfSome, IsSome, IsTrue};
ghost use Rattle.rope_node.specs.Denotes.{IsRope, rope_len};
ghost use Rattle.cord_position.specs.Fetched.{rope_cell};
ghost use Rattle.cord_search.specs.declared.runs.TheConstants.{PIECE};
ghost use Rattle.text_lines.specs.KnownLines.{IsAbout, IsCut, IsPasted, IsTyped, IsWidened, StaysPasted, StaysCut, stays_beside};
ghost use Rattle.text_lines.specs.StatedCells.{AreToldByOthers, HaveOneSource, cell_source};

use crate::lines::LINE_BREAK;
use cord_position::Pos;
use cord_search::PIECE;
use rope_node::{NodeSpace, NodeView, Rope, find_leaf, rope_len};
use std::alloc::Global;

/// A line of at least this length stays known when another one is shown.
const VERY_LONG: u64 = 65_536;

/// A line of a text: where it begins, and the place of the break behind it, or the text's end.
#[derive(Clone, Copy, Debug, PartialEq, Eq)]
pub struct KnownLine {
    pub start: u64,
    pub end: u64,
}

impl KnownLine {
    /// Whether it is longer than what is searched through at once.
    pub(crate) fn is_long(self) -> bool
        ensures { IsTrue result ↔ (PIECE < self.end - self.start) }
    {
        self.end.saturating_sub(self.start) > PIECE as u64
    }

    /// Whether it is long, and `count` bytes from a place on lie in it, or none and the place lies in it or is its end.
    pub(crate) fn is_about(self, place: u64, count: u64) -> bool
        ensures { IsTrue result ↔ IsAbout place count self }
    {
        self.is_long() && self.start <= place && place <= self.end && count <= self.end - place
    }

    /// Whether it stays known when another line is shown: that is a different one, and this one is very long.
    pub(crate) fn stays_beside(self, shown: KnownLine) -> bool
        ensures { result ≡ stays_beside shown self }
    {
        self.start != shown.start && self.end.saturating_sub(self.start) >= VERY_LONG
    }

    /// The line after a byte is put in at a place. A line break parts it: the longer part stays known.
    pub fn typed(self, place: u64, byte: u8) -> Option<KnownLine>
        ensures line { IfSome result (IsTyped place byte self) }
        ensures kept { self.start ≤ self.end → self.end + 1 < 2 ^ 64 → IsSome result }
    {
        let start = self.start.checked_add(1)?;
        let end = self.end.checked_add(1)?;
        if place < self.start {
            return Some(KnownLine { start, end });
        }
        if self.end < place {
            return Some(self);
        }
        if byte != LINE_BREAK {
            return Some(KnownLine { end, ..self });
        }
        if place - self.start > self.end - place {
            return Some(KnownLine { end: place, ..self });
        }
        let start = place + 1;
        Some(KnownLine { start, end })
    }

    /// The line after `count` bytes are taken out at a place. It is forgotten where the break before it or behind it is
    /// one of them.
    pub fn cut(self, place: u64, count: u64) -> Option<KnownLine>
        ensures line { IfSome result (IsCut place count self) }
        ensures kept { StaysCut place count self → IsSome result }
    {
        if self.end < place {
            return Some(self);
        }
        let end = self.end.checked_sub(count)?;
        if self.start <= place && place <= end {
            return Some(KnownLine { end, ..self });
        }
        if self.start.checked_sub(place)? <= count {
            return None;
        }
        let start = self.start - count;
        Some(KnownLine { start, end })
    }

    /// The line after `put` bytes are put in at a place, whatever they are. It is forgotten where they are put into it,
    /// or at one of its ends.
    pub fn pasted(self, place: u64, put: u64) -> Option<KnownLine>
        ensures line { IfSome result (IsPasted place put self) }
        ensures kept { StaysPasted place put self → IsSome result }
    {
        if self.end < place {
            return Some(self);
        }
        if place >= self.start {
            return None;
        }
        let start = self.start.checked_add(put)?;
        let end = self.end.checked_add(put)?;
        Some(KnownLine { start, end })
    }

    /// The line after `put` bytes are put in at a place, of which none is a line break.
    pub fn widened(self, place: u64, put: u64) -> Option<KnownLine>
        ensures line { IfSome result (IsWidened place put self) }
        ensures kept { self.start ≤ self.end → self.end + put < 2 ^ 64 → IsSome result }
    {
        if self.end < place {
            return Some(self);
        }
        let end = self.end.checked_add(put)?;
        if self.start <= place {
            return Some(KnownLine { end, ..self });
        }
        let start = self.start.checked_add(put)?;
        Some(KnownLine { start, end })
    }
}

/// The source whose byte stands at a place of a rope, if it is a source's.
fn source_at<S: NodeSpace>(space: &S, rope: Rope, place: u64) -> Option<u32>
    requires rope { IsRope (S.table space.now) rope }
    requires inside { place < rope_len (S.table space.now) rope }
    ensures { result ≡ cell_source (rope_cell (S.table space.now) rope place) }
{
    let Some(node) = rope else { unreachable!() };
    let found = find_leaf(space, node, place);
    match space.node(found.leaf) {
        NodeView::Src { s, .. } => Some(s),
        NodeView::Lit { .. } | NodeView::Fun => None,
        NodeView::Cat { .. } | NodeView::Sub { .. } => unreachable!(),
    }
}

/// Whether `count` bytes from a place on are of one leaf, and so of one source or of none.
fn are_of_one_leaf<S: NodeSpace>(
    alloc: Global,
    space: &S,
    rope: Rope,
    place: u64,
    count: u64,
) -> bool
    requires rope { IsRope (S.table space.now) rope }
    requires some { 1 ≤ count }
    requires inside { place + count ≤ rope_len (S.table space.now) rope }
    ensures { IsTrue result → HaveOneSource (rope_cell (S.table space.now) rope) place count }
{
    let _count = space.count();
    let _len = rope_len(space, rope);
    let pos = Pos::set(alloc, space, rope, place);
    let left = pos.run_left();
    count <= left
}

/// Whether `count` bytes from a place on are of one leaf, and it is of no source, or of the source of a byte beside
/// them. Then they are stated where all other bytes are.
pub fn are_told_by_others<S: NodeSpace>(
    alloc: Global,
    space: &S,
    rope: Rope,
    place: u64,
    count: u64,
) -> bool
    requires rope { IsRope (S.table space.now) rope }
    requires some { 1 ≤ count }
    requires inside { place + count ≤ rope_len (S.table space.now) rope }
    ensures { IsTrue result
        → AreToldByOthers (rope_cell (S.table space.now) rope) (rope_len (S.table space.now) rope) place count }
{
    let len = rope_len(space, rope);
    if !are_of_one_leaf(alloc, space, rope, place, count) {
        return false;
    }
    let source = source_at(space, rope, place);
    if source.is_none() {
        return true;
    }
    if place > 0 && source == source_at(space, rope, place - 1) {
        return true;
    }
    place + count < len && source == source_at(space, rope, place + count)
}
