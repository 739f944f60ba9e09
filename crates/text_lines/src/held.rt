//! Bytes of a text about a place that are held, so that the lines about it are read once.

ghost use Rattle.std.specs.Prelude.{◌≡◌, ◌↔◌, ◌<◌, ◌≤◌, ◌+◌, ◌-◌, [], ℕ, List, length, take, drop, Option, None, Some, IsTrue, IfSome, IfOk, OnOk};
ghost use Rattle.rope_node.specs.Denotes.{IsRope, rope_len};
ghost use Rattle.cord_position.specs.Fetched.{ReadsSpan, rope_cell};
ghost use Rattle.cord_search.specs.declared.runs.TheConstants.{PIECE};
ghost use Rattle.cord_search.specs.Stated.{OfText};
ghost use Rattle.text_lines.specs.HeldBytes.{held_up_to, held_starting_at, AreHeld, HoldsText};
ghost use Rattle.text_lines.specs.declared.known.KnownLine.{KnownLine};
ghost use Rattle.text_lines.specs.KnownLines.{known_lines, learnt};
ghost use Rattle.text_lines.specs.Lines.{line_end, next_line};

use crate::known::KnownLine;
use crate::known_lines::KnownLines;
use cord_position::Pos;
use cord_search::{PIECE, gather};
use lazy_file::{SourceFault, Sources};
use rope_node::{NodeSpace, Rope, rope_len};
use std::alloc::Global;
use std::marker::Model;

/// The most bytes that are held: those that a search looks at at once, and the lines before them.
const ROOM: usize = PIECE + 1_024;

/// Reads the bytes of a text from `start` on into the whole of the buffer, as a search does: by one read for each leaf.
pub fn read_part<S: NodeSpace, T: Sources>(
    space: &S,
    sources: &mut T,
    rope: Rope,
    start: u64,
    buffer: &mut [u8],
) -> Result<(), SourceFault>
    requires rope { IsRope (S.table space.now) rope }
    requires inside { start + length buffer.old ≤ rope_len (S.table space.now) rope }
    ensures length { length buffer.new ≡ length buffer.old }
    ensures bytes { OnOk result (OfText (S.table space.now) (T.reading sources.old).stated rope
        (λ t. buffer.new ≡ take (length buffer.old) (drop start t))) }
    ensures reads { ReadsSpan (T.reading sources.old) (T.reading sources.new)
        (rope_cell (S.table space.now) rope) start (start + length buffer.old) result }
{
    let _len = rope_len(space, rope);
    if buffer.is_empty() {
        return Ok(());
    }
    match rope {
        Some(node) => gather(space, sources, node, start, buffer)?,
        None => unreachable!(),
    }
    Ok(())
}

/// Where the line begins behind one that ends at a place, in a text of `len` bytes.
fn next_line(end: u64, len: u64) -> Option<u64>
    ensures { result ≡ next_line end len }
{
    if end < len { Some(end + 1) } else { None }
}

/// Bytes of a text from a place on, and what is known of its lines.
#[derive(Drop)]
pub struct HeldBytes {
    from: u64,
    /// They stand in the array from here on.
    start: usize,
    /// They were read leaf by leaf, by short reads, whose blocks are kept.
    kept: bool,
    bytes: [u8; ROOM],
    /// The leaf that was looked for last: from its first place up to its end.
    leaf_start: u64,
    leaf_end: u64,
    /// A place where a line begins.
    begun: Option<u64>,
    known: KnownLines,
}

impl Model for HeldBytes {
    ghost use Rattle.std.specs.Prelude.{◌≤◌, drop};
    ghost use Rattle.text_lines.specs.declared.held.TheConstants.{ROOM};
    ghost use Rattle.text_lines.specs.HeldBytes.{HeldPart};

    ghost Value = { HeldPart };

    ghost view = { λ h. record { from = h.from; bytes = drop h.start h.bytes; begun = h.begun; known = h.known } };

    ghost invariant = { λ h. h.start ≤ ROOM };
}

impl HeldBytes {
    /// Holds no bytes yet; these lines are known.
    pub fn new(known: KnownLines) -> HeldBytes
        ensures { result ≡ record { from = 0; bytes = []; begun = None; known = known } }
    {
        HeldBytes {
            from: 0,
            start: ROOM,
            kept: true,
            bytes: [0; ROOM],
            leaf_start: 0,
            leaf_end: 0,
            begun: None,
            known,
        }
    }

    /// The lines that are known.
    pub fn known(&self) -> &KnownLines
        ensures { result.now ≡ self.now.known }
    {
        &self.known
    }

    /// A line begins at a place.
    pub fn begin_line(&mut self, place: u64)
        ensures { self.new ≡ record self.old { begun = Some place } }
    {
        self.begun = Some(place);
    }

    /// The line that begins at `start` ends at `end`, in a text of `len` bytes. If that start was known, the line is
    /// known from now on if it is long, and so is the start of the next line, which is answered in any case.
    pub fn pass_line(&mut self, start: u64, end: u64, len: u64) -> Option<u64>
        ensures next { result ≡ next_line end len }
        ensures bytes { self.new ≡ record self.old { begun = self.new.begun; known = self.new.known } }
        ensures held { (t : List ℕ) → AreHeld self.old t → start ≤ length t → end ≡ line_end t start → len ≡ length t
            → AreHeld self.new t }
        ensures learnt { self.old.begun ≡ Some start → PIECE < end - start
            → known_lines self.new.known ≡ learnt (record { start = start; end = end }) (known_lines self.old.known) }
    {
        let next = next_line(end, len);
        let Some(begun) = self.begun else {
            return next;
        };
        if begun != start {
            return next;
        }
        self.known.learn(KnownLine { start, end });
        self.begun = next;
        next
    }

    /// Whether a place is that of a byte that is held, or right behind the last one.
    fn reaches(&self, place: u64) -> bool
        ensures { IsTrue result ↔ (self.now.from ≤ place × place ≤ self.now.from + length self.now.bytes) }
    {
        self.from <= place && place - self.from <= (ROOM - self.start) as u64
    }

    /// The bytes that are held before a place: none where they end before it.
    pub fn up_to(&self, place: u64) -> &[u8]
        ensures { result.now ≡ held_up_to self.now place }
    {
        if self.reaches(place) {
            &self.bytes[self.start..self.start + (place - self.from) as usize]
        } else {
            &self.bytes[..0]
        }
    }

    /// The bytes that are held from a place on: none where that place is before the first of them.
    pub fn starting_at(&self, place: u64) -> &[u8]
        ensures { result.now ≡ held_starting_at self.now place }
    {
        if self.reaches(place) {
            &self.bytes[self.start + (place - self.from) as usize..]
        } else {
            &self.bytes[..0]
        }
    }

    /// Drops what is held, to hold bytes before a place.
    fn begin_at(&mut self, place: u64)
        ensures { self.new ≡ record self.old { from = place; bytes = [] } }
    {
        self.from = place;
        self.start = ROOM;
        self.kept = true;
    }

    /// Reads the bytes from `from` on before those that are held, leaf by leaf, and holds them too.
    fn read_before<S: NodeSpace, T: Sources>(
        &mut self,
        space: &S,
        sources: &mut T,
        rope: Rope,
        from: u64,
    ) -> Result<(), SourceFault>
        requires rope { IsRope (S.table space.now) rope }
        requires inside { self.old.from ≤ rope_len (S.table space.now) rope }
        requires room { self.old.from - from + length self.old.bytes ≤ ROOM }
        requires held { HoldsText (S.table space.now) (T.reading sources.old) rope self.old }
        ensures span { OnOk result ((self.new.from + (self.old.from - from) ≡ self.old.from)
            × (length self.new.bytes ≡ self.old.from - from + length self.old.bytes)) }
        ensures held { OnOk result (HoldsText (S.table space.now) (T.reading sources.old) rope self.new) }
        ensures reads { ReadsSpan (T.reading sources.old) (T.reading sources.new)
            (rope_cell (S.table space.now) rope) from self.old.from result }
    {
        prove!(self.from <= rope_len(space, rope));
        let count = self.from.saturating_sub(from);
        let first = self.start - count as usize;
        let part = &mut self.bytes[first..self.start];
        read_part(space, sources, rope, self.from - count, part)?;
        self.from -= count;
        self.start = first;
        Ok(())
    }

    /// Whether it is enough to read the bytes from `from` up to the first that is held: what is held reaches up to
    /// `end` and came by blocks that are kept, and there is room.
    fn takes_before(&self, from: u64, end: u64) -> bool
        ensures reaches { IsTrue result → (self.now.from ≤ end × end ≤ self.now.from + length self.now.bytes) }
        ensures room { IsTrue result → self.now.from - from + length self.now.bytes ≤ ROOM }
    {
        self.kept && self.reaches(end) && self.from.saturating_sub(from) <= self.start as u64
    }

    /// Holds the `PIECE` bytes before a place, or all where there are fewer. Where they lie in one leaf (`straight`), one
    /// long read brings them, no block of them is kept, and nothing else is held. Elsewhere it reads leaf by leaf, by
    /// blocks that are kept, and no byte again that is held and came so: the blocks are those of a search through them.
    pub(crate) fn hold_before<S: NodeSpace, T: Sources>(
        &mut self,
        space: &S,
        sources: &mut T,
        rope: Rope,
        end: u64,
        straight: bool,
    ) -> Result<(), SourceFault>
        requires rope { IsRope (S.table space.now) rope }
        requires end { end ≤ rope_len (S.table space.now) rope }
        requires straight { IsTrue straight → PIECE ≤ end }
        requires held { HoldsText (S.table space.now) (T.reading sources.old) rope self.old }
        ensures span { OnOk result (self.new.from ≤ end - PIECE × end ≤ self.new.from + length self.new.bytes) }
        ensures held { OnOk result (HoldsText (S.table space.now) (T.reading sources.old) rope self.new) }
        ensures reads { ReadsSpan (T.reading sources.old) (T.reading sources.new)
            (rope_cell (S.table space.now) rope) (end - PIECE) end result }
    {
        prove!(end <= rope_len(space, rope));
        let from = end.saturating_sub(PIECE as u64);
        if straight || !self.takes_before(from, end) {
            self.begin_at(end);
        }
        self.read_before(space, sources, rope, from)?;
        self.kept = !straight;
        Ok(())
    }

    /// The `count` bytes from a place on, where these are held and came by blocks that are kept.
    pub fn kept_part(&self, place: u64, count: usize) -> Option<&[u8]>
        ensures count { IfSome result (λ part. length part.now ≡ count) }
        ensures bytes { IfSome result (λ part. (t : List ℕ) → AreHeld self.now t
            → part.now ≡ take count (drop place t)) }
    {
        let near = self.starting_at(place);
        if self.kept && count <= near.len() {
            Some(&near[..count])
        } else {
            None
        }
    }

    /// How many bytes the leaf at a place has from there on. The leaf that was looked for last is known.
    pub fn leaf_left<S: NodeSpace>(
        &mut self,
        alloc: Global,
        space: &S,
        rope: Rope,
        place: u64,
    ) -> u64
        requires rope { IsRope (S.table space.now) rope }
        requires place { place ≤ rope_len (S.table space.now) rope }
        ensures same { self.new ≡ self.old }
        ensures inside { place + result ≤ rope_len (S.table space.now) rope }
    {
        let len = rope_len(space, rope);
        if place < self.leaf_start || self.leaf_end <= place {
            let pos = Pos::set(alloc, space, rope, place);
            self.leaf_start = pos.run_start();
            self.leaf_end = place + pos.run_left();
        }
        self.leaf_end.min(len).saturating_sub(place)
    }

    /// Whether the `PIECE` bytes before a place lie in one leaf.
    pub fn is_straight<S: NodeSpace>(
        &mut self,
        alloc: Global,
        space: &S,
        rope: Rope,
        place: u64,
    ) -> bool
        requires rope { IsRope (S.table space.now) rope }
        requires place { place ≤ rope_len (S.table space.now) rope }
        ensures same { self.new ≡ self.old }
        ensures window { IsTrue result → PIECE ≤ place }
    {
        let window = PIECE as u64;
        if place < window {
            return false;
        }
        let from = place - window;
        // A leaf that ends in between was looked for last.
        if from < self.leaf_end && self.leaf_end < place {
            return false;
        }
        self.leaf_left(alloc, space, rope, from) >= window
    }

    /// Whether a search from `start` on for the line break at `end`, which is held, would read nothing else: it is one
    /// read, or the bytes that are held came by blocks that are kept, up to the end of the break's leaf.
    pub fn tells<S: NodeSpace>(
        &mut self,
        alloc: Global,
        space: &S,
        rope: Rope,
        start: u64,
        end: u64,
    ) -> bool
        requires rope { IsRope (S.table space.now) rope }
        requires start { start ≤ rope_len (S.table space.now) rope }
        requires end { end ≤ rope_len (S.table space.now) rope }
        ensures { self.new ≡ self.old }
    {
        let len = rope_len(space, rope);
        if self.kept {
            // The leaf of the last byte that is held tells it of every break: each leaf before it is held to its end.
            let held_end = len.min(self.from.saturating_add((ROOM - self.start) as u64));
            self.leaf_left(alloc, space, rope, held_end.saturating_sub(1));
            if end < self.leaf_start || self.leaf_end <= held_end {
                return true;
            }
        }
        self.leaf_left(alloc, space, rope, start) >= PIECE as u64
    }
}
