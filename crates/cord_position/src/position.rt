//! Positions in a rope's text.

ghost use Rattle.std.specs.Prelude.{◌≡◌, ◌↔◌, ◌<◌, ◌≤◌, ◌+◌, ◌-◌, min, length, map, take, drop, IsTrue, IsSome, IfSome, IfOk};
ghost use Rattle.rope_node.specs.declared.limits.TheConstants.{TEXT_LIMIT};
ghost use Rattle.rope_node.specs.Denotes.{Byte, rope_len, IsRope};
ghost use Rattle.cord_position.specs.Fetched.{IsFetched, ReadsSpan};
ghost use Rattle.cord_position.specs.Position.{bytes_here, cell_of, cells_here, left_here, text_len};
ghost use Rattle.cord_position.specs.Runs.{rope_span, AreBytesOf, IsLeafRun, IsRunPeriod, IsRunStart};

use crate::fetching::fetch_here;
use crate::fill::fill_part;
use crate::path::{Path, Step, holds, seek};
use crate::run::{find_period, find_run, literal_run, run_at};
use lazy_file::{SourceFault, Sources};
use leaf_buffer::Run;
use rope_node::{NodeSpace, Rope, rope_len};
use smallvec::SmallVec;
use std::alloc::Global;
use std::marker::Model;

/// A place of a rope's text: that of a byte, or the end behind the last one.
#[derive(Drop)]
pub struct Pos<'a, S: NodeSpace> {
    space: &'a S,
    rope: Rope,
    place: u64,
    /// The step to the leaf that holds the place, below the path's
    /// last fork. At the end it may be the last leaf's, or empty.
    here: Step,
    /// A cursor at the place, in the bytes of that step where its leaf is a literal; else in none.
    run: Run<'a>,
    path: Path,
}

impl<'a, S: NodeSpace> Model for Pos<'a, S> {
    ghost use Rattle.cord_position.specs.Position.{Position};
    ghost use Rattle.cord_position.specs.Steps.{IsReachedPlace};

    ghost Value = { Position S };

    ghost view = { λ a. record { space = a.space.now; rope = a.rope; index = a.place } };

    ghost invariant = { λ a. IsReachedPlace (S.table a.space.now) a.rope a.place a.here a.run a.path };
}

impl<'a, S: NodeSpace> Pos<'a, S> {
    /// The place `i` of a rope, or its end where `i` is past it. It takes no memory.
    pub fn set(alloc: Global, space: &'a S, rope: Rope, i: u64) -> Pos<'a, S>
        requires { IsRope (S.table space.now) rope }
        ensures space { result.space ≡ space.now }
        ensures rope { result.rope ≡ rope }
        ensures index { result.index ≡ min i (rope_len (S.table space.now) rope) }
    {
        // The table is sound, as its count says.
        let _count = space.count();
        let end = rope_len(space, rope);
        let mut pos = Pos {
            space,
            rope,
            place: end,
            here: Step::default(),
            run: Run::over(&[]),
            path: SmallVec::new(alloc),
        };
        pos.go_to(i.min(end));
        pos
    }

    /// Whether a byte stands here, and not the end.
    #[inline]
    pub fn valid(&self) -> bool
        ensures { IsTrue result ↔ self.now.index < text_len S.table self.now }
    {
        self.place < rope_len(self.space, self.rope)
    }

    /// The place, counted from the text's first byte.
    #[inline]
    pub fn index(&self) -> u64
        ensures index { result ≡ self.now.index }
        ensures limit { result < TEXT_LIMIT }
    {
        self.place
    }

    /// The byte that stands here; at the end, none.
    ///
    /// # Errors
    ///
    /// A source's fault, where the byte is one of that source and the read of it failed.
    #[inline]
    pub fn fetch<T: Sources>(&self, sources: &mut T) -> Result<Option<u8>, SourceFault>
        ensures byte { IfOk result (IsFetched (S.table self.now.space) (T.reading sources.old).stated
            self.now.rope self.now.index) }
        ensures inside { IfOk result
            (λ found. IsSome found ↔ self.now.index < text_len S.table self.now) }
        ensures reads { ReadsSpan (T.reading sources.old) (T.reading sources.new)
            (cell_of S.table self.now) self.now.index (self.now.index + 1) result }
    {
        fetch_here(
            self.space, sources, self.rope, self.here, &self.run, self.place,
        )
    }

    /// Moves to the next place, and answers whether it moved: at the end it stays.
    #[inline]
    pub fn next(&mut self) -> bool
        ensures moved { IsTrue result ↔ self.old.index < text_len S.table self.old }
        ensures index { self.new.index ≡ min (self.old.index + 1) (text_len S.table self.old) }
        ensures space { self.new.space ≡ self.old.space }
        ensures rope { self.new.rope ≡ self.old.rope }
    {
        let to = self.place + 1;
        if holds(self.here, to) {
            self.place = to;
            self.run.next();
            return true;
        }
        let moves = self.place < rope_len(self.space, self.rope);
        if moves {
            self.go_to(to);
        }
        moves
    }

    /// Moves to the place before, and answers whether it moved: at the text's first byte it stays.
    #[inline]
    pub fn prev(&mut self) -> bool
        ensures moved { IsTrue result ↔ 0 < self.old.index }
        ensures index { self.new.index ≡ self.old.index - 1 }
        ensures space { self.new.space ≡ self.old.space }
        ensures rope { self.new.rope ≡ self.old.rope }
    {
        if self.place == 0 {
            return false;
        }
        let to = self.place - 1;
        if holds(self.here, to) {
            self.place = to;
            self.run.back();
        } else {
            self.go_to(to);
        }
        true
    }

    /// Moves on by `n` places, to the end where there are fewer.
    pub fn skip(&mut self, n: u64)
        ensures index { self.new.index ≡ min (self.old.index + n) (text_len S.table self.old) }
        ensures space { self.new.space ≡ self.old.space }
        ensures rope { self.new.rope ≡ self.old.rope }
    {
        let left = rope_len(self.space, self.rope) - self.place;
        let count = n.min(left);
        let to = self.place + count;
        if holds(self.here, to) {
            self.place = to;
            self.run.skip(count as usize);
        } else {
            self.go_to(to);
        }
    }

    /// Goes to a place. Where it is a byte's, the path leads there.
    fn go_to(&mut self, to: u64)
        requires { to ≤ text_len S.table self.old }
        ensures index { self.new.index ≡ to }
        ensures space { self.new.space ≡ self.old.space }
        ensures rope { self.new.rope ≡ self.old.rope }
    {
        self.place = to;
        match self.rope {
            Some(root) if to < self.space.len(root) => {
                self.here = seek(self.space, root, &mut self.path, to);
                self.run = run_at(self.space, self.here, to);
            }
            _ => {
                self.here = Step::default();
                self.run = Run::over(&[]);
            }
        }
    }

    /// How many bytes there are from here to the end of the present leaf's span; at the end, 0.
    #[inline]
    pub fn run_left(&self) -> u64
        ensures exact { result ≡ left_here S.table self.now }
        ensures inside { self.now.index + result ≤ text_len S.table self.now }
        ensures run { IfSome (rope_span (S.table self.now.space) self.now.rope self.now.index)
            (IsLeafRun (S.table self.now.space) self.now.rope self.now.index) }
        ensures some { self.now.index < text_len S.table self.now → 1 ≤ result }
    {
        match find_run(self.space, self.rope, self.here, self.place) {
            Some(span) => span.len,
            None => 0,
        }
    }

    /// The place of the first byte of the present leaf's span; at the end, the end.
    pub fn run_start(&self) -> u64
        ensures { IsRunStart (S.table self.now.space) self.now.rope self.now.index result }
    {
        if holds(self.here, self.place) {
            self.here.first
        } else {
            self.place
        }
    }

    /// After how many bytes those from here to the end of the present
    /// leaf's span repeat, where the leaf is a function that says so.
    pub fn run_period(&self) -> Option<u64>
        ensures { IfSome result
            (IsRunPeriod (S.table self.now.space) self.now.rope self.now.index) }
    {
        find_period(self.space, self.rope, self.here, self.place)
    }

    /// The bytes from here to the end of the present leaf's span,
    /// where the leaf is a literal; elsewhere and at the end, none.
    #[inline]
    pub fn run_bytes(&self) -> &[u8]
        ensures exact { result.now ≡ bytes_here S.table self.now }
        ensures cells { 1 ≤ length result.now
            → map Byte result.now ≡ cells_here S.table self.now (left_here S.table self.now) }
    {
        literal_run(self.space, self.rope, self.here, &self.run, self.place)
    }

    /// Writes the bytes from here to the end of the present leaf's span into the
    /// buffer, as many as it takes, and answers how many. The position stays.
    ///
    /// # Errors
    ///
    /// A source's fault, where the leaf is a part of that source and the
    /// read of these bytes failed. They may then be any bytes in the buffer.
    pub fn fill<T: Sources>(&self, sources: &mut T, buffer: &mut [u8]) -> Result<usize, SourceFault>
        ensures count { IfOk result
            (λ n. n ≡ min (left_here S.table self.now) (length buffer.old)) }
        ensures length { length buffer.new ≡ length buffer.old }
        ensures rest { let n = min (left_here S.table self.now) (length buffer.old) in
            drop n buffer.new ≡ drop n buffer.old }
        ensures bytes { IfOk result (λ n. AreBytesOf (T.reading sources.old).stated
            (cells_here S.table self.now n) (take n buffer.new)) }
        ensures reads { let n = min (left_here S.table self.now) (length buffer.old) in
            ReadsSpan (T.reading sources.old) (T.reading sources.new)
            (cell_of S.table self.now) self.now.index (self.now.index + n) result }
    {
        let Some(span) = find_run(self.space, self.rope, self.here, self.place) else {
            return Ok(0);
        };
        let n = span.len.min(buffer.len() as u64) as usize;
        if n > 0 {
            fill_part(self.space, sources, span.leaf, span.start, &mut buffer[..n])?;
        }
        Ok(n)
    }
}
