//! A cursor in one leaf.

ghost use Rattle.std.specs.Prelude.{◌≡◌, ◌+◌, ◌<◌, ◌↔◌, ◌++◌, [], min, length, slice_get, take, drop, IsNone, IfSome, IfNone};
ghost use Rattle.leaf_buffer.specs.Progress.{Progress, Passes, leaf_of};

use crate::lent::Lent;
use std::marker::Model;

/// A cursor in one leaf's bytes, between those that it has passed and the rest.
#[derive(Drop)]
pub struct Run<'a> {
    /// The leaf's first byte.
    first: *const u8,
    /// The present byte, or the leaf's end.
    at: *const u8,
    /// How many bytes were passed.
    before: usize,
    /// How many bytes are left.
    after: usize,
    lent: Lent<'a>,
}

impl<'a> Model for Run<'a> {
    ghost use Rattle.std.specs.Prelude.{◌≡◌, ◌+◌, ◌<◌, ◌^◌, length, take, drop};
    ghost use Rattle.leaf_buffer.specs.Progress.{Progress};
    ghost use denote.RawPtr.{InBlock, ◌+ₚ◌};

    ghost Value = { Progress };

    ghost view = { λ r. record { passed = take r.before r.lent.bytes; rest = drop r.before r.lent.bytes } };

    ghost invariant = { λ r. (r.lent.first ≡ r.first) × InBlock r.first × (r.at ≡ r.first +ₚ r.before)
        × (r.before + r.after ≡ length r.lent.bytes) × (length r.lent.bytes < 2 ^ 63) };
}

impl<'a> Run<'a> {
    /// A run at the start of these bytes.
    pub fn over(bytes: &'a [u8]) -> Run<'a>
        ensures { result ≡ record { passed = []; rest = bytes.now } }
    {
        let after = bytes.len();
        let (first, lent) = Lent::over(bytes);
        Run {
            first,
            at: first,
            before: 0,
            after,
            lent,
        }
    }

    /// The byte that comes next, or `None` at the end.
    pub fn peek(&self) -> Option<u8>
        ensures { result ≡ slice_get self.now.rest 0 }
    {
        if self.after == 0 {
            return None;
        }
        Some(*self.lent.byte(self.at, self.before))
    }

    /// Moves over the next byte and gives it. At the end it gives `None` and stays.
    pub fn next(&mut self) -> Option<u8>
        ensures at_end { IsNone result ↔ (self.old.rest ≡ []) }
        ensures passes { IfSome result (Passes self.old self.new) }
        ensures stays { IfNone result (self.new ≡ self.old) }
        ensures leaf { leaf_of self.new ≡ leaf_of self.old }
    {
        let byte = self.peek()?;
        self.at = unsafe { self.at.byte_add(1) };
        self.before += 1;
        self.after -= 1;
        Some(byte)
    }

    /// Moves back over the last byte passed and gives it. At the start it gives `None` and stays.
    pub fn back(&mut self) -> Option<u8>
        ensures at_start { IsNone result ↔ (self.old.passed ≡ []) }
        ensures passes { IfSome result (Passes self.new self.old) }
        ensures stays { IfNone result (self.new ≡ self.old) }
        ensures leaf { leaf_of self.new ≡ leaf_of self.old }
    {
        if self.before == 0 {
            return None;
        }
        self.before -= 1;
        self.after += 1;
        self.at = unsafe { self.first.byte_add(self.before) };
        Some(*self.lent.byte(self.at, self.before))
    }

    /// Moves on by the smaller of `n` and the number of bytes left, and gives that number.
    pub fn skip(&mut self, n: usize) -> usize
        ensures count { result ≡ min n (length self.old.rest) }
        ensures passed { self.new.passed ≡ self.old.passed ++ take n self.old.rest }
        ensures rest { self.new.rest ≡ drop n self.old.rest }
        ensures leaf { leaf_of self.new ≡ leaf_of self.old }
    {
        let step = n.min(self.after);
        self.at = unsafe { self.at.byte_add(step) };
        self.before += step;
        self.after -= step;
        step
    }

    /// The bytes that are left.
    pub fn rest(&self) -> &'a [u8]
        ensures { result.now ≡ self.now.rest }
    {
        self.lent.slice(self.at, self.before, self.after)
    }

    /// How many bytes were passed.
    pub fn passed(&self) -> usize
        ensures { result ≡ length self.now.passed }
    {
        self.before
    }
}
