//! The right to read bytes that are borrowed, through a raw pointer to the first of them.

ghost use Rattle.std.specs.Prelude.{◌≡◌, ℕ, List, ◌+◌, ◌^◌, ◌<◌, ◌≤◌, take, drop, length, slice_index_or};
ghost use denote.RawPtr.{Ptr, InBlock, ◌+ₚ◌};
ghost use Rattle.leaf_buffer.specs.Memory.{IsNotNull, lent_bytes};

use std::marker::{Model, PhantomData};
use std::slice;

/// The right to read these bytes at this place, for as long as they are borrowed. It takes no space.
#[derive(Drop)]
pub(crate) struct Lent<'a> {
    borrow: PhantomData<&'a [u8]>,
    ghost first: { Ptr },
    ghost bytes: { List ℕ },
    ghost placed: { IsNotNull first × (length bytes < 2 ^ 63) },
}

impl<'a> Model for Lent<'a> {
    ghost also_owns = { λ l. lent_bytes l.first l.bytes 'a };

    ghost also_shares = { λ l _ _. lent_bytes l.first l.bytes 'a };
}

impl<'a> Lent<'a> {
    /// Where these bytes begin, and the right to read them.
    pub(crate) fn over(bytes: &'a [u8]) -> (*const u8, Lent<'a>)
        ensures { (result.1.first ≡ result.0) × (result.1.bytes ≡ bytes.now) × InBlock result.0 }
    {
        (
            bytes.as_ptr(),
            Lent {
                borrow: PhantomData,
            },
        )
    }

    /// The byte at `at`, which lies this far from the first.
    pub(crate) fn byte(&self, at: *const u8, _before: usize) -> &'a u8
        requires { (at ≡ self.now.first +ₚ _before) × (_before < length self.now.bytes) }
        ensures { result.now ≡ slice_index_or self.now.bytes _before 0 }
    {
        unsafe { &*at }
    }

    /// The `len` bytes from `at` on, which lies this far from the first.
    pub(crate) fn slice(&self, at: *const u8, _before: usize, len: usize) -> &'a [u8]
        requires { (at ≡ self.now.first +ₚ _before) × (_before + len ≤ length self.now.bytes) }
        ensures { result.now ≡ take len (drop _before self.now.bytes) }
    {
        unsafe { slice::from_raw_parts(at, len) }
    }
}
