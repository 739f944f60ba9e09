//! Bytes held one behind the other, in a buffer of fixed size: the
//! fields of a record, and records that a writer takes together.

ghost use Rattle.std.specs.Prelude.{◌≡◌, ◌+◌, ◌≤◌, ◌++◌, [], length};
ghost use Rattle.std.specs.Int.{w8, w16, w32, w64, to_be_bytes};

use image_reader::REVISION_SIZE;
use std::marker::Model;

/// The bytes of the longest record, a revision's.
pub const LONGEST: usize = REVISION_SIZE;

/// The bytes of a record, its fields one after the other.
pub type Record = Held<LONGEST>;

/// The bytes that are held, `N` at most.
#[derive(Drop)]
pub struct Held<const N: usize> {
    bytes: [u8; N],
    filled: usize,
}

impl<const N: usize> Model for Held<N> {
    ghost use Rattle.std.specs.Prelude.{ℕ, List, ◌≤◌, take};

    ghost Value = { List ℕ };

    ghost view = { λ h. take h.filled h.bytes };

    ghost invariant = { λ h. h.filled ≤ N };
}

impl<const N: usize> Held<N> {
    /// No bytes.
    pub(crate) fn new() -> Held<N>
        ensures { result ≡ [] }
    {
        Held {
            bytes: [0; N],
            filled: 0,
        }
    }

    /// How many more bytes can be held.
    pub(crate) fn room(&self) -> usize
        ensures { length self.now + result ≡ N }
    {
        N - self.filled
    }

    /// Holds these bytes too.
    pub(crate) fn push(&mut self, bytes: &[u8])
        requires { length self.old + length bytes.now ≤ N }
        ensures bytes { self.new ≡ self.old ++ bytes.now }
        ensures len { length self.new ≡ length self.old + length bytes.now }
    {
        let end = self.filled + bytes.len();
        let held = &mut self.bytes[..];
        held[self.filled..end].copy_from_slice(bytes);
        self.filled = end;
    }

    /// Holds nothing any more.
    pub(crate) fn clear(&mut self)
        ensures { self.new ≡ [] }
    {
        self.filled = 0;
    }

    /// What is held.
    pub fn as_slice(&self) -> &[u8]
        ensures { result.now ≡ self.now }
    {
        let held = &self.bytes[..];
        &held[..self.filled]
    }

    /// A field of one byte.
    pub(crate) fn push_u8(&mut self, n: u8)
        requires { length self.old + 1 ≤ N }
        ensures bytes { self.new ≡ self.old ++ to_be_bytes w8 n }
        ensures len { length self.new ≡ length self.old + 1 }
    {
        self.push(&[n]);
    }

    /// A field of two bytes.
    pub(crate) fn push_u16(&mut self, n: u16)
        requires { length self.old + 2 ≤ N }
        ensures bytes { self.new ≡ self.old ++ to_be_bytes w16 n }
        ensures len { length self.new ≡ length self.old + 2 }
    {
        self.push(&n.to_be_bytes());
    }

    /// A field of four bytes.
    pub(crate) fn push_u32(&mut self, n: u32)
        requires { length self.old + 4 ≤ N }
        ensures bytes { self.new ≡ self.old ++ to_be_bytes w32 n }
        ensures len { length self.new ≡ length self.old + 4 }
    {
        self.push(&n.to_be_bytes());
    }

    /// A field of eight bytes.
    pub(crate) fn push_u64(&mut self, n: u64)
        requires { length self.old + 8 ≤ N }
        ensures bytes { self.new ≡ self.old ++ to_be_bytes w64 n }
        ensures len { length self.new ≡ length self.old + 8 }
    {
        self.push(&n.to_be_bytes());
    }
}
