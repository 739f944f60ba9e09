//! The memory of a block.

ghost use Rattle.std.specs.Prelude.{◌≡◌, ℕ, List, ◌+◌, ◌<◌, ◌≤◌, [], ◌∷◌, ◌++◌, length, IfOk};
ghost use denote.RawPtr.{Ptr};
ghost use Rattle.leaf_buffer.specs.declared.block.TheConstants.{BLOCK_SIZE};
ghost use Rattle.leaf_buffer.specs.Memory.{IsNotNull, bare, room_owns, lent_bytes, IsTaken};

use crate::block::BLOCK_SIZE;
use std::alloc::{AllocError, Allocator};
use std::marker::{Model, PhantomData};
use std::slice;

/// The owner of the 65,536 bytes at `first`, of which the first hold `bytes`. It takes no space.
pub(crate) struct Room {
    ghost first: { Ptr },
    ghost bytes: { List ℕ },
    ghost placed: { IsNotNull first × (length bytes ≤ BLOCK_SIZE) },
}

impl Model for Room {
    ghost also_owns = { λ r. room_owns r.first r.bytes };

    ghost also_shares = { λ r _ κ. lent_bytes r.first r.bytes κ };
}

/// The right to give the block at `first` back to `alloc`. It takes no space.
pub(crate) struct Deed<A: Allocator> {
    by: PhantomData<A>,
    ghost first: { Ptr },
    ghost alloc: { A },
}

impl<A: Allocator> Model for Deed<A> {
    ghost also_owns = { λ d. A.dealloc_token d.alloc (bare BLOCK_SIZE) d.first };
}

/// A block that holds nothing yet.
pub(crate) fn take<A: Allocator>(alloc: &A) -> Result<(*mut u8, Room, Deed<A>), AllocError>
    ensures { IfOk result (λ r. IsTaken r.0 r.1.first r.1.bytes r.2.first r.2.alloc alloc.now) }
{
    match alloc.allocate(BLOCK_SIZE, 1) {
        Ok(first) => Ok((first, Room {}, Deed { by: PhantomData })),
        Err(error) => Err(error),
    }
}

/// Gives a block back.
pub(crate) fn give<A: Allocator>(alloc: &A, first: *mut u8, room: Room, deed: Deed<A>)
    requires { (room.first ≡ first) × (deed.first ≡ first) × (deed.alloc ≡ alloc.now) }
{
    let Room {} = room;
    let Deed { by: _ } = deed;
    unsafe {
        alloc.deallocate(first, BLOCK_SIZE, 1);
    }
}

impl Room {
    /// Writes a byte behind those that were written.
    pub(crate) fn write(&mut self, first: *mut u8, at: usize, byte: u8)
        requires { (self.old.first ≡ first) × (at ≡ length self.old.bytes) × (at < BLOCK_SIZE) }
        ensures { (self.new.first ≡ self.old.first) × (self.new.bytes ≡ self.old.bytes ++ byte ∷ []) }
    {
        unsafe { first.add(at).write(byte) }
    }

    /// Writes these bytes behind those that were written.
    pub(crate) fn append(&mut self, first: *mut u8, at: usize, bytes: &[u8])
        requires first { self.old.first ≡ first }
        requires behind { at ≡ length self.old.bytes }
        requires fits { at + length bytes.now ≤ BLOCK_SIZE }
        ensures first { self.new.first ≡ self.old.first }
        ensures bytes { self.new.bytes ≡ self.old.bytes ++ bytes.now }
    {
        for i in 0..bytes.len() {
            self.write(first, at + i, bytes[i]);
        }
    }

    /// The bytes that were written.
    pub(crate) fn slice(&self, first: *mut u8, len: usize) -> &[u8]
        requires { (self.now.first ≡ first) × (len ≡ length self.now.bytes) }
        ensures { result.now ≡ self.now.bytes }
    {
        unsafe { slice::from_raw_parts(first, len) }
    }
}
