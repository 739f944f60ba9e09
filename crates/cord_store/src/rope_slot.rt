//! A box behind a pointer that C holds.
ghost use Rattle.std.specs.Prelude.{◌≡◌, Option, Some, None, is_some, IsTrue};
ghost use Rattle.cord_store.specs.RopeSlots.{rope_slot_owns};
ghost use Rattle.cord_store.specs.declared.ropes_kept.Ropes.{Ropes};

use crate::loose::Loose;
use crate::ropes_kept::Ropes;
use std::alloc::Global;
use std::marker::Model;
use std::ptr::null_mut;

/// What C sees of what is held.
#[repr(C)]
#[derive(Drop)]
pub struct OpaqueRopes {
    byte: u8,
}

/// Nothing, or what is held.
#[repr(C)]
#[derive(Drop)]
pub struct RopeSlot {
    at: *mut OpaqueRopes,
    alloc: Global,
    pub ghost value: { Option Ropes },
}

impl Model for RopeSlot {
    ghost use Rattle.cord_store.specs.RopeSlots.{rope_slot_owns};

    ghost also_owns = { λ s. rope_slot_owns s.alloc s.at s.value };
}

impl RopeSlot {
    /// Nothing.
    pub fn none(alloc: Global) -> RopeSlot
        ensures { result.value ≡ None }
    {
        RopeSlot {
            at: null_mut(),
            alloc,
        }
    }

    /// What is to be held.
    pub fn of(kept: Loose<Ropes, Global>) -> RopeSlot
        ensures { result.value ≡ Some kept.value }
    {
        let Loose { at, alloc } = kept;
        RopeSlot {
            at: at as *mut OpaqueRopes,
            alloc,
        }
    }

    /// What is held, taken out.
    pub fn into_loose(self) -> Loose<Ropes, Global>
        requires { IsTrue (is_some self.value) }
        ensures { Some result.value ≡ self.value }
    {
        let RopeSlot { at, alloc } = self;
        Loose {
            at: at as *mut Ropes,
            alloc,
        }
    }
}
