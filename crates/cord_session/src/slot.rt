//! A box behind a pointer that C holds.
ghost use Rattle.std.specs.Prelude.{◌≡◌, Option, Some, None, is_some, IsTrue};
ghost use Rattle.cord_session.specs.Slots.{slot_owns};
ghost use Rattle.cord_session.specs.declared.kept.Kept.{Kept};

use crate::kept::Kept;
use cord_store::Loose;
use std::alloc::Global;
use std::marker::Model;
use std::ptr::null_mut;

/// What C sees of what is held.
#[repr(C)]
#[derive(Drop)]
pub struct Opaque {
    byte: u8,
}

/// Nothing, or what is held.
#[repr(C)]
#[derive(Drop)]
pub struct Slot {
    at: *mut Opaque,
    alloc: Global,
    pub ghost value: { Option Kept },
}

impl Model for Slot {
    ghost use Rattle.cord_session.specs.Slots.{slot_owns};

    ghost also_owns = { λ s. slot_owns s.alloc s.at s.value };
}

impl Slot {
    /// Nothing.
    pub fn none(alloc: Global) -> Slot
        ensures { result.value ≡ None }
    {
        Slot {
            at: null_mut(),
            alloc,
        }
    }

    /// What is to be held.
    pub fn of(kept: Loose<Kept, Global>) -> Slot
        ensures { result.value ≡ Some kept.value }
    {
        let Loose { at, alloc } = kept;
        Slot {
            at: at as *mut Opaque,
            alloc,
        }
    }

    /// What is held, taken out.
    pub fn into_loose(self) -> Loose<Kept, Global>
        requires { IsTrue (is_some self.value) }
        ensures { Some result.value ≡ self.value }
    {
        let Slot { at, alloc } = self;
        Loose {
            at: at as *mut Kept,
            alloc,
        }
    }
}
