//! The handle of a store of ropes.
ghost use Rattle.std.specs.Prelude.{◌≡◌, Option, Some, None, is_some, IsTrue};
ghost use Rattle.std.specs.Option.{option_map};
ghost use Rattle.cord_store.specs.declared.ropes_kept.Ropes.{Ropes};

use crate::loose::Loose;
use crate::rope_slot::RopeSlot;
use crate::ropes_kept::Ropes;
use std::alloc::Global;
use std::mem::replace;

/// Nothing, or a store, and which of both.
#[repr(C)]
pub struct CordStore {
    pub slot: RopeSlot,
    is_open: bool,
    ghost tells: { is_open ≡ is_some slot.value },
}

impl CordStore {
    /// Nothing.
    pub fn none(alloc: Global) -> CordStore
        ensures { result.slot.value ≡ None }
    {
        CordStore {
            slot: RopeSlot::none(alloc),
            is_open: false,
        }
    }

    /// What is to be held.
    pub fn of(kept: Box<Ropes>) -> CordStore
        ensures { result.slot.value ≡ Some kept.value }
    {
        CordStore {
            slot: RopeSlot::of(Loose::of(kept)),
            is_open: true,
        }
    }

    /// What is held, taken out.
    pub fn into_box(self) -> Option<Box<Ropes>>
        ensures { option_map (λ kept. kept.value) result ≡ self.slot.value }
    {
        let CordStore { slot, is_open } = self;
        if is_open {
            Some(slot.into_loose().into_box())
        } else {
            None
        }
    }

    /// What is held, taken out; nothing is left.
    pub fn take(&mut self, alloc: Global) -> Option<Box<Ropes>>
        ensures value { option_map (λ kept. kept.value) result ≡ self.old.slot.value }
        ensures left { self.new.slot.value ≡ None }
    {
        replace(self, CordStore::none(alloc)).into_box()
    }
}

impl Drop for CordStore {
    fn drop(self) {
        drop(self.into_box());
    }
}

unsafe impl Send for CordStore {}
