//! The handle of a session.
ghost use Rattle.std.specs.Prelude.{◌≡◌, Option, Some, None, is_some, IsTrue};
ghost use Rattle.std.specs.Option.{option_map};
ghost use Rattle.cord_session.specs.declared.kept.Kept.{Kept};

use crate::kept::Kept;
use crate::slot::Slot;
use cord_store::Loose;
use std::alloc::Global;
use std::mem::replace;

/// Nothing, or a session, and which of both.
#[repr(C)]
pub struct CordSession {
    pub slot: Slot,
    is_open: bool,
    ghost tells: { is_open ≡ is_some slot.value },
}

impl CordSession {
    /// Nothing.
    pub fn none(alloc: Global) -> CordSession
        ensures { result.slot.value ≡ None }
    {
        CordSession {
            slot: Slot::none(alloc),
            is_open: false,
        }
    }

    /// What is to be held.
    pub fn of(kept: Box<Kept>) -> CordSession
        ensures { result.slot.value ≡ Some kept.value }
    {
        CordSession {
            slot: Slot::of(Loose::of(kept)),
            is_open: true,
        }
    }

    /// What is held, taken out.
    pub fn into_box(self) -> Option<Box<Kept>>
        ensures { option_map (λ kept. kept.value) result ≡ self.slot.value }
    {
        let CordSession { slot, is_open } = self;
        if is_open {
            Some(slot.into_loose().into_box())
        } else {
            None
        }
    }

    /// What is held, taken out; nothing is left.
    pub fn take(&mut self, alloc: Global) -> Option<Box<Kept>>
        ensures value { option_map (λ kept. kept.value) result ≡ self.old.slot.value }
        ensures left { self.new.slot.value ≡ None }
    {
        replace(self, CordSession::none(alloc)).into_box()
    }
}

impl Drop for CordSession {
    fn drop(self) {
        drop(self.into_box());
    }
}

unsafe impl Send for CordSession {}
