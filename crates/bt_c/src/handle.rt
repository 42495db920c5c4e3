//! The handle of a session, which C keeps between calls.
ghost use Rattle.std.specs.Prelude.{◌≡◌, None, Some, is_some, option_map};

use crate::session::Session;
use crate::slot::Slot;
use std::alloc::Global;
use std::mem;

/// A session, if it is open. C begins with zeros, and passes the struct unchanged.
#[repr(C)]
#[derive(Drop)]
pub struct Handle {
    slot: Slot,
    is_open: bool,
    pub ghost agrees: { is_open ≡ is_some slot.value },
}

impl Handle {
    fn closed(heap: Global) -> Handle
        ensures { result.slot.value ≡ None }
    {
        Handle {
            slot: Slot::closed(heap),
            is_open: false,
        }
    }

    /// The handle of a session.
    pub fn of(session: Box<Session>) -> Handle
        ensures { result.slot.value ≡ Some session.value }
    {
        Handle {
            slot: Slot::of(session),
            is_open: true,
        }
    }

    /// Whether it has a session.
    pub fn is_open(&mut self) -> bool
        ensures open { result ≡ is_some self.old.slot.value }
        ensures kept { self.new.slot.value ≡ self.old.slot.value }
    {
        self.is_open
    }

    /// Takes the session out, if it is open, and leaves the handle closed.
    pub fn take(&mut self, heap: Global) -> Option<Box<Session>>
        ensures session { option_map (λ b. b.value) result ≡ self.old.slot.value }
        ensures closed { self.new.slot.value ≡ None }
    {
        if !self.is_open {
            return None;
        }
        let Handle { slot, .. } = mem::replace(self, Handle::closed(heap));
        Some(slot.into_box())
    }
}
