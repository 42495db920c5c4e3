//! A session on the heap, or none, as the address that C keeps.
ghost use Rattle.std.specs.Prelude.{◌≡◌, is_some, true};
ghost use Rattle.std.specs.declared.option.Option.{Option};
ghost use Rattle.std.specs.declared.option.Option.TheVariants.{None, Some};
ghost use Rattle.bt_c.specs.declared.session.Session.{Session};
ghost use Rattle.bt_c.specs.Owned.{owned, session_coded};

use crate::parts::Parts;
use crate::session::Session;
use std::alloc::Global;
use std::marker::Model;
use std::ptr::null_mut;

/// The address of a session, if there is one.
#[repr(C)]
#[derive(Drop)]
pub struct Slot {
    at: *mut u8,
    heap: Global,
    pub ghost value: { Option Session } by { session_coded },
}

impl Model for Slot {
    ghost also_owns = { λ s. owned s.at s.heap s.value };
}

// A session may go to another thread, as the box of one may.
unsafe impl Send for Slot {}

impl Slot {
    pub fn closed(heap: Global) -> Slot
        ensures { result.value ≡ None }
    {
        Slot {
            at: null_mut(),
            heap,
        }
    }

    fn of_parts(parts: Parts<Session, Global>) -> Slot
        ensures { result.value ≡ Some parts.value }
    {
        let Parts { ptr, alloc } = parts;
        Slot {
            at: ptr as *mut u8,
            heap: alloc,
        }
    }

    fn into_parts(self) -> Parts<Session, Global>
        requires { is_some self.value ≡ true }
        ensures { self.value ≡ Some result.value }
    {
        let Slot { at, heap } = self;
        Parts {
            ptr: at as *mut Session,
            alloc: heap,
        }
    }

    /// The slot of a session.
    pub fn of(session: Box<Session>) -> Slot
        ensures { result.value ≡ Some session.value }
    {
        Slot::of_parts(Parts::of(session))
    }

    /// The session of a slot that has one.
    pub fn into_box(self) -> Box<Session>
        requires { is_some self.value ≡ true }
        ensures { self.value ≡ Some result.value }
    {
        self.into_parts().into_box()
    }
}
