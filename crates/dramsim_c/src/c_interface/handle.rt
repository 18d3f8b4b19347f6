//! A handle of a session.

ghost use Rattle.std.specs.Prelude.{Option};
ghost use Rattle.sessions.specs.declared.channel_session.session.Session.{Session};
ghost use Rattle.dramsim_c.specs.CInterface.Owned.{session_owns, session_coded, Holds};

use crate::c_interface::loose::Loose;
use sessions::channel_session::session::Session;
use std::alloc::Global;
use std::marker::Model;
use std::ptr;

/// A handle, which C keeps as a struct of one pointer: it is closed, or it owns a session.
#[repr(C)]
#[derive(Drop)]
pub struct Handle {
    at: *mut u8,
    alloc: Global,
    pub ghost value: { Option Session } by { session_coded },
}

impl Model for Handle {
    ghost also_owns = { λ h. session_owns h.alloc h.at h.value };
}

impl Handle {
    ghost use Rattle.std.specs.Prelude.{◌≡◌, Some, None};

    /// A closed handle.
    pub fn closed(alloc: Global) -> Handle
        ensures { result.value ≡ None }
    {
        Handle {
            at: ptr::null_mut(),
            alloc,
        }
    }

    fn of_loose(loose: Loose<Session, Global>) -> Handle
        ensures { result.value ≡ Some loose.value }
    {
        let Loose { at, alloc } = loose;
        Handle {
            at: at as *mut u8,
            alloc,
        }
    }

    fn into_loose(self) -> Loose<Session, Global>
        requires { Holds self.value }
        ensures { self.value ≡ Some result.value }
    {
        let Handle { at, alloc } = self;
        Loose {
            at: at as *mut Session,
            alloc,
        }
    }

    /// The handle that owns a session.
    pub fn of(session: Box<Session>) -> Handle
        ensures { result.value ≡ Some session.value }
    {
        Handle::of_loose(Loose::of(session))
    }

    /// The session that an open handle owns.
    pub fn into_box(self) -> Box<Session>
        requires { Holds self.value }
        ensures { self.value ≡ Some result.value }
    {
        self.into_loose().into_box()
    }
}
