//! A handle of a memory.

ghost use Rattle.std.specs.Prelude.{Option};
ghost use Rattle.sessions.specs.declared.memory_session.memory.MemorySession.{MemorySession};
ghost use Rattle.dramsim_c.specs.CInterface.Owned.{Holds};
ghost use Rattle.dramsim_c.specs.CInterface.CMemoryOwned.{memory_owns, memory_coded};

use crate::c_interface::loose::Loose;
use sessions::memory_session::memory::MemorySession;
use std::alloc::Global;
use std::marker::Model;
use std::ptr;

/// A handle, which C keeps as a struct of one pointer: it is closed, or it owns a memory.
#[repr(C)]
#[derive(Drop)]
pub struct Handle {
    at: *mut u8,
    alloc: Global,
    pub ghost value: { Option MemorySession } by { memory_coded },
}

impl Model for Handle {
    ghost also_owns = { λ h. memory_owns h.alloc h.at h.value };
}

impl Handle {
    ghost use Rattle.std.specs.Prelude.{◌≡◌, Some, None};

    /// A closed handle.
    pub fn closed(alloc: Global) -> Handle
        ensures { result.value ≡ None }
    {
        Handle {
            at: ptr::null_mut(),
            alloc,
        }
    }

    fn of_loose(loose: Loose<MemorySession, Global>) -> Handle
        ensures { result.value ≡ Some loose.value }
    {
        let Loose { at, alloc } = loose;
        Handle {
            at: at as *mut u8,
            alloc,
        }
    }

    fn into_loose(self) -> Loose<MemorySession, Global>
        requires { Holds self.value }
        ensures { self.value ≡ Some result.value }
    {
        let Handle { at, alloc } = self;
        Loose {
            at: at as *mut MemorySession,
            alloc,
        }
    }

    /// The handle that owns a memory.
    pub fn of(memory: Box<MemorySession>) -> Handle
        ensures { result.value ≡ Some memory.value }
    {
        Handle::of_loose(Loose::of(memory))
    }

    /// The memory that an open handle owns.
    pub fn into_box(self) -> Box<MemorySession>
        requires { Holds self.value }
        ensures { self.value ≡ Some result.value }
    {
        self.into_loose().into_box()
    }
}
