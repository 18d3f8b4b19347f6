//! A value in a box of its own.

ghost use Rattle.std.specs.Prelude.{◌≡◌, IfOk, IfErr};
ghost use Rattle.sessions.specs.declared.channel_session.fault.SessionFault.TheVariants.{Memory};
ghost use Rattle.dramsim_c.specs.declared.c_interface.fault.CallFault.TheVariants as call;

use crate::c_interface::fault::CallFault;
use sessions::channel_session::fault::SessionFault;
use std::alloc::Global;

/// A value in a box. The only error is out of memory.
pub fn boxed<T: Drop>(alloc: Global, value: T) -> Result<Box<T>, CallFault>
    ensures value { IfOk result (λ owner. owner.value ≡ value) }
    ensures memory { IfErr result (λ e. e ≡ call.Session Memory) }
{
    match Box::new(alloc, value) {
        Ok(owner) => Ok(owner),
        Err(_) => Err(CallFault::Session(SessionFault::Memory)),
    }
}
