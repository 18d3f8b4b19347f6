//! Why a session refuses a call.

use std::alloc::{AllocError, AllocFailed};
use std::fmt;
use thiserror::Error;

/// Why a session refuses a call.
#[derive(Clone, Copy, PartialEq, Eq, Error)]
pub enum SessionFault {
    /// The machine has no channel with this number.
    #[error("no such channel")]
    NoSuchChannel,
    /// The machine has no core with this number.
    #[error("no such core")]
    NoSuchCore,
    /// The address lies in another channel.
    #[error("an address of another channel")]
    OtherChannel,
    /// The request arrives in a cycle that is over.
    #[error("an arrival in the past")]
    InThePast,
    /// A request that was sent earlier arrives later, or in the same cycle on the same link or a higher one.
    #[error("an arrival out of order")]
    OutOfOrder,
    /// The entry, or a later one, of this core was asked for already; or it is 2^64 - 1.
    #[error("an entry that cannot be asked for any more")]
    EntryPassed,
    /// As many requests wait or are on their way as there are credits.
    #[error("no credit")]
    NoCredit,
    /// The run would end in a cycle that is over.
    #[error("an end in the past")]
    EndPassed,
    /// The run would end after cycle 2^62.
    #[error("an end after cycle 2^62")]
    EndTooLate,
    /// Memory was refused.
    #[error("memory")]
    Memory,
}

impl fmt::Debug for SessionFault {
    fn fmt<W: fmt::Write>(&self, f: &mut fmt::Formatter<W>) -> fmt::Result {
        fmt::Display::fmt(self, f)
    }
}

impl From<AllocError> for SessionFault {
    ghost use Rattle.std.specs.Prelude.{◌≡◌};
    ghost use Rattle.sessions.specs.declared.channel_session.fault.SessionFault.TheVariants.{Memory};

    ghost from_gives = { λ _ fault. fault ≡ Memory };

    fn from(_e: AllocError) -> SessionFault {
        SessionFault::Memory
    }
}

impl<T: Drop> From<AllocFailed<T>> for SessionFault {
    ghost use Rattle.std.specs.Prelude.{◌≡◌};
    ghost use Rattle.sessions.specs.declared.channel_session.fault.SessionFault.TheVariants.{Memory};

    ghost from_gives = { λ _ fault. fault ≡ Memory };

    fn from(_e: AllocFailed<T>) -> SessionFault {
        SessionFault::Memory
    }
}
