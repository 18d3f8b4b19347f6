//! Why a call is refused, and the number that C is told.

ghost use Rattle.std.specs.Prelude.{◌≡◌};
ghost use Rattle.dramsim_c.specs.CInterface.Statuses.{session_number, fault_number, status};

use sessions::channel_session::fault::SessionFault;
use sim_base::fault::Fault;

/// Why a call is refused.
#[derive(Clone, Copy)]
pub enum CallFault {
    /// The channel or memory is closed.
    Closed,
    /// The channel or memory is open already.
    AlreadyOpen,
    /// The configuration is refused.
    Configuration(Fault),
    /// The session refuses the call.
    Session(SessionFault),
    /// The memory has no such place.
    NoSuchPlace,
    /// The room for a text is too short.
    TooShort,
    /// A table of commands breaks a rule of DDR4.
    BreaksRule,
    /// A table of commands has a row that is none, or no header.
    Malformed,
}

/// The number of a session's refusal.
fn session_number(fault: SessionFault) -> u32
    ensures { result ≡ session_number fault }
{
    match fault {
        SessionFault::Memory => 1,
        SessionFault::NoSuchChannel => 5,
        SessionFault::NoSuchCore => 6,
        SessionFault::OtherChannel => 7,
        SessionFault::InThePast => 8,
        SessionFault::OutOfOrder => 9,
        SessionFault::EntryPassed => 10,
        SessionFault::NoCredit => 11,
        SessionFault::EndPassed => 12,
        SessionFault::EndTooLate => 13,
    }
}

/// The number of a refusal, from 1 to 17.
pub fn fault_number(fault: CallFault) -> u32
    ensures { result ≡ fault_number fault }
{
    match fault {
        CallFault::Configuration(Fault::Memory) => 1,
        CallFault::Closed => 2,
        CallFault::AlreadyOpen => 3,
        CallFault::Configuration(_) => 4,
        CallFault::Session(fault) => session_number(fault),
        CallFault::NoSuchPlace => 14,
        CallFault::TooShort => 15,
        CallFault::BreaksRule => 16,
        CallFault::Malformed => 17,
    }
}

/// The status of a call: 0, or the number of its refusal.
pub fn status(outcome: Result<(), CallFault>) -> u32
    ensures { result ≡ status outcome }
{
    match outcome {
        Ok(()) => 0,
        Err(fault) => fault_number(fault),
    }
}
