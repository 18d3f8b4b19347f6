//! Why something is refused, with lines that explain it to a user.

ghost use Rattle.std.specs.Prelude.{◌≡◌};

use sim_base::fault::Fault;
use std::alloc::{AllocError, Global};
use std::fmt::Display;
use std::marker::Model;

/// A fault, and lines that explain it, if there are any. A contract sees the fault alone.
#[derive(Drop)]
pub struct Reason {
    fault: Fault,
    more: Option<String>,
}

impl Model for Reason {
    ghost use Rattle.sim_base.specs.declared.fault.Fault.{Fault as RefusedFault};

    ghost Value = { RefusedFault };

    ghost view = { λ reason. reason.fault };
}

impl From<Fault> for Reason {
    ghost from_gives = { λ fault reason. reason ≡ fault };

    fn from(fault: Fault) -> Reason {
        Reason { fault, more: None }
    }
}

impl From<AllocError> for Reason {
    ghost use Rattle.sim_base.specs.declared.fault.Fault.TheVariants.{Memory};

    ghost from_gives = { λ _ reason. reason ≡ Memory };

    fn from(_error: AllocError) -> Reason {
        Reason {
            fault: Fault::Memory,
            more: None,
        }
    }
}

impl Reason {
    /// A fault with lines that explain it, each ended by a line feed; with none where memory was refused for them.
    pub fn explained(fault: Fault, more: Result<String, AllocError>) -> Reason
        ensures { result ≡ fault }
    {
        Reason {
            fault,
            more: more.ok(),
        }
    }

    /// The fault that a file or a stream has by its name, with the host's cause.
    pub fn of_host<E: Display>(alloc: Global, fault: Fault, name: &str, cause: &E) -> Reason
        ensures { result ≡ fault }
    {
        Reason::explained(fault, format!(in alloc; "{name}: {cause}\n"))
    }

    /// The fault.
    pub fn fault(&self) -> Fault
        ensures { result ≡ self.now }
    {
        self.fault
    }

    /// The lines that explain it.
    pub(crate) fn more(&self) -> &str {
        match &self.more {
            Some(text) => text.as_str(),
            None => "",
        }
    }
}
