//! Why the program refuses, and what it leaves of a run's tables.

ghost use Rattle.std.specs.Prelude.{◌≡◌};
ghost use Rattle.refusal.specs.Refusals.{fault_of};

use crate::reason::Reason;
use sim_base::fault::Fault;

/// Why the program refuses, and what it leaves of a run's tables.
#[derive(Drop)]
pub enum Refusal {
    /// What stands under the tables' names is what stood there before.
    Kept(Reason),
    /// A table could not be given its place after another one was.
    Torn(Reason),
}

impl Refusal {
    /// Why.
    pub fn reason(&self) -> &Reason
        ensures { result.now ≡ fault_of self.now }
    {
        match self {
            Refusal::Kept(reason) => reason,
            Refusal::Torn(reason) => reason,
        }
    }
}

impl From<Reason> for Refusal {
    ghost use Rattle.refusal.specs.declared.refusal.Refusal.TheVariants.{Kept};

    ghost from_gives = { λ fault r. r ≡ Kept fault };

    fn from(reason: Reason) -> Refusal {
        Refusal::Kept(reason)
    }
}

impl From<Fault> for Refusal {
    ghost use Rattle.refusal.specs.declared.refusal.Refusal.TheVariants.{Kept};

    ghost from_gives = { λ fault r. r ≡ Kept fault };

    fn from(fault: Fault) -> Refusal {
        Refusal::Kept(Reason::from(fault))
    }
}
