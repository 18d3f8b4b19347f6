//! What holds of the credits and of the queues of a run.

ghost use Rattle.laws.specs.Everywhere.{InEachCycle};
ghost use Rattle.laws.specs.Credits.{CreditsAreNeverOverspent, CreditsComeBackOnce, QueuesAreBounded};

/// A core never sends a channel more requests of a kind than its credits allow, and no more credits come back than
/// there were requests: it always holds between none and all of those that it began with.
pub fn credits_are_never_overspent()
    ensures spent { InEachCycle CreditsAreNeverOverspent }
    ensures back { InEachCycle CreditsComeBackOnce }
{}

/// In no cycle does the queue of a channel have more requests than all cores together have credits for it.
pub fn queues_are_bounded()
    ensures { InEachCycle QueuesAreBounded }
{}
