//! When requests reach their channels.

ghost use Rattle.laws.specs.Everywhere.{InEachCycle};
ghost use Rattle.laws.specs.Arrivals.{RequestsArriveAsIssued};

/// A request reaches its channel in the cycle in which its core issues the entry, later by the latency of the link.
pub fn requests_arrive_as_issued()
    ensures { InEachCycle RequestsArriveAsIssued }
{}
