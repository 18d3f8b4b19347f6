//! Which requests may be served next.

ghost use Rattle.std.specs.Prelude.{◌≡◌, ◌<◌, ◌↔◌, ℕ, Option, IsTrue};
ghost use Rattle.sim_base.specs.declared.config.Config.{Config};
ghost use Rattle.queue.specs.Stands.{StandsFor as CandidatesStandFor};
ghost use Rattle.channel_step.specs.FrFcfs.Requests.{candidates_of};
ghost use Rattle.channel_step.specs.FrFcfs.Offers.{favoured_access, other_access, only, going, includes};

use queue::Queue;
use queue::bank_candidates::BankCandidates;
use sim_base::message::Access;

/// Whether requests to read go, and requests to write.
#[derive(Clone, Copy)]
pub(crate) struct Accesses {
    pub(crate) reads: bool,
    pub(crate) writes: bool,
}

/// Requests to read and to write both go, where the channel never drains.
pub(crate) const ALL_ACCESSES: Accesses = Accesses {
    reads: true,
    writes: true,
};

/// Requests to read go.
pub(crate) const READS: Accesses = Accesses {
    reads: true,
    writes: false,
};

/// Requests to write go.
pub(crate) const WRITES: Accesses = Accesses {
    reads: false,
    writes: true,
};

/// The favoured access: to write while the channel drains its writes, and to read while it does not.
#[inline(always)]
fn favoured_access(draining: bool) -> Access
    ensures { result ≡ favoured_access draining }
{
    if draining {
        Access::Write
    } else {
        Access::Read
    }
}

/// The access that is not this one: Write for Read, and Read for Write.
#[inline(always)]
fn other_access(access: Access) -> Access
    ensures { result ≡ other_access access }
{
    match access {
        Access::Read => Access::Write,
        Access::Write => Access::Read,
    }
}

/// The access that goes, where the channel ever drains. It is the favoured one, where there is a request of it.
pub(crate) fn access_that_goes(queue: &Queue, bank_candidates: &BankCandidates) -> Access
    requires { 0 < queue.now.high }
    ensures { (s : Config) (open_rows : ℕ → Option ℕ)
        → s.write_high ≡ queue.now.high
        → CandidatesStandFor bank_candidates.now queue.now.log open_rows
        → candidates_of s queue.now ≡ going (only result) queue.now.log }
{
    let favoured = favoured_access(queue.draining());
    if bank_candidates.has_access(favoured) {
        favoured
    } else {
        other_access(favoured)
    }
}

/// The accesses whose requests go: both, where the channel never drains, and otherwise one.
#[inline(always)]
pub(crate) fn accesses_that_go(queue: &Queue, bank_candidates: &BankCandidates) -> Accesses
    ensures { (s : Config) (open_rows : ℕ → Option ℕ)
        → s.write_high ≡ queue.now.high
        → CandidatesStandFor bank_candidates.now queue.now.log open_rows
        → candidates_of s queue.now ≡ going result queue.now.log }
{
    if queue.high() == 0 {
        return ALL_ACCESSES;
    }
    match access_that_goes(queue, bank_candidates) {
        Access::Read => READS,
        Access::Write => WRITES,
    }
}

/// Whether requests of the same accesses go.
#[inline(always)]
pub(crate) fn are_same(a: Accesses, b: Accesses) -> bool
    ensures { IsTrue result ↔ (a ≡ b) }
{
    a.reads == b.reads && a.writes == b.writes
}

/// Whether a request that asks for an access goes.
#[inline(always)]
pub(crate) fn goes(accesses: Accesses, access: Access) -> bool
    ensures { result ≡ includes accesses access }
{
    match access {
        Access::Read => accesses.reads,
        Access::Write => accesses.writes,
    }
}
