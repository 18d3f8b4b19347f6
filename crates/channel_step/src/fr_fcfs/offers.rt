//! What requests offer: from which cycle on what they need may be issued.

ghost use Rattle.std.specs.Prelude.{◌≡◌, ◌<◌, ◌*◌, ◌-◌, ◌^◌, List, IsTrue, length, IfSome};
ghost use Rattle.sim_base.specs.declared.config.Config.{Config};
ghost use Rattle.sim_base.specs.declared.command.IssuedCommand.{IssuedCommand};
ghost use Rattle.bank_ready.specs.Words.{names_bank};
ghost use Rattle.bank_ready.specs.Stands.{rank_count, StandsFor as BanksStandFor};
ghost use Rattle.sim_base.specs.Places.{bank_at};
ghost use Rattle.channel_step.specs.FrFcfs.Requests.{AreInBanks, OfSameBanks, ForRequests};
ghost use Rattle.channel_step.specs.FrFcfs.Offers.{goes_before, better_of, offer_from, IsReadyFrom, IsFirstReady};

use crate::fr_fcfs::accesses::{ALL_ACCESSES, READS, WRITES, access_that_goes};
use crate::fr_fcfs::first::first_of;
use bank_ready::banks::Banks;
use queue::Queue;
use queue::bank_candidates::BankCandidates;
use sim_base::command::Kind;
use sim_base::message::{Access, Cycle};

/// A request whose need may be issued from a cycle on.
#[derive(Clone, Copy)]
pub(crate) struct Offer {
    /// The first cycle from now on in which what the request needs may be issued.
    pub(crate) cycle: Cycle,
    /// Whether what the request needs is its column command, which moves its data.
    pub(crate) hit: bool,
    /// The place of the request in the log.
    pub(crate) place: usize,
}

/// Whether an offer goes before another: its cycle is earlier, or in the same cycle it alone is a row hit, or else its
/// request is older.
#[inline(always)]
fn goes_before(a: Offer, b: Offer) -> bool
    ensures { result ≡ goes_before a b }
{
    if a.cycle != b.cycle {
        return a.cycle < b.cycle;
    }
    if a.hit != b.hit {
        return a.hit;
    }
    a.place < b.place
}

/// Makes the offer of a request, whose need may be issued from a cycle on, the best offer so far, if it goes before
/// that. Its fields are written one by one, and only then, so that nothing is copied for a bank that does not improve
/// it.
#[inline(always)]
pub(crate) fn improve(best: &mut Offer, ready: Cycle, hit: bool, place: usize, now: Cycle)
    ensures { best.new ≡ better_of (offer_from now ready hit place) best.old }
{
    if best.cycle < ready {
        return;
    }
    let cycle = now.max(ready);
    if goes_before(Offer { cycle, hit, place }, *best) {
        best.cycle = cycle;
        best.hit = hit;
        best.place = place;
    }
}

/// From which cycle on a command of a kind may be issued to a bank.
#[inline(always)]
pub(crate) fn ready(banks: &Banks, bank: usize, kind: Kind) -> Cycle
    requires kind { IsTrue (names_bank kind) }
    requires bank { bank < 16 * rank_count banks.now }
    ensures { (s : Config) (history : List IssuedCommand)
        → BanksStandFor banks.now s history → IsReadyFrom s history (bank_at bank) kind result }
{
    banks.earliest_in(kind, bank)
}

/// The offer that goes first of all banks, from now on, where the channel ever drains: requests of one access go. It is
/// out of line, so that the search of a channel that never drains can be compiled into its caller.
#[inline(never)]
fn first_of_one_access(
    queue: &Queue,
    bank_candidates: &BankCandidates,
    banks: &Banks,
    now: Cycle,
) -> Option<Offer>
    requires places { AreInBanks (rank_count banks.now) queue.now.log }
    requires banks { OfSameBanks bank_candidates.now banks.now }
    requires drains { 0 < queue.now.high }
    ensures within { IfSome result (λ o. o.place < length queue.now.log) }
    ensures short { IfSome result (λ o. o.place < 2 ^ 16 - 1) }
    ensures first { ForRequests banks.now bank_candidates.now queue.now (λ s history.
        IsFirstReady s history queue.now now result) }
{
    match access_that_goes(queue, bank_candidates) {
        Access::Read => first_of(queue, bank_candidates, READS, banks, now),
        Access::Write => first_of(queue, bank_candidates, WRITES, banks, now),
    }
}

/// The offer that goes first of all banks, from now on. All requests go where the channel never drains, and otherwise
/// the requests of one access; the search is compiled for each of the three.
#[inline(always)]
pub(crate) fn first_offer(
    queue: &Queue,
    bank_candidates: &BankCandidates,
    banks: &Banks,
    now: Cycle,
) -> Option<Offer>
    requires places { AreInBanks (rank_count banks.now) queue.now.log }
    requires banks { OfSameBanks bank_candidates.now banks.now }
    ensures within { IfSome result (λ o. o.place < length queue.now.log) }
    ensures short { IfSome result (λ o. o.place < 2 ^ 16 - 1) }
    ensures first { ForRequests banks.now bank_candidates.now queue.now (λ s history.
        IsFirstReady s history queue.now now result) }
{
    if queue.high() == 0 {
        return first_of(queue, bank_candidates, ALL_ACCESSES, banks, now);
    }
    first_of_one_access(queue, bank_candidates, banks, now)
}
