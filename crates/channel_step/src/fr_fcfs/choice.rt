//! What needs the command of the next cycle, and the first cycle with one.

ghost use Rattle.std.specs.Prelude.{◌≡◌, ◌<◌, ◌≤◌, ◌-◌, ◌^◌, List, Option};
ghost use Rattle.bank_ready.specs.Stands.{rank_count};
ghost use Rattle.queue.specs.declared.request_log.Arrived.{Arrived};
ghost use Rattle.channel_step.specs.FrFcfs.Requests.{AreInBanks, OfSameBanks, ForRequests, first_ready_in};
ghost use Rattle.channel_step.specs.FrFcfs.Cycles.{IsNext};
ghost use Rattle.channel_step.specs.FrFcfs.Choices.{ForParts, choice_in, command_of, need_of, HasPlace, TakesRefresh};

use crate::fr_fcfs::needs::refresh_ready;
use crate::fr_fcfs::offers::{Offer, first_offer};
use bank_ready::banks::Banks;
use bank_ready::refresh::Refresh;
use queue::Queue;
use queue::bank_candidates::BankCandidates;
use sim_base::message::Cycle;

/// What needs the next command.
#[derive(Clone, Copy)]
pub enum Need {
    /// The request at a place of the queue's log, for which a row is opened or closed: an ACT or a PRE.
    Row(u32),
    /// The request at a place of the queue's log, whose data are moved: a RD or a WR.
    Column(u32),
    /// A rank that is to be refreshed, by its number.
    Refresh(u32),
}

/// What the next command of a channel depends on: its queue, its banks as requests ask for them and as commands hold
/// them back, the refreshes of its ranks, and how many groups each rank has.
#[derive(Clone, Copy)]
pub struct ChannelParts<'a> {
    pub queue: &'a Queue,
    pub bank_candidates: &'a BankCandidates,
    pub banks: &'a Banks,
    pub refresh: &'a Refresh,
    pub groups: u32,
}

/// What needs the command of an offer.
#[inline(always)]
fn need_of(offer: Offer) -> Need
    requires { offer.place < 2 ^ 16 - 1 }
    ensures { result ≡ need_of offer.hit offer.place }
{
    let place = offer.place as u32;
    if offer.hit {
        Need::Column(place)
    } else {
        Need::Row(place)
    }
}

/// The first cycle from now on in which a command that some request needs may be issued, and that request.
#[inline(always)]
fn next_of_requests(
    queue: &Queue,
    bank_candidates: &BankCandidates,
    banks: &Banks,
    now: Cycle,
) -> Option<(Cycle, Need)>
    requires places { AreInBanks (rank_count banks.now) queue.now.log }
    requires banks { OfSameBanks bank_candidates.now banks.now }
    ensures next { ForRequests banks.now bank_candidates.now queue.now (λ s history.
        IsNext (first_ready_in s history queue.now)
        (command_of s history queue.now.log) now result) }
    ensures place { ForRequests banks.now bank_candidates.now queue.now (λ s history.
        HasPlace (rank_count banks.now) queue.now.log result) }
{
    match first_offer(queue, bank_candidates, banks, now) {
        Some(offer) => Some((offer.cycle, need_of(offer))),
        None => None,
    }
}

/// Takes the refresh of a rank, which may be due from some cycle on and holds all else back then, into the first cycle
/// with a command and what needs it. Nothing is written where they stay.
#[inline(always)]
fn with_refresh(
    next: &mut Option<(Cycle, Need)>,
    due: Option<Cycle>,
    parts: &ChannelParts<'_>,
    rank: u32,
)
    requires rank { rank < rank_count parts.now.banks.now }
    requires banks { OfSameBanks parts.now.bank_candidates.now parts.now.banks.now }
    requires groups { parts.now.groups ≤ 4 }
    ensures next { TakesRefresh parts.now rank due next.old next.new }
    ensures place { (log : List Arrived)
        → HasPlace (rank_count parts.now.banks.now) log next.old
        → HasPlace (rank_count parts.now.banks.now) log next.new }
{
    let Some(due) = due else {
        return;
    };
    match *next {
        Some((cycle, _)) if cycle < due => {}
        _ => {
            let ready = refresh_ready(parts.bank_candidates, parts.banks, rank, parts.groups);
            *next = Some((due.max(ready), Need::Refresh(rank)));
        }
    }
}

/// The first cycle with a command from `now` on, if the queue stays as it is, and what needs it; None where there is
/// none. What a rank that is to be refreshed needs goes first, and holds the requests back; of these, row hits go
/// first, and then the oldest.
#[inline(always)]
pub fn next(parts: &ChannelParts<'_>, now: Cycle) -> Option<(Cycle, Need)>
    requires places { AreInBanks (rank_count parts.now.banks.now) parts.now.queue.now.log }
    requires banks { OfSameBanks parts.now.bank_candidates.now parts.now.banks.now }
    requires ranks { parts.now.refresh.now.ranks ≤ rank_count parts.now.banks.now }
    requires groups { parts.now.groups ≤ 4 }
    ensures next { ForParts parts.now (λ s history.
        IsNext (choice_in s history parts.now.queue.now)
        (command_of s history parts.now.queue.now.log) now result) }
    ensures place { ForParts parts.now (λ s history.
        HasPlace (rank_count parts.now.banks.now) parts.now.queue.now.log result) }
{
    let mut next = next_of_requests(parts.queue, parts.bank_candidates, parts.banks, now);
    if let Some((cycle, _)) = next {
        if !parts.refresh.is_due_by(cycle) {
            return next;
        }
    }
    let mut rank = parts.refresh.ranks();
    while 0 < rank {
        rank -= 1;
        let due = parts.refresh.first_due(now, rank);
        with_refresh(&mut next, due, parts, rank);
    }
    next
}
