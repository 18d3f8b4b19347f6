//! Whether the next command stays the same when requests arrive.

ghost use Rattle.std.specs.Prelude.{◌≡◌, ◌<◌, true, List, Some, IsTrue, take};
ghost use Rattle.sim_base.specs.Rules.{kind_of};
ghost use Rattle.sim_base.specs.Scheduling.{needed_at, is_column_command};
ghost use Rattle.sim_base.specs.declared.config.Config.{Config};
ghost use Rattle.sim_base.specs.declared.command.Command.{Command};
ghost use Rattle.sim_base.specs.declared.command.IssuedCommand.{IssuedCommand};
ghost use Rattle.sim_base.specs.declared.message.Request.{Request};
ghost use Rattle.bank_ready.specs.Words.{names_bank};
ghost use Rattle.bank_ready.specs.Stands.{rank_count, StandsFor as BanksStandFor};
ghost use Rattle.queue.specs.declared.request_log.Arrived.{Arrived};
ghost use Rattle.channel_step.specs.FrFcfs.Arrivals.{ComesAfter, StaysFound};
ghost use Rattle.channel_step.specs.FrFcfs.Choices.{command_of, IsFor};
ghost use Rattle.channel_step.specs.FrFcfs.Offers.{going};
ghost use Rattle.channel_step.specs.FrFcfs.Requests.{IsInBanks, AreInBanks, OfSameBanks, KnowsRows, ForRequests, candidates_of};

use crate::fr_fcfs::accesses::{ALL_ACCESSES, Accesses, accesses_that_go, are_same, goes};
use crate::fr_fcfs::choice::Need;
use crate::fr_fcfs::offers::ready;
use bank_ready::banks::Banks;
use queue::Queue;
use queue::bank_candidates::BankCandidates;
use queue::request_log::words::bank_number;
use sim_base::command::Kind;
use sim_base::message::{Access, Cycle, Request};

/// The kind of command that a request for a row needs, given the open row of its bank.
#[inline(always)]
fn kind_needed(open_row: Option<u32>, row: u32, access: Access) -> Kind
    ensures kind { (r : Request)
        → r.place.row ≡ row → r.access ≡ access → result ≡ kind_of (needed_at open_row r) }
    ensures bank { IsTrue (names_bank result) }
{
    match open_row {
        None => Kind::Act,
        Some(open) if open != row => Kind::Pre,
        Some(_) => match access {
            Access::Read => Kind::Rd,
            Access::Write => Kind::Wr,
        },
    }
}

/// Whether commands of a kind are column commands.
#[inline(always)]
fn is_column_kind(kind: Kind) -> bool
    ensures { (command : Command) → kind_of command ≡ kind → result ≡ is_column_command command }
{
    matches!(kind, Kind::Rd | Kind::Wr)
}

/// Whether what a request needs may not be issued before a cycle, and is no column command, unless one is chosen for
/// the cycle (`hit`).
#[inline(always)]
fn comes_after(
    bank_candidates: &BankCandidates,
    banks: &Banks,
    request: &Request,
    cycle: Cycle,
    hit: bool,
) -> bool
    requires place { IsInBanks (rank_count banks.now) request.now }
    requires banks { OfSameBanks bank_candidates.now banks.now }
    ensures { (s : Config) (history : List IssuedCommand)
        → result ≡ true → BanksStandFor banks.now s history → KnowsRows bank_candidates.now history
        → ComesAfter s history cycle hit request.now }
{
    let open_row = bank_candidates.open_row(request.place.bank_id());
    let kind = kind_needed(open_row, request.place.row, request.access);
    let after = cycle <= ready(banks, bank_number(request.place), kind);
    after && (hit || !is_column_kind(kind))
}

/// Whether the command that a need asks for is a column command.
#[inline(always)]
fn needs_column_command(need: Need) -> bool
    ensures { (s : Config) (history : List IssuedCommand) (log : List Arrived) (command : Command)
        → command_of s history log need ≡ Some command → result ≡ is_column_command command }
{
    match need {
        Need::Column(_) => true,
        Need::Row(_) => false,
        Need::Refresh(_) => false,
    }
}

/// A queue before requests arrived: how many places its log had, and the requests of which accesses went.
#[derive(Clone, Copy)]
pub(crate) struct EarlierQueue {
    pub(crate) places: usize,
    pub(crate) accesses: Accesses,
}

/// Whether what was found, the next cycle with a command and what needs it, is known to stay the same now that requests
/// have arrived at a queue, where requests of the same accesses go as before: whether none of those that arrived goes
/// before it.
#[inline(always)]
fn none_goes_before(
    queue: &Queue,
    bank_candidates: &BankCandidates,
    banks: &Banks,
    before: EarlierQueue,
    found: (Cycle, Need),
) -> bool
    requires places { AreInBanks (rank_count banks.now) queue.now.log }
    requires banks { OfSameBanks bank_candidates.now banks.now }
    requires need { IsFor (rank_count banks.now) queue.now.log found.1 }
    ensures { result ≡ true → ForRequests banks.now bank_candidates.now queue.now (λ s history.
        candidates_of s queue.now ≡ going before.accesses queue.now.log
        → StaysFound s history (take before.places queue.now.log) before.accesses queue.now found) }
{
    let (cycle, need) = found;
    let log = queue.log().log();
    let hit = needs_column_command(need);
    for place in before.places..log.len() {
        let request = &log[place].request;
        let is_going = goes(before.accesses, request.access);
        if is_going && !comes_after(bank_candidates, banks, request, cycle, hit) {
            return false;
        }
    }
    true
}

/// Whether what was found, the next cycle with a command and what needs it, is known to stay the same now that requests
/// have arrived at a queue. It stays if requests of the same accesses go, and none of those that arrived goes before it.
/// Where the channel never drains, all go, so that nothing is asked of their accesses.
#[inline(always)]
pub(crate) fn stays(
    queue: &Queue,
    bank_candidates: &BankCandidates,
    banks: &Banks,
    before: EarlierQueue,
    found: (Cycle, Need),
) -> bool
    requires places { AreInBanks (rank_count banks.now) queue.now.log }
    requires banks { OfSameBanks bank_candidates.now banks.now }
    requires need { IsFor (rank_count banks.now) queue.now.log found.1 }
    ensures { result ≡ true → ForRequests banks.now bank_candidates.now queue.now (λ s history.
        StaysFound s history (take before.places queue.now.log) before.accesses queue.now found) }
{
    if queue.high() == 0 {
        let all = EarlierQueue {
            places: before.places,
            accesses: ALL_ACCESSES,
        };
        return none_goes_before(queue, bank_candidates, banks, all, found);
    }
    let accesses = accesses_that_go(queue, bank_candidates);
    are_same(accesses, before.accesses)
        && none_goes_before(queue, bank_candidates, banks, before, found)
}
