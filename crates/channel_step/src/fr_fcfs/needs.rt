//! What a rank that is to be refreshed needs next, and from which cycle on that may be issued.

ghost use Rattle.std.specs.Prelude.{◌≡◌, ◌+◌, ◌*◌, ◌<◌, ◌≤◌, List};
ghost use Rattle.sim_base.specs.Rules.{is_open, has_open_bank_in_group, has_open_bank};
ghost use Rattle.sim_base.specs.Scheduling.{refresh_command};
ghost use Rattle.sim_base.specs.declared.config.Config.{Config};
ghost use Rattle.sim_base.specs.declared.command.IssuedCommand.{IssuedCommand};
ghost use Rattle.bank_ready.specs.Stands.{rank_count, StandsFor};
ghost use Rattle.queue.specs.Stands.{bank_count};
ghost use Rattle.channel_step.specs.FrFcfs.Requests.{OfSameBanks, KnowsRows, IsLegalFrom};

use bank_ready::banks::Banks;
use queue::bank_candidates::BankCandidates;
use sim_base::command::{Command, Kind};
use sim_base::message::Cycle;
use sim_base::place::BankId;

/// Whether a row of a bank is open.
fn is_open(bank_candidates: &BankCandidates, rank: u32, group: u32, bank: u32) -> bool
    requires rank { 16 * rank + 16 ≤ bank_count bank_candidates.now }
    requires group { group < 4 }
    requires bank { bank < 4 }
    ensures { (history : List IssuedCommand) → KnowsRows bank_candidates.now history
        → result ≡ is_open history (record { rank = rank; group = group; bank = bank }) }
{
    bank_candidates
        .open_row(BankId { rank, group, bank })
        .is_some()
}

/// Whether a row of some bank of a group is open.
fn has_open_bank_in_group(bank_candidates: &BankCandidates, rank: u32, group: u32) -> bool
    requires rank { 16 * rank + 16 ≤ bank_count bank_candidates.now }
    requires group { group < 4 }
    ensures { (history : List IssuedCommand) → KnowsRows bank_candidates.now history
        → result ≡ has_open_bank_in_group history rank group }
{
    is_open(bank_candidates, rank, group, 0)
        || is_open(bank_candidates, rank, group, 1)
        || is_open(bank_candidates, rank, group, 2)
        || is_open(bank_candidates, rank, group, 3)
}

/// Whether a row of some bank of a rank is open.
fn has_open_bank(bank_candidates: &BankCandidates, rank: u32, groups: u32) -> bool
    requires rank { 16 * rank + 16 ≤ bank_count bank_candidates.now }
    requires groups { groups ≤ 4 }
    ensures { (s : Config) (history : List IssuedCommand) → KnowsRows bank_candidates.now history
        → s.groups ≡ groups → result ≡ has_open_bank s history rank }
{
    for group in 0..groups {
        if has_open_bank_in_group(bank_candidates, rank, group) {
            return true;
        }
    }
    false
}

/// What a rank that is to be refreshed needs.
#[inline(always)]
pub fn refresh_command(bank_candidates: &BankCandidates, rank: u32, groups: u32) -> Command
    requires rank { 16 * rank + 16 ≤ bank_count bank_candidates.now }
    requires groups { groups ≤ 4 }
    ensures { (s : Config) (history : List IssuedCommand) → KnowsRows bank_candidates.now history
        → s.groups ≡ groups → result ≡ refresh_command s history rank }
{
    if has_open_bank(bank_candidates, rank, groups) {
        Command::Prea { rank }
    } else {
        Command::Ref { rank }
    }
}

/// From which cycle on what a rank that is to be refreshed needs may be issued: a PREA where a row is open in the rank,
/// and else its REF.
#[inline(never)]
pub(crate) fn refresh_ready(
    bank_candidates: &BankCandidates,
    banks: &Banks,
    rank: u32,
    groups: u32,
) -> Cycle
    requires rank { rank < rank_count banks.now }
    requires banks { OfSameBanks bank_candidates.now banks.now }
    requires groups { groups ≤ 4 }
    ensures { (s : Config) (history : List IssuedCommand) → StandsFor banks.now s history
        → KnowsRows bank_candidates.now history → s.groups ≡ groups
        → IsLegalFrom s history (refresh_command s history rank) result }
{
    if has_open_bank(bank_candidates, rank, groups) {
        banks.earliest_all(Kind::Prea, rank)
    } else {
        banks.earliest_all(Kind::Ref, rank)
    }
}
