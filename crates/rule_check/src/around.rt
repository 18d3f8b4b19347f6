//! What is kept of the commands around a command: those that a rule may bind to it.

ghost use Rattle.std.specs.Prelude.{◌≡◌, slice_get, unwrap_or};
ghost use Rattle.sim_base.specs.Rules.{is_kind, rank_of, bank_of};
ghost use Rattle.rule_check.specs.Kept.{group_number};
ghost use Rattle.sim_base.specs.Places.{number_of_bank};
ghost use Rattle.rule_check.specs.Around.{latest_at, is_ahead_by, IsAround};

use crate::channel::group_number;
use crate::latest::{Latest, is_ahead, latest_of};
use crate::state::{Bank, Channel, Group, NEW_BANK, NEW_GROUP, NEW_RANK, Rank};
use sim_base::command::{Command, Kind};
use sim_base::place::BankId;
use sim_base::rule::{Rule, Scope};

/// The latest commands that a rule of each scope binds to a later one.
#[derive(Clone, Copy)]
pub(crate) struct Around<'c> {
    bank: &'c Latest,
    group: &'c Latest,
    other_groups: &'c Latest,
    rank: &'c Latest,
    other_ranks: &'c Latest,
}

/// What is kept of a bank; if nothing is, what is kept of a new one.
pub(crate) fn bank_at(banks: &[Bank], bank: BankId) -> &Bank
    ensures { result.now ≡ unwrap_or (slice_get banks.now (number_of_bank bank)) NEW_BANK }
{
    banks.get(bank.number()).unwrap_or(&NEW_BANK)
}

fn group_at(groups: &[Group], bank: BankId) -> &Group
    ensures { result.now ≡ unwrap_or (slice_get groups.now (group_number bank)) NEW_GROUP }
{
    groups.get(group_number(bank)).unwrap_or(&NEW_GROUP)
}

/// What is kept of a rank; if nothing is, what is kept of a new one.
pub(crate) fn rank_at(ranks: &[Rank], rank: u32) -> &Rank
    ensures { result.now ≡ unwrap_or (slice_get ranks.now rank) NEW_RANK }
{
    ranks.get(rank as usize).unwrap_or(&NEW_RANK)
}

/// The latest commands around a command.
pub(crate) fn around_command(channel: &Channel, command: Command) -> Around<'_>
    ensures { IsAround result channel.now (rank_of command) (bank_of command) }
{
    let rank = rank_at(&channel.ranks, command.rank());
    match command.bank() {
        Some(bank) => {
            let group = group_at(&channel.groups, bank);
            Around {
                bank: &bank_at(&channel.banks, bank).latest,
                group: &group.within,
                other_groups: &group.across,
                rank: &rank.within,
                other_ranks: &rank.across,
            }
        }
        None => Around {
            bank: &rank.within,
            group: &rank.within,
            other_groups: &NEW_GROUP.across,
            rank: &rank.within,
            other_ranks: &rank.across,
        },
    }
}

fn latest_at(around: Around<'_>, scope: Scope) -> &Latest
    ensures { result.now ≡ latest_at around.entry scope }
{
    match scope {
        Scope::InBank => around.bank,
        Scope::InGroup => around.group,
        Scope::AcrossGroups => around.other_groups,
        Scope::InRank => around.rank,
        Scope::AcrossRanks => around.other_ranks,
    }
}

/// Whether a command of a kind comes too soon in a cycle, by a rule.
#[inline(always)]
pub(crate) fn is_ahead_by(around: Around<'_>, rule: &Rule, kind: Kind, now: u64) -> bool
    ensures { result ≡ is_ahead_by around.entry kind now rule.now }
{
    rule.later.is_kind(kind)
        && is_ahead(
            now,
            rule.cycles,
            latest_of(latest_at(around, rule.scope), rule.earlier),
        )
}
