//! Which rules a row breaks, by what is kept of the rows of its channel.

ghost use Rattle.std.specs.Prelude.{◌≡◌, ◌<◌, ◌&&◌, ◌==◌, is_some};
ghost use Rattle.std.specs.List.{list_any};
ghost use Rattle.sim_base.specs.History.{below};
ghost use Rattle.sim_base.specs.Rules.{is_kind, is_row};
ghost use Rattle.rule_check.specs.Kept.{kept_breaks_distance, kept_breaks_window, kept_overdue, kept_breaks_refresh};
ghost use Rattle.rule_check.specs.Kept.{kept_row, has_kept_open_in_group, has_kept_open, kept_finds_banks, kept_breaks, comes_too_soon, keeps_each};

use crate::around::{around_command, bank_at, is_ahead_by, rank_at};
use crate::rule_numbers::{BANK_STATE, FOUR_ACTIVATE_WINDOW, REFRESH_INTERVAL};
use crate::state::{Bank, Channel, Rank};
use sim_base::command::{Command, IssuedCommand, Kind};
use sim_base::config::Config;
use sim_base::place::{BankId, is_row};
use sim_base::rule::Rule;

#[tactic(auto, unfolding(crate::specs::Kept::is_too_soon, crate::specs::Kept::kept_breaks_distance))]
fn breaks_distance(table: &[Rule], channel: &Channel, row: IssuedCommand, number: u32) -> bool
    ensures { result ≡ kept_breaks_distance table.now channel.now row number }
{
    let kind = row.command.kind();
    let around = around_command(channel, row.command);
    table.iter().any(move |rule| rule.number == number
        && is_ahead_by(around, rule, kind, row.cycle))
}

fn breaks_window(channel: &Channel, row: IssuedCommand) -> bool
    ensures { result ≡ kept_breaks_window channel.now row }
{
    row.command.kind().is_kind(Kind::Act)
        && row.cycle < rank_at(&channel.ranks, row.command.rank()).window.fourth
}

fn is_overdue(ranks: &[Rank], now: u64, rank: u32) -> bool
    ensures { result ≡ kept_overdue ranks.now now rank }
{
    rank_at(ranks, rank).deadline < now
}

fn has_overdue(ranks: &[Rank], count: u32, now: u64) -> bool
    ensures { result ≡ list_any (kept_overdue ranks.now now) (below count) }
{
    (0..count).any(move |rank| is_overdue(ranks, now, rank))
}

fn breaks_refresh(config: &Config, channel: &Channel, row: IssuedCommand) -> bool
    ensures { result ≡ kept_breaks_refresh config.now channel.now row }
{
    config.timing.n_refi > 0 && has_overdue(&channel.ranks, config.ranks, row.cycle)
}

fn kept_row(banks: &[Bank], bank: BankId) -> Option<u32>
    ensures { result ≡ kept_row banks.now bank }
{
    bank_at(banks, bank).row
}

fn is_open(banks: &[Bank], bank: BankId) -> bool
    ensures { result ≡ is_some (kept_row banks.now bank) }
{
    kept_row(banks, bank).is_some()
}

fn is_open_at(banks: &[Bank], rank: u32, group: u32, bank: u32) -> bool
    ensures { result ≡ is_some (kept_row banks.now
        (record { rank = rank; group = group; bank = bank })) }
{
    is_open(banks, BankId { rank, group, bank })
}

fn has_open_in_group(banks: &[Bank], rank: u32, group: u32) -> bool
    ensures { result ≡ has_kept_open_in_group banks.now rank group }
{
    is_open_at(banks, rank, group, 0)
        || is_open_at(banks, rank, group, 1)
        || is_open_at(banks, rank, group, 2)
        || is_open_at(banks, rank, group, 3)
}

#[tactic(auto, unfolding(crate::specs::Kept::has_kept_open))]
fn has_open(config: &Config, banks: &[Bank], rank: u32) -> bool
    ensures { result ≡ has_kept_open config.now banks.now rank }
{
    (0..config.groups).any(move |group| has_open_in_group(banks, rank, group))
}

fn finds_banks(config: &Config, banks: &[Bank], command: Command) -> bool
    ensures { result ≡ kept_finds_banks config.now banks.now command }
{
    match command {
        Command::Act { bank, .. } => !is_open(banks, bank),
        Command::Rd { bank, row, .. } | Command::Wr { bank, row, .. } => {
            is_row(row, kept_row(banks, bank))
        }
        Command::Ref { rank } => !has_open(config, banks, rank),
        Command::Pre { .. } | Command::Prea { .. } => true,
    }
}

// Whether a row comes too soon by some rule.
#[tactic(auto, unfolding(crate::specs::Kept::is_too_soon))]
fn comes_too_soon(table: &[Rule], channel: &Channel, row: IssuedCommand) -> bool
    ensures { result ≡ comes_too_soon table.now channel.now row }
{
    let kind = row.command.kind();
    let around = around_command(channel, row.command);
    table
        .iter()
        .any(move |rule| is_ahead_by(around, rule, kind, row.cycle))
}

/// Whether a row keeps every rule of its channel: one pass over the rules, which does not tell the number of a broken
/// one.
pub(crate) fn keeps_each(
    config: &Config,
    table: &[Rule],
    channel: &Channel,
    row: IssuedCommand,
) -> bool
    ensures { result ≡ keeps_each config.now table.now channel.now row }
{
    finds_banks(config, &channel.banks, row.command)
        && !breaks_window(channel, row)
        && !breaks_refresh(config, channel, row)
        && !comes_too_soon(table, channel, row)
}

/// Whether a row breaks a rule of its channel.
#[tactic(auto, unfolding(crate::specs::Kept::kept_breaks))]
pub(crate) fn breaks(
    config: &Config,
    table: &[Rule],
    channel: &Channel,
    row: IssuedCommand,
    number: u32,
) -> bool
    ensures { result ≡ kept_breaks config.now table.now channel.now row number }
{
    if number == BANK_STATE {
        !finds_banks(config, &channel.banks, row.command)
    } else if number == FOUR_ACTIVATE_WINDOW {
        breaks_window(channel, row)
    } else if number == REFRESH_INTERVAL {
        breaks_refresh(config, channel, row)
    } else {
        breaks_distance(table, channel, row, number)
    }
}
