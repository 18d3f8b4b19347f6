//! When a command keeps the timing rules, over the whole past of its channel.

ghost use Rattle.std.specs.Prelude.{◌≡◌, ◌+◌, nat_le, nat_lt};
ghost use Rattle.sim_base.specs.Rules.{open_row, recent_acts, is_past_gap, is_allowed, keeps_distances};
ghost use Rattle.sim_base.specs.Rules.{is_open, has_open_bank_in_group, has_open_bank, finds_its_banks, is_legal};
ghost use Rattle.plain_steps.specs.Plain.{counts_in_window};

use sim_base::command::{Command, IssuedCommand, Kind};
use sim_base::config::Config;
use sim_base::place::{BankId, is_row};
use sim_base::timing::Timing;
use timing::gap_table::GapTable;
use timing::rules::relation;

/// The row that is open in a bank.
#[tactic(auto, unfolding(sim_base::specs::Rules::open_row))]
pub fn row_of_bank(bank: BankId, history: &[IssuedCommand]) -> Option<u32>
    ensures { result ≡ open_row bank history.now }
{
    history
        .iter()
        .fold(None, move |row, i| i.command.row_after(bank, row))
}

fn has_passed(cycle: u64, distance: u64, now: u64) -> bool
    ensures { result ≡ nat_le (cycle + distance) now }
{
    cycle <= now && distance <= now - cycle
}

fn is_ahead(cycle: u64, distance: u64, now: u64) -> bool
    ensures { result ≡ nat_lt now (cycle + distance) }
{
    !has_passed(cycle, distance, now)
}

fn is_recent_act(t: Timing, of_rank: u32, now: u64, i: IssuedCommand) -> bool
    ensures { result ≡ counts_in_window t of_rank now i }
{
    i.command.kind().is_kind(Kind::Act)
        && i.command.rank() == of_rank
        && is_ahead(i.cycle, u64::from(t.n_faw), now)
}

/// How many ACTs of a rank count against one more at this cycle.
pub fn recent_act_count(t: Timing, of_rank: u32, now: u64, history: &[IssuedCommand]) -> usize
    ensures { result ≡ recent_acts t of_rank now history.now }
{
    history
        .iter()
        .filter(move |i| is_recent_act(t, of_rank, now, **i))
        .count()
}

/// Whether an earlier command no longer holds this one back.
#[tactic(auto, unfolding(sim_base::specs::Rules::is_past_gap))]
fn has_passed_gap(gaps: &GapTable, now: u64, command: Command, i: IssuedCommand) -> bool
    ensures { result ≡ is_past_gap gaps.now now command i }
{
    let earlier = i.command.kind();
    let later = command.kind();
    let relation = relation(i.command, command);
    !gaps.binds(earlier, later, relation)
        || has_passed(i.cycle, gaps.gap(earlier, later, relation), now)
}

/// Whether the command keeps its distance from each one before it.
fn keeps_all_distances(
    gaps: &GapTable,
    history: &[IssuedCommand],
    now: u64,
    command: Command,
) -> bool
    ensures { result ≡ keeps_distances gaps.now history.now now command }
{
    history
        .iter()
        .all(move |i| has_passed_gap(gaps, now, command, *i))
}

/// Whether the distances and the four-activate window allow the command now.
#[tactic(auto, unfolding(sim_base::specs::Rules::is_allowed))]
pub fn is_command_allowed(
    s: &Config,
    gaps: &GapTable,
    history: &[IssuedCommand],
    now: u64,
    command: Command,
) -> bool
    requires { gaps.now ≡ s.now.timing }
    ensures { result ≡ is_allowed s.now.timing history.now now command }
{
    keeps_all_distances(gaps, history, now, command)
        && (!command.kind().is_kind(Kind::Act)
            || recent_act_count(s.timing, command.rank(), now, history) <= 3)
}

pub fn is_bank_open(history: &[IssuedCommand], bank: BankId) -> bool
    ensures { result ≡ is_open history.now bank }
{
    row_of_bank(bank, history).is_some()
}

fn is_open_at(history: &[IssuedCommand], rank: u32, group: u32, bank: u32) -> bool
    ensures { result ≡ is_open history.now (record { rank = rank; group = group; bank = bank }) }
{
    is_bank_open(history, BankId { rank, group, bank })
}

fn has_open_bank_of_group(history: &[IssuedCommand], rank: u32, group: u32) -> bool
    ensures { result ≡ has_open_bank_in_group history.now rank group }
{
    is_open_at(history, rank, group, 0)
        || is_open_at(history, rank, group, 1)
        || is_open_at(history, rank, group, 2)
        || is_open_at(history, rank, group, 3)
}

#[tactic(auto, unfolding(sim_base::specs::Rules::has_open_bank))]
pub fn has_open_bank_of_rank(s: &Config, history: &[IssuedCommand], rank: u32) -> bool
    ensures { result ≡ has_open_bank s.now history.now rank }
{
    (0..s.groups).any(move |group| has_open_bank_of_group(history, rank, group))
}

pub fn finds_banks(s: &Config, history: &[IssuedCommand], command: Command) -> bool
    ensures { result ≡ finds_its_banks s.now history.now command }
{
    match command {
        Command::Act { bank, .. } => !is_bank_open(history, bank),
        Command::Rd { bank, row, .. } | Command::Wr { bank, row, .. } => {
            is_row(row, row_of_bank(bank, history))
        }
        Command::Ref { rank } => !has_open_bank_of_rank(s, history, rank),
        Command::Pre { .. } | Command::Prea { .. } => true,
    }
}

/// Whether the command may be issued now.
#[tactic(auto, unfolding(sim_base::specs::Rules::is_legal))]
pub fn is_legal_now(
    s: &Config,
    gaps: &GapTable,
    history: &[IssuedCommand],
    now: u64,
    command: Command,
) -> bool
    requires { gaps.now ≡ s.now.timing }
    ensures { result ≡ is_legal s.now history.now now command }
{
    finds_banks(s, history, command) && is_command_allowed(s, gaps, history, now, command)
}
