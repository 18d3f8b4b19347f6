//! The state in which a run ends.

ghost use Rattle.std.specs.Prelude.{◌≡◌, filter_map, IfOk};
ghost use Rattle.sim_base.specs.Final.{banks, banks_of_group, banks_of_rank};
ghost use Rattle.statistics.specs.Runs.{open_row_of_bank};
ghost use Rattle.one_clock.specs.Cycles.{core_before, channel_before, cores_before, channels_before};
ghost use Rattle.one_clock.specs.Cycles.{core_left_before, channel_left_before, cores_left_before, channels_left_before};
ghost use Rattle.one_clock.specs.Ends.{credits_kept, all_credits_kept, refreshes_due};

use crate::run_cycle::RunCycle;
use crate::state::{ChannelPast, CorePast};
use plain_steps::{cores, rules, scheduling};
use sim_base::command::IssuedCommand;
use sim_base::config::Config;
use sim_base::message::{Access, ChannelId, CoreId};
use sim_base::place::BankId;
use statistics::final_state::{ChannelState, CoreState, Credits, OpenRow};
use std::alloc::{AllocError, Global};

/// The credits that a core with this past holds for a channel.
fn credits_held(s: &Config, core: CoreId, past: &CorePast, channel: ChannelId) -> Credits
    ensures { result ≡ credits_kept s.now core past.now channel }
{
    let until = past.past_steps().len();
    let mail = past.mail(core);
    Credits {
        read: cores::held_count(s, &mail, channel, Access::Read, until) as u64,
        write: cores::held_count(s, &mail, channel, Access::Write, until) as u64,
    }
}

fn all_credits_held(
    alloc: Global,
    s: &Config,
    core: CoreId,
    past: &CorePast,
) -> Result<Vec<Credits>, AllocError>
    ensures { IfOk result (λ v. v.items ≡ all_credits_kept s.now core past.now) }
{
    (0..u32::from(s.channels))
        .map(move |channel| credits_held(s, core, past, channel))
        .collect(alloc)
}

/// The state in which a core is left, if the run ends before this cycle.
#[tactic(auto, unfolding(statistics::specs::Runs::final_of_core, statistics::specs::Runs::core_final, statistics::specs::Runs::credits_of, sim_base::specs::Final::credits_left, sim_base::specs::History::messages_of_core), using(crate::proofs::Next::length_steps))]
pub fn core_left(
    cycle: &RunCycle<'_>,
    core: CoreId,
    past: &CorePast,
) -> Result<CoreState, AllocError>
    requires past { past.now ≡ core_before cycle.now core }
    ensures { IfOk result (λ state. state ≡ core_left_before cycle.now core) }
{
    let past_steps = past.past_steps();
    Ok(CoreState {
        issued: cores::issued_count(past_steps),
        retired: cores::retired_count(past_steps),
        credits: all_credits_held(cycle.alloc, cycle.config, core, past)?,
    })
}

fn all_due(
    alloc: Global,
    s: &Config,
    history: &[IssuedCommand],
    now: u64,
) -> Result<Vec<u64>, AllocError>
    ensures { IfOk result (λ v. v.items ≡ refreshes_due s.now history.now now) }
{
    (0..s.ranks)
        .map(|rank| scheduling::due_count(s, rank, history, now))
        .collect(alloc)
}

fn bank_at(rank: u32, group: u32, bank: u32) -> BankId
    ensures { result ≡ record { rank = rank; group = group; bank = bank } }
{
    BankId { rank, group, bank }
}

fn group_of_banks(rank: u32, group: u32) -> [BankId; 4]
    ensures { result ≡ banks_of_group rank group }
{
    [
        bank_at(rank, group, 0),
        bank_at(rank, group, 1),
        bank_at(rank, group, 2),
        bank_at(rank, group, 3),
    ]
}

fn rank_of_banks(alloc: Global, s: &Config, rank: u32) -> Result<Vec<BankId>, AllocError>
    ensures { IfOk result (λ v. v.items ≡ banks_of_rank s.now rank) }
{
    let mut banks = Vec::new(alloc);
    for group in 0..s.groups {
        banks.extend_from_slice(&group_of_banks(rank, group))?;
    }
    Ok(banks)
}

/// The banks of a channel, by rank, group and number.
#[tactic(auto, unfolding(sim_base::specs::Final::banks))]
fn all_banks(alloc: Global, s: &Config) -> Result<Vec<BankId>, AllocError>
    ensures { IfOk result (λ v. v.items ≡ banks s.now) }
{
    let mut banks = Vec::new(alloc);
    for rank in 0..s.ranks {
        banks.extend_from_slice(&rank_of_banks(alloc, s, rank)?)?;
    }
    Ok(banks)
}

fn open_row_of(history: &[IssuedCommand], bank: BankId) -> Option<OpenRow>
    ensures { result ≡ open_row_of_bank history.now bank }
{
    match rules::row_of_bank(bank, history) {
        Some(row) => Some(OpenRow { bank, row }),
        None => None,
    }
}

fn open_rows_of(
    alloc: Global,
    history: &[IssuedCommand],
    banks: &[BankId],
) -> Result<Vec<OpenRow>, AllocError>
    ensures { IfOk result (λ v. v.items ≡ filter_map (open_row_of_bank history.now) banks.now) }
{
    banks
        .iter()
        .filter_map(|bank| open_row_of(history, *bank))
        .collect(alloc)
}

/// The state in which a channel is left, if the run ends before this cycle.
#[tactic(auto, using(crate::proofs::Ended::channel_left_is))]
pub fn channel_left(
    cycle: &RunCycle<'_>,
    channel: ChannelId,
    past: &ChannelPast,
) -> Result<ChannelState, AllocError>
    requires past { past.now ≡ channel_before cycle.now channel }
    ensures { IfOk result (λ state. state ≡ channel_left_before cycle.now channel) }
{
    let alloc = cycle.alloc;
    let history = past.commands();
    let banks = all_banks(alloc, cycle.config)?;
    Ok(ChannelState {
        due: all_due(alloc, cycle.config, history, cycle.number)?,
        open_rows: open_rows_of(alloc, history, &banks)?,
        queue: scheduling::queue(alloc, past.pending(), cycle.number)?,
    })
}

/// The state in which each core is left, by number, if the run ends before this cycle.
pub fn cores_left(cycle: &RunCycle<'_>, cores: &[CorePast]) -> Result<Vec<CoreState>, AllocError>
    requires cores { cores.now ≡ cores_before cycle.now }
    ensures { IfOk result (λ v. v.items ≡ cores_left_before cycle.now) }
{
    let mut left = Vec::new(cycle.alloc);
    for core in 0..cycle.config.cores {
        left.push(core_left(cycle, core, &cores[core as usize])?)?;
    }
    Ok(left)
}

/// The state in which each channel is left, by number, if the run ends before this cycle.
pub fn channels_left(
    cycle: &RunCycle<'_>,
    channels: &[ChannelPast],
) -> Result<Vec<ChannelState>, AllocError>
    requires channels { channels.now ≡ channels_before cycle.now }
    ensures { IfOk result (λ v. v.items ≡ channels_left_before cycle.now) }
{
    let mut left = Vec::new(cycle.alloc);
    for channel in 0..u32::from(cycle.config.channels) {
        left.push(channel_left(cycle, channel, &channels[channel as usize])?)?;
    }
    Ok(left)
}
