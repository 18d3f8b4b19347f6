//! The state in which the units of a simulator are left.

ghost use Rattle.std.specs.Prelude.{◌≡◌, ◌<◌, ◌++◌, ℕ, length, IfOk, OnOk};
ghost use Rattle.std.specs.Option.{option_to_list};
ghost use Rattle.sim_base.specs.Final.{banks_of_group, banks_of_rank};
ghost use Rattle.sim_base.specs.declared.message.Unit.TheVariants as unit;
ghost use Rattle.channel_step.specs.Channels.{HasBank};
ghost use Rattle.units.specs.declared.machine.Machine.{Machine};
ghost use Rattle.units.specs.Rows.{HasGroup, AddsRows};
ghost use Rattle.units.specs.Runs.{HasChannelAt, core_final_at, channel_final_at, each_core_final, each_channel_final, each_due, open_rows_at, row_at};
ghost use Rattle.units.specs.Units.{unit_count};
ghost use Rattle.units.specs.Parts.{IsPart, StandAt};

use crate::machine::Machine;
use crate::part::UnitState;
use channel_step::channel::Channel;
use sim_base::config::Config;
use sim_base::message::{ChannelId, CoreId, Cycle};
use sim_base::place::BankId;
use statistics::final_state::{ChannelState, CoreState, OpenRow};
use std::alloc::{AllocError, Global};

/// The state in which a core is left.
fn core_left(
    alloc: Global,
    machine: &Machine,
    now: Cycle,
    core: CoreId,
    part: &UnitState,
) -> Result<CoreState, AllocError>
    requires stands { IsPart machine.now (unit.Core core) now part.now }
    ensures { IfOk result (λ left. left ≡ core_final_at machine.now now core) }
{
    match part {
        UnitState::Core(core) => {
            let stats = core.stats();
            Ok(CoreState {
                issued: stats.issued,
                retired: stats.retired,
                credits: core.credits().to_vec(alloc)?,
            })
        }
        UnitState::Channel(..) => unreachable!(),
    }
}

/// The refreshes of a channel that are due, for each rank by number.
fn all_due(
    alloc: Global,
    machine: &Machine,
    now: Cycle,
    number: ChannelId,
    channel: &Channel,
) -> Result<Vec<u64>, AllocError>
    requires stands { HasChannelAt machine.now number now channel.now }
    ensures { IfOk result (λ v. v.items ≡ each_due machine.now now number) }
{
    let mut all = Vec::new(alloc);
    for rank in 0..machine.config.ranks {
        all.push(channel.due(rank))?;
    }
    Ok(all)
}

/// Puts the row that is open in a bank of a channel, if one is, at the end of a list.
fn add_row_of_bank(
    channel: &Channel,
    bank: BankId,
    rows: &mut Vec<OpenRow>,
) -> Result<(), AllocError>
    requires { HasBank channel.now bank }
    ensures { (machine : Machine) (number now : ℕ) → HasChannelAt machine number now channel.now
        → OnOk result (rows.new.items
        ≡ rows.old.items ++ option_to_list (row_at machine now number bank)) }
{
    if let Some(row) = channel.open_row(bank) {
        rows.push(OpenRow { bank, row })?;
    }
    Ok(())
}

/// Puts the rows that are open in the banks of a group at the end of a list.
fn add_rows_of_group(
    channel: &Channel,
    rank: u32,
    group: u32,
    rows: &mut Vec<OpenRow>,
) -> Result<(), AllocError>
    requires { HasGroup channel.now rank group }
    ensures { (machine : Machine) (number now : ℕ) → HasChannelAt machine number now channel.now
        → OnOk result (AddsRows machine now number (banks_of_group rank group)
        rows.old.items rows.new.items) }
{
    for bank in 0..4 {
        add_row_of_bank(channel, BankId { rank, group, bank }, rows)?;
    }
    Ok(())
}

/// Puts the rows that are open in the banks of a rank at the end of a list.
fn add_rows_of_rank(
    config: &Config,
    channel: &Channel,
    rank: u32,
    rows: &mut Vec<OpenRow>,
) -> Result<(), AllocError>
    requires { (group : ℕ) → group < config.now.groups → HasGroup channel.now rank group }
    ensures { (machine : Machine) (number now : ℕ) → HasChannelAt machine number now channel.now
        → OnOk result (AddsRows machine now number (banks_of_rank config.now rank)
        rows.old.items rows.new.items) }
{
    for group in 0..config.groups {
        add_rows_of_group(channel, rank, group, rows)?;
    }
    Ok(())
}

/// The rows of a channel that are open, by rank, group and bank.
fn open_rows(
    alloc: Global,
    machine: &Machine,
    now: Cycle,
    number: ChannelId,
    channel: &Channel,
) -> Result<Vec<OpenRow>, AllocError>
    requires stands { HasChannelAt machine.now number now channel.now }
    ensures { IfOk result (λ v. v.items ≡ open_rows_at machine.now now number) }
{
    let mut rows = Vec::new(alloc);
    for rank in 0..machine.config.ranks {
        add_rows_of_rank(&machine.config, channel, rank, &mut rows)?;
    }
    Ok(rows)
}

/// The state in which a channel is left.
fn channel_left(
    alloc: Global,
    machine: &Machine,
    now: Cycle,
    number: ChannelId,
    part: &UnitState,
) -> Result<ChannelState, AllocError>
    requires stands { IsPart machine.now (unit.Channel number) now part.now }
    ensures { IfOk result (λ left. left ≡ channel_final_at machine.now now number) }
{
    match part {
        UnitState::Core(..) => unreachable!(),
        UnitState::Channel(channel, _) => Ok(ChannelState {
            due: all_due(alloc, machine, now, number, channel)?,
            open_rows: open_rows(alloc, machine, now, number, channel)?,
            queue: channel.requests(alloc)?,
        }),
    }
}

/// The state in which each core is left, by number.
pub(crate) fn cores_left(
    alloc: Global,
    machine: &Machine,
    now: Cycle,
    parts: &[UnitState],
) -> Result<Vec<CoreState>, AllocError>
    requires count { length parts.now ≡ unit_count machine.now.config }
    requires stand { StandAt machine.now now parts.now }
    ensures { IfOk result (λ v. v.items ≡ each_core_final machine.now now) }
{
    let mut left = Vec::new(alloc);
    for core in 0..machine.config.cores {
        let part = &parts[usize::from(core)];
        left.push(core_left(alloc, machine, now, core, part)?)?;
    }
    Ok(left)
}

/// The state in which each channel is left, by number.
pub(crate) fn channels_left(
    alloc: Global,
    machine: &Machine,
    now: Cycle,
    parts: &[UnitState],
) -> Result<Vec<ChannelState>, AllocError>
    requires count { length parts.now ≡ unit_count machine.now.config }
    requires stand { StandAt machine.now now parts.now }
    ensures { IfOk result (λ v. v.items ≡ each_channel_final machine.now now) }
{
    let mut left = Vec::new(alloc);
    for channel in 0..machine.config.channels {
        let place = usize::from(machine.config.cores) + usize::from(channel);
        left.push(channel_left(alloc, machine, now, u32::from(channel), &parts[place])?)?;
    }
    Ok(left)
}
