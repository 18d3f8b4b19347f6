//! Statistics of the units of a simulator.

ghost use Rattle.std.specs.Prelude.{◌≡◌, ℕ, length, IfOk};
ghost use Rattle.sim_base.specs.declared.message.Unit.TheVariants as unit;
ghost use Rattle.units.specs.Runs.{core_stats_at, channel_stats_at, each_core_stats, each_channel_stats};
ghost use Rattle.units.specs.Units.{unit_count};
ghost use Rattle.units.specs.Parts.{IsPart, StandAt};
ghost use Rattle.units.specs.declared.machine.Machine.{Machine};

use crate::machine::Machine;
use crate::part::UnitState;
use statistics::channels::ChannelStats;
use statistics::cores::CoreStats;
use std::alloc::{AllocError, Global};

/// The statistics of a unit that is a core.
fn core_stats_of(part: &UnitState) -> CoreStats
    ensures { (machine : Machine) (core now : ℕ)
        → IsPart machine (unit.Core core) now part.now → result ≡ core_stats_at machine now core }
{
    match part {
        UnitState::Core(core) => core.stats(),
        UnitState::Channel(..) => CoreStats::new(),
    }
}

/// The statistics of a unit that is a channel.
fn channel_stats_of(part: &UnitState) -> ChannelStats
    ensures { (machine : Machine) (channel now : ℕ)
        → IsPart machine (unit.Channel channel) now part.now
        → result ≡ channel_stats_at machine now channel }
{
    match part {
        UnitState::Core(..) => ChannelStats::new(),
        UnitState::Channel(channel, _) => channel.stats(),
    }
}

/// The statistics of the cores of a machine, by number.
pub(crate) fn stats_of_cores(
    alloc: Global,
    machine: &Machine,
    parts: &[UnitState],
) -> Result<Vec<CoreStats>, AllocError>
    requires count { length parts.now ≡ unit_count machine.now.config }
    ensures { (now : ℕ) → StandAt machine.now now parts.now
        → IfOk result (λ v. v.items ≡ each_core_stats machine.now now) }
{
    let mut stats = Vec::new(alloc);
    for core in 0..machine.config.cores {
        stats.push(core_stats_of(&parts[usize::from(core)]))?;
    }
    Ok(stats)
}

/// The statistics of the channels of a machine, by number.
pub(crate) fn stats_of_channels(
    alloc: Global,
    machine: &Machine,
    parts: &[UnitState],
) -> Result<Vec<ChannelStats>, AllocError>
    requires count { length parts.now ≡ unit_count machine.now.config }
    ensures { (now : ℕ) → StandAt machine.now now parts.now
        → IfOk result (λ v. v.items ≡ each_channel_stats machine.now now) }
{
    let mut stats = Vec::new(alloc);
    for channel in 0..machine.config.channels {
        let place = usize::from(machine.config.cores) + usize::from(channel);
        stats.push(channel_stats_of(&parts[place]))?;
    }
    Ok(stats)
}
