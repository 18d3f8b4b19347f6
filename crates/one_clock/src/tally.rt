//! The statistics of each unit, one cycle more.

ghost use Rattle.std.specs.Prelude.{◌≡◌, ◌<◌, IfOk, OnOk};
ghost use Rattle.one_clock.specs.Cycles.{core_before, cores_before, core_stop_in, core_stops_in};
ghost use Rattle.one_clock.specs.Cycles.{core_stats_before, core_stats_after, all_core_stats_before, all_core_stats_after};
ghost use Rattle.one_clock.specs.Cycles.{channel_before, channels_before, channel_step_in, channel_steps_in};
ghost use Rattle.one_clock.specs.Cycles.{channel_stats_before, channel_stats_after, all_channel_stats_before, all_channel_stats_after};

use crate::counting::{channel_cycle_stats, core_cycle_stats, no_channel_stats, replies_now};
use crate::run_cycle::RunCycle;
use crate::sending::trace_of_core;
use crate::state::{ChannelPast, CorePast};
use plain_steps::scheduling::{self, ChannelStep};
use sim_base::history::CoreStep;
use sim_base::message::{ChannelId, CoreId};
use sim_base::trace::Stop;
use statistics::channels::ChannelStats;
use statistics::cores::CoreStats;
use std::alloc::AllocError;

/// The statistics of each core before the first cycle.
pub fn no_core_counts(cycle: &RunCycle<'_>) -> Result<Vec<CoreStats>, AllocError>
    requires { cycle.now.number ≡ 0 }
    ensures { IfOk result (λ v. v.items ≡ all_core_stats_before cycle.now) }
{
    let mut counts = Vec::new(cycle.alloc);
    for core in 0..cycle.config.cores {
        counts.push(CoreStats::new())?;
    }
    Ok(counts)
}

/// The statistics of each channel before the first cycle.
pub fn no_channel_counts(cycle: &RunCycle<'_>) -> Result<Vec<ChannelStats>, AllocError>
    requires { cycle.now.number ≡ 0 }
    ensures { IfOk result (λ v. v.items ≡ all_channel_stats_before cycle.now) }
{
    let mut counts = Vec::new(cycle.alloc);
    for channel in 0..u32::from(cycle.config.channels) {
        counts.push(no_channel_stats(cycle.config))?;
    }
    Ok(counts)
}

/// Adds a cycle to the statistics of a core, in which it does this.
#[tactic(auto, using(crate::proofs::Joined::core_stats_next, crate::proofs::Next::length_steps))]
fn count_core(
    cycle: &RunCycle<'_>,
    core: CoreId,
    past: &CorePast,
    step: (CoreStep, Stop),
    counts: &mut CoreStats,
) -> Result<(), AllocError>
    requires core_in { core < cycle.now.config.now.cores }
    requires past { past.now ≡ core_before cycle.now core }
    requires step { step ≡ core_stop_in cycle.now core }
    requires counts { counts.old ≡ core_stats_before cycle.now core }
    ensures { OnOk result (counts.new ≡ core_stats_after cycle.now core) }
{
    let trace = trace_of_core(cycle.traces, core);
    let past_steps = past.past_steps();
    let inbox = past.inbox();
    let arrived = replies_now(cycle.alloc, past_steps.len() as u64, inbox)?;
    let more = core_cycle_stats(trace, past_steps, &arrived, counts, step);
    *counts = counts.joined(more);
    Ok(())
}

/// Adds a cycle to the statistics of each core.
pub fn count_cores(
    cycle: &RunCycle<'_>,
    cores: &[CorePast],
    steps: &[(CoreStep, Stop)],
    counts: &mut Vec<CoreStats>,
) -> Result<(), AllocError>
    requires cores { cores.now ≡ cores_before cycle.now }
    requires steps { steps.now ≡ core_stops_in cycle.now }
    requires counts { counts.old.items ≡ all_core_stats_before cycle.now }
    ensures { OnOk result (counts.new.items ≡ all_core_stats_after cycle.now) }
{
    for core in 0..cycle.config.cores {
        let i = core as usize;
        count_core(cycle, core, &cores[i], steps[i], &mut counts[i])?;
    }
    Ok(())
}

/// Adds a cycle to the statistics of a channel, in which it does this.
#[tactic(auto, using(crate::proofs::Joined::channel_stats_next))]
fn count_channel(
    cycle: &RunCycle<'_>,
    channel: ChannelId,
    past: &ChannelPast,
    step: ChannelStep,
    counts: &mut ChannelStats,
) -> Result<(), AllocError>
    requires channel_in { channel < cycle.now.config.now.channels }
    requires past { past.now ≡ channel_before cycle.now channel }
    requires step { step ≡ channel_step_in cycle.now channel }
    requires counts { counts.old ≡ channel_stats_before cycle.now channel }
    ensures { OnOk result (counts.new ≡ channel_stats_after cycle.now channel) }
{
    let longest = counts.queued_max;
    let queue = scheduling::queue(cycle.alloc, past.pending(), cycle.number + 1)?;
    let more = channel_cycle_stats(cycle.config, past.commands(), cycle.number, &queue, step);
    prove!(longest <= u64::MAX);
    *counts = counts.joined(more);
    Ok(())
}

/// Adds a cycle to the statistics of each channel.
pub fn count_channels(
    cycle: &RunCycle<'_>,
    channels: &[ChannelPast],
    steps: &[ChannelStep],
    counts: &mut Vec<ChannelStats>,
) -> Result<(), AllocError>
    requires channels { channels.now ≡ channels_before cycle.now }
    requires steps { steps.now ≡ channel_steps_in cycle.now }
    requires counts { counts.old.items ≡ all_channel_stats_before cycle.now }
    ensures { OnOk result (counts.new.items ≡ all_channel_stats_after cycle.now) }
{
    for channel in 0..u32::from(cycle.config.channels) {
        let i = channel as usize;
        count_channel(cycle, channel, &channels[i], steps[i], &mut counts[i])?;
    }
    Ok(())
}
