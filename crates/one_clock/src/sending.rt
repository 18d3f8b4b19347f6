//! What is sent in a cycle.

ghost use Rattle.std.specs.Prelude.{◌≡◌, ◌<◌, ◌^◌, length, IfOk};
ghost use Rattle.sim_base.specs.History.{reply, credit, messages_of, messages_at, trace_of};
ghost use Rattle.one_clock.specs.Cycles.{core_before, cores_before, core_step_in, core_stops_in, channel_steps_in};
ghost use Rattle.one_clock.specs.Cycles.{sent_by, sent_by_cores, sent_by_channels, sent_in};

use crate::run_cycle::RunCycle;
use crate::state::CorePast;
use cpu_trace::trace::Trace;
use plain_steps::core_cycle::IssuedEntries;
use plain_steps::cores;
use plain_steps::scheduling::ChannelStep;
use sim_base::command::{Command, Source};
use sim_base::config::Config;
use sim_base::history::CoreStep;
use sim_base::message::{Access, ChannelId, CoreId, Message, Payload};
use sim_base::trace::Stop;
use std::alloc::{AllocError, Global};

/// The trace of a core.
pub fn trace_of_core(traces: &[Trace], core: CoreId) -> &Trace
    requires { core < length traces.now }
    ensures { result.now ≡ trace_of traces.now core }
{
    &traces[core as usize]
}

/// The requests that a core sends in a cycle in which it does this.
#[tactic(auto, unfolding(sim_base::specs::Sends::core_sends), using(crate::proofs::Next::core_step_is, sim_base::proofs::Spans::length_run))]
pub fn requests_of_core(
    cycle: &RunCycle<'_>,
    core: CoreId,
    past: &CorePast,
    step: CoreStep,
) -> Result<Vec<Message>, AllocError>
    requires core_in { core < cycle.now.config.now.cores }
    requires past { past.now ≡ core_before cycle.now core }
    requires step { step ≡ core_step_in cycle.now core }
    ensures { IfOk result (λ v. v.items ≡ sent_by cycle.now core) }
{
    let first = cores::issued_count(past.past_steps());
    let issued = IssuedEntries {
        cycle: cycle.number as usize,
        first,
        count: step.issued,
    };
    let trace = trace_of_core(cycle.traces, core);
    cores::requests_of_entries(cycle.alloc, cycle.config, core, trace, &issued)
}

fn requests_of_cores(
    cycle: &RunCycle<'_>,
    cores: &[CorePast],
    steps: &[(CoreStep, Stop)],
) -> Result<Vec<Message>, AllocError>
    requires cores { cores.now ≡ cores_before cycle.now }
    requires steps { steps.now ≡ core_stops_in cycle.now }
    ensures { IfOk result (λ v. v.items ≡ sent_by_cores cycle.now) }
{
    let mut sent = Vec::new(cycle.alloc);
    for core in 0..cycle.config.cores {
        let i = core as usize;
        let more = requests_of_core(cycle, core, &cores[i], steps[i].0)?;
        sent.extend_from_slice(&more)?;
    }
    Ok(sent)
}

#[tactic(auto, unfolding(sim_base::specs::History::reply))]
fn reply_message(s: &Config, channel: ChannelId, cycle: u64, source: Source) -> Message
    requires { cycle < 2 ^ 41 }
    ensures { result ≡ reply s.now channel cycle source }
{
    let link = s.reply_link(source.core, channel);
    let data = cycle + u64::from(s.timing.n_cl) + 4;
    Message {
        link,
        arrival: data + u64::from(s.latency(link)),
        payload: Payload::Reply(source.entry),
    }
}

#[tactic(auto, unfolding(sim_base::specs::History::credit))]
fn credit_message(
    s: &Config,
    channel: ChannelId,
    cycle: u64,
    access: Access,
    source: Source,
) -> Message
    requires { cycle < 2 ^ 41 }
    ensures { result ≡ credit s.now channel cycle access source }
{
    let link = s.credit_link(source.core, channel);
    Message {
        link,
        arrival: cycle + u64::from(s.latency(link)),
        payload: Payload::Credit {
            access,
            entry: source.entry,
        },
    }
}

#[tactic(auto, unfolding(sim_base::specs::History::messages_of))]
fn messages_of_command(
    alloc: Global,
    s: &Config,
    channel: ChannelId,
    cycle: u64,
    command: Command,
) -> Result<Vec<Message>, AllocError>
    requires { cycle < 2 ^ 41 }
    ensures { IfOk result (λ v. v.items ≡ messages_of s.now channel cycle command) }
{
    let mut sent = Vec::new(alloc);
    match command {
        Command::Rd { source, .. } => {
            sent.push(reply_message(s, channel, cycle, source))?;
            sent.push(credit_message(s, channel, cycle, Access::Read, source))?;
            Ok(sent)
        }
        Command::Wr { source, .. } => {
            sent.push(credit_message(s, channel, cycle, Access::Write, source))?;
            Ok(sent)
        }
        _ => Ok(sent),
    }
}

fn messages_of_choice(
    alloc: Global,
    s: &Config,
    channel: ChannelId,
    cycle: u64,
    command: Option<Command>,
) -> Result<Vec<Message>, AllocError>
    requires { cycle < 2 ^ 41 }
    ensures { IfOk result (λ v. v.items ≡ messages_at s.now channel cycle command) }
{
    match command {
        None => Ok(Vec::new(alloc)),
        Some(command) => messages_of_command(alloc, s, channel, cycle, command),
    }
}

fn messages_of_channels(
    cycle: &RunCycle<'_>,
    steps: &[ChannelStep],
) -> Result<Vec<Message>, AllocError>
    requires steps { steps.now ≡ channel_steps_in cycle.now }
    ensures { IfOk result (λ v. v.items ≡ sent_by_channels cycle.now) }
{
    let mut sent = Vec::new(cycle.alloc);
    for channel in 0..u32::from(cycle.config.channels) {
        let command = steps[channel as usize].command;
        let more = messages_of_choice(cycle.alloc, cycle.config, channel, cycle.number, command)?;
        sent.extend_from_slice(&more)?;
    }
    Ok(sent)
}

/// Everything that is sent in a cycle in which the units do this, by core and then by channel.
#[tactic(auto, unfolding(sim_base::specs::Sends::sends))]
pub fn all_sends(
    cycle: &RunCycle<'_>,
    cores: &[CorePast],
    core_stops: &[(CoreStep, Stop)],
    channel_steps: &[ChannelStep],
) -> Result<Vec<Message>, AllocError>
    requires cores { cores.now ≡ cores_before cycle.now }
    requires core_stops { core_stops.now ≡ core_stops_in cycle.now }
    requires channel_steps { channel_steps.now ≡ channel_steps_in cycle.now }
    ensures { IfOk result (λ v. v.items ≡ sent_in cycle.now) }
{
    let mut sent = requests_of_cores(cycle, cores, core_stops)?;
    let more = messages_of_channels(cycle, channel_steps)?;
    sent.extend_from_slice(&more)?;
    Ok(sent)
}
