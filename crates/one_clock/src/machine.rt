//! The one-clock machine: every core, link and channel, one cycle at a time.

ghost use Rattle.std.specs.Prelude.{◌≡◌, ◌<◌, ◌≤◌, ◌^◌, length, filter, IfOk, OnOk};
ghost use Rattle.plain_steps.specs.Plain.{is_late};
ghost use Rattle.statistics.specs.Outcomes.{if_asked, outcome_within};
ghost use Rattle.command_table.specs.Tables.{IsRising};
ghost use Rattle.one_clock.specs.Cycles.{core_before, core_after, cores_before, cores_after};
ghost use Rattle.one_clock.specs.Cycles.{channel_before, channel_after, channels_before, channels_after};
ghost use Rattle.one_clock.specs.Cycles.{core_step_in, core_stop_in, core_stops_in, channel_step_in, channel_steps_in};
ghost use Rattle.one_clock.specs.Cycles.{sent_in, flight_before, flight_after, commands_before, commands_after};
ghost use Rattle.one_clock.specs.Cycles.{cores_left_before, channels_left_before, requests_before};
ghost use Rattle.one_clock.specs.Ends.{is_core_retired_before, are_cores_retired_before};
ghost use Rattle.one_clock.specs.Ends.{has_channel_served_before, have_channels_served_before};
ghost use Rattle.one_clock.specs.Ends.{is_all_delivered_before, is_over_before, ends_before, cycles_within};
ghost use Rattle.one_clock.specs.Ends.{outcome_before};
ghost use Rattle.one_clock.specs.Held.{HoldsUpTo, HoldsBefore, HoldsAfter, IsCycleOf};

use crate::run_cycle::RunCycle;
use crate::sending::{self, trace_of_core};
use crate::state::{ChannelPast, CorePast, issued_command, push_command};
use crate::{ending, tally};
use command_table::table::CommandTable;
use cpu_trace::trace::Trace;
use plain_steps::channel_cycle::ChannelCycle;
use plain_steps::scheduling::ChannelStep;
use plain_steps::{cores, mail, scheduling};
use request_table::table::RequestTable;
use sim_base::command::IssuedCommand;
use sim_base::config::Config;
use sim_base::history::CoreStep;
use sim_base::message::{ChannelId, CoreId, Message, Unit};
use sim_base::trace::Stop;
use statistics::channels::ChannelStats;
use statistics::cores::CoreStats;
use statistics::final_state::{ChannelState, CoreState, FinalState};
use statistics::outcome::Outcome;
use statistics::stats::Stats;
use statistics::tables::Tables;
use std::alloc::{AllocError, Global};
use timing::gap_table::GapTable;

/// What is kept of the machine's past.
#[derive(Drop)]
pub struct PlainMachine {
    pub cores: Vec<CorePast>,
    pub channels: Vec<ChannelPast>,
    pub core_counts: Vec<CoreStats>,
    pub channel_counts: Vec<ChannelStats>,
    pub commands: Vec<IssuedCommand>,
    pub flight: Vec<Message>,
}

/// What all units do in one cycle: each core, and why it stops, and each channel; and the messages that they send.
#[derive(Clone, Copy)]
struct MachineCycle<'a> {
    core_stops: &'a [(CoreStep, Stop)],
    channel_steps: &'a [ChannelStep],
    sent: &'a [Message],
}

#[tactic(auto, unfolding(crate::specs::Steps::core_step_of, sim_base::specs::History::messages_of_core), using(crate::proofs::Next::length_steps))]
fn next_step_of_core(cycle: &RunCycle<'_>, core: CoreId, past: &CorePast) -> (CoreStep, Stop)
    requires core_in { core < cycle.now.config.now.cores }
    requires past { past.now ≡ core_before cycle.now core }
    ensures { result ≡ core_stop_in cycle.now core }
{
    let trace = trace_of_core(cycle.traces, core);
    cores::core_step(cycle.config, trace, past.past_steps(), &past.mail(core))
}

fn next_steps_of_cores(
    cycle: &RunCycle<'_>,
    cores: &[CorePast],
) -> Result<Vec<(CoreStep, Stop)>, AllocError>
    requires cores { cores.now ≡ cores_before cycle.now }
    ensures { IfOk result (λ v. v.items ≡ core_stops_in cycle.now) }
{
    let mut steps = Vec::new(cycle.alloc);
    for core in 0..cycle.config.cores {
        steps.push(next_step_of_core(cycle, core, &cores[core as usize]))?;
    }
    Ok(steps)
}

#[tactic(auto, using(crate::proofs::Next::step_is))]
fn next_step_of_channel(
    cycle: &RunCycle<'_>,
    gaps: &GapTable,
    channel: ChannelId,
    past: &ChannelPast,
) -> Result<ChannelStep, AllocError>
    requires gaps { gaps.now ≡ cycle.now.config.now.timing }
    requires past { past.now ≡ channel_before cycle.now channel }
    ensures { IfOk result (λ step. step ≡ channel_step_in cycle.now channel) }
{
    let now = ChannelCycle {
        config: cycle.config,
        gaps,
        history: past.commands(),
        number: cycle.number,
    };
    scheduling::channel_step(cycle.alloc, &now, past.pending(), past.is_draining())
}

fn next_steps_of_channels(
    cycle: &RunCycle<'_>,
    gaps: &GapTable,
    channels: &[ChannelPast],
) -> Result<Vec<ChannelStep>, AllocError>
    requires gaps { gaps.now ≡ cycle.now.config.now.timing }
    requires channels { channels.now ≡ channels_before cycle.now }
    ensures { IfOk result (λ v. v.items ≡ channel_steps_in cycle.now) }
{
    let mut steps = Vec::new(cycle.alloc);
    for channel in 0..u32::from(cycle.config.channels) {
        let past = &channels[channel as usize];
        steps.push(next_step_of_channel(cycle, gaps, channel, past)?)?;
    }
    Ok(steps)
}

/// Takes in what a core does in a cycle, and what is sent to it.
#[tactic(auto, using(crate::proofs::Next::core_view_next))]
fn note_core(
    cycle: &RunCycle<'_>,
    core: CoreId,
    step: CoreStep,
    sent: &[Message],
    past: &mut CorePast,
) -> Result<(), AllocError>
    requires core_in { core < cycle.now.config.now.cores }
    requires step { step ≡ core_step_in cycle.now core }
    requires sent { sent.now ≡ sent_in cycle.now }
    requires past { past.old ≡ core_before cycle.now core }
    ensures { OnOk result (past.new ≡ core_after cycle.now core) }
{
    let requests = sending::requests_of_core(cycle, core, past, step)?;
    let arrivals = mail::messages_to(cycle.alloc, cycle.config, Unit::Core(core), sent)?;
    past.note(step, &requests, &arrivals)
}

fn note_cores(
    cycle: &RunCycle<'_>,
    steps: &[(CoreStep, Stop)],
    sent: &[Message],
    cores: &mut Vec<CorePast>,
) -> Result<(), AllocError>
    requires steps { steps.now ≡ core_stops_in cycle.now }
    requires sent { sent.now ≡ sent_in cycle.now }
    requires cores { cores.old.items ≡ cores_before cycle.now }
    ensures { OnOk result (cores.new.items ≡ cores_after cycle.now) }
{
    for core in 0..cycle.config.cores {
        let i = core as usize;
        note_core(cycle, core, steps[i].0, sent, &mut cores[i])?;
    }
    Ok(())
}

/// Takes in what a channel does in a cycle, and what is sent to it.
#[tactic(auto, using(crate::proofs::Next::channel_view_next))]
fn note_channel(
    cycle: &RunCycle<'_>,
    channel: ChannelId,
    step: ChannelStep,
    sent: &[Message],
    past: &mut ChannelPast,
) -> Result<(), AllocError>
    requires channel_in { channel < cycle.now.config.now.channels }
    requires step { step ≡ channel_step_in cycle.now channel }
    requires sent { sent.now ≡ sent_in cycle.now }
    requires past { past.old ≡ channel_before cycle.now channel }
    ensures { OnOk result (past.new ≡ channel_after cycle.now channel) }
{
    let arrivals = mail::messages_to(cycle.alloc, cycle.config, Unit::Channel(channel), sent)?;
    past.note(cycle, channel, step, &arrivals)
}

fn note_channels(
    cycle: &RunCycle<'_>,
    steps: &[ChannelStep],
    sent: &[Message],
    channels: &mut Vec<ChannelPast>,
) -> Result<(), AllocError>
    requires steps { steps.now ≡ channel_steps_in cycle.now }
    requires sent { sent.now ≡ sent_in cycle.now }
    requires channels { channels.old.items ≡ channels_before cycle.now }
    ensures { OnOk result (channels.new.items ≡ channels_after cycle.now) }
{
    for channel in 0..u32::from(cycle.config.channels) {
        let i = channel as usize;
        note_channel(cycle, channel, steps[i], sent, &mut channels[i])?;
    }
    Ok(())
}

fn late_messages(alloc: Global, messages: &[Message], now: u64) -> Result<Vec<Message>, AllocError>
    ensures { IfOk result (λ v. v.items ≡ filter (is_late now) messages.now) }
{
    messages
        .iter()
        .copied()
        .filter(move |m| !(m.arrival < now))
        .collect(alloc)
}

/// The messages in flight, one cycle later.
#[tactic(auto, using(crate::proofs::Next::flight_next))]
fn note_flight(
    cycle: &RunCycle<'_>,
    sent: &[Message],
    flight: &mut Vec<Message>,
) -> Result<(), AllocError>
    requires sent { sent.now ≡ sent_in cycle.now }
    requires flight { flight.old.items ≡ flight_before cycle.now }
    ensures { OnOk result (flight.new.items ≡ flight_after cycle.now) }
{
    let mut left = late_messages(cycle.alloc, flight, cycle.number + 1)?;
    let more = late_messages(cycle.alloc, sent, cycle.number + 1)?;
    mail::insert_all(&mut left, &more)?;
    *flight = left;
    Ok(())
}

/// The commands of all channels, one cycle later.
fn note_commands(
    cycle: &RunCycle<'_>,
    steps: &[ChannelStep],
    issued: &mut Vec<IssuedCommand>,
) -> Result<(), AllocError>
    requires steps { steps.now ≡ channel_steps_in cycle.now }
    requires issued { issued.old.items ≡ commands_before cycle.now }
    ensures { OnOk result (issued.new.items ≡ commands_after cycle.now) }
{
    for channel in 0..u32::from(cycle.config.channels) {
        let step = steps[channel as usize];
        push_command(issued, issued_command(channel, cycle.number, step.command))?;
    }
    Ok(())
}

#[tactic(auto, unfolding(sim_base::specs::Machine::is_retired), using(crate::proofs::Next::length_steps))]
fn is_core_retired(cycle: &RunCycle<'_>, core: CoreId, past: &CorePast) -> bool
    requires core_in { core < cycle.now.config.now.cores }
    requires past { past.now ≡ core_before cycle.now core }
    ensures { result ≡ is_core_retired_before cycle.now core }
{
    cores::retired_count(past.past_steps()) == trace_of_core(cycle.traces, core).len()
}

fn are_cores_retired(cycle: &RunCycle<'_>, cores: &[CorePast]) -> bool
    requires cores { cores.now ≡ cores_before cycle.now }
    ensures { result ≡ are_cores_retired_before cycle.now }
{
    let mut all = true;
    for core in 0..cycle.config.cores {
        let retired = is_core_retired(cycle, core, &cores[core as usize]);
        all = all && retired;
    }
    all
}

#[tactic(auto, unfolding(sim_base::specs::Machine::has_served), using(crate::proofs::Next::waiting_is, sim_base::proofs::Spans::length_run))]
fn has_channel_served(
    cycle: &RunCycle<'_>,
    channel: ChannelId,
    past: &ChannelPast,
) -> Result<bool, AllocError>
    requires past { past.now ≡ channel_before cycle.now channel }
    ensures { IfOk result (λ served. served ≡ has_channel_served_before cycle.now channel) }
{
    let queued_requests = scheduling::queue(cycle.alloc, past.pending(), cycle.number)?;
    Ok(queued_requests.len() == 0)
}

fn have_channels_served(cycle: &RunCycle<'_>, channels: &[ChannelPast]) -> Result<bool, AllocError>
    requires channels { channels.now ≡ channels_before cycle.now }
    ensures { IfOk result (λ served. served ≡ have_channels_served_before cycle.now) }
{
    let mut all = true;
    for channel in 0..u32::from(cycle.config.channels) {
        let served = has_channel_served(cycle, channel, &channels[channel as usize])?;
        all = all && served;
    }
    Ok(all)
}

#[tactic(auto, using(crate::proofs::Next::delivered_is))]
fn is_all_delivered(cycle: &RunCycle<'_>, flight: &[Message]) -> bool
    requires { flight.now ≡ flight_before cycle.now }
    ensures { result ≡ is_all_delivered_before cycle.now }
{
    flight.len() == 0
}

/// Whether each trace is retired, each message has arrived, and each request is served.
#[tactic(auto, unfolding(sim_base::specs::Machine::is_over))]
fn is_run_over(cycle: &RunCycle<'_>, machine: &PlainMachine) -> Result<bool, AllocError>
    requires machine { HoldsBefore cycle.now machine.now }
    ensures { IfOk result (λ over. over ≡ is_over_before cycle.now) }
{
    let retired = are_cores_retired(cycle, &machine.cores);
    let delivered = is_all_delivered(cycle, &machine.flight);
    let served = have_channels_served(cycle, &machine.channels)?;
    Ok(retired && delivered && served)
}

/// Whether the run ends before this cycle.
fn ends_here(cycle: &RunCycle<'_>, machine: &PlainMachine) -> Result<bool, AllocError>
    requires machine { HoldsBefore cycle.now machine.now }
    ensures { IfOk result (λ ends. ends ≡ ends_before cycle.now) }
{
    if cycle.config.ends_drained {
        is_run_over(cycle, machine)
    } else {
        Ok(false)
    }
}

fn start_cores(cycle: &RunCycle<'_>) -> Result<Vec<CorePast>, AllocError>
    requires { cycle.now.number ≡ 0 }
    ensures { IfOk result (λ v. v.items ≡ cores_before cycle.now) }
{
    let mut cores = Vec::new(cycle.alloc);
    for core in 0..cycle.config.cores {
        cores.push(CorePast::new(cycle.alloc))?;
    }
    Ok(cores)
}

fn start_channels(cycle: &RunCycle<'_>) -> Result<Vec<ChannelPast>, AllocError>
    requires { cycle.now.number ≡ 0 }
    ensures { IfOk result (λ v. v.items ≡ channels_before cycle.now) }
{
    let mut channels = Vec::new(cycle.alloc);
    for channel in 0..u32::from(cycle.config.channels) {
        channels.push(ChannelPast::new(cycle.alloc))?;
    }
    Ok(channels)
}

/// What is left of each core and of each channel, if the run ends before this cycle.
fn units_left(
    cycle: &RunCycle<'_>,
    machine: &PlainMachine,
) -> Result<(Vec<CoreState>, Vec<ChannelState>), AllocError>
    requires machine { HoldsBefore cycle.now machine.now }
    ensures cores { IfOk result (λ left. left.0.items ≡ cores_left_before cycle.now) }
    ensures channels { IfOk result (λ left. left.1.items ≡ channels_left_before cycle.now) }
{
    let cores = ending::cores_left(cycle, &machine.cores)?;
    let channels = ending::channels_left(cycle, &machine.channels)?;
    Ok((cores, channels))
}

impl PlainMachine {
    /// The machine before its first cycle.
    #[tactic(auto, using(crate::proofs::Next::commands_none, crate::proofs::Next::flight_none))]
    fn start(cycle: &RunCycle<'_>) -> Result<PlainMachine, AllocError>
        requires { cycle.now.number ≡ 0 }
        ensures { IfOk result (HoldsBefore cycle.now) }
    {
        Ok(PlainMachine {
            cores: start_cores(cycle)?,
            channels: start_channels(cycle)?,
            core_counts: tally::no_core_counts(cycle)?,
            channel_counts: tally::no_channel_counts(cycle)?,
            commands: Vec::new(cycle.alloc),
            flight: Vec::new(cycle.alloc),
        })
    }

    /// Takes in what all units do and send in a cycle.
    fn note(&mut self, cycle: &RunCycle<'_>, all: &MachineCycle<'_>) -> Result<(), AllocError>
        requires all { IsCycleOf cycle.now all.now }
        requires machine { HoldsBefore cycle.now self.old }
        ensures { OnOk result (HoldsAfter cycle.now self.new) }
    {
        let MachineCycle {
            core_stops,
            channel_steps,
            sent,
        } = *all;
        tally::count_cores(cycle, &self.cores, core_stops, &mut self.core_counts)?;
        tally::count_channels(
            cycle,
            &self.channels,
            channel_steps,
            &mut self.channel_counts,
        )?;
        note_cores(cycle, core_stops, sent, &mut self.cores)?;
        note_channels(cycle, channel_steps, sent, &mut self.channels)?;
        note_commands(cycle, channel_steps, &mut self.commands)?;
        note_flight(cycle, sent, &mut self.flight)
    }

    /// Runs a cycle.
    fn advance(&mut self, cycle: &RunCycle<'_>, gaps: &GapTable) -> Result<(), AllocError>
        requires gaps { gaps.now ≡ cycle.now.config.now.timing }
        requires machine { HoldsBefore cycle.now self.old }
        ensures { OnOk result (HoldsAfter cycle.now self.new) }
    {
        let core_stops = next_steps_of_cores(cycle, &self.cores)?;
        let channel_steps = next_steps_of_channels(cycle, gaps, &self.channels)?;
        let sent = sending::all_sends(cycle, &self.cores, &core_stops, &channel_steps)?;
        let all = MachineCycle {
            core_stops: &core_stops,
            channel_steps: &channel_steps,
            sent: &sent,
        };
        self.note(cycle, &all)
    }

    /// What the run leaves if it ends before this cycle, where these tables are asked for.
    #[tactic(auto, unfolding(statistics::specs::Outcomes::outcome_of, statistics::specs::Outcomes::outcome_after, statistics::specs::Runs::stats_of, statistics::specs::Runs::final_of), using(sim_base::proofs::Spans::length_run))]
    fn outcome(self, cycle: &RunCycle<'_>, tables: Tables) -> Result<Outcome, AllocError>
        requires machine { HoldsBefore cycle.now self }
        ensures { IfOk result (λ outcome. outcome ≡ outcome_before tables cycle.now) }
    {
        let (commands, requests) = tables_asked(cycle, &self, tables)?;
        let (cores, channels) = units_left(cycle, &self)?;
        let last = FinalState {
            cores,
            channels,
            in_flight: self.flight,
        };
        let stats = Stats {
            cycles: cycle.number,
            cores: self.core_counts,
            channels: self.channel_counts,
        };
        Ok(Outcome {
            tables,
            commands,
            requests,
            stats,
            last,
            ranks: cycle.config.ranks,
        })
    }
}

/// A table of these commands, if it is asked for.
fn table_if_asked(
    alloc: Global,
    rows: &[IssuedCommand],
    asked: bool,
) -> Result<Option<CommandTable>, AllocError>
    requires { IsRising rows.now }
    ensures { IfOk result (λ table. table ≡ if_asked asked rows.now) }
{
    if asked {
        Ok(Some(CommandTable::of_rows(alloc, rows)?))
    } else {
        Ok(None)
    }
}

/// The tables that are asked for, of the commands and of the requests, if the run ends before this cycle.
fn tables_asked(
    cycle: &RunCycle<'_>,
    machine: &PlainMachine,
    tables: Tables,
) -> Result<(Option<CommandTable>, Option<RequestTable>), AllocError>
    requires machine { HoldsBefore cycle.now machine.now }
    ensures issued { IfOk result (λ t. t.0 ≡ if_asked tables.commands (commands_before cycle.now)) }
    ensures served { IfOk result (λ t. t.1 ≡ if_asked tables.requests (requests_before cycle.now)) }
{
    let requests = machine.requests_if_asked(cycle, tables.requests)?;
    let commands = table_if_asked(cycle.alloc, &machine.commands, tables.commands)?;
    Ok((commands, requests))
}

/// Runs the machine up to the cycle before which the run ends, the limit at the latest, and gives its number.
fn run_cycles(
    first: &RunCycle<'_>,
    cycles: u64,
    machine: &mut PlainMachine,
) -> Result<u64, AllocError>
    requires first { first.now.number ≡ 0 }
    requires limit { cycles ≤ 10 ^ 12 }
    requires machine { HoldsBefore first.now machine.old }
    ensures number { IfOk result (λ n. n ≡ cycles_within first.now cycles) }
    ensures small { IfOk result (λ n. n ≤ cycles) }
    ensures machine { IfOk result (λ n. HoldsUpTo first.now n machine.new) }
{
    let gaps = GapTable::of(first.config);
    for number in 0..cycles {
        let cycle = RunCycle {
            alloc: first.alloc,
            config: first.config,
            traces: first.traces,
            number,
        };
        if ends_here(&cycle, machine)? {
            return Ok(number);
        }
        machine.advance(&cycle, &gaps)?;
    }
    Ok(cycles)
}

/// Runs the one-clock machine, cycle by cycle, and gives the commands that all channels issue, by cycle and then by
/// channel, if their table is asked for, the statistics of the run and the state in which it ends. The run has as
/// many cycles as the limit, or, where the configuration ends it drained, as many as it takes until all is retired,
/// served and delivered. There is one trace for each core, and the limit is at most 10^12 cycles. The only error is
/// out of memory.
pub fn run_plain(
    alloc: Global,
    s: &Config,
    traces: &[Trace],
    tables: Tables,
    cycles: u64,
) -> Result<Outcome, AllocError>
    requires one_trace_a_core { length traces.now ≡ s.now.cores }
    requires limit { cycles ≤ 10 ^ 12 }
    ensures outcome { IfOk result (λ o. o ≡ outcome_within tables s.now traces.now cycles) }
{
    let first = RunCycle {
        alloc,
        config: s,
        traces,
        number: 0,
    };
    let mut machine = PlainMachine::start(&first)?;
    let number = run_cycles(&first, cycles, &mut machine)?;
    let end = RunCycle {
        alloc,
        config: s,
        traces,
        number,
    };
    machine.outcome(&end, tables)
}
