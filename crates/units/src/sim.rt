//! All units of a machine between two spans.

ghost use Rattle.std.specs.Prelude.{◌≡◌, ◌<◌, ◌≤◌, ◌+◌, false, length, is_some, [], IfOk, OnOk, IfSome, IfNone};
ghost use Rattle.std.specs.Arc.{arc_value};
ghost use Rattle.sim_base.specs.History.{trace_of};
ghost use Rattle.channel_step.specs.Channels.{StandsFor as ChannelStandsFor};
ghost use Rattle.core_window.specs.CoreViews.{view_of};
ghost use Rattle.core_window.specs.Stands.{StandsFor as CoreStandsFor};
ghost use Rattle.units.specs.Drained.{StillRuns, NotEnded};
ghost use Rattle.units.specs.Kept.{command_table_if, request_table_if};
ghost use Rattle.units.specs.Parts.{StandAt};
ghost use Rattle.units.specs.Stops.{IsWholeUnlessDrained, HasNoMore};
ghost use Rattle.units.specs.Units.{unit_count};
ghost use Rattle.units.specs.Views.{first_view, machine_with, is_over_now, flight_now, stats_now, final_now, outcome_now};

use crate::counts::{stats_of_channels, stats_of_cores};
use crate::drained::{all_finished, cores_until, flight_until};
use crate::ending::{channels_left, cores_left};
use crate::machine::Machine;
use crate::part::UnitState;
use crate::tables::tables_of;
use channel_step::channel::Channel;
use command_table::list::CommandList;
use command_table::table::CommandTable;
use core_window::core_unit::Core;
use cpu_trace::trace::Trace;
use links::flight::Links;
use request_table::table::RequestTable;
use sim_base::config::Config;
use sim_base::message::{ChannelId, CoreId, Cycle};
use statistics::final_state::FinalState;
use statistics::outcome::Outcome;
use statistics::stats::Stats;
use statistics::tables::Tables;
use std::alloc::{AllocError, Global};
use std::marker::Model;
use std::sync::Arc;
use timing::gap_table::GapTable;

/// All units of a machine, and the messages in flight between them, when some cycles of its run are over. Its fields
/// are open to the crates that run it: whoever makes one has to prove that it stands for its run.
#[derive(Drop)]
pub struct Sim {
    pub machine: Arc<Machine>,
    pub now: Cycle,
    pub phase: u64,
    pub parts: Vec<UnitState>,
    pub links: Links,
}

impl Model for Sim {
    ghost use Rattle.std.specs.Arc.{arc_value};
    ghost use Rattle.units.specs.Views.{SimView};

    ghost Value = { SimView };

    ghost use Rattle.sim_base.specs.contracts.config.Config as config;
    ghost use Rattle.std.specs.Coded.{codes};

    ghost coded = { Prim.hlevel (codes, config.the_row.coded) };

    ghost use Rattle.units.specs.Parts.{IsSim};

    ghost view = { λ m. record { machine = arc_value m.machine; now = m.now; phase = m.phase } };

    ghost invariant = { λ m. IsSim (arc_value m.machine) m.now m.phase m.parts.items m.links };
}

/// A core of a machine before the first cycle.
fn first_core(alloc: Global, machine: &Machine, core: CoreId) -> Result<Core, AllocError>
    requires core { core < machine.now.config.cores }
    requires one_each { length machine.now.traces.items ≡ machine.now.config.cores }
    ensures { IfOk result (λ own. CoreStandsFor machine.now.config core
        (trace_of machine.now.traces.items core) [] [] (view_of own)) }
{
    let trace = machine.traces[core as usize].copy()?;
    Core::start(alloc, &machine.config, core, trace)
}

/// Puts the cores of a machine before the first cycle into an empty list.
fn add_cores(alloc: Global, machine: &Machine, parts: &mut Vec<UnitState>) -> Result<(), AllocError>
    requires none { parts.old.items ≡ [] }
    requires one_each { length machine.now.traces.items ≡ machine.now.config.cores }
    ensures count { OnOk result (length parts.new.items ≡ machine.now.config.cores) }
    ensures stand { OnOk result (StandAt machine.now 0 parts.new.items) }
{
    for core in 0..machine.config.cores {
        let first = first_core(alloc, machine, core)?;
        let own = Box::new(alloc, first)?;
        parts.push(UnitState::Core(own))?;
    }
    Ok(())
}

/// For how many commands the list of a channel has room from the start: in 128 KB.
const FIRST_COMMANDS: usize = 8192;

/// A list for the commands of a channel, if they are kept.
fn list_for(alloc: Global, kept: bool) -> Result<Option<CommandList>, AllocError>
    ensures none { IfOk result (λ list. IfSome list (λ rows. rows ≡ [])) }
    ensures kept { IfOk result (λ list. is_some list ≡ kept) }
{
    if kept {
        Ok(Some(CommandList::with_room(alloc, FIRST_COMMANDS)?))
    } else {
        Ok(None)
    }
}

/// The channel with a number, before the first cycle. It may keep the requests that it serves.
fn first_channel(
    alloc: Global,
    config: &Config,
    gaps: &GapTable,
    number: ChannelId,
    keeps_served: bool,
) -> Result<Channel, AllocError>
    requires { gaps.now ≡ config.now.timing }
    ensures { IfOk result (λ channel. ChannelStandsFor channel config.now number [] []) }
{
    let mut channel = Channel::start(alloc, config, gaps, number)?;
    if keeps_served {
        channel.keep_served(alloc);
    }
    Ok(channel)
}

/// Puts the channels of a machine before the first cycle behind its cores. They keep what these tables hold.
fn add_channels(
    alloc: Global,
    machine: &Machine,
    tables: Tables,
    parts: &mut Vec<UnitState>,
) -> Result<(), AllocError>
    requires cores { length parts.old.items ≡ machine.now.config.cores }
    requires stand { StandAt machine.now 0 parts.old.items }
    ensures count { OnOk result (length parts.new.items ≡ unit_count machine.now.config) }
    ensures stand { OnOk result (StandAt machine.now 0 parts.new.items) }
{
    let config = &machine.config;
    let gaps = GapTable::of(config);
    for number in 0..u32::from(config.channels) {
        let first = first_channel(alloc, config, &gaps, number, tables.requests)?;
        let channel = Box::new(alloc, first)?;
        let list = list_for(alloc, tables.commands)?;
        parts.push(UnitState::Channel(channel, list))?;
    }
    Ok(())
}

/// The units of a machine before the first cycle. Its channels keep what these tables hold.
fn first_parts(
    alloc: Global,
    machine: &Machine,
    tables: Tables,
) -> Result<Vec<UnitState>, AllocError>
    requires one_each { length machine.now.traces.items ≡ machine.now.config.cores }
    ensures count { IfOk result (λ parts. length parts.items ≡ unit_count machine.now.config) }
    ensures stand { IfOk result (λ parts. StandAt machine.now 0 parts.items) }
{
    let mut parts = Vec::new(alloc);
    add_cores(alloc, machine, &mut parts)?;
    add_channels(alloc, machine, tables, &mut parts)?;
    Ok(parts)
}

/// A machine with a copy of a configuration.
fn shared_machine(
    alloc: Global,
    config: &Config,
    traces: Vec<Trace>,
) -> Result<Arc<Machine>, AllocError>
    ensures { IfOk result (λ machine. arc_value machine ≡ machine_with config.now traces) }
{
    let config = config.copy(alloc)?;
    Ok(Arc::new(alloc, Machine { config, traces })?)
}

impl Sim {
    /// A machine before its first cycle, with a trace for each core, which keeps what these tables of its run hold.
    /// The only error is out of memory.
    pub fn start(
        alloc: Global,
        config: &Config,
        traces: Vec<Trace>,
        tables: Tables,
    ) -> Result<Sim, AllocError>
        requires one_each { length traces.items ≡ config.now.cores }
        ensures { IfOk result (λ sim. sim ≡ first_view (machine_with config.now traces)) }
    {
        let machine = shared_machine(alloc, config, traces)?;
        let links = Links::start(alloc, config)?;
        let parts = first_parts(alloc, &machine, tables)?;
        Ok(Sim {
            machine,
            now: 0,
            phase: 0,
            parts,
            links,
        })
    }

    /// How many cycles are over.
    pub fn now(&self) -> Cycle
        ensures { result ≡ self.entry.now.now }
    {
        self.now
    }

    /// Whether the run is over: each trace is retired, each message has arrived, and each request is served.
    pub fn is_over(&self) -> bool
        ensures { result ≡ is_over_now self.entry.now }
    {
        self.links.is_empty() && all_finished(&self.machine, &self.parts)
    }

    /// How many messages are in flight. The only error is out of memory.
    pub fn in_flight(&self, alloc: Global) -> Result<usize, AllocError>
        ensures { IfOk result (λ count. count ≡ length (flight_now self.entry.now)) }
    {
        Ok(self.links.messages(alloc)?.len())
    }

    /// A later cycle, at most the limit, before whose last cycle the run is surely not over. A run lasts at least as
    /// long as each core needs to retire what is left of its trace, at its width in each cycle, and, if anything is
    /// in flight, up to the first arrival.
    pub fn surely_until(&self, limit: Cycle) -> Cycle
        requires before { self.now.now < limit }
        requires goes_on { is_over_now self.now ≡ false }
        ensures some { self.entry.now.now < result }
        ensures within { result ≤ limit }
        ensures goes_on { StillRuns self.entry.now.machine self.entry.now.now result }
    {
        let cores = cores_until(&self.machine, self.now, &self.parts);
        let flight = flight_until(&self.links, self.now);
        cores.max(flight).max(self.now + 1).min(limit)
    }

    /// A later cycle, at most the limit, up to which the run can be taken: it surely does not end before the last
    /// cycle up to there. None where the run has no more cycles, at the limit, or where it is over and the
    /// configuration ends it drained.
    pub fn next_stop(&self, limit: Cycle) -> Option<Cycle>
        ensures later { IfSome result (λ stop. self.entry.now.now < stop) }
        ensures within { IfSome result (λ stop. stop ≤ limit) }
        ensures undrained { IfSome result (IsWholeUnlessDrained self.entry.now limit) }
        ensures goes_on { IfSome result (NotEnded self.entry.now.machine self.entry.now.now) }
        ensures ended { IfNone result (HasNoMore self.entry.now limit) }
    {
        if self.now >= limit {
            return None;
        }
        if !self.machine.config.ends_drained {
            return Some(limit);
        }
        if self.is_over() {
            return None;
        }
        Some(self.surely_until(limit))
    }

    /// The statistics of the cycles that are over. The only error is out of memory.
    pub fn stats(&self, alloc: Global) -> Result<Stats, AllocError>
        ensures { IfOk result (λ stats. stats ≡ stats_now self.entry.now) }
    {
        let machine: &Machine = &self.machine;
        let cores = stats_of_cores(alloc, machine, &self.parts)?;
        let channels = stats_of_channels(alloc, machine, &self.parts)?;
        Stats::of_parts(alloc, self.now, &cores, &channels)
    }

    /// The state in which the machine is left: the state of each unit, and the messages in flight.
    fn final_state(&self, alloc: Global) -> Result<FinalState, AllocError>
        ensures { IfOk result (λ last. last ≡ final_now self.entry.now) }
    {
        let machine: &Machine = &self.machine;
        Ok(FinalState {
            cores: cores_left(alloc, machine, self.now, &self.parts)?,
            channels: channels_left(alloc, machine, self.now, &self.parts)?,
            in_flight: self.links.messages(alloc)?,
        })
    }

    /// The statistics of the cycles that are over, and the state in which they left the machine.
    fn stats_and_state(&self, alloc: Global) -> Result<(Stats, FinalState), AllocError>
        ensures stats { IfOk result (λ found. found.0 ≡ stats_now self.entry.now) }
        ensures last { IfOk result (λ found. found.1 ≡ final_now self.entry.now) }
    {
        let stats = self.stats(alloc)?;
        let last = self.final_state(alloc)?;
        Ok((stats, last))
    }

    /// The tables of the cycles that are over, where they are asked for.
    fn into_tables(
        self,
        alloc: Global,
        tables: Tables,
    ) -> Result<(Option<CommandTable>, Option<RequestTable>), AllocError>
        ensures commands { IfOk result (λ made. made.0
            ≡ command_table_if tables.commands self.machine self.now) }
        ensures requests { IfOk result (λ made. made.1
            ≡ request_table_if tables.requests self.machine self.now) }
    {
        let Sim {
            machine,
            now,
            parts,
            ..
        } = self;
        tables_of(alloc, &machine, now, parts, tables)
    }

    /// What the run of the cycles that are over did and left: the commands of all channels by cycle and then by
    /// channel, and the requests that they serve, if their table is asked for, the statistics, and the state before
    /// the cycle where the simulator stands. The only error is out of memory; a table that is asked for here and was
    /// not at the start is refused in the same way.
    pub fn outcome(self, alloc: Global, tables: Tables) -> Result<Outcome, AllocError>
        ensures { IfOk result (λ outcome. outcome ≡ outcome_now tables self) }
    {
        let ranks = self.machine.config.ranks;
        let (stats, last) = self.stats_and_state(alloc)?;
        let (commands, requests) = self.into_tables(alloc, tables)?;
        Ok(Outcome {
            tables,
            commands,
            requests,
            stats,
            last,
            ranks,
        })
    }
}
