//! A whole machine, run by workers.

ghost use Rattle.std.specs.Prelude.{◌≡◌, ◌<◌, ◌≤◌, ◌^◌, length, IfOk, IfErr, IfSome};
ghost use Rattle.shards.specs.Phases.{ended, jobs_of};
ghost use Rattle.units.specs.Drained.{NotEnded};
ghost use Rattle.units.specs.Stops.{stop_of};
ghost use Rattle.units.specs.Views.{HasReached, first_view, machine_with};
ghost use Rattle.simulation.specs.MachineRuns.{IsRefusedTo, outcome_of_machine, outcome_with};
ghost use Rattle.simulation.specs.Stages.{IsExtentOf};

use crate::gate::{AtGate, Gate};
use crate::options::{Hooks, MachineInput, RunOptions};
use crate::runner::{ByCrew, Runner};
use crate::sharing::{Sharing, Workers};
use crate::watch::{RunExtent, Watch, WatchState, entries_of, interval_end};
use crew::caller::TaskRunner;
use crew::run::{CrewFault, CrewOptions, PhasedRun, with_crew};
use crew::signal::WaitLimits;
use in_place::timed_sim::run_alone;
use shards::job::{Done, Job};
use shards::merging::{Phase, merge};
use shards::planning::{Planned, plan};
use shards::sharded::ShardedSim;
use sim_base::config::Config;
use sim_base::fault::{Fault, MergeFault};
use sim_base::message::Cycle;
use statistics::outcome::Outcome;
use std::alloc::{AllocError, Global};
use std::sync::Wait;
use std::thread::Threads;
use units::sim::Sim;

/// How long a worker looks for the next phase before it sleeps: for a tenth of a millisecond, which is longer than
/// most phases, and then with its processor left to others between two looks.
const WAIT_LIMITS: WaitLimits = WaitLimits {
    spins: 2_000,
    yields: 10_000,
    order_spins: 200,
};

/// How many shards there are at most: what is sent goes through a list for each pair of them.
const MOST_SHARDS: usize = 64;

/// Into how many shards a machine is split, and when.
#[derive(Clone, Copy)]
struct ShardPlan {
    shards: usize,
    sharing: Sharing,
    ghost some: { 0 < shards },
}

/// A machine in shards at the end of a phase, whose jobs the runner runs.
fn run_phase<N: Runner>(
    phase: Phase,
    alloc: Global,
    jobs: Vec<Job>,
    runner: &mut N,
) -> Result<ShardedSim, Fault>
    requires jobs { jobs.items ≡ jobs_of phase }
    ensures ok { IfOk result (λ sim. sim ≡ ended phase) }
    ensures refused { IfErr result (λ fault. fault ≡ Fault.Memory) }
{
    let results = runner.run_phase(jobs)?;
    match merge(phase, alloc, results) {
        Ok(sim) => Ok(sim),
        Err(MergeFault::Memory) => Err(Fault::Memory),
        Err(cause) => Err(Fault::Merge(cause)),
    }
}

/// A simulator at a stop, in this many shards, whose jobs the runner runs phase by phase.
fn run_phases<N: Runner>(
    sim: Sim,
    alloc: Global,
    stop: Cycle,
    shards: usize,
    runner: &mut N,
) -> Result<Sim, Fault>
    requires some { 0 < shards }
    requires not_past { sim.now ≤ stop }
    requires early { stop ≤ 10 ^ 12 }
    ensures ok { IfOk result (HasReached sim stop) }
    ensures refused { IfErr result (λ fault. fault ≡ Fault.Memory) }
{
    let mut sharded = ShardedSim::split(sim, alloc, shards)?;
    loop {
        match plan(sharded, alloc, stop)? {
            Planned::AtLimit(sim) => return Ok(sim),
            Planned::Phase(phase, jobs) => sharded = run_phase(phase, alloc, jobs, runner)?,
        }
    }
}

/// Runs a simulator, split into `shards` shards, up to a limit of at most 10^12 cycles, or, where the configuration
/// ends it drained, up to the first cycle before which all is done. The runner runs the jobs of each phase, one for
/// each shard; which one it is does not show. Only memory can be refused (fault 10); the simulator is then gone.
pub fn run_with<N: Runner>(
    sim: Sim,
    alloc: Global,
    limit: Cycle,
    shards: usize,
    runner: &mut N,
) -> Result<Sim, Fault>
    requires some { 0 < shards }
    requires not_past { sim.now ≤ limit }
    requires early { limit ≤ 10 ^ 12 }
    ensures ok { IfOk result (HasReached sim (stop_of sim limit)) }
    ensures refused { IfErr result (λ fault. fault ≡ Fault.Memory) }
{
    let mut sim = sim;
    while let Some(stop) = sim.next_stop(limit) {
        sim = run_phases(sim, alloc, stop, shards, runner)?;
    }
    Ok(sim)
}

/// Who runs a lap.
#[derive(Clone, Copy)]
enum LapBy {
    /// The caller alone, in place.
    Caller,
    /// All workers, phase by phase.
    Workers,
}

/// Who runs the next lap of a simulator: the workers, where enough messages are in flight now. The only error is out of
/// memory.
fn lap_by(sim: &Sim, alloc: Global, sharing: Sharing) -> Result<LapBy, AllocError> {
    let messages = sharing.messages;
    if messages == 0 || sim.in_flight(alloc)? >= messages {
        Ok(LapBy::Workers)
    } else {
        Ok(LapBy::Caller)
    }
}

/// How many cycles the next lap has, where the caller runs it alone, and where the workers do.
#[derive(Clone, Copy)]
struct LapLengths {
    alone: Cycle,
    shared: Cycle,
}

impl LapLengths {
    /// The lengths of the first lap of a run.
    fn first(sharing: Sharing) -> LapLengths {
        let first = sharing.first_lap.max(1);
        LapLengths {
            alone: first,
            shared: first,
        }
    }

    fn of(self, by: LapBy) -> Cycle {
        match by {
            LapBy::Caller => self.alone,
            LapBy::Workers => self.shared,
        }
    }

    /// The lengths of the next lap, given who ran the last one. Where less is in flight for a while, as in a refresh,
    /// the caller soon looks again whether the workers are to go on.
    fn after(self, by: LapBy, sharing: Sharing) -> LapLengths {
        match by {
            LapBy::Caller => LapLengths {
                alone: self.alone.saturating_mul(2),
                ..self
            },
            LapBy::Workers => LapLengths {
                alone: sharing.first_lap.max(1),
                shared: self.shared.saturating_mul(2),
            },
        }
    }
}

/// A simulator at a limit before which the run does not end, in shards, or run by the caller in place.
fn run_lap<N: Runner + Drop>(
    sim: Sim,
    alloc: Global,
    limit: Cycle,
    by: LapBy,
    in_shards: &mut InShards<N>,
) -> Result<Sim, Fault>
    requires not_past { sim.now ≤ limit }
    requires early { limit ≤ 10 ^ 12 }
    requires goes_on { NotEnded sim.machine sim.now limit }
    ensures ok { IfOk result (HasReached sim limit) }
    ensures refused { IfErr result (λ fault. fault ≡ Fault.Memory) }
{
    match by {
        LapBy::Caller => Ok(run_alone(sim, alloc, limit)?),
        LapBy::Workers => {
            let InShards { split, runner } = in_shards;
            run_with(sim, alloc, limit, split.shards, runner)
        }
    }
}

/// A simulator at a limit before which the run does not end, lap by lap.
fn run_laps<N: Runner + Drop>(
    sim: Sim,
    alloc: Global,
    limit: Cycle,
    in_shards: &mut InShards<N>,
) -> Result<Sim, Fault>
    requires not_past { sim.now ≤ limit }
    requires early { limit ≤ 10 ^ 12 }
    requires goes_on { NotEnded sim.machine sim.now limit }
    ensures ok { IfOk result (HasReached sim limit) }
    ensures refused { IfErr result (λ fault. fault ≡ Fault.Memory) }
{
    let sharing = in_shards.split.sharing;
    let mut sim = sim;
    let mut lengths = LapLengths::first(sharing);
    while sim.now() < limit {
        let by = lap_by(&sim, alloc, sharing)?;
        let length = lengths.of(by).max(1);
        let stop = limit.min(sim.now().saturating_add(length));
        sim = run_lap(sim, alloc, stop, by, in_shards)?;
        lengths = lengths.after(by, sharing);
    }
    Ok(sim)
}

/// How the intervals of a run are run.
trait Mode {
    ghost use Rattle.std.specs.Prelude.{◌≡◌, ◌≤◌, ◌^◌, IfOk, IfErr};
    ghost use Rattle.units.specs.Drained.{NotEnded};
    ghost use Rattle.units.specs.Views.{HasReached};

    /// A simulator at a limit before which the run does not end.
    fn run_to(&mut self, sim: Sim, alloc: Global, limit: Cycle) -> Result<Sim, Fault>
        requires not_past { sim.now ≤ limit }
        requires early { limit ≤ 10 ^ 12 }
        requires goes_on { NotEnded sim.machine sim.now limit }
        ensures ok { IfOk result (HasReached sim limit) }
        ensures refused { IfErr result (λ fault. fault ≡ Fault.Memory) };
}

/// The caller runs the interval, in place.
#[derive(Drop)]
struct InPlace;

impl Mode for InPlace {
    fn run_to(&mut self, sim: Sim, alloc: Global, limit: Cycle) -> Result<Sim, Fault> {
        Ok(run_alone(sim, alloc, limit)?)
    }
}

/// The interval is run in shards where enough messages are in flight, and elsewhere by the caller in place.
#[derive(Drop)]
struct InShards<N: Runner + Drop> {
    split: ShardPlan,
    runner: N,
}

impl<N: Runner + Drop> Mode for InShards<N> {
    fn run_to(&mut self, sim: Sim, alloc: Global, limit: Cycle) -> Result<Sim, Fault> {
        run_laps(sim, alloc, limit, self)
    }
}

/// Where a run stands: its machine at a cycle before which the run does not end, and what it keeps for its watcher.
#[derive(Drop)]
struct RunState {
    sim: Sim,
    state: WatchState,
    ghost goes_on: { NotEnded sim.machine 0 sim.now },
    ghost extent: { IsExtentOf sim.machine state.extent },
}

/// A run before its first cycle. Only memory can be refused.
fn begin(alloc: Global, machine: MachineInput<'_>, options: RunOptions) -> Result<RunState, Fault>
    requires one_trace_a_core { length machine.traces.items ≡ machine.config.now.cores }
    ensures first { IfOk result (λ run.
        run.sim ≡ first_view (machine_with machine.entry.config.now machine.entry.traces)) }
    ensures refused { IfErr result (λ fault. fault ≡ Fault.Memory) }
{
    let MachineInput { config, traces } = machine;
    let state = WatchState {
        extent: RunExtent {
            limit: options.cycles,
            ends_drained: config.ends_drained,
            entries: entries_of(&traces),
        },
        look: 0,
    };
    let sim = Sim::start(alloc, config, traces, options.tables)?;
    Ok(RunState { sim, state })
}

/// A run from where it stands to its end, in the intervals that the watcher wants. Only memory can be refused.
fn finish<W: Watch, M: Mode>(
    alloc: Global,
    watch: &mut W,
    options: RunOptions,
    run: RunState,
    mode: &mut M,
) -> Result<Outcome, Fault>
    requires not_past { run.sim.now ≤ options.cycles }
    requires limit { options.cycles ≤ 10 ^ 12 }
    ensures outcome { IfOk result (λ o. o ≡ outcome_of_machine options run.sim.machine) }
    ensures refused { IfErr result (λ fault. fault ≡ Fault.Memory) }
{
    let RunState { sim, state } = run;
    let mut sim = sim;
    let mut state = state;
    while let Some(stop) = sim.next_stop(options.cycles) {
        let until = interval_end(&sim, alloc, stop, watch, &mut state);
        sim = mode.run_to(sim, alloc, until)?;
    }
    let outcome = sim.outcome(alloc, options.tables)?;
    Ok(outcome)
}

/// A later cycle up to which the caller can run a machine alone. None where it is to be shared out now, since enough
/// messages are in flight, and where the run has no more cycles. Only memory can be refused.
fn unshared_stop(sim: &Sim, alloc: Global, options: RunOptions) -> Result<Option<Cycle>, AllocError>
    ensures later { IfOk result (λ stop. IfSome stop (λ end. sim.entry.now.now < end)) }
    ensures within { IfOk result (λ stop. IfSome stop (λ end. end ≤ options.cycles)) }
    ensures goes_on { IfOk result (λ stop.
        IfSome stop (NotEnded sim.entry.now.machine sim.entry.now.now)) }
{
    match lap_by(sim, alloc, options.workers.sharing)? {
        LapBy::Caller => Ok(sim.next_stop(options.cycles)),
        LapBy::Workers => Ok(None),
    }
}

/// A run where it is first to be shared out, or else at its end: up to there the caller runs it alone, lap by lap, so
/// that no thread is started for a run that is never shared out. Only memory can be refused.
fn run_unshared<W: Watch>(
    alloc: Global,
    watch: &mut W,
    options: RunOptions,
    run: RunState,
) -> Result<RunState, Fault>
    requires not_past { run.sim.now ≤ options.cycles }
    requires limit { options.cycles ≤ 10 ^ 12 }
    ensures same { IfOk result (λ after. after.sim.machine ≡ run.sim.machine) }
    ensures not_past { IfOk result (λ after. after.sim.now ≤ options.cycles) }
    ensures refused { IfErr result (λ fault. fault ≡ Fault.Memory) }
{
    let RunState { sim, state } = run;
    let mut sim = sim;
    let mut state = state;
    let mut lap = options.workers.sharing.first_lap.max(1);
    while let Some(stop) = unshared_stop(&sim, alloc, options)? {
        let end = stop.min(sim.now().saturating_add(lap.max(1)));
        let until = interval_end(&sim, alloc, end, watch, &mut state);
        sim = run_alone(sim, alloc, until)?;
        lap = lap.saturating_mul(2);
    }
    Ok(RunState { sim, state })
}

/// A run that a crew takes from where it stands to its end.
#[derive(Drop)]
struct CrewRun<'a, W: Watch> {
    watch: &'a mut W,
    options: RunOptions,
    split: ShardPlan,
    run: RunState,
    ghost not_past: { run.sim.now ≤ options.cycles },
    ghost limit: { options.cycles ≤ 10 ^ 12 },
}

impl<'a, W: Watch> PhasedRun<Job, Done, Outcome> for CrewRun<'a, W> {
    ghost use Rattle.std.specs.Prelude.{◌≡◌};
    ghost use Rattle.simulation.specs.MachineRuns.{outcome_of_machine};

    ghost gives = { λ r o. o ≡ outcome_of_machine r.options r.run.sim.machine };

    fn run<P: TaskRunner<Job, Done>>(
        self,
        alloc: Global,
        crew: &mut P,
    ) -> Result<Outcome, AllocError> {
        let CrewRun {
            watch,
            options,
            split,
            run,
        } = self;
        let mut mode = InShards {
            split,
            runner: ByCrew { crew },
        };
        match finish(alloc, watch, options, run, &mut mode) {
            Ok(outcome) => Ok(outcome),
            Err(_) => Err(AllocError),
        }
    }
}

/// How many units a machine has, cores and channels.
fn units_of(config: &Config) -> usize
    ensures { 0 < result }
{
    usize::from(config.cores) + usize::from(config.channels)
}

/// Into how many shards a machine is split for this number of workers.
fn shards_for(workers: usize, sharing: Sharing, config: &Config) -> usize
    requires { 0 < workers }
    ensures { 0 < result }
{
    workers
        .saturating_mul(sharing.shards.max(1))
        .min(MOST_SHARDS)
        .min(units_of(config))
}

/// A run from where it stands to its end, by several workers, which share it out.
fn run_together<R: Threads + Wait + Sync, G: Gate + Sync, W: Watch>(
    rt: &R,
    alloc: Global,
    hooks: Hooks<'_, G, W>,
    options: RunOptions,
    run: RunState,
) -> Result<Outcome, Fault>
    requires some { 1 ≤ options.workers.count }
    requires few { options.workers.count ≤ 64 }
    requires not_past { run.sim.now ≤ options.cycles }
    requires limit { options.cycles ≤ 10 ^ 12 }
    ensures outcome { IfOk result (λ o. o ≡ outcome_of_machine options run.sim.machine) }
    ensures refused { IfErr result (IsRefusedTo options.workers.count) }
{
    let Workers { count, sharing } = options.workers;
    let count = count as usize;
    let shards = shards_for(count, sharing, &run.sim.machine.config);
    let Hooks { gate, watch } = hooks;
    let crew_run = CrewRun {
        watch,
        options,
        split: ShardPlan { shards, sharing },
        run,
    };
    let work = AtGate { gate };
    let crew_options = CrewOptions {
        room: shards,
        workers: count.min(shards),
        limits: WAIT_LIMITS,
    };
    match with_crew(rt, alloc, &work, crew_options, crew_run) {
        Ok(outcome) => Ok(outcome),
        Err(CrewFault::Memory) => Err(Fault::Memory),
        Err(CrewFault::Start) => Err(Fault::WorkerStart),
    }
}

/// Runs a machine as `run_machine` does, but does not tell the watcher of the end.
fn run_watched<R: Threads + Wait + Sync, G: Gate + Sync, W: Watch>(
    rt: &R,
    alloc: Global,
    hooks: Hooks<'_, G, W>,
    machine: MachineInput<'_>,
    options: RunOptions,
) -> Result<Outcome, Fault>
    requires one_trace_a_core { length machine.traces.items ≡ machine.config.now.cores }
    requires some { 1 ≤ options.workers.count }
    requires few { options.workers.count ≤ 64 }
    requires limit { options.cycles ≤ 10 ^ 12 }
    ensures outcome { IfOk result (λ o. o ≡ outcome_with options machine.entry) }
    ensures refused { IfErr result (IsRefusedTo options.workers.count) }
{
    let Workers { count, sharing } = options.workers;
    let may_share = count > 1 && units_of(machine.config) >= sharing.units;
    let run = begin(alloc, machine, options)?;
    if !may_share {
        return finish(alloc, hooks.watch, options, run, &mut InPlace);
    }
    let Hooks { gate, watch } = hooks;
    let run = run_unshared(alloc, &mut *watch, options, run)?;
    if run.sim.next_stop(options.cycles).is_none() {
        return finish(alloc, watch, options, run, &mut InPlace);
    }
    run_together(rt, alloc, Hooks { gate, watch }, options, run)
}

/// Runs a machine over one trace a core, up to a limit of at most 10^12 cycles or, where the configuration ends it
/// drained, until all is done, and gives its commands and the times of its requests, if their tables are asked for, its
/// statistics and the state in which it ends. It is run by at most as many workers as are named, 1 to 64: the caller,
/// and threads that are started once, where `options.workers.sharing` first says that they share the machine out. Up to
/// there, and with one worker, it is run in the thread of the caller, in place. The watcher is told how far the run is,
/// and when it has ended. What comes out depends on neither the watcher, nor the workers, nor how they share, nor the
/// order in which they end: it is what the one-clock machine does. Only the host can refuse: memory (fault 10), or,
/// where there are several workers, a worker's start (fault 11). All workers have ended when this returns.
pub fn run_machine<R: Threads + Wait + Sync, G: Gate + Sync, W: Watch>(
    rt: &R,
    alloc: Global,
    hooks: Hooks<'_, G, W>,
    machine: MachineInput<'_>,
    options: RunOptions,
) -> Result<Outcome, Fault>
    requires one_trace_a_core { length machine.traces.items ≡ machine.config.now.cores }
    requires some { 1 ≤ options.workers.count }
    requires few { options.workers.count ≤ 64 }
    requires limit { options.cycles ≤ 10 ^ 12 }
    ensures outcome { IfOk result (λ o. o ≡ outcome_with options machine.entry) }
    ensures refused { IfErr result (IsRefusedTo options.workers.count) }
{
    let Hooks { gate, watch } = hooks;
    let told = Hooks {
        gate,
        watch: &mut *watch,
    };
    let outcome = run_watched(rt, alloc, told, machine, options);
    watch.end();
    outcome
}
