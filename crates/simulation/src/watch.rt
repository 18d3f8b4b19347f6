//! Who is told how far a run is, and how far it goes before it is told again.

ghost use Rattle.std.specs.Prelude.{◌≡◌, ◌<◌, ◌≤◌, length, sum_by, IfSome};
ghost use Rattle.simulation.specs.Stages.{retired_by, IsExtentOf, IsStageOf};

use cpu_trace::trace::Trace;
use sim_base::message::Cycle;
use statistics::cores::CoreStats;
use std::alloc::Global;
use units::sim::Sim;

/// How far a run is.
#[derive(Clone, Copy, Debug)]
pub struct Stage {
    /// How many cycles are over.
    pub now: Cycle,
    /// The limit of the run.
    pub limit: Cycle,
    /// Whether the run ends sooner where all is done.
    pub ends_drained: bool,
    /// How many entries of the traces have retired. None where the memory to count them was refused.
    pub retired: Option<u128>,
    /// How many entries the traces have.
    pub entries: u128,
}

/// Who is told how far a run is. The watcher is asked before the first cycle, and each time the run has gone on for
/// as many cycles as it answered. Whatever it answers, what comes out of the run is the same.
pub trait Watch {
    /// Whether the watcher watches. If it does not, it is asked nothing, and nothing is counted for it.
    fn watches(&self) -> bool;

    /// How many cycles the run may go on before the watcher is asked again; 0 is taken as 1.
    fn next_interval(&mut self, stage: &Stage) -> Cycle;

    /// The run has ended, even if it was refused.
    fn end(&mut self);
}

/// The watcher that does not watch.
#[derive(Clone, Copy)]
pub struct Unwatched;

impl Watch for Unwatched {
    fn watches(&self) -> bool {
        false
    }

    fn next_interval(&mut self, _stage: &Stage) -> Cycle {
        Cycle::MAX
    }

    fn end(&mut self) {}
}

/// How far a run can go. A watcher is told this each time; it stays the same over the run.
#[derive(Clone, Copy)]
pub(crate) struct RunExtent {
    /// The limit in cycles.
    pub(crate) limit: Cycle,
    /// Whether the run ends sooner where all is done.
    pub(crate) ends_drained: bool,
    /// How many entries the traces have.
    pub(crate) entries: u128,
}

/// What a run keeps for its watcher.
#[derive(Clone, Copy)]
pub(crate) struct WatchState {
    pub(crate) extent: RunExtent,
    /// The cycle from which the watcher is asked next.
    pub(crate) look: Cycle,
}

/// How many entries traces have.
pub(crate) fn entries_of(traces: &[Trace]) -> u128
    ensures { result ≡ sum_by length traces.now }
{
    let mut entries = 0;
    for trace in traces {
        entries += u128::from(trace.len());
    }
    entries
}

/// How many entries retired in all cores.
fn retired_of(cores: &[CoreStats]) -> u128
    ensures { result ≡ sum_by (λ core. core.retired) cores.now }
{
    let mut retired = 0;
    for core in cores {
        retired += u128::from(core.retired);
    }
    retired
}

/// How many entries have retired.
fn retired_in(sim: &Sim, alloc: Global) -> Option<u128>
    ensures { IfSome result (λ n. n ≡ retired_by sim.entry.now.machine sim.entry.now.now) }
{
    match sim.stats(alloc) {
        Ok(stats) => Some(retired_of(&stats.cores)),
        Err(_) => None,
    }
}

/// How far a simulator is.
fn stage_of(sim: &Sim, alloc: Global, extent: RunExtent) -> Stage
    requires { IsExtentOf sim.now.machine extent }
    ensures { IsStageOf sim.entry.now.machine extent.limit sim.entry.now.now result }
{
    let RunExtent {
        limit,
        ends_drained,
        entries,
    } = extent;
    Stage {
        now: sim.now(),
        limit,
        ends_drained,
        retired: retired_in(sim, alloc),
        entries,
    }
}

/// A later cycle up to which a run goes, and no later than a stop. Where the watcher is to be asked, from the cycle
/// `state.look` on, it is asked first, and `state.look` is the cycle where it is to be asked next.
pub(crate) fn interval_end<W: Watch>(
    sim: &Sim,
    alloc: Global,
    stop: Cycle,
    watch: &mut W,
    state: &mut WatchState,
) -> Cycle
    requires before { sim.now.now < stop }
    requires extent { IsExtentOf sim.now.machine state.old.extent }
    ensures later { sim.entry.now.now < result }
    ensures within { result ≤ stop }
    ensures unasked { sim.entry.now.now < state.old.look → state.new.look ≡ state.old.look }
    ensures same { state.new.extent ≡ state.old.extent }
{
    if !watch.watches() {
        return stop;
    }
    let now = sim.now();
    if state.look <= now {
        let interval = watch.next_interval(&stage_of(sim, alloc, state.extent));
        state.look = now.saturating_add(interval.max(1));
    }
    stop.min(state.look)
}
