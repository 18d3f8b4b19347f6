//! A run in one thread, phase by phase.

ghost use Rattle.std.specs.Prelude.{◌≡◌, ◌≢◌, ◌<◌, ◌≤◌, ◌^◌, IfOk, IfErr};
ghost use Rattle.shards.specs.Phases.{ended, jobs_of};
ghost use Rattle.units.specs.Views.{HasReached};
ghost use Rattle.reference.specs.Orders.{Fits, HasCome, IsMisfit, IsWhyStopped, OnlyPermutes, run_fault};
ghost use Rattle.units.specs.Stops.{stop_of};

use crate::order::Order;
use shards::job::{Done, Job};
use shards::merging::{Phase, merge};
use shards::planning::{Planned, plan};
use shards::sharded::ShardedSim;
use sim_base::fault::{Fault, MergeFault};
use sim_base::message::Cycle;
use std::alloc::{AllocError, Global};
use units::sim::Sim;

/// What a run reports where the results of a phase are not one of each job.
fn fault_of(cause: MergeFault) -> Fault
    ensures { result ≡ run_fault cause }
{
    match cause {
        MergeFault::Memory => Fault::Memory,
        MergeFault::Missing(_) | MergeFault::Double(_) | MergeFault::Stranger(_) => {
            Fault::Merge(cause)
        }
    }
}

/// The results of jobs, in their order. The only error is out of memory.
fn results_of(alloc: Global, jobs: Vec<Job>) -> Result<Vec<Done>, AllocError>
    ensures { IfOk result (λ results. results.items ≡ jobs.items) }
{
    let mut results = Vec::with_capacity(alloc, jobs.len())?;
    for job in jobs {
        results.push(job.run()?)?;
    }
    Ok(results)
}

/// A machine in shards at the end of a phase, from the results of its jobs in their order.
fn run_phase<O: Order>(
    phase: Phase,
    alloc: Global,
    jobs: Vec<Job>,
    order: &mut O,
) -> Result<ShardedSim, Fault>
    requires jobs { jobs.items ≡ jobs_of phase }
    ensures ok { IfOk result (λ sim. sim ≡ ended phase) }
    ensures fits { IfOk result (λ sim. Fits O.may_give phase) }
    ensures stopped { IfErr result (IsMisfit O.may_give phase) }
    ensures not_memory { IfErr result (λ fault. fault ≢ Fault.Merge MergeFault.Memory) }
{
    let results = order.arrange(phase.number(), results_of(alloc, jobs)?);
    match merge(phase, alloc, results) {
        Ok(sim) => Ok(sim),
        Err(cause) => Err(fault_of(cause)),
    }
}

/// A simulator at a stop, phase by phase, its units shared out in shards.
fn run_phases<O: Order>(
    sim: Sim,
    alloc: Global,
    shards: usize,
    stop: Cycle,
    order: &mut O,
) -> Result<Sim, Fault>
    requires some { 0 < shards }
    requires not_past { sim.now ≤ stop }
    requires early { stop ≤ 10 ^ 12 }
    ensures ok { IfOk result (HasReached sim stop) }
    ensures fitted { IfOk result (HasCome O.may_give shards sim stop) }
    ensures stopped { IfErr result (IsWhyStopped O.may_give shards sim stop) }
    ensures not_memory { IfErr result (λ fault. fault ≢ Fault.Merge MergeFault.Memory) }
{
    let mut sharded = ShardedSim::split(sim, alloc, shards)?;
    loop {
        match plan(sharded, alloc, stop)? {
            Planned::AtLimit(sim) => return Ok(sim),
            Planned::Phase(phase, jobs) => {
                sharded = run_phase(phase, alloc, jobs, order)?;
            }
        }
    }
}

/// Runs a simulator up to a limit, at most 10^12 cycles, or, where the configuration ends it drained, up to the first
/// cycle before which all is done, with its units shared out in `shards` shards. The results of each phase are put
/// together in the order that is given, and the simulator that comes back does not depend on it. What the order gives
/// for the results of a phase may not be one of each job: the run then stops at this phase, and fault 16 says what is
/// wrong, as `merge` finds it. The only other fault is refused memory (fault 10), and that is the only one with an
/// order that leaves no result out, repeats none and brings none in.
pub fn run_in_order<O: Order>(
    sim: Sim,
    alloc: Global,
    shards: usize,
    limit: Cycle,
    order: &mut O,
) -> Result<Sim, Fault>
    requires some { 0 < shards }
    requires not_past { sim.now ≤ limit }
    requires early { limit ≤ 10 ^ 12 }
    ensures ok { IfOk result (HasReached sim (stop_of sim limit)) }
    ensures stopped { IfErr result (IsWhyStopped O.may_give shards sim limit) }
    ensures not_memory { IfErr result (λ fault. fault ≢ Fault.Merge MergeFault.Memory) }
    ensures whole { OnlyPermutes O.may_give → IfErr result (λ fault. fault ≡ Fault.Memory) }
{
    let mut sim = sim;
    while let Some(stop) = sim.next_stop(limit) {
        sim = run_phases(sim, alloc, shards, stop, order)?;
    }
    Ok(sim)
}
