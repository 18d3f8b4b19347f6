//! What comes next of a machine in shards.

ghost use Rattle.std.specs.Prelude.{◌≡◌, ◌≤◌, ◌^◌, IfOk};
ghost use Rattle.shards.specs.Planning.{IsPlanned};
ghost use Rattle.shards.specs.Phases.{MayGo, jobs_of};
ghost use Rattle.shards.specs.Standing.{AreShardsAt, MayStopAt};

use crate::job::{Job, JobName};
use crate::merging::{Outline, Phase, PhaseSpan, no_results};
use crate::shard::Shard;
use crate::sharded::ShardedSim;
use crate::split::{ShardLayout, rejoined};
use sim_base::message::{Cycle, Message};
use std::alloc::{AllocError, Global};
use std::mem;
use units::sim::Sim;
use units::span::end_of_phase;

/// What comes next.
#[derive(Drop)]
pub enum Planned {
    /// Nothing up to the limit, where the simulator stands.
    AtLimit(Sim),
    /// A phase, with its jobs, one for each shard.
    Phase(Phase, Vec<Job>),
}

/// The jobs of a phase, one for each shard, in their order.
fn jobs_for(
    alloc: Global,
    phase: &Outline,
    shards: Vec<Box<Shard>>,
    inbound: Vec<Vec<Vec<Message>>>,
) -> Result<Vec<Job>, AllocError>
    requires { MayGo phase.now shards.items inbound.items }
    ensures { IfOk result (λ jobs. jobs.items ≡ jobs_of phase.now) }
{
    let span = phase.span;
    let mut inbound = inbound;
    let mut jobs = Vec::with_capacity(alloc, shards.len())?;
    for shard in shards {
        let index = jobs.len();
        let name = JobName {
            phase: span.number,
            shard: index,
            from: span.from,
            until: span.until,
        };
        jobs.push(Job {
            name,
            shard,
            inbound: mem::replace(&mut inbound[index], Vec::new(alloc)),
        })?;
    }
    Ok(jobs)
}

/// All shards at a cycle before which nothing happens any more, with what was sent to them taken up.
fn stopped(
    alloc: Global,
    layout: &ShardLayout,
    shards: Vec<Box<Shard>>,
    inbound: Vec<Vec<Vec<Message>>>,
) -> Result<Vec<Box<Shard>>, AllocError>
    requires { MayStopAt layout.now shards.items inbound.items }
    ensures { IfOk result (λ stopped. AreShardsAt layout.now stopped.items) }
{
    let mut inbound = inbound;
    let mut stopped = Vec::with_capacity(alloc, shards.len())?;
    for shard in shards {
        let index = stopped.len();
        let mut shard = shard;
        shard.take_up(&mut inbound[index])?;
        stopped.push(shard)?;
    }
    Ok(stopped)
}

/// What comes next up to a limit, at most 10^12 cycles: the phase that begins where something happens next, or the
/// simulator at the limit, where nothing happens before it. The only error is out of memory; the simulator is then
/// gone.
pub fn plan(sim: ShardedSim, alloc: Global, limit: Cycle) -> Result<Planned, AllocError>
    requires not_past { sim.now ≤ limit }
    requires early { limit ≤ 10 ^ 12 }
    ensures { IfOk result (IsPlanned sim limit) }
{
    let ShardedSim {
        machine,
        bounds,
        shards,
        inbound,
        phase: number,
        wake,
        ..
    } = sim;
    if wake >= limit {
        let layout = ShardLayout {
            machine,
            bounds,
            at: limit,
        };
        let shards = stopped(alloc, &layout, shards, inbound)?;
        return Ok(Planned::AtLimit(rejoined(alloc, layout, shards, number)?));
    }
    let span = PhaseSpan {
        number,
        from: wake,
        until: end_of_phase(&machine.config, wake, limit),
    };
    let outline = Outline {
        machine,
        bounds,
        span,
    };
    let jobs = jobs_for(alloc, &outline, shards, inbound)?;
    let places = no_results(alloc, &outline)?;
    Ok(Planned::Phase(Phase { outline, places }, jobs))
}
