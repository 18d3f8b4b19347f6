//! A machine whose units are shared out in shards.

ghost use Rattle.std.specs.Prelude.{◌≡◌, ◌<◌, [], length, IfOk};
ghost use Rattle.shards.specs.Lists.{AllRowsEmpty, IsSquare, lists_of};
ghost use Rattle.shards.specs.Phases.{shards_in, sim_of};

use crate::shard::Shard;
use crate::split::{bounds_for, shards_of};
use sim_base::message::{Cycle, Message};
use std::alloc::{AllocError, Global};
use std::marker::Model;
use std::sync::Arc;
use units::machine::Machine;
use units::sim::Sim;

/// All shards of a machine between two phases.
#[derive(Drop)]
pub struct ShardedSim {
    pub(crate) machine: Arc<Machine>,
    /// The place where each shard begins, and the number of units.
    pub(crate) bounds: Vec<usize>,
    pub(crate) shards: Vec<Box<Shard>>,
    /// What was sent to the units of each shard in the phase before, in a list for each that sent it.
    pub(crate) inbound: Vec<Vec<Vec<Message>>>,
    pub(crate) now: Cycle,
    pub(crate) phase: u64,
    /// A cycle before which nothing is sent, and nothing that was sent arrives.
    pub(crate) wake: Cycle,
}

impl Model for ShardedSim {
    ghost use Rattle.std.specs.Arc.{arc_value};
    ghost use Rattle.shards.specs.Phases.{ShardedView};

    ghost Value = { ShardedView };

    ghost use Rattle.units.specs.contracts.machine.Machine as of_machine;
    ghost use Rattle.std.specs.Coded.{codes};

    ghost coded = { Prim.hlevel (codes, of_machine.the_row.coded) };

    ghost use Rattle.shards.specs.Phases.{sharded_view};
    ghost use Rattle.shards.specs.Shards.{IsSharded};

    ghost view = { λ m. sharded_view (arc_value m.machine) m.bounds.items m.now m.phase };

    ghost invariant = { λ m. IsSharded (arc_value m.machine) m.bounds.items m.now m.phase m.wake
        m.shards.items m.inbound.items };
}

/// `count` lists, all of them empty.
fn no_row(alloc: Global, count: usize) -> Result<Vec<Vec<Message>>, AllocError>
    ensures count { IfOk result (λ row. length row.items ≡ count) }
    ensures empty { IfOk result (λ row. lists_of row.items ≡ []) }
{
    let mut row = Vec::with_capacity(alloc, count)?;
    for _ in 0..count {
        row.push(Vec::new(alloc))?;
    }
    Ok(row)
}

/// `count` lists, all of them empty, for each of `count` shards.
fn no_lists(alloc: Global, count: usize) -> Result<Vec<Vec<Vec<Message>>>, AllocError>
    ensures count { IfOk result (λ rows. length rows.items ≡ count) }
    ensures square { IfOk result (λ rows. IsSquare count rows.items) }
    ensures empty { IfOk result (λ rows. AllRowsEmpty count rows.items) }
{
    let mut rows = Vec::with_capacity(alloc, count)?;
    for _ in 0..count {
        rows.push(no_row(alloc, count)?)?;
    }
    Ok(rows)
}

impl ShardedSim {
    /// A simulator whose units are shared out in `count` shards. The only error is out of memory; the simulator is
    /// then gone.
    pub fn split(sim: Sim, alloc: Global, count: usize) -> Result<ShardedSim, AllocError>
        requires { 0 < count }
        ensures same { IfOk result (λ sharded. sim_of sharded ≡ sim) }
        ensures count { IfOk result (λ sharded. shards_in sharded ≡ count) }
    {
        let bounds = bounds_for(alloc, &sim.machine.config, count)?;
        let machine = sim.machine.clone()?;
        let (now, phase) = (sim.now, sim.phase);
        let shards = shards_of(alloc, sim, &bounds)?;
        let inbound = no_lists(alloc, count)?;
        Ok(ShardedSim {
            machine,
            bounds,
            shards,
            inbound,
            now,
            phase,
            wake: now,
        })
    }
}
