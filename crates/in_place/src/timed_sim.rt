//! A simulator whose units stand at cycles of their own.

ghost use Rattle.std.specs.Prelude.{◌≡◌, ◌≤◌, ◌^◌, IfOk, length, replicate};
ghost use Rattle.units.specs.Parts.{StandAt};
ghost use Rattle.units.specs.Units.{unit_count};
ghost use Rattle.units.specs.Views.{HasReached};
ghost use Rattle.units.specs.Wakes.{AreTimedUnits, WaitAll};
ghost use Rattle.in_place.specs.Turns.{AreByKind, all_units, all_words};

use crate::taking_turns::{UnitsByKind, run_to};
use sim_base::message::{Cycle, Message};
use std::alloc::{AllocError, Global};
use std::marker::Model;
use std::sync::Arc;
use units::machine::Machine;
use units::part::UnitState;
use units::sim::Sim;
use units::timed_unit::Traffic;
use units::waking::{UnitRange, bring_up, timed_units};

/// A simulator whose units stand at cycles of their own, each with its wake word: a turn touches only those that
/// wake in it.
#[derive(Drop)]
pub(crate) struct TimedSim {
    pub(crate) machine: Arc<Machine>,
    pub(crate) now: Cycle,
    pub(crate) phase: u64,
    pub(crate) kinds: UnitsByKind,
    pub(crate) traffic: Traffic,
}

impl Model for TimedSim {
    ghost use Rattle.std.specs.Arc.{arc_value};
    ghost use Rattle.units.specs.Views.{SimView};

    ghost Value = { SimView };

    ghost use Rattle.sim_base.specs.contracts.config.Config as config;
    ghost use Rattle.std.specs.Coded.{codes};

    ghost coded = { Prim.hlevel (codes, config.the_row.coded) };

    ghost use Rattle.in_place.specs.Timed.{IsTimedSim};

    ghost view = { λ m. record { machine = arc_value m.machine; now = m.now; phase = m.phase } };

    ghost invariant = { λ m. IsTimedSim (arc_value m.machine) m.now m.phase m.kinds
        m.traffic.links };
}

/// The units of a machine, each where the machine stands, which is its wake word.
fn by_kind(
    alloc: Global,
    machine: &Machine,
    parts: Vec<UnitState>,
    now: Cycle,
) -> Result<UnitsByKind, AllocError>
    requires { length parts.items ≡ unit_count machine.now.config }
    ensures by_kind { IfOk result (AreByKind machine.now) }
    ensures units { IfOk result (λ kinds. AreTimedUnits now parts.items (all_units kinds)) }
    ensures words { IfOk result (λ kinds. all_words kinds ≡ replicate (length parts.items) now) }
{
    let first_channel = usize::from(machine.config.cores);
    let mut units = timed_units(alloc, parts, now)?;
    let channel_units = units.split_off(first_channel)?;
    let cores = UnitRange::awake(alloc, 0, units, now)?;
    let channels = UnitRange::awake(alloc, first_channel, channel_units, now)?;
    Ok(UnitsByKind { cores, channels })
}

/// The units of a machine, which wait where it stands, all brought up to there.
fn brought_up(
    alloc: Global,
    machine: &Machine,
    sent: &mut Vec<Message>,
    kinds: UnitsByKind,
    now: Cycle,
) -> Result<Vec<UnitState>, AllocError>
    requires by_kind { AreByKind machine.now kinds }
    requires count { length (all_units kinds) ≡ unit_count machine.now.config }
    requires words { length (all_words kinds) ≡ length (all_units kinds) }
    requires early { now ≤ 10 ^ 12 }
    requires wait { WaitAll machine.now 0 now now (all_units kinds) (all_words kinds) }
    ensures count { IfOk result (λ parts. length parts.items ≡ unit_count machine.now.config) }
    ensures stand { IfOk result (λ parts. StandAt machine.now now parts.items) }
{
    let UnitsByKind { cores, channels } = kinds;
    let mut parts = Vec::with_capacity(alloc, cores.units.len() + channels.units.len())?;
    bring_up(machine, sent, cores, now, &mut parts)?;
    bring_up(machine, sent, channels, now, &mut parts)?;
    Ok(parts)
}

impl TimedSim {
    /// A simulator as a timed one: its units may stand at cycles of their own. The only error is out of memory; the
    /// simulator is then gone.
    fn of(sim: Sim, alloc: Global) -> Result<TimedSim, AllocError>
        ensures { IfOk result (λ timed. timed ≡ sim) }
    {
        let Sim {
            machine,
            now,
            phase,
            parts,
            links,
        } = sim;
        let kinds = by_kind(alloc, &machine, parts, now)?;
        Ok(TimedSim {
            machine,
            now,
            phase,
            kinds,
            traffic: Traffic {
                links,
                sent: Vec::new(alloc),
            },
        })
    }

    /// The simulator again, once all its units stand where the machine does. The only error is out of memory; the
    /// simulator is then gone.
    fn brought_up(self, alloc: Global) -> Result<Sim, AllocError>
        ensures { IfOk result (λ sim. sim ≡ self) }
    {
        let TimedSim {
            machine,
            now,
            phase,
            kinds,
            traffic,
        } = self;
        let Traffic { links, mut sent } = traffic;
        let parts = brought_up(alloc, &machine, &mut sent, kinds, now)?;
        Ok(Sim {
            machine,
            now,
            phase,
            parts,
            links,
        })
    }

    /// The simulator at a limit, run by the caller alone.
    fn gone_to(self, limit: Cycle) -> Result<TimedSim, AllocError>
        requires not_past { self.now ≤ limit }
        requires early { limit ≤ 10 ^ 12 }
        ensures { IfOk result (λ after. after ≡ record self { now = limit }) }
    {
        let TimedSim {
            machine,
            now,
            phase,
            mut kinds,
            mut traffic,
        } = self;
        run_to(&machine, &mut traffic, &mut kinds, now, limit)?;
        Ok(TimedSim {
            machine,
            now: limit,
            phase,
            kinds,
            traffic,
        })
    }
}

/// The simulator at a limit, at most 10^12 cycles, run by the caller alone. Units stay where they are, and only those
/// that have something to do in a turn are touched. The only error is out of memory; the simulator is then gone.
pub fn run_alone(sim: Sim, alloc: Global, limit: Cycle) -> Result<Sim, AllocError>
    requires not_past { sim.now ≤ limit }
    requires early { limit ≤ 10 ^ 12 }
    ensures { IfOk result (HasReached sim limit) }
{
    TimedSim::of(sim, alloc)?.gone_to(limit)?.brought_up(alloc)
}
