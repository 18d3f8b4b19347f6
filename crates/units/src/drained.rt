//! Whether the units of a simulator have anything left to do, and for how long.

ghost use Rattle.std.specs.Prelude.{◌≡◌, ◌<◌, ◌↔◌, ℕ, length, IsTrue};
ghost use Rattle.units.specs.Runs.{flight_at};
ghost use Rattle.units.specs.Units.{unit_at, unit_count};
ghost use Rattle.units.specs.declared.machine.Machine.{Machine};
ghost use Rattle.units.specs.Parts.{IsPartAt, StandAt};
ghost use Rattle.units.specs.Drained.{HasFinished, AllFinished, StillRuns};

use crate::machine::Machine;
use crate::part::UnitState;
use links::flight::Links;
use sim_base::message::Cycle;

/// Whether the unit at a place has retired its trace, or has no request left in its queue.
fn has_finished(machine: &Machine, place: usize, part: &UnitState) -> bool
    ensures { (now : ℕ) → IsPartAt machine.now place now part.now
        → IsTrue result ↔ HasFinished machine.now now (unit_at machine.now.config place) }
{
    match part {
        UnitState::Core(core) => core.stats().retired == machine.trace_len(place),
        UnitState::Channel(channel, _) => channel.waiting_count() == 0,
    }
}

/// Whether each unit has finished its work. It looks at none after the first that has not.
pub(crate) fn all_finished(machine: &Machine, parts: &[UnitState]) -> bool
    requires count { length parts.now ≡ unit_count machine.now.config }
    ensures { (now : ℕ) → StandAt machine.now now parts.now
        → IsTrue result ↔ AllFinished machine.now now }
{
    for (place, part) in parts.iter().enumerate() {
        if !has_finished(machine, place, part) {
            return false;
        }
    }
    true
}

/// The first cycle before which the unit at a place may have retired its trace, if it is a core, by its width in each
/// cycle.
fn unit_until(machine: &Machine, now: Cycle, place: usize, part: &UnitState) -> Cycle
    requires place { place < unit_count machine.now.config }
    ensures { IsPartAt machine.now place now part.now → StillRuns machine.now now result }
{
    match part {
        UnitState::Core(core) => {
            let left = machine
                .trace_len(place)
                .saturating_sub(core.stats().retired);
            now.saturating_add(left.div_ceil(u64::from(machine.config.width)))
        }
        UnitState::Channel(..) => now,
    }
}

/// The first cycle before which all cores may have retired their traces.
pub(crate) fn cores_until(machine: &Machine, now: Cycle, parts: &[UnitState]) -> Cycle
    requires count { length parts.now ≡ unit_count machine.now.config }
    ensures { StandAt machine.now now parts.now → StillRuns machine.now now result }
{
    let mut until = now;
    for (place, part) in parts.iter().enumerate() {
        until = until.max(unit_until(machine, now, place, part));
    }
    until
}

/// The cycle after the first in which a message arrives, if one is in flight.
pub(crate) fn flight_until(links: &Links, now: Cycle) -> Cycle
    ensures { (machine : Machine) → links.now.messages ≡ flight_at machine now
        → StillRuns machine now result }
{
    match links.next_arrival() {
        Some(arrival) => arrival.saturating_add(1),
        None => now,
    }
}
