//! The shards that a machine is split into, and joined from.

ghost use Rattle.std.specs.Prelude.{◌≡◌, ◌<◌, ◌≤◌, ◌^◌, ◌+◌, [], suc, length, take, drop, IfOk, OnOk};
ghost use Rattle.std.specs.Arc.{arc_value};
ghost use Rattle.links.specs.InFlight.{nothing_in_flight};
ghost use Rattle.units.specs.Flight.{among, goes_among};
ghost use Rattle.units.specs.Runs.{links_at};
ghost use Rattle.units.specs.Units.{unit_count};
ghost use Rattle.shards.specs.Lists.{bound};
ghost use Rattle.shards.specs.Phases.{sim_at};
ghost use Rattle.shards.specs.Shards.{AreShards, AddsUnits, IsShard, IsSplit, IsBetweenPhases, links_among};
ghost use Rattle.shards.specs.Standing.{AreAwake, AreBroughtUp, AreShardsAt, ComesNext, HoldsFlight, flight_first};

use crate::shard::Shard;
use links::flight::Links;
use sim_base::config::Config;
use sim_base::message::{Cycle, Message};
use std::alloc::{AllocError, Global};
use std::mem;
use std::sync::Arc;
use units::machine::Machine;
use units::part::UnitState;
use units::sim::Sim;
use units::timed_unit::{TimedUnit, Traffic};
use units::waking::{UnitRange, bring_up, timed_units};
use units::words::receiver_place;

/// How many of the units are in the first `parts` of `count` parts, which are as equal as possible.
fn share_of(units: usize, parts: usize, count: usize) -> usize
    ensures { result ≤ units }
{
    (units.saturating_mul(parts) / count.max(1)).min(units)
}

/// The place before which the first `parts` of `count` shards lie: shards of cores come first, and then shards of
/// channels. Half of the shards are of cores, fewer if there are not that many cores, and more if there are few
/// channels.
fn place_before(config: &Config, parts: usize, count: usize) -> usize
    requires { parts ≤ count }
    ensures { result ≤ unit_count config.now }
{
    let cores = usize::from(config.cores);
    let channels = usize::from(config.channels);
    let of_channels = channels.min(count - cores.min(count / 2));
    let of_cores = count - of_channels;
    if parts <= of_cores {
        share_of(cores, parts, of_cores)
    } else {
        cores + share_of(channels, parts - of_cores, of_channels)
    }
}

/// Where each of `count` shards begins, and the number of units: a shard is of cores alone, or of channels alone (but
/// one shard has all units), and is about as large as the next of its kind, so that the shards of channels, which have
/// most to do, all have about the same amount to do.
pub(crate) fn bounds_for(
    alloc: Global,
    config: &Config,
    count: usize,
) -> Result<Vec<usize>, AllocError>
    requires { 0 < count }
    ensures count { IfOk result (λ bounds. length bounds.items ≡ suc count) }
    ensures split { IfOk result (λ bounds. IsSplit config.now bounds.items) }
{
    let mut bounds = Vec::new(alloc);
    let mut last = 0;
    bounds.push(last)?;
    for parts in 1..count {
        last = place_before(config, parts, count).max(last);
        bounds.push(last)?;
    }
    bounds.push(usize::from(config.cores) + usize::from(config.channels))?;
    Ok(bounds)
}

/// Whether a message goes to one of the units at places from `first` up to `end`.
fn goes_to(config: &Config, first: usize, end: usize, message: &Message) -> bool
    requires { end ≤ unit_count config.now }
    ensures { result ≡ goes_among config.now first end message.now }
{
    match receiver_place(config, message.link) {
        Some(place) => first <= place && place < end,
        None => false,
    }
}

/// The messages that go to the units at places from `first` up to `end`.
fn messages_to(
    alloc: Global,
    config: &Config,
    first: usize,
    end: usize,
    messages: &[Message],
) -> Result<Vec<Message>, AllocError>
    requires { end ≤ unit_count config.now }
    ensures { IfOk result (λ own. own.items ≡ among config.now first end messages.now) }
{
    messages
        .iter()
        .copied()
        .filter(|message| goes_to(config, first, end, message))
        .collect(alloc)
}

/// Links that hold the messages that go to the units at places from `first` up to `end`.
fn links_to(
    alloc: Global,
    config: &Config,
    first: usize,
    end: usize,
    messages: &[Message],
) -> Result<Links, AllocError>
    requires { end ≤ unit_count config.now }
    ensures { IfOk result (λ links. links ≡ links_among config.now first end messages.now) }
{
    let mut links = Links::start(alloc, config)?;
    links.accept(&mut messages_to(alloc, config, first, end, messages)?)?;
    Ok(links)
}

/// A machine at a cycle, with the messages that are then in flight, from which its shards are made.
#[derive(Drop)]
struct Snapshot {
    machine: Arc<Machine>,
    at: Cycle,
    messages: Vec<Message>,
}

/// The shard with a number, of units that all stand at a cycle, with what goes to them of the messages in flight.
fn shard_of(
    alloc: Global,
    snapshot: &Snapshot,
    bounds: &[usize],
    index: usize,
    units: Vec<TimedUnit>,
) -> Result<Box<Shard>, AllocError>
    requires split { IsSplit (arc_value snapshot.now.machine).config bounds.now }
    requires exists { suc index < length bounds.now }
    requires count { bound bounds.now index + length units.items ≡ bound bounds.now (suc index) }
    requires early { snapshot.now.at ≤ 10 ^ 12 }
    requires wait { AreAwake snapshot.now (bound bounds.now index) units.items }
    requires flight { HoldsFlight snapshot.now }
    ensures shard { IfOk result (λ b.
        IsShard (arc_value snapshot.now.machine) bounds.now index b.value) }
    ensures between_phases { IfOk result (λ b.
        IsBetweenPhases (arc_value snapshot.now.machine) snapshot.now.at b.value) }
{
    let first = bounds[index];
    let end = bounds[index + 1];
    let range = UnitRange::awake(alloc, first, units, snapshot.at)?;
    let links = links_to(
        alloc,
        &snapshot.machine.config,
        first,
        end,
        &snapshot.messages,
    )?;
    let shard = Shard {
        machine: snapshot.machine.clone()?,
        bounds: Vec::from_slice(alloc, bounds)?,
        range,
        traffic: Traffic {
            links,
            sent: Vec::new(alloc),
        },
    };
    Ok(Box::new(alloc, shard)?)
}

/// Takes `count` units from the front of a list.
fn take_front(units: &mut Vec<TimedUnit>, count: usize) -> Result<Vec<TimedUnit>, AllocError>
    requires { count ≤ length units.old.items }
    ensures front { IfOk result (λ front. front.items ≡ take count units.old.items) }
    ensures rest { OnOk result (units.new.items ≡ drop count units.old.items) }
{
    let rest = units.split_off(count)?;
    Ok(mem::replace(units, rest))
}

/// The shards of a machine whose units all stand at a cycle, with the messages that are then in flight.
fn shards_from(
    alloc: Global,
    snapshot: &Snapshot,
    bounds: &[usize],
    units: Vec<TimedUnit>,
) -> Result<Vec<Box<Shard>>, AllocError>
    requires split { IsSplit (arc_value snapshot.now.machine).config bounds.now }
    requires count { length units.items ≡ unit_count (arc_value snapshot.now.machine).config }
    requires early { snapshot.now.at ≤ 10 ^ 12 }
    requires wait { AreAwake snapshot.now 0 units.items }
    requires flight { HoldsFlight snapshot.now }
    ensures { IfOk result (λ v.
        AreShards (arc_value snapshot.now.machine) bounds.now snapshot.now.at v.items) }
{
    let mut left = units;
    let count = bounds.len() - 1;
    let mut shards = Vec::with_capacity(alloc, count)?;
    for index in 0..count {
        let own = take_front(&mut left, bounds[index + 1] - bounds[index])?;
        shards.push(shard_of(alloc, snapshot, bounds, index, own)?)?;
    }
    Ok(shards)
}

/// The shards of a simulator, each with the units of its places and with what is in flight to them.
pub(crate) fn shards_of(
    alloc: Global,
    sim: Sim,
    bounds: &[usize],
) -> Result<Vec<Box<Shard>>, AllocError>
    requires { IsSplit sim.machine.config bounds.now }
    ensures { IfOk result (λ shards. AreShards sim.machine bounds.now sim.now shards.items) }
{
    let Sim {
        machine,
        now,
        parts,
        links,
        ..
    } = sim;
    let messages = links.messages(alloc)?;
    let units = timed_units(alloc, parts, now)?;
    let snapshot = Snapshot {
        machine,
        at: now,
        messages,
    };
    shards_from(alloc, &snapshot, bounds, units)
}

/// Where the shards of a machine stand.
#[derive(Drop)]
pub(crate) struct ShardLayout {
    pub machine: Arc<Machine>,
    /// The place where each shard begins, and the number of units.
    pub bounds: Vec<usize>,
    pub at: Cycle,
}

/// Puts the units of a shard, where the machine stands, behind those of a list, and what is in flight to them into
/// links.
fn join_shard(
    alloc: Global,
    layout: &ShardLayout,
    shard: Box<Shard>,
    parts: &mut Vec<UnitState>,
    links: &mut Links,
) -> Result<(), AllocError>
    requires between_phases { ComesNext layout.now (length parts.old.items) shard.value }
    requires stand { AreBroughtUp layout.now parts.old.items }
    requires links { links.old ≡ flight_first layout.now (length parts.old.items) }
    ensures count { OnOk result (AddsUnits shard.value parts.old.items parts.new.items) }
    ensures stand { OnOk result (AreBroughtUp layout.now parts.new.items) }
    ensures links { OnOk result (links.new ≡ flight_first layout.now (length parts.new.items)) }
{
    let Shard { range, traffic, .. } = Box::into_inner(shard);
    let Traffic {
        links: own,
        mut sent,
    } = traffic;
    bring_up(&layout.machine, &mut sent, range, layout.at, parts)?;
    links.accept(&mut own.messages(alloc)?)?;
    Ok(())
}

/// Puts the units of all shards, where the machine stands, into an empty list, and what is in flight to them into
/// empty links.
fn join_all(
    alloc: Global,
    layout: &ShardLayout,
    shards: Vec<Box<Shard>>,
    parts: &mut Vec<UnitState>,
    links: &mut Links,
) -> Result<(), AllocError>
    requires shards { AreShardsAt layout.now shards.items }
    requires none { parts.old.items ≡ [] }
    requires empty { links.old ≡ nothing_in_flight (arc_value layout.now.machine).config }
    ensures count { OnOk result (
        length parts.new.items ≡ unit_count (arc_value layout.now.machine).config) }
    ensures stand { OnOk result (AreBroughtUp layout.now parts.new.items) }
    ensures links { OnOk result (
        links.new ≡ links_at (arc_value layout.now.machine) layout.now.at) }
{
    for shard in shards {
        join_shard(alloc, layout, shard, parts, links)?;
    }
    Ok(())
}

/// The simulator that shards were split from, at the cycle where they stand.
pub(crate) fn rejoined(
    alloc: Global,
    layout: ShardLayout,
    shards: Vec<Box<Shard>>,
    phase: u64,
) -> Result<Sim, AllocError>
    requires shards { AreShardsAt layout shards.items }
    requires counted { phase ≤ layout.at }
    ensures { IfOk result (λ sim. sim ≡ sim_at (arc_value layout.machine) layout.at phase) }
{
    let count = layout.bounds[layout.bounds.len() - 1];
    let mut parts = Vec::with_capacity(alloc, count)?;
    let mut links = Links::start(alloc, &layout.machine.config)?;
    join_all(alloc, &layout, shards, &mut parts, &mut links)?;
    let ShardLayout { machine, at, .. } = layout;
    Ok(Sim {
        machine,
        now: at,
        phase,
        parts,
        links,
    })
}
