//! A part of a machine's units, which one thread runs at a time.

ghost use Rattle.std.specs.Prelude.{◌≡◌, ◌<◌, ◌≤◌, ◌^◌, ◌+◌, ◌-◌, ℕ, suc, [], length, All, IfOk, OnOk};
ghost use Rattle.std.specs.Arc.{arc_value};
ghost use Rattle.sim_base.specs.Locality.{TravelsFor};
ghost use Rattle.links.specs.InFlight.{NoneArrivesBefore, with_sent};
ghost use Rattle.units.specs.Units.{unit_count};
ghost use Rattle.units.specs.Wakes.{AreEarly, AreLowered};
ghost use Rattle.shards.specs.Lists.{AllEmpty, LowersAll, with_lists};
ghost use Rattle.shards.specs.Shards.{ChangesOnlyMail, HasEarlyWords, HasShardRun, HasRangeRun, HasSent, HaveSent, HoldWhatWasSent, IsOfMachine, IsRangeBetweenPhases, IsSplit, LowersWords, IsBetweenPhases};

use crate::exchange::sort_by_shard;
use links::flight::Links;
use sim_base::message::{Cycle, Message};
use std::alloc::AllocError;
use std::sync::Arc;
use units::lane_scan::least;
use units::machine::Machine;
use units::timed_unit::{Span, Traffic};
use units::waking::{UnitRange, go_on};
use units::words::take_up;

/// Units at consecutive places, with the wake word of each, and the messages in flight to them.
#[derive(Drop)]
pub(crate) struct Shard {
    pub machine: Arc<Machine>,
    /// The place where each shard of the machine begins, and the number of units.
    pub bounds: Vec<usize>,
    pub range: UnitRange,
    pub traffic: Traffic,
}

/// The least arrival of messages, or a cycle that comes sooner.
fn first_arrival(messages: &[Message], cycle: Cycle) -> Cycle
    ensures within { result ≤ cycle }
    ensures arrivals { NoneArrivesBefore result messages.now }
    ensures since { (since : ℕ) → since ≤ cycle
        → NoneArrivesBefore since messages.now → since ≤ result }
{
    let mut first = cycle;
    for message in messages {
        first = first.min(message.arrival);
    }
    first
}

/// Takes up messages to units at places from `first` on, and empties the list: lowers their words, where none was later
/// than what was in flight to its unit.
fn take_up_list(
    machine: &Machine,
    first: usize,
    words: &mut [Cycle],
    links: &mut Links,
    list: &mut Vec<Message>,
) -> Result<(), AllocError>
    requires within { first + length words.old ≤ unit_count machine.now.config }
    requires channels { links.old.channels ≡ machine.now.config.channels }
    ensures words { OnOk result (AreEarly machine.now.config first words.old links.old
        → AreLowered machine.now.config first list.old.items words.old words.new) }
    ensures links { OnOk result (links.new ≡ with_sent links.old list.old.items) }
    ensures empty { OnOk result (list.new.items ≡ []) }
{
    take_up(&machine.config, links, first, words, list)?;
    list.clear();
    Ok(())
}

/// Takes up messages to units at places from `first` on, list by list, and empties the lists: lowers their words, where
/// none was later than what was in flight to its unit.
fn take_up_all(
    machine: &Machine,
    first: usize,
    words: &mut [Cycle],
    links: &mut Links,
    lists: &mut [Vec<Message>],
) -> Result<(), AllocError>
    requires within { first + length words.old ≤ unit_count machine.now.config }
    requires channels { links.old.channels ≡ machine.now.config.channels }
    ensures count { length lists.new ≡ length lists.old }
    ensures words { OnOk result (AreEarly machine.now.config first words.old links.old
        → LowersAll machine.now.config first lists.old words.old words.new) }
    ensures links { OnOk result (links.new ≡ with_lists links.old lists.old) }
    ensures empty { OnOk result (AllEmpty lists.new) }
{
    for list in lists.iter_mut() {
        take_up_list(machine, first, words, links, list)?;
    }
    Ok(())
}

/// Takes units over a phase of all units, which is no longer than the shortest latency.
fn go_all(
    machine: &Machine,
    traffic: &mut Traffic,
    range: &mut UnitRange,
    now: Cycle,
    until: Cycle,
) -> Result<(), AllocError>
    requires between_phases { IsRangeBetweenPhases machine.now now range.old traffic.old.links }
    requires order { now < until }
    requires early { until ≤ 10 ^ 12 }
    requires travels { TravelsFor machine.now.config (until - now) }
    requires sent { traffic.old.sent.items ≡ [] }
    ensures first { range.new.first ≡ range.old.first }
    ensures count { length range.new.units.items ≡ length range.old.units.items }
    ensures words { length range.new.words.items ≡ length range.old.words.items }
    ensures has_run { OnOk result (HasRangeRun machine.now now until range.new traffic.new.links) }
    ensures sent { OnOk result (HaveSent machine.now now until range.old traffic.new.sent.items) }
{
    let span = Span {
        here: now,
        there: now,
        until,
    };
    go_on(machine, traffic, range, &span)?;
    Ok(())
}

impl Shard {
    /// Takes up what was sent to the units in a phase to whose end they have gone, and lowers their words, where none
    /// was later than what was in flight to its unit.
    pub(crate) fn take_up(&mut self, lists: &mut [Vec<Message>]) -> Result<(), AllocError>
        requires { IsOfMachine self.old }
        ensures same { OnOk result (ChangesOnlyMail self.old self.new) }
        ensures words { OnOk result (
            HasEarlyWords self.old → LowersWords lists.old self.old self.new) }
        ensures links { OnOk result (
            self.new.traffic.links ≡ with_lists self.old.traffic.links lists.old) }
        ensures count { OnOk result (length lists.new ≡ length lists.old) }
        ensures empty { OnOk result (AllEmpty lists.new) }
    {
        take_up_all(
            &self.machine,
            self.range.first,
            &mut self.range.words,
            &mut self.traffic.links,
            lists,
        )
    }

    /// Takes the units over a phase. Gives a cycle before which they send nothing more, and nothing that they sent
    /// arrives.
    pub(crate) fn go(&mut self, now: Cycle, until: Cycle) -> Result<Cycle, AllocError>
        requires between_phases { IsBetweenPhases (arc_value self.old.machine) now self.old }
        requires order { now < until }
        requires early { until ≤ 10 ^ 12 }
        requires travels { TravelsFor (arc_value self.old.machine).config (until - now) }
        ensures machine { self.new.machine ≡ self.old.machine }
        ensures bounds { self.new.bounds ≡ self.old.bounds }
        ensures first { self.new.range.first ≡ self.old.range.first }
        ensures count { length self.new.range.units.items ≡ length self.old.range.units.items }
        ensures has_run { OnOk result (
            HasShardRun (arc_value self.old.machine) now until self.new) }
        ensures sent { OnOk result (HasSent now until self.old self.new) }
        ensures since { IfOk result (λ wake. until ≤ wake) }
        ensures sleep { IfOk result (λ wake. All (λ word. wake ≤ word) self.new.range.words.items) }
        ensures arrivals { IfOk result (λ wake.
            NoneArrivesBefore wake self.new.traffic.sent.items) }
    {
        self.traffic.sent.clear();
        go_all(
            &self.machine,
            &mut self.traffic,
            &mut self.range,
            now,
            until,
        )?;
        Ok(first_arrival(&self.traffic.sent, least(&self.range.words)))
    }

    /// Sorts what the units sent into lists, by the shard that it goes to.
    pub(crate) fn sort_sent(&self, lists: &mut [Vec<Message>]) -> Result<(), AllocError>
        requires split { IsSplit (arc_value self.now.machine).config self.now.bounds.items }
        requires count { suc (length lists.old) ≡ length self.now.bounds.items }
        requires empty { AllEmpty lists.old }
        ensures count { length lists.new ≡ length lists.old }
        ensures each { OnOk result (HoldWhatWasSent self.now lists.new) }
    {
        sort_by_shard(
            &self.machine.config,
            &self.bounds,
            &self.traffic.sent,
            lists,
        )
    }
}
