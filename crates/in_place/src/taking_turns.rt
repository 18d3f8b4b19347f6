//! A machine that is run in place, by the caller alone, its cores and channels in turns.

ghost use Rattle.std.specs.Prelude.{◌≡◌, ◌<◌, ◌≤◌, ◌^◌, ◌-◌, ℕ, length, OnOk, All, false};
ghost use Rattle.links.specs.InFlight.{InFlight};
ghost use Rattle.units.specs.SpanLaws.Sent.{RequestsTravelFor, AnswersTakeFor};
ghost use Rattle.units.specs.Units.{unit_count};
ghost use Rattle.units.specs.declared.machine.Machine.{Machine};
ghost use Rattle.in_place.specs.Turns.{AllBetweenPhases, AreByKind, InTurnsAt, all_units, channels_to, cores_to};

use sim_base::message::Cycle;
use std::alloc::AllocError;
use units::lane_scan::{first_below, least};
use units::machine::Machine;
use units::span_laws::latencies::{least_request_latency, least_way_back};
use units::timed_unit::{Span, Traffic};
use units::waking::{UnitRange, go_on};
use units::words::take_up;

/// The units of a machine: its cores, and its channels, whose places come after those of the cores.
#[derive(Drop)]
pub(crate) struct UnitsByKind {
    pub cores: UnitRange,
    pub channels: UnitRange,
}

/// Where the cores of a machine stand, and where its channels do.
#[derive(Clone, Copy)]
struct TurnCycles {
    cores_at: Cycle,
    channels_at: Cycle,
}

/// A turn of the channels, up to a cycle that is no further beyond the cores than any request travels.
fn channels_turn(
    machine: &Machine,
    traffic: &mut Traffic,
    kinds: &mut UnitsByKind,
    at: TurnCycles,
    until: Cycle,
) -> Result<(), AllocError>
    requires turns { InTurnsAt machine.now at kinds.old traffic.old.links }
    requires order { at.channels_at ≤ until }
    requires early { until ≤ 10 ^ 12 }
    requires travels { RequestsTravelFor machine.now.config (until - at.cores_at) }
    ensures turns { OnOk result (
        InTurnsAt machine.now (channels_to until at) kinds.new traffic.new.links) }
    ensures count { length (all_units kinds.new) ≡ length (all_units kinds.old) }
{
    let span = Span {
        here: at.channels_at,
        there: at.cores_at,
        until,
    };
    traffic.sent.clear();
    go_on(machine, traffic, &mut kinds.channels, &span)?;
    take_up(
        &machine.config,
        &mut traffic.links,
        kinds.cores.first,
        &mut kinds.cores.words,
        &mut traffic.sent,
    )?;
    Ok(())
}

/// A turn of the cores, up to a cycle that is no further beyond the channels than any credit or reply takes.
fn cores_turn(
    machine: &Machine,
    traffic: &mut Traffic,
    kinds: &mut UnitsByKind,
    at: TurnCycles,
    until: Cycle,
) -> Result<(), AllocError>
    requires turns { InTurnsAt machine.now at kinds.old traffic.old.links }
    requires order { at.cores_at ≤ until }
    requires early { until ≤ 10 ^ 12 }
    requires takes { AnswersTakeFor machine.now.config (until - at.channels_at) }
    ensures turns { OnOk result (
        InTurnsAt machine.now (cores_to until at) kinds.new traffic.new.links) }
    ensures count { length (all_units kinds.new) ≡ length (all_units kinds.old) }
{
    let span = Span {
        here: at.cores_at,
        there: at.channels_at,
        until,
    };
    traffic.sent.clear();
    go_on(machine, traffic, &mut kinds.cores, &span)?;
    take_up(
        &machine.config,
        &mut traffic.links,
        kinds.channels.first,
        &mut kinds.channels.words,
        &mut traffic.sent,
    )?;
    Ok(())
}

/// The least word, or a limit that comes sooner.
fn next_wake(words: &[Cycle], limit: Cycle) -> Cycle
    ensures within { result ≤ limit }
    ensures sleep { All (λ word. result ≤ word) words.now }
    ensures since { (cycle : ℕ) → cycle ≤ limit
        → All (λ word. cycle ≤ word) words.now → cycle ≤ result }
{
    least(words).min(limit)
}

/// Whether some unit wakes before a cycle.
fn wakes_before(words: &[Cycle], cycle: Cycle) -> bool
    ensures { result ≡ false → All (λ word. cycle ≤ word) words.now }
{
    first_below(words, cycle).is_some()
}

/// Where a machine in turns goes on from: the least wake word, or the limit if that comes sooner, where neither kind is
/// past it. After a turn of the cores none of them wakes before they stand, so the channels are asked first.
fn later(kinds: &UnitsByKind, at: TurnCycles, limit: Cycle) -> TurnCycles
    requires order { at.channels_at ≤ at.cores_at }
    requires within { at.cores_at ≤ limit }
    ensures turns { (machine : Machine) (links : InFlight)
        → InTurnsAt machine at kinds.now links → InTurnsAt machine result kinds.now links }
    ensures order { result.channels_at ≤ result.cores_at }
    ensures within { result.cores_at ≤ limit }
    ensures since { at.channels_at ≤ result.channels_at }
{
    let core_words = kinds.cores.words.as_slice();
    let channel_words = kinds.channels.words.as_slice();
    if wakes_before(channel_words, at.cores_at) {
        return at;
    }
    let core_wake = next_wake(core_words, limit);
    if core_wake < at.cores_at {
        return at;
    }
    let begin = next_wake(channel_words, core_wake);
    TurnCycles {
        cores_at: begin,
        channels_at: begin,
    }
}

/// A machine up to a limit, in turns: the channels go on as far as what the cores may still send allows, and then the
/// cores as far as what the channels may.
pub(crate) fn run_to(
    machine: &Machine,
    traffic: &mut Traffic,
    kinds: &mut UnitsByKind,
    from: Cycle,
    limit: Cycle,
) -> Result<(), AllocError>
    requires by_kind { AreByKind machine.now kinds.old }
    requires between_phases { AllBetweenPhases machine.now from kinds.old traffic.old.links }
    requires whole { length (all_units kinds.old) ≡ unit_count machine.now.config }
    requires order { from ≤ limit }
    requires early { limit ≤ 10 ^ 12 }
    ensures by_kind { OnOk result (AreByKind machine.now kinds.new) }
    ensures between_phases { OnOk result (
        AllBetweenPhases machine.now limit kinds.new traffic.new.links) }
    ensures count { length (all_units kinds.new) ≡ length (all_units kinds.old) }
{
    let request = least_request_latency(&machine.config);
    let way_back = least_way_back(&machine.config);
    let mut at = TurnCycles {
        cores_at: from,
        channels_at: from,
    };
    while at.channels_at < limit {
        at = later(kinds, at, limit);
        let until = at.cores_at + request.min(limit - at.cores_at);
        channels_turn(machine, traffic, kinds, at, until)?;
        at.channels_at = until;
        let until = at.channels_at + way_back.min(limit - at.channels_at);
        cores_turn(machine, traffic, kinds, at, until)?;
        at.cores_at = until;
    }
    Ok(())
}
