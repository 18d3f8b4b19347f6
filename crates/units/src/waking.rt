//! Units that stand at cycles of their own, taken over a span: only those that wake in it are touched.

ghost use Rattle.std.specs.Prelude.{◌≡◌, ◌<◌, ◌≤◌, ◌^◌, ◌+◌, ℕ, [], length, replicate, IfOk, OnOk, slice_index_or};
ghost use Rattle.units.specs.Parts.{StandAt};
ghost use Rattle.units.specs.Units.{unit_count};
ghost use Rattle.units.specs.GoingOn.{HoldInboxesOver, GrowsBy, WaitAllAt, WaitAllPast, links_taken_by, sent_over};
ghost use Rattle.units.specs.Wakes.{AreTimedUnits, WaitAll};

use crate::lane_scan::first_below;
use crate::machine::Machine;
use crate::part::UnitState;
use crate::timed_unit::{Span, TimedUnit, Traffic};
use sim_base::message::{Cycle, Message};
use std::alloc::{AllocError, Global};

/// Units at consecutive places of a machine, each with its wake word: a cycle before which it sends nothing, and
/// nothing arrives at it.
#[derive(Drop)]
pub struct UnitRange {
    /// The place of the first unit.
    pub first: usize,
    pub units: Vec<TimedUnit>,
    pub words: Vec<Cycle>,
}

impl UnitRange {
    /// Units at places from `first` on, each with the cycle `now`, where all stand, as its word.
    pub fn awake(
        alloc: Global,
        first: usize,
        units: Vec<TimedUnit>,
        now: Cycle,
    ) -> Result<UnitRange, AllocError>
        ensures first { IfOk result (λ range. range.first ≡ first) }
        ensures units { IfOk result (λ range. range.units ≡ units) }
        ensures words { IfOk result (λ range.
            range.words.items ≡ replicate (length units.items) now) }
    {
        let words = vec![in alloc; now; units.len()]?;
        Ok(UnitRange {
            first,
            units,
            words,
        })
    }
}

/// The least number of words of which it is worth to test several at once.
const MANY_WORDS: usize = 16;

/// The first place from `from` on whose word is before `until`, or the number of words where there is none. The words
/// are tested one by one.
#[inline(always)]
fn next_of_few(words: &[Cycle], from: usize, until: Cycle) -> usize
    requires { from ≤ length words.now }
    ensures since { from ≤ result }
    ensures within { result ≤ length words.now }
    ensures passed { (k : ℕ) → from ≤ k → k < result → until ≤ slice_index_or words.now k 0 }
    ensures wakes { result < length words.now → slice_index_or words.now result 0 < until }
{
    let mut place = from;
    'search: while place < words.len() && until <= words[place] {
        place += 1;
    }
    place
}

/// The first place from `from` on whose word is before `until`, or the number of words where there is none.
#[inline(always)]
fn next_waking(words: &[Cycle], from: usize, until: Cycle) -> usize
    requires { from ≤ length words.now }
    ensures since { from ≤ result }
    ensures within { result ≤ length words.now }
    ensures passed { (k : ℕ) → from ≤ k → k < result → until ≤ slice_index_or words.now k 0 }
    ensures wakes { result < length words.now → slice_index_or words.now result 0 < until }
{
    if words.len() - from < MANY_WORDS {
        return next_of_few(words, from, until);
    }
    match first_below(&words[from..], until) {
        Some(place) => from + place,
        None => words.len(),
    }
}

/// Takes units over a span: those whose word is before its end are run, the others are left as they are.
pub fn go_on(
    machine: &Machine,
    traffic: &mut Traffic,
    range: &mut UnitRange,
    span: &Span,
) -> Result<(), AllocError>
    requires within { range.old.first + length range.old.units.items
        ≤ unit_count machine.now.config }
    requires words { length range.old.words.items ≡ length range.old.units.items }
    requires order { span.now.here ≤ span.now.until }
    requires early { span.now.until ≤ 10 ^ 12 }
    requires wait { WaitAllAt machine.now span.now range.old }
    requires holds_inbox { HoldInboxesOver machine.now span.now range.old traffic.old.links }
    requires sent { traffic.old.sent.items ≡ [] }
    ensures first { range.new.first ≡ range.old.first }
    ensures count { length range.new.units.items ≡ length range.old.units.items }
    ensures words { length range.new.words.items ≡ length range.old.words.items }
    ensures wait { OnOk result (WaitAllPast machine.now span.now range.new) }
    ensures links { OnOk result (
        traffic.new.links ≡ links_taken_by machine.now span.now range.old traffic.old.links) }
    ensures sent { OnOk result (
        traffic.new.sent.items ≡ sent_over machine.now span.now range.old) }
{
    let first = range.first;
    let mut place = next_waking(&range.words, 0, span.until);
    while place < range.units.len() {
        let word = range.units[place].woken(machine, traffic, first + place, span)?;
        range.words[place] = word;
        place = next_waking(&range.words, place + 1, span.until);
    }
    Ok(())
}

/// Units brought up to the cycle where the machine stands, behind those of a list, which come before them.
pub fn bring_up(
    machine: &Machine,
    sent: &mut Vec<Message>,
    range: UnitRange,
    now: Cycle,
    parts: &mut Vec<UnitState>,
) -> Result<(), AllocError>
    requires within { length parts.old.items + length range.units.items
        ≤ unit_count machine.now.config }
    requires words { length range.words.items ≡ length range.units.items }
    requires early { now ≤ 10 ^ 12 }
    requires wait { WaitAll machine.now (length parts.old.items) now now
        range.units.items range.words.items }
    requires stand { StandAt machine.now now parts.old.items }
    ensures count { OnOk result (
        GrowsBy (length range.units.items) parts.old.items parts.new.items) }
    ensures stand { OnOk result (StandAt machine.now now parts.new.items) }
{
    let UnitRange { units, .. } = range;
    for unit in units {
        let place = parts.len();
        parts.push(unit.brought_up(machine, sent, place, now)?)?;
    }
    Ok(())
}

/// Units, each where the machine stands.
pub fn timed_units(
    alloc: Global,
    parts: Vec<UnitState>,
    now: Cycle,
) -> Result<Vec<TimedUnit>, AllocError>
    ensures { IfOk result (λ units. AreTimedUnits now parts.items units.items) }
{
    let mut units = Vec::with_capacity(alloc, parts.len())?;
    for part in parts {
        units.push(TimedUnit { part, at: now })?;
    }
    Ok(units)
}
