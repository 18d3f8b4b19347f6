//! How many entries issue in a cycle, and why no more.

ghost use Rattle.std.specs.Prelude.{◌≡◌, ℕ, ◌+◌, ◌^◌, ◌≤◌, List, length};
ghost use Rattle.std.specs.Option.{IfSome};
ghost use Rattle.sim_base.specs.declared.trace.Entry.{Entry};
ghost use Rattle.core_window.specs.OneCycle.{IsNextOrEnd, IsIssued};
ghost use Rattle.core_window.specs.Causes.{issue_count, cause_at};
ghost use Rattle.core_window.specs.Foreseen.{HasEntry, IsNextBehind, IsSeenFrom, WasSeen, IsKnownBy, StaysKnown};
ghost use Rattle.core_window.specs.Foreseen.{issue_limit, issue_count_of, cause_of};

use crate::address::address_place;
use address_map::digits::Digits;
use cpu_trace::entries::MemoryEntry;
use cpu_trace::trace::Trace;
use sim_base::config::Config;
use sim_base::place::Place;
use sim_base::trace::{Entry, Stop};

/// The number of the next Read or Write from `from` on, before which `before` of them stand, and the entry itself;
/// the length of the trace, where there is none.
fn next_or_end(trace: &Trace, from: u64, before: u64) -> MemoryEntry
    requires { from ≤ length trace.now }
    ensures next { IsNextOrEnd trace.now from result.number }
    ensures entry { HasEntry trace.now result.number result.entry }
{
    match trace.next_memory_near(from, before) {
        Some(next) => next,
        None => MemoryEntry {
            number: trace.len(),
            entry: Entry::Plain,
        },
    }
}

/// The numbers of the next two memory entries, or the length of the trace, and these entries, with the place where the
/// first lies.
#[derive(Clone, Copy)]
pub struct EntriesAhead {
    pub first_at: u64,
    pub entry: Entry,
    pub place: Place,
    pub second_at: u64,
    pub second: Entry,
}

/// The memory entry behind the one of this number, before which `before` of them stand; the length of the trace, where
/// there is none.
fn entry_behind(trace: &Trace, number: u64, before: u64) -> MemoryEntry
    requires { number ≤ length trace.now }
    ensures inside { IsNextBehind trace.now number result.number }
    ensures none { length trace.now ≤ number → result.number ≡ length trace.now }
    ensures entry { HasEntry trace.now result.number result.entry }
{
    let len = trace.len();
    if number < len {
        next_or_end(trace, number + 1, before.saturating_add(1))
    } else {
        MemoryEntry {
            number: len,
            entry: Entry::Plain,
        }
    }
}

/// The next two memory entries, of which the first is known. `before` of them stand before it.
#[tactic(auto, using(crate::proofs::Foreseeing::seen_from))]
pub fn ahead_of(digits: &Digits, trace: &Trace, first: MemoryEntry, before: u64) -> EntriesAhead
    requires { first.number ≤ length trace.now }
    ensures seen { (from : ℕ) → IsNextOrEnd trace.now from first.number
        → HasEntry trace.now first.number first.entry → IsSeenFrom trace.now from result }
    ensures known { IsKnownBy digits.now trace.now result }
{
    let second = entry_behind(trace, first.number, before);
    EntriesAhead {
        first_at: first.number,
        entry: first.entry,
        place: address_place(digits, first.entry),
        second_at: second.number,
        second: second.entry,
    }
}

/// The second of two memory entries becomes the first, and the one behind it is looked for. `before` of them stand
/// before it.
#[tactic(auto, using(crate::proofs::Foreseeing::seen_from))]
pub fn go_to_second(digits: &Digits, trace: &Trace, ahead: &mut EntriesAhead, before: u64)
    requires { ahead.old.second_at ≤ length trace.now }
    ensures seen { (from : ℕ) → IsNextOrEnd trace.now from ahead.old.second_at
        → HasEntry trace.now ahead.old.second_at ahead.old.second
        → IsSeenFrom trace.now from ahead.new }
    ensures known { IsKnownBy digits.now trace.now ahead.new }
{
    let next = entry_behind(trace, ahead.second_at, before);
    ahead.first_at = ahead.second_at;
    ahead.entry = ahead.second;
    ahead.place = address_place(digits, ahead.entry);
    ahead.second_at = next.number;
    ahead.second = next.entry;
}

/// Looks for the next two memory entries from a number on, where the first of those found earlier may have issued, and
/// the second has not. `before` of them stand before that number.
#[tactic(auto, using(crate::proofs::Foreseeing::seen_still))]
pub fn look_ahead(
    digits: &Digits,
    trace: &Trace,
    ahead: &mut EntriesAhead,
    number: u64,
    before: u64,
)
    requires seen { WasSeen trace.now number ahead.old }
    requires within { number ≤ ahead.old.second_at }
    requires room { ahead.old.second_at ≤ length trace.now }
    requires second { HasEntry trace.now ahead.old.second_at ahead.old.second }
    ensures seen { IsSeenFrom trace.now number ahead.new }
    ensures known { StaysKnown digits.now trace.now ahead.old ahead.new }
{
    if ahead.first_at < number {
        go_to_second(digits, trace, ahead, before);
    }
}

/// The next two memory entries from a number on, before which `before` of them stand.
pub fn next_two(digits: &Digits, trace: &Trace, from: u64, before: u64) -> EntriesAhead
    requires { from ≤ length trace.now }
    ensures seen { IsSeenFrom trace.now from result }
    ensures known { IsKnownBy digits.now trace.now result }
{
    ahead_of(digits, trace, next_or_end(trace, from, before), before)
}

/// How many entries issue, and why no more.
#[derive(Clone, Copy)]
pub struct Issue {
    pub count: u16,
    pub why: Stop,
}

/// How far a core is in its trace: how long that is, the number of the next entry that issues, and how many entries
/// were retired.
#[derive(Clone, Copy)]
pub struct TracePosition {
    pub len: u64,
    pub number: u64,
    pub retired_by_end: u64,
}

/// Why no more than this number of entries issue.
pub fn cause_at(config: &Config, position: TracePosition, second_at: u64, count: u16) -> Stop
    requires { position.number ≤ 2 ^ 62 }
    ensures { result ≡ cause_at config.now.width config.now.window
        position.len position.number position.retired_by_end second_at count }
{
    let next = position.number + u64::from(count);
    if next == position.len {
        Stop::End
    } else if count == config.width {
        Stop::Width
    } else if next.saturating_sub(position.retired_by_end) == u64::from(config.window) {
        Stop::Window
    } else if next == second_at {
        Stop::Memory
    } else {
        Stop::Credit
    }
}

/// How many entries issue.
fn count_of(config: &Config, position: TracePosition, ahead: &EntriesAhead, lacks: bool) -> u16
    ensures { result ≡ issue_count config.now.width config.now.window
        position.number position.retired_by_end ahead.now.first_at ahead.now.second_at lacks }
{
    let number = position.number;
    let room = u64::from(config.window).saturating_sub(number.saturating_sub(
        position.retired_by_end,
    ));
    let most = u64::from(config.width)
        .min(room)
        .min(ahead.second_at.saturating_sub(number));
    let count = if lacks {
        most.min(ahead.first_at.saturating_sub(number))
    } else {
        most
    };
    count as u16
}

/// The number up to which entries may issue by the width, the window and the end of the trace.
pub fn most_issued(config: &Config, position: TracePosition) -> u64
    requires { position.number ≤ 2 ^ 62 }
    ensures { result ≡ issue_limit config.now position.number position.retired_by_end position.len }
{
    let number = position.number;
    let room = u64::from(config.window).saturating_sub(number.saturating_sub(
        position.retired_by_end,
    ));
    (number + u64::from(config.width).min(room)).min(position.len)
}

/// How many entries issue, and why no more: the memory entries ahead are known, and whether the core lacks a credit for
/// the first of them, if this is near enough to issue.
pub fn issue_of(
    config: &Config,
    position: TracePosition,
    ahead: &EntriesAhead,
    lacks: bool,
) -> Issue
    requires { position.number ≤ 2 ^ 62 }
    ensures why { result.why ≡ cause_of config.now
        position.len position.number position.retired_by_end ahead.now result.count }
    ensures count { result.count ≡ issue_count_of config.now
        position.number position.retired_by_end ahead.now lacks }
{
    let count = count_of(config, position, ahead, lacks);
    let why = cause_at(config, position, ahead.second_at, count);
    Issue { count, why }
}

/// The first of the memory entries ahead, if it is one of those that issue.
#[tactic(auto, using(crate::proofs::Working::issued_seen, crate::proofs::Working::none_seen))]
pub fn entry_issued(number: u64, ahead: &EntriesAhead, count: u16) -> Option<MemoryEntry>
    requires { number ≤ 2 ^ 62 }
    ensures issued { (trace : List Entry) → IsSeenFrom trace number ahead.now
        → number + count ≤ ahead.now.second_at → number ≤ length trace
        → IsIssued trace number count result }
    ensures at { IfSome result (λ e. e.number ≡ ahead.now.first_at) }
    ensures entry { IfSome result (λ e. e.entry ≡ ahead.now.entry) }
{
    if ahead.first_at < number + u64::from(count) {
        Some(MemoryEntry {
            number: ahead.first_at,
            entry: ahead.entry,
        })
    } else {
        None
    }
}
