//! What a cycle of one core and of one channel adds to their statistics.

ghost use Rattle.std.specs.Prelude.{◌≡◌, ◌+◌, ◌<◌, ◌≤◌, ◌^◌, length, count_by, slice_get, IfOk};
ghost use Rattle.sim_base.specs.Counts.{replied_entry, issue_cycle, wait_of, is_stop, one_if};
ghost use Rattle.sim_base.specs.History.{below, retired_before, issued_before};
ghost use Rattle.statistics.specs.Cores.{is_reply_in, replies_in, waited, core_cycle_with};
ghost use Rattle.statistics.specs.Channels.{draining_of, issues, issues_hit};
ghost use Rattle.one_clock.specs.Steps.{accesses};
ghost use Rattle.one_clock.specs.Counts.{channel_counts, no_channel_counts};

use cpu_trace::trace::Trace;
use plain_steps::cores::{entry_of, finish_now};
use plain_steps::hits::is_command_hit;
use plain_steps::scheduling::{self, ChannelStep};
use sim_base::command::{Command, IssuedCommand, Kind};
use sim_base::config::Config;
use sim_base::history::CoreStep;
use sim_base::message::{Access, Message, Payload, Request};
use sim_base::trace::{Entry, Stop};
use statistics::channels::ChannelStats;
use statistics::cores::CoreStats;
use std::alloc::{AllocError, Global};

fn one_where(holds: bool) -> u64
    ensures { result ≡ one_if holds }
{
    if holds { 1 } else { 0 }
}

/// Whether the entry of a number reads memory, or whether it writes it.
fn does_access(trace: &Trace, number: u64, access: Access) -> bool
    ensures { result ≡ accesses access (slice_get trace.now number) }
{
    match (access, entry_of(trace, number)) {
        (Access::Read, Some(Entry::Read(_))) | (Access::Write, Some(Entry::Write(_))) => true,
        _ => false,
    }
}

/// The Reads, or the Writes, among `count` entries from `first` on.
fn access_count(trace: &Trace, first: u64, count: u16, access: Access) -> usize
    requires { first + count < 2 ^ 64 }
    ensures { result ≡ count_by (λ k. accesses access (slice_get trace.now (first + k)))
        (below count) }
{
    (0..count)
        .filter(move |k| does_access(trace, first + u64::from(*k), access))
        .count()
}

fn entry_replied(payload: Payload) -> Option<u64>
    ensures { result ≡ replied_entry payload }
{
    match payload {
        Payload::Reply(entry) => Some(entry),
        Payload::Request(_) | Payload::Credit { .. } => None,
    }
}

fn is_reply_now(now: u64, m: Message) -> bool
    ensures { result ≡ is_reply_in now m }
{
    entry_replied(m.payload).is_some() && m.arrival == now
}

/// The replies that arrive in a cycle.
#[tactic(auto, unfolding(statistics::specs::Cores::replies_in))]
pub fn replies_now(alloc: Global, now: u64, inbox: &[Message]) -> Result<Vec<Message>, AllocError>
    ensures value { IfOk result (λ v. v.items ≡ replies_in now inbox.now) }
    ensures inbox_fits { length inbox.now < 2 ^ 64 }
{
    inbox
        .iter()
        .copied()
        .filter(move |m| is_reply_now(now, *m))
        .collect(alloc)
}

/// The cycle in which an entry issues; the number of cycles, if it does not.
#[tactic(auto, using(crate::proofs::Counted::issue_cycle_found, crate::proofs::Counted::issue_cycle_none, crate::proofs::Counted::issued_none, crate::proofs::Counted::issued_more))]
pub(crate) fn cycle_of_issue(past_steps: &[CoreStep], entry: u64) -> u64
    requires { length past_steps.now < 2 ^ 40 }
    ensures { result ≡ issue_cycle past_steps.now entry }
{
    let mut issued = 0u64;
    let mut cycle = 0u64;
    for row in past_steps {
        issued += u64::from(row.issued);
        if entry < issued {
            return cycle;
        }
        cycle += 1;
    }
    cycle
}

/// How long a reply's entry waited for it.
fn wait(past_steps: &[CoreStep], m: Message) -> u64
    requires { length past_steps.now < 2 ^ 40 }
    ensures { result ≡ wait_of past_steps.now m.arrival (replied_entry m.payload) }
{
    match entry_replied(m.payload) {
        Some(entry) => m.arrival.saturating_sub(cycle_of_issue(past_steps, entry)),
        None => 0,
    }
}

/// How long the entries of these replies waited for them.
#[tactic(auto, using(crate::proofs::Counted::waited_none, crate::proofs::Counted::waited_more))]
fn total_wait(past_steps: &[CoreStep], arrived: &[Message]) -> u128
    requires { length past_steps.now < 2 ^ 40 }
    ensures { result ≡ waited past_steps.now arrived.now }
{
    let mut total = 0u128;
    for m in arrived {
        total += u128::from(wait(past_steps, *m));
    }
    total
}

fn is_same_stop(a: Stop, b: Stop) -> bool
    ensures { result ≡ is_stop a b }
{
    match (a, b) {
        (Stop::End, Stop::End)
        | (Stop::Width, Stop::Width)
        | (Stop::Window, Stop::Window)
        | (Stop::Memory, Stop::Memory)
        | (Stop::Credit, Stop::Credit) => true,
        _ => false,
    }
}

/// The statistics of the cycle after these steps, in which these replies arrive, and a core with these counts does
/// this and stops for this cause.
#[tactic(auto, unfolding(statistics::specs::Cores::core_cycle_with, statistics::specs::Cores::finish_in), using(crate::proofs::Counted::reads_are, crate::proofs::Counted::writes_are))]
pub fn core_cycle_stats(
    trace: &Trace,
    past_steps: &[CoreStep],
    arrived: &[Message],
    counts: &CoreStats,
    step: (CoreStep, Stop),
) -> CoreStats
    requires few { length past_steps.now < 2 ^ 40 }
    requires issued { counts.now.issued ≡ issued_before past_steps.now }
    requires retired { counts.now.retired ≡ retired_before past_steps.now }
    requires within { counts.now.issued ≤ length trace.now }
    ensures value { result ≡ core_cycle_with trace.now past_steps.now step.0 step.1 arrived.now }
    ensures trace_fits { length trace.now ≤ 2 ^ 62 }
{
    let (done, why) = step;
    let now = past_steps.len() as u64;
    let entries = trace.len();
    CoreStats {
        issued: u64::from(done.issued),
        retired: u64::from(done.retired),
        reads: access_count(trace, counts.issued, done.issued, Access::Read) as u64,
        writes: access_count(trace, counts.issued, done.issued, Access::Write) as u64,
        replies: arrived.len() as u64,
        read_latency: total_wait(past_steps, arrived),
        stop_end: one_where(is_same_stop(Stop::End, why)),
        stop_width: one_where(is_same_stop(Stop::Width, why)),
        stop_window: one_where(is_same_stop(Stop::Window, why)),
        stop_memory: one_where(is_same_stop(Stop::Memory, why)),
        stop_credit: one_where(is_same_stop(Stop::Credit, why)),
        finish: finish_now(entries, now, counts.retired, done.retired),
    }
}

fn does_issue(kind: Kind, command: Option<Command>) -> bool
    ensures { result ≡ issues kind command }
{
    match command {
        Some(command) => command.kind().is_kind(kind),
        None => false,
    }
}

/// Whether the channel issues a column command for a request that no ACT was issued for.
fn does_hit(history: &[IssuedCommand], command: Option<Command>) -> bool
    ensures { result ≡ issues_hit history.now command }
{
    match command {
        Some(command) => is_command_hit(history, command),
        None => false,
    }
}

fn draining_count(s: &Config, draining: bool) -> Option<u64>
    ensures { result ≡ draining_of s.now (one_if draining) }
{
    if 0 < s.write_high {
        Some(one_where(draining))
    } else {
        None
    }
}

/// The statistics of a channel in no cycle.
pub fn no_channel_stats(s: &Config) -> ChannelStats
    ensures { result ≡ no_channel_counts s.now }
{
    let draining = if 0 < s.write_high { Some(0) } else { None };
    ChannelStats {
        draining,
        ..ChannelStats::new()
    }
}

/// The statistics of the cycle `now`, after these commands and with these requests queued, in which a channel does
/// this.
#[tactic(auto, unfolding(statistics::specs::Channels::channel_cycle_with))]
pub fn channel_cycle_stats(
    s: &Config,
    history: &[IssuedCommand],
    now: u64,
    queue: &[Request],
    step: ChannelStep,
) -> ChannelStats
    requires early { now < 2 ^ 41 }
    ensures value { result ≡ channel_counts s.now history.now now (length queue.now) step }
    ensures queue_fits { result.queued_max < 2 ^ 64 }
{
    let queued = queue.len();
    let due = scheduling::lowest_rank_due(s, history, now);
    ChannelStats {
        act: one_where(does_issue(Kind::Act, step.command)),
        rd: one_where(does_issue(Kind::Rd, step.command)),
        wr: one_where(does_issue(Kind::Wr, step.command)),
        pre: one_where(does_issue(Kind::Pre, step.command)),
        prea: one_where(does_issue(Kind::Prea, step.command)),
        refs: one_where(does_issue(Kind::Ref, step.command)),
        hits: one_where(does_hit(history, step.command)),
        queued: queued as u128,
        queued_max: queued as u64,
        idle: one_where(queued == 0),
        refreshing: one_where(due.is_some()),
        draining: draining_count(s, step.draining),
    }
}
