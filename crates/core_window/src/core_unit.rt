//! A core.

ghost use Rattle.std.specs.Prelude.{[], IsTrue, IsNone, ◌↔◌, ◌/◌, ◌%◌, ◌≡◌, ◌^◌, ◌+◌, ◌*◌, ◌-◌, ◌≤◌, ◌<◌, ℕ, Some, length, slice_get, min, replicate, OnOk, IfOk};
ghost use Rattle.std.specs.Option.{IfSome};
ghost use Rattle.sim_base.specs.declared.history.CoreStep.{CoreStep};
ghost use Rattle.sim_base.specs.declared.message.Message.{Message};
ghost use Rattle.sim_base.specs.declared.config.Config.{Config};
ghost use Rattle.sim_base.specs.declared.trace.Entry.{Entry};
ghost use Rattle.address_map.specs.Shifts.{IsDigits};
ghost use Rattle.statistics.specs.declared.final_state.Credits.{Credits};
ghost use Rattle.core_window.specs.Ahead.{IsPlaced, IsKnown};
ghost use Rattle.core_window.specs.Arriving.{IsByAge, all_arriving};
ghost use Rattle.core_window.specs.Stalled.{HasTakenUpTo, StaysBehind, FindsReply};
ghost use Rattle.core_window.specs.OneCycle.{lacks_by, IsSeen};
ghost use Rattle.core_window.specs.Fit.{CanRun, RunsOnto};
ghost use Rattle.core_window.specs.Stands.{StandsFor};
ghost use Rattle.core_window.specs.Inside.{IsStanding, IsReceiving, GoesOnWithoutSending};
ghost use Rattle.core_window.specs.Rests.{HasSomePast, MayRest, rested};
ghost use Rattle.core_window.specs.Silence.{KeepsSilent};
ghost use Rattle.core_window.specs.Steady.{steady_view, IsSteady};
ghost use Rattle.core_window.specs.Replies.{MayTakeReply, with_reply};
ghost use Rattle.core_window.specs.Outstanding.{IsByNumber};
ghost use Rattle.core_window.specs.Waiting.{waiting};
ghost use Rattle.core_window.specs.Latencies.{request_latencies};
ghost use Rattle.core_window.specs.Counting.{IsCreditedAt};

use crate::counts::{count_cycle, count_cycles, count_memory};
use crate::flow::{Flow, WindowNumbers, cycles_within, flow_of};
use crate::issue::{
    EntriesAhead, TracePosition, entry_issued, issue_of, look_ahead, most_issued, next_two,
};
use crate::issue_effects::{RequestingCore, request_latencies, send, spend, wait_for};
use crate::outstanding::OutstandingReads;
use crate::receive::{Arriving, Reply, add_credit_at, channel_of, count_reply};
use crate::retire::{is_next_done, is_stalled, retire_count};
use address_map::digits::Digits;
use cpu_trace::entries::MemoryEntry;
use cpu_trace::trace::Trace;
use sim_base::config::Config;
use sim_base::history::CoreStep;
use sim_base::message::{Access, CoreId, Cycle, LinkId, Message, Payload};
use sim_base::trace::{Entry, Stop};
use statistics::cores::CoreStats;
use statistics::final_state::Credits;
use std::alloc::{AllocError, Global};

/// A core, with all that it knows of what it did.
#[derive(Drop)]
pub struct Core {
    config: Config,
    /// Where the fields of an address stand.
    digits: Digits,
    id: CoreId,
    trace: Trace,
    cycle: Cycle,
    outstanding: OutstandingReads,
    credits: Vec<Credits>,
    /// How long a request travels to each channel, in cycles.
    latencies: Vec<u32>,
    stats: CoreStats,
    /// The next two memory entries that the core issues.
    ahead: EntriesAhead,
    ghost in_order: { IsDigits config digits },
    ghost travel: { latencies.items ≡ request_latencies config id },
    ghost seen: { IsSeen trace stats.issued ahead.first_at ahead.second_at ahead.entry },
    ghost known: { IsKnown config trace ahead },
}

/// What a core does in a cycle, why it stops, and the memory entry that it issues, if it issues one.
#[derive(Clone, Copy)]
pub(crate) struct CycleWork {
    pub core_step: CoreStep,
    pub why: Stop,
    pub memory: Option<MemoryEntry>,
}

/// Whether there is no credit for the first of the next two memory entries.
fn is_without_credit(credits: &[Credits], ahead: &EntriesAhead) -> bool
    requires { ahead.now.place.channel < length credits.now }
    ensures { (s : Config) (held : ℕ → Credits) → IsPlaced s ahead.now.entry ahead.now.place
        → ((channel : ℕ) → channel < s.channels
        → slice_get credits.now channel ≡ Some (held channel))
        → result ≡ lacks_by s held ahead.now.entry }
{
    match ahead.entry {
        Entry::Read(_) => credits[ahead.place.channel as usize].read == 0,
        Entry::Write(_) => credits[ahead.place.channel as usize].write == 0,
        Entry::Plain => false,
    }
}

/// How many memory entries were issued, where they are fewer than 2^64.
fn memory_issued(stats: &CoreStats) -> u64
    ensures { result ≡ min (stats.now.reads + stats.now.writes) (2 ^ 64 - 1) }
{
    stats.reads.saturating_add(stats.writes)
}

/// The credits of a core for each channel, of which it has spent none.
fn all_credits(alloc: Global, config: &Config) -> Result<Vec<Credits>, AllocError>
    ensures { IfOk result (λ all. all.items ≡ replicate config.now.channels
        (record { read = config.now.read_credits; write = config.now.write_credits })) }
{
    let credits = Credits {
        read: u64::from(config.read_credits),
        write: u64::from(config.write_credits),
    };
    vec![in alloc; credits; usize::from(config.channels)]
}

impl Core {
    ghost use Rattle.core_window.specs.CoreViews.{view_of};
    ghost use Rattle.core_window.specs.Work.{HeadWaits, IsFull, RestsForCredit, StaysBelowFirst, StaysBelowSecond, HasMemoryAhead, DoesWork};
    ghost use Rattle.core_window.specs.Work.{IsSteadyFlow, AdvancesBy, AdvancesTo, GoesOnTo, with_credits, TakesIn, ActsNext};

    /// What the core does in the next cycle.
    #[inline(always)]
    fn cycle_work(&self) -> CycleWork
        requires { IsStanding (view_of self.now) }
        ensures does { DoesWork (view_of self.now) result }
        ensures entry { IfSome result.memory (λ e. e.entry ≡ self.now.ahead.entry) }
        ensures within { StaysBelowSecond self.now result.core_step.issued }
    {
        let len = self.trace.len();
        let number = self.stats.issued;
        let width = self.config.width;
        let waiting = self.outstanding.as_slice();
        let retired = retire_count(width, waiting, number, self.stats.retired);
        let retired_by_end = self.stats.retired + u64::from(retired);
        let position = TracePosition {
            len,
            number,
            retired_by_end,
        };
        let near = most_issued(&self.config, position);
        let lacks = self.ahead.first_at < near && is_without_credit(&self.credits, &self.ahead);
        let issue = issue_of(&self.config, position, &self.ahead, lacks);
        let memory = entry_issued(number, &self.ahead, issue.count);
        CycleWork {
            core_step: CoreStep {
                retired,
                issued: issue.count,
            },
            why: issue.why,
            memory,
        }
    }

    /// Goes on by one cycle, in which no further message comes, and does this work in it.
    fn step(&mut self, cycle_work: CycleWork, sent: &mut Vec<Message>) -> Result<(), AllocError>
        requires stands { IsStanding (view_of self.old) }
        requires cycle_work { DoesWork (view_of self.old) cycle_work }
        requires entry { IfSome cycle_work.memory (λ e. e.entry ≡ self.old.ahead.entry) }
        requires within { StaysBelowSecond self.old cycle_work.core_step.issued }
        requires early { self.old.cycle < 2 ^ 62 }
        ensures cycle { OnOk result (self.new.cycle ≡ self.old.cycle + 1) }
        ensures advances { OnOk result
            (AdvancesBy 1 self.old sent.old.items self.new sent.new.items) }
    {
        let len = self.trace.len();
        count_memory(&mut self.stats, cycle_work.memory);
        wait_for(&mut self.outstanding, cycle_work.memory, self.cycle)?;
        spend(&mut self.credits, &self.ahead.place, cycle_work.memory);
        let sender = RequestingCore {
            config: &self.config,
            latencies: &self.latencies,
            core: self.id,
            cycle: self.cycle,
        };
        send(sent, &sender, &self.ahead.place, cycle_work.memory)?;
        count_cycle(
            &mut self.stats,
            cycle_work.core_step,
            cycle_work.why,
            len,
            self.cycle,
        );
        self.cycle += 1;
        look_ahead(
            &self.digits,
            &self.trace,
            &mut self.ahead,
            self.stats.issued,
            memory_issued(&self.stats),
        );
        Ok(())
    }

    /// Goes on by some cycles, in each of which the core does the same.
    fn repeat(&mut self, core_step: CoreStep, why: Stop, cycles: u64)
        requires stands { IsStanding (view_of self.old) }
        requires steady { IsSteady (view_of self.old) cycles core_step why }
        requires some { 0 < cycles }
        requires within { StaysBelowFirst self.old (cycles * core_step.issued) }
        requires early { self.old.cycle + cycles < 2 ^ 62 }
        ensures { view_of self.new ≡ steady_view (view_of self.old) core_step why cycles }
    {
        prove!(self.trace.len() <= 1 << 62);
        count_cycles(&mut self.stats, core_step, why, cycles);
        self.cycle += cycles;
    }

    /// A reply comes in a cycle: its Read no longer waits.
    fn receive_reply(&mut self, entry: u64, arrival: Cycle)
        requires room { MayTakeReply (view_of self.old) }
        requires order { IsByNumber (waiting self.old.outstanding) }
        ensures { view_of self.new ≡ with_reply (view_of self.old) entry arrival }
    {
        if let Some(read) = self.outstanding.take(entry) {
            count_reply(&mut self.stats, arrival.saturating_sub(read.issued));
        }
    }

    /// A credit comes.
    fn receive_credit(&mut self, link: LinkId, access: Access)
        requires { length self.old.credits.items ≡ self.old.config.channels }
        ensures rest { view_of self.new ≡ with_credits (view_of self.old) self.new.credits.items }
        ensures len { length self.new.credits.items ≡ length self.old.credits.items }
        ensures credits { let channel = link / 3 % self.old.config.channels in
            IsCreditedAt channel access self.old.credits.items self.new.credits.items }
    {
        let channel = channel_of(&self.config, link);
        add_credit_at(&mut self.credits, channel as usize, access);
    }

    /// Takes a message of the cycle at which the core stands.
    fn receive(&mut self, message: Message)
        requires stands { IsReceiving (view_of self.old) message }
        requires early { self.old.cycle < 2 ^ 62 }
        ensures { TakesIn (view_of self.old) message (view_of self.new) }
    {
        match message.payload {
            Payload::Reply(entry) => self.receive_reply(entry, self.cycle),
            Payload::Credit { access, .. } => self.receive_credit(message.link, access),
            Payload::Request(_) => (),
        }
    }

    /// The cycles, at most `most` of them, in which the core issues its width of Plain entries and does the same in
    /// each.
    fn flow(&self, most: u64) -> Flow
        requires { IsStanding (view_of self.now) }
        ensures steady { IsSteadyFlow (view_of self.now) result }
        ensures within { StaysBelowFirst self.now (result.cycles * self.now.config.width) }
        ensures most { result.cycles ≤ most }
    {
        let issued = self.stats.issued;
        if self.ahead.first_at.saturating_sub(issued) < u64::from(self.config.width) {
            return Flow {
                retired: 0,
                cycles: 0,
            };
        }
        let last = self.trace.len().saturating_sub(1);
        let numbers = WindowNumbers {
            width: self.config.width,
            window: self.config.window,
            issued,
            retired: self.stats.retired,
            plain: self.ahead.first_at.min(last).saturating_sub(issued),
        };
        flow_of(&numbers, self.outstanding.as_slice(), most)
    }

    /// Goes on by one cycle, or up to a given cycle if the core does nothing until a message comes.
    fn rest_or_step(&mut self, until: Cycle, sent: &mut Vec<Message>) -> Result<(), AllocError>
        requires stands { IsStanding (view_of self.old) }
        requires order { self.old.cycle < until }
        requires early { until < 2 ^ 62 }
        ensures { OnOk result (GoesOnTo until self.old sent.old.items self.new sent.new.items) }
    {
        let cycle_work = self.cycle_work();
        if cycle_work.core_step.retired == 0 && cycle_work.core_step.issued == 0 {
            self.repeat(cycle_work.core_step, cycle_work.why, until - self.cycle);
            Ok(())
        } else {
            self.step(cycle_work, sent)
        }
    }

    /// Whether its window is full.
    fn is_full(&self) -> bool
        requires { self.now.stats.retired ≤ self.now.stats.issued }
        ensures { IsTrue result ↔ IsFull (view_of self.now) }
    {
        u64::from(self.config.window) <= self.stats.issued - self.stats.retired
    }

    /// Whether the first entry of its full window waits, so that the core does nothing until a message comes.
    fn is_stalled(&self) -> bool
        requires { self.now.stats.retired ≤ self.now.stats.issued }
        ensures undone { IsTrue result → HeadWaits (view_of self.now) }
        ensures full { IsTrue result → IsFull (view_of self.now) }
    {
        is_stalled(
            self.config.window,
            self.outstanding.as_slice(),
            self.stats.issued,
            self.stats.retired,
        )
    }

    /// Whether the first entry of the window waits for its reply, so that none retires.
    #[inline(always)]
    fn is_head_waiting(&self) -> bool
        ensures { IsTrue result → HeadWaits (view_of self.now) }
    {
        match self.outstanding.as_slice() {
            [read, ..] => read.entry <= self.stats.retired,
            [] => false,
        }
    }

    /// Whether the core does nothing until a message comes, since it has no credit for its next entry, where none
    /// retires and the window has room.
    #[inline(always)]
    fn is_short_of_credit(&self) -> bool
        requires stands { IsStanding (view_of self.now) }
        requires waits { HeadWaits (view_of self.now) }
        requires room { self.now.stats.issued - self.now.stats.retired < self.now.config.window }
        ensures { IsTrue result → RestsForCredit (view_of self.now) }
    {
        let ahead = &self.ahead;
        if self.stats.issued < ahead.first_at || ahead.second_at <= ahead.first_at {
            return false;
        }
        is_without_credit(&self.credits, ahead)
    }

    /// Goes on up to a cycle, where the first entry of its full window waits: it does nothing, and counts the cycles.
    fn rest(&mut self, until: Cycle)
        requires room { MayRest (view_of self.old) until }
        requires order { self.old.cycle ≤ until }
        ensures { view_of self.new ≡ rested (view_of self.old) until }
    {
        let cycles = until - self.cycle;
        if self.stats.issued == self.trace.len() {
            self.stats.stop_end += cycles;
        } else {
            self.stats.stop_window += cycles;
        }
        self.cycle = until;
    }

    /// Goes on by the cycles, at most up to a cycle, in which the core issues its width of Plain entries and does the
    /// same in each, if there are any.
    fn flow_on(&mut self, until: Cycle)
        requires stands { IsStanding (view_of self.old) }
        requires order { self.old.cycle < until }
        requires early { until < 2 ^ 62 }
        ensures { GoesOnWithoutSending until (view_of self.old) (view_of self.new) }
    {
        let flow = self.flow(until - self.cycle);
        if flow.cycles == 0 {
            return;
        }
        let core_step = CoreStep {
            retired: flow.retired,
            issued: self.config.width,
        };
        self.repeat(core_step, Stop::Width, flow.cycles);
    }

    /// Goes on by some cycles, at most up to a cycle.
    fn go_on(&mut self, until: Cycle, sent: &mut Vec<Message>) -> Result<(), AllocError>
        requires stands { IsStanding (view_of self.old) }
        requires order { self.old.cycle < until }
        requires early { until < 2 ^ 62 }
        ensures { OnOk result (GoesOnTo until self.old sent.old.items self.new sent.new.items) }
    {
        self.flow_on(until);
        if self.cycle == until {
            return Ok(());
        }
        self.rest_or_step(until, sent)
    }

    /// Goes on up to a cycle, if the first entry of its full window waits.
    fn rest_if_stalled(&mut self, until: Cycle)
        requires stands { IsStanding (view_of self.old) }
        requires order { self.old.cycle ≤ until }
        requires early { until < 2 ^ 62 }
        ensures { GoesOnWithoutSending until (view_of self.old) (view_of self.new) }
    {
        if self.cycle < until && self.is_stalled() {
            self.rest(until);
        }
    }

    /// Goes on up to a cycle, while no further message comes, stretch by stretch.
    fn work_on(&mut self, until: Cycle, sent: &mut Vec<Message>) -> Result<(), AllocError>
        requires stands { IsStanding (view_of self.old) }
        requires order { self.old.cycle ≤ until }
        requires early { until < 2 ^ 62 }
        ensures cycle { OnOk result (self.new.cycle ≡ until) }
        ensures advances { OnOk result
            (AdvancesTo until self.old sent.old.items self.new sent.new.items) }
    {
        'cycles: while self.cycle < until {
            self.go_on(until, sent)?;
            self.rest_if_stalled(until);
        }
        Ok(())
    }

    /// Goes on up to a cycle, while no further message comes.
    #[inline(always)]
    fn advance(&mut self, until: Cycle, sent: &mut Vec<Message>) -> Result<(), AllocError>
        requires stands { IsStanding (view_of self.old) }
        requires order { self.old.cycle ≤ until }
        requires early { until < 2 ^ 62 }
        ensures cycle { OnOk result (self.new.cycle ≡ until) }
        ensures advances { OnOk result
            (AdvancesTo until self.old sent.old.items self.new sent.new.items) }
    {
        if until <= self.cycle {
            return Ok(());
        }
        if !self.is_head_waiting() {
            return self.work_on(until, sent);
        }
        if self.is_full() {
            self.rest(until);
            return Ok(());
        }
        if self.is_short_of_credit() {
            let nothing = CoreStep {
                retired: 0,
                issued: 0,
            };
            self.repeat(nothing, Stop::Credit, until - self.cycle);
            return Ok(());
        }
        self.work_on(until, sent)
    }

    /// A core that has done nothing yet, with its trace. The only error is out of memory.
    pub fn start(
        alloc: Global,
        config: &Config,
        id: CoreId,
        trace: Trace,
    ) -> Result<Core, AllocError>
        ensures { IfOk result (λ core. StandsFor config.now id trace [] [] (view_of core)) }
    {
        prove!(trace.len() <= 1 << 62);
        let digits = Digits::of_config(config);
        let ahead = next_two(&digits, &trace, 0, 0);
        let outstanding = OutstandingReads::with_room(alloc, config.window as usize)?;
        let credits = all_credits(alloc, config)?;
        let latencies = request_latencies(alloc, config, id)?;
        Ok(Core {
            config: config.copy(alloc)?,
            digits,
            id,
            trace,
            cycle: 0,
            outstanding,
            credits,
            latencies,
            stats: CoreStats::new(),
            ahead,
        })
    }

    /// Takes the credits that arrive before the next reply, without coming up to their cycles, and finds that reply, if
    /// there is one and it is to another entry than `first`.
    #[inline(always)]
    fn take_up_to_reply(&mut self, rest: &mut Arriving<'_>, first: u64) -> Option<Reply>
        requires channels { length self.old.credits.items ≡ self.old.config.channels }
        requires by_age { IsByAge rest.old.credits.now }
        ensures channels { length self.new.credits.items ≡ self.new.config.channels }
        ensures some { IfSome result
            (FindsReply first (view_of self.old) rest.old (view_of self.new) rest.new) }
        ensures none { IsNone result
            → StaysBehind first (view_of self.old) rest.old (view_of self.new) rest.new }
    {
        'credits: while let Some((message, later)) = rest.due_credit() {
            let Payload::Credit { access, .. } = message.payload else {
                return None;
            };
            self.receive_credit(message.link, access);
            rest.credits = later;
        }
        rest.next_other_reply(first)
    }

    /// Takes what arrives before the reply to the first entry of its full window, if that waits, and then rests up to
    /// the cycle in which the next message arrives, or up to `until`. What is left is returned.
    #[inline(always)]
    fn take_while_stalled<'a>(&mut self, arriving: Arriving<'a>, until: Cycle) -> Arriving<'a>
        requires order { self.old.cycle ≤ until }
        requires early { until < 2 ^ 62 }
        requires by_age { IsByAge arriving.credits.now }
        requires fit { CanRun (view_of self.old) self.old.cycle until (all_arriving arriving) }
        ensures { HasTakenUpTo (view_of self.old) self.old.cycle until arriving.entry result
            (view_of self.new) }
    {
        let mut rest = arriving;
        if !self.is_stalled() {
            return rest;
        }
        let first = self.stats.retired;
        'replies: while let Some(reply) = self.take_up_to_reply(&mut rest, first) {
            self.receive_reply(reply.entry, reply.arrival);
        }
        let next = rest.first_arrival(until);
        self.rest(next);
        rest
    }

    /// Runs the cycles from `from`, where the core stands, up to but not including `until`, below 2^62. The messages
    /// that arrive in these cycles are given; the messages that the core sends in them are put behind what `sent`
    /// holds. The only error is out of memory; what the core and the list hold is then not known.
    #[inline(always)]
    pub fn run(
        &mut self,
        arriving: Arriving<'_>,
        from: Cycle,
        until: Cycle,
        sent: &mut Vec<Message>,
    ) -> Result<(), AllocError>
        requires at { self.old.cycle ≡ from }
        requires order { from ≤ until }
        requires early { until < 2 ^ 62 }
        requires by_age { IsByAge arriving.credits.now }
        requires fit { CanRun (view_of self.old) from until (all_arriving arriving) }
        ensures { OnOk result (RunsOnto (view_of self.old) from until (all_arriving arriving.entry)
            (view_of self.new) sent.old.items sent.new.items) }
    {
        let mut rest = self.take_while_stalled(arriving, until);
        'messages: while let Some(message) = rest.next() {
            self.advance(message.arrival, sent)?;
            self.receive(*message);
        }
        self.advance(until, sent)
    }

    /// The cycle where the core stands, if it retires or issues an entry in it; otherwise it never does.
    fn next_work(&self, from: Cycle) -> Option<Cycle>
        requires at { self.now.cycle ≡ from }
        requires stands { HasSomePast (view_of self.now) }
        ensures { ActsNext (view_of self.now) result }
    {
        let core_step = self.cycle_work().core_step;
        if core_step.retired == 0 && core_step.issued == 0 {
            None
        } else {
            Some(from)
        }
    }

    /// The first cycle from `from`, where the core stands, in which it retires or issues an entry, while no message
    /// comes; none, where it never does.
    fn next_act(&self, from: Cycle) -> Option<Cycle>
        requires at { self.now.cycle ≡ from }
        requires stands { HasSomePast (view_of self.now) }
        ensures { ActsNext (view_of self.now) result }
    {
        if is_next_done(
            self.outstanding.as_slice(),
            self.stats.issued,
            self.stats.retired,
        ) {
            return Some(from);
        }
        if self.is_full() {
            return None;
        }
        self.next_work(from)
    }

    /// A number of cycles that surely pass before the core issues its next Read or Write: in each cycle it issues at
    /// most its width of entries.
    fn plain_cycles(&self) -> u64
        ensures { HasMemoryAhead self.now
            → StaysBelowFirst self.now (result * self.now.config.width) }
    {
        if self.ahead.first_at >= self.trace.len() {
            return u64::MAX;
        }
        cycles_within(
            self.ahead.first_at - self.stats.issued,
            self.config.width,
            u64::MAX,
        )
    }

    /// A cycle, not before `from`, where the core stands, before which it sends nothing, while no message comes. It is
    /// the last of all cycles where the core does nothing until a message comes, or has no Read or Write left.
    pub fn silent_until(&self, from: Cycle) -> Cycle
        requires at { self.now.cycle ≡ from }
        requires stands { HasSomePast (view_of self.now) }
        ensures since { from ≤ result }
        ensures silent { KeepsSilent (view_of self.now) result }
    {
        match self.next_act(from) {
            Some(_) => from.saturating_add(self.plain_cycles()),
            None => Cycle::MAX,
        }
    }

    /// What statistics count of the cycles before the one where the core stands.
    pub fn stats(&self) -> CoreStats
        ensures { result ≡ (view_of self.now).stats }
    {
        let Core { stats, .. } = self;
        *stats
    }

    /// The credits that the core holds for each channel, by number.
    pub fn credits(&self) -> &[Credits]
        ensures { result.now ≡ (view_of self.now).credits }
    {
        self.credits.as_slice()
    }
}
