//! A unit that stands at a cycle of its own.

ghost use Rattle.std.specs.Prelude.{◌≡◌, ◌<◌, ◌≤◌, ◌^◌, IfOk, OnOk};
ghost use Rattle.units.specs.Parts.{IsPartAt};
ghost use Rattle.units.specs.Units.{unit_count};
ghost use Rattle.units.specs.GoingOn.{MayBeWoken, MayBeBroughtUp, HoldsInboxOver, GoesOnOver, links_taken};
ghost use Rattle.units.specs.Wakes.{unit_with_word, word_of};

use crate::machine::Machine;
use crate::part::UnitState;
use core_window::receive::Arriving;
use links::flight::Links;
use sim_base::message::{ChannelId, CoreId, Cycle, Message};
use std::alloc::AllocError;

/// A span over which units of a kind go on: from where they stand up to a cycle, while those that send to them stand
/// at a cycle of theirs.
#[derive(Clone, Copy)]
pub struct Span {
    pub here: Cycle,
    pub there: Cycle,
    pub until: Cycle,
}

/// A unit, and the cycle where it stands.
#[derive(Drop)]
pub struct TimedUnit {
    pub part: UnitState,
    pub at: Cycle,
}

/// The messages in flight to units, and a list of what is sent in a span, which each span reuses.
#[derive(Drop)]
pub struct Traffic {
    pub links: Links,
    pub sent: Vec<Message>,
}

/// The word of a unit that stands at a cycle and sends nothing before `send`, if nothing arrives: the cycle of the next
/// arrival, which is not before it, or `send`, if that comes sooner.
#[inline(always)]
fn word_of(arrival: Option<Cycle>, from: Cycle, send: Cycle) -> Cycle
    ensures { result ≡ word_of arrival from send }
{
    match arrival {
        Some(arrival) => arrival.max(from).min(send),
        None => send,
    }
}

impl TimedUnit {
    /// Runs the unit at a place over a span, with what arrives at it from where its kind stands, and puts what it sends
    /// at the end of a list. Gives its next word.
    pub fn woken(
        &mut self,
        machine: &Machine,
        traffic: &mut Traffic,
        place: usize,
        span: &Span,
    ) -> Result<Cycle, AllocError>
        requires place { place < unit_count machine.now.config }
        requires order { span.now.here ≤ span.now.until }
        requires early { span.now.until ≤ 10 ^ 12 }
        requires waits { MayBeWoken machine.now place span.now self.old }
        requires holds_inbox { HoldsInboxOver machine.now place span.now traffic.old.links }
        ensures has_run { IfOk result (λ wake.
            GoesOnOver machine.now place span.now (unit_with_word self.new wake)
            traffic.old.sent.items traffic.new.sent.items) }
        ensures links { OnOk result (
            traffic.new.links ≡ links_taken machine.now place span.now traffic.old.links) }
    {
        let (from, until) = (self.at, span.until);
        self.at = until;
        let Traffic { links, sent } = traffic;
        match &mut self.part {
            UnitState::Core(core) => {
                let id = place as CoreId;
                let (replies, credits) = links.due_at_core(id, until);
                core.run(Arriving { replies, credits }, from, until, sent)?;
                let (replies, credits) = (replies.len(), credits.len());
                let arrival = links.drop_due_at_core(id, until, replies, credits);
                Ok(word_of(arrival, until, core.silent_until(until)))
            }
            UnitState::Channel(channel, issued) => {
                let id = (place - usize::from(machine.config.cores)) as ChannelId;
                let requests = links.due_at_channel(id, until);
                channel.run(requests, from..until, issued, sent)?;
                let count = requests.len();
                let arrival = links.drop_due_at_channel(id, until, count);
                let send = channel.next_act(until).unwrap_or(Cycle::MAX);
                Ok(word_of(arrival, until, send))
            }
        }
    }

    /// The unit at a cycle before which nothing arrives at it.
    pub fn brought_up(
        self,
        machine: &Machine,
        sent: &mut Vec<Message>,
        place: usize,
        now: Cycle,
    ) -> Result<UnitState, AllocError>
        requires place { place < unit_count machine.now.config }
        requires early { now ≤ 10 ^ 12 }
        requires waits { MayBeBroughtUp machine.now place now self }
        ensures { IfOk result (IsPartAt machine.now place now) }
    {
        let TimedUnit { mut part, at, .. } = self;
        part.run_alone(at, now, sent)?;
        Ok(part)
    }
}
