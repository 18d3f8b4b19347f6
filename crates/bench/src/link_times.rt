//! Sends messages over the links of 256 cores and 16 channels, phase by phase, and prints how many arrived, and how
//! long each kind of call took.

use crate::figures::{Effort, now, show_count};
use fixtures::small::small;
use links::flight::Links;
use sim_base::fault::Fault;
use sim_base::message::{Cycle, LinkId, Message, Payload, Unit};
use std::alloc::{AllocError, Global};
use std::rt::Clock;

/// What differs from the small machine of the worked cases.
const MANY: [&str; 2] = ["cores = 256", "channels = 16"];

/// Cores and channels.
const UNITS: u64 = 256 + 16;

/// Cycles of a phase, and of a message's travel.
const SPAN: u64 = 2;

/// Phases of a short run.
const FEW: u64 = 10;

/// Phases in which a million messages are sent.
const MANY_PHASES: u64 = 3_473;

/// How much arrived, and how many nanoseconds the calls of each kind took.
#[derive(Clone, Copy)]
struct Times {
    arrived: u64,
    accept: u64,
    take_due: u64,
    next_arrival: u64,
    /// Of `next_arrival`, with nothing in flight.
    idle: u64,
}

fn message(link: LinkId, arrival: Cycle) -> Message {
    Message {
        link,
        arrival,
        payload: Payload::Reply(0),
    }
}

/// Each core sends a request, and each channel a reply and a credit.
fn messages_of(alloc: Global, phase: u64, arrival: Cycle) -> Result<Vec<Message>, AllocError> {
    let mut messages = Vec::new(alloc);
    for unit in 0..UNITS {
        if unit < 256 {
            let channel = (unit ^ phase) % 16;
            messages.push(message(3 * (unit * 16 + channel), arrival))?;
        } else {
            let channel = unit - 256;
            let core = (16 * channel ^ phase) % 256;
            messages.push(message(3 * (core * 16 + channel) + 1, arrival))?;
            messages.push(message(3 * (core * 16 + channel) + 2, arrival))?;
        }
    }
    Ok(messages)
}

/// Takes out what arrives at a unit, and returns how much that is.
fn take(links: &mut Links, unit: Unit, until: Cycle) -> usize {
    match unit {
        Unit::Channel(channel) => {
            let count = links.due_at_channel(channel, until).len();
            let _next = links.drop_due_at_channel(channel, until, count);
            count
        }
        Unit::Core(core) => {
            let (replies, credits) = links.due_at_core(core, until);
            let (replies, credits) = (replies.len(), credits.len());
            let _next = links.drop_due_at_core(core, until, replies, credits);
            replies.wrapping_add(credits)
        }
    }
}

/// Takes out what arrives at each unit, and returns how much that is.
fn take_all(links: &mut Links, until: Cycle) -> u64 {
    let mut arrived = 0u64;
    for unit in 0..UNITS {
        let unit = match u16::try_from(unit) {
            Ok(core) if core < 256 => Unit::Core(core),
            _ => Unit::Channel((unit % 256) as u32),
        };
        arrived = arrived.wrapping_add(take(links, unit, until) as u64);
    }
    arrived
}

/// Sends messages over links with nothing in flight, and takes out what arrives: the same messages.
fn add_phase(
    rt: &impl Clock,
    links: &mut Links,
    (messages, cycle): (&mut [Message], Cycle),
    times: &mut Times,
) -> Result<(), AllocError> {
    let start = now(rt);
    let none = links.next_arrival();
    let asked = now(rt);
    links.accept(messages)?;
    let accepted = now(rt);
    let some = links.next_arrival();
    let found = now(rt);
    if none.is_none() && some == Some(cycle) {
        let arrived = take_all(links, cycle.wrapping_add(SPAN));
        times.arrived = times.arrived.wrapping_add(arrived);
    }
    times.take_due = times.take_due.wrapping_add(now(rt).saturating_sub(found));
    times.next_arrival = times
        .next_arrival
        .wrapping_add(found.saturating_sub(accepted));
    times.accept = times.accept.wrapping_add(accepted.saturating_sub(asked));
    times.idle = times.idle.wrapping_add(asked.saturating_sub(start));
    Ok(())
}

/// The links of the machine, with nothing in flight.
fn start_links(alloc: Global) -> Result<Links, Fault> {
    let config = small(alloc, &MANY, "")?;
    match Links::start(alloc, &config) {
        Ok(links) => Ok(links),
        Err(_) => Err(Fault::Memory),
    }
}

/// Sends messages in `phases` phases, each of which takes out what it sent.
fn run_phases(rt: &impl Clock, alloc: Global, phases: u64) -> Result<Times, Fault> {
    let mut times = Times {
        arrived: 0,
        accept: 0,
        take_due: 0,
        next_arrival: 0,
        idle: 0,
    };
    let mut links = start_links(alloc)?;
    for phase in 0..phases {
        let cycle = phase.wrapping_mul(SPAN);
        let mut messages = messages_of(alloc, phase, cycle)?;
        add_phase(rt, &mut links, (&mut messages, cycle), &mut times)?;
    }
    Ok(times)
}

/// Prints the time of a call of each kind, in nanoseconds, rounded down.
fn show_times(rt: &impl Print, times: Times) -> Result<(), Fault> {
    for (sum, calls, what) in [
        (times.accept, times.arrived, "ns a message, accept"),
        (
            times.take_due,
            UNITS * MANY_PHASES,
            "ns a unit, what is due taken out",
        ),
        (times.next_arrival, MANY_PHASES, "ns a call, next_arrival"),
        (
            times.idle,
            MANY_PHASES,
            "ns a call, next_arrival with nothing in flight",
        ),
    ] {
        show_count(rt, sum / calls.max(1), what)?;
    }
    Ok(())
}

/// Sends messages in some phases, with an effort.
pub fn show(rt: &(impl Clock + Print), alloc: Global, effort: Effort) -> Result<(), Fault> {
    match effort {
        Effort::Little => {
            let times = run_phases(rt, alloc, FEW)?;
            show_count(rt, times.arrived, "messages")
        }
        Effort::Timed => {
            let times = run_phases(rt, alloc, MANY_PHASES)?;
            show_count(rt, times.arrived, "messages")?;
            show_times(rt, times)
        }
    }
}
