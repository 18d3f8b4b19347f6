//! What an entry that issues changes.

ghost use Rattle.std.specs.Prelude.{◌≡◌, ℕ, ◌^◌, ◌<◌, length, slice_get, Some, IfOk, OnOk};
ghost use Rattle.sim_base.specs.History.{request};
ghost use Rattle.std.specs.Option.{IfSome};
ghost use Rattle.sim_base.specs.Config.{latency, request_link};
ghost use Rattle.sim_base.specs.Places.{place_of};
ghost use Rattle.sim_base.specs.declared.config.Config.{Config};
ghost use Rattle.core_window.specs.Ahead.{IsPlaced};
ghost use Rattle.core_window.specs.Latencies.{request_latencies, KnowsLatencies};
ghost use Rattle.core_window.specs.Counting.{SendsFor, IsSpentAt};
ghost use Rattle.core_window.specs.OneCycle.{credit_after};
ghost use Rattle.core_window.specs.Waiting.{WaitsFor};
ghost use Rattle.statistics.specs.declared.final_state.Credits.{Credits};

use crate::outstanding::{OutstandingRead, OutstandingReads};
use crate::receive::spend_credit;
use cpu_trace::entries::MemoryEntry;
use sim_base::config::Config;
use sim_base::message::{Access, ChannelId, CoreId, Cycle, Message, Payload, Request};
use sim_base::place::Place;
use sim_base::trace::Entry;
use statistics::final_state::Credits;
use std::alloc::{AllocError, Global};

/// A Read that issues waits from now on.
pub fn wait_for(
    outstanding: &mut OutstandingReads,
    memory: Option<MemoryEntry>,
    now: Cycle,
) -> Result<(), AllocError>
    ensures { OnOk result (WaitsFor memory now outstanding.old outstanding.new) }
{
    if let Some(next) = memory {
        if let Entry::Read(_) = next.entry {
            outstanding.push(OutstandingRead {
                entry: next.number,
                issued: now,
            })?;
        }
    }
    Ok(())
}

/// A credit of a channel is spent.
fn spend_at(credits: &mut [Credits], channel: u32, access: Access)
    requires { channel < length credits.old }
    ensures { IsSpentAt channel access credits.old credits.new }
{
    spend_credit(&mut credits[channel as usize], access);
}

/// The entry that issues, which lies at this place, spends a credit.
pub fn spend(credits: &mut [Credits], place: &Place, memory: Option<MemoryEntry>)
    requires { place.now.channel < length credits.old }
    ensures { (s : Config) → IfSome memory (λ e. IsPlaced s e.entry place.now)
        → (channel : ℕ) (c : Credits) → slice_get credits.old channel ≡ Some c
        → slice_get credits.new channel ≡ Some (credit_after s channel memory c) }
{
    if let Some(next) = memory {
        match next.entry {
            Entry::Read(_) => spend_at(credits, place.channel, Access::Read),
            Entry::Write(_) => spend_at(credits, place.channel, Access::Write),
            Entry::Plain => (),
        }
    }
}

/// How many cycles a request travels from a core to a channel.
fn latency_to(config: &Config, core: CoreId, channel: ChannelId) -> u32
    ensures { result ≡ latency config.now (request_link config.now core channel) }
{
    config.latency(config.request_link(core, channel))
}

/// How many cycles a request travels from a core to each channel, by number.
pub fn request_latencies(
    alloc: Global,
    config: &Config,
    core: CoreId,
) -> Result<Vec<u32>, AllocError>
    ensures { IfOk result (λ v. v.items ≡ request_latencies config.now core) }
{
    (0..u32::from(config.channels))
        .map(move |channel| latency_to(config, core, channel))
        .collect(alloc)
}

/// A core that sends a request in a cycle, with the latencies of its links for requests.
#[derive(Clone, Copy)]
pub struct RequestingCore<'a> {
    pub config: &'a Config,
    pub latencies: &'a [u32],
    pub core: CoreId,
    pub cycle: Cycle,
}

/// How many cycles a request travels to a channel.
fn travel_to(sender: &RequestingCore<'_>, channel: ChannelId) -> u32
    requires exists { channel < sender.now.config.now.channels }
    requires latencies { KnowsLatencies sender.now }
    ensures { result ≡ latency sender.now.config.now
        (request_link sender.now.config.now sender.now.core channel) }
{
    sender.latencies[channel as usize]
}

/// The request for a line, which the core sends in this cycle to the channel of its place.
#[tactic(auto, unfolding(sim_base::specs::History::request))]
fn request_of_address(
    sender: &RequestingCore<'_>,
    entry: u64,
    access: Access,
    address: u64,
    place: Place,
) -> Message
    requires early { sender.now.cycle < 2 ^ 62 }
    requires placed { place ≡ place_of sender.now.config.now address }
    requires exists { place.channel < sender.now.config.now.channels }
    requires latencies { KnowsLatencies sender.now }
    ensures { result ≡ request sender.now.config.now sender.now.core sender.now.cycle
        entry access address }
{
    let config = sender.config;
    let core = sender.core;
    let link = config.request_link(core, place.channel);
    let arrival = sender.cycle + u64::from(travel_to(sender, place.channel));
    Message {
        link,
        arrival,
        payload: Payload::Request(Request {
            core,
            entry,
            access,
            address,
            place,
            arrival,
            link,
        }),
    }
}

/// The entry that issues, which lies at this place, sends its request.
pub fn send(
    sent: &mut Vec<Message>,
    sender: &RequestingCore<'_>,
    place: &Place,
    memory: Option<MemoryEntry>,
) -> Result<(), AllocError>
    requires early { sender.now.cycle < 2 ^ 62 }
    requires placed { IfSome memory (λ e. IsPlaced sender.now.config.now e.entry place.now) }
    requires latencies { KnowsLatencies sender.now }
    ensures { OnOk result (SendsFor memory sender.now.config.now sender.now.core sender.now.cycle
        sent.old.items sent.new.items) }
{
    if let Some(next) = memory {
        let (access, address) = match next.entry {
            Entry::Read(address) => (Access::Read, address),
            Entry::Write(address) => (Access::Write, address),
            Entry::Plain => return Ok(()),
        };
        sent.reserve(1)?;
        let request = request_of_address(sender, next.number, access, address, *place);
        sent.push_reserved(request);
    }
    Ok(())
}
