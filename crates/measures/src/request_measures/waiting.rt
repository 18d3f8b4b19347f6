//! How long requests waited in the queue of their channel, from their arrival to their RD or WR.

ghost use Rattle.std.specs.Prelude.{◌≡◌, ◌-◌};
ghost use Rattle.measures.specs.Waiting.{is_in_class, is_of, waited, counted, waited_in, channel_waits};

use request_table::times::RequestTimes;
use sim_base::message::{Access, ChannelId};

/// Some of the requests of a channel.
#[derive(Clone, Copy)]
pub enum Class {
    Reads,
    Writes,
    /// Reads and writes that were row hits.
    Hits,
}

/// How many requests there are, and the sum of the cycles that they waited.
#[derive(Clone, Copy)]
pub struct Waits {
    pub requests: u64,
    pub cycles: u128,
}

fn is_in_class(class: Class, request: &RequestTimes) -> bool
    ensures { result ≡ is_in_class class request.now }
{
    match (class, request.access) {
        (Class::Reads, Access::Read) | (Class::Writes, Access::Write) => true,
        (Class::Reads, Access::Write) | (Class::Writes, Access::Read) => false,
        (Class::Hits, Access::Read | Access::Write) => request.hit,
    }
}

fn is_of(class: Class, channel: ChannelId, request: &RequestTimes) -> bool
    ensures { result ≡ is_of class channel request.now }
{
    request.channel == channel && is_in_class(class, request)
}

// How long a request waited if it is of a class and of a channel, and else 0.
fn waited_in(class: Class, channel: ChannelId, request: &RequestTimes) -> u64
    ensures { result ≡ waited_in class channel request.now }
{
    if is_of(class, channel, request) {
        request.served.saturating_sub(request.arrived)
    } else {
        0
    }
}

// How many requests are of a class and of a channel.
fn count(class: Class, channel: ChannelId, requests: &[RequestTimes]) -> u64
    ensures { result ≡ counted class channel requests.now }
{
    requests
        .iter()
        .filter(move |request| is_of(class, channel, request))
        .count() as u64
}

// How long the requests of a class and of a channel waited, in all.
#[tactic(auto, using(std::proofs::lemmas::List::Sums::sum_by_more))]
fn sum(class: Class, channel: ChannelId, requests: &[RequestTimes]) -> u128
    ensures { result ≡ waited class channel requests.now }
{
    let mut sum = 0u128;
    for request in requests {
        sum += u128::from(waited_in(class, channel, request));
    }
    sum
}

/// How many of the requests of a channel are of a class, and how long they waited in its queue, in all.
pub fn channel_waits(class: Class, channel: ChannelId, requests: &[RequestTimes]) -> Waits
    ensures { result ≡ channel_waits class channel requests.now }
{
    Waits {
        requests: count(class, channel, requests),
        cycles: sum(class, channel, requests),
    }
}
