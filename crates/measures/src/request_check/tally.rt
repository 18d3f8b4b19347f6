//! What is counted of requests, and stands in the statistics of a run too.

ghost use Rattle.std.specs.Prelude.{◌≡◌};
ghost use Rattle.measures.specs.Tally.{replies, reads, writes, hits, part, told};
ghost use Rattle.request_table.specs.Requests.{reply_latency};

use request_table::times::RequestTimes;
use sim_base::message::Access;
use statistics::stats::Stats;

/// A count of a core or of a channel, by its number.
#[derive(Clone, Copy, PartialEq, Eq, Debug)]
pub enum Tally {
    /// The reads of a core whose reply came in the run.
    Replies(usize),
    /// The cycles from their issue to their reply, in all.
    ReadLatency(usize),
    /// The RDs of a channel.
    Reads(usize),
    /// The WRs of a channel.
    Writes(usize),
    /// The row hits of a channel.
    Hits(usize),
}

fn replies(request: &RequestTimes) -> u64
    ensures { result ≡ replies request.now }
{
    match request.replied {
        Some(_) => 1,
        None => 0,
    }
}

fn reply_latency(request: &RequestTimes) -> u64
    ensures { result ≡ reply_latency request.now }
{
    match request.replied {
        Some(cycle) => cycle.saturating_sub(request.issued),
        None => 0,
    }
}

fn reads(request: &RequestTimes) -> u64
    ensures { result ≡ reads request.now }
{
    match request.access {
        Access::Read => 1,
        Access::Write => 0,
    }
}

fn writes(request: &RequestTimes) -> u64
    ensures { result ≡ writes request.now }
{
    match request.access {
        Access::Read => 0,
        Access::Write => 1,
    }
}

fn hits(request: &RequestTimes) -> u64
    ensures { result ≡ hits request.now }
{
    if request.hit { 1 } else { 0 }
}

/// What a request adds to a count.
pub(crate) fn part(tally: Tally, request: &RequestTimes) -> u64
    ensures { result ≡ part tally request.now }
{
    let (core, channel) = (request.core as usize, request.channel as usize);
    match tally {
        Tally::Replies(unit) if core == unit => replies(request),
        Tally::ReadLatency(unit) if core == unit => reply_latency(request),
        Tally::Reads(unit) if channel == unit => reads(request),
        Tally::Writes(unit) if channel == unit => writes(request),
        Tally::Hits(unit) if channel == unit => hits(request),
        _ => 0,
    }
}

/// What the statistics have of a count; 0 of a unit that the run does not have.
pub fn told(tally: Tally, stats: &Stats) -> u128
    ensures { result ≡ told tally stats.now }
{
    match tally {
        Tally::Replies(unit) => match stats.cores.get(unit) {
            Some(core) => u128::from(core.replies),
            None => 0,
        },
        Tally::ReadLatency(unit) => match stats.cores.get(unit) {
            Some(core) => core.read_latency,
            None => 0,
        },
        Tally::Reads(unit) => match stats.channels.get(unit) {
            Some(channel) => u128::from(channel.rd),
            None => 0,
        },
        Tally::Writes(unit) => match stats.channels.get(unit) {
            Some(channel) => u128::from(channel.wr),
            None => 0,
        },
        Tally::Hits(unit) => match stats.channels.get(unit) {
            Some(channel) => u128::from(channel.hits),
            None => 0,
        },
    }
}
