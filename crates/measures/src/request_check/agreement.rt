//! Requests and statistics that agree.

ghost use Rattle.std.specs.Prelude.{◌≡◌, ◌↔◌, ◌<◌, ℕ, IsTrue, IfErr, OnOk, length};
ghost use Rattle.measures.specs.Agreement.{IsReplyOfRun, IsOfRun, IsOfRunAt, IsTold, IsCoreOfRun, IsChannelOfRun, IsNextOfCore, IsNextOfChannel, IsNextOfCores, IsNextOfChannels, AreOfRun, IsOtherCount, IsMismatch, row_of};

use crate::request_check::tally::{Tally, part, told};
use request_table::times::RequestTimes;
use sim_base::message::Cycle;
use statistics::stats::Stats;

/// Why requests are not those of a run.
#[derive(Clone, Copy, PartialEq, Eq, Debug)]
pub enum Mismatch {
    /// The run has no such core, channel or cycle as the request at this place.
    Stranger(usize),
    /// With the request at this place, a count is above that of the statistics.
    Excess(Tally, usize),
    /// With all requests, a count is below that of the statistics.
    Lack(Tally),
}

// Whether the reply came in a cycle of the run, if it came.
fn is_reply_of_run(cycles: u64, replied: Option<Cycle>) -> bool
    ensures { IsTrue result ↔ IsReplyOfRun cycles replied }
{
    match replied {
        Some(cycle) => cycle < cycles,
        None => true,
    }
}

// Whether the run has the core, the channel and the cycles of a request.
fn is_of_run(stats: &Stats, request: &RequestTimes) -> bool
    ensures { IsTrue result ↔ IsOfRun stats.now request.now }
{
    (request.core as usize) < stats.cores.len()
        && (request.channel as usize) < stats.channels.len()
        && request.served < stats.cycles
        && is_reply_of_run(stats.cycles, request.replied)
}

// Whether each request is of the run.
fn check_rows(stats: &Stats, requests: &[RequestTimes]) -> Result<(), Mismatch>
    ensures all { OnOk result ((place : ℕ) → IsOfRunAt stats.now requests.now place) }
    ensures stranger { IfErr result (IsMismatch stats.now requests.now) }
{
    'rows: for (place, request) in requests.iter().enumerate() {
        if !is_of_run(stats, request) {
            return Err(Mismatch::Stranger(place));
        }
    }
    Ok(())
}

// Whether a count is that of the statistics.
#[tactic(auto, using(std::proofs::lemmas::List::Sums::sum_by_more))]
fn check_tally(tally: Tally, stats: &Stats, requests: &[RequestTimes]) -> Result<(), Mismatch>
    ensures same { OnOk result (IsTold tally stats.now requests.now) }
    ensures other { IfErr result
        (IsOtherCount (λ other. other ≡ tally) stats.now requests.now) }
{
    let told = told(tally, stats);
    let mut amount = 0u128;
    for (place, request) in requests.iter().enumerate() {
        amount += u128::from(part(tally, request));
        if amount > told {
            return Err(Mismatch::Excess(tally, place));
        }
    }
    if amount < told {
        return Err(Mismatch::Lack(tally));
    }
    Ok(())
}

fn check_core(core: usize, stats: &Stats, requests: &[RequestTimes]) -> Result<(), Mismatch>
    ensures same { OnOk result (IsCoreOfRun stats.now requests.now core) }
    ensures other { IfErr result
        (IsOtherCount (IsNextOfCore stats.now requests.now core) stats.now requests.now) }
{
    check_tally(Tally::Replies(core), stats, requests)?;
    check_tally(Tally::ReadLatency(core), stats, requests)
}

fn check_channel(channel: usize, stats: &Stats, requests: &[RequestTimes]) -> Result<(), Mismatch>
    ensures same { OnOk result (IsChannelOfRun stats.now requests.now channel) }
    ensures other { IfErr result
        (IsOtherCount (IsNextOfChannel stats.now requests.now channel) stats.now requests.now) }
{
    check_tally(Tally::Reads(channel), stats, requests)?;
    check_tally(Tally::Writes(channel), stats, requests)?;
    check_tally(Tally::Hits(channel), stats, requests)
}

fn check_cores(stats: &Stats, requests: &[RequestTimes]) -> Result<(), Mismatch>
    ensures same { OnOk result ((core : ℕ) → core < length stats.now.cores
        → IsCoreOfRun stats.now requests.now core) }
    ensures other { IfErr result
        (IsOtherCount (IsNextOfCores stats.now requests.now) stats.now requests.now) }
{
    for core in 0..stats.cores.len() {
        check_core(core, stats, requests)?;
    }
    Ok(())
}

fn check_channels(stats: &Stats, requests: &[RequestTimes]) -> Result<(), Mismatch>
    ensures same { OnOk result ((channel : ℕ) → channel < length stats.now.channels
        → IsChannelOfRun stats.now requests.now channel) }
    ensures other { IfErr result
        (IsOtherCount (IsNextOfChannels stats.now requests.now) stats.now requests.now) }
{
    for channel in 0..stats.channels.len() {
        check_channel(channel, stats, requests)?;
    }
    Ok(())
}

/// Whether requests can be those of the run that statistics are of: each is of a core, a channel and cycles of the run;
/// of each core, as many replies came as the statistics have, and took as long in all; and of each channel the reads,
/// the writes and the row hits are as many.
///
/// # Errors
///
/// The first of these that is not so: `Mismatch::Stranger` for the first request that is not of the run, and else, of
/// the first count that differs, `Mismatch::Excess` with the first request by which it is too much, or
/// `Mismatch::Lack`. The counts are tested core by core, the replies and then the read latency, and then channel by
/// channel, the reads, the writes and then the row hits.
pub fn check_requests(stats: &Stats, requests: &[RequestTimes]) -> Result<(), Mismatch>
    ensures same { OnOk result (AreOfRun stats.now requests.now) }
    ensures other { IfErr result (IsMismatch stats.now requests.now) }
{
    check_rows(stats, requests)?;
    check_cores(stats, requests)?;
    check_channels(stats, requests)
}

/// The row of the table of these requests in which they stop being those of the run, where 0 is the header: that of the
/// request at fault, or, where some are missing, the first that is not there.
pub fn row_of(mismatch: Mismatch, stats: &Stats, requests: &[RequestTimes]) -> u64
    requires { IsMismatch stats.now requests.now mismatch }
    ensures { result ≡ row_of mismatch (length requests.now) }
{
    prove!(stats.cycles <= u64::MAX);
    let rows = requests.len() as u64;
    match mismatch {
        Mismatch::Stranger(place) | Mismatch::Excess(_, place) => place as u64 + 1,
        Mismatch::Lack(_) => rows + 1,
    }
}
