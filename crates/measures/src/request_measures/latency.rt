//! How long reads took, from their issue to their reply.

ghost use Rattle.std.specs.Prelude.{◌≡◌, ◌==◌, [], length, IfOk, MatchOption};
ghost use Rattle.measures.specs.Latency.{latency, read_latencies, of_core, AreLatencies, AreLatenciesOf};

use crate::percentiles::SortedValues;
use request_table::times::RequestTimes;
use sim_base::message::CoreId;
use std::alloc::{AllocError, Global};

/// The latencies of reads whose reply came, in cycles: how many there are, and percentiles by the nearest rank.
#[derive(Clone, Copy)]
pub struct Latencies {
    pub replies: u64,
    pub median: u64,
    pub p95: u64,
    pub p99: u64,
    pub greatest: u64,
}

// How long a read took, if its reply came.
fn latency(request: &RequestTimes) -> Option<u64>
    ensures { result ≡ latency request.now }
{
    match request.replied {
        Some(cycle) => Some(cycle.saturating_sub(request.issued)),
        None => None,
    }
}

/// The latency of each read whose reply came in the run, in the order of the requests. The only error is out of memory.
#[tactic(auto, unfolding(crate::specs::Latency::read_latencies))]
pub fn read_latencies(alloc: Global, requests: &[RequestTimes]) -> Result<Vec<u64>, AllocError>
    ensures { IfOk result (λ values. values.items ≡ read_latencies requests.now) }
{
    requests.iter().filter_map(latency).collect(alloc)
}

fn is_of_core(core: CoreId, request: &RequestTimes) -> bool
    ensures { result ≡ request.now.core == core }
{
    request.core == core
}

/// The requests of a core. The only error is out of memory.
#[tactic(auto, unfolding(crate::specs::Latency::of_core))]
pub fn of_core(
    alloc: Global,
    core: CoreId,
    requests: &[RequestTimes],
) -> Result<Vec<RequestTimes>, AllocError>
    ensures { IfOk result (λ own. own.items ≡ of_core core requests.now) }
{
    requests
        .iter()
        .filter(move |request| is_of_core(core, request))
        .copied()
        .collect(alloc)
}

// The percentiles of so many values, if there are any.
fn summary(replies: u64, values: &SortedValues) -> Option<Latencies>
    requires count { replies ≡ length values.now }
    ensures { MatchOption result (values.now ≡ []) (AreLatencies values.now) }
{
    Some(Latencies {
        replies,
        median: values.percentile(50)?,
        p95: values.percentile(95)?,
        p99: values.percentile(99)?,
        greatest: values.percentile(100)?,
    })
}

/// The percentiles of the latencies of the reads whose reply came in the run; none where no reply came. The only error
/// is out of memory.
pub fn latency_percentiles(
    alloc: Global,
    requests: &[RequestTimes],
) -> Result<Option<Latencies>, AllocError>
    ensures { IfOk result (AreLatenciesOf requests.now) }
{
    let values = read_latencies(alloc, requests)?;
    let replies = values.len() as u64;
    Ok(summary(replies, &SortedValues::of(values)))
}

/// The percentiles of the latencies of a core's reads whose reply came in the run; none where no reply came. The only
/// error is out of memory.
pub fn core_latency_percentiles(
    alloc: Global,
    core: CoreId,
    requests: &[RequestTimes],
) -> Result<Option<Latencies>, AllocError>
    ensures { IfOk result (AreLatenciesOf (of_core core requests.now)) }
{
    let own = of_core(alloc, core, requests)?;
    latency_percentiles(alloc, &own)
}
