//! How long reads took and how long requests waited, below the screen of a run.

ghost use Rattle.std.specs.Prelude.{◌≡◌, ℕ, List, length, map, IfOk, string_bytes};
ghost use Rattle.sim_base.specs.History.{below};
ghost use Rattle.request_table.specs.declared.times.RequestTimes.{RequestTimes};
ghost use Rattle.measures.specs.Latency.{read_latencies, AreLatenciesOf};
ghost use Rattle.show.specs.Requests.{latencies_head, waits_head, replies_of, AreLatencyRows, AreLatencyLines, AreWaitLines, AreRequests};
ghost use Rattle.show.specs.Rows.{latency_headings, latency_row, wait_headings, wait_row};
ghost use Rattle.show.specs.Screen.{IsBelow};
ghost use Rattle.measures.specs.Texts.{Puts};

use crate::options::Options;
use crate::rows::{COLUMNS, Row, time_by};
use crate::table::TableLayout;
use measures::number::Number;
use measures::request_measures::latency::{
    Latencies, core_latency_percentiles, latency_percentiles,
};
use measures::request_measures::waiting::{Class, Waits, channel_waits};
use measures::text_builder::TextBuilder;
use request_table::times::RequestTimes;
use sim_base::message::{ChannelId, CoreId};
use std::alloc::{AllocError, Global};

/// The headings of a core's read latency; the last four are shown with a clock only.
static LATENCY_HEADINGS: [&str; 9] = [
    "replies", "p50", "p95", "p99", "max", "p50 ns", "p95 ns", "p99 ns", "max ns",
];

/// The headings of a channel's waits; the last three are shown with a clock only.
static WAIT_HEADINGS: [&str; 9] = [
    "reads",
    "mean wait",
    "writes",
    "mean wait",
    "hits",
    "mean wait",
    "reads ns",
    "writes ns",
    "hits ns",
];

// The headings of read latencies.
fn latency_headings(khz: Option<u64>) -> &'static [&'static str]
    ensures { map (λ heading. heading.now) result.now ≡ latency_headings khz }
{
    match khz {
        Some(_) => &LATENCY_HEADINGS[..],
        None => &LATENCY_HEADINGS[..5],
    }
}

// The headings of waits.
fn wait_headings(khz: Option<u64>) -> &'static [&'static str]
    ensures { map (λ heading. heading.now) result.now ≡ wait_headings khz }
{
    match khz {
        Some(_) => &WAIT_HEADINGS[..],
        None => &WAIT_HEADINGS[..6],
    }
}

// How many replies there are.
fn replies_of(found: Option<Latencies>) -> u64
    ensures { result ≡ replies_of found }
{
    match found {
        Some(found) => found.replies,
        None => 0,
    }
}

// The numbers of read latencies, of which there may be none.
#[tactic(auto, unfolding(crate::specs::Rows::latency_row))]
fn latency_row(found: Option<Latencies>, khz: Option<u64>) -> Row
    ensures { result ≡ latency_row khz found }
{
    let mut row = [Number::absent(); COLUMNS];
    row[0] = Number::count(replies_of(found));
    if let Some(found) = found {
        row[1] = Number::count(found.median);
        row[2] = Number::count(found.p95);
        row[3] = Number::count(found.p99);
        row[4] = Number::count(found.greatest);
        row[5] = time_by(khz, u128::from(found.median), 1);
        row[6] = time_by(khz, u128::from(found.p95), 1);
        row[7] = time_by(khz, u128::from(found.p99), 1);
        row[8] = time_by(khz, u128::from(found.greatest), 1);
    }
    row
}

// The numbers of each core.
fn latency_rows(
    alloc: Global,
    cores: CoreId,
    requests: &[RequestTimes],
    khz: Option<u64>,
) -> Result<Vec<Row>, AllocError>
    ensures { IfOk result (λ rows. AreLatencyRows khz requests.now cores rows.items) }
{
    let mut rows = Vec::new(alloc);
    for core in 0..cores {
        let found = core_latency_percentiles(alloc, core, requests)?;
        rows.push(latency_row(found, khz))?;
    }
    Ok(rows)
}

// The numbers of a channel.
#[tactic(auto, unfolding(crate::specs::Rows::wait_row))]
fn wait_row(channel: ChannelId, requests: &[RequestTimes], khz: Option<u64>) -> Row
    ensures { result ≡ wait_row requests.now khz channel }
{
    let Waits {
        requests: reads,
        cycles: read_cycles,
    } = channel_waits(Class::Reads, channel, requests);
    let Waits {
        requests: writes,
        cycles: write_cycles,
    } = channel_waits(Class::Writes, channel, requests);
    let Waits {
        requests: hits,
        cycles: hit_cycles,
    } = channel_waits(Class::Hits, channel, requests);
    let mut row = [Number::absent(); COLUMNS];
    row[0] = Number::count(reads);
    row[1] = Number::mean(read_cycles, reads);
    row[2] = Number::count(writes);
    row[3] = Number::mean(write_cycles, writes);
    row[4] = Number::count(hits);
    row[5] = Number::mean(hit_cycles, hits);
    row[6] = time_by(khz, read_cycles, reads);
    row[7] = time_by(khz, write_cycles, writes);
    row[8] = time_by(khz, hit_cycles, hits);
    row
}

// The numbers of each channel.
fn wait_rows(
    alloc: Global,
    channels: ChannelId,
    requests: &[RequestTimes],
    khz: Option<u64>,
) -> Result<Vec<Row>, AllocError>
    ensures { IfOk result (λ rows. rows.items ≡ map (wait_row requests.now khz) (below channels)) }
{
    let mut rows = Vec::new(alloc);
    for channel in 0..channels {
        rows.push(wait_row(channel, requests, khz))?;
    }
    Ok(rows)
}

// The read latencies of each core, and last those of all.
fn put_latencies(
    alloc: Global,
    rows: &[Row],
    all: Option<Latencies>,
    options: Options,
    out: &mut TextBuilder,
)
    ensures { (requests : List RequestTimes) (cores : ℕ)
        → AreLatencyRows options.khz requests cores rows.now
        → AreLatenciesOf requests all
        → Puts (IsBelow (latencies_head (replies_of all)) (AreLatencyLines requests options cores))
        out.old out.new }
{
    let replies = replies_of(all);
    write!(
        out,
        "\nRead latency ({replies} replies): cycles from issue to reply, by the nearest rank\n"
    );
    let table = TableLayout {
        label: "core",
        headings: latency_headings(options.khz),
        all: options.all,
    };
    table.put_rows(alloc, rows, out);
    let label = String::from_str(alloc, "all");
    table.put_row(alloc, label, &latency_row(all, options.khz), out);
}

// How long reads took.
fn put_reads(
    alloc: Global,
    cores: CoreId,
    requests: &[RequestTimes],
    options: Options,
    out: &mut TextBuilder,
)
    ensures { Puts (IsBelow (latencies_head (length (read_latencies requests.now)))
        (AreLatencyLines requests.now options cores)) out.old out.new }
{
    let rows = latency_rows(alloc, cores, requests, options.khz);
    let all = latency_percentiles(alloc, requests);
    match (rows, all) {
        (Ok(rows), Ok(all)) => put_latencies(alloc, &rows, all, options, out),
        _ => out.refuse(),
    }
}

// How long requests waited.
fn put_waits(
    alloc: Global,
    channels: ChannelId,
    requests: &[RequestTimes],
    options: Options,
    out: &mut TextBuilder,
)
    ensures { Puts (IsBelow (waits_head (length requests.now))
        (AreWaitLines requests.now options channels)) out.old out.new }
{
    let count = requests.len();
    write!(
        out,
        "\nQueues ({count} requests): mean cycles from arrival to RD or WR\n"
    );
    let table = TableLayout {
        label: "channel",
        headings: wait_headings(options.khz),
        all: options.all,
    };
    table.put(
        alloc,
        wait_rows(alloc, channels, requests, options.khz),
        out,
    );
}

/// What stands below the screen of a run of so many cores and channels whose requests are known.
///
/// - Of a core, and last of all cores: the reads whose reply came in the run, and how long these took from their issue
///   to their reply, as the median, the 95th and the 99th percentile by the nearest rank, and the greatest.
/// - Of a channel: its reads, its writes and its row hits among both, and for each how long they were in the queue,
///   from their arrival to their RD or WR, as a mean.
/// - Where the clock is given, the same times in ns.
///
/// All times are in cycles. Numbers, and tables of more than 16 units, are as on the screen. Only memory can be
/// refused.
pub fn show_requests(
    alloc: Global,
    cores: CoreId,
    channels: ChannelId,
    requests: &[RequestTimes],
    options: Options,
) -> Result<String, AllocError>
    ensures { IfOk result (λ text.
        AreRequests requests.now options cores channels (string_bytes text)) }
{
    let mut text = TextBuilder::new(alloc);
    put_reads(alloc, cores, requests, options, &mut text);
    put_waits(alloc, channels, requests, options, &mut text);
    text.finish()
}
