//! The numbers of channels and of cores, a row for each.

ghost use Rattle.std.specs.Prelude.{◌≡◌, ◌+◌, ◌*◌, ◌^◌, ◌<◌, map, length, slice_get, IfOk};
ghost use Rattle.show.specs.Rows.{mean, percent, drain_of, time, time_by, data_rate, rate_by, more_of_channel, channel_row, finish, finish_time, core_row, machine_in};
ghost use Rattle.show.specs.Summary.{halves_at, known_in, form_at, form_in, IsSummaryOf, AreSummaries, IsRowAcross, IsSummary};

use measures::number::{Number, NumberForm};
use measures::percentiles::Summary;
use measures::rates;
use measures::rates::Quotient;
use sim_base::config::Config;
use statistics::channels::ChannelStats;
use statistics::cores::CoreStats;
use std::alloc::{AllocError, Global};

/// The most numbers of a row.
pub(crate) const COLUMNS: usize = 13;

/// The numbers of a channel or a core, in the order of their headings; behind them there may be some that are absent.
pub(crate) type Row = [Number; COLUMNS];

/// The cycles in which the data bus is taken by a RD or a WR.
const CYCLES_OF_DATA: u128 = 4;

/// The headings of a channel's numbers; the last two are shown with a configuration and with a clock only.
pub(crate) static CHANNEL_HEADINGS: [&str; 11] = [
    "rd",
    "wr",
    "hits %",
    "bus %",
    "queue mean",
    "queue max",
    "idle %",
    "refresh due %",
    "drain %",
    "ref %",
    "GB/s",
];

/// The headings of a channel's numbers with a clock and no configuration.
pub(crate) static CLOCKED_CHANNEL_HEADINGS: [&str; 10] = [
    "rd",
    "wr",
    "hits %",
    "bus %",
    "queue mean",
    "queue max",
    "idle %",
    "refresh due %",
    "drain %",
    "GB/s",
];

/// The headings of a core's numbers; the last two are shown with a clock only.
pub(crate) static CORE_HEADINGS: [&str; 13] = [
    "retired",
    "per cycle",
    "finish",
    "by then",
    "reads",
    "latency",
    "end",
    "width",
    "window",
    "memory",
    "credit",
    "finish ns",
    "latency ns",
];

// How many RDs and WRs there were.
fn moves(channel: &ChannelStats) -> u128
    ensures sum { result ≡ channel.now.rd + channel.now.wr }
    ensures few { result < 2 ^ 65 }
{
    u128::from(channel.rd) + u128::from(channel.wr)
}

// What percentage of the cycles these are.
fn share(cycles: u64, part: u64) -> Number
    ensures { result ≡ percent part cycles }
{
    Number::percent(u128::from(part), u128::from(cycles))
}

fn draining(cycles: u64, channel: &ChannelStats) -> Number
    ensures { result ≡ drain_of cycles channel.now.draining }
{
    match channel.draining {
        Some(part) => share(cycles, part),
        None => Number::absent(),
    }
}

// What percentage of the cycles the REFs take, nRFC each.
#[tactic(auto, using(crate::proofs::Numbers::capped_part))]
fn refreshes(cycles: u64, channel: &ChannelStats, n_rfc: u32) -> Number
    ensures { result ≡ percent (channel.now.refs * n_rfc) cycles }
{
    let part = u128::from(channel.refs) * u128::from(n_rfc);
    Number::percent(part.min(GREATEST_PART), u128::from(cycles))
}

/// A greater part counts as this one.
const GREATEST_PART: u128 = 1 << 79;

fn number_of(quotient: Quotient) -> Number
    ensures { result ≡ mean quotient.dividend quotient.divisor }
{
    Number::quotient(quotient.dividend, quotient.divisor, NumberForm::Mean)
}

/// A quotient of cycles, in ns.
#[tactic(auto, using(crate::proofs::Numbers::capped))]
pub(crate) fn nanoseconds(cycles: u128, divisor: u64, khz: u64) -> Number
    ensures { result ≡ time cycles divisor khz }
{
    number_of(rates::nanoseconds(cycles, divisor, khz))
}

/// A quotient of cycles, in ns, where the clock is given.
pub(crate) fn time_by(khz: Option<u64>, cycles: u128, divisor: u64) -> Number
    ensures { result ≡ time_by khz cycles divisor }
{
    match khz {
        Some(khz) => nanoseconds(cycles, divisor, khz),
        None => Number::absent(),
    }
}

// The data that a channel moved in so many cycles, in GB/s.
#[tactic(auto, using(crate::proofs::Numbers::capped))]
fn data_rate(cycles: u64, channel: &ChannelStats, khz: u64) -> Number
    ensures { result ≡ data_rate cycles channel.now khz }
{
    number_of(rates::data_rate(cycles, channel, khz))
}

// The data that a channel moved, in GB/s, where the clock is given.
fn rate_by(khz: Option<u64>, cycles: u64, channel: &ChannelStats) -> Number
    ensures { result ≡ rate_by khz cycles channel.now }
{
    match khz {
        Some(khz) => data_rate(cycles, channel, khz),
        None => Number::absent(),
    }
}

// The numbers that are shown with a configuration and with a clock, one behind the other.
fn more_of_channel(
    cycles: u64,
    channel: &ChannelStats,
    config: Option<&Config>,
    khz: Option<u64>,
) -> (Number, Number)
    ensures { result ≡ more_of_channel cycles channel.now (machine_in config.entry) khz }
{
    let rate = rate_by(khz, cycles, channel);
    match config {
        Some(config) => (refreshes(cycles, channel, config.timing.n_rfc), rate),
        None => (rate, Number::absent()),
    }
}

#[tactic(auto, unfolding(crate::specs::Rows::channel_row))]
fn channel_row(
    cycles: u64,
    channel: &ChannelStats,
    config: Option<&Config>,
    khz: Option<u64>,
) -> Row
    ensures { result ≡ channel_row cycles (machine_in config.entry) khz channel.now }
{
    let (tenth, eleventh) = more_of_channel(cycles, channel, config, khz);
    [
        Number::count(channel.rd),
        Number::count(channel.wr),
        Number::percent(u128::from(channel.hits), moves(channel)),
        Number::percent(CYCLES_OF_DATA * moves(channel), u128::from(cycles)),
        Number::mean(channel.queued, cycles),
        Number::count(channel.queued_max),
        share(cycles, channel.idle),
        share(cycles, channel.refreshing),
        draining(cycles, channel),
        tenth,
        eleventh,
        Number::absent(),
        Number::absent(),
    ]
}

/// The numbers of each channel.
#[tactic(auto, using(std::proofs::lemmas::List::map_more))]
pub(crate) fn channel_rows(
    alloc: Global,
    cycles: u64,
    channels: &[ChannelStats],
    config: Option<&Config>,
    khz: Option<u64>,
) -> Result<Vec<Row>, AllocError>
    ensures { IfOk result (λ rows. rows.items ≡ map (channel_row cycles
        (machine_in config.entry) khz) channels.now) }
{
    let mut rows = Vec::new(alloc);
    for channel in channels {
        rows.push(channel_row(cycles, channel, config, khz))?;
    }
    Ok(rows)
}

// The cycle in which the last entry of a core retired, and the entries a cycle up to that.
fn finish(core: &CoreStats) -> (Number, Number)
    ensures { result ≡ finish core.now.retired core.now.finish }
{
    match core.finish {
        Some(cycle) => (
            Number::count(cycle),
            Number::mean(u128::from(core.retired), cycle.saturating_add(1)),
        ),
        None => (Number::absent(), Number::absent()),
    }
}

// The finish in ns.
fn finish_time(khz: Option<u64>, finish: Option<u64>) -> Number
    ensures { result ≡ finish_time khz finish }
{
    match finish {
        Some(cycle) => time_by(khz, u128::from(cycle), 1),
        None => Number::absent(),
    }
}

#[tactic(auto, unfolding(crate::specs::Rows::core_row))]
fn core_row(cycles: u64, core: &CoreStats, khz: Option<u64>) -> Row
    ensures { result ≡ core_row cycles khz core.now }
{
    let (finish, rate) = finish(core);
    [
        Number::count(core.retired),
        Number::mean(u128::from(core.retired), cycles),
        finish,
        rate,
        Number::count(core.reads),
        Number::mean(core.read_latency, core.replies),
        share(cycles, core.stop_end),
        share(cycles, core.stop_width),
        share(cycles, core.stop_window),
        share(cycles, core.stop_memory),
        share(cycles, core.stop_credit),
        finish_time(khz, core.finish),
        time_by(khz, core.read_latency, core.replies),
    ]
}

/// The numbers of each core.
#[tactic(auto, using(std::proofs::lemmas::List::map_more))]
pub(crate) fn core_rows(
    alloc: Global,
    cycles: u64,
    cores: &[CoreStats],
    khz: Option<u64>,
) -> Result<Vec<Row>, AllocError>
    ensures { IfOk result (λ rows. rows.items ≡ map (core_row cycles khz) cores.now) }
{
    let mut rows = Vec::new(alloc);
    for core in cores {
        rows.push(core_row(cycles, core, khz))?;
    }
    Ok(rows)
}

// A number of a row, in halves of a thousandth, if it is there.
fn halves_at(row: &Row, column: usize) -> Option<u128>
    ensures { result ≡ halves_at column row.now }
{
    row.get(column)?.halves
}

// The numbers of a column that are there.
fn known_in(alloc: Global, rows: &[Row], column: usize) -> Result<Vec<u128>, AllocError>
    ensures { IfOk result (λ known. known.items ≡ known_in column rows.now) }
{
    rows.iter()
        .filter_map(move |row| halves_at(row, column))
        .collect(alloc)
}

// The form of a number, where it is there, or else that of the ones before it.
fn form_at(before: NumberForm, number: Option<Number>) -> NumberForm
    ensures { result ≡ form_at before number }
{
    match number {
        Some(number) if number.halves.is_some() => number.form,
        _ => before,
    }
}

// The form of a number of a row.
fn form_after(before: NumberForm, row: &Row, column: usize) -> NumberForm
    ensures { result ≡ form_at before (slice_get row.now column) }
{
    form_at(before, row.get(column).copied())
}

// The form of the numbers of a column that are there.
fn form_in(rows: &[Row], column: usize) -> NumberForm
    ensures { result ≡ form_in column rows.now }
{
    rows.iter().fold(NumberForm::Count, move |before, row| {
        form_after(before, row, column)
    })
}

// The least, the median and the greatest of the numbers in a column that are there. The median of an even count is the
// lower of the two in the middle.
fn summary_of(alloc: Global, rows: &[Row], column: usize) -> Result<[Number; 3], AllocError>
    ensures { IfOk result (λ three. IsSummaryOf rows.now column three) }
{
    let Summary {
        least,
        median,
        greatest,
    } = Summary::of(known_in(alloc, rows, column)?);
    let form = form_in(rows, column);
    Ok([
        Number {
            halves: least,
            form,
        },
        Number {
            halves: median,
            form,
        },
        Number {
            halves: greatest,
            form,
        },
    ])
}

// The least, the median and the greatest of each column.
fn summary_columns(alloc: Global, rows: &[Row]) -> Result<Vec<[Number; 3]>, AllocError>
    ensures { IfOk result (λ columns. AreSummaries rows.now COLUMNS columns.items) }
{
    let mut columns = Vec::with_capacity(alloc, COLUMNS)?;
    for column in 0..COLUMNS {
        columns.push(summary_of(alloc, rows, column)?)?;
    }
    Ok(columns)
}

// One of the three numbers of each column.
fn row_across(columns: &[[Number; 3]], place: usize) -> Row
    requires place { place < 3 }
    requires count { length columns.now ≡ 13 }
    ensures { IsRowAcross columns.now place result }
{
    let mut row = [Number::absent(); COLUMNS];
    for column in 0..COLUMNS {
        row[column] = columns[column][place];
    }
    row
}

/// The least, the median and the greatest number of each column, as three rows.
pub(crate) fn summary_rows(alloc: Global, rows: &[Row]) -> Result<[Row; 3], AllocError>
    ensures { IfOk result (λ summary. IsSummary rows.now summary) }
{
    let columns = summary_columns(alloc, rows)?;
    Ok([
        row_across(&columns, 0),
        row_across(&columns, 1),
        row_across(&columns, 2),
    ])
}
