//! The screen: the cycles, a table of channels and a table of cores.

ghost use Rattle.std.specs.Prelude.{◌≡◌, IfOk, length, map, string_bytes};
ghost use Rattle.show.specs.Rows.{channel_headings, core_headings, machine_in, time_text};
ghost use Rattle.show.specs.Screen.{IsBelow, AreChannels, AreCores, IsScreen, channels_head, cores_head, finished};
ghost use Rattle.measures.specs.Texts.{Puts, PutsWords};

use crate::options::Options;
use crate::rows::{
    CHANNEL_HEADINGS, CLOCKED_CHANNEL_HEADINGS, CORE_HEADINGS, channel_rows, core_rows, nanoseconds,
};
use crate::table::TableLayout;
use measures::text_builder::TextBuilder;
use sim_base::config::Config;
use statistics::cores::CoreStats;
use statistics::stats::Stats;
use std::alloc::{AllocError, Global};

// The headings of the channels.
fn channel_headings(config: Option<&Config>, khz: Option<u64>) -> &'static [&'static str]
    ensures { map (λ heading. heading.now) result.now
        ≡ channel_headings (machine_in config.entry) khz }
{
    match (config, khz) {
        (Some(_), Some(_)) => &CHANNEL_HEADINGS[..],
        (Some(_), None) => &CHANNEL_HEADINGS[..10],
        (None, Some(_)) => &CLOCKED_CHANNEL_HEADINGS[..],
        (None, None) => &CHANNEL_HEADINGS[..9],
    }
}

fn core_headings(khz: Option<u64>) -> &'static [&'static str]
    ensures { map (λ heading. heading.now) result.now ≡ core_headings khz }
{
    match khz {
        Some(_) => &CORE_HEADINGS[..],
        None => &CORE_HEADINGS[..11],
    }
}

// The channels of a run, below the cycles.
fn put_channels(
    alloc: Global,
    stats: &Stats,
    options: Options,
    config: Option<&Config>,
    out: &mut TextBuilder,
)
    ensures { Puts (IsBelow (channels_head stats.now.cycles (length stats.now.channels))
        (AreChannels stats.now options (machine_in config.entry))) out.old out.new }
{
    let (cycles, channels) = (stats.cycles, stats.channels.len());
    write!(
        out,
        "cycles {cycles}\n\nChannels ({channels}): row hits in % of rd and wr, all else in % of the cycles\n"
    );
    let table = TableLayout {
        label: "channel",
        headings: channel_headings(config, options.khz),
        all: options.all,
    };
    let rows = channel_rows(alloc, cycles, &stats.channels, config, options.khz);
    table.put(alloc, rows, out);
}

// How many cores have finished.
fn finished(cores: &[CoreStats]) -> usize
    ensures { result ≡ finished cores.now }
{
    cores.iter().filter(|core| core.finish.is_some()).count()
}

// The cores of a run.
fn put_cores(alloc: Global, stats: &Stats, options: Options, out: &mut TextBuilder)
    ensures { Puts (IsBelow (cores_head (length stats.now.cores) (finished stats.now.cores))
        (AreCores stats.now options)) out.old out.new }
{
    let cores = stats.cores.len();
    let finished = finished(&stats.cores);
    write!(
        out,
        "\nCores ({cores}, {finished} finished): finish and latency in cycles, why no more was issued in % of the cycles\n"
    );
    let table = TableLayout {
        label: "core",
        headings: core_headings(options.khz),
        all: options.all,
    };
    let rows = core_rows(alloc, stats.cycles, &stats.cores, options.khz);
    table.put(alloc, rows, out);
}

// The cycles in ns, where the clock is given.
fn put_time(alloc: Global, cycles: u64, khz: Option<u64>, out: &mut TextBuilder)
    ensures { PutsWords (time_text khz cycles) out.old out.new }
{
    if let Some(khz) = khz {
        out.push_str("\nThe cycles take ");
        out.push(nanoseconds(u128::from(cycles), 1, khz).text(alloc));
        out.push_str(" ns\n");
    }
}

/// Appends the screen of a run.
pub(crate) fn put_screen(
    alloc: Global,
    stats: &Stats,
    options: Options,
    config: Option<&Config>,
    out: &mut TextBuilder,
)
    ensures { Puts (IsScreen stats.now options (machine_in config.entry)) out.old out.new }
{
    put_channels(alloc, stats, options, config, out);
    put_cores(alloc, stats, options, out);
    put_time(alloc, stats.cycles, options.khz, out);
}

/// What a run did, on one screen of lines of at most 100 characters, or 122 with a clock: its cycles, a table of its
/// channels and one of its cores.
///
/// - Of a channel: its RDs and WRs, the percentage of them that were row hits, the percentage of cycles in which its
///   data bus was taken (4 cycles for each RD and WR), the mean and the greatest length of its queue, and the
///   percentages of cycles in which its queue was empty, a refresh was due, and it drained its writes; and, where the
///   configuration is given, the percentage of cycles that its REFs take, nRFC each.
/// - How many cores have finished, and of a core: the entries that it retired, in total and per cycle, the cycle in
///   which the last one retired, and the entries per cycle up to that one, the reads that it issued, the mean latency
///   in cycles of those that were answered, and, for each reason, the percentage of cycles in which it issued no more
///   for that reason.
/// - Where the clock is given: of a channel the data that it moved in GB/s, 64 bytes for each RD and WR, of a core the
///   finish and the mean latency in ns, and last the cycles in ns.
///
/// Numbers have at most four digits, rounded half up, with `k` for a thousand, `M` for a million and so on. `-` stands
/// where there is nothing to divide by, for the drain of a channel that never does, and for the finish of a core that
/// has not finished. A table of more than 16 units has the least, the median and the greatest number of each column
/// instead, unless all are asked for; the median of an even count is the lower of the two in the middle. Only memory
/// can be refused.
pub fn show_text(
    alloc: Global,
    stats: &Stats,
    options: Options,
    config: Option<&Config>,
) -> Result<String, AllocError>
    ensures screen { IfOk result (λ text.
        IsScreen stats.now options (machine_in config.entry) (string_bytes text)) }
{
    let mut text = TextBuilder::new(alloc);
    put_screen(alloc, stats, options, config, &mut text);
    text.finish()
}
