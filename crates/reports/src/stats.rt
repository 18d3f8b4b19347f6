//! The table of statistics, `stats.csv`.

ghost use Rattle.std.specs.Prelude.{◌≡◌, length, map, IfErr};
ghost use Rattle.reports.specs.Rows.{row_text, rows_text, numbered, WritesOnOk};
ghost use Rattle.sim_base.specs.Faults.{IsWriteFault};
ghost use Rattle.reports.specs.Stats.{value_fields, core_rows, channel_rows, stats_text};
ghost use Rattle.reports.specs.Tables.{AddsRows};
ghost use Rattle.statistics.specs.Counters.{counter_of, named};

mod unit;

use self::unit::Unit;
use crate::line::{put, put_last_wide, put_word};
use crate::table::RowBuffer;
use sim_base::fault::Fault;
use statistics::channels::{self, ChannelStats};
use statistics::cores::{self, CoreStats};
use statistics::counters::Counter;
use statistics::numbers::count;
use statistics::stats::Stats;
use std::alloc::Global;
use std::io::Write;

// A row, whose fields are put together from the last to the first.
fn write_number<W: Write>(
    table: &mut RowBuffer,
    unit: Unit,
    counter: Counter,
    number: Option<u128>,
    writer: &mut W,
)
    ensures { AddsRows W.contents writer.old table.old writer.new table.new
        (row_text (value_fields unit.scope.now unit.id (counter.name.now, number))) }
{
    let line = &mut table.line;
    let start = put_last_wide(line, number);
    let start = put_word(line, start, counter.name);
    let start = put(line, start, Some(unit.id));
    let start = put_word(line, start, unit.scope);
    table.write_row(start, writer);
}

// The numbers of a unit, each under the name of its counter.
fn write_numbers<W: Write>(
    table: &mut RowBuffer,
    unit: Unit,
    counters: &[Counter],
    numbers: &[Option<u128>],
    writer: &mut W,
)
    requires { length numbers.now ≡ length counters.now }
    ensures { AddsRows W.contents writer.old table.old writer.new table.new
        (rows_text (map (value_fields unit.scope.now unit.id)
        (named (map counter_of counters.now) numbers.now))) }
{
    for (place, counter) in counters.iter().enumerate() {
        write_number(table, unit, *counter, numbers[place], writer);
    }
}

fn write_cores<W: Write>(table: &mut RowBuffer, cores: &[CoreStats], writer: &mut W)
    ensures { AddsRows W.contents writer.old table.old writer.new table.new
        (rows_text (numbered core_rows cores.now)) }
{
    for (id, core) in cores.iter().enumerate() {
        let unit = Unit {
            scope: b"core",
            id: id as u64,
        };
        write_numbers(table, unit, &cores::counters(), &core.numbers(), writer);
    }
}

fn write_channel<W: Write>(table: &mut RowBuffer, id: u64, channel: &ChannelStats, writer: &mut W)
    ensures { AddsRows W.contents writer.old table.old writer.new table.new
        (rows_text (channel_rows id channel.now)) }
{
    let unit = Unit {
        scope: b"channel",
        id,
    };
    write_numbers(
        table,
        unit,
        &channels::counters(),
        &channel.numbers(),
        writer,
    );
    let Some(cycles) = channel.draining else {
        return;
    };
    let number = Some(u128::from(cycles));
    write_number(table, unit, count(b"draining"), number, writer);
}

fn write_channels<W: Write>(table: &mut RowBuffer, channels: &[ChannelStats], writer: &mut W)
    ensures { AddsRows W.contents writer.old table.old writer.new table.new
        (rows_text (numbered channel_rows channels.now)) }
{
    for (id, channel) in channels.iter().enumerate() {
        write_channel(table, id as u64, channel, writer);
    }
}

// The header, how many cycles there were, and then each core and each channel.
fn write_rows<W: Write>(table: &mut RowBuffer, stats: &Stats, writer: &mut W)
    ensures { AddsRows W.contents writer.old table.old writer.new table.new
        (stats_text stats.now) }
{
    table.write_text(b"scope,id,name,value", writer);
    let run = Unit {
        scope: b"run",
        id: 0,
    };
    let cycles = Some(u128::from(stats.cycles));
    write_number(table, run, count(b"cycles"), cycles, writer);
    write_cores(table, &stats.cores, writer);
    write_channels(table, &stats.channels, writer);
}

/// Writes the table of statistics: a header, how many cycles there were, and then a row for each count of each core and
/// of each channel, by number. A channel that may drain its writes has a row `draining` after all others.
///
/// The call takes memory for two batches of rows, 256 KB each, and some 14 KB for the writer of `csv` and what it is
/// handed.
///
/// # Errors
///
/// `Fault::Memory` where memory is refused, and `Fault::Write` where the writer fails or takes no byte. How much
/// went out before that is not known.
pub fn write_stats<W: Write>(alloc: Global, stats: &Stats, writer: &mut W) -> Result<(), Fault>
    ensures written { WritesOnOk result W.contents writer.old writer.new (stats_text stats.now) }
    ensures refused { IfErr result (λ e. IsWriteFault e) }
{
    let mut table = RowBuffer::new(alloc);
    write_rows(&mut table, stats, writer);
    table.finish(writer)
}
