//! The table of statistics.

ghost use Rattle.std.specs.Prelude.{◌≡◌, ◌⊎◌, ◌≤◌, ◌<◌, ◌^◌, ◌+◌, ◌*◌, ◌∷◌, decimal, length, map, slice_get, Ok, Err, MatchResult, IfOk, IfErr};
ghost use Rattle.std.specs.Str.{bytes_eq};
ghost use Rattle.csv.specs.Records.{fields_of};
ghost use Rattle.statistics.specs.Counters.{counter_of};
ghost use Rattle.statistics.specs.Values.{RunStats};
ghost use Rattle.reports.specs.Stats.{stats_header, stats_rows};
ghost use Rattle.rule_check.specs.Fields.{text_at};
ghost use Rattle.rule_check.specs.Verdict.{records_of, IsCheckFault};
ghost use Rattle.run_tables.specs.Lines.{is_line, optional_written, line_value, narrow, value_in, sum_in, count_in, cycle_in, has_text, is_stats_header, is_header_row};
ghost use Rattle.run_tables.specs.Records.{IsRefusedFor};
ghost use Rattle.run_tables.specs.Stats.{IsStatsTable, HoldsStats};
ghost use Rattle.run_tables.specs.Units.{number_at, numbers_at, core_records, core_at, draining_at, channel_records, channel_at, channel_size, has_core, has_channel, CoresAre, CoresStop, ChannelsAre, ChannelsStop, IsRead};

use crate::fields::is_at;
use crate::numbers::number_in;
use crate::records::RecordList;
use csv::ByteRecord;
use rule_check::fields::text_at;
use sim_base::fault::Fault;
use sim_base::message::Cycle;
use statistics::channels::{self, ChannelStats};
use statistics::cores::{self, CoreStats};
use statistics::counters::{Counter, CounterKind};
use statistics::stats::Stats;
use std::alloc::Global;

#[tactic(auto, unfolding(crate::specs::Lines::is_stats_header))]
fn is_header(fields: &ByteRecord) -> bool
    ensures { result ≡ is_stats_header (fields_of fields.now) }
{
    fields.len() == 4
        && is_at(fields, 0, b"scope")
        && is_at(fields, 1, b"id")
        && is_at(fields, 2, b"name")
        && is_at(fields, 3, b"value")
}

fn has_header(table: &RecordList) -> bool
    ensures { result ≡ is_header_row (slice_get table.now 0) }
{
    match table.get(0) {
        Some(fields) => is_header(fields),
        None => false,
    }
}

/// The unit that a line is about.
#[derive(Clone, Copy)]
struct Unit {
    scope: &'static [u8],
    id: u64,
}

#[tactic(auto)]
fn is_number_at(fields: &ByteRecord, k: usize, number: u64) -> bool
    ensures { result ≡ bytes_eq (text_at (fields_of fields.now) k) (decimal number) }
{
    match number_in(text_at(fields, k)) {
        Some(found) => found == u128::from(number),
        None => false,
    }
}

// Whether a record is the line of a count, whatever its value.
fn is_line(fields: &ByteRecord, unit: Unit, name: &[u8]) -> bool
    ensures { result ≡ is_line unit.scope.now unit.id name.now (fields_of fields.now) }
{
    fields.len() == 4
        && is_at(fields, 0, unit.scope)
        && is_number_at(fields, 1, unit.id)
        && is_at(fields, 2, name)
}

// The number in a field, or none where the field is empty, if it is one of these.
fn optional_in(text: &[u8]) -> Option<Option<u128>>
    ensures { result ≡ optional_written text.now }
{
    if text.is_empty() {
        return Some(None);
    }
    match number_in(text) {
        Some(number) => Some(Some(number)),
        None => None,
    }
}

// The value of the line of a count, if a record is one.
#[tactic(auto, unfolding(crate::specs::Lines::line_value))]
fn line_value(fields: &ByteRecord, unit: Unit, name: &[u8]) -> Option<Option<u128>>
    ensures { result ≡ line_value unit.scope.now unit.id name.now (fields_of fields.now) }
{
    if is_line(fields, unit, name) {
        optional_in(text_at(fields, 3))
    } else {
        None
    }
}

// The value of the line of a count, which must be the record of a row.
#[tactic(auto, unfolding(crate::specs::Lines::value_in))]
fn value_at(table: &RecordList, row: usize, unit: Unit, name: &[u8]) -> Result<Option<u128>, Fault>
    ensures { result ≡ value_in row unit.scope.now unit.id name.now (slice_get table.now row) }
{
    let fault = Fault::CheckRow(row as u64);
    let Some(fields) = table.get(row) else {
        return Err(fault);
    };
    match line_value(fields, unit, name) {
        Some(value) => Ok(value),
        None => Err(fault),
    }
}

// A sum.
#[tactic(auto, unfolding(crate::specs::Lines::sum_in))]
fn sum_at(table: &RecordList, row: usize, unit: Unit, name: &[u8]) -> Result<u128, Fault>
    ensures { result ≡ sum_in row unit.scope.now unit.id name.now (slice_get table.now row) }
{
    match value_at(table, row, unit, name)? {
        Some(sum) => Ok(sum),
        None => Err(Fault::CheckRow(row as u64)),
    }
}

// A number of a row, if it has 64 bits.
fn narrow(row: usize, number: u128) -> Result<u64, Fault>
    ensures { result ≡ narrow row number }
{
    match u64::try_from(number) {
        Ok(number) => Ok(number),
        Err(_) => Err(Fault::CheckRow(row as u64)),
    }
}

// A count.
#[tactic(auto, unfolding(crate::specs::Lines::count_in))]
fn count_at(table: &RecordList, row: usize, unit: Unit, name: &[u8]) -> Result<u64, Fault>
    ensures { result ≡ count_in row unit.scope.now unit.id name.now (slice_get table.now row) }
{
    narrow(row, sum_at(table, row, unit, name)?)
}

// A cycle that may be missing.
#[tactic(auto, unfolding(crate::specs::Lines::cycle_in))]
fn cycle_at(table: &RecordList, row: usize, unit: Unit, name: &[u8]) -> Result<Option<Cycle>, Fault>
    ensures { result ≡ cycle_in row unit.scope.now unit.id name.now (slice_get table.now row) }
{
    match value_at(table, row, unit, name)? {
        Some(cycle) => Ok(Some(narrow(row, cycle)?)),
        None => Ok(None),
    }
}

// The number of a counter.
fn number_at(
    table: &RecordList,
    row: usize,
    unit: Unit,
    counter: Counter,
) -> Result<Option<u128>, Fault>
    ensures { result ≡ number_at table.now row unit.scope.now unit.id (counter_of counter) }
{
    match counter.kind {
        CounterKind::Count => Ok(Some(u128::from(count_at(table, row, unit, counter.name)?))),
        CounterKind::Sum => Ok(Some(sum_at(table, row, unit, counter.name)?)),
        CounterKind::Cycle => Ok(cycle_at(table, row, unit, counter.name)?.map(u128::from)),
    }
}

// The numbers of a unit's counters, from a row on.
fn read_numbers(
    table: &RecordList,
    row: usize,
    unit: Unit,
    counters: &[Counter],
    numbers: &mut [Option<u128>],
) -> Result<(), Fault>
    requires few { row + length counters.now < 2 ^ 64 }
    requires each { length numbers.old ≡ length counters.now }
    ensures read { IfOk result (λ _. numbers_at table.now row unit.scope.now unit.id
        (map counter_of counters.now) ≡ Ok numbers.new) }
    ensures refused { IfErr result (λ e. numbers_at table.now row unit.scope.now unit.id
        (map counter_of counters.now) ≡ Err e) }
{
    for (place, counter) in counters.iter().enumerate() {
        numbers[place] = number_at(table, row + place, unit, *counter)?;
    }
    Ok(())
}

// The counts of a core, from a row on.
fn core_at(table: &RecordList, row: usize, id: u64) -> Result<CoreStats, Fault>
    requires { row ≤ length table.now }
    ensures value { result ≡ core_at table.now row id }
    ensures few { row + core_records < 2 ^ 64 }
{
    prove!(row <= table.len());
    let core = Unit { scope: b"core", id };
    let mut numbers = [None; cores::COUNTERS];
    read_numbers(table, row, core, &cores::counters(), &mut numbers)?;
    Ok(CoreStats::of_numbers(&numbers))
}

// Whether a field of the record of a row is this text.
fn has_text(table: &RecordList, row: usize, k: usize, text: &[u8]) -> bool
    ensures { result ≡ has_text k text.now (slice_get table.now row) }
{
    match table.get(row) {
        Some(fields) => is_at(fields, k, text),
        None => false,
    }
}

// Whether the counts of a core must follow, after those of this many cores. There is at least one.
fn has_core(count: usize, table: &RecordList, row: usize) -> bool
    ensures { result ≡ has_core count table.now row }
{
    count == 0 || has_text(table, row, 0, b"core")
}

// The counts of each core, from the third record on. There is at least one.
fn read_cores(alloc: Global, table: &RecordList) -> Result<Vec<CoreStats>, Fault>
    requires { 2 ≤ length table.now }
    ensures read { IfOk result (λ cores.
        CoresAre table.now cores.items (2 + core_records * length cores.items)) }
    ensures refused { IfErr result (λ e. (e ≡ Fault.Memory) ⊎ CoresStop table.now e) }
{
    let mut cores = Vec::new(alloc);
    let mut row = 2;
    while has_core(cores.len(), table, row) {
        let core = core_at(table, row, cores.len() as u64)?;
        cores.push(core).map_err(|_| Fault::Memory)?;
        row += cores::COUNTERS;
    }
    Ok(cores)
}

// The count of cycles in which a channel drained its writes, if the record of a row is that.
#[tactic(auto, unfolding(crate::specs::Units::draining_in))]
fn draining_at(table: &RecordList, row: usize, id: u64) -> Result<Option<u64>, Fault>
    ensures { result ≡ draining_at table.now row id }
{
    if has_text(table, row, 2, b"draining") {
        let channel = Unit {
            scope: b"channel",
            id,
        };
        Ok(Some(count_at(table, row, channel, b"draining")?))
    } else {
        Ok(None)
    }
}

// The counts of a channel, from a row on.
fn channel_at(table: &RecordList, row: usize, id: u64) -> Result<ChannelStats, Fault>
    requires { row ≤ length table.now }
    ensures value { result ≡ channel_at table.now row id }
    ensures few { row + channel_records + 1 < 2 ^ 64 }
{
    prove!(row <= table.len());
    let channel = Unit {
        scope: b"channel",
        id,
    };
    let mut numbers = [None; channels::COUNTERS];
    read_numbers(table, row, channel, &channels::counters(), &mut numbers)?;
    let draining = draining_at(table, row + channels::COUNTERS, id)?;
    Ok(ChannelStats::of_numbers(&numbers, draining))
}

// How many records the counts of a channel have.
fn channel_size(channel: &ChannelStats) -> usize
    ensures { result ≡ channel_size channel.now }
{
    match channel.draining {
        Some(_) => channels::COUNTERS + 1,
        None => channels::COUNTERS,
    }
}

// Whether the counts of a channel must follow, after those of this many channels: they end the table, and there is at
// least one.
fn has_channel(count: usize, table: &RecordList, row: usize) -> bool
    ensures { result ≡ has_channel count table.now row }
{
    count == 0 || row < table.len()
}

// The counts of each channel, from a row on to the end of the table. There is at least one.
fn read_channels(
    alloc: Global,
    table: &RecordList,
    start: usize,
) -> Result<Vec<ChannelStats>, Fault>
    requires { start ≤ length table.now }
    ensures read { IfOk result (λ channels. ChannelsAre table.now start channels.items) }
    ensures refused { IfErr result (λ e. (e ≡ Fault.Memory) ⊎ ChannelsStop table.now start e) }
{
    let mut channels = Vec::new(alloc);
    let mut row = start;
    while has_channel(channels.len(), table, row) {
        let channel = channel_at(table, row, channels.len() as u64)?;
        channels.push(channel).map_err(|_| Fault::Memory)?;
        row += channel_size(&channel);
    }
    Ok(channels)
}

// The statistics of a table.
fn read_table(alloc: Global, table: &RecordList) -> Result<Stats, Fault>
    ensures read { IfOk result (λ stats. IsRead table.now stats) }
    ensures refused { IfErr result (IsRefusedFor HoldsStats table.now) }
{
    if !has_header(table) {
        return Err(Fault::CheckRow(0));
    }
    let run = Unit {
        scope: b"run",
        id: 0,
    };
    let cycles = count_at(table, 1, run, b"cycles")?;
    let cores = read_cores(alloc, table)?;
    let channels = read_channels(alloc, table, 2 + cores::COUNTERS * cores.len())?;
    Ok(Stats {
        cycles,
        cores,
        channels,
    })
}

/// Reads the table of statistics of a run, `stats.csv`: the very statistics whose table it is, of one core and one
/// channel or more. It has just the records that `reports::write_stats` writes, in their order, and numbers without
/// leading zeros.
///
/// The memory is that of the records of the table, and of the statistics.
///
/// # Errors
///
/// `Fault::CheckRow` with the first record that is not what must stand there, or that is missing: 0 is the header, and
/// those after it are counted from 1. `Fault::Memory` where memory is refused. A table of statistics is refused for
/// memory alone.
pub fn read_stats(alloc: Global, table: &[u8]) -> Result<Stats, Fault>
    ensures read { IfOk result (λ stats.
        records_of table.now ≡ stats_header ∷ stats_rows stats) }
    ensures refused { IfErr result (IsRefusedFor HoldsStats (records_of table.now)) }
    ensures inverse { (stats : RunStats) → IsStatsTable (records_of table.now) stats
        → MatchResult result (λ found. found ≡ stats) (λ e. e ≡ Fault.Memory) }
    ensures fault { IfErr result IsCheckFault }
{
    let records = RecordList::read(alloc, table)?;
    read_table(alloc, &records)
}
