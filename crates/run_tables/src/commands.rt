//! The table of commands.

ghost use Rattle.std.specs.Prelude.{◌≡◌, ◌+◌, ◌<◌, ◌≤◌, List, Some, MatchResult, length, drop, IfOk, IfErr, OnOk};
ghost use Rattle.sim_base.specs.declared.command.IssuedCommand.{IssuedCommand as Row};
ghost use Rattle.csv.specs.Records.{fields_of};
ghost use Rattle.command_table.specs.Tables.{IsRising};
ghost use Rattle.rule_check.specs.Verdict.{records_of, IsCheckFault};
ghost use Rattle.run_tables.specs.Commands.{with_rank, without_rank, limits_told, first_told, first_read, HasNoHeader, IsTooEarly, IsCommandTable, HoldsCommands};
ghost use Rattle.run_tables.specs.Records.{IsFaultAt, IsRefusedFor};

use crate::records::Records;
use command_table::list::CommandList;
use csv::ByteRecord;
use rule_check::fields::{is_header, row_in};
use rule_check::limits::Limits;
use sim_base::command::IssuedCommand;
use sim_base::fault::Fault;
use sim_base::message::Cycle;
use std::alloc::Global;

// What the numbers of a table are below that has a column for the rank.
fn with_rank() -> Limits
    ensures { result ≡ with_rank }
{
    Limits {
        channels: 16,
        ranks: 4,
        groups: 4,
        rows: 262_144,
        columns: 1_024,
        cores: 256,
    }
}

// What the numbers of a table are below that has no such column.
fn without_rank() -> Limits
    ensures { result ≡ without_rank }
{
    Limits {
        channels: 16,
        ranks: 1,
        groups: 4,
        rows: 262_144,
        columns: 1_024,
        cores: 256,
    }
}

// What the numbers of the table with this header are below, if it is one.
#[tactic(auto, unfolding(crate::specs::Commands::limits_told))]
fn limits_told(header: &ByteRecord) -> Option<Limits>
    ensures { result ≡ limits_told (fields_of header.now) }
{
    if is_header(4, header) {
        Some(with_rank())
    } else if is_header(1, header) {
        Some(without_rank())
    } else {
        None
    }
}

// Drops the header, which tells the columns.
fn take_header(records: &mut Records<'_>) -> Result<Limits, Fault>
    ensures header { IfOk result (λ limits. first_told records.old.records ≡ Some limits) }
    ensures rest { OnOk result (records.new.records ≡ drop 1 records.old.records) }
    ensures row { OnOk result (records.new.row ≡ records.old.row + 1) }
    ensures refused { IfErr result (IsFaultAt records.old.row (HasNoHeader records.old.records)) }
    ensures fault { IfErr result IsCheckFault }
{
    let fault = records.fault();
    if records.is_empty() {
        return Err(fault);
    }
    let Some(limits) = limits_told(records.first()) else {
        return Err(fault);
    };
    records.drop_first()?;
    Ok(limits)
}

// Takes the next row.
fn take_row(
    records: &mut Records<'_>,
    limits: Limits,
    earliest: Cycle,
) -> Result<IssuedCommand, Fault>
    requires { 0 < length records.old.records }
    ensures read { IfOk result (λ row. first_read limits records.old.records ≡ Some row) }
    ensures later { IfOk result (λ row. earliest ≤ row.cycle) }
    ensures rest { OnOk result (records.new.records ≡ drop 1 records.old.records) }
    ensures row { OnOk result (records.new.row ≡ records.old.row + 1) }
    ensures refused { IfErr result
        (IsFaultAt records.old.row (IsTooEarly limits earliest records.old.records)) }
    ensures fault { IfErr result IsCheckFault }
{
    let Some(row) = row_in(limits, records.first()) else {
        return Err(records.fault());
    };
    if row.cycle < earliest {
        return Err(records.fault());
    }
    records.drop_first()?;
    Ok(row)
}

// The commands of a table, all of whose records are left.
fn take_rows(alloc: Global, records: &mut Records<'_>) -> Result<CommandList, Fault>
    requires { records.old.row ≡ 0 }
    ensures read { IfOk result (λ rows. IsCommandTable records.old.records rows) }
    ensures refused { IfErr result (IsRefusedFor HoldsCommands records.old.records) }
{
    let limits = take_header(records)?;
    let mut rows = CommandList::new(alloc);
    let mut earliest = 0;
    while !records.is_empty() {
        let row = take_row(records, limits, earliest)?;
        rows.push(row)?;
        earliest = row.cycle;
    }
    Ok(rows)
}

// The commands of a table, record by record.
fn read_rows(alloc: Global, table: &[u8]) -> Result<CommandList, Fault>
    ensures read { IfOk result (λ rows. IsCommandTable (records_of table.now) rows) }
    ensures refused { IfErr result (IsRefusedFor HoldsCommands (records_of table.now)) }
{
    let mut records = Records::of(alloc, table)?;
    take_rows(alloc, &mut records)
}

/// Reads the table of commands of a run, `commands.csv`, with or without a column for the rank, under no configuration:
/// the very commands whose table it is. Each command has exactly its fields; the channel is below 16, rank, group and
/// bank below 4, the row below 262,144, the column below 1,024, the core below 256, cycle and entry below 2^62, and no
/// cycle is before that of the row above. Numbers may have leading zeros.
///
/// The memory is that of the list, and of one row.
///
/// # Errors
///
/// `Fault::CheckRow` with the first record that is not like this: 0 is the header, even if it is missing, and rows are
/// counted from 1. `Fault::Memory` where memory is refused. A table that is like this is refused for memory alone.
pub fn read_commands(alloc: Global, table: &[u8]) -> Result<CommandList, Fault>
    ensures read { IfOk result (λ rows. IsCommandTable (records_of table.now) rows) }
    ensures refused { IfErr result (IsRefusedFor HoldsCommands (records_of table.now)) }
    ensures inverse { (rows : List Row) → IsCommandTable (records_of table.now) rows
        → MatchResult result (λ found. found ≡ rows) (λ e. e ≡ Fault.Memory) }
    ensures rows { IfOk result (λ rows. length (records_of table.now) ≡ length rows + 1) }
    ensures rising { IfOk result IsRising }
    ensures fault { IfErr result IsCheckFault }
{
    read_rows(alloc, table)
}
