//! The verdict on a whole table.

ghost use Rattle.std.specs.Prelude.{List, ◌≡◌, ◌↔◌, ◌+◌, ◌≤◌, [], length, Ok, None, IfOk, IfErr, IfSome};
ghost use Rattle.csv.specs.Records.{fields_of};
ghost use Rattle.sim_base.specs.Rules.{rules};
ghost use Rattle.sim_base.specs.declared.command.IssuedCommand.{IssuedCommand};
ghost use Rattle.rule_check.specs.Judged.{Decides, KeepsRow};
ghost use Rattle.rule_check.specs.Left.{IsReading, left_of};
ghost use Rattle.rule_check.specs.Past.{IsPast};
ghost use Rattle.rule_check.specs.Verdict.{records_of, verdict, verdict_after, IsCheckFault, IsLegalTable};
ghost use Rattle.sim_base.specs.Faults.{IsFaultOf};

use crate::fields::{is_header, row_in};
use crate::limits::Limits;
use crate::past::{lowest_broken, note, start};
use crate::reading::{open, read_next};
use crate::state::Past;
use crate::verdict::Verdict;
use csv::{ByteRecord, Reader};
use sim_base::config::Config;
use sim_base::fault::Fault;
use sim_base::rule::Rule;
use std::alloc::Global;
use timing::rules::rules;

// The verdict, if this row decides it; otherwise the row is kept.
fn judge(
    config: &Config,
    table: &[Rule],
    past: &mut Past,
    number: u64,
    fields: &ByteRecord,
) -> Option<Result<Verdict, Fault>>
    requires table { table.now ≡ rules config.now.timing }
    requires stands { (rows : List IssuedCommand) × IsPast past.old config.now rows }
    ensures decided { IfSome result (Decides config.now past.old number (fields_of fields.now)) }
    ensures kept { result ≡ None → KeepsRow config.now past.old past.new number
        (fields_of fields.now) }
    ensures fault { IfSome result (λ answer. IfErr answer IsCheckFault) }
{
    let Some(row) = row_in(Limits::of(config), fields) else {
        return Some(Err(Fault::CheckRow(number)));
    };
    if let Some(rule) = lowest_broken(past, config, table, row) {
        return Some(Ok(Verdict::Broken { row: number, rule }));
    }
    note(past, config, row);
    None
}

// The verdict on the rows after the header. Each round reads one, and there are enough rounds.
fn check_rows(
    alloc: Global,
    config: &Config,
    most_reads: u64,
    reader: &mut Reader<&[u8]>,
    fields: &mut ByteRecord,
) -> Result<Verdict, Fault>
    requires reading { IsReading reader.old }
    requires few { length (left_of reader.old) + 2 ≤ most_reads }
    ensures ok { IfOk result (λ v. verdict_after config.now [] 1 (left_of reader.old) ≡ Ok v) }
    ensures refused { IfErr result (IsFaultOf (verdict_after config.now [] 1
        (left_of reader.old))) }
    ensures fault { IfErr result IsCheckFault }
{
    let table = rules(&config.timing);
    let mut past = start(alloc, config)?;
    for number in 1..most_reads {
        let Ok(found) = read_next(reader, fields) else {
            return Err(Fault::Memory);
        };
        if !found {
            return Ok(Verdict::Legal);
        }
        if let Some(answer) = judge(config, &table, &mut past, number, fields) {
            return answer;
        }
    }
    unreachable!()
}

// The verdict on the records that are left, the first of which must be the header.
fn check_left(
    alloc: Global,
    config: &Config,
    most_reads: u64,
    reader: &mut Reader<&[u8]>,
    fields: &mut ByteRecord,
) -> Result<Verdict, Fault>
    requires reading { IsReading reader.old }
    requires few { length (left_of reader.old) + 1 ≤ most_reads }
    ensures ok { IfOk result (λ v. verdict config.now (left_of reader.old) ≡ Ok v) }
    ensures refused { IfErr result (IsFaultOf (verdict config.now (left_of reader.old))) }
    ensures fault { IfErr result IsCheckFault }
{
    let Ok(found) = read_next(reader, fields) else {
        return Err(Fault::Memory);
    };
    if !found {
        return Err(Fault::CheckRow(0));
    }
    if !is_header(config.ranks, fields) {
        return Err(Fault::CheckRow(0));
    }
    check_rows(alloc, config, most_reads, reader, fields)
}

// The verdict on a table, whose records are read one after the other.
fn check_records(alloc: Global, config: &Config, table: &[u8]) -> Result<Verdict, Fault>
    ensures ok { IfOk result (λ v. verdict config.now (records_of table.now) ≡ Ok v) }
    ensures refused { IfErr result (IsFaultOf (verdict config.now (records_of table.now))) }
    ensures fault { IfErr result IsCheckFault }
{
    let mut reader = open(alloc, table);
    let mut fields = ByteRecord::new(alloc);
    let most_reads = table.len() as u64 + 2;
    check_left(alloc, config, most_reads, &mut reader, &mut fields)
}

/// Tests a table of commands under a configuration: its text is read as comma-separated values, whose first record must
/// be the header. The first row that is malformed, or that breaks a rule of DDR4 over the rows before it, decides.
///
/// A malformed row is `CheckRow` with its number, counted from 1 by records and not by lines; 0 is a missing or wrong
/// header. A broken rule is not an error: the verdict names the row and the lowest rule that it breaks. Otherwise only
/// memory can be refused. The time is proportional to the length of the table, and the memory is that of one row and of
/// what the rules need of the rows before it.
pub fn check(alloc: Global, config: &Config, table: &[u8]) -> Result<Verdict, Fault>
    ensures ok { IfOk result (λ v. verdict config.now (records_of table.now) ≡ Ok v) }
    ensures refused { IfErr result (IsFaultOf (verdict config.now (records_of table.now))) }
    ensures legal { IfOk result (λ v. (v ≡ Verdict.Legal)
        ↔ IsLegalTable config.now (records_of table.now)) }
    ensures fault { IfErr result IsCheckFault }
{
    check_records(alloc, config, table)
}
