//! The records of a table, read one after the other.

ghost use Rattle.std.specs.Prelude.{◌≡◌, IfErr, IfOk};
ghost use Rattle.csv.specs.Records.{fields_of};
ghost use Rattle.rule_check.specs.Left.{IsReading, Takes, left_of};
ghost use Rattle.rule_check.specs.Verdict.{records_of};

use csv::{ByteRecord, Reader, ReaderBuilder};
use sim_base::fault::Fault;
use std::alloc::Global;

/// A reader of a table, before its first record.
pub fn open<'t>(alloc: Global, table: &'t [u8]) -> Reader<&'t [u8]>
    ensures reading { IsReading result }
    ensures left { left_of result ≡ records_of table.now }
{
    ReaderBuilder::new()
        .has_headers(false)
        .flexible(true)
        .from_reader(alloc, table)
}

/// Reads the next record, and tells whether there was one. The only error is out of memory.
pub fn read_next(reader: &mut Reader<&[u8]>, row: &mut ByteRecord) -> Result<bool, Fault>
    requires { IsReading reader.old }
    ensures takes { IfOk result (λ found. Takes reader.old found (fields_of row.new) reader.new) }
    ensures fault { IfErr result (λ e. e ≡ Fault.Memory) }
{
    let Ok(found) = reader.read_byte_record(row) else {
        return Err(Fault::Memory);
    };
    Ok(found)
}
