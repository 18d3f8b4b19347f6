//! The records of a table, read one after the other, or all at once.

ghost use Rattle.std.specs.Prelude.{◌≡◌, ◌+◌, ◌++◌, ◌<◌, ◌^◌, ◌↔◌, [], ◌∷◌, length, map, slice_get, option_map, drop, IsTrue, IfOk, IfErr, OnOk};
ghost use Rattle.csv.specs.Records.{fields_of};
ghost use Rattle.rule_check.specs.Verdict.{records_of};

use csv::{ByteRecord, Reader};
use rule_check::reading::{open, read_next};
use sim_base::fault::Fault;
use std::alloc::{AllocError, Global};
use std::marker::Model;

/// The records of a table that are left, the first of which can be looked at, and the number of that one; the header
/// has number 0.
#[derive(Drop)]
pub(crate) struct Records<'t> {
    reader: Reader<&'t [u8]>,
    first: ByteRecord,
    found: bool,
    row: u64,
}

impl<'t> Model for Records<'t> {
    ghost use Rattle.csv.specs.Records.{fields_of};
    ghost use Rattle.rule_check.specs.Left.{left_of};
    ghost use Rattle.run_tables.specs.Records.{Left, left_at, Stands};

    ghost Value = { Left };

    ghost view = { λ r. left_at r.row r.found (fields_of r.first) (left_of r.reader) };

    ghost invariant = { λ r. Stands r.reader (fields_of r.first) r.found r.row };
}

impl<'t> Records<'t> {
    /// All records of a table. The only error is out of memory.
    pub(crate) fn of(alloc: Global, table: &'t [u8]) -> Result<Records<'t>, Fault>
        ensures all { IfOk result (λ r. r.records ≡ records_of table.now) }
        ensures header { IfOk result (λ r. r.row ≡ 0) }
        ensures fault { IfErr result (λ e. e ≡ Fault.Memory) }
    {
        let mut reader = open(alloc, table);
        let mut first = ByteRecord::new(alloc);
        let found = read_next(&mut reader, &mut first)?;
        prove!(table.len() <= usize::MAX);
        Ok(Records {
            reader,
            first,
            found,
            row: 0,
        })
    }

    /// Whether no record is left.
    pub(crate) fn is_empty(&self) -> bool
        ensures { IsTrue result ↔ (self.now.records ≡ []) }
    {
        !self.found
    }

    /// The first record that is left.
    pub(crate) fn first(&self) -> &ByteRecord
        requires { 0 < length self.now.records }
        ensures { self.now.records ≡ fields_of result.now ∷ drop 1 self.now.records }
    {
        &self.first
    }

    /// The fault for the first record that is left, or for its absence.
    pub(crate) fn fault(&self) -> Fault
        ensures { result ≡ Fault.CheckRow self.now.row }
    {
        Fault::CheckRow(self.row)
    }

    /// Drops the first record that is left. The only error is out of memory.
    pub(crate) fn drop_first(&mut self) -> Result<(), Fault>
        requires { 0 < length self.old.records }
        ensures rest { OnOk result (self.new.records ≡ drop 1 self.old.records) }
        ensures row { OnOk result (self.new.row ≡ self.old.row + 1) }
        ensures fault { IfErr result (λ e. e ≡ Fault.Memory) }
    {
        self.found = false;
        self.found = read_next(&mut self.reader, &mut self.first)?;
        self.row += 1;
        Ok(())
    }
}

/// All records of a table; the header has number 0.
#[derive(Drop)]
pub(crate) struct RecordList {
    records: Vec<ByteRecord>,
}

impl Model for RecordList {
    ghost use Rattle.std.specs.Prelude.{ℕ, List, map};
    ghost use Rattle.csv.specs.Records.{fields_of};

    ghost Value = { List (List (List ℕ)) };

    ghost view = { λ t. map fields_of t.records.items };
}

// Adds a record to others.
fn push_record(records: &mut Vec<ByteRecord>, fields: ByteRecord) -> Result<(), AllocError>
    ensures { OnOk result (records.new.items ≡ records.old.items ++ fields ∷ []) }
{
    Ok(records.push(fields)?)
}

// Adds copies of the records that are left to others. The only error is out of memory.
fn add_left(left: &mut Records<'_>, records: &mut Vec<ByteRecord>) -> Result<(), Fault>
    ensures all { OnOk result (map fields_of records.new.items
        ≡ map fields_of records.old.items ++ left.old.records) }
    ensures fault { IfErr result (λ e. e ≡ Fault.Memory) }
{
    while !left.is_empty() {
        let record = left.first().clone().map_err(|_| Fault::Memory)?;
        push_record(records, record)?;
        left.drop_first()?;
    }
    Ok(())
}

impl RecordList {
    // Takes the records that are left. The only error is out of memory.
    fn of_left(alloc: Global, left: &mut Records<'_>) -> Result<RecordList, Fault>
        ensures all { IfOk result (λ t. t ≡ left.old.records) }
        ensures fault { IfErr result (λ e. e ≡ Fault.Memory) }
    {
        let mut records = Vec::new(alloc);
        add_left(left, &mut records)?;
        Ok(RecordList { records })
    }

    /// Reads a table. The only error is out of memory.
    pub(crate) fn read(alloc: Global, table: &[u8]) -> Result<RecordList, Fault>
        ensures all { IfOk result (λ t. t ≡ records_of table.now) }
        ensures fault { IfErr result (λ e. e ≡ Fault.Memory) }
    {
        let mut left = Records::of(alloc, table)?;
        RecordList::of_left(alloc, &mut left)
    }

    /// How many records it has.
    pub(crate) fn len(&self) -> usize
        ensures value { result ≡ length self.now }
        ensures few { result < 2 ^ 63 }
    {
        self.records.len()
    }

    /// A record.
    pub(crate) fn get(&self, row: usize) -> Option<&ByteRecord>
        ensures { option_map (λ r. fields_of r.now) result ≡ slice_get self.now row }
    {
        self.records.get(row)
    }
}
