//! The table of requests.

ghost use Rattle.std.specs.Prelude.{◌≡◌, ◌+◌, ◌<◌, ◌≤◌, List, true, MatchResult, length, drop, IfSome, IfOk, IfErr, OnOk};
ghost use Rattle.request_table.specs.declared.times.RequestTimes.{RequestTimes as Row};
ghost use Rattle.csv.specs.Records.{fields_of};
ghost use Rattle.rule_check.specs.Fields.{text_at};
ghost use Rattle.rule_check.specs.Verdict.{records_of, IsCheckFault};
ghost use Rattle.run_tables.specs.Records.{IsFaultAt, IsRefusedFor};
ghost use Rattle.run_tables.specs.RequestRows.{exact_below, replied_in, access_in, hit_in, asked_in, times_in, is_reply_to, follows, in_time, request_from, request_in, first_request, is_request_header, begins_requests};
ghost use Rattle.run_tables.specs.Requests.{turn, HasNoHeader, IsTooEarly, IsRequestTable, HoldsRequests};

use crate::fields::is_at;
use crate::numbers::number_in;
use crate::records::Records;
use csv::ByteRecord;
use request_table::times::RequestTimes;
use rule_check::fields::text_at;
use sim_base::fault::Fault;
use sim_base::message::{Access, ChannelId, CoreId, Cycle};
use std::alloc::Global;

/// Each entry and each cycle of a table is below this one.
const LIMIT: u64 = 1 << 62;

/// The fields of a row that tell who asks what.
#[derive(Clone, Copy)]
struct AskedFields {
    core: CoreId,
    entry: u64,
    access: Access,
    channel: ChannelId,
}

/// The fields of a row that tell when it was where.
#[derive(Clone, Copy)]
struct TimeFields {
    issued: Cycle,
    arrived: Cycle,
    served: Cycle,
    replied: Option<Cycle>,
}

// The number in a field, if it is below a limit and written without a leading zero.
#[tactic(auto, unfolding(crate::specs::RequestRows::exact_below))]
fn exact_below(limit: u64, text: &[u8]) -> Option<u64>
    ensures value { result ≡ exact_below limit text.now }
    ensures below { IfSome result (λ number. number < limit) }
{
    match number_in(text) {
        Some(number) if number < u128::from(limit) => Some(number as u64),
        _ => None,
    }
}

// The cycle in a field that may be empty.
#[tactic(auto, unfolding(crate::specs::RequestRows::replied_in))]
fn replied_in(text: &[u8]) -> Option<Option<Cycle>>
    ensures { result ≡ replied_in text.now }
{
    if text.is_empty() {
        return Some(None);
    }
    match exact_below(LIMIT, text) {
        Some(cycle) => Some(Some(cycle)),
        None => None,
    }
}

// What a word asks.
#[tactic(auto, unfolding(crate::specs::RequestRows::access_in))]
fn access_in(fields: &ByteRecord, k: usize) -> Option<Access>
    ensures { result ≡ access_in (text_at (fields_of fields.now) k) }
{
    if is_at(fields, k, b"read") {
        Some(Access::Read)
    } else if is_at(fields, k, b"write") {
        Some(Access::Write)
    } else {
        None
    }
}

// Whether a digit tells a hit.
#[tactic(auto, unfolding(crate::specs::RequestRows::hit_in))]
fn hit_in(fields: &ByteRecord, k: usize) -> Option<bool>
    ensures { result ≡ hit_in (text_at (fields_of fields.now) k) }
{
    if is_at(fields, k, b"1") {
        Some(true)
    } else if is_at(fields, k, b"0") {
        Some(false)
    } else {
        None
    }
}

// Who asks what.
#[tactic(auto, unfolding(crate::specs::RequestRows::asked_in))]
fn asked_in(fields: &ByteRecord) -> Option<AskedFields>
    ensures { result ≡ asked_in (fields_of fields.now) }
{
    let core = exact_below(256, text_at(fields, 0))?;
    let entry = exact_below(LIMIT, text_at(fields, 1))?;
    let access = access_in(fields, 2)?;
    let channel = exact_below(16, text_at(fields, 3))?;
    Some(AskedFields {
        core: core as CoreId,
        entry,
        access,
        channel: channel as ChannelId,
    })
}

// When it was where.
#[tactic(auto, unfolding(crate::specs::RequestRows::times_in))]
fn times_in(fields: &ByteRecord) -> Option<TimeFields>
    ensures { result ≡ times_in (fields_of fields.now) }
{
    let issued = exact_below(LIMIT, text_at(fields, 4))?;
    let arrived = exact_below(LIMIT, text_at(fields, 5))?;
    let served = exact_below(LIMIT, text_at(fields, 6))?;
    let replied = replied_in(text_at(fields, 7))?;
    Some(TimeFields {
        issued,
        arrived,
        served,
        replied,
    })
}

// Whether the reply to a request can come then.
fn is_reply_to(access: Access, served: Cycle, replied: Option<Cycle>) -> bool
    ensures { result ≡ is_reply_to access served replied }
{
    match (access, replied) {
        (Access::Read | Access::Write, None) => true,
        (Access::Read, Some(cycle)) => served < cycle,
        (Access::Write, Some(_)) => false,
    }
}

// Whether no step of a request is before the last one.
fn follows(row: RequestTimes) -> bool
    ensures { result ≡ follows row }
{
    row.issued <= row.arrived
        && row.arrived <= row.served
        && is_reply_to(row.access, row.served, row.replied)
}

fn in_time(row: RequestTimes) -> Option<RequestTimes>
    ensures { result ≡ in_time row }
{
    if follows(row) { Some(row) } else { None }
}

// The row that a record of nine fields writes.
#[tactic(auto, unfolding(crate::specs::RequestRows::request_from))]
fn request_from(fields: &ByteRecord) -> Option<RequestTimes>
    ensures { result ≡ request_from (fields_of fields.now) }
{
    let asked = asked_in(fields)?;
    let times = times_in(fields)?;
    let hit = hit_in(fields, 8)?;
    in_time(RequestTimes {
        core: asked.core,
        entry: asked.entry,
        access: asked.access,
        channel: asked.channel,
        issued: times.issued,
        arrived: times.arrived,
        served: times.served,
        replied: times.replied,
        hit,
    })
}

// The row that a record writes, if its fields are those of one.
#[tactic(auto, unfolding(crate::specs::RequestRows::request_in))]
fn request_in(fields: &ByteRecord) -> Option<RequestTimes>
    ensures { result ≡ request_in (fields_of fields.now) }
{
    if fields.len() == 9 {
        request_from(fields)
    } else {
        None
    }
}

#[tactic(auto, unfolding(crate::specs::RequestRows::is_request_header))]
fn is_header(fields: &ByteRecord) -> bool
    ensures { result ≡ is_request_header (fields_of fields.now) }
{
    fields.len() == 9
        && is_at(fields, 0, b"core")
        && is_at(fields, 1, b"entry")
        && is_at(fields, 2, b"access")
        && is_at(fields, 3, b"channel")
        && is_at(fields, 4, b"issued")
        && is_at(fields, 5, b"arrived")
        && is_at(fields, 6, b"served")
        && is_at(fields, 7, b"replied")
        && is_at(fields, 8, b"hit")
}

// Where a row stands among the others: by the cycle of its RD or WR, and among those of a cycle by its channel.
fn turn(row: RequestTimes) -> u128
    ensures { result ≡ turn row }
{
    16 * u128::from(row.served) + u128::from(row.channel)
}

// Drops the header.
fn take_header(records: &mut Records<'_>) -> Result<(), Fault>
    ensures header { OnOk result (begins_requests records.old.records ≡ true) }
    ensures rest { OnOk result (records.new.records ≡ drop 1 records.old.records) }
    ensures row { OnOk result (records.new.row ≡ records.old.row + 1) }
    ensures refused { IfErr result (IsFaultAt records.old.row (HasNoHeader records.old.records)) }
    ensures fault { IfErr result IsCheckFault }
{
    let fault = records.fault();
    if records.is_empty() {
        return Err(fault);
    }
    if !is_header(records.first()) {
        return Err(fault);
    }
    records.drop_first()?;
    Ok(())
}

// Takes the next row, which must not stand before this place.
fn take_row(records: &mut Records<'_>, least: u128) -> Result<RequestTimes, Fault>
    requires { 0 < length records.old.records }
    ensures read { IfOk result (λ row. first_request records.old.records ≡ Some row) }
    ensures later { IfOk result (λ row. least ≤ turn row) }
    ensures rest { OnOk result (records.new.records ≡ drop 1 records.old.records) }
    ensures row { OnOk result (records.new.row ≡ records.old.row + 1) }
    ensures refused { IfErr result
        (IsFaultAt records.old.row (IsTooEarly least records.old.records)) }
    ensures fault { IfErr result IsCheckFault }
{
    let Some(row) = request_in(records.first()) else {
        return Err(records.fault());
    };
    if turn(row) < least {
        return Err(records.fault());
    }
    records.drop_first()?;
    Ok(row)
}

// The requests of a table, all of whose records are left.
fn take_rows(alloc: Global, records: &mut Records<'_>) -> Result<Vec<RequestTimes>, Fault>
    requires { records.old.row ≡ 0 }
    ensures read { IfOk result (λ rows. IsRequestTable records.old.records rows.items) }
    ensures refused { IfErr result (IsRefusedFor HoldsRequests records.old.records) }
{
    take_header(records)?;
    let mut rows = Vec::new(alloc);
    let mut least = 0u128;
    while !records.is_empty() {
        let row = take_row(records, least)?;
        rows.push(row).map_err(|_| Fault::Memory)?;
        least = turn(row) + 1;
    }
    Ok(rows)
}

// The requests of a table, record by record.
fn read_rows(alloc: Global, table: &[u8]) -> Result<Vec<RequestTimes>, Fault>
    ensures read { IfOk result (λ rows. IsRequestTable (records_of table.now) rows.items) }
    ensures refused { IfErr result (IsRefusedFor HoldsRequests (records_of table.now)) }
{
    let mut records = Records::of(alloc, table)?;
    take_rows(alloc, &mut records)
}

/// Reads the table of the requests of a run, `requests.csv`, under no configuration: the very rows whose table it is.
/// Each row has exactly its fields, without leading zeros; the core is below 256, the channel below 16, entry and
/// cycles are below 2^62; a request arrives in no cycle before it is issued and is served in none before it arrives;
/// only a read has a reply, which comes after its RD. The rows stand by the cycle of their RD or WR, and those of a
/// cycle by their channel, of which each is named once.
///
/// # Errors
///
/// `Fault::CheckRow` with the first record that is not like this: 0 is the header, even if it is missing, and rows are
/// counted from 1. `Fault::Memory` where memory is refused. A table that is like this is refused for memory alone.
pub fn read_requests(alloc: Global, table: &[u8]) -> Result<Vec<RequestTimes>, Fault>
    ensures read { IfOk result (λ rows. IsRequestTable (records_of table.now) rows.items) }
    ensures refused { IfErr result (IsRefusedFor HoldsRequests (records_of table.now)) }
    ensures inverse { (rows : List Row) → IsRequestTable (records_of table.now) rows
        → MatchResult result (λ found. found.items ≡ rows) (λ e. e ≡ Fault.Memory) }
    ensures fault { IfErr result IsCheckFault }
{
    read_rows(alloc, table)
}
