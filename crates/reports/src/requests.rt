//! The table of requests, `requests.csv`.

ghost use Rattle.std.specs.Prelude.{◌≡◌, ◌<◌, ◌≤◌, ◌+◌, ◌++◌, ◌∷◌, length, drop, codes, IfErr};
ghost use Rattle.reports.specs.Rows.{comma, fields_text, row_text, WritesOnOk};
ghost use Rattle.sim_base.specs.Faults.{IsWriteFault};
ghost use Rattle.reports.specs.Tables.{AddsRows};
ghost use Rattle.reports.specs.Requests.{request_header, access_word, time_fields, request_fields, request_lines, requests_text};

use crate::line::{Line, put, put_last, put_word};
use crate::pieces::{MANY, MOST, TableLines, TableThreads, write_pieces, write_whole};
use crate::table::{Loss, RowBuffer};
use request_table::table::{RequestTable, Rows};
use request_table::times::RequestTimes;
use sim_base::fault::Fault;
use sim_base::message::Access;
use std::alloc::Global;
use std::io::Write;
use std::thread::Threads;

// The word of what a request asks, before the fields behind it.
#[inline(always)]
fn put_access(line: &mut Line, end: usize, access: Access) -> usize
    requires { (6 ≤ end) × (end ≤ 256) }
    ensures text { drop result line.new ≡ access_word access ++ comma ∷ drop end line.old }
    ensures low { end ≤ result + 6 }
    ensures high { result < end }
{
    match access {
        Access::Read => put_word(line, end, b"read"),
        Access::Write => put_word(line, end, b"write"),
    }
}

// The fields of when the request was where, from the last to the first.
#[inline(always)]
fn put_times(line: &mut Line, row: &RequestTimes) -> usize
    ensures text { drop result line.new ≡ fields_text (time_fields row.now) }
    ensures low { 131 ≤ result }
    ensures high { result ≤ 256 }
{
    let start = put_last(line, Some(u64::from(row.hit)));
    let start = put(line, start, row.replied);
    let start = put(line, start, Some(row.served));
    let start = put(line, start, Some(row.arrived));
    put(line, start, Some(row.issued))
}

// A row, whose fields are put together from the last to the first.
fn write_request<W: Write>(table: &mut RowBuffer, row: &RequestTimes, writer: &mut W)
    ensures { AddsRows W.contents writer.old table.old writer.new table.new
        (row_text (request_fields row.now)) }
{
    let line = &mut table.line;
    let start = put_times(line, row);
    let start = put(line, start, Some(u64::from(row.channel)));
    let start = put_access(line, start, row.access);
    let start = put(line, start, Some(row.entry));
    let start = put(line, start, Some(u64::from(row.core)));
    table.write_row(start, writer);
}

// Each request that is left.
fn write_each<W: Write>(table: &mut RowBuffer, mut rows: Rows<'_>, writer: &mut W)
    ensures { AddsRows W.contents writer.old table.old writer.new table.new
        (request_lines rows.entry) }
{
    while let Some(row) = rows.next() {
        write_request(table, &row, writer);
    }
}

/// The lines of the table of requests.
#[derive(Clone, Copy)]
struct RequestLines;

impl<'a> TableLines<Rows<'a>> for RequestLines {
    ghost header_line = { λ of. row_text request_header };

    ghost lines = { λ of rows. request_lines rows };

    fn columns(&self) -> &'static [u8]
        ensures names { result.now ++ codes "\n" ≡ row_text request_header }
        ensures some { 0 < length result.now }
        ensures short { length result.now ≤ 256 }
    {
        b"core,entry,access,channel,issued,arrived,served,replied,hit"
    }

    fn write_lines<W: Write>(
        &self,
        alloc: Global,
        piece: &Rows<'a>,
        table: &mut RowBuffer,
        writer: &mut W,
    )
        ensures { AddsRows W.contents writer.old table.old writer.new table.new
            (request_lines piece.now) }
    {
        match piece.copied(alloc) {
            Ok(rows) => write_each(table, rows, writer),
            Err(_) => table.lose(Loss::Memory),
        }
    }
}

/// Writes the table of requests: a header, and then a row for each request, in their order. The call takes as much
/// memory as `write_commands`.
///
/// # Errors
///
/// `Fault::Memory` where memory is refused, and `Fault::Write` where the writer fails or takes no byte. How much
/// went out before that is not known.
pub fn write_requests<W: Write>(
    alloc: Global,
    requests: &RequestTable,
    writer: &mut W,
) -> Result<(), Fault>
    ensures written { WritesOnOk result W.contents writer.old writer.new
        (requests_text requests.now) }
    ensures refused { IfErr result (λ e. IsWriteFault e) }
{
    let rows = requests.rows(alloc)?;
    write_whole(alloc, &RequestLines, &rows, writer)
}

/// Writes the table of requests as `write_requests` does, put together by several threads, as `write_commands_by` puts
/// the table of commands together.
///
/// # Errors
///
/// `Fault::Memory` where memory is refused, and `Fault::Write` where the writer fails or takes no byte. How much
/// went out before that is not known.
pub fn write_requests_by<R: Threads + Sync, W: Write>(
    threads: &TableThreads<'_, R>,
    requests: &RequestTable,
    writer: &mut W,
) -> Result<(), Fault>
    ensures written { WritesOnOk result W.contents writer.old writer.new
        (requests_text requests.now) }
    ensures refused { IfErr result (λ e. IsWriteFault e) }
{
    if threads.count < 2 {
        return write_requests(threads.alloc, requests, writer);
    }
    let pieces = requests.pieces(threads.alloc, MOST)?;
    if pieces.len() < MANY {
        return write_requests(threads.alloc, requests, writer);
    }
    write_pieces(threads, &RequestLines, &pieces, writer)
}
