//! The table of the state in which a run ends, `final.csv`.

ghost use Rattle.std.specs.Prelude.{◌≡◌, ◌<◌, ◌≤◌, length, map, Some, IfErr};
ghost use Rattle.reports.specs.Rows.{fields_text, row_text, rows_text, numbered, WritesOnOk};
ghost use Rattle.sim_base.specs.Faults.{IsWriteFault};
ghost use Rattle.reports.specs.Final.{final_header, final_fields, core_numbers, progress_rows, credit_rows, credits_of_core, due_rows, open_fields, queued_item, queued_fields, channel_rows, flight_item, flight_numbers, flight_fields, final_text};
ghost use Rattle.reports.specs.Tables.{AddsRows};

use crate::line::{put, put_last, put_rank, put_word};
use crate::table::RowBuffer;
use sim_base::fault::Fault;
use sim_base::message::{Access, Message, Payload, Request};
use statistics::final_state::{ChannelState, CoreState, Credits, FinalState, OpenRow};
use std::alloc::Global;
use std::io::Write;

// The numbers of a row, as far as it has them.
#[derive(Clone, Copy)]
struct Numbers {
    core: Option<u64>,
    channel: Option<u64>,
    rank: Option<u64>,
    group: Option<u64>,
    bank: Option<u64>,
    entry: Option<u64>,
    cycle: Option<u64>,
    value: Option<u64>,
}

const BLANK: Numbers = Numbers {
    core: None,
    channel: None,
    rank: None,
    group: None,
    bank: None,
    entry: None,
    cycle: None,
    value: None,
};

fn columns(ranks: u32) -> &'static [u8]
    ensures names { result.now ≡ fields_text (final_header ranks) }
    ensures some { 0 < length result.now }
    ensures short { length result.now ≤ 64 }
{
    if ranks > 1 {
        b"item,core,channel,rank,group,bank,entry,cycle,value"
    } else {
        b"item,core,channel,group,bank,entry,cycle,value"
    }
}

// A row, whose fields are put together from the last to the first.
fn write_numbers<W: Write>(
    table: &mut RowBuffer,
    ranks: u32,
    item: &[u8],
    numbers: &Numbers,
    writer: &mut W,
)
    requires { length item.now ≤ 32 }
    ensures { AddsRows W.contents writer.old table.old writer.new table.new
        (row_text (final_fields ranks item.now numbers.now)) }
{
    let line = &mut table.line;
    let start = put_last(line, numbers.value);
    let start = put(line, start, numbers.cycle);
    let start = put(line, start, numbers.entry);
    let start = put(line, start, numbers.bank);
    let start = put(line, start, numbers.group);
    let start = put_rank(line, start, ranks, numbers.rank);
    let start = put(line, start, numbers.channel);
    let start = put(line, start, numbers.core);
    let start = put_word(line, start, item);
    table.write_row(start, writer);
}

fn numbers_of_core(core: u64, channel: Option<u64>, count: u64) -> Numbers
    ensures { result ≡ core_numbers core channel count }
{
    Numbers {
        core: Some(core),
        channel,
        value: Some(count),
        ..BLANK
    }
}

fn write_progress<W: Write>(table: &mut RowBuffer, ranks: u32, cores: &[CoreState], writer: &mut W)
    ensures { AddsRows W.contents writer.old table.old writer.new table.new
        (rows_text (numbered (progress_rows ranks) cores.now)) }
{
    for (core, state) in cores.iter().enumerate() {
        let issued = numbers_of_core(core as u64, None, state.issued);
        let retired = numbers_of_core(core as u64, None, state.retired);
        write_numbers(table, ranks, b"issued", &issued, writer);
        write_numbers(table, ranks, b"retired", &retired, writer);
    }
}

fn write_credits_of_core<W: Write>(
    table: &mut RowBuffer,
    ranks: u32,
    core: u64,
    credits: &[Credits],
    writer: &mut W,
)
    ensures { AddsRows W.contents writer.old table.old writer.new table.new
        (rows_text (numbered (credit_rows ranks core) credits.now)) }
{
    for (channel, held) in credits.iter().enumerate() {
        let of_reads = numbers_of_core(core, Some(channel as u64), held.read);
        let of_writes = numbers_of_core(core, Some(channel as u64), held.write);
        write_numbers(table, ranks, b"credit_read", &of_reads, writer);
        write_numbers(table, ranks, b"credit_write", &of_writes, writer);
    }
}

fn write_credits<W: Write>(table: &mut RowBuffer, ranks: u32, cores: &[CoreState], writer: &mut W)
    ensures { AddsRows W.contents writer.old table.old writer.new table.new
        (rows_text (numbered (credits_of_core ranks) cores.now)) }
{
    for (core, state) in cores.iter().enumerate() {
        write_credits_of_core(table, ranks, core as u64, &state.credits, writer);
    }
}

fn write_due<W: Write>(table: &mut RowBuffer, ranks: u32, channel: u64, due: &[u64], writer: &mut W)
    ensures { AddsRows W.contents writer.old table.old writer.new table.new
        (rows_text (numbered (due_rows ranks channel) due.now)) }
{
    for (rank, count) in due.iter().enumerate() {
        let numbers = Numbers {
            channel: Some(channel),
            rank: Some(rank as u64),
            value: Some(*count),
            ..BLANK
        };
        write_numbers(table, ranks, b"due", &numbers, writer);
    }
}

fn write_open_rows<W: Write>(
    table: &mut RowBuffer,
    ranks: u32,
    channel: u64,
    open_rows: &[OpenRow],
    writer: &mut W,
)
    ensures { AddsRows W.contents writer.old table.old writer.new table.new
        (rows_text (map (open_fields ranks channel) open_rows.now)) }
{
    for opened in open_rows {
        let numbers = Numbers {
            channel: Some(channel),
            rank: Some(u64::from(opened.bank.rank)),
            group: Some(u64::from(opened.bank.group)),
            bank: Some(u64::from(opened.bank.bank)),
            value: Some(u64::from(opened.row)),
            ..BLANK
        };
        write_numbers(table, ranks, b"open", &numbers, writer);
    }
}

fn queued_word(access: Access) -> &'static [u8]
    ensures word { result.now ≡ queued_item access }
    ensures short { length result.now ≤ 32 }
{
    match access {
        Access::Read => b"queued_read",
        Access::Write => b"queued_write",
    }
}

fn write_queue<W: Write>(
    table: &mut RowBuffer,
    ranks: u32,
    channel: u64,
    queue: &[Request],
    writer: &mut W,
)
    ensures { AddsRows W.contents writer.old table.old writer.new table.new
        (rows_text (map (queued_fields ranks channel) queue.now)) }
{
    for request in queue {
        let numbers = Numbers {
            core: Some(u64::from(request.core)),
            channel: Some(channel),
            rank: Some(u64::from(request.place.rank)),
            group: Some(u64::from(request.place.group)),
            bank: Some(u64::from(request.place.bank)),
            entry: Some(request.entry),
            cycle: Some(request.arrival),
            value: Some(request.address),
        };
        let item = queued_word(request.access);
        write_numbers(table, ranks, item, &numbers, writer);
    }
}

fn write_channels<W: Write>(
    table: &mut RowBuffer,
    ranks: u32,
    channels: &[ChannelState],
    writer: &mut W,
)
    ensures { AddsRows W.contents writer.old table.old writer.new table.new
        (rows_text (numbered (channel_rows ranks) channels.now)) }
{
    for (channel, state) in channels.iter().enumerate() {
        write_due(table, ranks, channel as u64, &state.due, writer);
        write_open_rows(table, ranks, channel as u64, &state.open_rows, writer);
        write_queue(table, ranks, channel as u64, &state.queue, writer);
    }
}

fn flight_word(payload: Payload) -> &'static [u8]
    ensures word { result.now ≡ flight_item payload }
    ensures short { length result.now ≤ 32 }
{
    match payload {
        Payload::Request(_) => b"flight_request",
        Payload::Reply(_) => b"flight_reply",
        Payload::Credit {
            access: Access::Read,
            ..
        } => b"flight_credit_read",
        Payload::Credit {
            access: Access::Write,
            ..
        } => b"flight_credit_write",
    }
}

fn numbers_of_flight(channels: u64, message: Message) -> Numbers
    ensures { result ≡ flight_numbers channels message }
{
    Numbers {
        core: (message.link / 3).checked_div(channels),
        channel: (message.link / 3).checked_rem(channels),
        entry: Some(message.payload.entry()),
        cycle: Some(message.arrival),
        value: Some(message.link),
        ..BLANK
    }
}

fn write_in_flight<W: Write>(
    table: &mut RowBuffer,
    ranks: u32,
    channels: u64,
    in_flight: &[Message],
    writer: &mut W,
)
    ensures { AddsRows W.contents writer.old table.old writer.new table.new
        (rows_text (map (flight_fields ranks channels) in_flight.now)) }
{
    for message in in_flight {
        let item = flight_word(message.payload);
        write_numbers(
            table,
            ranks,
            item,
            &numbers_of_flight(channels, *message),
            writer,
        );
    }
}

// The header, and then each core, each channel and each message in flight.
fn write_rows<W: Write>(table: &mut RowBuffer, state: &FinalState, ranks: u32, writer: &mut W)
    ensures { AddsRows W.contents writer.old table.old writer.new table.new
        (final_text ranks state.now) }
{
    table.write_text(columns(ranks), writer);
    write_progress(table, ranks, &state.cores, writer);
    write_credits(table, ranks, &state.cores, writer);
    write_channels(table, ranks, &state.channels, writer);
    let channels = state.channels.len() as u64;
    write_in_flight(table, ranks, channels, &state.in_flight, writer);
}

/// Writes the table of the state in which a run ends: a header; the entries that each core issued and retired; the
/// credits that each core holds for each channel; for each channel the refreshes that are due by rank, the open rows
/// and the queue; and the messages in flight. Fields that a row does not have are empty.
///
/// Where `ranks` is above 1 the table has a column for the rank. The call takes memory for two
/// batches of rows, 256 KB each, and some 14 KB for the writer of `csv` and what it is handed.
///
/// # Errors
///
/// `Fault::Memory` where memory is refused, and `Fault::Write` where the writer fails or takes no byte. How much
/// went out before that is not known.
pub fn write_final<W: Write>(
    alloc: Global,
    state: &FinalState,
    ranks: u32,
    writer: &mut W,
) -> Result<(), Fault>
    ensures written { WritesOnOk result W.contents writer.old writer.new
        (final_text ranks state.now) }
    ensures refused { IfErr result (λ e. IsWriteFault e) }
{
    let mut table = RowBuffer::new(alloc);
    write_rows(&mut table, state, ranks, writer);
    table.finish(writer)
}
