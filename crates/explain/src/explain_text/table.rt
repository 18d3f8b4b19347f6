//! What is said of a table that is refused.

use crate::explain_text::fragments::Fragment::{Foreign, Number};
use csv::{ByteRecord, Reader, ReaderBuilder};
use measures::text_builder::TextBuilder;
use std::alloc::{AllocError, Global};

/// The tables that a row may stand in.
#[derive(Clone, Copy)]
pub enum TableKind {
    /// A table of commands, as `commands.csv`.
    Commands,
    /// The statistics of a run, `stats.csv`.
    Statistics,
    /// The requests of a run, `requests.csv`.
    Requests,
}

/// The field of a row of commands that says which command it is.
const COMMAND: usize = 2;

// Reads up to the row with this number, of which 0 is the header, and returns how many fields the header has; nothing
// where there is no such row.
fn read_to(
    reader: &mut Reader<&[u8]>,
    record: &mut ByteRecord,
    row: u64,
) -> Result<Option<usize>, AllocError> {
    let mut columns = 0;
    for number in 0..=row {
        match reader.read_byte_record(record) {
            Ok(true) => {}
            Ok(false) => return Ok(None),
            Err(_) => return Err(AllocError),
        }
        if number == 0 {
            columns = record.len();
        }
    }
    Ok(Some(columns))
}

// The fields of a record, each after a comma.
fn fields_of(alloc: Global, record: &ByteRecord) -> Result<Vec<u8>, AllocError> {
    let mut text = Vec::new(alloc);
    for field in record.iter() {
        text.push(b',')?;
        text.extend_from_slice(field)?;
    }
    Ok(text)
}

static COMMANDS: [&[u8]; 6] = [b"ACT", b"RD", b"WR", b"PRE", b"PREA", b"REF"];

fn is_command(field: &[u8]) -> bool {
    for command in &COMMANDS {
        if *command == field {
            return true;
        }
    }
    false
}

fn has_digits_only(field: &[u8]) -> bool {
    for byte in field {
        if !byte.is_ascii_digit() {
            return false;
        }
    }
    true
}

// The first field other than the command that is neither empty nor a number.
fn first_that_is_no_number(record: &ByteRecord) -> Option<&[u8]> {
    for (index, field) in record.iter().enumerate() {
        if index != COMMAND && !has_digits_only(field) {
            return Some(field);
        }
    }
    None
}

// What the header must be.
fn header_words(kind: TableKind) -> &'static str {
    match kind {
        TableKind::Commands => {
            "the header must be cycle,channel,command,group,bank,row,column,core,entry, with rank before group where a channel has several ranks\n"
        }
        TableKind::Statistics => "the header must be scope,id,name,value\n",
        TableKind::Requests => {
            "the header must be core,entry,access,channel,issued,arrived,served,replied,hit\n"
        }
    }
}

/// What a row of requests must be like.
static REQUEST: &str =
    "nine fields must stand there, with a core below 256, read or write, a channel below 16, hit 0 or 1, and no leading zeros; issued, arrived and served do not fall, only a read has a reply, behind its served; and rows stand by served and then by channel\n";

// What is wrong with a row of commands that has as many fields as the header.
fn put_command_flaw(text: &mut TextBuilder, record: &ByteRecord) {
    let command = record.get(COMMAND).unwrap_or(b"");
    let (word, form) = if !is_command(command) {
        (
            command,
            "'{}' is no command: ACT, RD, WR, PRE, PREA or REF may stand there\n",
        )
    } else if let Some(field) = first_that_is_no_number(record) {
        (field, "'{}' is no number: decimal digits may stand there\n")
    } else {
        (
            command,
            "a field is missing that the command has, or stands there that it has not, or is out of its range in the configuration\n",
        )
    };
    text.fill(form, &[Foreign(word)]);
}

// What is wrong with a row below the header, which has so many columns.
fn put_flaw(text: &mut TextBuilder, kind: TableKind, record: &ByteRecord, columns: usize) {
    let fields = record.len();
    if fields != columns {
        text.fill(
            "it has {} fields, and the header has {}\n",
            &[Number(fields as u64), Number(columns as u64)],
        );
        return;
    }
    match kind {
        TableKind::Commands => put_command_flaw(text, record),
        TableKind::Statistics => text.push_str("a run writes another record there\n"),
        TableKind::Requests => text.push_str(REQUEST),
    }
}

// What stands in a row.
fn put_fields(text: &mut TextBuilder, record: &ByteRecord) {
    match fields_of(text.alloc(), record) {
        Ok(fields) => text.fill(": {}\n", &[Foreign(fields.get(1..).unwrap_or(b""))]),
        Err(_) => text.refuse(),
    }
}

// What stands in the row that was read to, if the table has it, and what is wrong with it.
fn put_row(
    text: &mut TextBuilder,
    kind: TableKind,
    row: u64,
    record: &ByteRecord,
    columns: Option<usize>,
) {
    match columns {
        Some(_) => put_fields(text, record),
        None => text.push_str(" is missing\n"),
    }
    match (row, columns) {
        (0, _) => text.push_str(header_words(kind)),
        (_, Some(columns)) => put_flaw(text, kind, record, columns),
        (_, None) => {}
    }
}

/// Says what stands in a row of a table, and what is wrong with it, after the path and the row's number; row 0 is the
/// header.
pub(crate) fn row_text(
    alloc: Global,
    kind: TableKind,
    row: u64,
    table: &[u8],
) -> Result<String, AllocError> {
    let mut reader = ReaderBuilder::new()
        .has_headers(false)
        .flexible(true)
        .from_reader(alloc, table);
    let mut record = ByteRecord::new(alloc);
    let mut text = TextBuilder::new(alloc);
    match read_to(&mut reader, &mut record, row) {
        Ok(columns) => put_row(&mut text, kind, row, &record, columns),
        Err(_) => text.refuse(),
    }
    text.finish()
}
