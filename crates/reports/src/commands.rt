//! The table of commands, `commands.csv`.

ghost use Rattle.std.specs.Prelude.{◌≡◌, ◌<◌, ◌≤◌, ◌+◌, ◌/◌, ◌%◌, [], ◌∷◌, ◌++◌, length, drop, decimal, Some, codes, IfErr};
ghost use Rattle.sim_base.specs.Rules.{kind_of, rank_of};
ghost use Rattle.command_table.specs.Lists.{stored_row};
ghost use Rattle.command_table.specs.Rows.{command_with, row_of};
ghost use Rattle.reports.specs.Rows.{comma, fields_text, with_rank, row_text, WritesOnOk};
ghost use Rattle.sim_base.specs.Faults.{IsWriteFault};
ghost use Rattle.reports.specs.Tables.{AddsRows};
ghost use Rattle.reports.specs.Commands.{header, kind_word, request_operands, operand_fields, command_fields, lines_text, commands_text};

use crate::hundreds::Hundred;
use crate::line::{
    Line, ROOM, put, put_byte, put_bytes, put_last_long, put_rank, put_small, put_word,
};
use crate::pieces::{MANY, MOST, TableLines, TableThreads, write_pieces, write_whole};
use crate::table::{Loss, RowBuffer};
use command_table::parts::{Operands, RowParts};
use command_table::stored::StoredRow;
use command_table::table::{CommandTable, Rows};
use sim_base::command::{IssuedCommand, Kind, Source};
use sim_base::fault::Fault;
use sim_base::place::BankId;
use std::alloc::Global;
use std::io::Write;
use std::thread::Threads;

// The fields of a group and of a bank of it, by the number of the bank among those of four groups of four banks.
fn bank_fields(number: u32) -> [u8; 4]
    requires { number < 16 }
    ensures { result ≡ decimal (number / 4) ++ comma ∷ decimal (number % 4) ++ comma ∷ [] }
{
    match number {
        0 => *b"0,0,",
        1 => *b"0,1,",
        2 => *b"0,2,",
        3 => *b"0,3,",
        4 => *b"1,0,",
        5 => *b"1,1,",
        6 => *b"1,2,",
        7 => *b"1,3,",
        8 => *b"2,0,",
        9 => *b"2,1,",
        10 => *b"2,2,",
        11 => *b"2,3,",
        12 => *b"3,0,",
        13 => *b"3,1,",
        14 => *b"3,2,",
        _ => *b"3,3,",
    }
}

// The fields of a group and of a bank before the others. They are put at once where both are below 4, as in every
// machine.
#[inline(always)]
fn put_bank(line: &mut Line, end: usize, bank: &BankId) -> usize
    requires { (42 ≤ end) × (end ≤ 256) }
    ensures text { drop result line.new
        ≡ decimal bank.now.group ++ comma ∷ decimal bank.now.bank ++ comma ∷ drop end line.old }
    ensures low { end ≤ result + 42 }
    ensures high { result < end }
{
    if bank.group < 4 && bank.bank < 4 {
        return put_bytes(line, end, &bank_fields(4 * bank.group + bank.bank));
    }
    put_great_bank(line, end, bank)
}

// The fields of a group and of a bank before the others, of which one is 4 or more, as none of a machine is.
#[inline(never)]
fn put_great_bank(line: &mut Line, end: usize, bank: &BankId) -> usize
    requires { (42 ≤ end) × (end ≤ 256) }
    ensures text { drop result line.new
        ≡ decimal bank.now.group ++ comma ∷ decimal bank.now.bank ++ comma ∷ drop end line.old }
    ensures low { end ≤ result + 42 }
    ensures high { result < end }
{
    let start = put(line, end, Some(u64::from(bank.bank)));
    put(line, start, Some(u64::from(bank.group)))
}

// The fields of a command of a request, after that of the rank.
#[inline(always)]
fn put_request(
    line: &mut Line,
    bank: &BankId,
    row: Option<u32>,
    column: Option<u32>,
    source: &Source,
) -> usize
    ensures text { drop result line.new
        ≡ fields_text (request_operands bank.now row column source.now) }
    ensures low { 131 ≤ result }
    ensures high { result ≤ 256 }
{
    let start = put_last_long(line, source.entry);
    let start = put_small(line, start, u64::from(source.core));
    let start = put(line, start, column.map(u64::from));
    let start = put(line, start, row.map(u64::from));
    put_bank(line, start, bank)
}

// The fields of a command of a whole rank, from this word of its kind on: those behind the rank are empty.
#[inline(never)]
fn put_whole_rank(line: &mut Line, ranks: u32, rank: u32, word: &[u8]) -> usize
    requires { length word.now ≤ 4 }
    ensures text { drop result line.new
        ≡ word.now ++ comma ∷ with_rank ranks (Some rank) (codes ",,,,,") }
    ensures low { 105 ≤ result }
    ensures high { result ≤ 256 }
{
    let start = put_bytes(line, ROOM, b",,,,,");
    let start = put_rank(line, start, ranks, Some(u64::from(rank)));
    put_word(line, start, word)
}

// A word of two letters before the fields behind it.
#[inline(always)]
fn put_two(line: &mut Line, end: usize, first: u8, second: u8) -> usize
    requires { (3 ≤ end) × (end ≤ 256) }
    ensures text { drop result line.new ≡ first ∷ second ∷ comma ∷ drop end line.old }
    ensures start { result + 3 ≡ end }
{
    let start = put_byte(line, end, b',');
    let start = put_byte(line, start, second);
    put_byte(line, start, first)
}

// A word of three letters before the fields behind it.
#[inline(always)]
fn put_three(line: &mut Line, end: usize, first: u8, second: u8, third: u8) -> usize
    requires { (4 ≤ end) × (end ≤ 256) }
    ensures text { drop result line.new ≡ first ∷ second ∷ third ∷ comma ∷ drop end line.old }
    ensures start { result + 4 ≡ end }
{
    let start = put_two(line, end, second, third);
    put_byte(line, start, first)
}

// The fields from that of the kind on.
#[inline(always)]
fn put_kind<const WHOLE: bool>(
    line: &mut Line,
    ranks: u32,
    kind: Kind,
    operands: &Operands,
) -> usize
    ensures text { let command = command_with kind operands.now in
        drop result line.new ≡ kind_word (kind_of command) ++ comma
        ∷ with_rank ranks (Some (rank_of command)) (fields_text (operand_fields command)) }
    ensures low { 105 ≤ result }
    ensures high { result ≤ 256 }
{
    let rank = operands.bank.rank;
    let row = Some(operands.row);
    match kind {
        Kind::Act => {
            let start = put_request(line, &operands.bank, row, None, &operands.source);
            let start = put_rank(line, start, ranks, Some(u64::from(rank)));
            put_three(line, start, b'A', b'C', b'T')
        }
        Kind::Rd => {
            let column = Some(operands.column);
            let start = put_request(line, &operands.bank, row, column, &operands.source);
            let start = put_rank(line, start, ranks, Some(u64::from(rank)));
            put_two(line, start, b'R', b'D')
        }
        Kind::Wr => {
            let column = Some(operands.column);
            let start = put_request(line, &operands.bank, row, column, &operands.source);
            let start = put_rank(line, start, ranks, Some(u64::from(rank)));
            put_two(line, start, b'W', b'R')
        }
        Kind::Pre => {
            let start = put_request(line, &operands.bank, None, None, &operands.source);
            let start = put_rank(line, start, ranks, Some(u64::from(rank)));
            put_three(line, start, b'P', b'R', b'E')
        }
        Kind::Prea => put_whole_rank(line, ranks, rank, b"PREA"),
        Kind::Ref => put_whole_rank(line, ranks, rank, b"REF"),
    }
}

// A row, whose fields are put together from the last to the first. It is compiled once for rows that are stored in few
// bytes and once for those that are stored as they are (`WHOLE`), so that each is compiled into its caller.
#[inline(always)]
fn write_command<const WHOLE: bool, W: Write>(
    table: &mut RowBuffer,
    hundred: &mut Hundred,
    ranks: u32,
    row: &RowParts,
    writer: &mut W,
)
    ensures { AddsRows W.contents writer.old table.old writer.new table.new
        (row_text (command_fields ranks (row_of row.now))) }
{
    let line = &mut table.line;
    let start = put_kind::<WHOLE>(line, ranks, row.kind, &row.operands);
    let start = put_small(line, start, u64::from(row.channel));
    let start = hundred.put_cycle(line, start, row.cycle);
    table.write_row(start, writer);
}

// A row that is stored as it is, as few are.
#[inline(never)]
fn write_whole_command<W: Write>(
    table: &mut RowBuffer,
    hundred: &mut Hundred,
    ranks: u32,
    row: &IssuedCommand,
    writer: &mut W,
)
    ensures { AddsRows W.contents writer.old table.old writer.new table.new
        (row_text (command_fields ranks row.now)) }
{
    write_command::<true, W>(table, hundred, ranks, &RowParts::of(*row), writer);
}

// A row, as it is stored.
#[inline(always)]
fn write_stored<W: Write>(
    table: &mut RowBuffer,
    hundred: &mut Hundred,
    ranks: u32,
    row: StoredRow<'_>,
    writer: &mut W,
)
    ensures { AddsRows W.contents writer.old table.old writer.new table.new
        (row_text (command_fields ranks (stored_row row.entry))) }
{
    match row {
        StoredRow::Compact(row) => {
            write_command::<false, W>(table, hundred, ranks, &row.parts(), writer)
        }
        StoredRow::Whole(row) => write_whole_command(table, hundred, ranks, row, writer),
    }
}

// Each command that is left.
fn write_each<W: Write>(table: &mut RowBuffer, ranks: u32, mut rows: Rows<'_>, writer: &mut W)
    ensures { AddsRows W.contents writer.old table.old writer.new table.new
        (lines_text ranks rows.entry) }
{
    let mut hundred = Hundred::new();
    while let Some(row) = rows.next_stored() {
        write_stored(table, &mut hundred, ranks, row, writer);
    }
}

/// The lines of the table of commands, for channels of so many ranks.
#[derive(Clone, Copy)]
struct CommandLines {
    ranks: u32,
}

impl<'a> TableLines<Rows<'a>> for CommandLines {
    ghost header_line = { λ of. row_text (header of.ranks) };

    ghost lines = { λ of rows. lines_text of.ranks rows };

    fn columns(&self) -> &'static [u8]
        ensures names { result.now ++ codes "\n" ≡ row_text (header self.now.ranks) }
        ensures some { 0 < length result.now }
        ensures short { length result.now ≤ 256 }
    {
        if self.ranks > 1 {
            b"cycle,channel,command,rank,group,bank,row,column,core,entry"
        } else {
            b"cycle,channel,command,group,bank,row,column,core,entry"
        }
    }

    fn write_lines<W: Write>(
        &self,
        alloc: Global,
        piece: &Rows<'a>,
        table: &mut RowBuffer,
        writer: &mut W,
    )
        ensures { AddsRows W.contents writer.old table.old writer.new table.new
            (lines_text self.now.ranks piece.now) }
    {
        match piece.copied(alloc) {
            Ok(rows) => write_each(table, self.ranks, rows, writer),
            Err(_) => table.lose(Loss::Memory),
        }
    }
}

/// Writes the table of commands: a header, and then a row for each command, in their order.
///
/// Where `ranks` is above 1 the table has a column for the rank. The call takes memory for two
/// batches of rows, 256 KB each, and some 14 KB for the writer of `csv` and what it is handed.
///
/// # Errors
///
/// `Fault::Memory` where memory is refused, and `Fault::Write` where the writer fails or takes no byte. How much
/// went out before that is not known.
pub fn write_commands<W: Write>(
    alloc: Global,
    ranks: u32,
    commands: &CommandTable,
    writer: &mut W,
) -> Result<(), Fault>
    ensures written { WritesOnOk result W.contents writer.old writer.new
        (commands_text ranks commands.now) }
    ensures refused { IfErr result (λ e. IsWriteFault e) }
{
    let rows = commands.rows(alloc)?;
    write_whole(alloc, &CommandLines { ranks }, &rows, writer)
}

/// Writes the table of commands as `write_commands` does, put together by several threads. If there are few commands,
/// or only one thread, the caller alone puts it together.
///
/// In addition to the memory of `write_commands`, the call takes that of the texts of twice as many pieces as there are
/// threads, each of at most 2,048 commands per channel: of those that are written, and of those that are put together
/// in the meantime.
///
/// # Errors
///
/// `Fault::Memory` where memory is refused, and `Fault::Write` where the writer fails or takes no byte. How much
/// went out before that is not known.
pub fn write_commands_by<R: Threads + Sync, W: Write>(
    threads: &TableThreads<'_, R>,
    ranks: u32,
    commands: &CommandTable,
    writer: &mut W,
) -> Result<(), Fault>
    ensures written { WritesOnOk result W.contents writer.old writer.new
        (commands_text ranks commands.now) }
    ensures refused { IfErr result (λ e. IsWriteFault e) }
{
    if threads.count < 2 {
        return write_commands(threads.alloc, ranks, commands, writer);
    }
    let pieces = commands.pieces(threads.alloc, MOST)?;
    if pieces.len() < MANY {
        return write_commands(threads.alloc, ranks, commands, writer);
    }
    write_pieces(threads, &CommandLines { ranks }, &pieces, writer)
}
