//! A table on its way to a writer.

ghost use Rattle.std.specs.Prelude.{◌≡◌, ◌<◌, ◌≤◌, ◌+◌, ◌++◌, [], Some, false, length, drop, codes, IfErr, OnOk};
ghost use Rattle.csv.specs.Writing.{writer_setup, fields_written, has_written, writer_under, writer_pending};
ghost use Rattle.reports.specs.Rows.{plain_writer, WritesOnOk};
ghost use Rattle.sim_base.specs.Faults.{IsWriteFault};

use crate::block::Block;
use crate::line::{Line, ROOM, put_bytes, text_from};
use csv::{QuoteStyle, Writer, WriterBuilder};
use sim_base::fault::Fault;
use std::alloc::{AllocError, Global};
use std::io::Write;
use std::mem;

// Once this many bytes wait in the list, everything that waits goes out.
const BATCH: usize = 236 * 1024;

// As much stands in the list at most: a batch, and what `csv` and the block may hold.
const LIST_ROOM: usize = BATCH + 20 * 1024;

/// Why rows are lost.
#[derive(Clone, Copy)]
pub(crate) enum Loss {
    /// Memory was refused.
    Memory,
    /// The writer failed or took no byte.
    Write,
}

impl Loss {
    fn fault(self) -> Fault
        ensures { IsWriteFault result }
    {
        match self {
            Loss::Memory => Fault::Memory,
            Loss::Write => Fault::Write,
        }
    }
}

// An empty list with room for all that waits. Where memory for it is refused, it has none, and grows as rows come.
fn list_with_room(alloc: Global) -> Vec<u8>
    ensures { result.items ≡ [] }
{
    match Vec::with_capacity(alloc, LIST_ROOM) {
        Ok(list) => list,
        Err(AllocError) => Vec::new(alloc),
    }
}

// A writer that appends rows to this text, without quotes. Its buffer of 8 KB is cleared here, so one writer is made
// for many rows.
fn rows_after(text: Vec<u8>) -> Writer<Vec<u8>>
    ensures under { writer_under result ≡ text }
    ensures pending { writer_pending result ≡ [] }
    ensures plain { writer_setup result ≡ plain_writer }
    ensures no_field { fields_written result ≡ 0 }
    ensures no_byte { has_written result ≡ false }
{
    WriterBuilder::new()
        .quote_style(QuoteStyle::Never)
        .from_writer(text)
}

// Hands rows to the writer. The list in which they stood takes the place of an empty one, and is empty then.
#[inline(always)]
fn write_out<W: Write>(
    rows: Writer<Vec<u8>>,
    writer: &mut W,
    spare: &mut Vec<u8>,
) -> Result<(), Loss>
    requires empty { spare.old.items ≡ [] }
    ensures written { WritesOnOk result W.contents writer.old writer.new
        ((writer_under rows).items ++ writer_pending rows) }
    ensures empty { spare.new.items ≡ [] }
{
    let Ok(mut batch) = rows.into_inner() else {
        return Err(Loss::Memory);
    };
    let Ok(()) = writer.write_all(&batch) else {
        return Err(Loss::Write);
    };
    batch.clear();
    *spare = batch;
    Ok(())
}

/// Rows that wait for a writer, at most 256 KB of them, and the row that is being put together. They go out together.
/// The last of them wait in a block, which `csv` gets as one text. The list in which rows went out is kept for later
/// ones, so that it need not grow again. Once rows are lost, the buffer keeps why, and takes no further rows out;
/// `finish` then refuses.
#[derive(Drop)]
pub(crate) struct RowBuffer {
    pub(crate) line: Line,
    block: Block,
    alloc: Global,
    rows: Writer<Vec<u8>>,
    spare: Vec<u8>,
    lost: Option<Loss>,
    ghost empty: { spare.items ≡ [] },
    ghost plain: { writer_setup rows ≡ plain_writer },
    ghost no_field: { fields_written rows ≡ 0 },
    ghost no_byte: { has_written rows ≡ false },
}

impl RowBuffer {
    ghost use Rattle.reports.specs.Tables.{waiting, IsWhole, AddsRows, KeepsRows, KeepsOnOk, SendsOnOk};

    /// No row.
    pub(crate) fn new(alloc: Global) -> RowBuffer
        ensures { waiting result ≡ [] }
    {
        RowBuffer {
            line: [0; ROOM],
            block: Block::new(),
            alloc,
            rows: rows_after(list_with_room(alloc)),
            spare: Vec::new(alloc),
            lost: None,
        }
    }

    // Hands the rows of the block to `csv`. After an error those that waited are lost.
    fn put_block(&mut self) -> Result<(), Loss>
        ensures waiting { OnOk result (waiting self.new ≡ waiting self.old) }
        ensures empty { OnOk result (self.new.block ≡ []) }
        ensures line { self.new.line ≡ self.old.line }
    {
        if self.block.is_empty() {
            return Ok(());
        }
        let Ok(()) = self.rows.write_fields(&[self.block.text()]) else {
            self.rows = rows_after(Vec::new(self.alloc));
            return Err(Loss::Memory);
        };
        self.block.clear();
        Ok(())
    }

    // Hands all waiting rows to the writer. After an error only those of the block still wait.
    fn send<W: Write>(&mut self, writer: &mut W) -> Result<(), Loss>
        ensures written { KeepsOnOk result W.contents writer.old self.old writer.new self.new }
        ensures none { OnOk result (waiting self.new ≡ []) }
        ensures empty { OnOk result (self.new.block ≡ []) }
        ensures line { self.new.line ≡ self.old.line }
    {
        self.put_block()?;
        // the list grows as rows come where memory for this is refused
        let _room = self.spare.reserve(LIST_ROOM);
        let spare = mem::replace(&mut self.spare, Vec::new(self.alloc));
        let full = mem::replace(&mut self.rows, rows_after(spare));
        write_out(full, writer, &mut self.spare)
    }

    // Hands the rows of the block on. If enough rows wait, they go out.
    fn hand_on<W: Write>(&mut self, writer: &mut W) -> Result<(), Loss>
        ensures written { KeepsOnOk result W.contents writer.old self.old writer.new self.new }
        ensures empty { OnOk result (self.new.block ≡ []) }
        ensures line { self.new.line ≡ self.old.line }
    {
        if self.rows.get_ref().len() >= BATCH {
            return self.send(writer);
        }
        self.put_block()
    }

    /// Loses the rows that wait in the block, for this reason.
    pub(crate) fn lose(&mut self, loss: Loss)
        ensures lost { self.new.lost ≡ Some loss }
        ensures empty { self.new.block ≡ [] }
        ensures line { self.new.line ≡ self.old.line }
    {
        self.lost = Some(loss);
        self.block.clear();
    }

    // Empties the block.
    #[inline(never)]
    fn empty_block<W: Write>(&mut self, writer: &mut W)
        ensures kept { KeepsRows W.contents writer.old self.old writer.new self.new }
        ensures empty { self.new.block ≡ [] }
        ensures line { self.new.line ≡ self.old.line }
    {
        if let Some(loss) = self.lost {
            return self.lose(loss);
        }
        let Err(loss) = self.hand_on(writer) else {
            return;
        };
        self.lose(loss);
    }

    // Makes sure that the block has room for a row.
    #[inline(always)]
    fn make_room<W: Write>(&mut self, writer: &mut W)
        ensures kept { KeepsRows W.contents writer.old self.old writer.new self.new }
        ensures room { length self.new.block + 256 < 4096 }
        ensures line { self.new.line ≡ self.old.line }
    {
        if self.block.has_room() {
            return;
        }
        self.empty_block(writer);
    }

    /// Ends the row whose fields stand in the line from a place on. If enough rows wait, they go out.
    #[inline(always)]
    pub(crate) fn write_row<W: Write>(&mut self, start: usize, writer: &mut W)
        requires { start < 256 }
        ensures { AddsRows W.contents writer.old self.old writer.new self.new
            (drop start self.old.line ++ codes "\n") }
    {
        self.make_room(writer);
        self.block.push(text_from(&self.line, start));
    }

    /// Writes a row whose fields are put together.
    pub(crate) fn write_text<W: Write>(&mut self, text: &[u8], writer: &mut W)
        requires some { 0 < length text.now }
        requires short { length text.now ≤ 256 }
        ensures { AddsRows W.contents writer.old self.old writer.new self.new
            (text.now ++ codes "\n") }
    {
        let start = put_bytes(&mut self.line, ROOM, text);
        self.write_row(start, writer);
    }

    // Hands the last rows to `csv`, if none are lost.
    fn close(&mut self) -> Result<(), Loss>
        ensures whole { OnOk result (IsWhole self.old) }
        ensures waiting { OnOk result (waiting self.new ≡ waiting self.old) }
        ensures empty { OnOk result (self.new.block ≡ []) }
    {
        match self.lost {
            Some(loss) => Err(loss),
            None => self.put_block(),
        }
    }

    // Hands the rows that still wait to the writer, if none are lost.
    fn send_last<W: Write>(mut self, writer: &mut W) -> Result<(), Loss>
        ensures { SendsOnOk result W.contents writer.old self writer.new }
    {
        self.close()?;
        let RowBuffer {
            rows,
            mut spare,
            ..
        } = self;
        write_out(rows, writer, &mut spare)
    }

    /// Hands the rows that still wait to the writer, and tells whether any were lost. A buffer that is not finished
    /// loses them.
    pub(crate) fn finish<W: Write>(self, writer: &mut W) -> Result<(), Fault>
        ensures written { SendsOnOk result W.contents writer.old self writer.new }
        ensures refused { IfErr result (λ e. IsWriteFault e) }
    {
        match self.send_last(writer) {
            Ok(()) => Ok(()),
            Err(loss) => Err(loss.fault()),
        }
    }
}
