//! Tables whose rows come in pieces, the texts of which are put together in parallel.

ghost use Rattle.std.specs.Prelude.{◌≡◌, ◌<◌, ◌≤◌, ◌++◌, List, ℕ, length, codes, flat_map, OnOk, IfOk, IfErr};
ghost use Rattle.reports.specs.Rows.{all_of, IsTextOf, WritesOnOk};
ghost use Rattle.sim_base.specs.Faults.{IsWriteFault};
ghost use Rattle.reports.specs.Tables.{AddsRows};
ghost use Rattle.std.specs.Io.KnownBytes.{Appends};

use crate::table::RowBuffer;
use rayon::prelude::*;
use sim_base::fault::Fault;
use std::alloc::Global;
use std::io::Write;
use std::thread::{Threads, join_mut};

/// How many rows of a channel a piece has at most. With 2 to 8 channels its text is some 128 to 512 KB.
pub(crate) const MOST: usize = 2048;

/// From how many pieces on threads put them together: fewer take the caller less time than threads take to start.
pub(crate) const MANY: usize = 16;

/// How the lines of a table are written whose rows come in pieces of a type.
pub(crate) trait TableLines<P> {
    /// The line of the header.
    ghost header_line: { Self → List ℕ };

    /// The lines of the rows of a piece.
    ghost lines: { Self → P → List ℕ };

    /// The names of the columns, with commas between them.
    fn columns(&self) -> &'static [u8]
        ensures names { result.now ++ codes "\n" ≡ header_line self.now }
        ensures some { 0 < length result.now }
        ensures short { length result.now ≤ 256 };

    /// Writes the rows of a piece.
    fn write_lines<W: Write>(&self, alloc: Global, piece: &P, table: &mut RowBuffer, writer: &mut W)
        ensures { AddsRows W.contents writer.old table.old writer.new table.new
            (lines self.now piece.now) };
}

// Writes the header alone.
fn write_header<P, T: TableLines<P>, W: Write>(
    alloc: Global,
    of: &T,
    writer: &mut W,
) -> Result<(), Fault>
    ensures written { WritesOnOk result W.contents writer.old writer.new (T.header_line of.now) }
    ensures refused { IfErr result (λ e. IsWriteFault e) }
{
    let mut table = RowBuffer::new(alloc);
    table.write_text(of.columns(), writer);
    table.finish(writer)
}

/// Writes a table whose rows are one piece: the header, and then the rows.
pub(crate) fn write_whole<P, T: TableLines<P>, W: Write>(
    alloc: Global,
    of: &T,
    rows: &P,
    writer: &mut W,
) -> Result<(), Fault>
    ensures written { WritesOnOk result W.contents writer.old writer.new
        (T.header_line of.now ++ T.lines of.now rows.now) }
    ensures refused { IfErr result (λ e. IsWriteFault e) }
{
    let mut table = RowBuffer::new(alloc);
    table.write_text(of.columns(), writer);
    of.write_lines(alloc, rows, &mut table, writer);
    table.finish(writer)
}

// The text of a piece.
fn text_of<P, T: TableLines<P>>(alloc: Global, of: &T, piece: &P) -> Result<Vec<u8>, Fault>
    ensures { IsTextOf (T.lines of.now piece.now) result }
{
    let mut text = Vec::new(alloc);
    let mut table = RowBuffer::new(alloc);
    of.write_lines(alloc, piece, &mut table, &mut text);
    table.finish(&mut text)?;
    Ok(text)
}

// The texts of some pieces, put together in as many threads as there are pieces, or as the machine has processors.
fn texts_of<R: Threads + Sync, P: Sync, T: TableLines<P> + Sync>(
    rt: &R,
    alloc: Global,
    of: &T,
    pieces: &[P],
) -> Result<Vec<Vec<u8>>, Fault>
    ensures texts { IfOk result (λ texts.
        all_of texts.items ≡ flat_map (T.lines of.now) pieces.now) }
    ensures refused { IfErr result (λ e. IsWriteFault e) }
{
    pieces
        .par_iter()
        .with_min_len(1)
        .map(
            move |piece: &P| -> Result<Vec<u8>, Fault>
                ensures { IsTextOf (T.lines of.entry.now piece.now) result }
            { text_of(alloc, of, piece) },
        )
        .collect::<Result<Vec<Vec<u8>>, Fault>>(rt, alloc)?
}

// Writes texts, one after the other.
fn write_texts<W: Write>(texts: &[Vec<u8>], writer: &mut W) -> Result<(), Fault>
    ensures written { WritesOnOk result W.contents writer.old writer.new (all_of texts.now) }
    ensures refused { IfErr result (λ e. IsWriteFault e) }
{
    for text in texts {
        let Ok(()) = writer.write_all(text) else {
            return Err(Fault::Write);
        };
    }
    Ok(())
}

/// The threads that put the text of a table together: at most `count` threads of the host `rt`, with memory from
/// `alloc`.
#[derive(Drop)]
pub struct TableThreads<'a, R> {
    pub rt: &'a R,
    pub alloc: Global,
    pub count: usize,
}

// Writes texts, while those of the next pieces are put together by further threads.
fn write_round<R: Threads + Sync, P: Sync, T: TableLines<P> + Sync, W: Write>(
    threads: &TableThreads<'_, R>,
    of: &T,
    texts: &[Vec<u8>],
    next: &[P],
    writer: &mut W,
) -> Result<Vec<Vec<u8>>, Fault>
    ensures written { OnOk result
        (Appends (W.contents writer.old) (W.contents writer.new) (all_of texts.now)) }
    ensures texts { IfOk result (λ found.
        all_of found.items ≡ flat_map (T.lines of.now) next.now) }
    ensures refused { IfErr result (λ e. IsWriteFault e) }
{
    let rt = threads.rt;
    let alloc = threads.alloc;
    let mut put_together = move || -> Result<Vec<Vec<u8>>, Fault> { texts_of(rt, alloc, of, next) };
    let mut write = || -> Result<(), Fault> { write_texts(texts, writer) };
    let (found, written) = join_mut(rt, &mut put_together, &mut write);
    written?;
    found
}

// Writes the rows of all pieces, as many pieces at a time as there are threads. While the texts of some are written,
// those of the next are put together.
fn write_rounds<R: Threads + Sync, P: Sync, T: TableLines<P> + Sync, W: Write>(
    threads: &TableThreads<'_, R>,
    of: &T,
    pieces: &[P],
    writer: &mut W,
) -> Result<(), Fault>
    requires some { 0 < threads.now.count }
    ensures written { WritesOnOk result W.contents writer.old writer.new
        (flat_map (T.lines of.now) pieces.now) }
    ensures refused { IfErr result (λ e. IsWriteFault e) }
{
    let mut done = threads.count.min(pieces.len());
    let mut texts = texts_of(threads.rt, threads.alloc, of, &pieces[..done])?;
    while done < pieces.len() {
        let end = done + threads.count.min(pieces.len() - done);
        texts = write_round(threads, of, &texts, &pieces[done..end], writer)?;
        done = end;
    }
    write_texts(&texts, writer)
}

/// Writes a table: the header, and then the rows of the pieces, whose texts these threads put together.
pub(crate) fn write_pieces<R: Threads + Sync, P: Sync, T: TableLines<P> + Sync, W: Write>(
    threads: &TableThreads<'_, R>,
    of: &T,
    pieces: &[P],
    writer: &mut W,
) -> Result<(), Fault>
    requires some { 0 < threads.now.count }
    ensures written { WritesOnOk result W.contents writer.old writer.new
        (T.header_line of.now ++ flat_map (T.lines of.now) pieces.now) }
    ensures refused { IfErr result (λ e. IsWriteFault e) }
{
    write_header(threads.alloc, of, writer)?;
    write_rounds(threads, of, pieces, writer)
}
