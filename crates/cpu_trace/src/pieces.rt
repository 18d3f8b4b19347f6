//! Texts in pieces, which are read at the same time.

ghost use Rattle.std.specs.Prelude.{◌≡◌, ◌∷◌, ◌++◌, IfOk, IfSome};
ghost use Rattle.std.specs.List.{AllZip};
ghost use Rattle.sim_base.specs.TraceText.{lines_of};
ghost use Rattle.cpu_trace.specs.Pieces.{lines_of_pieces};
ghost use Rattle.cpu_trace.specs.Reading.{IsRead};

use crate::piece::{line_len, read_piece};
use crate::reading::{Reading, Unread};
use rayon::prelude::*;
use std::alloc::{AllocError, Global};
use std::thread::Threads;

/// A piece of at least `size` bytes at the start of a text, and what follows the line feed at its end.
fn first_piece(text: &[u8], size: usize) -> Option<(&[u8], &[u8])>
    ensures { IfSome result (λ parts. text.now ≡ parts.0.now ++ 10 ∷ parts.1.now) }
{
    if text.len() <= size {
        return None;
    }
    let (piece, behind) = text.split_at(size + line_len(&text[size..]));
    if behind.is_empty() {
        return None;
    }
    Some((piece, &behind[1..]))
}

/// Cuts a text at line feeds into pieces of at least `size` bytes, except for the last.
fn cut(alloc: Global, text: &[u8], size: usize) -> Result<Vec<&[u8]>, AllocError>
    ensures { IfOk result (λ pieces. lines_of text.now ≡ lines_of_pieces pieces.items) }
{
    let mut pieces = Vec::new(alloc);
    let mut rest = text;
    while let Some((piece, behind)) = first_piece(rest, size) {
        pieces.push(piece)?;
        rest = behind;
    }
    pieces.push(rest)?;
    Ok(pieces)
}

/// What each piece has, read in as many threads as there are processors.
fn read_pieces<R: Threads + Sync>(
    rt: &R,
    alloc: Global,
    pieces: &[&[u8]],
) -> Result<Vec<Result<Reading, Unread>>, AllocError>
    ensures { IfOk result (λ readings. AllZip (λ piece reading. IsRead (lines_of piece.now) reading)
        pieces.now readings.items) }
{
    pieces
        .par_iter()
        .with_min_len(1)
        .map(
            move |piece: &&[u8]| -> Result<Reading, Unread>
                ensures { IsRead (lines_of piece.now.now) result }
            { read_piece(alloc, piece) },
        )
        .collect(rt, alloc)
}

/// Reads the lines of a text, in pieces of at least `size` bytes.
pub(crate) fn read_in_pieces<R: Threads + Sync>(
    rt: &R,
    alloc: Global,
    text: &[u8],
    size: usize,
) -> Result<Reading, Unread>
    ensures { IsRead (lines_of text.now) result }
{
    let pieces = cut(alloc, text, size)?;
    let mut all = Reading::new(alloc);
    for reading in read_pieces(rt, alloc, &pieces)? {
        all = match all.followed_by(reading) {
            Ok(all) => all,
            Err(why) => return Err(why),
        };
    }
    Ok(all)
}
