//! The reader of a piece of a text.

ghost use Rattle.std.specs.Prelude.{◌≡◌, ◌<◌, ◌≤◌, [], ◌∷◌, length, not, Some, IfOk, IfSome, MatchOption};
ghost use Rattle.std.specs.List.{prefix_len};
ghost use Rattle.sim_base.specs.TraceText.{is_line_feed, lines_of};
ghost use Rattle.cpu_trace.specs.Reading.{IsRead, IsReadUpTo};

use crate::entries::Entries;
use crate::line::read_line;
use crate::reading::{Reading, Unread, add_line, extended, has_room};
use crate::usual::split_usual_line;
use std::alloc::{AllocError, Global};

/// How long the first line of a text is.
pub(crate) fn line_len(text: &[u8]) -> usize
    ensures value { result ≡ prefix_len (λ byte. not (is_line_feed byte)) text.now }
    ensures bound { result ≤ length text.now }
{
    text.iter().take_while(|byte| **byte != b'\n').count()
}

/// The first line of a text, and what follows its line feed, if it has one.
fn split_line(text: &[u8]) -> (&[u8], Option<&[u8]>)
    ensures lines { MatchOption result.1 (lines_of text.now ≡ result.0.now ∷ [])
        (λ behind. lines_of text.now ≡ result.0.now ∷ lines_of behind.now) }
    ensures shorter { IfSome result.1 (λ behind. length behind.now < length text.now) }
{
    let (line, behind) = text.split_at(line_len(text));
    if behind.is_empty() {
        (line, None)
    } else {
        (line, Some(&behind[1..]))
    }
}

/// Adds the entries of the lines at the start of a text, up to the first that does not have the usual form or that
/// there is no room for. Gives the number of these lines, and what follows them.
fn add_usual_lines<'a>(entries: &mut Entries, text: &'a [u8]) -> Result<(u64, &'a [u8]), AllocError>
    ensures { IfOk result (λ read. IsReadUpTo text.now (Some entries.old) read.0 read.1.now
        (Some entries.new)) }
{
    let mut lines = 0;
    let mut rest = text;
    while let Some((line, behind)) = split_usual_line(rest) {
        if !has_room(entries, Some(line)) {
            break;
        }
        add_line(entries, Some(line))?;
        lines += 1;
        rest = behind;
    }
    Ok((lines, rest))
}

/// Adds the entries of usual lines as `add_usual_lines` does, or reads nothing if the trace so far was too long to
/// keep.
fn keep_usual_lines<'a>(
    kept: &mut Option<Entries>,
    text: &'a [u8],
) -> Result<(u64, &'a [u8]), AllocError>
    ensures { IfOk result (λ read. IsReadUpTo text.now kept.old read.0 read.1.now kept.new) }
{
    match kept {
        Some(entries) => add_usual_lines(entries, text),
        None => Ok((0, text)),
    }
}

/// In most traces a Read or a Write entry takes at least this many bytes of the text. Where it takes fewer, the room
/// grows.
const BYTES_OF_ENTRY: usize = 10;

/// Reads the lines of a piece, one after another.
pub(crate) fn read_piece(alloc: Global, piece: &[u8]) -> Result<Reading, Unread>
    ensures { IsRead (lines_of piece.now) result }
{
    let room = piece.len() / BYTES_OF_ENTRY;
    let mut kept = Some(Entries::with_capacity(alloc, room)?);
    let mut lines = 0;
    let mut rest = piece;
    loop {
        let (usual, behind) = keep_usual_lines(&mut kept, rest)?;
        lines += usual;
        lines += 1;
        let (line, behind) = split_line(behind);
        match read_line(line) {
            Ok(numbers) => kept = extended(kept, numbers)?,
            Err(cause) => return Err(Unread::BadLine { line: lines, cause }),
        }
        match behind {
            Some(behind) => rest = behind,
            None => return Ok(Reading { lines, kept }),
        }
    }
}
