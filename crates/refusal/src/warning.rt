//! What the program warns of, although it does what it is asked.

ghost use Rattle.std.specs.Prelude.{◌≡◌, ◌≤◌, ◌+◌, ◌++◌, length, IsTrue, OnErr, None};
ghost use Rattle.refusal.specs.Streams.{has_refused};
ghost use Rattle.refusal.specs.Telling.{TellsLine, Warns};
ghost use Rattle.refusal.specs.Warnings.{fitting_words, warning_line};

use crate::error_stream::ErrorStream;
use crate::line_buffer::LineBuffer;
use crate::lines::put;
use std::io::{self, Write};

/// The greatest length of a page, in bytes, that is made without a warning.
pub const LARGE_PAGE: u64 = 50_000_000;

/// A page that is longer than 50 MB.
#[derive(Clone, Copy)]
pub struct LargePage {
    /// Its length in bytes.
    pub bytes: u64,
    /// A number of cycles of its window that gives a page of at most 50 MB, where one was found.
    pub cycles: Option<u64>,
}

// Appends how many cycles would give a page that is not too long, where that is known.
fn push_fitting(line: &mut LineBuffer, cycles: Option<u64>)
    requires room { length line.old + 80 ≤ 256 }
    ensures text { line.new ≡ line.old ++ fitting_words cycles }
    ensures len { length line.new ≤ length line.old + 80 }
{
    match cycles {
        Some(cycles) => {
            line.push_number("; with --cycles ", cycles);
            line.push(" it has no more than that");
        }
        None => {}
    }
}

// The line of a warning, which needs no memory.
fn line_of(page: LargePage) -> LineBuffer
    ensures { result ≡ warning_line page }
{
    let mut line = LineBuffer::new();
    line.push_number("warning: the page has ", page.bytes);
    line.push(" bytes, more than 50000000");
    push_fitting(&mut line, page.cycles);
    line.push("\n");
    line
}

// Tells a page that is too long, as far as the stream takes it.
fn write_line<E: Write>(errors: &mut ErrorStream<E>, page: LargePage) -> io::Result<()>
    ensures told { TellsLine E.Write errors.old errors.new (warning_line page) }
    ensures refused { OnErr result (IsTrue (has_refused errors.new)) }
{
    put(errors, line_of(page).as_bytes())
}

/// Tells what is warned of, as far as the stream takes it, in one line that needs no memory. It is told whole unless
/// the stream refuses. Where there is nothing to warn of, nothing is told.
pub fn write_warning<E: Write>(errors: &mut ErrorStream<E>, warning: Option<LargePage>)
    ensures told { Warns E.Write errors.old errors.new warning }
    ensures silent { warning ≡ None → errors.new ≡ errors.old }
{
    if let Some(page) = warning {
        let _ = write_line(errors, page);
    }
}
