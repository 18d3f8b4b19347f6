//! The lines that tell a refusal.

ghost use Rattle.std.specs.Prelude.{◌≡◌, ◌≤◌, [], length, IsTrue, OnOk, OnErr};
ghost use Rattle.refusal.specs.Lines.{cause_word, fault_line, refusal_lines};
ghost use Rattle.refusal.specs.Streams.{has_refused};
ghost use Rattle.refusal.specs.Telling.{Takes, TakesBeginning, TakesRefusal, Tells};

use crate::error_stream::ErrorStream;
use crate::line_buffer::LineBuffer;
use crate::refusal::Refusal;
use sim_base::fault::{Fault, LineCause};
use std::io::{self, ErrorKind, Write};

fn word_of(cause: LineCause) -> &'static str
    ensures word { result.now ≡ cause_word cause }
    ensures short { length result.now ≤ 15 }
{
    match cause {
        LineCause::TooFew => "too-few",
        LineCause::TooMany => "too-many",
        LineCause::NotANumber => "not-a-number",
        LineCause::TooLarge => "too-large",
    }
}

// Appends the line of a fault, without its end.
fn push_fault(lines: &mut LineBuffer, fault: Fault)
    requires empty { lines.old ≡ [] }
    ensures line { lines.new ≡ fault_line fault }
    ensures short { length lines.new ≤ 100 }
{
    match fault {
        Fault::ConfigSyntax => lines.push("fault 1: configuration is not TOML"),
        Fault::ConfigKey(key) => lines.push_name("fault 2: configuration key ", key.name()),
        Fault::ConfigRange(key) => lines.push_name("fault 3: configuration range ", key.name()),
        Fault::ConfigRelation(number) => {
            lines.push_number("fault 4: configuration relation ", number as u64)
        }
        Fault::TraceLine { core, line, cause } => {
            lines.push_number("fault 5: trace ", core as u64);
            lines.push_number(" line ", line);
            lines.push_name(" ", word_of(cause));
        }
        Fault::TraceTooLong { core } => {
            lines.push_number("fault 6: trace ", core as u64);
            lines.push(" too long");
        }
        Fault::TraceCount => lines.push("fault 7: trace count"),
        Fault::Workers => lines.push("fault 8: workers"),
        Fault::Cycles => lines.push("fault 9: cycles"),
        Fault::Memory => lines.push("fault 10: memory"),
        Fault::WorkerStart => lines.push("fault 11: worker start"),
        Fault::Write => lines.push("fault 12: write"),
        Fault::Read => lines.push("fault 13: read"),
        Fault::CommandLine => lines.push("fault 14: command line"),
        Fault::CheckRow(row) => lines.push_number("fault 15: check row ", row),
        Fault::Merge(cause) => lines.push_number("fault 16: merge ", cause.number() as u64),
    }
}

/// The line of a fault, without its end, as the program tells it: at most 100 bytes. It needs no memory.
pub fn line_of_fault(fault: Fault) -> LineBuffer
    ensures line { result ≡ fault_line fault }
    ensures short { length result ≤ 100 }
{
    let mut lines = LineBuffer::new();
    push_fault(&mut lines, fault);
    lines
}

// The lines of a refusal, which need no memory.
fn lines_of(refusal: &Refusal) -> LineBuffer
    ensures { result ≡ refusal_lines refusal.now }
{
    let mut lines = line_of_fault(refusal.reason().fault());
    if let Refusal::Torn(_) = refusal {
        lines.push(
            "\nthe tables are of two runs: what is missing of this one stands beside them under names that end in .part",
        );
    }
    lines.push("\n");
    lines
}

// Writes a text, as far as the stream takes it.
pub(crate) fn put<E: Write>(errors: &mut ErrorStream<E>, text: &[u8]) -> io::Result<()>
    ensures whole { OnOk result (Takes E.Write errors.old errors.new text.now) }
    ensures part { TakesBeginning E.Write errors.old errors.new text.now }
    ensures refused { OnErr result (IsTrue (has_refused errors.new)) }
{
    let mut rest = text;
    while !rest.is_empty() {
        match errors.write_some(rest)? {
            0 => return Err(io::Error::from(ErrorKind::WriteZero)),
            count => rest = &rest[count..],
        }
    }
    Ok(())
}

/// Tells a refusal, as far as the stream takes it: its lines, which need no memory, and then those that explain it. It
/// is told whole unless the stream refuses.
pub fn write_lines<E: Write>(errors: &mut ErrorStream<E>, refusal: &Refusal) -> io::Result<()>
    ensures whole { OnOk result (TakesRefusal E.Write errors.old errors.new refusal.now) }
    ensures told { Tells E.Write errors.old errors.new refusal.now }
    ensures refused { OnErr result (IsTrue (has_refused errors.new)) }
{
    put(errors, lines_of(refusal).as_bytes())?;
    put(errors, refusal.reason().more().as_bytes())
}
