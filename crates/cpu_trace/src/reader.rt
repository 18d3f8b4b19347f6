//! The reader of a trace's text.

ghost use Rattle.std.specs.Prelude.{◌≡◌, ◌≢◌, Ok, Err, IfOk, IfErr};
ghost use Rattle.sim_base.specs.TraceGrammar.{StandsForTrace, IsRefusedBy};
ghost use Rattle.sim_base.specs.TraceText.{lines_of, trace_entries, trace_answer};
ghost use Rattle.cpu_trace.specs.Reading.{IsRead};

use crate::piece::read_piece;
use crate::pieces::read_in_pieces;
use crate::reading::{Reading, Unread};
use crate::trace::Trace;
use sim_base::fault::Fault;
use sim_base::message::CoreId;
use std::alloc::Global;
use std::thread::Threads;

/// The least number of bytes in a piece of a text, if it is not the last.
const PIECE_SIZE: usize = 1 << 18;

/// Reads the lines of a text, in pieces if it has more than `size` bytes.
fn read_text<R: Threads + Sync>(
    rt: &R,
    alloc: Global,
    text: &[u8],
    size: usize,
) -> Result<Reading, Unread>
    ensures { IsRead (lines_of text.now) result }
{
    if text.len() <= size {
        read_piece(alloc, text)
    } else {
        read_in_pieces(rt, alloc, text, size)
    }
}

/// Reads a core's trace as `read_trace` does, with the same faults, but in pieces of at least `size` bytes if its text
/// is longer. Tests use it to read short texts in pieces.
pub fn read_trace_in_pieces<R: Threads + Sync>(
    rt: &R,
    alloc: Global,
    core: CoreId,
    text: &[u8],
    size: usize,
) -> Result<Trace, Fault>
    ensures meaning { IfOk result (StandsForTrace text.now) }
    ensures entries { IfOk result (λ trace. trace_entries text.now ≡ Ok trace) }
    ensures answer { IfOk result (λ trace. trace_answer core text.now ≡ Ok trace) }
    ensures refused { IfErr result (λ fault. fault ≢ Fault.Memory
        → trace_answer core text.now ≡ Err fault) }
    ensures no_meaning { IfErr result (IsRefusedBy text.now) }
{
    match read_text(rt, alloc, text, size) {
        Ok(reading) => match reading.kept {
            Some(entries) => Ok(Trace::new(alloc, entries)?),
            None => Err(Fault::TraceTooLong { core }),
        },
        Err(why) => Err(why.fault(core)),
    }
}

/// Reads a core's trace. A long text is read in pieces, in as many threads as there are processors.
///
/// Fails with `TraceLine` for the first bad line, with `TraceTooLong` if no line is bad and there are more than 2^62
/// entries, and otherwise only with `Memory`, which may come at any time.
pub fn read_trace<R: Threads + Sync>(
    rt: &R,
    alloc: Global,
    core: CoreId,
    text: &[u8],
) -> Result<Trace, Fault>
    ensures meaning { IfOk result (StandsForTrace text.now) }
    ensures entries { IfOk result (λ trace. trace_entries text.now ≡ Ok trace) }
    ensures answer { IfOk result (λ trace. trace_answer core text.now ≡ Ok trace) }
    ensures refused { IfErr result (λ fault. fault ≢ Fault.Memory
        → trace_answer core text.now ≡ Err fault) }
    ensures no_meaning { IfErr result (IsRefusedBy text.now) }
{
    read_trace_in_pieces(rt, alloc, core, text, PIECE_SIZE)
}
