//! Reads a trace, and prints how many entries it has, and how long the reading took, without that of the file.

use crate::figures::{Effort, now, show_count};
use cpu_trace::reader::read_trace;
use sim_base::fault::Fault;
use std::alloc::Global;
use std::fs;
use std::rt::{Clock, Files};
use std::thread::Threads;

/// How many entries a trace has, and in how many nanoseconds it was read.
type Reading = (u64, u64);

/// Reads a text.
fn read_text(
    rt: &(impl Clock + Threads + Sync),
    alloc: Global,
    text: &[u8],
) -> Result<Reading, Fault> {
    let start = now(rt);
    let trace = read_trace(rt, alloc, 0, text)?;
    Ok((trace.len(), now(rt).saturating_sub(start)))
}

/// Reads the text of a file.
fn read_file<R: Alloc + Clock + Files + Threads + Sync>(
    rt: &R,
    alloc: Global,
    path: &str,
) -> Result<Reading, Fault> {
    match fs::read(rt, path) {
        Ok(text) => read_text(rt, alloc, &text),
        Err(_) => Err(Fault::Read),
    }
}

/// Reads the trace of a file.
pub fn show<R: Alloc + Clock + Files + Print + Threads + Sync>(
    rt: &R,
    alloc: Global,
    path: &str,
    effort: Effort,
) -> Result<(), Fault> {
    let (entries, time) = read_file(rt, alloc, path)?;
    show_count(rt, entries, "entries")?;
    match effort {
        Effort::Little => Ok(()),
        Effort::Timed => show_count(rt, time / 1_000_000, "ms"),
    }
}
