//! Reports of machines, as they are written to writers that take all, little or nothing.

use crate::expect::expect;
use crate::slow::Slow;
use command_table::table::CommandTable;
use reports::{write_commands, write_final, write_stats};
use sim_base::fault::Fault;
use statistics::final_state::FinalState;
use statistics::stats::Stats;
use std::alloc::Global;
use std::io::Write;
use std::process::Abort;

/// A report; those of commands and of the last state have a number of ranks.
#[derive(Clone, Copy)]
pub(crate) enum Report<'a> {
    Commands(u32, &'a CommandTable),
    Stats(&'a Stats),
    Last(u32, &'a FinalState),
}

fn write<W: Write>(alloc: Global, report: Report<'_>, writer: &mut W) -> Result<(), Fault> {
    match report {
        Report::Commands(ranks, table) => write_commands(alloc, ranks, table, writer),
        Report::Stats(stats) => write_stats(alloc, stats, writer),
        Report::Last(ranks, state) => write_final(alloc, state, ranks, writer),
    }
}

/// Whether a writer that takes one byte per call, in `calls` calls, takes the beginning of a text, and how that ends.
fn slowly(
    alloc: Global,
    report: Report<'_>,
    text: &str,
    calls: usize,
    fails: bool,
) -> (bool, Result<(), Fault>) {
    let mut slow = Slow::new(text, calls, fails);
    let ended = write(alloc, report, &mut slow);
    let is_all = slow.rest.len() == text.len().saturating_sub(calls);
    (slow.is_right && is_all, ended)
}

/// Asserts the text of a report that is written byte by byte. A writer that takes too little, or fails, is reported.
fn assert_slow(rt: &impl Abort, alloc: Global, report: Report<'_>, want: &str) {
    let whole = slowly(alloc, report, want, want.len(), false);
    expect(rt, &whole, &(true, Ok(())));
    for calls in 0..want.len() {
        let cut = slowly(alloc, report, want, calls, false);
        let failed = slowly(alloc, report, want, calls, true);
        let refused = (true, Err(Fault::Write));
        expect(rt, &(calls, cut, failed), &(calls, refused, refused));
    }
}

/// Asserts the text of a report, and that of a short one byte by byte.
pub(crate) fn assert_report(rt: &impl Abort, alloc: Global, report: Report<'_>, want: &str) {
    let mut text = Vec::new(alloc);
    let ended = write(alloc, report, &mut text);
    expect(
        rt,
        &(str::from_utf8(text.as_slice()), ended),
        &(Ok(want), Ok(())),
    );
    if want.len() < 500 {
        assert_slow(rt, alloc, report, want);
    }
}
