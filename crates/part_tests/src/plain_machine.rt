//! A run of one core, with each number counted by hand.

use crate::expect::expect;
use cpu_trace::trace::Trace;
use fixtures::one_read::{CHANNELS, CORES};
use fixtures::small::small;
use one_clock::machine::run_plain;
use sim_base::trace::Entry;
use statistics::outcome::Outcome;
use statistics::tables::Tables;
use std::alloc::Global;
use std::process::Abort;

/// The plain machine's run of one Read, up to cycle 16.
fn run_one_read(rt: &impl Abort, alloc: Global) -> Outcome {
    let config = small(alloc, &[], "").expect(rt, "a machine");
    assert!(rt; config.cores == 1, "one core");
    let trace = Trace::from_entries(alloc, &[Entry::Read(0)]).expect(rt, "memory");
    run_plain(alloc, &config, &[trace], Tables::usual(), 16).expect(rt, "memory")
}

/// What a run of one Read counts.
fn assert_counts(rt: &impl Abort, alloc: Global, whole: &Outcome) {
    let table = whole.commands.as_ref().expect(rt, "commands");
    let commands = table.to_vec(alloc).expect(rt, "memory");
    let lengths = (commands.len(), whole.last.in_flight.len());
    let stats = &whole.stats;
    expect(
        rt,
        &(
            lengths,
            stats.cycles,
            stats.cores.as_slice(),
            stats.channels.as_slice(),
        ),
        &((2, 0), 16, CORES.as_slice(), CHANNELS.as_slice()),
    );
}

#[test]
fn counts_one_read(rt: HostRuntime) {
    let whole = run_one_read(&rt, rt.alloc());
    assert_counts(&rt, rt.alloc(), &whole);
}
