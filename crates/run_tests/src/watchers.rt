//! Runs that are watched: what the watcher is told, and that its answers do not affect the outcome.

use crate::expect::expect_at;
use crate::outcomes::{DRAINED, Texts, always, assert_tables, auto, outcome_of, plain_tables};
use crate::shared_out::TWO_TRACES;
use sim_base::message::Cycle;
use simulation::gate::OpenGate;
use simulation::options::Hooks;
use simulation::watch::{Stage, Watch};
use std::alloc::Global;
use std::process::Abort;
use std::sync::Wait;
use std::thread::Threads;

/// A cycle, and how many entries have retired before it, of how many.
type Told = (Cycle, Option<u128>, u128);

/// Wants to be asked again after `interval` cycles, and notes what it is told.
#[derive(Drop)]
struct Noting {
    interval: Cycle,
    told: Vec<Told>,
    ends: u64,
}

impl Noting {
    fn new(alloc: Global, interval: Cycle) -> Noting {
        Noting {
            interval,
            told: Vec::new(alloc),
            ends: 0,
        }
    }
}

impl Watch for Noting {
    fn watches(&self) -> bool {
        true
    }

    fn next_interval(&mut self, stage: &Stage) -> Cycle {
        let _ = self.told.push((stage.now, stage.retired, stage.entries));
        self.interval
    }

    fn end(&mut self) {
        self.ends = self.ends.wrapping_add(1);
    }
}

/// Two cores and a channel have the tables of the plain machine, in place and in shards, whatever the watcher answers,
/// and it is told once of the end.
fn assert_watched<R: Abort + Threads + Wait + Sync>(
    rt: &R,
    alloc: Global,
    end: &str,
    interval: Cycle,
) {
    let texts = Texts::of(rt, alloc, &["cores = 2"], end, &TWO_TRACES);
    let run = texts.run(300);
    let plain = plain_tables(rt, alloc, &run);
    for workers in [auto(1), always(3)] {
        let mut watch = Noting::new(alloc, interval);
        let hooks = Hooks {
            gate: &OpenGate,
            watch: &mut watch,
        };
        assert_tables(rt, alloc, hooks, &run.by(workers), &plain);
        expect_at(rt, &(interval, end), &watch.ends, &1);
    }
}

/// The run ends at a limit or drained.
#[test]
fn answers_do_not_show(rt: HostRuntime) {
    for interval in [0, 1, 2, 7, Cycle::MAX] {
        assert_watched(&rt, rt.alloc(), "", interval);
        assert_watched(&rt, rt.alloc(), DRAINED, interval);
    }
}

/// What a watcher is told that wants to be asked every 8 cycles. A core reads one line, whose reply comes in cycle 15, in
/// which the entry retires. A run of 20 cycles is asked about before cycle 0, and then after 8 cycles each time; a run of
/// no cycles is not.
#[test]
fn a_watcher_is_told_what_retired(rt: HostRuntime) {
    let alloc = rt.alloc();
    let texts = Texts::of(&rt, alloc, &[], "", &["0 0\n"]);
    let some = [(0, Some(0), 1), (8, Some(0), 1), (16, Some(1), 1)];
    for (limit, want) in [(20, some.as_slice()), (0, &[])] {
        let mut watch = Noting::new(alloc, 8);
        let hooks = Hooks {
            gate: &OpenGate,
            watch: &mut watch,
        };
        outcome_of(&rt, alloc, hooks, &texts.run(limit)).expect(&rt, "a run");
        let found = (watch.told.as_slice(), watch.ends);
        expect_at(&rt, &limit, &found, &(want, 1));
    }
}
