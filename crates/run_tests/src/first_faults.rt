//! Runs that are refused where two things are wrong at once: the first of them in the order of the tests is told, by
//! the machine with workers and by the plain one.

use crate::expect::expect_at;
use crate::outcomes::{Texts, always, outcome_of, plain_outcome};
use sim_base::fault::{Fault, LineCause};
use sim_base::key::Key;
use sim_base::message::Cycle;
use simulation::gate::OpenGate;
use simulation::options::Hooks;
use simulation::watch::Unwatched;
use std::alloc::Global;
use std::process::Abort;
use std::sync::Wait;
use std::thread::Threads;

/// One cycle more than a run may have.
const TOO_LONG: Cycle = 1_000_000_000_001;

/// A line in the place of one of the small machine's, or none, the first `count` of some traces, and what else is wrong
/// of a run; and the fault that is told.
struct Case<'x> {
    change: &'x str,
    traces: [&'x str; 3],
    count: usize,
    cycles: Cycle,
    workers: u64,
    want: Fault,
}

/// The faults of a run by workers and by the plain machine.
fn refused<R: Abort + Threads + Wait + Sync>(
    rt: &R,
    alloc: Global,
    case: &Case<'_>,
) -> [Option<Fault>; 2] {
    let traces = case.traces.get(..case.count).unwrap_or(&[]);
    let texts = Texts::of(rt, alloc, &[case.change], "", traces);
    let run = texts.run(case.cycles).by(always(case.workers));
    let hooks = Hooks {
        gate: &OpenGate,
        watch: &mut Unwatched,
    };
    let by_workers = outcome_of(rt, alloc, hooks, &run).err();
    let plain = plain_outcome(rt, alloc, &run).err();
    [by_workers, plain]
}

static CASES: [Case<'static>; 13] = [
    // No document comes first, with all else that is wrong.
    Case {
        change: "cores = = 1",
        traces: ["", "", ""],
        count: 0,
        cycles: TOO_LONG,
        workers: 0,
        want: Fault::ConfigSyntax,
    },
    // Then comes the configuration.
    Case {
        change: "request_latency = 0",
        traces: ["x\n", "", ""],
        count: 1,
        cycles: 64,
        workers: 2,
        want: Fault::ConfigRange(Key::RequestLatency),
    },
    Case {
        change: "request_latency = 0",
        traces: ["0 0\n", "0 0\n", ""],
        count: 2,
        cycles: 64,
        workers: 2,
        want: Fault::ConfigRange(Key::RequestLatency),
    },
    Case {
        change: "nREFI = 34",
        traces: ["0 0\n", "", ""],
        count: 1,
        cycles: 64,
        workers: 65,
        want: Fault::ConfigRelation(6),
    },
    Case {
        change: "nREFI = 34",
        traces: ["0 0\n", "", ""],
        count: 1,
        cycles: TOO_LONG,
        workers: 2,
        want: Fault::ConfigRelation(6),
    },
    // Then comes the number of traces.
    Case {
        change: "cores = 2",
        traces: ["x\n", "", ""],
        count: 1,
        cycles: 64,
        workers: 2,
        want: Fault::TraceCount,
    },
    Case {
        change: "cores = 2",
        traces: ["0 0\n", "0 0\n", "0 0\n"],
        count: 3,
        cycles: 64,
        workers: 0,
        want: Fault::TraceCount,
    },
    Case {
        change: "",
        traces: ["", "", ""],
        count: 0,
        cycles: TOO_LONG,
        workers: 2,
        want: Fault::TraceCount,
    },
    // Then come the workers and the limit.
    Case {
        change: "",
        traces: ["0 0\n", "", ""],
        count: 1,
        cycles: TOO_LONG,
        workers: 0,
        want: Fault::Workers,
    },
    Case {
        change: "",
        traces: ["x\n", "", ""],
        count: 1,
        cycles: 64,
        workers: 65,
        want: Fault::Workers,
    },
    Case {
        change: "",
        traces: ["x\n", "", ""],
        count: 1,
        cycles: TOO_LONG,
        workers: 2,
        want: Fault::Cycles,
    },
    // Then come the traces by core.
    Case {
        change: "cores = 2",
        traces: ["0 0\n3\n", "x y\n", ""],
        count: 2,
        cycles: 64,
        workers: 2,
        want: Fault::TraceLine {
            core: 0,
            line: 2,
            cause: LineCause::TooFew,
        },
    },
    Case {
        change: "cores = 2",
        traces: ["0 0\n", "0 0\n\n1 x\n1 2 3 4\n", ""],
        count: 2,
        cycles: 64,
        workers: 2,
        want: Fault::TraceLine {
            core: 1,
            line: 3,
            cause: LineCause::NotANumber,
        },
    },
];

#[test]
fn the_first_fault_is_told(rt: HostRuntime) {
    for case in &CASES {
        let found = refused(&rt, rt.alloc(), case);
        let want = [Some(case.want), Some(case.want)];
        expect_at(&rt, &(case.change, case.traces), &found, &want);
    }
}
