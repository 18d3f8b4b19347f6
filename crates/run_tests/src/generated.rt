//! Machines and traces that are made up by seeds: three workers give what the plain machine gives.

use crate::expect::expect_at;
use crate::gates::jobs_of;
use crate::outcomes::{Texts, always, assert_same, auto};
use simulation::sharing::{Sharing, Workers};
use std::alloc::Global;
use std::process::Abort;

#[test]
fn generated_machines(rt: HostRuntime) {
    for seed in 0..40 {
        let (texts, limit) = Texts::made_up(&rt, rt.alloc(), seed);
        assert_same(&rt, rt.alloc(), &texts.run(limit), &[auto(3), always(3)]);
    }
}

/// Three traces, for eight cores each.
const READS: &str = "0 0\n5 4096\n0 64\n";

const WRITES: &str = "3 64 128\n0 8192\n";

const LATE: &str = "40 128 4096\n";

static TRACES: [&str; 24] = [
    READS, WRITES, LATE, READS, WRITES, LATE, READS, WRITES, LATE, READS, WRITES, LATE, READS,
    WRITES, LATE, READS, WRITES, LATE, READS, WRITES, LATE, READS, WRITES, LATE,
];

/// Twenty-four cores and two channels, whose requests are on their way for some cycles.
pub(crate) fn large_texts(rt: &impl Abort, alloc: Global, request_latency: &str) -> Texts {
    let changes = ["cores = 24", "channels = 2", request_latency];
    Texts::of(rt, alloc, &changes, "", &TRACES)
}

/// Many workers have nothing to do on a core and a channel, and some on the large machine.
#[test]
fn machines_do_not_show_their_workers(rt: HostRuntime) {
    let trace = "0 0\n7 4096\n3 64 128\n0 8192\n";
    let small = Texts::of(&rt, rt.alloc(), &[], "", &[trace]);
    let large = large_texts(&rt, rt.alloc(), "request_latency = 2");
    let workers = [
        auto(1),
        auto(2),
        always(2),
        always(3),
        always(7),
        always(64),
    ];
    assert_same(&rt, rt.alloc(), &small.run(200), &workers);
    assert_same(&rt, rt.alloc(), &large.run(400), &workers);
}

/// The requests of the large machine are on their way for 100 cycles: 56 of them at least, from cycle 50 on. Workers
/// share the machine out from the second lap on, in cycle 64, if 32 messages or more are in flight when it begins. So
/// the caller, who runs it alone before, shares it out before the requests come.
#[test]
fn a_busy_machine_does_not_show_its_workers(rt: HostRuntime) {
    let texts = large_texts(&rt, rt.alloc(), "request_latency = 100");
    let run = texts.run(400);
    let sharing = Sharing {
        messages: 32,
        first_lap: 64,
        ..Sharing::default()
    };
    for count in [2, 3] {
        let workers = Workers { count, sharing };
        assert_same(&rt, rt.alloc(), &run, &[workers]);
        let jobs = jobs_of(&rt, rt.alloc(), &run.by(workers));
        expect_at(&rt, &count, &(jobs > 0), &true);
    }
}
