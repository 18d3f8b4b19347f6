//! Runs whose workers pass a gate, which shows that several of them are at work at once.
//!
//! The runs are made as the program makes them, by workers that share each machine out. No gate waits forever. A phase
//! has two jobs for each worker, or as many as there are units, and no worker takes a job while it holds another; so a
//! job that is held is held by one worker, and the others take all other jobs.

use crate::expect::expect_at;
use crate::outcomes::{Run, Texts, always, assert_tables, auto, outcome_of, plain_tables};
use shards::job::JobName;
use sim_base::message::Cycle;
use simulation::gate::Gate;
use simulation::options::Hooks;
use simulation::watch::Unwatched;
use std::alloc::Global;
use std::process::Abort;
use std::sync::Wait;
use std::sync::atomic::{AtomicU64, Ordering};
use std::thread;
use std::thread::Threads;

/// How often a job that is held looks whether it may go on, where something is wrong.
const TURNS: u64 = 20_000_000;

/// The phases of two cores that read a line each, of the same row. The requests are sent in cycle 0 and come in 2,
/// where the row is opened. The lines are read in the cycles 5 and 10, as they lie in one group. The credits come in 7
/// and 12, and the replies in 15 and 20. In the other cycles nothing happens.
static SPANS: [(Cycle, Cycle); 8] = [
    (0, 2),
    (2, 4),
    (5, 7),
    (7, 9),
    (10, 12),
    (12, 14),
    (15, 17),
    (20, 22),
];

/// How many jobs each phase has: one for each of two cores and one for the channel.
const JOBS: usize = 3;

/// Holds each job that enters until as many of its phase have entered as there are workers, or jobs.
#[derive(Drop)]
struct Meeting {
    /// How many jobs of a phase are run at the same time.
    workers: u64,
    /// How many jobs of each phase have entered.
    come: Vec<AtomicU64>,
    /// How often each job was entered, and left, phase by phase.
    entered: Vec<AtomicU64>,
    left: Vec<AtomicU64>,
    /// Jobs of no such phase, and jobs that were held forever.
    faults: AtomicU64,
}

fn zeros(rt: &impl Abort, alloc: Global, count: usize) -> Vec<AtomicU64> {
    let mut zeros = Vec::new(alloc);
    for _ in 0..count {
        zeros.push(AtomicU64::new(0)).expect(rt, "memory");
    }
    zeros
}

/// Whether each thing was counted once.
fn are_one(counts: &[AtomicU64]) -> bool {
    for count in counts {
        if count.load(Ordering::SeqCst) != 1 {
            return false;
        }
    }
    true
}

/// Counts a job at its place among the jobs of all phases, if it is one of the expected ones. Gives its phase.
fn counted(counts: &[AtomicU64], job: JobName) -> Option<usize> {
    let phase = usize::try_from(job.phase).ok()?;
    let (from, until) = *SPANS.get(phase)?;
    if job.from != from || job.until != until || job.shard >= JOBS {
        return None;
    }
    let place = phase.checked_mul(JOBS)?.checked_add(job.shard)?;
    counts.get(place)?.fetch_add(1, Ordering::SeqCst);
    Some(phase)
}

impl Meeting {
    /// Whether a job that enters a phase meets as many of that phase as are run at the same time.
    fn meets(&self, phase: usize) -> bool {
        let Some(come) = self.come.get(phase) else {
            return false;
        };
        come.fetch_add(1, Ordering::SeqCst);
        for _ in 0..TURNS {
            if come.load(Ordering::SeqCst) >= self.workers {
                return true;
            }
            thread::yield_now();
        }
        false
    }
}

impl Gate for Meeting {
    fn enter(&self, _worker: usize, job: JobName) {
        let met = match counted(&self.entered, job) {
            Some(phase) => self.meets(phase),
            None => false,
        };
        if !met {
            self.faults.fetch_add(1, Ordering::SeqCst);
        }
    }

    fn leave(&self, _worker: usize, job: JobName) {
        if counted(&self.left, job).is_none() {
            self.faults.fetch_add(1, Ordering::SeqCst);
        }
    }
}

/// In each phase all workers are at work at once, or as many as there are units: two cores and a channel. Each job is
/// run once, and the tables are the plain machine's.
#[test]
fn workers_meet_in_every_phase(rt: HostRuntime) {
    let alloc = rt.alloc();
    let texts = Texts::of(&rt, alloc, &["cores = 2"], "", &["0 0\n", "0 64\n"]);
    let run = texts.run(32);
    let plain = plain_tables(&rt, alloc, &run);
    let phases = SPANS.len();
    let count = JOBS.saturating_mul(phases);
    for workers in [2, 3, 7] {
        let gate = Meeting {
            workers: workers.min(JOBS as u64),
            come: zeros(&rt, alloc, phases),
            entered: zeros(&rt, alloc, count),
            left: zeros(&rt, alloc, count),
            faults: AtomicU64::new(0),
        };
        let hooks = Hooks {
            gate: &gate,
            watch: &mut Unwatched,
        };
        assert_tables(&rt, alloc, hooks, &run.by(always(workers)), &plain);
        let whole = are_one(&gate.entered) && are_one(&gate.left);
        let faults = gate.faults.load(Ordering::SeqCst);
        expect_at(&rt, &workers, &(faults, whole), &(0, true));
    }
}

/// Counts the jobs, and holds the first of phase 0 until `others` other jobs of that phase have left.
#[derive(Drop)]
struct Holding {
    others: u64,
    /// How many jobs were entered.
    jobs: AtomicU64,
    /// How many of phase 0 were entered, and left, and whether the first was released.
    entered: AtomicU64,
    left: AtomicU64,
    released: AtomicU64,
}

impl Holding {
    fn new(others: u64) -> Self {
        Holding {
            others,
            jobs: AtomicU64::new(0),
            entered: AtomicU64::new(0),
            left: AtomicU64::new(0),
            released: AtomicU64::new(0),
        }
    }
}

impl Gate for Holding {
    fn enter(&self, _worker: usize, job: JobName) {
        self.jobs.fetch_add(1, Ordering::SeqCst);
        if job.phase != 0 || self.entered.fetch_add(1, Ordering::SeqCst) != 0 {
            return;
        }
        for _ in 0..TURNS {
            if self.left.load(Ordering::SeqCst) >= self.others {
                self.released.store(1, Ordering::SeqCst);
                return;
            }
            thread::yield_now();
        }
    }

    fn leave(&self, _worker: usize, job: JobName) {
        if job.phase == 0 {
            self.left.fetch_add(1, Ordering::SeqCst);
        }
    }
}

/// While one of several workers holds its job, the others run theirs, and the tables are the plain machine's. There are
/// four cores and two channels, and no more workers than units.
#[test]
fn no_worker_waits_for_another_part(rt: HostRuntime) {
    let alloc = rt.alloc();
    let changes = ["cores = 4", "channels = 2"];
    let texts = Texts::of(&rt, alloc, &changes, "", &["0 0\n"; 4]);
    let run = texts.run(32);
    let plain = plain_tables(&rt, alloc, &run);
    for (workers, others, jobs) in [(2, 3, 4), (3, 5, 6), (6, 5, 6)] {
        let gate = Holding::new(others);
        let hooks = Hooks {
            gate: &gate,
            watch: &mut Unwatched,
        };
        assert_tables(&rt, alloc, hooks, &run.by(always(workers)), &plain);
        let found = (
            gate.entered.load(Ordering::SeqCst),
            gate.left.load(Ordering::SeqCst),
            gate.released.load(Ordering::SeqCst),
        );
        expect_at(&rt, &workers, &found, &(jobs, jobs, 1));
    }
}

/// How many jobs the phases of a run have; none where the caller runs it alone.
pub(crate) fn jobs_of<R: Abort + Threads + Wait + Sync>(
    rt: &R,
    alloc: Global,
    run: &Run<'_>,
) -> u64 {
    let gate = Holding::new(0);
    let hooks = Hooks {
        gate: &gate,
        watch: &mut Unwatched,
    };
    outcome_of(rt, alloc, hooks, run).expect(rt, "a run");
    gate.jobs.load(Ordering::SeqCst)
}

/// Four lines, which a core asks for in its first two cycles.
const FOUR_LINES: &str = "0 0\n0 64\n0 128\n0 192\n";

/// Requests are on their way for 5,000 cycles.
const FAR: &str = "request_latency = 5000";

/// All requests of 32 cores, 128 in all, are in flight for a long time, so the units are shared out. Where there are
/// few units, or one worker, the caller runs them, unless several workers always share.
#[test]
fn a_large_machine_is_shared_out(rt: HostRuntime) {
    let alloc = rt.alloc();
    let changes = ["cores = 32", "channels = 2", FAR];
    let large = Texts::of(&rt, alloc, &changes, "", &[FOUR_LINES; 32]);
    let changes = ["cores = 14", "channels = 2", FAR];
    let small = Texts::of(&rt, alloc, &changes, "", &[FOUR_LINES; 14]);
    for (workers, want) in [
        (auto(2), (true, false)),
        (always(2), (true, true)),
        (always(1), (false, false)),
    ] {
        let of_large = jobs_of(&rt, alloc, &large.run(6_000).by(workers));
        let of_small = jobs_of(&rt, alloc, &small.run(6_000).by(workers));
        expect_at(&rt, &workers.count, &(of_large > 0, of_small > 0), &want);
    }
}
