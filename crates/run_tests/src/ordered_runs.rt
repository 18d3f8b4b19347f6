//! Runs in one thread whose results come in a chosen order, or are not one of each job.

ghost use Rattle.std.specs.Prelude.{◌≡◌, ◌≢◌, ◌<◌, false, All};

use crate::expect::expect_at;
use crate::outcomes::{EVERY, Run, Texts, did};
use crate::shared_out::{LONGEST, started};
use fixtures::small::RANK_FIELD;
use reference::order::Order;
use reference::ordered::run_in_order;
use shards::job::Done;
use sim_base::fault::{Fault, MergeFault};
use sim_base::message::Cycle;
use statistics::outcome::Outcome;
use std::alloc::Global;
use std::process::Abort;
use std::thread::Threads;

/// The results in turn, beginning so many further on in each phase; for 0, as they come.
#[derive(Drop)]
pub(crate) struct Turned(pub(crate) u64);

impl Order for Turned {
    ghost use Rattle.std.specs.Prelude.{IsPermutation};

    ghost may_give = { λ _ results arranged. IsPermutation results arranged };

    fn arrange(&mut self, phase: u64, mut results: Vec<Done>) -> Vec<Done> {
        let count = results.len();
        if count == 0 {
            return results;
        }
        let turn = phase.wrapping_mul(self.0);
        results.rotate_left((turn % count as u64) as usize);
        results
    }
}

/// The last results, from last to first, as many as the number says, or all.
#[derive(Drop)]
pub(crate) struct Last(pub(crate) usize);

impl Order for Last {
    ghost use Rattle.reference.specs.Orders.{BringsNoneIn};

    ghost may_give = { λ _ results arranged. BringsNoneIn results arranged };

    fn arrange(&mut self, _phase: u64, mut results: Vec<Done>) -> Vec<Done> {
        results.reverse();
        results.truncate(self.0);
        results
    }
}

/// No results: those of the phase are kept.
#[derive(Drop)]
struct Keeps {
    alloc: Global,
    kept: Vec<Done>,
}

impl Order for Keeps {
    ghost use Rattle.std.specs.Prelude.{◌≡◌, []};

    ghost may_give = { λ _ _ arranged. arranged ≡ [] };

    fn arrange(&mut self, _phase: u64, results: Vec<Done>) -> Vec<Done> {
        self.kept = results;
        Vec::new(self.alloc)
    }
}

/// Whether a result is of a job that ends at a cycle.
fn ends_at(results: &[Done], until: Cycle) -> bool
    ensures { result ≡ false → All (λ r. r.name.until ≢ until) results.now }
{
    for done in results {
        if done.name().until == until {
            return true;
        }
    }
    false
}

/// The results as they come, and behind them a kept one, where it ends at another cycle.
#[derive(Drop)]
struct Brings(Vec<Done>);

impl Order for Brings {
    ghost use Rattle.reference.specs.Orders.{BringsNoneIn};

    ghost may_give = { λ _ results arranged. BringsNoneIn results arranged };

    fn arrange(&mut self, _phase: u64, mut results: Vec<Done>) -> Vec<Done> {
        let Some(done) = self.0.pop() else {
            return results;
        };
        if ends_at(&results, done.name().until) {
            let _kept = self.0.push(done);
        } else {
            let _brought = results.push(done);
        }
        results
    }
}

/// What a run did and left in shards whose results come in an order, or why it stops.
pub(crate) fn run_by<R: Abort + Threads + Sync, O: Order>(
    rt: &R,
    alloc: Global,
    run: &Run<'_>,
    shards: usize,
    order: &mut O,
) -> Result<Outcome, Fault>
    requires { 0 < shards }
{
    let sim = started(rt, alloc, run);
    match run_in_order(sim, alloc, shards, run.cycles.min(LONGEST), order) {
        Ok(sim) => Ok(sim.outcome(alloc, EVERY).expect(rt, "memory")),
        Err(fault) => Err(fault),
    }
}

/// Lines of the small machine for two cores.
const TWO_CORES: &[&str] = &[RANK_FIELD, "cores = 2"];

/// Lines of the small machine for two cores, with links of 8 cycles.
const SLOW_LINKS: &[&str] = &[
    RANK_FIELD,
    "cores = 2",
    "request_latency = 8",
    "reply_latency = 8",
    "credit_latency = 8",
];

/// A run of two cores that read one line each, up to cycle 16.
fn two_reads<R: Abort + Threads + Sync, O: Order>(
    rt: &R,
    alloc: Global,
    changes: &[&str],
    shards: usize,
    order: &mut O,
) -> Result<Outcome, Fault>
    requires { 0 < shards }
{
    let texts = Texts::of(rt, alloc, changes, "", &["0 0\n"; 2]);
    run_by(rt, alloc, &texts.run(16), shards, order)
}

/// ACT 2, RD 5, and RD 10, as a burst of the same group comes at the earliest 5 cycles after another. The replies
/// arrive in the cycles 15 and 20; the second is in flight before cycle 16. With three shards each unit is one of its
/// own.
#[test]
fn orders_do_not_matter(rt: HostRuntime) {
    let alloc = rt.alloc();
    let outcome = two_reads(&rt, alloc, TWO_CORES, 3, &mut Turned(0));
    let whole = did(&rt, alloc, &outcome.expect(&rt, "a run"));
    let (commands, _, flight) = &whole;
    let ends = [
        commands.first().map(|c| c.cycle),
        commands.last().map(|c| c.cycle),
        flight.first().map(|m| m.arrival),
        flight.last().map(|m| m.arrival),
    ];
    let want = [Some(2), Some(10), Some(20), Some(20)];
    expect_at(&rt, &"ends", &(commands.len(), ends), &(3, want));
    for shards in 1..4 {
        let outcome = two_reads(&rt, alloc, TWO_CORES, shards, &mut Last(usize::MAX));
        let reversed = did(&rt, alloc, &outcome.expect(&rt, "a run"));
        expect_at(&rt, &shards, &reversed, &whole);
    }
}

/// Of the three units' results the last two are left, the last, or none: the first that is missing is the first core's.
#[test]
fn lost_results_stop_a_run(rt: HostRuntime) {
    for left in [2, 1, 0] {
        let fault = two_reads(&rt, rt.alloc(), TWO_CORES, 3, &mut Last(left)).err();
        let missing = Fault::Merge(MergeFault::Missing(0));
        expect_at(&rt, &left, &fault, &Some(missing));
    }
}

/// A run whose order hands in a result of another machine stops, too. The first phase has three results of its own, up
/// to cycle 2. Behind them stands one of the first phase of the other machine, up to cycle 8, with the same number.
#[test]
fn a_stranger_stops_a_run(rt: HostRuntime) {
    let alloc = rt.alloc();
    let mut slow = Keeps {
        alloc,
        kept: Vec::new(alloc),
    };
    let lost = two_reads(&rt, alloc, SLOW_LINKS, 3, &mut slow).err();
    let fault = two_reads(&rt, alloc, TWO_CORES, 3, &mut Brings(slow.kept)).err();
    let want = (
        Some(Fault::Merge(MergeFault::Missing(0))),
        Some(Fault::Merge(MergeFault::Stranger(3))),
    );
    expect_at(&rt, &"kept, and brought", &(lost, fault), &want);
}
