//! Machines in shards that `run_with` runs with a runner of the tests: neither how many shards there are affects the
//! outcome, nor the order in which the results of a phase come.

ghost use Rattle.std.specs.Prelude.{◌≡◌, ◌<◌};

use crate::expect::expect_at;
use crate::generated::large_texts;
use crate::outcomes::{DRAINED, EVERY, Run, Texts, plain_tables, tables_of};
use config_reader::read_config;
use fixtures::random::Random;
use fixtures::texts::traces_of;
use shards::job::{Done, Job};
use sim_base::fault::Fault;
use sim_base::message::Cycle;
use simulation::gate::OpenGate;
use simulation::machine::run_with;
use simulation::runner::{Runner, Serial};
use std::alloc::Global;
use std::process::Abort;
use std::thread::Threads;
use units::sim::Sim;

/// The limit of the longest run.
pub(crate) const LONGEST: Cycle = 1_000_000_000_000;

/// The machine of a run before its first cycle.
pub(crate) fn started<R: Abort + Threads + Sync>(rt: &R, alloc: Global, run: &Run<'_>) -> Sim
    ensures { result.now ≡ 0 }
{
    let config = read_config(alloc, run.config.as_bytes()).expect(rt, "a machine");
    let traces = traces_of(rt, alloc, run.texts).expect(rt, "traces");
    assert!(rt;
        traces.len() == usize::from(config.cores),
        "a trace for each core"
    );
    Sim::start(alloc, &config, traces, EVERY).expect(rt, "memory")
}

/// Runs the jobs of a phase one after the other, and gives their results from the last to the first.
#[derive(Drop)]
struct Reversed<'a> {
    serial: Serial<'a, OpenGate>,
}

impl<'a> Runner for Reversed<'a> {
    fn run_phase(&mut self, jobs: Vec<Job>) -> Result<Vec<Done>, Fault> {
        let mut results = self.serial.run_phase(jobs)?;
        results.reverse();
        Ok(results)
    }
}

/// The simulator at a limit, if that is one that it has not passed.
pub(crate) fn run_up_to<N: Runner>(
    sim: Sim,
    alloc: Global,
    limit: Cycle,
    shards: usize,
    runner: &mut N,
) -> Result<Sim, Fault>
    requires { 0 < shards }
{
    if sim.now() <= limit && limit <= LONGEST {
        run_with(sim, alloc, limit, shards, runner)
    } else {
        Ok(sim)
    }
}

/// The simulator at the end of its run, which stops twice on the way.
fn run_in_shards(
    rt: &impl Abort,
    alloc: Global,
    mut sim: Sim,
    limits: [Cycle; 3],
    shards: usize,
) -> Sim
    requires { 0 < shards }
{
    let mut runner = Reversed {
        serial: Serial::new(alloc, &OpenGate),
    };
    for limit in limits {
        sim = run_up_to(sim, alloc, limit, shards, &mut runner).expect(rt, "memory");
    }
    sim
}

/// A run that stops at a cycle has the tables of the plain machine, in however many shards. Some machines have fewer
/// units than there are shards.
fn assert_shared<R: Abort + Threads + Sync>(rt: &R, alloc: Global, run: &Run<'_>, stop: Cycle) {
    let plain = plain_tables(rt, alloc, run);
    for shards in [1, 2, 5] {
        let sim = started(rt, alloc, run);
        let sim = run_in_shards(rt, alloc, sim, [stop / 2, stop, run.cycles], shards);
        let outcome = sim.outcome(alloc, EVERY).expect(rt, "memory");
        let same = tables_of(rt, alloc, &outcome).as_slice() == plain.as_slice();
        expect_at(rt, &(shards, stop, run.config), &same, &true);
    }
}

/// The traces of two cores.
pub(crate) const TWO_TRACES: [&str; 2] = ["0 0\n7 4096\n3 64 128\n", "5 64\n0 8192 64\n2 0\n"];

/// Two cores and a channel, which end at a limit or drained; and twenty-four cores and two channels.
#[test]
fn shards_do_not_show(rt: HostRuntime) {
    for end in ["", DRAINED] {
        let texts = Texts::of(&rt, rt.alloc(), &["cores = 2"], end, &TWO_TRACES);
        assert_shared(&rt, rt.alloc(), &texts.run(300), 150);
    }
    let texts = large_texts(&rt, rt.alloc(), "request_latency = 2");
    assert_shared(&rt, rt.alloc(), &texts.run(400), 200);
}

/// The machine of a seed stops at a cycle of the seed, and at half of that.
#[test]
fn shards_of_generated_machines_do_not_show(rt: HostRuntime) {
    for seed in 0..300 {
        let (texts, limit) = Texts::made_up(&rt, rt.alloc(), seed);
        let stop = Random::new(seed).below(limit);
        assert_shared(&rt, rt.alloc(), &texts.run(limit), stop);
    }
}
