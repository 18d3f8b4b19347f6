//! Outcomes of runs, compared by the tables that are written of them.

use crate::expect::expect_at;
use fixtures::generated::{Generated, made_up};
use fixtures::small::small_text;
use fixtures::texts::texts_of;
use reference::runs::simulate_plain;
use reports::{write_commands, write_final, write_requests, write_stats};
use sim_base::command::IssuedCommand;
use sim_base::fault::Fault;
use sim_base::message::{Cycle, Message};
use simulation::gate::{Gate, OpenGate};
use simulation::input::InputTexts;
use simulation::options::{Hooks, RunOptions};
use simulation::runs::simulate;
use simulation::sharing::{Sharing, Workers};
use simulation::watch::{Unwatched, Watch};
use statistics::outcome::Outcome;
use statistics::tables::Tables;
use std::alloc::Global;
use std::process::Abort;
use std::sync::Wait;
use std::thread::Threads;

/// This number of workers, which share each machine out.
pub(crate) fn always(count: u64) -> Workers {
    Workers {
        count,
        sharing: Sharing::always(),
    }
}

/// This number of workers, which share a machine out where that is worth it.
pub(crate) fn auto(count: u64) -> Workers {
    Workers {
        count,
        sharing: Sharing::default(),
    }
}

/// All tables of a run.
pub(crate) const EVERY: Tables = Tables {
    commands: true,
    stats: true,
    last: true,
    requests: true,
};

/// The bytes of an outcome's four tables, one behind the other.
pub(crate) fn tables_of(rt: &impl Abort, alloc: Global, outcome: &Outcome) -> Vec<u8> {
    let mut tables = Vec::new(alloc);
    let commands = outcome.commands.as_ref().expect(rt, "commands");
    let requests = outcome.requests.as_ref().expect(rt, "requests");
    write_commands(alloc, outcome.ranks, commands, &mut tables).expect(rt, "memory");
    write_requests(alloc, requests, &mut tables).expect(rt, "memory");
    write_stats(alloc, &outcome.stats, &mut tables).expect(rt, "memory");
    write_final(alloc, &outcome.last, outcome.ranks, &mut tables).expect(rt, "memory");
    tables
}

/// The commands of a run, its cycles, and its messages in flight.
pub(crate) type Did = (Vec<IssuedCommand>, Cycle, Vec<Message>);

/// What the run of an outcome did and left.
pub(crate) fn did(rt: &impl Abort, alloc: Global, outcome: &Outcome) -> Did {
    let commands = outcome.commands.as_ref().expect(rt, "commands");
    let flight = outcome.last.in_flight.to_vec(alloc).expect(rt, "memory");
    (
        commands.to_vec(alloc).expect(rt, "memory"),
        outcome.stats.cycles,
        flight,
    )
}

/// The line by which a run ends drained.
pub(crate) const DRAINED: &str = "end = \"drained\"\n";

/// What is run, up to which cycle, and by which workers.
#[derive(Clone, Copy)]
pub(crate) struct Run<'a> {
    pub(crate) config: &'a str,
    pub(crate) texts: &'a [Vec<u8>],
    pub(crate) cycles: Cycle,
    pub(crate) workers: Workers,
}

impl<'a> Run<'a> {
    /// The run by other workers.
    pub(crate) fn by(self, workers: Workers) -> Run<'a> {
        Run { workers, ..self }
    }

    /// How it is asked for, with all tables.
    fn options(&self) -> RunOptions {
        RunOptions {
            cycles: self.cycles,
            workers: self.workers,
            tables: EVERY,
        }
    }
}

/// The texts of a run.
#[derive(Drop)]
pub(crate) struct Texts {
    pub(crate) config: String,
    pub(crate) traces: Vec<Vec<u8>>,
}

impl Texts {
    /// Those of the small machine with other lines for some keys and more lines at its end, and of these traces.
    pub(crate) fn of(
        rt: &impl Abort,
        alloc: Global,
        changes: &[&str],
        more: &str,
        traces: &[&str],
    ) -> Self {
        Texts {
            config: small_text(alloc, changes, more).expect(rt, "memory"),
            traces: texts_of(alloc, traces).expect(rt, "memory"),
        }
    }

    /// Those of the machine that a seed makes up, and its limit.
    pub(crate) fn made_up(rt: &impl Abort, alloc: Global, seed: u64) -> (Self, Cycle) {
        let Generated {
            config,
            traces,
            limit,
        } = made_up(alloc, seed).expect(rt, "memory");
        (Texts { config, traces }, limit)
    }

    /// The run up to a limit, by one worker.
    pub(crate) fn run(&self, cycles: Cycle) -> Run<'_> {
        Run {
            config: self.config.as_str(),
            texts: &self.traces,
            cycles,
            workers: auto(1),
        }
    }
}

/// The texts as slices of bytes.
fn slices_of<'a>(rt: &impl Abort, alloc: Global, texts: &'a [Vec<u8>]) -> Vec<&'a [u8]> {
    let slices: Vec<&'a [u8]> = texts
        .iter()
        .map(|text| text.as_slice())
        .collect(alloc)
        .expect(rt, "memory");
    slices
}

/// The outcome of a run by the plain machine, which only tests the number of workers.
pub(crate) fn plain_outcome<R: Abort + Threads + Sync>(
    rt: &R,
    alloc: Global,
    run: &Run<'_>,
) -> Result<Outcome, Fault> {
    let texts = slices_of(rt, alloc, run.texts);
    let input = InputTexts {
        config: run.config.as_bytes(),
        traces: &texts,
    };
    simulate_plain(rt, alloc, input, run.options())
}

/// The tables of a run by the plain machine.
pub(crate) fn plain_tables<R: Abort + Threads + Sync>(
    rt: &R,
    alloc: Global,
    run: &Run<'_>,
) -> Vec<u8> {
    let outcome = plain_outcome(rt, alloc, run).expect(rt, "a run");
    tables_of(rt, alloc, &outcome)
}

/// The outcome of a run with these hooks.
pub(crate) fn outcome_of<R: Abort + Threads + Wait + Sync, G: Gate + Sync, W: Watch>(
    rt: &R,
    alloc: Global,
    hooks: Hooks<'_, G, W>,
    run: &Run<'_>,
) -> Result<Outcome, Fault> {
    let texts = slices_of(rt, alloc, run.texts);
    let input = InputTexts {
        config: run.config.as_bytes(),
        traces: &texts,
    };
    simulate(rt, alloc, hooks, input, run.options())
}

/// A run with these hooks has these tables.
pub(crate) fn assert_tables<R: Abort + Threads + Wait + Sync, G: Gate + Sync, W: Watch>(
    rt: &R,
    alloc: Global,
    hooks: Hooks<'_, G, W>,
    run: &Run<'_>,
    want: &[u8],
) {
    let outcome = outcome_of(rt, alloc, hooks, run).expect(rt, "a run");
    let same = tables_of(rt, alloc, &outcome).as_slice() == want;
    let case = (run.workers.count, run.cycles, run.config);
    expect_at(rt, &case, &same, &true);
}

/// A run has the same tables by each of these workers as by the plain machine.
pub(crate) fn assert_same<R: Abort + Threads + Wait + Sync>(
    rt: &R,
    alloc: Global,
    run: &Run<'_>,
    workers: &[Workers],
) {
    let plain = plain_tables(rt, alloc, run);
    for workers in workers {
        let hooks = Hooks {
            gate: &OpenGate,
            watch: &mut Unwatched,
        };
        assert_tables(rt, alloc, hooks, &run.by(*workers), &plain);
    }
}
