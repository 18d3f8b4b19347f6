//! Small runs that are refused memory: each gives fault 10, or 11 where a worker did not start, or its usual result. To
//! be run with each allocation failing in turn; what the test takes of memory itself counts too.

use crate::expect::expect_at;
use crate::outcomes::always;
use fixtures::one_read::{CHANNELS, CORES};
use fixtures::small::SMALL;
use sim_base::command::Kind;
use sim_base::fault::Fault;
use simulation::gate::OpenGate;
use simulation::input::InputTexts;
use simulation::options::{Hooks, RunOptions};
use simulation::runs::simulate;
use simulation::watch::Unwatched;
use statistics::outcome::Outcome;
use statistics::tables::Tables;
use std::alloc::Global;

/// Whether these are the commands of one core that reads one line: an ACT in cycle 2 and an RD in cycle 5. Where the
/// list of them is refused memory, that is not known.
fn has_commands(alloc: Global, outcome: &Outcome) -> bool {
    let Some(commands) = &outcome.commands else {
        return false;
    };
    let Ok(rows) = commands.to_vec(alloc) else {
        return true;
    };
    match rows.as_slice() {
        [act, read] => {
            act.cycle == 2
                && act.command.kind() == Kind::Act
                && read.cycle == 5
                && read.command.kind() == Kind::Rd
        }
        _ => false,
    }
}

/// Whether this is the outcome of that run over 16 cycles.
fn is_right(alloc: Global, outcome: &Outcome) -> bool {
    has_commands(alloc, outcome)
        && outcome.stats.cycles == 16
        && outcome.stats.cores.as_slice() == CORES.as_slice()
        && outcome.stats.channels.as_slice() == CHANNELS.as_slice()
        && outcome.last.in_flight.is_empty()
}

/// A run by one worker, and one by two.
#[test]
fn workers_with_little_memory(rt: HostRuntime) {
    let texts: [&[u8]; 1] = [b"0 0\n"];
    for workers in [1, 2] {
        let hooks = Hooks {
            gate: &OpenGate,
            watch: &mut Unwatched,
        };
        let input = InputTexts {
            config: SMALL.as_bytes(),
            traces: &texts,
        };
        let options = RunOptions {
            cycles: 16,
            workers: always(workers),
            tables: Tables::usual(),
        };
        let right = match simulate(&rt, rt.alloc(), hooks, input, options) {
            Ok(outcome) => is_right(rt.alloc(), &outcome),
            Err(fault) => fault == Fault::Memory || workers > 1 && fault == Fault::WorkerStart,
        };
        expect_at(&rt, &workers, &right, &true);
    }
}
