//! A run of the plain machine, from the bytes of its input.

ghost use Rattle.std.specs.Prelude.{IfOk, IfErr};
ghost use Rattle.simulation.specs.Runs.{IsInputFault, IsRun, IsLegal};
ghost use Rattle.sim_base.specs.Texts.{texts_of};

use one_clock::machine::run_plain;
use sim_base::fault::Fault;
use simulation::input::{InputTexts, read_input};
use simulation::options::RunOptions;
use statistics::outcome::Outcome;
use std::alloc::Global;
use std::thread::Threads;

/// The run of `simulation::runs::simulate` by the one-clock machine, one cycle after the other, with no workers: their
/// number is only tested, and threads are used only to read long traces. Tests compare with it.
///
/// The input is tested in the same order, and its first fault is returned. `Fault::Memory` may come at any time; the
/// run itself is refused only with this.
pub fn simulate_plain<R: Threads + Sync>(
    rt: &R,
    alloc: Global,
    input: InputTexts<'_>,
    options: RunOptions,
) -> Result<Outcome, Fault>
    ensures run { IfOk result (IsRun input.entry options) }
    ensures legal { IfOk result (IsLegal input.entry options) }
    ensures refused { IfErr result (IsInputFault
        input.entry.config.now (texts_of input.entry.traces.now)
        options.cycles options.workers.count) }
{
    let RunOptions {
        cycles,
        workers,
        tables,
    } = options;
    let (config, traces) = match read_input(rt, alloc, input, cycles, workers.count) {
        Ok(input) => input,
        Err(fault) => return Err(fault),
    };
    let Ok(outcome) = run_plain(alloc, &config, &traces, tables, cycles) else {
        return Err(Fault::Memory);
    };
    Ok(outcome)
}
