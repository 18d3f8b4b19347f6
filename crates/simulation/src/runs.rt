//! A run of the simulator, from the bytes of its input.

ghost use Rattle.std.specs.Prelude.{◌≡◌, ◌≤◌, ◌^◌, length, IfOk, IfErr};
ghost use Rattle.simulation.specs.Runs.{IsRun, IsLegal, Keeps, IsRefused, IsRunOfInput, IsJudgedOfInput, HoldsOfRead};
ghost use Rattle.simulation.specs.Outcomes.{HoldsUnder, HoldsUnderRead};
ghost use Rattle.run_tables.specs.TableLaws.Outcomes.{OwnsDataBus, IsRefreshed, HasBoundedQueues, HoldsFewCredits, KeepsCreditsUntil};
ghost use Rattle.simulation.specs.MachineRuns.{IsRefusedTo};

use crate::gate::Gate;
use crate::input::{InputTexts, read_input};
use crate::machine::run_machine;
use crate::options::{Hooks, MachineInput, RunOptions};
use crate::watch::Watch;
use sim_base::fault::Fault;
use statistics::outcome::Outcome;
use std::alloc::Global;
use std::sync::Wait;
use std::thread::Threads;

/// Runs the machine of an input that was read, for at most `options.cycles` cycles, as `simulate` says. Whatever texts
/// the input was read from, the outcome is that of their run, so that a caller need not hold the texts while the
/// machine runs.
pub fn run_input<R: Threads + Wait + Sync, G: Gate + Sync, W: Watch>(
    rt: &R,
    alloc: Global,
    hooks: Hooks<'_, G, W>,
    machine: MachineInput<'_>,
    options: RunOptions,
) -> Result<Outcome, Fault>
    requires one_trace_a_core { length machine.traces.items ≡ machine.config.now.cores }
    requires some { 1 ≤ options.workers.count }
    requires few { options.workers.count ≤ 64 }
    requires limit { options.cycles ≤ 10 ^ 12 }
    ensures run { IfOk result (IsRunOfInput machine.entry options) }
    ensures legal { IfOk result (IsJudgedOfInput machine.entry options) }
    ensures data_bus { IfOk result (HoldsOfRead machine.entry options OwnsDataBus) }
    ensures refreshed { IfOk result (HoldsOfRead machine.entry options IsRefreshed) }
    ensures bounded { IfOk result (HoldsUnderRead machine.entry options HasBoundedQueues) }
    ensures held { IfOk result (HoldsUnderRead machine.entry options HoldsFewCredits) }
    ensures credits { IfOk result (HoldsOfRead machine.entry options KeepsCreditsUntil) }
    ensures refused { IfErr result (IsRefusedTo options.workers.count) }
{
    run_machine(rt, alloc, hooks, machine, options)
}

/// Runs the machine that a configuration and one trace per core describe, for at most `options.cycles` cycles, and
/// returns its commands and the times of its requests, if their tables are asked for, its statistics and the state in
/// which it ends. At most as many workers run it as are named, 1 to 64, each in a thread of its own, and
/// `options.workers.sharing` says when they share it out; one worker is the thread of the caller, which runs it in
/// place. A worker passes the gate at the beginning and at the end of each job of a phase. The watcher is told how far
/// the run is, and when it has ended. The result does not depend on the workers, when they share, the gate or the
/// watcher.
///
/// The input is tested in this order: the configuration, the number of traces, the number of workers (1 to 64), the
/// limit (at most 10^12 cycles), and the traces by core. The first fault is returned. `Fault::Memory` may come at any
/// time; the run itself is refused only with this or, with two or more workers, with `Fault::WorkerStart`. The table of
/// its commands is legal, as `check` reads it under the same configuration, whether the table is asked for or not.
///
/// In the run no cycle of a channel's data bus belongs to two commands. Where ranks are refreshed, the m-th REF of each
/// stands at cycle `m * nREFI` plus the slack or earlier, if the run lasts that long. No queue was ever longer than the
/// cores have credits for. No core is left with more credits than it began with, and at no cycle of the run had a core
/// spent more credits than it began with and got back.
pub fn simulate<R: Threads + Wait + Sync, G: Gate + Sync, W: Watch>(
    rt: &R,
    alloc: Global,
    hooks: Hooks<'_, G, W>,
    input: InputTexts<'_>,
    options: RunOptions,
) -> Result<Outcome, Fault>
    ensures run { IfOk result (IsRun input.entry options) }
    ensures legal { IfOk result (IsLegal input.entry options) }
    ensures data_bus { IfOk result (Keeps input.entry options OwnsDataBus) }
    ensures refreshed { IfOk result (Keeps input.entry options IsRefreshed) }
    ensures bounded { IfOk result (HoldsUnder input.entry.config.now HasBoundedQueues) }
    ensures held { IfOk result (HoldsUnder input.entry.config.now HoldsFewCredits) }
    ensures credits { IfOk result (Keeps input.entry options KeepsCreditsUntil) }
    ensures refused { IfErr result (IsRefused input.entry options) }
{
    let RunOptions {
        cycles,
        workers,
        ..
    } = options;
    let (config, traces) = match read_input(rt, alloc, input, cycles, workers.count) {
        Ok(input) => input,
        Err(fault) => return Err(fault),
    };
    let machine = MachineInput {
        config: &config,
        traces,
    };
    run_input(rt, alloc, hooks, machine, options)
}
