//! The input and the outcome of a run, with a refusal that is explained.

ghost use Rattle.std.specs.Prelude.{◌≡◌, ◌≤◌, ◌^◌, length, vec_len, IsOk, IfOk, IfErr, OnOk};
ghost use Rattle.program.specs.Runs.{HasWorkers, IsInputIn, IsInputRefusal, EndsInput, EndsLegally};
ghost use Rattle.simulation.specs.MachineRuns.{IsRefusedTo};

use crate::asked::RunAsk;
use crate::host::Host;
use config_reader::read_config;
use cpu_trace::trace::Trace;
use explain::{RunNumbers, of_config, of_host, of_numbers, of_traces};
use refusal::reason::Reason;
use sim_base::config::Config;
use sim_base::fault::Fault;
use simulation::gate::OpenGate;
use simulation::input::{InputTexts, read_input};
use simulation::options::{Hooks, MachineInput, RunOptions};
use simulation::runs::run_input;
use simulation::watch::Watch;
use statistics::outcome::Outcome;
use std::alloc::{AllocError, Global};
use std::sync::Wait;
use std::thread::Threads;

/// A run, and what its files hold: that of its configuration, and those of its traces.
#[derive(Clone, Copy)]
pub(crate) struct Input<'a> {
    pub(crate) asked: &'a RunAsk<'a>,
    pub(crate) document: &'a [u8],
    pub(crate) texts: &'a [&'a [u8]],
}

// How many cores the configuration has, if it is one.
fn cores_in(alloc: Global, document: &[u8]) -> Option<u16> {
    match read_config(alloc, document) {
        Ok(config) => u16::try_from(config.cores).ok(),
        Err(_) => None,
    }
}

// What explains why a run is refused.
fn explain_run(alloc: Global, fault: Fault, input: &Input<'_>) -> Result<String, AllocError> {
    let asked = input.asked;
    match fault {
        Fault::TraceLine { .. } | Fault::TraceTooLong { .. } => {
            of_traces(alloc, fault, asked.traces, input.texts)
        }
        Fault::TraceCount | Fault::Workers | Fault::Cycles => {
            let cores = cores_in(alloc, input.document);
            let numbers = RunNumbers {
                traces: asked.traces.len(),
                cycles: asked.cycles,
                workers: asked.workers.count,
            };
            of_numbers(alloc, fault, cores, numbers)
        }
        Fault::Memory | Fault::WorkerStart => of_host(alloc, fault),
        _ => of_config(alloc, fault, asked.config, input.document),
    }
}

/// The configuration and the traces of a run, read and tested. Where its folder is refused, the run is refused once its
/// input has passed all tests.
pub(crate) fn tested_input<R: Threads + Sync>(
    threads: &R,
    alloc: Global,
    folder: Result<(), Reason>,
    input: &Input<'_>,
) -> Result<(Config, Vec<Trace>), Reason>
    requires folder { IfErr folder (λ e. e ≡ Fault.Write) }
    ensures read { IfOk result (IsInputIn input.now) }
    ensures count { IfOk result (λ r. vec_len r.1 ≡ r.0.cores) }
    ensures workers { OnOk result (HasWorkers input.now.asked.now) }
    ensures cycles { OnOk result (input.now.asked.now.cycles ≤ 10 ^ 12) }
    ensures folder { OnOk result (IsOk folder) }
    ensures refused { IfErr result (IsInputRefusal input.now) }
{
    let Input {
        asked,
        document,
        texts,
    } = *input;
    let (cycles, workers) = (asked.cycles, asked.workers.count);
    let texts = InputTexts {
        config: document,
        traces: texts,
    };
    match read_input(threads, alloc, texts, cycles, workers) {
        Ok(read) => {
            folder?;
            Ok(read)
        }
        Err(fault) => Err(Reason::explained(fault, explain_run(alloc, fault, input))),
    }
}

/// The outcome of a run whose input was read.
pub(crate) fn outcome_of<R: Threads + Wait + Sync, W: Watch>(
    host: &mut Host<'_, R, W>,
    alloc: Global,
    machine: &Config,
    traces: Vec<Trace>,
    asked: &RunAsk<'_>,
) -> Result<Outcome, Reason>
    requires one_trace_a_core { length traces.items ≡ machine.now.cores }
    requires workers { HasWorkers asked.now }
    requires limit { asked.now.cycles ≤ 10 ^ 12 }
    ensures run { IfOk result (EndsInput asked.now machine.now traces.items) }
    ensures legal { IfOk result (EndsLegally asked.now machine.now traces.items) }
    ensures refused { IfErr result (IsRefusedTo asked.now.workers.count) }
{
    let hooks = Hooks {
        gate: &OpenGate,
        watch: &mut *host.watch,
    };
    let machine = MachineInput {
        config: machine,
        traces,
    };
    let cycles = asked.cycles;
    let options = RunOptions {
        cycles,
        workers: asked.workers,
        tables: asked.tables,
    };
    match run_input(host.threads, alloc, hooks, machine, options) {
        Ok(run) => Ok(run),
        Err(fault) => Err(Reason::explained(fault, of_host(alloc, fault))),
    }
}
