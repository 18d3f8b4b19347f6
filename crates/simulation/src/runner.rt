//! Who runs the jobs of a phase.

ghost use Rattle.std.specs.Prelude.{◌≡◌, IsPermutation, IfOk, IfErr};

use crate::gate::{Gate, run_all};
use crew::caller::TaskRunner;
use shards::job::{Done, Job};
use sim_base::fault::Fault;
use std::alloc::Global;

/// Who runs the jobs of a phase.
pub trait Runner {
    ghost use Rattle.std.specs.Prelude.{◌≡◌, IsPermutation, IfOk, IfErr};

    /// Runs the jobs of a phase: exactly one result comes of each, with its name, in any order, and nothing else.
    /// Only memory can be refused (fault 10).
    fn run_phase(&mut self, jobs: Vec<Job>) -> Result<Vec<Done>, Fault>
        ensures each { IfOk result (λ results. IsPermutation jobs.items results.items) }
        ensures refused { IfErr result (λ fault. fault ≡ Fault.Memory) };
}

/// Runs jobs one after the other, in the thread of the caller, which is worker 0.
#[derive(Drop)]
pub struct Serial<'a, G: Gate> {
    alloc: Global,
    gate: &'a G,
}

impl<'a, G: Gate> Serial<'a, G> {
    /// A runner with this gate.
    pub fn new(alloc: Global, gate: &'a G) -> Serial<'a, G>
        ensures { result.gate.now ≡ gate.now }
    {
        Serial { alloc, gate }
    }
}

impl<'a, G: Gate> Runner for Serial<'a, G> {
    fn run_phase(&mut self, jobs: Vec<Job>) -> Result<Vec<Done>, Fault> {
        let results = run_all(self.gate, self.alloc, 0, jobs)?;
        Ok(results)
    }
}

/// Has a crew run the jobs, which its threads take starting from the last: the shards of channels, which have most to
/// do, come last in a machine.
#[derive(Drop)]
pub struct ByCrew<'a, P: TaskRunner<Job, Done>> {
    pub crew: &'a mut P,
}

impl<'a, P: TaskRunner<Job, Done>> Runner for ByCrew<'a, P> {
    fn run_phase(&mut self, jobs: Vec<Job>) -> Result<Vec<Done>, Fault> {
        let mut jobs = jobs;
        jobs.reverse();
        let results = self.crew.run_tasks(jobs)?;
        Ok(results)
    }
}
