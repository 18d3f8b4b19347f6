//! What stands at the beginning and at the end of each job of a phase.

ghost use Rattle.std.specs.Prelude.{◌≡◌, IfOk};

use crew::work::Work;
use shards::job::{Done, Job, JobName};
use std::alloc::{AllocError, Global};

/// What a worker passes before it runs a job of a phase, and after it. Several threads use one gate. Workers are
/// numbered from 0 in each phase.
pub trait Gate {
    /// The worker is about to run the job.
    fn enter(&self, worker: usize, job: JobName);

    /// The worker has run the job.
    fn leave(&self, worker: usize, job: JobName);
}

/// The gate that does nothing.
#[derive(Clone, Copy)]
pub struct OpenGate;

impl Gate for OpenGate {
    fn enter(&self, _worker: usize, _job: JobName) {}

    fn leave(&self, _worker: usize, _job: JobName) {}
}

/// How jobs of phases are run: each passes the gate.
#[derive(Drop)]
pub struct AtGate<'a, G: Gate> {
    pub gate: &'a G,
}

impl<'a, G: Gate> Work<Job, Done> for AtGate<'a, G> {
    fn run(&self, _alloc: Global, worker: usize, job: Job) -> Result<Done, AllocError> {
        run_at(self.gate, worker, job)
    }
}

/// Runs a job of a phase between its enter and its leave. The only error is out of memory; the job then does not
/// leave the gate.
pub(crate) fn run_at<G: Gate>(gate: &G, worker: usize, job: Job) -> Result<Done, AllocError>
    ensures { IfOk result (λ done. done ≡ job) }
{
    let name = job.name();
    gate.enter(worker, name);
    let done = job.run()?;
    gate.leave(worker, name);
    Ok(done)
}

/// Runs jobs of a phase one after the other. The only error is out of memory.
pub(crate) fn run_all<G: Gate>(
    gate: &G,
    alloc: Global,
    worker: usize,
    jobs: Vec<Job>,
) -> Result<Vec<Done>, AllocError>
    ensures { IfOk result (λ results. results.items ≡ jobs.items) }
{
    let mut results = Vec::with_capacity(alloc, jobs.len())?;
    for job in jobs {
        results.push(run_at(gate, worker, job)?)?;
    }
    Ok(results)
}
