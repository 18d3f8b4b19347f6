//! What is done with what is claimed.

ghost use Rattle.std.specs.Prelude.{◌≡◌, [], ◌∷◌, ◌++◌, map, IfOk, OnOk};

use std::alloc::{AllocError, Global};

/// What comes of a task.
pub trait DoneOf<T> {
    /// The task that it came of.
    ghost task: { Self → T };
}

/// How tasks are run. Several threads use one value of it. They are numbered, and the caller is number 0.
pub trait Work<T, D: DoneOf<T>> {
    /// Runs a task. The only error is out of memory.
    fn run(&self, alloc: Global, worker: usize, task: T) -> Result<D, AllocError>
        ensures { IfOk result (λ done. D.task done ≡ task) };
}

/// Runs a task, and adds what comes of it to the results. The only error is out of memory.
pub(crate) fn run_one<T, D: DoneOf<T> + Drop, W: Work<T, D>>(
    alloc: Global,
    work: &W,
    worker: usize,
    task: T,
    results: &mut Vec<D>,
) -> Result<(), AllocError>
    ensures { OnOk result (map D.task results.new.items
        ≡ map D.task results.old.items ++ task ∷ []) }
{
    results.push(work.run(alloc, worker, task)?)?;
    Ok(())
}
