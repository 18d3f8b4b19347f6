//! Where tasks wait for threads, and what came of them for the caller; and what a thread does there.

ghost use Rattle.std.specs.Prelude.{◌≡◌, ◌<◌, [], ◌∷◌, ◌++◌, map, IsTrue, IfSome, IfNone, OnOk};

use crate::returned::Returned;
use crate::rule::BoardName;
use crate::seats::{Board, TakeSeat};
use crate::signal::{Signal, WaitLimits};
use crate::work::{DoneOf, Work, run_one};
use crossbeam_queue::ArrayQueue;
use std::alloc::{AllocError, Global};
use std::sync::Wait;
use std::sync::atomic::{AtomicBool, AtomicUsize, Ordering};
use std::{hint, thread};

/// What a worker runs tasks with.
#[derive(Drop)]
pub(crate) struct TaskContext<'a, W, R> {
    pub(crate) rt: &'a R,
    pub(crate) alloc: Global,
    pub(crate) work: &'a W,
}

/// What a thread returns to the caller: what it did, or that it met refused memory.
pub(crate) type ThreadResult<T, D, B> = Result<Returned<T, D, B>, AllocError>;

/// What the threads of a crew share: what they run tasks with, the board, the queue of what they return, and a signal
/// for both.
#[derive(Drop)]
pub(crate) struct Shared<'a, T: Drop, D: DoneOf<T> + Drop, W: Work<T, D>, B: BoardName, R: Wait> {
    pub(crate) context: TaskContext<'a, W, R>,
    pub(crate) board: Board<T, B>,
    pub(crate) returned: ArrayQueue<ThreadResult<T, D, B>>,
    /// Raised when tasks were put, and when the run is over.
    pub(crate) tasks_ready: Signal,
    /// Raised when something was returned.
    pub(crate) results_ready: Signal,
    pub(crate) over: AtomicBool,
    /// The number of the worker that is next to take its first task of this phase.
    pub(crate) next_worker: AtomicUsize,
    pub(crate) limits: WaitLimits,
}

impl<'a, T: Drop, D: DoneOf<T> + Drop, W: Work<T, D>, B: BoardName, R: Wait> Shared<
    'a,
    T,
    D,
    W,
    B,
    R,
> {
    /// What threads share that return what came of tasks to this queue.
    pub(crate) fn new(
        context: TaskContext<'a, W, R>,
        board: Board<T, B>,
        returned: ArrayQueue<ThreadResult<T, D, B>>,
        limits: WaitLimits,
    ) -> Shared<'a, T, D, W, B, R>
        ensures { result.board ≡ board }
    {
        Shared {
            context,
            board,
            returned,
            tasks_ready: Signal::new(),
            results_ready: Signal::new(),
            over: AtomicBool::new(false),
            next_worker: AtomicUsize::new(0),
            limits,
        }
    }

    /// Waits until the workers with lower numbers have taken, but not for long.
    fn wait_in_order(&self, worker: usize) {
        for _ in 0..self.limits.order_spins {
            if self.next_worker.load(Ordering::SeqCst) >= worker {
                return;
            }
            hint::spin_loop();
        }
    }

    /// Takes the task in front; the first one of a phase only after the workers with lower numbers.
    fn next_task(&self, worker: usize, seat: &mut TakeSeat<T, B>, is_first: bool) -> Option<T>
        ensures taken { IfSome result (λ t. seat.new ≡ seat.old ++ t ∷ []) }
        ensures same { IfNone result (seat.new ≡ seat.old) }
    {
        if !is_first {
            return self.board.take(self.context.rt, seat);
        }
        self.wait_in_order(worker);
        let task = self.board.take(self.context.rt, seat);
        self.next_worker
            .fetch_max(worker.saturating_add(1), Ordering::SeqCst);
        task
    }

    /// Takes the task in front and runs it, where there is one. The only error is out of memory.
    fn run_next(
        &self,
        worker: usize,
        seat: &mut TakeSeat<T, B>,
        results: &mut Vec<D>,
    ) -> Result<bool, AllocError>
        requires { seat.old ≡ map D.task results.old.items }
        ensures { OnOk result (seat.new ≡ map D.task results.new.items) }
    {
        let Some(task) = self.next_task(worker, seat, results.is_empty()) else {
            return Ok(false);
        };
        run_one(self.context.alloc, self.context.work, worker, task, results)?;
        Ok(true)
    }

    /// Takes tasks and runs them until the board is empty at one moment.
    fn run_tasks(
        &self,
        worker: usize,
        seat: &mut TakeSeat<T, B>,
        results: &mut Vec<D>,
    ) -> Result<(), AllocError>
        requires { seat.old ≡ map D.task results.old.items }
        ensures { OnOk result (seat.new ≡ map D.task results.new.items) }
    {
        for _ in self.context.rt.forever() {
            if !self.run_next(worker, seat, results)? {
                break;
            }
        }
        Ok(())
    }

    /// Takes tasks and runs them until the board is empty at one moment. The only error is out of memory.
    pub(crate) fn claim(
        &self,
        worker: usize,
        seat: &mut TakeSeat<T, B>,
    ) -> Result<Returned<T, D, B>, AllocError>
        requires { seat.old ≡ [] }
        ensures { OnOk result (seat.new ≡ []) }
    {
        let mut results = Vec::new(self.context.alloc);
        self.run_tasks(worker, seat, &mut results)?;
        let theirs = self.board.split_taken(seat);
        Ok(Returned {
            seat: theirs,
            results,
        })
    }

    /// Returns to the caller what came of tasks. There is room for each, so it goes at once.
    fn send(&self, returned: ThreadResult<T, D, B>) {
        let rt = self.context.rt;
        let mut returned = returned;
        for _ in rt.forever() {
            match self.returned.push(rt, returned) {
                Ok(()) => break,
                Err(back) => returned = back,
            }
            thread::yield_now();
        }
        self.results_ready.raise();
    }

    /// Runs tasks and returns what came of them, or that memory was refused. Gives whether the thread goes on.
    fn serve_once(&self, worker: usize, seat: &mut TakeSeat<T, B>) -> bool
        requires { seat.old ≡ [] }
        ensures { IsTrue result → seat.new ≡ [] }
    {
        match self.claim(worker, seat) {
            Ok(returned) => {
                if !returned.results.is_empty() {
                    self.send(Ok(returned));
                }
                true
            }
            Err(AllocError) => {
                self.send(Err(AllocError));
                false
            }
        }
    }

    /// What a thread does until it is told that the run is over: it runs tasks, returns what came of them, and waits
    /// for more. Where memory is refused, it says so and ends.
    pub(crate) fn serve(&self, worker: usize, seat: TakeSeat<T, B>)
        requires { seat ≡ [] }
    {
        let mut seat = seat;
        for _ in self.context.rt.forever() {
            let seen = self.tasks_ready.count();
            if !self.serve_once(worker, &mut seat) || self.over.load(Ordering::SeqCst) {
                break;
            }
            self.tasks_ready
                .wait_past(self.context.rt, self.limits, seen);
        }
    }

    /// Tells the threads that there will be no more tasks.
    pub(crate) fn close(&self) {
        self.over.store(true, Ordering::SeqCst);
        self.tasks_ready.raise();
    }
}
