//! The caller's end of a board, with threads at the other.

ghost use Rattle.std.specs.Prelude.{◌≡◌, ◌≤◌, [], length, map, IfOk, OnOk, IsPermutation, vec_len, true};
ghost use Rattle.crew.specs.Rule.{put_view};

use crate::returned::Returned;
use crate::rule::BoardName;
use crate::seats::{Board, PutSeat, TakeSeat};
use crate::shared::Shared;
use crate::work::{DoneOf, Work, run_one};
use std::alloc::{AllocError, Global};
use std::sync::Wait;
use std::sync::atomic::Ordering;

/// Who runs the tasks of a phase.
pub trait TaskRunner<T, D: DoneOf<T>> {
    ghost use Rattle.std.specs.Prelude.{map, IfOk, IsPermutation};

    /// Runs the tasks of a phase: exactly one result comes of each, in any order. The only error is out of memory.
    fn run_tasks(&mut self, tasks: Vec<T>) -> Result<Vec<D>, AllocError>
        ensures { IfOk result (λ results. IsPermutation tasks.items (map D.task results.items)) };
}

/// The caller's seats at a board where threads wait. The crew is ready until memory is refused for the first time.
#[derive(Drop)]
pub struct Crew<'a, T: Drop, D: DoneOf<T> + Drop, W: Work<T, D>, B: BoardName, R: Wait> {
    shared: &'a Shared<'a, T, D, W, B, R>,
    put: PutSeat<T, B>,
    take: TakeSeat<T, B>,
    ready: bool,
    ghost idle: { ready ≡ true → (put ≡ put_view [] []) × (take ≡ []) },
}

impl<'a, T: Drop, D: DoneOf<T> + Drop, W: Work<T, D>, B: BoardName, R: Wait> Crew<
    'a,
    T,
    D,
    W,
    B,
    R,
> {
    /// A crew that shares this, by the seat that puts there.
    pub(crate) fn new(
        shared: &'a Shared<'a, T, D, W, B, R>,
        seat: PutSeat<T, B>,
    ) -> Crew<'a, T, D, W, B, R>
        requires { seat ≡ put_view [] [] }
    {
        let mut put = seat;
        let take = shared.board.new_take_seat(&mut put);
        Crew {
            shared,
            put,
            take,
            ready: true,
        }
    }
}

impl<'a, T: Drop, D: DoneOf<T> + Drop, W: Work<T, D>, B: BoardName, R: Wait> TaskRunner<T, D>
    for Crew<'a, T, D, W, B, R> {
    fn run_tasks(&mut self, tasks: Vec<T>) -> Result<Vec<D>, AllocError>
        ensures { IfOk result (λ results. IsPermutation tasks.items (map D.task results.items)) }
    {
        if !self.ready {
            return Err(AllocError);
        }
        let shared = self.shared;
        if tasks.len() <= 1 || tasks.len() > shared.board.room() {
            return run_all(shared.context.alloc, shared.context.work, tasks);
        }
        self.ready = false;
        let results = run_phase(shared, &mut self.put, &mut self.take, tasks)?;
        self.ready = true;
        Ok(results)
    }
}

/// Runs tasks one after the other, in the caller's thread.
fn run_all<T: Drop, D: DoneOf<T> + Drop, W: Work<T, D>>(
    alloc: Global,
    work: &W,
    tasks: Vec<T>,
) -> Result<Vec<D>, AllocError>
    ensures { IfOk result (λ results. map D.task results.items ≡ tasks.items) }
{
    let mut results = Vec::new(alloc);
    for task in tasks {
        run_one(alloc, work, 0, task, &mut results)?;
    }
    Ok(results)
}

/// Puts all tasks on the board.
fn put_all<T: Drop, B: BoardName, R: Wait>(
    rt: &R,
    board: &Board<T, B>,
    seat: &mut PutSeat<T, B>,
    tasks: Vec<T>,
)
    requires room { vec_len tasks ≤ board.now }
    requires seat { seat.old ≡ put_view [] [] }
    ensures { seat.new ≡ put_view tasks.items [] }
{
    for task in tasks {
        let Ok(()) = board.put(rt, seat, task) else {
            unreachable!()
        };
    }
}

/// Adds what was returned to the results.
fn add_returned<T: Drop, D: DoneOf<T> + Drop, B: BoardName>(
    board: &Board<T, B>,
    seat: &mut PutSeat<T, B>,
    results: &mut Vec<D>,
    returned: Returned<T, D, B>,
) -> Result<(), AllocError>
    requires { seat.old.returned ≡ map D.task results.old.items }
    ensures { OnOk result (seat.new ≡ put_view seat.old.put (map D.task results.new.items)) }
{
    let Returned {
        seat: theirs,
        results: mut more,
    } = returned;
    board.absorb(seat, theirs);
    results.append(&mut more)
}

/// Adds what a thread returned to the results, or waits until one returns something.
fn receive<T: Drop, D: DoneOf<T> + Drop, W: Work<T, D>, B: BoardName, R: Wait>(
    shared: &Shared<'_, T, D, W, B, R>,
    seat: &mut PutSeat<T, B>,
    results: &mut Vec<D>,
) -> Result<(), AllocError>
    requires { seat.old.returned ≡ map D.task results.old.items }
    ensures { OnOk result (seat.new ≡ put_view seat.old.put (map D.task results.new.items)) }
{
    let rt = shared.context.rt;
    let seen = shared.results_ready.count();
    if let Some(returned) = shared.returned.pop(rt) {
        return add_returned(&shared.board, seat, results, returned?);
    }
    shared.results_ready.wait_past(rt, shared.limits, seen);
    Ok(())
}

/// Adds what threads return to the results, until all that was put was returned.
fn gather<T: Drop, D: DoneOf<T> + Drop, W: Work<T, D>, B: BoardName, R: Wait>(
    shared: &Shared<'_, T, D, W, B, R>,
    seat: &mut PutSeat<T, B>,
    results: &mut Vec<D>,
    put: usize,
) -> Result<(), AllocError>
    requires put { put ≡ length seat.old.put }
    requires returned { seat.old.returned ≡ map D.task results.old.items }
    ensures seat { OnOk result (seat.new ≡ put_view seat.old.put (map D.task results.new.items)) }
    ensures whole { OnOk result (IsPermutation seat.old.put (map D.task results.new.items)) }
{
    for _ in shared.context.rt.forever() {
        if shared.board.missing(seat, put, results.len()) == 0 {
            return Ok(());
        }
        receive(shared, seat, results)?;
    }
    unreachable!()
}

/// What comes of tasks that the threads and the caller claim from the board.
fn run_phase<T: Drop, D: DoneOf<T> + Drop, W: Work<T, D>, B: BoardName, R: Wait>(
    shared: &Shared<'_, T, D, W, B, R>,
    put: &mut PutSeat<T, B>,
    take: &mut TakeSeat<T, B>,
    tasks: Vec<T>,
) -> Result<Vec<D>, AllocError>
    requires room { vec_len tasks ≤ shared.now.board }
    requires put { put.old ≡ put_view [] [] }
    requires take { take.old ≡ [] }
    ensures next { OnOk result ((put.new ≡ put_view [] []) × (take.new ≡ [])) }
    ensures each { IfOk result (λ results. IsPermutation tasks.items (map D.task results.items)) }
{
    let count = tasks.len();
    shared.next_worker.store(0, Ordering::SeqCst);
    put_all(shared.context.rt, &shared.board, put, tasks);
    shared.tasks_ready.raise();
    let Returned {
        seat: mine,
        mut results,
    } = shared.claim(0, take)?;
    shared.board.absorb(put, mine);
    gather(shared, put, &mut results, count)?;
    shared.board.clear(put);
    Ok(results)
}
