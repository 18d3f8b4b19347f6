//! A run with a crew: its threads are started once, and have ended when the run returns.

ghost use Rattle.std.specs.Prelude.{◌≡◌, ◌<◌, ◌≤◌, [], IfOk, IfErr};
ghost use Rattle.crew.specs.Rule.{put_view};

use crate::caller::{Crew, TaskRunner};
use crate::open::Blank;
use crate::rule::BoardName;
use crate::seats::PutSeat;
use crate::shared::{Shared, TaskContext};
use crate::signal::WaitLimits;
use crate::work::{DoneOf, Work};
use crossbeam_queue::ArrayQueue;
use std::alloc::{AllocError, Global};
use std::marker::Brand;
use std::sync::Wait;
use std::thread;
use std::thread::{Scope, Threads};

/// Why a run did not come to its end.
#[derive(Drop, Debug, Clone, Copy, PartialEq, Eq)]
pub enum CrewFault {
    /// Memory was refused.
    Memory,
    /// A thread did not start.
    Start,
}

/// How a crew is set up.
#[derive(Clone, Copy)]
pub struct CrewOptions {
    /// How many tasks of a phase the board has room for, at least 1. The caller alone runs a phase of more.
    pub room: usize,
    /// How many workers there are, the caller among them.
    pub workers: usize,
    /// How long they look before they sleep.
    pub limits: WaitLimits,
}

/// Phases, one after another, by whoever runs their tasks.
pub trait PhasedRun<T, D: DoneOf<T>, E> {
    /// What it gives.
    ghost gives: { Self → E → Type 0 };

    /// Runs the phases. The only error is out of memory.
    fn run<P: TaskRunner<T, D>>(self, alloc: Global, crew: &mut P) -> Result<E, AllocError>
        ensures { IfOk result (gives self) };
}

/// Starts the threads of this number of workers, which are numbered from 1 on.
fn start<
    's,
    'e: 's,
    T: Drop + Send,
    D: DoneOf<T> + Drop + Send,
    W: Work<T, D> + Sync,
    B: BoardName + Send + Sync,
    R: Threads + Wait + Sync,
>(
    scope: &'s Scope<'s, &'e ()>,
    shared: &'e Shared<'e, T, D, W, B, R>,
    seat: &mut PutSeat<T, B>,
    workers: usize,
) -> Result<(), CrewFault>
    ensures seat { seat.new ≡ seat.old }
    ensures refused { IfErr result (λ e. e ≡ CrewFault.Start → 2 ≤ workers) }
{
    for worker in 1..workers {
        let theirs = shared.board.new_take_seat(seat);
        let serve = move ||
            requires { theirs ≡ [] }
        { shared.serve(worker, theirs) };
        if scope.spawn(serve).is_err() {
            return Err(CrewFault::Start);
        }
    }
    Ok(())
}

/// Starts the threads, and runs the phases with them.
fn run_started<
    's,
    'e: 's,
    T: Drop + Send,
    D: DoneOf<T> + Drop + Send,
    W: Work<T, D> + Sync,
    B: BoardName + Send + Sync,
    R: Threads + Wait + Sync,
    E,
    C: PhasedRun<T, D, E> + Drop,
>(
    scope: &'s Scope<'s, &'e ()>,
    shared: &'e Shared<'e, T, D, W, B, R>,
    seat: PutSeat<T, B>,
    workers: usize,
    phased: C,
) -> Result<E, CrewFault>
    requires { seat ≡ put_view [] [] }
    ensures end { IfOk result (C.gives phased) }
    ensures refused { IfErr result (λ e. e ≡ CrewFault.Start → 2 ≤ workers) }
{
    let mut seat = seat;
    start(scope, shared, &mut seat, workers)?;
    let mut crew = Crew::new(shared, seat);
    match phased.run(shared.context.alloc, &mut crew) {
        Ok(end) => Ok(end),
        Err(AllocError) => Err(CrewFault::Memory),
    }
}

/// Starts the threads in a scope of their own, runs the phases, and tells the threads that the run is over, however it
/// ended.
fn run_in_scope<
    'a,
    T: Drop + Send,
    D: DoneOf<T> + Drop + Send,
    W: Work<T, D> + Sync,
    B: BoardName + Send + Sync,
    R: Threads + Wait + Sync,
    E,
    C: PhasedRun<T, D, E> + Drop,
>(
    shared: &'a Shared<'a, T, D, W, B, R>,
    seat: PutSeat<T, B>,
    workers: usize,
    phased: C,
) -> Result<E, CrewFault>
    requires { seat ≡ put_view [] [] }
    ensures end { IfOk result (C.gives phased) }
    ensures refused { IfErr result (λ e. e ≡ CrewFault.Start → 2 ≤ workers) }
{
    thread::scope(
        thread::scope_env(),
        shared.context.rt,
        move |scope| -> Result<E, CrewFault>
            requires { seat ≡ put_view [] [] }
            ensures end { IfOk result (C.gives phased) }
            ensures refused { IfErr result (λ e. e ≡ CrewFault.Start → 2 ≤ workers) }
        {
            let end = run_started(scope, shared, seat, workers, phased);
            shared.close();
            end
        },
    )
}

/// Runs phases by workers who share a board, which gets its name here.
fn run_named<
    T: Drop + Send,
    D: DoneOf<T> + Drop + Send,
    W: Work<T, D> + Sync,
    B: BoardName + Send + Sync,
    R: Threads + Wait + Sync,
    E,
    C: PhasedRun<T, D, E> + Drop,
>(
    context: TaskContext<'_, W, R>,
    blank: Blank<T>,
    options: CrewOptions,
    phased: C,
) -> Result<E, CrewFault>
    requires { blank.name ≡ B.table }
    ensures end { IfOk result (C.gives phased) }
    ensures refused { IfErr result (λ e. e ≡ CrewFault.Start → 2 ≤ options.workers) }
{
    let CrewOptions {
        room,
        workers,
        limits,
    } = options;
    // the board has room for so many tasks: each may have a result, and each worker may return none
    let room_for_results = room.saturating_add(workers).saturating_add(1);
    let Ok(returned) = ArrayQueue::new(context.alloc, room_for_results) else {
        return Err(CrewFault::Memory);
    };
    let (board, seat) = blank.named::<B>();
    let shared = Shared::<T, D, W, B, R>::new(context, board, returned, limits);
    run_in_scope(&shared, seat, workers, phased)
}

/// Runs what goes phase by phase with a crew: the caller, and threads that are started once. All have ended when this
/// returns, even where it is refused.
pub fn with_crew<
    T: Drop + Send,
    D: DoneOf<T> + Drop + Send,
    W: Work<T, D> + Sync,
    R: Threads + Wait + Sync,
    E,
    C: PhasedRun<T, D, E> + Drop,
>(rt: &R, alloc: Global, work: &W, options: CrewOptions, phased: C) -> Result<E, CrewFault>
    requires { 0 < options.room }
    ensures end { IfOk result (C.gives phased) }
    ensures refused { IfErr result (λ e. e ≡ CrewFault.Start → 2 ≤ options.workers) }
{
    let Ok(blank) = Blank::open(alloc, options.room) else {
        return Err(CrewFault::Memory);
    };
    let context = TaskContext { rt, alloc, work };
    run_named::<T, D, W, Brand, R, E, C>(context, blank, options, phased)
}
