//! Phases of a small machine and of toy tasks, run by one thread and by several; and the board from which threads take
//! them.

ghost use Rattle.std.specs.Prelude.{◌≡◌, ◌+◌, ◌<◌, ◌≤◌, [], length, vec_len};
ghost use Rattle.crew.specs.Rule.{put_view};

use crate::expect::expect_at;
use crate::gates::jobs_of;
use crate::outcomes::{DRAINED, Texts, always, assert_same, auto, did, plain_outcome};
use crew::caller::TaskRunner;
use crew::open::Blank;
use crew::rule::BoardName;
use crew::run::{CrewFault, CrewOptions, PhasedRun, with_crew};
use crew::seats::{Board, PutSeat, TakeSeat};
use crew::signal::WaitLimits;
use crew::work::{DoneOf, Work};
use fixtures::small::RANK_FIELD;
use simulation::sharing::{Sharing, Workers};
use std::alloc::{AllocError, Global};
use std::marker::Brand;
use std::process::Abort;
use std::sync::Wait;

/// Four cores and two channels.
static FOUR_CORES: [&str; 3] = [RANK_FIELD, "cores = 4", "channels = 2"];

/// The texts of four cores that read one line each, on two channels. The end of the run is a line of its own.
fn four_reads(rt: &impl Abort, alloc: Global, end: &str) -> Texts {
    Texts::of(rt, alloc, &FOUR_CORES, end, &["0 0\n"; 4])
}

/// Four cores read one line each, up to a distant cycle. The requests come in cycle 2, where the row is opened. It is
/// read in the cycles 5, 10, 15 and 20, as the lines lie in one group. The credits come two cycles later, and the
/// replies in 15, 20, 25 and 30. Where nothing happens, there is no phase: a phase begins in the cycles 0, 2, 5, 7, 10,
/// 12, 15, 17, 20, 22, 25 and 30. Where a run goes by laps of 4,096 cycles, 8,192 and so on, each begins with a phase:
/// three more up to cycle 60,000, in 4,096, 12,288 and 28,672.
#[test]
fn a_machine_works_where_something_happens(rt: HostRuntime) {
    let in_laps = Sharing {
        first_lap: 4_096,
        ..Sharing::always()
    };
    let texts = four_reads(&rt, rt.alloc(), "");
    // Each phase has four jobs, two for each of two workers.
    for (sharing, limit, jobs) in [
        (Sharing::always(), 16, 4 * 7),
        (Sharing::always(), 60_000, 4 * 12),
        (in_laps, 60_000, 4 * 15),
    ] {
        let run = texts.run(limit).by(Workers { count: 2, sharing });
        expect_at(&rt, &limit, &jobs_of(&rt, rt.alloc(), &run), &jobs);
    }
}

/// A core reads a line in cycle 0, and another one 43 Plain entries later, in cycle 22. A lap is shared out if
/// something is in flight when it begins. In cycle 0 nothing is, so the caller runs 8 cycles. In 8 the first reply is,
/// so the next 8 cycles are shared out: phases begin in 8, and in 15, where it comes. In 16 nothing is, and the caller
/// runs 8 cycles again, though the next lap to be shared out has 16. In 24 the second request is, which comes then and
/// is read: phases begin in 24, in 26 with its credit and in 34 with its reply. From 40 on nothing is. Each phase has a
/// job for the core and one for the channel.
#[test]
fn a_lap_run_alone_is_short_behind_one_shared_out(rt: HostRuntime) {
    let sharing = Sharing {
        messages: 1,
        first_lap: 8,
        ..Sharing::always()
    };
    let texts = Texts::of(&rt, rt.alloc(), &["window = 128"], "", &["0 0\n43 64\n"]);
    let run = texts.run(60).by(Workers { count: 2, sharing });
    expect_at(&rt, &60, &jobs_of(&rt, rt.alloc(), &run), &(2 * 5));
}

/// Four cores read one line each, up to cycle 30 or drained, which is long before the limit: an ACT and four RDs. The
/// last reply comes in cycle 30, so it is in flight before that. Each number of workers gives what the plain machine
/// gives.
#[test]
fn a_machine_does_not_show_its_workers(rt: HostRuntime) {
    let alloc = rt.alloc();
    for (end, limit, in_flight) in [("", 30, 1), (DRAINED, 1_000, 0)] {
        let texts = four_reads(&rt, alloc, end);
        let run = texts.run(limit);
        assert_same(
            &rt,
            alloc,
            &run,
            &[auto(1), always(1), always(2), always(3)],
        );
        let outcome = plain_outcome(&rt, alloc, &run).expect(&rt, "a run");
        let (commands, cycles, flight) = did(&rt, alloc, &outcome);
        let found = (commands.len(), cycles < 100, flight.len());
        expect_at(&rt, &limit, &found, &(5, true, in_flight));
    }
}

/// How long threads look for tasks before they sleep.
const WAIT_LIMITS: WaitLimits = WaitLimits {
    spins: 50,
    yields: 5,
    order_spins: 5,
};

/// A number to be squared, or to be refused memory.
#[derive(Drop)]
struct Number {
    number: u64,
    refused: bool,
}

/// A number and its square.
#[derive(Drop)]
struct Square {
    number: u64,
    square: u64,
}

impl DoneOf<Number> for Square {
    ghost use Rattle.std.specs.Prelude.{false};

    ghost task = { λ s. record { number = s.number; refused = false } };
}

/// Squares numbers.
struct Squaring;

impl Work<Number, Square> for Squaring {
    fn run(&self, _alloc: Global, _worker: usize, task: Number) -> Result<Square, AllocError> {
        let Number { number, refused } = task;
        if refused {
            return Err(AllocError);
        }
        Ok(Square {
            number,
            square: number.wrapping_mul(number),
        })
    }
}

/// `phases` phases of 17 numbers each. In the phase `refused` the middle one is refused.
#[derive(Drop, Clone, Copy)]
struct ManyPhases {
    phases: u64,
    refused: u64,
}

/// The numbers of a phase.
fn numbers(alloc: Global, phase: u64, refused: u64) -> Result<Vec<Number>, AllocError> {
    let mut numbers = Vec::new(alloc);
    for number in 0..17 {
        numbers.push(Number {
            number,
            refused: phase == refused && number == 8,
        })?;
    }
    Ok(numbers)
}

/// Whether each number of a phase has come exactly once, with its square.
fn are_whole(squares: &[Square]) -> bool {
    let mut seen = 0u32;
    for square in squares {
        if square.number >= 17 || square.square != square.number.wrapping_mul(square.number) {
            return false;
        }
        seen |= 1 << square.number;
    }
    squares.len() == 17 && seen == (1 << 17) - 1
}

impl PhasedRun<Number, Square, u64> for ManyPhases {
    ghost gives = { λ c n. Unit {0} };

    fn run<P: TaskRunner<Number, Square>>(
        self,
        alloc: Global,
        crew: &mut P,
    ) -> Result<u64, AllocError> {
        let mut whole = 0u64;
        for phase in 0..self.phases {
            let squares = crew.run_tasks(numbers(alloc, phase, self.refused)?)?;
            whole = whole.wrapping_add(u64::from(are_whole(&squares)));
        }
        Ok(whole)
    }
}

/// Of no memory refused: a number of phases, how many tasks of one the board has room for, and workers. Where there is
/// no room for all, the caller has the others.
static WHOLE: [(u64, usize, usize); 4] = [
    (10_000, 17, 1),
    (10_000, 17, 2),
    (10_000, 17, 4),
    (3, 16, 3),
];

#[test]
fn many_phases_are_whole(rt: HostRuntime) {
    for (phases, room, workers) in &WHOLE {
        let phased = ManyPhases {
            phases: *phases,
            refused: *phases,
        };
        let options = CrewOptions {
            room: (*room).max(1),
            workers: *workers,
            limits: WAIT_LIMITS,
        };
        let whole = with_crew(&rt, rt.alloc(), &Squaring, options, phased);
        expect_at(&rt, workers, &whole, &Ok(*phases));
    }
}

/// A task that is refused memory ends the run, whoever has it, and all threads end: otherwise this test would not end.
#[test]
fn refused_memory_ends_the_run(rt: HostRuntime) {
    for refused in 0..40 {
        let phased = ManyPhases {
            phases: 40,
            refused,
        };
        let options = CrewOptions {
            room: 17,
            workers: 4,
            limits: WAIT_LIMITS,
        };
        let whole = with_crew(&rt, rt.alloc(), &Squaring, options, phased);
        expect_at(&rt, &refused, &whole, &Err(CrewFault::Memory));
    }
}

/// Puts all tasks on a board.
fn put_all<R: Wait, B: BoardName>(
    rt: &R,
    board: &Board<Number, B>,
    seat: &mut PutSeat<Number, B>,
    tasks: Vec<Number>,
)
    requires room { vec_len tasks ≤ board.now }
    requires seat { seat.old ≡ put_view [] [] }
    ensures { seat.new ≡ put_view tasks.items [] }
{
    for task in tasks {
        let Ok(()) = board.put(rt, seat, task) else {
            unreachable!()
        };
    }
}

/// The number of the task in front, and how many the seat has then taken.
fn take_number<R: Wait, B: BoardName>(
    rt: &R,
    board: &Board<Number, B>,
    seat: &mut TakeSeat<Number, B>,
    taken: usize,
) -> (usize, Option<u64>)
    requires { (taken ≡ length seat.old) × (taken < 10) }
    ensures { (result.0 ≡ length seat.new) × (result.0 ≤ taken + 1) }
{
    match board.take(rt, seat) {
        Some(task) => (taken + 1, Some(task.number)),
        None => (taken, None),
    }
}

/// Tasks are put and taken by two seats in turn, and once more by each; then what both took is returned. The numbers of
/// what was taken, and how many were missing before, between and after.
fn take_in_turn<R: Wait, B: BoardName>(
    rt: &R,
    blank: Blank<Number>,
    tasks: Vec<Number>,
) -> ([Option<u64>; 5], [usize; 3])
    requires { (blank.name ≡ B.table) × (vec_len tasks ≤ blank.room) }
{
    let (board, mut seat) = blank.named::<B>();
    let put = tasks.len();
    put_all(rt, &board, &mut seat, tasks);
    let before = board.missing(&mut seat, put, 0);
    let mut one = board.new_take_seat(&mut seat);
    let mut two = board.new_take_seat(&mut seat);
    let (ones, first) = take_number(rt, &board, &mut one, 0);
    let (twos, second) = take_number(rt, &board, &mut two, 0);
    let (ones, third) = take_number(rt, &board, &mut one, ones);
    let (twos, fourth) = take_number(rt, &board, &mut two, twos);
    let (ones, fifth) = take_number(rt, &board, &mut one, ones);
    board.absorb(&mut seat, one);
    let between = board.missing(&mut seat, put, ones);
    board.absorb(&mut seat, two);
    let after = board.missing(&mut seat, put, ones + twos);
    (
        [first, second, third, fourth, fifth],
        [before, between, after],
    )
}

/// Tasks are taken in the order in which they were put.
#[test]
fn seats_take_tasks_in_their_order(rt: HostRuntime) {
    let mut tasks = Vec::new(rt.alloc());
    for number in [7, 3, 5] {
        let task = Number {
            number,
            refused: false,
        };
        tasks.push(task).expect(&rt, "memory");
    }
    let room = tasks.len().max(1);
    let blank = Blank::open(rt.alloc(), room).expect(&rt, "memory");
    let (numbers, missing) = take_in_turn::<HostRuntime, Brand>(&rt, blank, tasks);
    let want = [Some(7), Some(3), Some(5), None, None];
    expect_at(&rt, &"taken", &(numbers, missing), &(want, [3, 1, 0]));
}
