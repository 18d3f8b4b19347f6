//! When three requests of the small machine were where, worked out by hand: a read and a write of one entry, and a read
//! of the next one.
//!
//! The core issues them in cycles 0, 1 and 2, and each travels 2 cycles. The ACT for the first is issued in cycle 2,
//! its RD 3 cycles later (nRCD), and its data is there 4 + 4 + 2 cycles after that. The write has its WR 7 cycles after
//! the RD (nRTW), and the second read its RD 9 cycles after the WR (nCWL + 4 + nWTR_L), both in the row that is open.

use crate::expect::expect_at;
use crate::outcomes::{Texts, always, outcome_of};
use request_table::table::{RequestTable, Rows};
use request_table::times::RequestTimes;
use sim_base::message::{Access, Cycle};
use simulation::gate::OpenGate;
use simulation::options::Hooks;
use simulation::watch::Unwatched;
use std::alloc::Global;
use std::process::Abort;
use std::sync::Wait;
use std::thread::Threads;

const FIRST: RequestTimes = RequestTimes {
    core: 0,
    entry: 0,
    access: Access::Read,
    channel: 0,
    issued: 0,
    arrived: 2,
    served: 5,
    replied: Some(15),
    hit: false,
};

const WRITTEN: RequestTimes = RequestTimes {
    core: 0,
    entry: 1,
    access: Access::Write,
    channel: 0,
    issued: 1,
    arrived: 3,
    served: 12,
    replied: None,
    hit: true,
};

const SECOND: RequestTimes = RequestTimes {
    core: 0,
    entry: 2,
    access: Access::Read,
    channel: 0,
    issued: 2,
    arrived: 4,
    served: 21,
    replied: Some(31),
    hit: true,
};

/// The second read, in a run that ends before its reply comes.
const UNANSWERED: RequestTimes = RequestTimes {
    replied: None,
    ..SECOND
};

/// Limits, and the requests that were served up to there.
static RUNS: [(Cycle, &[RequestTimes]); 4] = [
    (64, &[FIRST, WRITTEN, SECOND]),
    (32, &[FIRST, WRITTEN, SECOND]),
    (31, &[FIRST, WRITTEN, UNANSWERED]),
    (21, &[FIRST, WRITTEN]),
];

/// Appends the rows of a piece of a table.
fn push_rows(rt: &impl Abort, alloc: Global, piece: &Rows<'_>, rows: &mut Vec<RequestTimes>) {
    let mut left = piece.copied(alloc).expect(rt, "memory");
    for _ in 0..u64::MAX {
        let Some(row) = left.next() else {
            break;
        };
        rows.push(row).expect(rt, "memory");
    }
}

/// The rows of a table, read piece by piece.
fn in_pieces(
    rt: &impl Abort,
    alloc: Global,
    table: &RequestTable,
    most: usize,
) -> Vec<RequestTimes> {
    let mut rows = Vec::new(alloc);
    for piece in &table.pieces(alloc, most).expect(rt, "memory") {
        push_rows(rt, alloc, piece, &mut rows);
    }
    rows
}

/// The requests of each run by so many workers, read at once and in pieces.
fn assert_requests<R: Abort + Threads + Wait + Sync>(rt: &R, alloc: Global, workers: u64) {
    let texts = Texts::of(rt, alloc, &[], "", &["0 0 64\n0 64\n"]);
    for (cycles, want) in &RUNS {
        let hooks = Hooks {
            gate: &OpenGate,
            watch: &mut Unwatched,
        };
        let run = texts.run(*cycles).by(always(workers));
        let outcome = outcome_of(rt, alloc, hooks, &run).expect(rt, "a run");
        let table = outcome.requests.as_ref().expect(rt, "requests");
        let whole = table.to_vec(alloc).expect(rt, "memory");
        let ones = in_pieces(rt, alloc, table, 1);
        let twos = in_pieces(rt, alloc, table, 2);
        let same = whole.as_slice() == *want
            && ones.as_slice() == *want
            && twos.as_slice() == *want;
        expect_at(rt, &(*cycles, workers), &same, &true);
    }
}

#[test]
fn three_requests_in_place_and_shared_out(rt: HostRuntime) {
    for workers in [1, 2, 5] {
        assert_requests(&rt, rt.alloc(), workers);
    }
}
