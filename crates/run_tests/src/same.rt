//! Worked rows: any number of workers gives what the plain machine gives, up to several limits, and with a link that is
//! faster than the others, so that phases are one cycle long; and so do shards, with the results of each phase in
//! several orders.

ghost use Rattle.std.specs.Prelude.{◌<◌};

use crate::expect::expect_at;
use crate::ordered_runs::{Last, Turned, run_by};
use crate::outcomes::{Run, Texts, always, assert_same, auto, plain_tables, tables_of};
use fixtures::worked_runs::{
    CONFLICT, DRAIN_AT_FOUR, DRAIN_AT_ONE, DRAIN_AT_TWO, DRAINED_LATE, DRAINED_LINE, DRAINED_READ,
    DRAINED_REFRESHES, DRAINED_SLOW_CREDIT, EIGHT_CREDITS, FAST_LINK, GROUPS, HIGH, HITS,
    NARROW_WINDOW, NOTHING, ONE_CREDIT, PLAIN, RANK_READS, RANK_REFRESHES, RANK_WRITE,
    READ_IN_FLIGHT, REFRESH_LATE, REFRESH_OPEN, REFRESHES, Run as Row, SAME_LINE, SLOW_REQUESTS,
    TWO_CHANNELS, TWO_CORES, WRITE,
};
use reference::order::Order;
use std::alloc::Global;
use std::process::Abort;
use std::sync::Wait;
use std::thread::Threads;

/// The texts of a run, with one more link.
fn texts_with(rt: &impl Abort, alloc: Global, row: &Row, link: &str) -> Texts {
    let mut more = String::from_str(alloc, row.more).expect(rt, "memory");
    more.push_str(link).expect(rt, "memory");
    Texts::of(rt, alloc, row.changes, more.as_str(), row.traces)
}

/// The tables of a run in shards whose results come in an order.
fn tables_by<R: Abort + Threads + Sync, O: Order>(
    rt: &R,
    alloc: Global,
    run: &Run<'_>,
    shards: usize,
    order: &mut O,
) -> Vec<u8>
    requires { 0 < shards }
{
    let outcome = run_by(rt, alloc, run, shards, order).expect(rt, "a run");
    tables_of(rt, alloc, &outcome)
}

/// A run in shards, the results of whose phases come as they are made, from last to first, and in turn, has the tables
/// of the plain machine.
fn assert_ordered<R: Abort + Threads + Sync>(rt: &R, alloc: Global, row: &Row, link: &str) {
    let texts = texts_with(rt, alloc, row, link);
    let run = texts.run(row.cycles);
    let plain = plain_tables(rt, alloc, &run);
    for shards in 1..3 {
        let as_made = tables_by(rt, alloc, &run, shards, &mut Turned(0)) == plain;
        let reversed = tables_by(rt, alloc, &run, shards, &mut Last(usize::MAX)) == plain;
        let turned = tables_by(rt, alloc, &run, shards, &mut Turned(1)) == plain;
        let same = (as_made, reversed, turned);
        expect_at(rt, &(run.config, shards), &same, &(true, true, true));
    }
}

/// A run up to its own limit and to two others.
fn assert_run<R: Abort + Threads + Wait + Sync>(rt: &R, alloc: Global, row: &Row, link: &str) {
    let texts = texts_with(rt, alloc, row, link);
    let workers = [auto(1), always(2), always(7), always(64)];
    for cycles in [row.cycles, 3, 16] {
        assert_same(rt, alloc, &texts.run(cycles), &workers);
    }
}

/// The worked runs that have no link for credits of their own.
static ROWS: [Row; 28] = [
    READ_IN_FLIGHT,
    HITS,
    GROUPS,
    HIGH,
    CONFLICT,
    WRITE,
    SAME_LINE,
    NOTHING,
    PLAIN,
    EIGHT_CREDITS,
    ONE_CREDIT,
    NARROW_WINDOW,
    REFRESHES,
    REFRESH_OPEN,
    REFRESH_LATE,
    TWO_CORES,
    SLOW_REQUESTS,
    TWO_CHANNELS,
    RANK_READS,
    RANK_WRITE,
    RANK_REFRESHES,
    DRAIN_AT_TWO,
    DRAIN_AT_ONE,
    DRAIN_AT_FOUR,
    DRAINED_READ,
    DRAINED_LINE,
    DRAINED_REFRESHES,
    DRAINED_LATE,
];

fn worked_runs() -> &'static [Row] {
    &ROWS
}

/// It has a link of its own, so that a fast one is not added to it.
static SLOW_CREDIT: Row = DRAINED_SLOW_CREDIT;

/// The first twelve rows, whose machines have one core and one channel: in one shard, and with each unit in one of its
/// own.
#[test]
fn orders_of_results_do_not_matter(rt: HostRuntime) {
    for row in worked_runs().iter().take(12) {
        assert_ordered(&rt, rt.alloc(), row, "");
        assert_ordered(&rt, rt.alloc(), row, FAST_LINK);
    }
}

/// Each row, as it is and with a fast link.
#[test]
fn rows_do_not_show_their_workers(rt: HostRuntime) {
    for row in worked_runs() {
        assert_run(&rt, rt.alloc(), row, "");
        assert_run(&rt, rt.alloc(), row, FAST_LINK);
    }
    assert_run(&rt, rt.alloc(), &SLOW_CREDIT, "");
}
