//! Configurations that are read, and their copies.

use crate::expect::expect;
use fixtures::numbers::SMALL_TIMING;
use fixtures::small::{RANK_FIELD, small};
use fixtures::worked_runs::FAST_LINK;
use sim_base::config::Config;
use sim_base::place::Field;
use sim_base::timing::Timing;
use std::alloc::Global;
use std::process::Abort;

const ORDER: &[Field] = &[
    Field::Channel,
    Field::Column,
    Field::Group,
    Field::Bank,
    Field::Row,
];

const ORDER_WITH_RANKS: &[Field] = &[
    Field::Channel,
    Field::Column,
    Field::Rank,
    Field::Group,
    Field::Bank,
    Field::Row,
];

/// Other lines for some keys of the small machine, and more lines at its end; and what the resulting machine has: its
/// ranks, its timing, the order of its fields, whether it ends drained, the links with latencies of their own, and the
/// latency of link 2.
struct Case<'x> {
    changes: &'x [&'x str],
    more: &'x str,
    ranks: u32,
    timing: Timing,
    order: &'x [Field],
    ends_drained: bool,
    overrides: usize,
    latency: u32,
}

const UNCHANGED: Case<'static> = Case {
    changes: &[],
    more: "",
    ranks: 1,
    timing: SMALL_TIMING,
    order: ORDER,
    ends_drained: false,
    overrides: 0,
    latency: 2,
};

static CASES: [Case<'static>; 3] = [
    UNCHANGED,
    Case {
        changes: &[RANK_FIELD, "nREFI = 39"],
        more: "ranks = 2\nnRTRS = 2\nend = \"drained\"\n",
        ranks: 2,
        timing: Timing {
            n_rtrs: 2,
            n_refi: 39,
            ..SMALL_TIMING
        },
        order: ORDER_WITH_RANKS,
        ends_drained: true,
        ..UNCHANGED
    },
    Case {
        more: FAST_LINK,
        overrides: 1,
        latency: 1,
        ..UNCHANGED
    },
];

/// Asserts the numbers of a machine.
fn assert_numbers(rt: &impl Abort, config: &Config, case: &Case<'_>) {
    let numbers = [
        config.ranks,
        config.groups,
        config.columns,
        config.rows,
        config.window,
        config.read_credits,
        config.write_credits,
        config.request_latency,
        config.reply_latency,
        config.credit_latency,
        config.write_high,
        config.write_low,
        config.latency(1),
        config.latency(2),
    ];
    let (ranks, latency) = (case.ranks, case.latency);
    let want = [ranks, 2, 128, 65536, 8, 4, 4, 2, 2, 2, 0, 0, 2, latency];
    expect(rt, &numbers, &want);
}

/// Asserts all that a machine has.
fn assert_machine(rt: &impl Abort, config: &Config, case: &Case<'_>) {
    let counts = [config.cores, config.channels, config.width];
    expect(rt, &counts, &[1, 1, 2]);
    assert_numbers(rt, config, case);
    let overrides = config.overrides.as_slice().len();
    expect(
        rt,
        &(
            config.fields.as_slice(),
            config.timing,
            overrides,
            config.ends_drained,
        ),
        &(case.order, case.timing, case.overrides, case.ends_drained),
    );
}

/// Asserts what a machine and its copy are.
fn assert_read(rt: &impl Abort, alloc: Global, case: &Case<'_>) {
    let config = small(alloc, case.changes, case.more).expect(rt, "a machine");
    assert_machine(rt, &config, case);
    let copy = config.copy(alloc).expect(rt, "memory");
    assert_machine(rt, &copy, case);
}

#[test]
fn reads_documents(rt: HostRuntime) {
    for case in &CASES {
        assert_read(&rt, rt.alloc(), case);
    }
}
