//! Requests that are read and measured against the statistics of their run.

use crate::expect::{expect, expect_at};
use fixtures::none::{NO_CHANNEL, NO_CORE};
use measures::request_check::agreement::{Mismatch, check_requests};
use measures::request_check::tally::Tally;
use request_table::times::RequestTimes;
use run_tables::read_requests;
use sim_base::message::Access;
use statistics::channels::ChannelStats;
use statistics::cores::CoreStats;
use statistics::stats::Stats;
use std::alloc::Global;
use std::process::Abort;

const ROWS: &str = "core,entry,access,channel,issued,arrived,served,replied,hit
0,0,read,0,0,2,5,15,0
0,1,write,0,1,3,12,,0
0,2,read,0,2,4,21,31,1
";

const FIRST: RequestTimes = RequestTimes {
    core: 0,
    entry: 0,
    access: Access::Read,
    channel: 0,
    issued: 0,
    arrived: 2,
    served: 5,
    replied: Some(15),
    hit: false,
};

pub(crate) const SECOND: RequestTimes = RequestTimes {
    core: 0,
    entry: 1,
    access: Access::Write,
    channel: 0,
    issued: 1,
    arrived: 3,
    served: 12,
    replied: None,
    hit: false,
};

const THIRD: RequestTimes = RequestTimes {
    core: 0,
    entry: 2,
    access: Access::Read,
    channel: 0,
    issued: 2,
    arrived: 4,
    served: 21,
    replied: Some(31),
    hit: true,
};

/// The rows above.
pub(crate) static TABLE: [RequestTimes; 3] = [FIRST, SECOND, THIRD];

#[test]
fn each_request(rt: HostRuntime) {
    let rows = read_requests(rt.alloc(), ROWS.as_bytes()).expect(&rt, "a table");
    expect(&rt, &rows.as_slice(), &TABLE.as_slice());
}

/// The statistics of the run of the three requests, but for what is given: 15 and 29 cycles are 44.
pub(crate) fn run_of(rt: &impl Abort, alloc: Global, read_latency: u128, wr: u64) -> Stats {
    let core = CoreStats {
        replies: 2,
        read_latency,
        ..NO_CORE
    };
    let channel = ChannelStats {
        rd: 2,
        wr,
        hits: 1,
        ..NO_CHANNEL
    };
    Stats::of_parts(alloc, 64, &[core], &[channel]).expect(rt, "memory")
}

// A sum of latencies and a number of writes, the third request, if there is one, and how the requests differ from the
// run. The last four have a request of a core, of a channel, with a RD and with a reply that the run does not have.
type Agreement = (u128, u64, Option<RequestTimes>, Result<(), Mismatch>);

static AGREEMENTS: [Agreement; 9] = [
    (44, 1, Some(THIRD), Ok(())),
    (
        40,
        1,
        Some(THIRD),
        Err(Mismatch::Excess(Tally::ReadLatency(0), 2)),
    ),
    (
        45,
        1,
        Some(THIRD),
        Err(Mismatch::Lack(Tally::ReadLatency(0))),
    ),
    (
        44,
        0,
        Some(THIRD),
        Err(Mismatch::Excess(Tally::Writes(0), 1)),
    ),
    (44, 1, None, Err(Mismatch::Lack(Tally::Replies(0)))),
    (
        44,
        1,
        Some(RequestTimes { core: 1, ..THIRD }),
        Err(Mismatch::Stranger(2)),
    ),
    (
        44,
        1,
        Some(RequestTimes {
            channel: 1,
            ..THIRD
        }),
        Err(Mismatch::Stranger(2)),
    ),
    (
        44,
        1,
        Some(RequestTimes {
            served: 64,
            ..THIRD
        }),
        Err(Mismatch::Stranger(2)),
    ),
    (
        44,
        1,
        Some(RequestTimes {
            replied: Some(64),
            ..THIRD
        }),
        Err(Mismatch::Stranger(2)),
    ),
];

#[test]
fn requests_of_a_run(rt: HostRuntime) {
    for (latency, writes, third, want) in &AGREEMENTS {
        let stats = run_of(&rt, rt.alloc(), *latency, *writes);
        let found = match third {
            Some(third) => check_requests(&stats, &[FIRST, SECOND, *third]),
            None => check_requests(&stats, &[FIRST, SECOND]),
        };
        expect_at(&rt, third, &found, want);
    }
}
