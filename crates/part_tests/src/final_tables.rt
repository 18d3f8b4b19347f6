//! The states in which small runs end, found by hand.

use crate::written::{Report, assert_report};
use sim_base::message::{Access, Message, Payload, Request};
use sim_base::place::{BankId, Place};
use statistics::final_state::{ChannelState, CoreState, Credits, FinalState, OpenRow};
use std::alloc::Global;
use std::process::Abort;

const FIRST: BankId = BankId {
    rank: 0,
    group: 0,
    bank: 0,
};

const OTHER: BankId = BankId {
    rank: 1,
    group: 1,
    bank: 3,
};

const READ: Request = Request {
    core: 0,
    entry: 0,
    access: Access::Read,
    address: 0,
    place: Place {
        channel: 0,
        rank: 0,
        group: 0,
        bank: 0,
        row: 0,
        column: 0,
    },
    arrival: 2,
    link: 0,
};

// A write of the last line of all.
const WRITE: Request = Request {
    core: 1,
    entry: 9,
    access: Access::Write,
    address: 18446744073709551615,
    place: Place {
        channel: 1,
        rank: 1,
        group: 1,
        bank: 3,
        row: 65535,
        column: 127,
    },
    arrival: 40,
    link: 9,
};

// What a core issued and retired, and its credits.
type CoreStep<'x> = (u64, u64, &'x [Credits]);

fn cores(rt: &impl Abort, alloc: Global, rows: &[CoreStep<'_>]) -> Vec<CoreState> {
    let mut cores = Vec::new(alloc);
    for (issued, retired, credits) in rows {
        let core = CoreState {
            issued: *issued,
            retired: *retired,
            credits: credits.to_vec(alloc).expect(rt, "memory"),
        };
        cores.push(core).expect(rt, "memory");
    }
    cores
}

// The refreshes of a channel that are due, its open rows and its queue.
type ChannelRow<'x> = (&'x [u64], &'x [OpenRow], &'x [Request]);

fn channels(rt: &impl Abort, alloc: Global, rows: &[ChannelRow<'_>]) -> Vec<ChannelState> {
    let mut channels = Vec::new(alloc);
    for (due, open_rows, queue) in rows {
        let channel = ChannelState {
            due: due.to_vec(alloc).expect(rt, "memory"),
            open_rows: open_rows.to_vec(alloc).expect(rt, "memory"),
            queue: queue.to_vec(alloc).expect(rt, "memory"),
        };
        channels.push(channel).expect(rt, "memory");
    }
    channels
}

// A state, the number of its ranks, and its table.
struct Case<'x> {
    cores: &'x [CoreStep<'x>],
    channels: &'x [ChannelRow<'x>],
    in_flight: &'x [Message],
    ranks: u32,
    table: &'x str,
}

fn state_of(rt: &impl Abort, alloc: Global, case: &Case<'_>) -> FinalState {
    FinalState {
        cores: cores(rt, alloc, case.cores),
        channels: channels(rt, alloc, case.channels),
        in_flight: case.in_flight.to_vec(alloc).expect(rt, "memory"),
    }
}

// All credits of one core and one channel, and all except one for a read.
const ALL: Credits = Credits { read: 4, write: 4 };

const FEWER: Credits = Credits { read: 3, write: 4 };

// A channel whose first row is open.
const OPENED: OpenRow = OpenRow {
    bank: FIRST,
    row: 0,
};

// One core and one channel, after a read.
const ONE_READ: Case<'static> = Case {
    cores: &[(1, 1, &[ALL])],
    channels: &[(&[0], &[OPENED], &[])],
    in_flight: &[],
    ranks: 1,
    table: "item,core,channel,group,bank,entry,cycle,value
issued,0,,,,,,1
retired,0,,,,,,1
credit_read,0,0,,,,,4
credit_write,0,0,,,,,4
due,,0,,,,,0
open,,0,0,0,,,0
",
};

// One core and one channel, before the reply to a read has arrived.
const A_REPLY: Case<'static> = Case {
    cores: &[(1, 0, &[ALL])],
    in_flight: &[Message {
        link: 1,
        arrival: 15,
        payload: Payload::Reply(0),
    }],
    table: "item,core,channel,group,bank,entry,cycle,value
issued,0,,,,,,1
retired,0,,,,,,0
credit_read,0,0,,,,,4
credit_write,0,0,,,,,4
due,,0,,,,,0
open,,0,0,0,,,0
flight_reply,0,0,,,0,15,1
",
    ..ONE_READ
};

// One core and one channel, before a read is served.
const A_QUEUE: Case<'static> = Case {
    cores: &[(1, 0, &[FEWER])],
    channels: &[(&[0], &[OPENED], &[READ])],
    table: "item,core,channel,group,bank,entry,cycle,value
issued,0,,,,,,1
retired,0,,,,,,0
credit_read,0,0,,,,,3
credit_write,0,0,,,,,4
due,,0,,,,,0
open,,0,0,0,,,0
queued_read,0,0,0,0,0,2,0
",
    ..ONE_READ
};

const SOME: Credits = Credits { read: 3, write: 4 };

const OTHERS: Credits = Credits { read: 4, write: 2 };

// Two cores, two channels of two ranks, and messages of all kinds. Core c and channel k have the links from 3(2c + k)
// on.
const RANKS: Case<'static> = Case {
    cores: &[(5, 2, &[SOME, OTHERS]), (1, 0, &[OTHERS, SOME])],
    channels: &[
        (
            &[0, 1],
            &[
                OpenRow {
                    bank: FIRST,
                    row: 7,
                },
                OpenRow {
                    bank: OTHER,
                    row: 65535,
                },
            ],
            &[],
        ),
        (&[2, 0], &[], &[READ, WRITE]),
    ],
    in_flight: &[
        Message {
            link: 5,
            arrival: 50,
            payload: Payload::Credit {
                access: Access::Read,
                entry: 3,
            },
        },
        Message {
            link: 9,
            arrival: 50,
            payload: Payload::Request(WRITE),
        },
        Message {
            link: 8,
            arrival: 51,
            payload: Payload::Credit {
                access: Access::Write,
                entry: 4,
            },
        },
    ],
    ranks: 2,
    table: "item,core,channel,rank,group,bank,entry,cycle,value
issued,0,,,,,,,5
retired,0,,,,,,,2
issued,1,,,,,,,1
retired,1,,,,,,,0
credit_read,0,0,,,,,,3
credit_write,0,0,,,,,,4
credit_read,0,1,,,,,,4
credit_write,0,1,,,,,,2
credit_read,1,0,,,,,,4
credit_write,1,0,,,,,,2
credit_read,1,1,,,,,,3
credit_write,1,1,,,,,,4
due,,0,0,,,,,0
due,,0,1,,,,,1
open,,0,0,0,0,,,7
open,,0,1,1,3,,,65535
due,,1,0,,,,,2
due,,1,1,,,,,0
queued_read,0,1,0,0,0,0,2,0
queued_write,1,1,1,1,3,9,40,18446744073709551615
flight_credit_read,0,1,,,,3,50,5
flight_request,1,1,,,,9,50,9
flight_credit_write,1,0,,,,4,51,8
",
};

static CASES: [Case<'static>; 4] = [ONE_READ, A_REPLY, A_QUEUE, RANKS];

#[test]
fn writes_states(rt: HostRuntime) {
    for case in &CASES {
        let state = state_of(&rt, rt.alloc(), case);
        assert_report(
            &rt,
            rt.alloc(),
            Report::Last(case.ranks, &state),
            case.table,
        );
    }
}
