//! The small machine's channel in a session, whose commands and replies are worked out by hand, and calls that it
//! refuses.

ghost use Rattle.sessions.specs.Sessions.{IsOpen};

use crate::expect::expect_at;
use fixtures::none::NO_CHANNEL;
use fixtures::small::small;
use sessions::channel_session::fault::SessionFault;
use sessions::channel_session::requests::SentRequest;
use sessions::channel_session::session::Session;
use sim_base::command::{Command, IssuedCommand, Source};
use sim_base::message::{Access, CoreId, Cycle, Message, Payload};
use sim_base::place::BankId;
use statistics::channels::ChannelStats;
use std::alloc::Global;
use std::process::Abort;

const BANK: BankId = BankId {
    rank: 0,
    group: 0,
    bank: 0,
};

/// A Read of core 0: its entry, the number of its line of 64 bytes, and its arrival.
type Read = (u64, u32, Cycle);

/// The first one arrives in cycle 2.
const FIRST: Read = (0, 0, 2);

/// A Read as a core sends it.
fn read_of(core: CoreId, read: Read) -> SentRequest {
    let (entry, line, arrival) = read;
    SentRequest {
        core,
        entry,
        access: Access::Read,
        address: 64 * u64::from(line),
        arrival,
    }
}

/// Reads, and the cycle up to which a session is run once they are sent.
type Span<'x> = (&'x [Read], Cycle);

/// What differs in the machine, spans, and where the last one ends; and what the channel did in them, and counted.
struct Case<'x> {
    changes: &'x [&'x str],
    spans: &'x [Span<'x>],
    end: Cycle,
    commands: &'x [IssuedCommand],
    replies: &'x [Message],
    stats: ChannelStats,
}

/// Sends requests, one after the other.
fn send_all(rt: &impl Abort, session: &mut Session, reads: &[Read])
    requires { IsOpen session.old }
    ensures { IsOpen session.new }
{
    for read in reads {
        session.send(&read_of(0, *read)).expect(rt, "a request");
    }
}

/// Runs a session span by span.
fn run_all(rt: &impl Abort, alloc: Global, session: &mut Session, spans: &[Span<'_>])
    requires { IsOpen session.old }
    ensures { IsOpen session.new }
{
    for (reads, until) in spans {
        send_all(rt, session, reads);
        session.run(alloc, *until).expect(rt, "a span");
    }
}

/// Sends the requests of all spans.
fn send_spans(rt: &impl Abort, session: &mut Session, spans: &[Span<'_>])
    requires { IsOpen session.old }
    ensures { IsOpen session.new }
{
    for (reads, _) in spans {
        send_all(rt, session, reads);
    }
}

/// Sends the requests of all spans at once, runs the session cycle by cycle for some cycles, and then to the end of the
/// last span.
fn run_by_cycles(
    rt: &impl Abort,
    alloc: Global,
    session: &mut Session,
    case: &Case<'_>,
    cycles: Cycle,
)
    requires { IsOpen session.old }
{
    send_spans(rt, session, case.spans);
    for cycle in 0..cycles {
        session.run(alloc, cycle).expect(rt, "a cycle");
    }
    session.run(alloc, case.end).expect(rt, "the end");
}

/// What the channel does with the first Read.
const ACT: IssuedCommand = IssuedCommand {
    cycle: 2,
    channel: 0,
    command: Command::Act {
        bank: BANK,
        row: 0,
        source: Source { core: 0, entry: 0 },
    },
};

const RD: IssuedCommand = IssuedCommand {
    cycle: 5,
    channel: 0,
    command: Command::Rd {
        bank: BANK,
        row: 0,
        column: 0,
        source: Source { core: 0, entry: 0 },
    },
};

/// The reply, which leaves when the burst is over.
const REPLY: Message = Message {
    link: 1,
    arrival: 15,
    payload: Payload::Reply(0),
};

const CREDIT: Message = Message {
    link: 2,
    arrival: 7,
    payload: Payload::Credit {
        access: Access::Read,
        entry: 0,
    },
};

/// What comes of the Read of entry 1 that is served in cycle 10.
const NEXT_REPLY: Message = Message {
    link: 1,
    arrival: 20,
    payload: Payload::Reply(1),
};

const NEXT_CREDIT: Message = Message {
    link: 2,
    arrival: 12,
    payload: Payload::Credit {
        access: Access::Read,
        entry: 1,
    },
};

/// The Read of entry 1, which hits the row: of the next line, and of the same.
const NEXT_RD: IssuedCommand = IssuedCommand {
    cycle: 10,
    channel: 0,
    command: Command::Rd {
        bank: BANK,
        row: 0,
        column: 1,
        source: Source { core: 0, entry: 1 },
    },
};

const SAME_RD: IssuedCommand = IssuedCommand {
    cycle: 10,
    channel: 0,
    command: Command::Rd {
        bank: BANK,
        row: 0,
        column: 0,
        source: Source { core: 0, entry: 1 },
    },
};

const REF: IssuedCommand = IssuedCommand {
    cycle: 100,
    channel: 0,
    command: Command::Ref { rank: 0 },
};

const NEXT_REF: IssuedCommand = IssuedCommand { cycle: 200, ..REF };

static CASES: [Case<'static>; 5] = [
    // No refresh for a million million cycles.
    Case {
        changes: &[],
        spans: &[(&[], 1_000_000_000_000)],
        end: 1_000_000_000_000,
        commands: &[],
        replies: &[],
        stats: ChannelStats {
            idle: 1_000_000_000_000,
            ..NO_CHANNEL
        },
    },
    // One every 100 cycles.
    Case {
        changes: &["nREFI = 100"],
        spans: &[(&[], 250)],
        end: 250,
        commands: &[REF, NEXT_REF],
        replies: &[],
        stats: ChannelStats {
            refs: 2,
            refreshing: 2,
            idle: 250,
            ..NO_CHANNEL
        },
    },
    // One Read to a bank that is closed: ACT, and RD after nRCD = 3 cycles. The Read waits in cycles 2, 3, 4 and in 5,
    // the cycle of its service.
    Case {
        changes: &[],
        spans: &[(&[FIRST], 64)],
        end: 64,
        commands: &[ACT, RD],
        replies: &[REPLY, CREDIT],
        stats: ChannelStats {
            act: 1,
            rd: 1,
            queued: 4,
            queued_max: 1,
            idle: 60,
            ..NO_CHANNEL
        },
    },
    // Reads of two lines of a row, over a span that ends between two commands. The second hits the row nCCD_L = 5
    // cycles after the first; it waits in cycles 3 to 10.
    Case {
        changes: &[],
        spans: &[(&[FIRST, (1, 1, 3)], 5), (&[], 6), (&[], 16)],
        end: 16,
        commands: &[ACT, RD, NEXT_RD],
        replies: &[REPLY, CREDIT, NEXT_REPLY, NEXT_CREDIT],
        stats: ChannelStats {
            act: 1,
            rd: 2,
            hits: 1,
            queued: 12,
            queued_max: 2,
            idle: 7,
            ..NO_CHANNEL
        },
    },
    // One Read comes in the first span and one in the third, where it hits the row that the first one opened and waits
    // in cycles 8, 9 and 10.
    Case {
        changes: &[],
        spans: &[(&[FIRST], 3), (&[], 6), (&[(1, 0, 8)], 64)],
        end: 64,
        commands: &[ACT, RD, SAME_RD],
        replies: &[REPLY, CREDIT, NEXT_REPLY, NEXT_CREDIT],
        stats: ChannelStats {
            act: 1,
            rd: 2,
            hits: 1,
            queued: 7,
            queued_max: 1,
            idle: 57,
            ..NO_CHANNEL
        },
    },
];

/// Asserts what a session gives, each command and reply once, and what it counted.
fn assert_gives(rt: &impl Abort, session: &mut Session, case: &Case<'_>) {
    for command in case.commands {
        expect_at(rt, &case.end, &session.next_command(), &Some(*command));
    }
    for reply in case.replies {
        expect_at(rt, &case.end, &session.next_reply(), &Some(*reply));
    }
    let left = (session.next_command(), session.next_reply());
    expect_at(rt, &case.end, &left, &(None, None));
    expect_at(rt, &case.end, &session.stats(), &case.stats);
}

/// The session of a machine with other lines for some keys.
fn opened(rt: &impl Abort, alloc: Global, changes: &[&str]) -> Session
    ensures { IsOpen result }
{
    let config = small(alloc, changes, "").expect(rt, "a machine");
    Session::open(alloc, &config, 0).expect(rt, "a session")
}

fn run_case(rt: &impl Abort, alloc: Global, case: &Case<'_>) {
    let mut session = opened(rt, alloc, case.changes);
    run_all(rt, alloc, &mut session, case.spans);
    assert_gives(rt, &mut session, case);
    for cycles in [0, 1, 12] {
        let mut session = opened(rt, alloc, case.changes);
        run_by_cycles(rt, alloc, &mut session, case, cycles);
        assert_gives(rt, &mut session, case);
    }
}

/// What is asked of a session.
#[derive(Clone, Copy)]
enum Call {
    Send(CoreId, Read),
    Run(Cycle),
}

/// The channels of the machine, how many of eight Reads are sent first and up to which cycle the session is then run,
/// and a call and why it is refused.
type Refused = (&'static str, usize, Cycle, Call, Option<SessionFault>);

/// The machine's one core has four credits of each kind, so that there are eight of the channel.
static EIGHT: [Read; 8] = [
    FIRST,
    (1, 0, 3),
    (2, 0, 4),
    (3, 0, 5),
    (4, 0, 6),
    (5, 0, 7),
    (6, 0, 8),
    (7, 0, 9),
];

const ONE: &str = "channels = 1";

const TWO: &str = "channels = 2";

// The first Read is served in cycle 5.
static REFUSED: [Refused; 14] = [
    (
        ONE,
        0,
        0,
        Call::Send(1, FIRST),
        Some(SessionFault::NoSuchCore),
    ),
    // With two channels every second line is of channel 1.
    (
        TWO,
        0,
        0,
        Call::Send(0, (0, 1, 2)),
        Some(SessionFault::OtherChannel),
    ),
    (TWO, 0, 0, Call::Send(0, (0, 2, 2)), None),
    (
        ONE,
        1,
        6,
        Call::Send(0, (1, 0, 5)),
        Some(SessionFault::InThePast),
    ),
    (ONE, 1, 6, Call::Send(0, (1, 0, 6)), None),
    (
        ONE,
        1,
        0,
        Call::Send(0, (1, 0, 1)),
        Some(SessionFault::OutOfOrder),
    ),
    // Two in a cycle of a link.
    (
        ONE,
        1,
        0,
        Call::Send(0, (1, 0, 2)),
        Some(SessionFault::OutOfOrder),
    ),
    (
        ONE,
        1,
        0,
        Call::Send(0, (0, 0, 3)),
        Some(SessionFault::EntryPassed),
    ),
    (
        ONE,
        1,
        6,
        Call::Send(0, (0, 0, 10)),
        Some(SessionFault::EntryPassed),
    ),
    (ONE, 7, 0, Call::Send(0, (7, 0, 9)), None),
    (
        ONE,
        8,
        0,
        Call::Send(0, (8, 0, 10)),
        Some(SessionFault::NoCredit),
    ),
    // One of the eight is served in cycle 5.
    (ONE, 8, 6, Call::Send(0, (8, 0, 10)), None),
    (ONE, 1, 6, Call::Run(5), Some(SessionFault::EndPassed)),
    (
        ONE,
        0,
        0,
        Call::Run((1 << 62) + 1),
        Some(SessionFault::EndTooLate),
    ),
];

/// Sends the first of the eight Reads to a session, and runs it; it is not run where none is sent.
fn begin(rt: &impl Abort, alloc: Global, session: &mut Session, sent: usize, until: Cycle)
    requires { IsOpen session.old }
    ensures { IsOpen session.new }
{
    if sent == 0 {
        return;
    }
    send_all(rt, session, EIGHT.get(..sent).unwrap_or(&EIGHT));
    session.run(alloc, until).expect(rt, "a span");
}

/// Calls a session.
fn answer_of(alloc: Global, session: &mut Session, call: Call) -> Option<SessionFault>
    requires { IsOpen session.old }
{
    match call {
        Call::Send(core, read) => session.send(&read_of(core, read)).err(),
        Call::Run(until) => session.run(alloc, until).err(),
    }
}

/// Asserts why a call is refused, or that it is not, after what is done first.
fn assert_refused(rt: &impl Abort, alloc: Global, (channels, sent, until, call, want): &Refused) {
    let mut session = opened(rt, alloc, &[*channels]);
    begin(rt, alloc, &mut session, *sent, *until);
    let fault = answer_of(alloc, &mut session, *call);
    expect_at(rt, want, &fault, want);
}

/// A session that has refused a request goes on as if it had not been sent.
fn go_on_after(rt: &impl Abort, alloc: Global, case: &Case<'_>) {
    let mut session = opened(rt, alloc, case.changes);
    run_all(rt, alloc, &mut session, &[(&[FIRST], 6)]);
    let past = session.send(&read_of(0, (1, 0, 5))).err();
    expect_at(rt, &case.end, &past, &Some(SessionFault::InThePast));
    send_all(rt, &mut session, &[(1, 0, 8)]);
    session.run(alloc, case.end).expect(rt, "the end");
    assert_gives(rt, &mut session, case);
}

#[test]
fn sessions_do_what_is_worked_out(rt: HostRuntime) {
    let cases: &[Case<'static>; 5] = &CASES;
    for case in cases {
        run_case(&rt, rt.alloc(), case);
    }
    go_on_after(&rt, rt.alloc(), &cases[4]);
}

#[test]
fn unfit_calls_are_refused(rt: HostRuntime) {
    let config = small(rt.alloc(), &[], "").expect(&rt, "a machine");
    let none = Session::open(rt.alloc(), &config, 1).err();
    expect_at(&rt, &"open", &none, &Some(SessionFault::NoSuchChannel));
    for refused in &REFUSED {
        assert_refused(&rt, rt.alloc(), refused);
    }
}
