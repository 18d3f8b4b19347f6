//! Messages whose order and arrival are known from the numbers of links.

use crate::expect::expect;
use fixtures::small::small;
use links::flight::Links;
use links::latency::shortest;
use sim_base::message::{Access, Cycle, LinkId, Message, Payload, Unit};
use std::alloc::Global;
use std::process::Abort;

/// A message on each link of 64 cores and 16 channels, of one arrival, the last link first.
fn sent_on_all(rt: &impl Abort, alloc: Global) -> Vec<Message> {
    let mut sent = Vec::new(alloc);
    for link in (0..3072).rev() {
        let message = Message {
            link,
            arrival: 7,
            payload: Payload::Reply(link),
        };
        sent.push(message).expect(rt, "memory");
    }
    sent
}

/// Takes out what arrives at a unit before a cycle: at a core the replies, and then the credits.
fn taken(
    rt: &impl Abort,
    alloc: Global,
    links: &mut Links,
    (unit, until): (Unit, Cycle),
) -> Vec<Message> {
    let mut all = Vec::new(alloc);
    match unit {
        Unit::Channel(channel) => {
            let due = links.due_at_channel(channel, until);
            all.extend_from_slice(due).expect(rt, "memory");
            let count = due.len();
            let _next = links.drop_due_at_channel(channel, until, count);
        }
        Unit::Core(core) => {
            let (replies, credits) = links.due_at_core(core, until);
            all.extend_from_slice(replies).expect(rt, "memory");
            all.extend_from_slice(credits).expect(rt, "memory");
            let (replies, credits) = (replies.len(), credits.len());
            let _next = links.drop_due_at_core(core, until, replies, credits);
        }
    }
    all
}

/// Asserts on which links what arrives at a unit by cycle 7 comes.
fn assert_due(rt: &impl Abort, alloc: Global, links: &mut Links, unit: Unit, want: &[LinkId]) {
    let due: Vec<LinkId> = taken(rt, alloc, links, (unit, 8))
        .iter()
        .map(|message| message.link)
        .collect(alloc)
        .expect(rt, "memory");
    expect(rt, &due.as_slice(), &want);
}

/// Replies, and then credits, come to core 5 by their links, from each channel, and requests to channel 3, from each
/// core.
fn assert_by_link(rt: &impl Abort, alloc: Global, links: &mut Links) {
    let mut to_core = Vec::new(alloc);
    for kind in 1..3u64 {
        for channel in 0..16u64 {
            to_core
                .push(3 * (5 * 16 + channel) + kind)
                .expect(rt, "memory");
        }
    }
    let mut to_channel = Vec::new(alloc);
    for core in 0..64u64 {
        to_channel.push(3 * (core * 16 + 3)).expect(rt, "memory");
    }
    assert_due(rt, alloc, links, Unit::Core(5), &to_core);
    assert_due(rt, alloc, links, Unit::Channel(3), &to_channel);
}

const UNEVEN: &str = "[[link]]\nid = 1\nlatency = 9\n[[link]]\nid = 2\nlatency = 1\n";

/// Of what is sent to core 0, a reply in cycle 10 takes a link with latency 9, and a credit in cycle 11 one with
/// latency 1.
const REPLY: Message = Message {
    link: 1,
    arrival: 19,
    payload: Payload::Reply(0),
};

const CREDIT: Message = Message {
    link: 2,
    arrival: 12,
    payload: Payload::Credit {
        access: Access::Read,
        entry: 1,
    },
};

/// A message to channel 0, and two replies to core 1.
const REQUEST: Message = Message {
    link: 0,
    arrival: 13,
    payload: Payload::Reply(2),
};

const EARLY: Message = Message {
    link: 4,
    arrival: 5,
    payload: Payload::Reply(3),
};

const LATE: Message = Message {
    link: 4,
    arrival: 6,
    payload: Payload::Reply(4),
};

/// Who takes what arrives before which cycle, what it gets, and when the next message then arrives; one after the
/// other.
static TAKES: [(Unit, Cycle, &[Message], Option<Cycle>); 9] = [
    (Unit::Core(1), 5, &[], Some(5)),
    (Unit::Core(1), 6, &[EARLY], Some(6)),
    (Unit::Core(2), u64::MAX, &[], Some(6)),
    (Unit::Channel(1), u64::MAX, &[], Some(6)),
    (Unit::Core(1), u64::MAX, &[LATE], Some(12)),
    (Unit::Core(1), u64::MAX, &[], Some(12)),
    (Unit::Core(0), 20, &[REPLY, CREDIT], Some(13)),
    (Unit::Channel(0), 13, &[], Some(13)),
    (Unit::Channel(0), 14, &[REQUEST], None),
];

fn assert_takes(rt: &impl Abort, alloc: Global, links: &mut Links) {
    for (unit, until, wanted, next) in &TAKES {
        let due = taken(rt, alloc, links, (*unit, *until));
        expect(
            rt,
            &(until, due.as_slice(), links.next_arrival()),
            &(until, *wanted, *next),
        );
    }
}

/// Messages of one arrival come by their links.
#[test]
fn messages_come_in_order(rt: HostRuntime) {
    let alloc = rt.alloc();
    let wide = small(alloc, &["cores = 64", "channels = 16"], "").expect(&rt, "a machine");
    let mut links = Links::start(alloc, &wide).expect(&rt, "memory");
    links
        .accept(&mut sent_on_all(&rt, alloc))
        .expect(&rt, "memory");
    assert_by_link(&rt, alloc, &mut links);
    expect(&rt, &shortest(&wide), &2);
}

/// Messages on short links overtake those on long ones.
#[test]
fn messages_overtake_others(rt: HostRuntime) {
    let alloc = rt.alloc();
    let uneven = small(alloc, &["cores = 2"], UNEVEN).expect(&rt, "a machine");
    let mut links = Links::start(alloc, &uneven).expect(&rt, "memory");
    links
        .accept(&mut [REPLY, LATE, CREDIT, REQUEST, EARLY])
        .expect(&rt, "memory");
    assert_takes(&rt, alloc, &mut links);
    expect(&rt, &(shortest(&uneven), links.is_empty()), &(1, true));
}
