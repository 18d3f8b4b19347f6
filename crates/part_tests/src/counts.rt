//! Statistics of small runs, cut into stretches by hand: two reads of one row, of which the second finds the row open.

use crate::expect::expect;
use fixtures::none::{NO_CHANNEL, NO_CORE};
use sim_base::command::Kind;
use statistics::channels::ChannelStats;
use statistics::cores::CoreStats;
use statistics::stats::Stats;

// A channel's stretches, joined, and what they are to give. The last is one idle cycle, 16 times.
fn joined_channel() -> (ChannelStats, ChannelStats) {
    let opening = ChannelStats {
        act: 1,
        queued: 5,
        queued_max: 2,
        idle: 2,
        ..NO_CHANNEL
    };
    let serving = ChannelStats {
        rd: 2,
        hits: 1,
        queued: 7,
        queued_max: 2,
        idle: 5,
        ..NO_CHANNEL
    };
    let idling = ChannelStats {
        idle: 1,
        ..NO_CHANNEL
    };
    let whole = ChannelStats {
        act: 1,
        rd: 2,
        hits: 1,
        queued: 12,
        queued_max: 2,
        idle: 23,
        ..NO_CHANNEL
    };
    (opening.joined(serving).joined(idling.times(16)), whole)
}

// A channel's statistics after some cycles and commands, and what they are to be.
fn added_channel() -> (ChannelStats, ChannelStats) {
    let mut run = ChannelStats {
        draining: Some(1),
        ..NO_CHANNEL
    };
    run.add_cycles(3, 2, true, true);
    run.add_cycles(1, 1, false, false);
    run.add_command(Kind::Act, false);
    run.add_command(Kind::Rd, true);
    run.add_cycles(4, 0, false, false);
    let whole = ChannelStats {
        act: 1,
        rd: 1,
        hits: 1,
        queued: 7,
        queued_max: 2,
        idle: 4,
        refreshing: 3,
        draining: Some(4),
        ..NO_CHANNEL
    };
    (run, whole)
}

// A core's stretches, joined, and what they are to give. The last is one cycle, 15 times.
fn joined_core() -> (CoreStats, CoreStats) {
    let first = CoreStats {
        issued: 2,
        retired: 1,
        reads: 2,
        replies: 1,
        read_latency: 15,
        stop_memory: 1,
        stop_credit: 6,
        stop_end: 9,
        ..NO_CORE
    };
    let second = CoreStats {
        retired: 1,
        replies: 1,
        read_latency: 13,
        stop_end: 1,
        finish: Some(20),
        ..NO_CORE
    };
    let ended = CoreStats {
        stop_end: 1,
        ..NO_CORE
    };
    let whole = CoreStats {
        issued: 2,
        retired: 2,
        reads: 2,
        replies: 2,
        read_latency: 28,
        stop_memory: 1,
        stop_credit: 6,
        stop_end: 25,
        finish: Some(20),
        ..NO_CORE
    };
    (first.joined(second).joined(ended.times(15)), whole)
}

static CORES: [CoreStats; 1] = [NO_CORE];

static CHANNELS: [ChannelStats; 2] = [
    ChannelStats {
        act: 1,
        ..NO_CHANNEL
    },
    NO_CHANNEL,
];

#[test]
fn counts_of_stretches(rt: HostRuntime) {
    let (joined, wanted_joined) = joined_channel();
    let (added, wanted_added) = added_channel();
    let (core, wanted_core) = joined_core();
    expect(
        &rt,
        &(joined, added, core),
        &(wanted_joined, wanted_added, wanted_core),
    );
    let stats = Stats::of_parts(rt.alloc(), 16, &CORES, &CHANNELS).expect(&rt, "memory");
    expect(
        &rt,
        &(
            stats.cycles,
            stats.cores.as_slice(),
            stats.channels.as_slice(),
        ),
        &(16, CORES.as_slice(), CHANNELS.as_slice()),
    );
}
