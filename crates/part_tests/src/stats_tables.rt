//! The statistics of small runs whose counts were found by hand.

use crate::written::{Report, assert_report};
use fixtures::none::{NO_CHANNEL, NO_CORE};
use fixtures::one_read::STATS;
use statistics::channels::ChannelStats;
use statistics::cores::CoreStats;
use statistics::stats::Stats;

// The reply is still on its way, so the finish is empty.
const UNFINISHED: &str = "scope,id,name,value
run,0,cycles,15
core,0,issued,1
core,0,retired,0
core,0,reads,1
core,0,writes,0
core,0,replies,0
core,0,read_latency,0
core,0,stop_end,15
core,0,stop_width,0
core,0,stop_window,0
core,0,stop_memory,0
core,0,stop_credit,0
core,0,finish,
channel,0,act,1
channel,0,rd,1
channel,0,wr,0
channel,0,pre,0
channel,0,prea,0
channel,0,ref,0
channel,0,hits,0
channel,0,queued,4
channel,0,queued_max,1
channel,0,idle,11
channel,0,refreshing,0
";

const SHORT: &str = "scope,id,name,value
run,0,cycles,3
core,0,issued,1
core,0,retired,0
core,0,reads,1
core,0,writes,0
core,0,replies,0
core,0,read_latency,0
core,0,stop_end,3
core,0,stop_width,0
core,0,stop_window,0
core,0,stop_memory,0
core,0,stop_credit,0
core,0,finish,
channel,0,act,1
channel,0,rd,0
channel,0,wr,0
channel,0,pre,0
channel,0,prea,0
channel,0,ref,0
channel,0,hits,0
channel,0,queued,1
channel,0,queued_max,1
channel,0,idle,2
channel,0,refreshing,0
";

const DRAINED: &str = "scope,id,name,value
run,0,cycles,64
channel,0,act,0
channel,0,rd,0
channel,0,wr,0
channel,0,pre,0
channel,0,prea,0
channel,0,ref,0
channel,0,hits,0
channel,0,queued,18446744073709551616
channel,0,queued_max,0
channel,0,idle,0
channel,0,refreshing,0
channel,1,act,2
channel,1,rd,1
channel,1,wr,1
channel,1,pre,0
channel,1,prea,0
channel,1,ref,0
channel,1,hits,0
channel,1,queued,0
channel,1,queued_max,0
channel,1,idle,0
channel,1,refreshing,0
channel,1,draining,5
";

/// Cycles, what each core and each channel counts in them, and their table.
type Case<'x> = (u64, &'x [CoreStats], &'x [ChannelStats], &'x str);

// A core that reads the first line and its channel, up to the end of cycles 15, 14 and 2; and two channels, of which
// the second may drain its writes, and counts past 64 bits.
static CASES: [Case<'static>; 4] = [
    (
        16,
        &[CoreStats {
            issued: 1,
            retired: 1,
            reads: 1,
            replies: 1,
            read_latency: 15,
            stop_end: 16,
            finish: Some(15),
            ..NO_CORE
        }],
        &[ChannelStats {
            act: 1,
            rd: 1,
            queued: 4,
            queued_max: 1,
            idle: 12,
            ..NO_CHANNEL
        }],
        STATS,
    ),
    (
        15,
        &[CoreStats {
            issued: 1,
            reads: 1,
            stop_end: 15,
            ..NO_CORE
        }],
        &[ChannelStats {
            act: 1,
            rd: 1,
            queued: 4,
            queued_max: 1,
            idle: 11,
            ..NO_CHANNEL
        }],
        UNFINISHED,
    ),
    (
        3,
        &[CoreStats {
            issued: 1,
            reads: 1,
            stop_end: 3,
            ..NO_CORE
        }],
        &[ChannelStats {
            act: 1,
            queued: 1,
            queued_max: 1,
            idle: 2,
            ..NO_CHANNEL
        }],
        SHORT,
    ),
    (
        64,
        &[],
        &[
            ChannelStats {
                queued: 1 << 64,
                ..NO_CHANNEL
            },
            ChannelStats {
                act: 2,
                rd: 1,
                wr: 1,
                draining: Some(5),
                ..NO_CHANNEL
            },
        ],
        DRAINED,
    ),
];

#[test]
fn writes_statistics(rt: HostRuntime) {
    for (cycles, cores, channels, want) in &CASES {
        let stats = Stats::of_parts(rt.alloc(), *cycles, cores, channels).expect(&rt, "memory");
        assert_report(&rt, rt.alloc(), Report::Stats(&stats), want);
    }
}
