//! What is read of a table of statistics.

use crate::expect::expect_at;
use fixtures::none::NO_CORE;
use run_tables::read_stats;
use statistics::channels::ChannelStats;
use statistics::cores::CoreStats;

// Two cores and a channel.
const TWO_CORES: &str = "scope,id,name,value
run,0,cycles,20000
core,0,issued,12350
core,0,retired,12345
core,0,reads,640
core,0,writes,12
core,0,replies,637
core,0,read_latency,45678
core,0,stop_end,0
core,0,stop_width,5000
core,0,stop_window,9000
core,0,stop_memory,1
core,0,stop_credit,5999
core,0,finish,
core,1,issued,0
core,1,retired,0
core,1,reads,0
core,1,writes,0
core,1,replies,0
core,1,read_latency,0
core,1,stop_end,20000
core,1,stop_width,0
core,1,stop_window,0
core,1,stop_memory,0
core,1,stop_credit,0
core,1,finish,17
channel,0,act,10
channel,0,rd,637
channel,0,wr,12
channel,0,pre,9
channel,0,prea,1
channel,0,ref,2
channel,0,hits,612
channel,0,queued,123456
channel,0,queued_max,31
channel,0,idle,4010
channel,0,refreshing,1999
channel,0,draining,250
";

// The first core and the channel, where it is not counted how long it drained its writes.
const ONE_CORE: &str = "scope,id,name,value
run,0,cycles,20000
core,0,issued,12350
core,0,retired,12345
core,0,reads,640
core,0,writes,12
core,0,replies,637
core,0,read_latency,45678
core,0,stop_end,0
core,0,stop_width,5000
core,0,stop_window,9000
core,0,stop_memory,1
core,0,stop_credit,5999
core,0,finish,
channel,0,act,10
channel,0,rd,637
channel,0,wr,12
channel,0,pre,9
channel,0,prea,1
channel,0,ref,2
channel,0,hits,612
channel,0,queued,123456
channel,0,queued_max,31
channel,0,idle,4010
channel,0,refreshing,1999
";

static CORES: [CoreStats; 2] = [
    CoreStats {
        issued: 12_350,
        retired: 12_345,
        reads: 640,
        writes: 12,
        replies: 637,
        read_latency: 45_678,
        stop_end: 0,
        stop_width: 5_000,
        stop_window: 9_000,
        stop_memory: 1,
        stop_credit: 5_999,
        finish: None,
    },
    CoreStats {
        stop_end: 20_000,
        finish: Some(17),
        ..NO_CORE
    },
];

const COUNTED: ChannelStats = ChannelStats {
    act: 10,
    rd: 637,
    wr: 12,
    pre: 9,
    prea: 1,
    refs: 2,
    hits: 612,
    queued: 123_456,
    queued_max: 31,
    idle: 4_010,
    refreshing: 1_999,
    draining: Some(250),
};

const UNDRAINED: ChannelStats = ChannelStats {
    draining: None,
    ..COUNTED
};

// A table, how many of the cores it has, and its channel.
static READ: [(&str, usize, ChannelStats); 2] = [(TWO_CORES, 2, COUNTED), (ONE_CORE, 1, UNDRAINED)];

#[test]
fn each_count(rt: HostRuntime) {
    for (table, cores, channel) in &READ {
        let stats = read_stats(rt.alloc(), table.as_bytes()).expect(&rt, "a table");
        expect_at(
            &rt,
            cores,
            &(
                stats.cycles,
                stats.cores.as_slice(),
                stats.channels.as_slice(),
            ),
            &(
                20_000,
                CORES.get(..*cores).unwrap_or(&[]),
                [*channel].as_slice(),
            ),
        );
    }
}
