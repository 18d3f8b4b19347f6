//! Statistics of a channel.

ghost use Rattle.std.specs.Option.{ForSome};
ghost use Rattle.std.specs.Prelude.{◌≡◌, ◌*◌, ◌^◌, ◌<◌, map, option_map};
ghost use Rattle.statistics.specs.Channels.{channel_counters};
ghost use Rattle.statistics.specs.Counters.{counter_of};
ghost use Rattle.statistics.specs.Counts.{sum_of_counts};

use crate::counters::Counter;
use crate::numbers::{count, narrow, sum, wide};
use sim_base::command::Kind;

/// What a channel did in some cycles: counts of commands and of cycles.
#[derive(Clone, Copy, PartialEq, Eq, Debug, Default)]
pub struct ChannelStats {
    /// ACTs that the channel issued.
    pub act: u64,
    /// RDs that it issued.
    pub rd: u64,
    /// WRs that it issued.
    pub wr: u64,
    /// PREs that it issued.
    pub pre: u64,
    /// PREAs that it issued.
    pub prea: u64,
    /// REFs that it issued.
    pub refs: u64,
    /// RDs and WRs for requests that no ACT was issued for.
    pub hits: u64,
    /// Requests in the queue, summed over the cycles.
    pub queued: u128,
    /// The greatest length of the queue in a cycle; 0 in no cycle.
    pub queued_max: u64,
    /// Cycles in which the queue was empty.
    pub idle: u64,
    /// Cycles in which a refresh of some rank was due.
    pub refreshing: u64,
    /// Cycles in which the channel drained its writes; there is no such count where it never does.
    pub draining: Option<u64>,
}

/// The sum of two counts; where one of them is not there, the other.
fn sum_of(a: Option<u64>, b: Option<u64>) -> Option<u64>
    requires { ForSome (sum_of_counts a b) (λ count. count < 2 ^ 64) }
    ensures { result ≡ sum_of_counts a b }
{
    match (a, b) {
        (Some(a), Some(b)) => Some(a + b),
        (Some(a), None) => Some(a),
        (None, b) => b,
    }
}

fn product_of(cycles: u64, count: Option<u64>) -> Option<u64>
    requires { ForSome (option_map (λ n. cycles * n) count) (λ n. n < 2 ^ 64) }
    ensures { result ≡ option_map (λ n. cycles * n) count }
{
    match count {
        Some(n) => Some(cycles * n),
        None => None,
    }
}

/// How many counters a channel has; the count of draining, which it may lack, is none of them.
pub const COUNTERS: usize = 11;

/// The counters of a channel, in the order of its rows.
pub fn counters() -> [Counter; COUNTERS]
    ensures { map counter_of result ≡ channel_counters }
{
    [
        count(b"act"),
        count(b"rd"),
        count(b"wr"),
        count(b"pre"),
        count(b"prea"),
        count(b"ref"),
        count(b"hits"),
        sum(b"queued"),
        count(b"queued_max"),
        count(b"idle"),
        count(b"refreshing"),
    ]
}

impl ChannelStats {
    ghost use Rattle.std.specs.Prelude.{◌≡◌, ◌<◌};
    ghost use Rattle.statistics.specs.Channels.{channel_none, channel_joined, channel_times, cycle_without_command, one_command, ChannelFits, channel_counters, channel_numbers, channel_of};
    ghost use Rattle.statistics.specs.Counters.{AreNumbersOf};

    /// The statistics of no cycle.
    pub fn new() -> Self
        ensures { result ≡ channel_none }
    {
        Self::default()
    }

    /// The statistics of these cycles and of those that follow them: each count is the sum of both, and the greatest
    /// length of the queue the greater of both.
    pub fn joined(self, more: ChannelStats) -> ChannelStats
        requires { ChannelFits (channel_joined self more) }
        ensures { result ≡ channel_joined self more }
    {
        ChannelStats {
            act: self.act + more.act,
            rd: self.rd + more.rd,
            wr: self.wr + more.wr,
            pre: self.pre + more.pre,
            prea: self.prea + more.prea,
            refs: self.refs + more.refs,
            hits: self.hits + more.hits,
            queued: self.queued + more.queued,
            queued_max: self.queued_max.max(more.queued_max),
            idle: self.idle + more.idle,
            refreshing: self.refreshing + more.refreshing,
            draining: sum_of(self.draining, more.draining),
        }
    }

    /// The statistics of `cycles` cycles, each with these statistics.
    pub fn times(self, cycles: u64) -> ChannelStats
        requires { ChannelFits (channel_times cycles self) }
        ensures { result ≡ channel_times cycles self }
    {
        ChannelStats {
            act: cycles * self.act,
            rd: cycles * self.rd,
            wr: cycles * self.wr,
            pre: cycles * self.pre,
            prea: cycles * self.prea,
            refs: cycles * self.refs,
            hits: cycles * self.hits,
            queued: u128::from(cycles) * self.queued,
            queued_max: if cycles == 0 { 0 } else { self.queued_max },
            idle: cycles * self.idle,
            refreshing: cycles * self.refreshing,
            draining: if cycles == 0 {
                None
            } else {
                product_of(cycles, self.draining)
            },
        }
    }

    /// Adds `cycles` cycles, in each of which the queue has this length, a refresh is due or not, the channel drains
    /// its writes or not, and nothing is issued.
    #[inline(always)]
    pub fn add_cycles(&mut self, cycles: u64, queued: usize, refreshing: bool, draining: bool)
        requires some { 0 < cycles }
        requires fits { ChannelFits (channel_joined self.old (channel_times cycles
            (cycle_without_command self.old.draining queued refreshing draining))) }
        ensures { self.new ≡ channel_joined self.old (channel_times cycles
            (cycle_without_command self.old.draining queued refreshing draining)) }
    {
        self.queued += u128::from(cycles) * queued as u128;
        if self.queued_max < queued as u64 {
            self.queued_max = queued as u64;
        }
        if queued == 0 {
            self.idle += cycles;
        }
        if refreshing {
            self.refreshing += cycles;
        }
        if draining {
            if let Some(count) = &mut self.draining {
                *count += cycles;
            }
        }
    }

    /// Adds a command of this kind, and a row hit if it is one. Its cycle is counted separately.
    #[inline(always)]
    pub fn add_command(&mut self, kind: Kind, hit: bool)
        requires { ChannelFits (channel_joined self.old (one_command kind hit)) }
        ensures { self.new ≡ channel_joined self.old (one_command kind hit) }
    {
        match kind {
            Kind::Act => self.act += 1,
            Kind::Rd => self.rd += 1,
            Kind::Wr => self.wr += 1,
            Kind::Pre => self.pre += 1,
            Kind::Prea => self.prea += 1,
            Kind::Ref => self.refs += 1,
        }
        if hit {
            self.hits += 1;
        }
    }

    /// The numbers of these statistics, in the order of `counters`.
    pub fn numbers(&self) -> [Option<u128>; COUNTERS]
        ensures { result ≡ channel_numbers self.now }
    {
        [
            wide(self.act),
            wide(self.rd),
            wide(self.wr),
            wide(self.pre),
            wide(self.prea),
            wide(self.refs),
            wide(self.hits),
            Some(self.queued),
            wide(self.queued_max),
            wide(self.idle),
            wide(self.refreshing),
        ]
    }

    /// The statistics that have these numbers, in the order of `counters`, and this count of draining, if they have one.
    pub fn of_numbers(numbers: &[Option<u128>; COUNTERS], draining: Option<u64>) -> ChannelStats
        requires { AreNumbersOf channel_counters numbers.now }
        ensures { result ≡ channel_of numbers.now draining }
    {
        ChannelStats {
            act: narrow(numbers[0]),
            rd: narrow(numbers[1]),
            wr: narrow(numbers[2]),
            pre: narrow(numbers[3]),
            prea: narrow(numbers[4]),
            refs: narrow(numbers[5]),
            hits: narrow(numbers[6]),
            queued: numbers[7].unwrap_or(0),
            queued_max: narrow(numbers[8]),
            idle: narrow(numbers[9]),
            refreshing: narrow(numbers[10]),
            draining,
        }
    }
}
