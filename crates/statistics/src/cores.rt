//! Statistics of a core.

ghost use Rattle.std.specs.Prelude.{◌≡◌, map};
ghost use Rattle.statistics.specs.Cores.{core_counters};
ghost use Rattle.statistics.specs.Counters.{counter_of};

use crate::counters::Counter;
use crate::numbers::{count, cycle, narrow, narrow_cycle, sum, wide, wide_cycle};
use sim_base::message::Cycle;

/// What a core did in some cycles: counts of entries, of replies and of cycles.
#[derive(Clone, Copy, PartialEq, Eq, Debug, Default)]
pub struct CoreStats {
    /// Entries that the core issued.
    pub issued: u64,
    /// Entries that it retired.
    pub retired: u64,
    /// Reads that it issued.
    pub reads: u64,
    /// Writes that it issued.
    pub writes: u64,
    /// Replies that arrived.
    pub replies: u64,
    /// Cycles from the issue of a read to the arrival of its reply, summed over those replies.
    pub read_latency: u128,
    /// Cycles in which it stopped issuing because no entry was left.
    pub stop_end: u64,
    /// Cycles in which it stopped after as many entries as it may issue in a cycle.
    pub stop_width: u64,
    /// Cycles in which it stopped because its window was full.
    pub stop_window: u64,
    /// Cycles in which it stopped before a second memory entry.
    pub stop_memory: u64,
    /// Cycles in which it stopped for want of a credit.
    pub stop_credit: u64,
    /// The cycle in which the last entry of its trace retired, if it is one of these cycles.
    pub finish: Option<Cycle>,
}

/// How many counters a core has.
pub const COUNTERS: usize = 12;

/// The counters of a core, in the order of its rows.
pub fn counters() -> [Counter; COUNTERS]
    ensures { map counter_of result ≡ core_counters }
{
    [
        count(b"issued"),
        count(b"retired"),
        count(b"reads"),
        count(b"writes"),
        count(b"replies"),
        sum(b"read_latency"),
        count(b"stop_end"),
        count(b"stop_width"),
        count(b"stop_window"),
        count(b"stop_memory"),
        count(b"stop_credit"),
        cycle(b"finish"),
    ]
}

impl CoreStats {
    ghost use Rattle.std.specs.Prelude.{◌≡◌};
    ghost use Rattle.statistics.specs.Cores.{core_none, core_joined, core_times, CoreFits, core_counters, core_numbers, core_of};
    ghost use Rattle.statistics.specs.Counters.{AreNumbersOf};

    /// The statistics of no cycle.
    pub fn new() -> Self
        ensures { result ≡ core_none }
    {
        Self::default()
    }

    /// The statistics of these cycles and of those that follow them: each count is the sum of both, and the finish is
    /// the last that is there.
    pub fn joined(self, more: CoreStats) -> CoreStats
        requires { CoreFits (core_joined self more) }
        ensures { result ≡ core_joined self more }
    {
        CoreStats {
            issued: self.issued + more.issued,
            retired: self.retired + more.retired,
            reads: self.reads + more.reads,
            writes: self.writes + more.writes,
            replies: self.replies + more.replies,
            read_latency: self.read_latency + more.read_latency,
            stop_end: self.stop_end + more.stop_end,
            stop_width: self.stop_width + more.stop_width,
            stop_window: self.stop_window + more.stop_window,
            stop_memory: self.stop_memory + more.stop_memory,
            stop_credit: self.stop_credit + more.stop_credit,
            finish: more.finish.or(self.finish),
        }
    }

    /// The statistics of `cycles` cycles, each with these statistics.
    pub fn times(self, cycles: u64) -> CoreStats
        requires { CoreFits (core_times cycles self) }
        ensures { result ≡ core_times cycles self }
    {
        CoreStats {
            issued: cycles * self.issued,
            retired: cycles * self.retired,
            reads: cycles * self.reads,
            writes: cycles * self.writes,
            replies: cycles * self.replies,
            read_latency: u128::from(cycles) * self.read_latency,
            stop_end: cycles * self.stop_end,
            stop_width: cycles * self.stop_width,
            stop_window: cycles * self.stop_window,
            stop_memory: cycles * self.stop_memory,
            stop_credit: cycles * self.stop_credit,
            finish: if cycles == 0 { None } else { self.finish },
        }
    }

    /// The numbers of these statistics, in the order of `counters`.
    pub fn numbers(&self) -> [Option<u128>; COUNTERS]
        ensures { result ≡ core_numbers self.now }
    {
        [
            wide(self.issued),
            wide(self.retired),
            wide(self.reads),
            wide(self.writes),
            wide(self.replies),
            Some(self.read_latency),
            wide(self.stop_end),
            wide(self.stop_width),
            wide(self.stop_window),
            wide(self.stop_memory),
            wide(self.stop_credit),
            wide_cycle(self.finish),
        ]
    }

    /// The statistics that have these numbers, in the order of `counters`.
    pub fn of_numbers(numbers: &[Option<u128>; COUNTERS]) -> CoreStats
        requires { AreNumbersOf core_counters numbers.now }
        ensures { result ≡ core_of numbers.now }
    {
        CoreStats {
            issued: narrow(numbers[0]),
            retired: narrow(numbers[1]),
            reads: narrow(numbers[2]),
            writes: narrow(numbers[3]),
            replies: narrow(numbers[4]),
            read_latency: numbers[5].unwrap_or(0),
            stop_end: narrow(numbers[6]),
            stop_width: narrow(numbers[7]),
            stop_window: narrow(numbers[8]),
            stop_memory: narrow(numbers[9]),
            stop_credit: narrow(numbers[10]),
            finish: narrow_cycle(numbers[11]),
        }
    }
}
