//! The line that tells how far a run is: its texts, and when it is drawn, worked out by hand.

use crate::expect::expect_at;
use progress::figures::Figures;
use progress::line::line_of;
use progress::pace::next_interval;
use progress::watcher::ProgressLine;
use sim_base::message::Cycle;
use simulation::watch::{Stage, Watch};
use std::alloc::Global;
use std::cell::Cell;
use std::io;
use std::io::ErrorKind;
use std::process::Abort;
use std::rt::Clock;
use std::time::Duration;

/// Figures, and the text that tells them.
static TEXTS: [(Figures, &str); 4] = [
    (
        Figures {
            cycles: 4_200_000,
            percent: Some(37),
            rate: Some(1_234_567),
            left: Some(12),
        },
        "4,200,000 cycles, 37 % of the traces, 1.2 M cycles/s, 0:12 left",
    ),
    (
        Figures {
            cycles: 999,
            percent: None,
            rate: Some(999),
            left: None,
        },
        "999 cycles, 999 cycles/s",
    ),
    // A trillion cycles, and the longest text of a day.
    (
        Figures {
            cycles: 1_000_000_000_000,
            percent: Some(100),
            rate: Some(12_390),
            left: Some(86_399),
        },
        "1,000,000,000,000 cycles, 100 % of the traces, 12.3 k cycles/s, 23:59:59 left",
    ),
    (
        Figures {
            cycles: 1_002_030,
            percent: Some(0),
            rate: Some(45_678_000_000),
            left: Some(3_605),
        },
        "1,002,030 cycles, 0 % of the traces, 45.6 G cycles/s, 1:00:05 left",
    ),
];

#[test]
fn figures_are_told(rt: HostRuntime) {
    for (figures, text) in &TEXTS {
        let found = figures.to_string(rt.alloc()).expect(&rt, "memory");
        expect_at(&rt, figures, &found.as_str(), text);
    }
}

/// A stage of a run, the milliseconds up to it, and its figures. A quarter of the limit is done in 4 seconds, so 12
/// more are left; a third of the entries has retired, so 8 are left where the run ends drained. Before its first cycle
/// nothing is known of a run without entries.
static STAGES: [(Stage, u64, Figures); 3] = [
    (QUARTER, 4_000, THIRD),
    (
        Stage {
            ends_drained: true,
            ..QUARTER
        },
        4_000,
        Figures {
            left: Some(8),
            ..THIRD
        },
    ),
    (
        Stage {
            now: 0,
            limit: 100,
            ends_drained: true,
            retired: Some(0),
            entries: 0,
        },
        0,
        Figures {
            cycles: 0,
            percent: None,
            rate: None,
            left: None,
        },
    ),
];

const QUARTER: Stage = Stage {
    now: 1_000_000,
    limit: 4_000_000,
    ends_drained: false,
    retired: Some(200),
    entries: 600,
};

const THIRD: Figures = Figures {
    cycles: 1_000_000,
    percent: Some(33),
    rate: Some(250_000),
    left: Some(12),
};

/// How many cycles, in how many milliseconds, and how many come next.
static INTERVALS: [(Cycle, u64, Cycle); 7] = [
    (2_000, 49, 4_000),
    (2_000, 50, 2_000),
    (2_000, 200, 2_000),
    (2_000, 201, 1_000),
    (1, 300, 1),
    (0, 100, 1),
    (Cycle::MAX, 0, Cycle::MAX),
];

#[test]
fn figures_and_intervals(rt: HostRuntime) {
    for (stage, millis, want) in &STAGES {
        let found = Figures::of(*stage, Duration::from_millis(*millis));
        expect_at(&rt, stage, &found, want);
    }
    for (interval, millis, next) in &INTERVALS {
        let found = next_interval(*interval, Duration::from_millis(*millis));
        expect_at(&rt, &(interval, millis), &found, next);
    }
}

/// A clock that shows these times, in milliseconds, one after the other, and then fails.
#[derive(Drop)]
struct Shown<'a> {
    times: &'a [u64],
    next: Cell<usize>,
}

impl<'a> Clock for Shown<'a> {
    fn monotonic(&self) -> io::Result<Duration> {
        let next = self.next.get();
        match self.times.get(next) {
            Some(millis) => {
                self.next.set(next.saturating_add(1));
                Ok(Duration::from_millis(*millis))
            }
            None => Err(io::Error::from(ErrorKind::Unsupported)),
        }
    }

    fn since_1970(&self) -> io::Result<Duration> {
        self.monotonic()
    }
}

/// A run that has gone on for `now` cycles of a million.
fn stage_at(now: Cycle) -> Stage {
    Stage {
        now,
        limit: 1_000_000,
        ends_drained: false,
        retired: Some(0),
        entries: 1,
    }
}

/// What is drawn of a run that is looked at in each of these cycles, by a clock that shows these times, and how far it
/// goes each time.
fn drawn(rt: &impl Abort, alloc: Global, times: &[u64], cycles: &[Cycle]) -> (Vec<u8>, Vec<Cycle>) {
    let clock = Shown {
        times,
        next: Cell::new(0),
    };
    let mut intervals = Vec::new(alloc);
    let mut lines = Vec::new(alloc);
    let mut watch = ProgressLine::new(alloc, &clock, &mut lines, true);
    for now in cycles {
        let interval = watch.next_interval(&stage_at(*now));
        intervals.push(interval).expect(rt, "memory");
    }
    watch.end();
    drop(watch);
    (lines, intervals)
}

/// The lines of these texts, and a carriage return; nothing where there are none.
fn lines_of(rt: &impl Abort, alloc: Global, texts: &[&str]) -> Vec<u8> {
    let mut lines = Vec::new(alloc);
    for text in texts {
        let line = line_of(alloc, text).expect(rt, "memory");
        lines
            .extend_from_slice(line.as_bytes())
            .expect(rt, "memory");
    }
    if !texts.is_empty() {
        lines.push(b'\r').expect(rt, "memory");
    }
    lines
}

/// The times that a clock shows, the cycles in which a run is looked at, the texts that are drawn of it, if any is, and
/// the intervals.
///
/// The first run is looked at when it begins, and after 900, 1,000, 1,499 and 1,500 ms. It is drawn the third and the
/// fifth time, and then cleared. The interval of 900 ms is cut in half; those of 100 and 499 ms are kept and cut, and
/// that of 1 ms is doubled. A run that ends before a second is over leaves nothing, and neither does one whose clock
/// fails.
static DRAWN: [(&[u64], &[Cycle], &[&str], &[Cycle]); 3] = [
    (
        &[5_000, 5_900, 6_000, 6_499, 6_500],
        &[0, 100_000, 200_000, 250_000, 300_000],
        &[
            "200,000 cycles, 0 % of the traces, 200.0 k cycles/s, 0:04 left",
            "300,000 cycles, 0 % of the traces, 200.0 k cycles/s, 0:03 left",
            "",
        ],
        &[2_000, 1_000, 1_000, 500, 1_000],
    ),
    (&[0, 999], &[0, 100], &[], &[2_000, 1_000]),
    (&[], &[0, 100], &[], &[Cycle::MAX, Cycle::MAX]),
];

#[test]
fn the_line_is_drawn_twice_a_second(rt: HostRuntime) {
    for (times, cycles, texts, intervals) in &DRAWN {
        let found = drawn(&rt, rt.alloc(), times, cycles);
        let lines = lines_of(&rt, rt.alloc(), texts);
        expect_at(&rt, times, &found.0, &lines);
        expect_at(&rt, times, &found.1.as_slice(), intervals);
    }
}

/// A text is filled with spaces, or cut, to 79 characters.
#[test]
fn a_line_has_79_characters(rt: HostRuntime) {
    let long = "0123456789".repeat(rt.alloc(), 8).expect(&rt, "memory");
    for text in ["", "12 cycles", long.as_str()] {
        let line = line_of(rt.alloc(), text).expect(&rt, "memory");
        let shown = text.get(..79).unwrap_or(text);
        let trimmed = line.as_str().trim_end_matches(' ');
        expect_at(
            &rt,
            &text,
            &(line.len(), trimmed.strip_prefix('\r')),
            &(80, Some(shown)),
        );
    }
}
