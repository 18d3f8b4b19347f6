//! Small runs for tests, and their pages.

use crate::expect::{expect_at, expect_parts};
use command_table::list::CommandList;
use fixtures::none::{NO_CHANNEL, NO_CORE};
use page::fault::PageFault;
use page::page::write_page;
use page::window::{Beside, RunCommands, View, Window};
use sim_base::command::{Command, IssuedCommand, Source};
use sim_base::message::Cycle;
use sim_base::place::BankId;
use statistics::channels::ChannelStats;
use statistics::cores::CoreStats;
use statistics::stats::Stats;
use std::alloc::Global;
use std::process::Abort;

/// Nothing is known of a run beside its statistics and its commands.
pub(crate) const ALONE: Beside<'static> = Beside {
    config: None,
    requests: None,
};

/// A window of a thousand cycles, without a clock.
pub(crate) const WHOLE: View = View {
    window: Window {
        from: 0,
        cycles: 1000,
    },
    khz: None,
};

/// Bank 0 of rank 0.
pub(crate) const BANK: BankId = BankId {
    rank: 0,
    group: 0,
    bank: 0,
};

/// The request of core 0 that a test's commands are issued for.
pub(crate) const SOURCE: Source = Source { core: 0, entry: 3 };

/// ACT of row 7 in cycle 10, RD of column 5 in cycle 26 and PRE in cycle 60.
pub(crate) const ACT: IssuedCommand = IssuedCommand {
    cycle: 10,
    channel: 0,
    command: Command::Act {
        bank: BANK,
        row: 7,
        source: SOURCE,
    },
};

pub(crate) const RD: IssuedCommand = IssuedCommand {
    cycle: 26,
    channel: 0,
    command: Command::Rd {
        bank: BANK,
        row: 7,
        column: 5,
        source: SOURCE,
    },
};

pub(crate) const PRE: IssuedCommand = IssuedCommand {
    cycle: 60,
    channel: 0,
    command: Command::Pre {
        bank: BANK,
        source: SOURCE,
    },
};

/// The three of them.
pub(crate) static ONE_READ: [IssuedCommand; 3] = [ACT, RD, PRE];

static CORE: [CoreStats; 1] = [CoreStats {
    retired: 1235,
    reads: 1,
    replies: 1,
    read_latency: 50,
    stop_end: 900,
    stop_width: 50,
    stop_window: 25,
    stop_memory: 20,
    stop_credit: 5,
    finish: Some(799),
    ..NO_CORE
}];

static CHANNEL: [ChannelStats; 1] = [ChannelStats {
    act: 1,
    rd: 1,
    pre: 1,
    refs: 1,
    queued: 40,
    queued_max: 1,
    idle: 960,
    ..NO_CHANNEL
}];

/// The statistics of a run of one core and one channel over `cycles` cycles, with a refresh.
pub(crate) fn stats_of(rt: &impl Abort, alloc: Global, cycles: Cycle) -> Stats {
    Stats::of_parts(alloc, cycles, &CORE, &CHANNEL).expect(rt, "memory")
}

/// A list of commands.
pub(crate) fn list_of(rt: &impl Abort, alloc: Global, rows: &[IssuedCommand]) -> CommandList {
    let mut list = CommandList::new(alloc);
    for row in rows {
        list.push(*row).expect(rt, "memory");
    }
    list
}

/// A run, its commands, and what is shown of it.
#[derive(Clone, Copy)]
pub(crate) struct Shown<'a> {
    pub(crate) stats: &'a Stats,
    pub(crate) rows: &'a [IssuedCommand],
    pub(crate) beside: Beside<'a>,
    pub(crate) view: View,
}

// The page of a run, and how the call ended.
fn page_of(rt: &impl Abort, alloc: Global, shown: &Shown<'_>) -> (Vec<u8>, Result<(), PageFault>) {
    let list = list_of(rt, alloc, shown.rows);
    let run = RunCommands {
        stats: shown.stats,
        commands: &list,
    };
    let mut page = Vec::new(alloc);
    let ended = write_page(alloc, &run, shown.beside, shown.view, &mut page);
    (page, ended)
}

/// Parts that a page has, and others that it has not.
pub(crate) type Parts<'x> = (&'x [&'x str], &'x [&'x str]);

/// Asserts what the page of a run has.
pub(crate) fn assert_page(
    rt: &impl Abort,
    alloc: Global,
    shown: &Shown<'_>,
    (present, absent): Parts<'_>,
) {
    let (page, ended) = page_of(rt, alloc, shown);
    let page = str::from_utf8(page.as_slice()).unwrap_or("no text");
    expect_at(
        rt,
        &(),
        &(ended, page.ends_with("</html>\n")),
        &(Ok(()), true),
    );
    expect_parts(rt, page, present, true);
    expect_parts(rt, page, absent, false);
}
