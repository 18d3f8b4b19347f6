//! Parts of pages, worked out by hand: a picture's units are cycles and, in a timeline, pixels, with a lane 14 below
//! the one before it; a strip has 250 cycles.

use crate::expect::expect_at;
use crate::page_runs::{
    ACT, ALONE, BANK, ONE_READ, PRE, Parts, RD, SOURCE, Shown, WHOLE, assert_page, list_of,
    stats_of,
};
use fixtures::small::small;
use page::fault::PageFault;
use page::page::write_page;
use page::window::{Beside, RunCommands, View, Window};
use sim_base::command::{Command, IssuedCommand};
use sim_base::config::Config;
use sim_base::message::Cycle;
use sim_base::place::BankId;
use std::alloc::Global;
use std::process::Abort;

// The cycles of a run, what is shown of it, and what its page has and has not.
type Case = (Cycle, View, Parts<'static>);

// Asserts the page of a run with these commands.
fn assert_case(
    rt: &impl Abort,
    alloc: Global,
    rows: &[IssuedCommand],
    (cycles, view, parts): &Case,
    config: Option<&Config>,
) {
    let stats = stats_of(rt, alloc, *cycles);
    let shown = Shown {
        stats: &stats,
        rows,
        beside: Beside {
            config,
            requests: None,
        },
        view: *view,
    };
    assert_page(rt, alloc, &shown, *parts);
}

// 1,235 entries in 1,000 cycles, and in the 800 up to the finish; halves are rounded up. The RD takes four of the five
// cycles of the step from cycle 25 on, so the axis ends at 80 %.
const READ: Parts<'static> = (
    &[
        r#"<title>dramsim run</title>"#,
        r#"<b>1,000</b> cycles, <b>1</b> core, <b>1</b> channel, <b>3</b> commands"#,
        r#"<th scope="row">0</th><td>1</td><td>0</td><td>0.0</td><td>0.4</td><td>0.04</td><td>1</td><td>96.0</td><td>0.0</td><td>–</td></tr>"#,
        r#"<th scope="row">0</th><td>1,235</td><td>1.24</td><td>799</td><td>1.54</td><td>1</td><td>50.0</td><td>90.0</td><td>5.0</td><td>2.5</td><td>2.0</td><td>0.5</td></tr>"#,
        r#"<rect class="credit" x="0" width="5" height="1"><title>credit: 0.5 %</title></rect>"#,
        r#"<rect class="window" x="5" width="25" height="1">"#,
        r#"H25V0H30V800H35"#,
        r#"<path class="line hits" d="M25 10V10H30"/>"#,
        r#"<i class="lane" style="top:0px"><b>r0 g0 b0</b></i>"#,
        r#"<rect class="act" x="10" y="0" width="1" height="12"><title>ACT in cycle 10: rank 0, group 0, bank 0, row 7, core 0, entry 3</title></rect>"#,
        r#"<rect class="rd" x="26" y="0" width="1" height="12"><title>RD in cycle 26: rank 0, group 0, bank 0, row 7, column 5, core 0, entry 3</title></rect>"#,
        r#"<rect class="rd" x="26" y="14" width="4" height="12">"#,
        r#"<rect class="pre" x="60" y="0" width="1" height="12"><title>PRE in cycle 60: rank 0, group 0, bank 0, core 0, entry 3</title></rect>"#,
        r#"<rect class="band" x="10" y="0" width="50" height="12"><title>row 7 open, since cycle 10</title></rect>"#,
    ],
    &[r#"<script"#, r#"http"#, r#"REFs ×"#, r#"configuration""#],
);

// 100 cycles from 20 on; the row is open for 40 of them.
const OPEN: Parts<'static> = (
    &[
        r#"Timeline from cycle 20 to before 120"#,
        r#"viewBox="0 0 100 28""#,
        r#"<rect class="band" x="0" y="0" width="40" height="12"><title>row 7 open, since cycle 10</title>"#,
        r#"<rect class="rd" x="6" y="0" width="1" height="12">"#,
    ],
    &[r#"<rect class="act" x="#],
);

// A WR in cycle 248 has two cycles of data in its strip and two in the next.
static WRITE: [IssuedCommand; 1] = [IssuedCommand {
    cycle: 248,
    channel: 0,
    command: Command::Wr {
        bank: BANK,
        row: 7,
        column: 5,
        source: SOURCE,
    },
}];

const WRITTEN: Case = (
    1000,
    WHOLE,
    (
        &[
            r#"<rect class="wr" x="248" y="14" width="2" height="12">"#,
            r#"<rect class="wr" x="0" y="14" width="2" height="12">"#,
            r#"a REF has a box of one cycle unless the configuration is given, which says how many it takes (nRFC)."#,
            r#"drawn from its command's cycle on: the tables do not have the latency (nCL, nCWL) after which data move.</p>"#,
        ],
        &[],
    ),
);

// With a clock of 1,250 MHz a cycle takes 0.8 ns: 1,000 are 800 ns, the finish in cycle 799 is at 639.2 ns, and 50
// cycles of latency are 40 ns. One RD of 64 bytes in 800 ns is 0.08 GB/s.
const CLOCKED: &[&str] = &[
    r#"<b>1,000</b> cycles, <b>1</b> core, <b>1</b> channel, <b>3</b> commands, <b>800</b> ns with a clock of <b>1250</b> MHz</p>"#,
    r#"data rate<br>(GB/s)"#,
    r#"<td>0.08</td></tr>"#,
    r#"finish<br>(ns)"#,
    r#"<td>639.2</td><td>40.0</td></tr>"#,
];

const HUNDRED: View = View {
    window: Window {
        from: 0,
        cycles: 100,
    },
    khz: None,
};

// How many of the three commands of a read there are, and the page.
static CASES: [(usize, Case); 7] = [
    (3, (1000, WHOLE, READ)),
    (
        3,
        (
            1000,
            View {
                window: Window {
                    from: 20,
                    cycles: 100,
                },
                khz: None,
            },
            OPEN,
        ),
    ),
    (0, (0, WHOLE, (&["The run has no cycles."], &["<h2"]))),
    (
        0,
        (1000, WHOLE, (&["No command was issued."], &["Timeline"])),
    ),
    (
        3,
        (
            1000,
            View {
                window: Window {
                    from: 1000,
                    cycles: 10,
                },
                khz: None,
            },
            (
                &["The run has no cycle from 1,000 on in the window."],
                &["lane\""],
            ),
        ),
    ),
    (
        3,
        (
            1000,
            View {
                khz: Some(1_250_000),
                ..HUNDRED
            },
            (CLOCKED, &[]),
        ),
    ),
    (3, (1000, HUNDRED, (&[], CLOCKED))),
];

// The banks 0 and 2 of rank 0 are the first two lanes, whichever is used first, and that of rank 1 is the third. A REF
// of 350 cycles from cycle 240 on is in three strips. Bank 2 of rank 0 is open from cycle 10 to 50, the bank of rank 1
// to the end of the strip. One REF of 350 of 1,000 cycles.
const OF_RANKS: Case = (
    1000,
    WHOLE,
    (
        &[
            r#"<rect class="prea" x="50" y="0" width="1" height="12"><title>PREA in cycle 50: rank 0, all banks</title></rect>"#,
            r#"<rect class="prea" x="50" y="14" width="1" height="12">"#,
            r#"<rect class="band" x="10" y="14" width="40" height="12">"#,
            r#"<rect class="band" x="0" y="28" width="250" height="12">"#,
            r#"<rect class="ref" x="240" y="28" width="10" height="12"><title>REF in cycle 240: rank 1, all banks</title></rect>"#,
            r#"<rect class="ref" x="0" y="28" width="250" height="12">"#,
            r#"<rect class="ref" x="0" y="28" width="90" height="12">"#,
            r#"<td>–</td><td>35.0</td></tr>"#,
            r#"<li><b>nRFC</b> 350</li>"#,
            r#"<li><b>fields</b> channel column group bank row</li>"#,
            r#"<li><b>end</b> limit</li>"#,
            r#"a REF is drawn for the cycles that it takes by the configuration (nRFC)."#,
            r#"drawn from its command's cycle on, though its data move nCL (RD) or nCWL (WR) cycles later.</p>"#,
        ],
        &["r1 g0 b0"],
    ),
);

static RANKS: [IssuedCommand; 5] = [
    IssuedCommand {
        cycle: 0,
        channel: 0,
        command: Command::Act {
            bank: BankId {
                rank: 1,
                group: 0,
                bank: 1,
            },
            row: 1,
            source: SOURCE,
        },
    },
    IssuedCommand {
        cycle: 10,
        channel: 0,
        command: Command::Act {
            bank: BankId {
                rank: 0,
                group: 0,
                bank: 2,
            },
            row: 1,
            source: SOURCE,
        },
    },
    IssuedCommand {
        cycle: 20,
        channel: 0,
        command: Command::Act {
            bank: BankId {
                rank: 0,
                group: 0,
                bank: 0,
            },
            row: 1,
            source: SOURCE,
        },
    },
    IssuedCommand {
        cycle: 50,
        channel: 0,
        command: Command::Prea { rank: 0 },
    },
    IssuedCommand {
        cycle: 240,
        channel: 0,
        command: Command::Ref { rank: 1 },
    },
];

#[test]
fn pages_of_runs(rt: HostRuntime) {
    for (count, case) in &CASES {
        let rows = ONE_READ.get(..*count).unwrap_or(&ONE_READ);
        assert_case(&rt, rt.alloc(), rows, case, None);
    }
    assert_case(&rt, rt.alloc(), &WRITE, &WRITTEN, None);
    let config = small(rt.alloc(), &["nRFC = 350"], "").expect(&rt, "a machine");
    assert_case(&rt, rt.alloc(), &RANKS, &OF_RANKS, Some(&config));
}

// The commands of a read, but for a RD in a channel that the run does not have.
static OTHERS: [IssuedCommand; 3] = [ACT, IssuedCommand { channel: 1, ..RD }, PRE];

// Asserts how the writing of a page of a run of these cycles and commands ends, and that nothing of it is there where
// it is refused.
fn assert_ended(
    rt: &impl Abort,
    alloc: Global,
    cycles: Cycle,
    rows: &[IssuedCommand],
    want: Result<(), PageFault>,
) {
    let stats = stats_of(rt, alloc, cycles);
    let list = list_of(rt, alloc, rows);
    let run = RunCommands {
        stats: &stats,
        commands: &list,
    };
    let mut page = Vec::new(alloc);
    let ended = write_page(alloc, &run, ALONE, WHOLE, &mut page);
    let found = (page.is_empty(), ended);
    expect_at(rt, &cycles, &found, &(want.is_err(), want));
}

#[test]
fn a_command_of_another_run_is_refused(rt: HostRuntime) {
    let alloc = rt.alloc();
    assert_ended(&rt, alloc, 1000, &OTHERS, Err(PageFault::Command(1)));
    assert_ended(&rt, alloc, 60, &ONE_READ, Err(PageFault::Command(2)));
    assert_ended(&rt, alloc, 61, &ONE_READ, Ok(()));
    let text = PageFault::Command(1).to_string(alloc).expect(&rt, "memory");
    expect_at(&rt, &1, &text.as_str(), &"command 1 is none of the run");
}
