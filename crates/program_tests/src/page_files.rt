//! Pages of a run, through the whole program over files in memory.

use crate::expect::expect_at;
use crate::files_in_memory::{Failure, files_with};
use crate::program_runs::{assert_text, said_to};
use fixtures::one_read::STATS;
use std::process::Abort;
use std::sync::Wait;
use std::thread::Threads;

const OLD: &str = "an earlier page\n";

// An ACT in cycle 2 and an RD in cycle 5, of a run of 16 cycles.
const COMMANDS: &str = "cycle,channel,command,group,bank,row,column,core,entry
2,0,ACT,0,0,0,,0,0
5,0,RD,0,0,0,0,0,0
";

const NO_HEADER: &str = "2,0,ACT,0,0,0,,0,0\n5,0,RD,0,0,0,0,0,0\n";

// The commands of the run, and one behind its end.
const LATE: &str = "cycle,channel,command,group,bank,row,column,core,entry
2,0,ACT,0,0,0,,0,0
5,0,RD,0,0,0,0,0,0
16,0,PREA,,,,,,
";

// A folder for each case: a run; one whose statistics are cut; one whose commands have no header; one with a command
// behind its end.
static FILES: [(&str, &str); 9] = [
    ("out/stats.csv", STATS),
    ("out/commands.csv", COMMANDS),
    ("cut/stats.csv", "scope,id,name,value\n"),
    ("cut/commands.csv", COMMANDS),
    ("bad/stats.csv", STATS),
    ("bad/commands.csv", NO_HEADER),
    ("late/stats.csv", STATS),
    ("late/commands.csv", LATE),
    ("p.html", OLD),
];

const WRITE: &str = "fault 12: write\n";

// Words, what goes wrong with a file, what is told of errors, what is opened, and parts of the page, on a line each;
// where it is refused, the whole of what stands in its place, and nothing beside it.
type Case = (
    &'static str,
    (Failure, &'static str),
    &'static str,
    &'static str,
    &'static str,
);

static CASES: [Case; 13] = [
    (
        "dramsim page out p.html",
        (Failure::None, ""),
        "",
        "p.html.part ",
        "<!DOCTYPE html>\n<b>16</b> cycles, <b>1</b> core, <b>1</b> channel, <b>2</b> commands\nTimeline from cycle 0 to before 16\n</html>",
    ),
    (
        "dramsim page out p.html --mhz 1250",
        (Failure::None, ""),
        "",
        "p.html.part ",
        "<b>2</b> commands, <b>13</b> ns with a clock of <b>1250</b> MHz",
    ),
    (
        "dramsim page out p.html --from 4 --cycles 3",
        (Failure::None, ""),
        "",
        "p.html.part ",
        "Timeline from cycle 4 to before 7",
    ),
    (
        "dramsim page --from 99 out p.html",
        (Failure::None, ""),
        "",
        "p.html.part ",
        "The run has no cycle from 99 on in the window.",
    ),
    (
        "dramsim page none p.html",
        (Failure::None, ""),
        "fault 13: read\n",
        "",
        OLD,
    ),
    (
        "dramsim page cut p.html",
        (Failure::None, ""),
        "fault 15: check row 1\ncut/stats.csv: row 1 is missing\n",
        "",
        OLD,
    ),
    (
        "dramsim page bad p.html",
        (Failure::None, ""),
        "fault 15: check row 0\nbad/commands.csv: row 0: 2,0,ACT,0,0,0,,0,0\nthe header must be cycle,channel,command,group,bank,row,column,core,entry, with rank before group where a channel has several ranks\n",
        "",
        OLD,
    ),
    (
        "dramsim page late p.html",
        (Failure::None, ""),
        "fault 15: check row 3\nlate/commands.csv: row 3 is none of the run: that has the cycles below 16 and the channels below 1\n",
        "",
        OLD,
    ),
    (
        "dramsim page out p.html",
        (Failure::Opening, "p.html.part"),
        WRITE,
        "p.html.part ",
        OLD,
    ),
    (
        "dramsim page out p.html",
        (Failure::Writing, "p.html.part"),
        WRITE,
        "p.html.part ",
        OLD,
    ),
    (
        "dramsim page out p.html",
        (Failure::Closing, "p.html.part"),
        WRITE,
        "p.html.part ",
        OLD,
    ),
    (
        "dramsim page out p.html",
        (Failure::Placing, "p.html"),
        WRITE,
        "p.html.part ",
        OLD,
    ),
    (
        "dramsim page out p.html",
        (Failure::Renaming, "p.html"),
        WRITE,
        "p.html.part ",
        OLD,
    ),
];

// Asserts that a text has each of these lines in it.
fn assert_has(rt: &impl Abort, words: &str, text: &str, parts: &str) {
    for part in parts.lines() {
        expect_at(rt, &(words, part), &text.contains(part), &true);
    }
}

// Asserts that a page is drawn, or refused, so that what stood in its place stands there alone.
fn assert_page<R: Abort + Threads + Wait + Sync + AllocGlobal>(
    rt: &R,
    (words, failing, told, opened, parts): &Case,
) {
    let mut files = files_with(rt, rt.alloc(), &FILES);
    files.failing = *failing;
    let said = said_to(rt, &mut files, words);
    said.assert_is(rt, words, (if told.is_empty() { 0 } else { 2 }, "", told));
    assert_text(rt, words, files.opened.as_str(), opened);
    let page = files.text_at("p.html").unwrap_or("");
    assert_has(rt, words, page, parts);
    let is_old = page == OLD;
    let beside = files.text_at("p.html.part");
    expect_at(rt, words, &(is_old, beside), &(!told.is_empty(), None));
}

#[test]
fn draws_a_run_or_keeps_an_earlier_page(rt: HostRuntime) {
    for case in &CASES {
        assert_page(&rt, case);
    }
}
