//! Words of each command, calls for help, and words that form no command.

use crate::program_runs::assert_text;
use command_line::words::read_words;
use std::alloc::Global;
use std::process::Abort;

// A line of words, and the whole text or the beginning of what it asks for, as `Debug` prints it; or the fault by which
// it is refused.
type Case = (&'static str, &'static str);

const REFUSED: &str = "fault 14: command line";

static LINES: [Case; 30] = [
    (
        "dramsim run c.toml --cycles 16 --workers 2 --out tables t0 t1",
        "Run(RunArguments { config: \"c.toml\", cycles: 16, workers: 2, share: Auto, tables: Tables { commands: true, stats: true, last: true, requests: false }, out: \"tables\", traces: [\"t0\", \"t1\"] })",
    ),
    (
        "dramsim run c.toml --cycles 16 --workers 2 --share always --out tables t0 t1",
        "Run(RunArguments { config: \"c.toml\", cycles: 16, workers: 2, share: Always, tables: Tables { commands: true, stats: true, last: true, requests: false }, out: \"tables\", traces: [\"t0\", \"t1\"] })",
    ),
    (
        "dramsim run c.toml --cycles 16 --workers 2 --tables requests,stats --out tables t0 t1",
        "Run(RunArguments { config: \"c.toml\", cycles: 16, workers: 2, share: Auto, tables: Tables { commands: false, stats: true, last: false, requests: true }, out: \"tables\", traces: [\"t0\", \"t1\"] })",
    ),
    (
        "dramsim check c.toml commands.csv",
        "Check { config: \"c.toml\", commands: \"commands.csv\" }",
    ),
    (
        "dramsim map c.toml 0x2000",
        "Map { config: \"c.toml\", address: 8192 }",
    ),
    (
        "dramsim show tables",
        "Show(ShowArguments { dir: \"tables\", all: false, config: None, khz: None })",
    ),
    (
        "dramsim show --all tables",
        "Show(ShowArguments { dir: \"tables\", all: true, config: None, khz: None })",
    ),
    (
        "dramsim show tables --config c.toml",
        "Show(ShowArguments { dir: \"tables\", all: false, config: Some(\"c.toml\"), khz: None })",
    ),
    (
        "dramsim show tables --mhz 1333.33",
        "Show(ShowArguments { dir: \"tables\", all: false, config: None, khz: Some(1333330) })",
    ),
    (
        "dramsim show --banks tables --mhz 1200",
        "ShowBanks(ShowArguments { dir: \"tables\", all: false, config: None, khz: Some(1200000) })",
    ),
    (
        "dramsim page tables run.html",
        "Page(PageArguments { dir: \"tables\", file: \"run.html\", config: None, khz: None, from: 0, cycles: 2000 })",
    ),
    (
        "dramsim page tables run.html --cycles 40 --from 7",
        "Page(PageArguments { dir: \"tables\", file: \"run.html\", config: None, khz: None, from: 7, cycles: 40 })",
    ),
    (
        "dramsim page tables run.html --mhz 1200",
        "Page(PageArguments { dir: \"tables\", file: \"run.html\", config: None, khz: Some(1200000), from: 0, cycles: 2000 })",
    ),
    (
        "dramsim compare tables --csv others",
        "Compare { dirs: [\"tables\", \"others\"], csv: true }",
    ),
    ("dramsim --help", "Help(\"Simulates"),
    ("dramsim help run", "Help(\"Simulates"),
    ("dramsim --version", "Version(\"dramsim 1.0.0\\n\")"),
    ("dramsim -V", "Version(\"dramsim 1.0.0\\n\")"),
    // No command, no folder, and no trace.
    ("dramsim", REFUSED),
    ("dramsim show --all", REFUSED),
    (
        "dramsim run c.toml --cycles 16 --workers 2 --out tables",
        REFUSED,
    ),
    // A word for a cycle.
    ("dramsim page tables run.html --from one", REFUSED),
    // Clocks with two points, with four places, of no hertz, of a million MHz, with a unit, and of a word.
    ("dramsim show tables --mhz 1.3.3", REFUSED),
    ("dramsim show tables --mhz 1.3333", REFUSED),
    ("dramsim show tables --mhz 0.000", REFUSED),
    ("dramsim show tables --mhz 1000000", REFUSED),
    ("dramsim show tables --mhz 1200M", REFUSED),
    ("dramsim page tables run.html --mhz fast", REFUSED),
    // A bad address, and a large one.
    ("dramsim map c.toml +8192", REFUSED),
    ("dramsim map c.toml 18446744073709551616", REFUSED),
];

// What a line of words asks for, or the fault by which it is refused.
fn asked(rt: &impl Abort, alloc: Global, line: &str) -> String {
    let words: Vec<&str> = line.split(' ').collect(alloc).expect(rt, "memory");
    match read_words(alloc, &words) {
        Ok(ask) => format!(in alloc; "{ask:?}").expect(rt, "memory"),
        Err(reason) => reason.fault().to_string(alloc).expect(rt, "memory"),
    }
}

// Asserts what a line asks for. The texts of calls for help are long: of them the beginning is known, and that they
// tell the usage.
fn assert_asked(rt: &impl Abort, alloc: Global, line: &str, want: &str) {
    let text = asked(rt, alloc, line);
    let text = text.as_str();
    if text.starts_with("Help(") && text.contains("Usage:") {
        assert_text(rt, line, text.get(..want.len()).unwrap_or(""), want);
    } else {
        assert_text(rt, line, text, want);
    }
}

#[test]
fn reads_words(rt: HostRuntime) {
    for (line, want) in &LINES {
        assert_asked(&rt, rt.alloc(), line, want);
    }
}
