//! Tables that cannot be written or be given their places: what stood there still stands there, or the tables are torn
//! and all there.

use crate::expect::expect_at;
use crate::files_in_memory::{Failure, MemoryFiles, files_with};
use crate::program_runs::{files_of_run, said_to_run};
use std::alloc::Global;
use std::process::Abort;
use std::sync::Wait;
use std::thread::Threads;

const OLD: &str = "of an earlier run\n";

const WORDS: &str = "--cycles 16 --workers 1 --tables commands,stats,final,requests";

// The tables, and the names under which they are written.
static TABLES: [(&str, &str); 4] = [
    ("d/commands.csv", "d/commands.csv.part"),
    ("d/stats.csv", "d/stats.csv.part"),
    ("d/final.csv", "d/final.csv.part"),
    ("d/requests.csv", "d/requests.csv.part"),
];

// A folder with the tables of an earlier run, of which one was left under the name under which it was written.
static OLD_FILES: [(&str, &str); 5] = [
    ("d/commands.csv", OLD),
    ("d/stats.csv", OLD),
    ("d/final.csv", OLD),
    ("d/requests.csv", OLD),
    ("d/stats.csv.part", OLD),
];

// What stands under a path: nothing, an earlier table, the new one, or a part of it.
fn standing(files: &MemoryFiles, path: &str, new: &str) -> &'static str {
    match files.text_at(path) {
        None => "nothing",
        Some(text) if text == OLD => "old",
        Some(text) if text == new => "new",
        Some(_) => "cut",
    }
}

// What stands in the place of each table and beside it, from the first table to the last.
fn left_of(rt: &impl Abort, alloc: Global, files: &MemoryFiles, good: &MemoryFiles) -> String {
    let mut left = String::new(alloc);
    for (table, part) in &TABLES {
        let new = good.text_at(table).unwrap_or("no table");
        let (there, beside) = (standing(files, table, new), standing(files, part, new));
        for piece in [there, " ", beside, "; "] {
            left.push_str(piece).expect(rt, "memory");
        }
    }
    left
}

const WRITE: &str = "fault 12: write\n";

const TORN: &str = "fault 12: write
the tables are of two runs: what is missing of this one stands beside them under names that end in .part
";

const ONE_OPENED: &str = "d/commands.csv.part ";

const TWO_OPENED: &str = "d/commands.csv.part d/stats.csv.part ";

const THREE_OPENED: &str = "d/commands.csv.part d/stats.csv.part d/final.csv.part ";

const ALL_OPENED: &str =
    "d/commands.csv.part d/stats.csv.part d/final.csv.part d/requests.csv.part ";

// What goes wrong with a run into the folder, what is told and opened, and what is left. Up to the first renaming all
// that is left is old, except where the folder is not there, so that not even the part of an earlier run is removed.
type Case = (
    Failure,
    &'static str,
    &'static str,
    &'static str,
    &'static str,
);

const KEPT: &str = "old nothing; old nothing; old nothing; old nothing; ";

static CASES: [Case; 22] = [
    (
        Failure::Opening,
        "d/commands.csv.part",
        WRITE,
        ONE_OPENED,
        KEPT,
    ),
    (
        Failure::Opening,
        "d/stats.csv.part",
        WRITE,
        TWO_OPENED,
        KEPT,
    ),
    (
        Failure::Opening,
        "d/final.csv.part",
        WRITE,
        THREE_OPENED,
        KEPT,
    ),
    (
        Failure::Opening,
        "d/requests.csv.part",
        WRITE,
        ALL_OPENED,
        KEPT,
    ),
    (
        Failure::Writing,
        "d/commands.csv.part",
        WRITE,
        ONE_OPENED,
        KEPT,
    ),
    (
        Failure::Writing,
        "d/stats.csv.part",
        WRITE,
        TWO_OPENED,
        KEPT,
    ),
    (
        Failure::Writing,
        "d/final.csv.part",
        WRITE,
        THREE_OPENED,
        KEPT,
    ),
    (
        Failure::Writing,
        "d/requests.csv.part",
        WRITE,
        ALL_OPENED,
        KEPT,
    ),
    (
        Failure::Closing,
        "d/commands.csv.part",
        WRITE,
        ONE_OPENED,
        KEPT,
    ),
    (
        Failure::Closing,
        "d/stats.csv.part",
        WRITE,
        TWO_OPENED,
        KEPT,
    ),
    (
        Failure::Closing,
        "d/final.csv.part",
        WRITE,
        THREE_OPENED,
        KEPT,
    ),
    (
        Failure::Closing,
        "d/requests.csv.part",
        WRITE,
        ALL_OPENED,
        KEPT,
    ),
    (Failure::Placing, "d/commands.csv", WRITE, ALL_OPENED, KEPT),
    (Failure::Placing, "d/stats.csv", WRITE, ALL_OPENED, KEPT),
    (Failure::Placing, "d/final.csv", WRITE, ALL_OPENED, KEPT),
    (Failure::Placing, "d/requests.csv", WRITE, ALL_OPENED, KEPT),
    (Failure::Renaming, "d/commands.csv", WRITE, ALL_OPENED, KEPT),
    (
        Failure::Folder,
        "d",
        WRITE,
        "",
        "old nothing; old old; old nothing; old nothing; ",
    ),
    (
        Failure::Renaming,
        "d/stats.csv",
        TORN,
        ALL_OPENED,
        "new nothing; old new; old new; old new; ",
    ),
    (
        Failure::Renaming,
        "d/final.csv",
        TORN,
        ALL_OPENED,
        "new nothing; new nothing; old new; old new; ",
    ),
    (
        Failure::Renaming,
        "d/requests.csv",
        TORN,
        ALL_OPENED,
        "new nothing; new nothing; new nothing; old new; ",
    ),
    (
        Failure::None,
        "",
        "",
        ALL_OPENED,
        "new nothing; new nothing; new nothing; new nothing; ",
    ),
];

// Asserts what a run tells of errors, and what it opens and leaves.
fn assert_ends<R: Abort + Threads + Wait + Sync + AllocGlobal>(
    rt: &R,
    good: &MemoryFiles,
    (failure, path, told, opened, left): &Case,
) {
    let mut files = files_with(rt, rt.alloc(), &OLD_FILES);
    files.failing = (*failure, *path);
    let said = said_to_run(rt, &mut files, WORDS);
    said.assert_is(rt, path, (if told.is_empty() { 0 } else { 2 }, "", told));
    let found = left_of(rt, rt.alloc(), &files, good);
    expect_at(
        rt,
        path,
        &(files.opened.as_str(), found.as_str()),
        &(*opened, *left),
    );
}

#[test]
fn keeps_old_tables_or_tells_what_is_left(rt: HostRuntime) {
    let good = files_of_run(&rt);
    for case in &CASES {
        assert_ends(&rt, &good, case);
    }
}
