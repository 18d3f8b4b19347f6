//! Runs of which only some tables are asked for, in a folder with those of an earlier run.

use crate::files_in_memory::MemoryFiles;
use crate::program_runs::{assert_tables, assert_text, files_of_run, said_to_run};
use std::process::Abort;
use std::sync::Wait;
use std::thread::Threads;

// The words of a run, the tables that are opened, and which of the four are then in the folder.
type Chosen<'a> = (&'a str, &'a str, [bool; 4]);

static CHOSEN: [Chosen<'static>; 8] = [
    (
        "--cycles 16 --workers 2 --share auto",
        "d/commands.csv.part d/stats.csv.part d/final.csv.part ",
        [true, true, true, false],
    ),
    (
        "--cycles 16 --workers 2 --tables requests,commands,stats,final",
        "d/commands.csv.part d/stats.csv.part d/final.csv.part d/requests.csv.part ",
        [true, true, true, true],
    ),
    (
        "--cycles 16 --workers 2 --tables final,stats",
        "d/stats.csv.part d/final.csv.part ",
        [false, true, true, false],
    ),
    (
        "--cycles 16 --workers 2 --tables requests,stats",
        "d/stats.csv.part d/requests.csv.part ",
        [false, true, false, true],
    ),
    (
        "--cycles 16 --workers 2 --tables commands",
        "d/commands.csv.part ",
        [true, false, false, false],
    ),
    (
        "--cycles 16 --workers 2 --tables stats",
        "d/stats.csv.part ",
        [false, true, false, false],
    ),
    (
        "--cycles 16 --workers 2 --tables final",
        "d/final.csv.part ",
        [false, false, true, false],
    ),
    (
        "--cycles 16 --workers 2 --tables requests",
        "d/requests.csv.part ",
        [false, false, false, true],
    ),
];

// A run of which some tables are asked for leaves these in the folder, as the whole run does, and no others.
fn assert_chosen<R: Abort + Threads + Wait + Sync + AllocGlobal>(
    rt: &R,
    whole: &MemoryFiles,
    (words, opened, asked): &Chosen<'_>,
) {
    let mut files = files_of_run(rt);
    files.opened.clear();
    let said = said_to_run(rt, &mut files, words);
    said.assert_is(rt, words, (0, "", ""));
    assert_text(rt, words, files.opened.as_str(), opened);
    assert_tables(rt, words, &files, whole, asked);
}

#[test]
fn leaves_the_tables_that_are_asked_for(rt: HostRuntime) {
    let whole = files_of_run(&rt);
    for chosen in &CHOSEN {
        assert_chosen(&rt, &whole, chosen);
    }
}
