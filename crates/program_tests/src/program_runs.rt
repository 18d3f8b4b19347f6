//! The whole program over files in memory, and what it says and leaves.

use crate::expect::expect_at;
use crate::files_in_memory::MemoryFiles;
use fixtures::small::SMALL;
use program::host::Host;
use program::perform::perform;
use program::streams::Streams;
use refusal::error_stream::ErrorStream;
use simulation::watch::Unwatched;
use std::process::Abort;
use std::sync::Wait;
use std::thread::Threads;

/// What the program says: its status, and what it writes on its two streams.
#[derive(Drop)]
pub(crate) struct Said {
    status: u8,
    streams: Streams<Vec<u8>, Vec<u8>>,
}

impl Said {
    fn all(&self) -> (u8, &str, &str) {
        (
            self.status,
            text_of(&self.streams.output),
            text_of(self.streams.errors.stream()),
        )
    }

    /// Asserts the status, what is printed and what is told of errors, in a case with a name.
    pub(crate) fn assert_is(&self, rt: &impl Abort, name: &str, want: (u8, &str, &str)) {
        expect_at(rt, &name, &self.all(), &want);
    }
}

fn text_of(bytes: &[u8]) -> &str {
    str::from_utf8(bytes).unwrap_or("no text")
}

/// Asserts a text that the program leaves, in a case with a name.
pub(crate) fn assert_text(rt: &impl Abort, name: &str, found: &str, want: &str) {
    expect_at(rt, &name, &found, &want);
}

/// What the program says to a line of words.
pub(crate) fn said_to<R: Abort + Threads + Wait + Sync + AllocGlobal>(
    rt: &R,
    files: &mut MemoryFiles,
    line: &str,
) -> Said {
    let alloc = rt.alloc();
    let words: Vec<&str> = line.split(' ').collect(alloc).expect(rt, "memory");
    let mut streams = Streams {
        output: Vec::new(alloc),
        errors: ErrorStream::new(Vec::new(alloc)),
    };
    let mut host = Host {
        threads: rt,
        watch: &mut Unwatched,
    };
    let status = perform(&mut host, alloc, &words, files, &mut streams).code();
    Said { status, streams }
}

/// What the program says to a run of the small machine whose core reads one line. Words tell its limit, its number of
/// workers and its tables.
pub(crate) fn said_to_run<R: Abort + Threads + Wait + Sync + AllocGlobal>(
    rt: &R,
    files: &mut MemoryFiles,
    words: &str,
) -> Said {
    let alloc = rt.alloc();
    files.add(rt, alloc, "c.toml", SMALL);
    files.add(rt, alloc, "t0", "0 0\n");
    let line = format!(in alloc; "dramsim run c.toml {words} --out d t0").expect(rt, "memory");
    said_to(rt, files, line.as_str())
}

/// The files of such a run with all tables, which succeeds and says nothing.
pub(crate) fn files_of_run<R: Abort + Threads + Wait + Sync + AllocGlobal>(rt: &R) -> MemoryFiles {
    let mut files = MemoryFiles::new(rt.alloc());
    let words = "--cycles 16 --workers 1 --share always --tables commands,stats,final,requests";
    let said = said_to_run(rt, &mut files, words);
    said.assert_is(rt, words, (0, "", ""));
    files
}

/// The tables of a run.
pub(crate) static PATHS: [&str; 4] = [
    "d/commands.csv",
    "d/stats.csv",
    "d/final.csv",
    "d/requests.csv",
];

/// Asserts that a folder has those tables of another one that are asked for, and no others.
pub(crate) fn assert_tables(
    rt: &impl Abort,
    name: &str,
    files: &MemoryFiles,
    whole: &MemoryFiles,
    asked: &[bool; 4],
) {
    for (path, is_asked) in PATHS.iter().zip(asked) {
        let wanted = if *is_asked { whole.text_at(path) } else { None };
        let found = files.text_at(path);
        expect_at(
            rt,
            &(name, path),
            &(found, found.is_some()),
            &(wanted, *is_asked),
        );
    }
}
