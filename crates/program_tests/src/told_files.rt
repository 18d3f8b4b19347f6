//! Files in memory that tell what they hold, so that what the program promises of files holds for them.

ghost use Rattle.std.specs.Prelude.{◌≡◌, ◌≢◌, map, option_map, string_bytes};
ghost use Rattle.std.specs.BTreeMap.{get_by_text};
ghost use Rattle.program_tests.specs.Lists.{sight, Answers, Tells};

use crate::expect::expect_at;
use fixtures::small::SMALL;
use program::host::Host;
use program::perform::perform;
use program::status::ExitStatus;
use program::streams::Streams;
use refusal::error_stream::ErrorStream;
use refusal::reason::Reason;
use sim_base::fault::Fault;
use simulation::watch::Unwatched;
use std::alloc::{AllocError, Global};
use std::collections::BTreeMap;
use std::sync::Wait;
use std::thread::Threads;
use whole_files::files::FileSet;

/// Files in memory, where what is written is there once the file is closed.
#[derive(Drop)]
struct ToldFiles {
    files: BTreeMap<String, Vec<u8>>,
    opened: Vec<String>,
}

impl FileSet for ToldFiles {
    type Out = Vec<u8>;

    ghost tells = { Unit {0} };

    ghost held = { λ set path. option_map (λ v. v.items) (get_by_text set.files path) };

    ghost opened = { λ set. map string_bytes set.opened.items };

    fn read(&mut self, alloc: Global, path: &str) -> Result<Vec<u8>, Reason> {
        match self.files.get(path) {
            Some(bytes) => match Vec::from_slice(alloc, bytes) {
                Ok(bytes) => Ok(bytes),
                Err(_) => Err(Reason::from(Fault::Memory)),
            },
            None => Err(Reason::from(Fault::Read)),
        }
    }

    fn create(&mut self, alloc: Global, path: &str) -> Result<Vec<u8>, Reason> {
        let name = String::from_str(alloc, path)?;
        match self.opened.push(name) {
            Ok(()) => Ok(Vec::new(alloc)),
            Err(_) => Err(Reason::from(Fault::Memory)),
        }
    }

    fn close(&mut self, alloc: Global, path: &str, out: Vec<u8>) -> Result<(), Reason> {
        let key = String::from_str(alloc, path)?;
        match self.files.insert(key, out) {
            Ok(_) => Ok(()),
            Err(_) => Err(Reason::from(Fault::Memory)),
        }
    }

    fn test_place(&mut self, _path: &str) -> Result<(), Reason> {
        Ok(())
    }

    fn test_folder(&self, _path: &str) -> Result<(), Reason> {
        Ok(())
    }

    fn rename(&mut self, alloc: Global, from: &str, to: &str) -> Result<(), Reason> {
        let key = String::from_str(alloc, to)?;
        let Some(bytes) = self.files.get(from) else {
            return Err(Reason::from(Fault::Write));
        };
        let copy = Vec::from_slice(alloc, bytes)?;
        let Ok(_) = self.files.insert(key, copy) else {
            return Err(Reason::from(Fault::Memory));
        };
        if from == to {
            return Ok(());
        }
        let _ = self.files.remove(from);
        Ok(())
    }

    fn remove(&mut self, path: &str) -> Result<(), Reason> {
        match self.files.remove(path) {
            Some(_) => Ok(()),
            None => Err(Reason::from(Fault::Write)),
        }
    }
}

// What the program promises of files that tell, and of lists that are written to, without a premise.
fn perform_told<R: Threads + Wait + Sync>(
    rt: &R,
    alloc: Global,
    words: &[&str],
    files: &mut ToldFiles,
    streams: &mut Streams<Vec<u8>, Vec<u8>>,
) -> ExitStatus
    ensures answered { let old = sight ⟦<ToldFiles as FileSet>⟧ files.old streams.old in
        let new = sight ⟦<ToldFiles as FileSet>⟧ files.new streams.new in
        result ≢ ExitStatus.Refused → Answers streams.old streams.new words.now result old new }
    ensures told { let old = sight ⟦<ToldFiles as FileSet>⟧ files.old streams.old in
        let new = sight ⟦<ToldFiles as FileSet>⟧ files.new streams.new in
        result ≡ ExitStatus.Refused → Tells streams.old streams.new words.now old new }
{
    let mut host = Host {
        threads: rt,
        watch: &mut Unwatched,
    };
    perform(&mut host, alloc, words, files, streams)
}

fn files_of(alloc: Global, texts: &[(&str, &str)]) -> Result<ToldFiles, AllocError> {
    let mut files = BTreeMap::new(alloc);
    for (path, text) in texts {
        let key = String::from_str(alloc, path)?;
        let bytes = Vec::from_slice(alloc, text.as_bytes())?;
        files.insert(key, bytes)?;
    }
    Ok(ToldFiles {
        files,
        opened: Vec::new(alloc),
    })
}

static RUN: [&str; 10] = [
    "dramsim",
    "run",
    "c.toml",
    "--cycles",
    "16",
    "--workers",
    "1",
    "--out",
    "d",
    "t0",
];

#[test]
fn tells_of_a_run(rt: HostRuntime) {
    let alloc = rt.alloc();
    let texts = [("c.toml", SMALL), ("t0", "0 0\n")];
    let mut files = files_of(alloc, &texts).expect(&rt, "memory");
    let mut streams = Streams {
        output: Vec::new(alloc),
        errors: ErrorStream::new(Vec::new(alloc)),
    };
    let status = perform_told(&rt, alloc, &RUN, &mut files, &mut streams);
    let counts = [files.files.len(), files.opened.len(), streams.output.len()];
    expect_at(&rt, &"a run", &(status.code(), counts), &(0, [5, 3, 0]));
}
