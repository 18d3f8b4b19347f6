//! Measures parts of the simulator, a word for each. With `time` it does much, and also prints how long that took;
//! otherwise it does little, and what it prints does not depend on the machine.
#![tactic(auto)]

mod figures;
mod link_times;
mod trace_times;

use crate::figures::Effort;
use sim_base::fault::Fault;
use std::alloc::Global;
use std::env;
use std::process::ExitCode;
use std::rt::{Clock, Files};
use std::thread::Threads;

const USAGE: &str = "\
usage: bench trace FILE [time]
       bench links [time]
       bench all FILE";

/// The status where the words name no measurement, or one fails.
const FAILED: u8 = 2;

/// The word at a place, empty where there are fewer.
fn word(words: &[String], place: usize) -> &str {
    match words.get(place) {
        Some(word) => word.as_str(),
        None => "",
    }
}

/// A little of each measurement, with the trace of a file.
fn show_all<R: Alloc + Clock + Files + Print + Threads + Sync>(
    rt: &R,
    alloc: Global,
    path: &str,
) -> Result<(), Fault> {
    trace_times::show(rt, alloc, path, Effort::Little)?;
    link_times::show(rt, alloc, Effort::Little)
}

/// Measures what the words name, if they name it.
fn measure<R: Alloc + Clock + Files + Print + Threads + Sync>(
    rt: &R,
    alloc: Global,
    words: &[String],
) -> Option<Result<(), Fault>> {
    let second = word(words, 1);
    Some(match word(words, 0) {
        "trace" => trace_times::show(rt, alloc, second, Effort::of(word(words, 2))?),
        "links" => link_times::show(rt, alloc, Effort::of(second)?),
        "all" => show_all(rt, alloc, second),
        _ => return None,
    })
}

/// The words behind the program's name.
fn words_of(rt: &HostRuntime) -> Result<Vec<String>, Fault> {
    match env::args(rt) {
        Ok(words) => Ok(words.skip(1).collect(rt.alloc())?),
        Err(_) => Err(Fault::CommandLine),
    }
}

/// Measures what the words name, if they name it.
fn run<R: Alloc + Clock + Files + Print + Threads + Sync>(
    rt: &R,
    alloc: Global,
    words: Result<Vec<String>, Fault>,
) -> Option<Result<(), Fault>> {
    match words {
        Ok(words) => measure(rt, alloc, &words),
        Err(fault) => Some(Err(fault)),
    }
}

fn main(rt: HostRuntime) -> ExitCode {
    let _told = match run(&rt, rt.alloc(), words_of(&rt)) {
        Some(Ok(())) => return ExitCode::SUCCESS,
        Some(Err(fault)) => eprintln!(rt; "{fault}"),
        None => rt.eprintln(USAGE),
    };
    ExitCode::from(FAILED)
}
