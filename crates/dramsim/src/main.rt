//! Simulates the main memory of a computer: cores that read traces, and DDR4 channels that serve them.
#![tactic(auto)]

use program::host::Host;
use program::perform::perform;
use program::status::ExitStatus;
use program::streams::Streams;
use progress::watcher::ProgressLine;
use refusal::error_stream::ErrorStream;
use sim_base::fault::Fault;
use std::io::{ErrorKind, IsTerminal};
use std::process::ExitCode;
use std::sync::Wait;
use std::thread::Threads;
use std::{env, io};
use whole_files::files::HostFiles;

// Hands the words, the files, the streams and the threads of the host over. The progress of a run is shown if standard
// error is a terminal.
fn perform_words<T: Threads + Wait + Sync>(
    rt: &HostRuntime,
    threads: &T,
) -> io::Result<ExitStatus> {
    let arguments: Vec<String> = env::args(rt)?.collect(rt.alloc())?;
    let words: Vec<&str> = arguments
        .iter()
        .map(|word| word.as_str())
        .collect(rt.alloc())?;
    let mut files = HostFiles { rt };
    let mut streams = Streams {
        output: rt.stdout(),
        errors: ErrorStream::new(rt.stderr()),
    };
    let is_terminal = streams.errors.stream().is_terminal();
    let mut watch = ProgressLine::new(rt.alloc(), rt, rt.stderr(), is_terminal);
    let mut host = Host {
        threads,
        watch: &mut watch,
    };
    Ok(perform(&mut host, rt.alloc(), &words, &mut files, &mut streams))
}

// Why the words of the command line could not be obtained.
fn words_fault(error: &io::Error) -> Fault {
    match error.kind() {
        ErrorKind::OutOfMemory => Fault::Memory,
        _ => Fault::CommandLine,
    }
}

fn main(rt: HostRuntime) -> ExitCode {
    match perform_words(&rt, &rt) {
        Ok(status) => ExitCode::from(status.code()),
        Err(error) => {
            let fault = words_fault(&error);
            let _ = eprintln!(rt; "{fault}");
            ExitCode::from(ExitStatus::Refused.code())
        }
    }
}
