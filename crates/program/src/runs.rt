//! `run`: the files of a run are read, the machine is run, and its tables are written.

ghost use Rattle.std.specs.Prelude.{◌≡◌, ◌<◌, ◌≤◌, ◌^◌, length, vec_len, map, true, Some, IsOk, IfOk, IfErr, IfSome, OnOk};
ghost use Rattle.program.specs.Runs.{AreTextsAt, AreUnread, HasWorkers, ReadsInput, CanRun, RefusesRun, ReadsOutcome, EndsRun, LeavesRun};
ghost use Rattle.sim_base.specs.Texts.{IsTextAt, texts_of};
ghost use Rattle.refusal.specs.Refusals.{fault_of};
ghost use Rattle.whole_files.specs.Files.{SameFiles, AreHeld, IsReadFault};

use crate::asked::RunAsk;
use crate::explained::{Input, outcome_of, tested_input};
use crate::host::Host;
use crate::shared::SharedText;
use cpu_trace::trace::Trace;
use refusal::reason::Reason;
use refusal::refusal::Refusal;
use reports::TableThreads;
use sim_base::config::Config;
use sim_base::fault::Fault;
use simulation::watch::Watch;
use statistics::outcome::Outcome;
use std::alloc::{AllocError, Global};
use std::sync::Wait;
use std::thread::Threads;
use whole_files::files::FileSet;
use whole_files::tables::write_tables;

// An earlier place with the same path.
fn earlier(paths: &[&str], place: usize, path: &str) -> Option<usize>
    ensures before { IfSome result (λ first. first < place) }
    ensures same { IfSome result (IsTextAt paths.now path.entry) }
{
    for first in 0..place.min(paths.len()) {
        if paths[first] == path {
            return Some(first);
        }
    }
    None
}

// The text of the next file, which it shares with an earlier one of the same path.
fn next_text<F: FileSet>(
    alloc: Global,
    files: &mut F,
    paths: &[&str],
    texts: &[SharedText],
    path: &str,
) -> Result<SharedText, Reason>
    requires read { F.tells → AreHeld (F.held files.old) (texts_of paths.now) texts.now }
    ensures text { IfOk result (λ t. F.tells → F.held files.old path.now ≡ Some t) }
    ensures fault { IfErr result (IsReadFault F.tells (F.held files.old path.now)) }
    ensures same { F.tells → SameFiles (F.held files.old) (F.held files.new) }
    ensures unopened { F.tells → F.opened files.new ≡ F.opened files.old }
{
    match earlier(paths, texts.len(), path) {
        Some(first) => Ok(texts[first].copy()?),
        None => Ok(SharedText::new(alloc, files.read(alloc, path)?)?),
    }
}

fn read_texts<F: FileSet>(
    alloc: Global,
    files: &mut F,
    paths: &[&str],
) -> Result<Vec<SharedText>, Reason>
    ensures texts { IfOk result (AreTextsAt F.FileSet files.old paths.now) }
    ensures count { IfOk result (λ v. length v.items ≡ length paths.now) }
    ensures fault { IfErr result (AreUnread F.FileSet files.old paths.now) }
    ensures same { F.tells → SameFiles (F.held files.old) (F.held files.new) }
    ensures unopened { F.tells → F.opened files.new ≡ F.opened files.old }
{
    let mut texts = Vec::new(alloc);
    for path in paths {
        let text = next_text(alloc, files, paths, &texts, path)?;
        let Ok(()) = texts.push(text) else {
            return Err(Reason::from(Fault::Memory));
        };
    }
    Ok(texts)
}

// The texts as slices of bytes.
fn slices_of<'a>(alloc: Global, texts: &'a [SharedText]) -> Result<Vec<&'a [u8]>, AllocError>
    ensures { IfOk result (λ slices. map (λ s. s.now) slices.items ≡ map (λ t. t) texts.now) }
{
    let mut slices = Vec::new(alloc);
    for text in texts {
        slices.push(text.as_slice())?;
    }
    Ok(slices)
}

// The configuration and the traces of a run over the files that are named, if its folder was not refused. The texts of
// the files are let go.
fn read_files<R: Threads + Sync, F: FileSet>(
    threads: &R,
    alloc: Global,
    files: &mut F,
    folder: Result<(), Reason>,
    asked: &RunAsk<'_>,
) -> Result<(Config, Vec<Trace>), Reason>
    requires folder { IfErr folder (λ e. e ≡ Fault.Write) }
    ensures folder { OnOk result (IsOk folder) }
    ensures read { IfOk result (ReadsInput F.FileSet files.old asked.now) }
    ensures count { IfOk result (λ r. vec_len r.1 ≡ r.0.cores) }
    ensures workers { OnOk result (HasWorkers asked.now) }
    ensures cycles { OnOk result (asked.now.cycles ≤ 10 ^ 12) }
    ensures ready { OnOk result (CanRun F.FileSet files.old asked.now) }
    ensures fault { IfErr result (RefusesRun F.FileSet files.old asked.now) }
    ensures same { F.tells → SameFiles (F.held files.old) (F.held files.new) }
    ensures unopened { F.tells → F.opened files.new ≡ F.opened files.old }
{
    let document = files.read(alloc, asked.config)?;
    let texts = read_texts(alloc, files, asked.traces)?;
    let slices = slices_of(alloc, &texts)?;
    let input = Input {
        asked,
        document: &document,
        texts: &slices,
    };
    tested_input(threads, alloc, folder, &input)
}

// The outcome of a run over the files that are named, if its folder was not refused.
fn run_files<R: Threads + Wait + Sync, W: Watch, F: FileSet>(
    host: &mut Host<'_, R, W>,
    alloc: Global,
    files: &mut F,
    folder: Result<(), Reason>,
    asked: &RunAsk<'_>,
) -> Result<Outcome, Reason>
    requires folder { IfErr folder (λ e. e ≡ Fault.Write) }
    ensures folder { OnOk result (IsOk folder) }
    ensures outcome { IfOk result (ReadsOutcome F.FileSet files.old asked.now) }
    ensures ready { OnOk result (CanRun F.FileSet files.old asked.now) }
    ensures fault { IfErr result (RefusesRun F.FileSet files.old asked.now) }
    ensures same { F.tells → SameFiles (F.held files.old) (F.held files.new) }
    ensures unopened { F.tells → F.opened files.new ≡ F.opened files.old }
{
    let (machine, traces) = read_files(host.threads, alloc, files, folder, asked)?;
    outcome_of(host, alloc, &machine, traces, asked)
}

// `run CONFIG --cycles N --workers N [--share auto|always] [--tables LIST] --out DIR TRACE...`: no cycle is run if the
// folder is not there, and nothing is opened before the run is over.
pub(crate) fn perform_run<R: Threads + Wait + Sync, W: Watch, F: FileSet>(
    host: &mut Host<'_, R, W>,
    alloc: Global,
    files: &mut F,
    asked: &RunAsk<'_>,
) -> Result<(), Refusal>
    ensures done { OnOk result (EndsRun F.FileSet files.old files.new asked.now) }
    ensures folder { OnOk result (F.tells → F.has_folder files.old asked.now.out.now ≡ true) }
    ensures refused { IfErr result (LeavesRun F.FileSet files.old files.new asked.now) }
    ensures fault { IfErr result (λ e. RefusesRun F.FileSet files.old asked.now (fault_of e)) }
{
    let folder = files.test_folder(asked.out);
    let run = run_files(host, alloc, files, folder, asked)?;
    let threads = TableThreads {
        rt: host.threads,
        alloc,
        count: asked.workers.count as usize,
    };
    write_tables(&threads, files, asked.out, &run)
}
