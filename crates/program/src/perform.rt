//! What the program does, over files and streams that are handed in.

ghost use Rattle.std.specs.Prelude.{◌≡◌, ◌≢◌, IfOk, IfErr};
ghost use Rattle.program.specs.Answered.{IsAnswer, IsDone, IsUnwarned, IsLeft, IsRefusedBy, IsRefused};
ghost use Rattle.refusal.specs.Refusals.{fault_of};
ghost use Rattle.program.specs.Runs.{sight, IsSeen, RefusesAsk, RefusesWords, WarnsOfPages, IsSilentBut, Answers, Tells};
ghost use Rattle.sim_base.specs.Texts.{texts_of};

use crate::asked::{run_ask, view_of};
use crate::done::{Done, done_unwarned, run_done, warned_done};
use crate::host::Host;
use crate::printed::{answer_check, answer_compare, answer_map, answer_show, answer_show_banks};
use crate::runs::perform_run;
use crate::status::ExitStatus;
use crate::streams::Streams;
use answers::folder::RunFolder;
use answers::pages::perform_page;
use answers::print::print_text;
use command_line::words::{Ask, read_words};
use refusal::lines::write_lines;
use refusal::refusal::Refusal;
use refusal::warning::write_warning;
use sim_base::fault::Fault;
use simulation::watch::Watch;
use std::alloc::Global;
use std::io::Write;
use std::sync::Wait;
use std::thread::Threads;
use whole_files::files::FileSet;

// Does what is asked.
fn answer<R: Threads + Wait + Sync, W: Watch, F: FileSet, P: Write>(
    host: &mut Host<'_, R, W>,
    alloc: Global,
    ask: &Ask<'_>,
    files: &mut F,
    output: &mut P,
) -> Result<Done, Refusal>
    ensures answered { IfOk result (λ done. IsSeen F.FileSet P.Write files.old files.new
        output.old output.new (IsAnswer ask.now done)) }
    ensures status { IfOk result (λ done. done.status ≢ ExitStatus.Refused) }
    ensures unwarned { IfOk result (λ done. IsUnwarned ask.now done.warning) }
    ensures refused { IfErr result (λ e. IsSeen F.FileSet P.Write files.old files.new
        output.old output.new (IsLeft e ask.now)) }
    ensures unprinted { IfErr result (λ e. fault_of e ≢ Fault.Write → output.new ≡ output.old) }
    ensures fault { IfErr result (RefusesAsk F.FileSet files.old ask.now) }
{
    match ask {
        Ask::Run(run) => run_done(perform_run(host, alloc, files, &run_ask(run))),
        Ask::Check { config, commands } => answer_check(alloc, files, output, config, commands),
        Ask::Map { config, address } => answer_map(alloc, files, output, config, *address),
        Ask::Show(show) => answer_show(alloc, files, output, show),
        Ask::ShowBanks(show) => answer_show_banks(alloc, files, output, show),
        Ask::Page(page) => {
            let folder = RunFolder {
                dir: page.dir,
                config: page.config,
            };
            warned_done(perform_page(alloc, files, &folder, page.file, view_of(page)))
        }
        Ask::Compare { dirs, csv } => answer_compare(alloc, files, output, dirs, *csv),
        Ask::Help(text) | Ask::Version(text) => {
            done_unwarned(print_text(alloc, output, text.as_str()))
        }
    }
}

// Does what the words ask for.
fn answer_words<R: Threads + Wait + Sync, W: Watch, F: FileSet, P: Write>(
    host: &mut Host<'_, R, W>,
    alloc: Global,
    words: &[&str],
    files: &mut F,
    output: &mut P,
) -> Result<Done, Refusal>
    ensures answered { IfOk result (λ done. IsSeen F.FileSet P.Write files.old files.new
        output.old output.new (IsDone (texts_of words.now) done)) }
    ensures status { IfOk result (λ done. done.status ≢ ExitStatus.Refused) }
    ensures unwarned { IfOk result (λ done. WarnsOfPages words.now done.warning) }
    ensures refused { IfErr result (λ e. IsSeen F.FileSet P.Write files.old files.new
        output.old output.new (IsRefusedBy e (texts_of words.now))) }
    ensures unprinted { IfErr result (λ e. fault_of e ≢ Fault.Write → output.new ≡ output.old) }
    ensures fault { IfErr result (RefusesWords F.FileSet files.old words.now) }
{
    let ask = read_words(alloc, words)?;
    answer(host, alloc, &ask, files, output)
}

/// Does what the words ask for, the first of which is the program's name, and tells how it ends. A run's workers are
/// threads of the host, and the host's watcher is told how far the run is.
///
/// A refusal is one line on the stream of errors, `fault N: ...`, and a second one where the tables in the folder are
/// of two runs, with lines that explain it after them. It is told whole, unless the stream refuses
/// (`ErrorStream::has_refused`): then the stream has a beginning of it. The fault is the first in this order: the
/// words, the files that they name, what stands in these (the configuration, and then as `simulate` and `check` say, or
/// of the tables of a run the statistics, the commands and the requests), whether a run's folder is there, and what
/// cannot be written. Memory may be refused at any time. Where it does not refuse, nothing is told, but of a page of
/// more than 50 MB one line that warns of it, with its length in bytes.
///
/// Promises about files are made only where the set of files tells what it holds. A run that is done has put the
/// tables of its outcome that were asked for into the folder, and none of another run is left there. Where it is
/// refused, either the run had no outcome, and nothing was opened; or the places of the tables hold what they held, and
/// none is left under a name that ends in `.part`; or a file could not be renamed after another one was, and each table
/// is the earlier one or the new one, whole: in that case there is the second line.
pub fn perform<R: Threads + Wait + Sync, W: Watch, F: FileSet, P: Write, E: Write>(
    host: &mut Host<'_, R, W>,
    alloc: Global,
    words: &[&str],
    files: &mut F,
    streams: &mut Streams<P, E>,
) -> ExitStatus
    ensures answered { result ≢ ExitStatus.Refused → IsSeen F.FileSet P.Write files.old files.new
        streams.old.output streams.new.output
        (Answers E.Write streams.old.errors streams.new.errors words.now result) }
    ensures refused { result ≡ ExitStatus.Refused → IsSeen F.FileSet P.Write files.old files.new
        streams.old.output streams.new.output (IsRefused (texts_of words.now)) }
    ensures told { result ≡ ExitStatus.Refused
        → Tells E.Write streams.old.errors streams.new.errors F.tells words.now
        (sight F.FileSet P.Write files.old streams.old.output)
        (sight F.FileSet P.Write files.new streams.new.output) }
    ensures silent { result ≢ ExitStatus.Refused
        → IsSilentBut streams.old.errors streams.new.errors words.now }
{
    match answer_words(host, alloc, words, files, &mut streams.output) {
        Ok(done) => {
            write_warning(&mut streams.errors, done.warning);
            done.status
        }
        Err(refusal) => {
            let _ = write_lines(&mut streams.errors, &refusal);
            ExitStatus::Refused
        }
    }
}
