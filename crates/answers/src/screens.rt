//! What a run did, on one screen.

ghost use Rattle.std.specs.Prelude.{◌≡◌, ◌≢◌, IfOk, IfErr, OnOk};
ghost use Rattle.answers.specs.Answers.{stats_path};
ghost use Rattle.answers.specs.Inputs.{Prints, IsRunAt, RunFits, CanShow, BarsShow, CanShowIn, BarsShowIn, BarsRequestsIn, FindsSomeRequests, IsScreenOf, IsScreenIn, Shows, RefusesShow};
ghost use Rattle.whole_files.specs.Files.{SameFiles};

use crate::described::{RunRecord, described, document_at};
use crate::folder::RunFolder;
use crate::print::print_answer;
use crate::requests::{add_requests, requests_in};
use refusal::reason::Reason;
use request_table::times::RequestTimes;
use show::options::Options;
use show::show_text;
use sim_base::fault::Fault;
use std::alloc::Global;
use std::io::Write;
use whole_files::files::FileSet;
use whole_files::moves::path_of;

// The statistics whose table a file holds, under the configuration that is named, if one is.
fn run_at<F: FileSet>(
    alloc: Global,
    files: &mut F,
    config: Option<&str>,
    path: &str,
) -> Result<RunRecord, Reason>
    ensures stats { IfOk result (IsRunAt F.FileSet files.old path.now) }
    ensures configured { IfOk result (RunFits F.FileSet files.old config.entry) }
    ensures ready { IfOk result (CanShow F.FileSet files.old config.entry path.now) }
    ensures fault { IfErr result (BarsShow F.FileSet files.old config.entry path.now) }
    ensures same { F.tells → SameFiles (F.held files.old) (F.held files.new) }
    ensures unopened { F.tells → F.opened files.new ≡ F.opened files.old }
{
    let document = document_at(alloc, files, config)?;
    let table = files.read(alloc, path)?;
    described(alloc, &document, path, &table)
}

// The statistics of the run whose tables are in a folder.
fn run_in<F: FileSet>(
    alloc: Global,
    files: &mut F,
    folder: &RunFolder<'_>,
) -> Result<RunRecord, Reason>
    ensures stats { IfOk result (IsRunAt F.FileSet files.old (stats_path folder.now.dir.now)) }
    ensures configured { IfOk result (RunFits F.FileSet files.old folder.now.config) }
    ensures ready { IfOk result (CanShowIn F.FileSet files.old folder.now) }
    ensures fault { IfErr result (BarsShowIn F.FileSet files.old folder.now) }
    ensures same { F.tells → SameFiles (F.held files.old) (F.held files.new) }
    ensures unopened { F.tells → F.opened files.new ≡ F.opened files.old }
{
    let path = path_of(alloc, folder.dir, "stats.csv")?;
    run_at(alloc, files, folder.config, path.as_str())
}

// The screen of a run, with what there is to say of its requests.
fn screen_of(
    alloc: Global,
    run: &RunRecord,
    requests: &Option<Vec<RequestTimes>>,
    options: Options,
) -> Result<String, Reason>
    ensures screen { IfOk result (IsScreenOf run.now options requests.now) }
    ensures fault { IfErr result (λ e. e ≡ Fault.Memory) }
{
    let mut screen = show_text(alloc, &run.stats, options, run.config.as_ref())?;
    add_requests(alloc, &run.stats, requests, options, &mut screen)?;
    Ok(screen)
}

// The screen of the run in a folder, with what there is to say of its requests.
fn screen_in<F: FileSet>(
    alloc: Global,
    files: &mut F,
    dir: &str,
    run: &RunRecord,
    options: Options,
) -> Result<String, Reason>
    ensures screen { IfOk result (IsScreenIn F.FileSet files.old dir.now run.now options) }
    ensures requests { OnOk result (FindsSomeRequests F.FileSet files.old dir.now run.now.stats) }
    ensures fault { IfErr result (BarsRequestsIn F.FileSet files.old dir.now run.now.stats) }
    ensures same { F.tells → SameFiles (F.held files.old) (F.held files.new) }
    ensures unopened { F.tells → F.opened files.new ≡ F.opened files.old }
{
    let requests = requests_in(alloc, files, dir, &run.stats)?;
    screen_of(alloc, run, &requests, options)
}

/// `show DIR [--all] [--config FILE] [--mhz N]`: prints what the run did whose tables are in a folder, with what its
/// configuration, its clock and its table of requests add. It opens and changes no file.
///
/// # Errors
///
/// The first of these: `Fault::Read` of a file; the first fault of the configuration; `Fault::CheckRow` of the first
/// wrong record of the statistics; `Fault::ConfigRange` of `cores` or `channels` where the configuration has another
/// number of them than the run; `Fault::CheckRow` of the first wrong record of the requests, or of the row in which
/// they stop being of the run; `Fault::Write` where the answer cannot be written. `Fault::Memory` may come at any time.
pub fn perform_show<F: FileSet, P: Write>(
    alloc: Global,
    files: &mut F,
    output: &mut P,
    folder: &RunFolder<'_>,
    options: Options,
) -> Result<(), Reason>
    ensures shown { let printed = Prints P.Write output.old output.new in
        OnOk result (Shows F.FileSet files.old folder.now options printed) }
    ensures fault { IfErr result (RefusesShow F.FileSet files.old folder.now) }
    ensures unprinted { IfErr result (λ e. e ≢ Fault.Write → output.new ≡ output.old) }
    ensures same { F.tells → SameFiles (F.held files.old) (F.held files.new) }
    ensures unopened { F.tells → F.opened files.new ≡ F.opened files.old }
{
    let run = run_in(alloc, files, folder)?;
    let screen = screen_in(alloc, files, folder.dir, &run, options);
    print_answer(alloc, output, screen)
}
