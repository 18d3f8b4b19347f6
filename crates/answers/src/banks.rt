//! What a run did, on one screen, and what each bank did.

ghost use Rattle.std.specs.Prelude.{◌≡◌, ◌≢◌, IfOk, IfErr, OnOk};
ghost use Rattle.whole_files.specs.Files.{SameFiles};
ghost use Rattle.answers.specs.Inputs.{Prints, BarsRequestsIn, FindsSomeRequests, IsBanksScreenOf, IsBanksScreenIn, ShowsBanks, RefusesPage};

use crate::folder::RunFolder;
use crate::print::print_answer;
use crate::requests::{add_requests, requests_in};
use crate::tables::{RunTables, tables_in};
use refusal::reason::Reason;
use request_table::times::RequestTimes;
use show::options::Options;
use show::show_banks;
use sim_base::fault::Fault;
use std::alloc::Global;
use std::io::Write;
use whole_files::files::FileSet;

// The screen of a run and its banks, with what there is to say of its requests.
fn screen_of(
    alloc: Global,
    found: &RunTables,
    requests: &Option<Vec<RequestTimes>>,
    options: Options,
) -> Result<String, Reason>
    ensures screen { IfOk result (IsBanksScreenOf found.now options requests.now) }
    ensures fault { IfErr result (λ e. e ≡ Fault.Memory) }
{
    let config = found.run.config.as_ref();
    let mut text = show_banks(alloc, &found.run.stats, &found.commands, options, config)?;
    add_requests(alloc, &found.run.stats, requests, options, &mut text)?;
    Ok(text)
}

// The screen of the run in a folder and its banks, with what there is to say of its requests.
fn screen_in<F: FileSet>(
    alloc: Global,
    files: &mut F,
    dir: &str,
    found: &RunTables,
    options: Options,
) -> Result<String, Reason>
    ensures screen { IfOk result (
        IsBanksScreenIn F.FileSet files.old dir.now found.now options) }
    ensures requests { let stats = found.now.run.stats in
        OnOk result (FindsSomeRequests F.FileSet files.old dir.now stats) }
    ensures fault { IfErr result (BarsRequestsIn F.FileSet files.old dir.now found.now.run.stats) }
    ensures same { F.tells → SameFiles (F.held files.old) (F.held files.new) }
    ensures unopened { F.tells → F.opened files.new ≡ F.opened files.old }
{
    let requests = requests_in(alloc, files, dir, &found.run.stats)?;
    screen_of(alloc, found, &requests, options)
}

/// `show DIR --banks [--all] [--config FILE] [--mhz N]`: prints what the run did whose tables are in a folder, and what
/// each of its banks did, with what its configuration, its clock and its table of requests add. It opens and changes no
/// file.
///
/// # Errors
///
/// The first of these: `Fault::Read` of a file; the first fault of the configuration; `Fault::CheckRow` of the first
/// wrong record of the statistics; `Fault::ConfigRange` of `cores` or `channels` where the configuration has another
/// number of them than the run; `Fault::CheckRow` of the first wrong record of the commands, of the first command that
/// is not of the run, of the first wrong record of the requests, or of the row in which they stop being of the run;
/// `Fault::Write` where the answer cannot be written. `Fault::Memory` may come at any time.
pub fn perform_show_banks<F: FileSet, P: Write>(
    alloc: Global,
    files: &mut F,
    output: &mut P,
    folder: &RunFolder<'_>,
    options: Options,
) -> Result<(), Reason>
    ensures shown { let printed = Prints P.Write output.old output.new in
        OnOk result (ShowsBanks F.FileSet files.old folder.now options printed) }
    ensures fault { IfErr result (RefusesPage F.FileSet files.old folder.now) }
    ensures unprinted { IfErr result (λ e. e ≢ Fault.Write → output.new ≡ output.old) }
    ensures same { F.tells → SameFiles (F.held files.old) (F.held files.new) }
    ensures unopened { F.tells → F.opened files.new ≡ F.opened files.old }
{
    let found = tables_in(alloc, files, folder)?;
    let screen = screen_in(alloc, files, folder.dir, &found, options);
    print_answer(alloc, output, screen)
}
