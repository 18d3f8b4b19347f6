//! Answers that are printed. They open and change no file.

ghost use Rattle.std.specs.Prelude.{◌≡◌, ◌≢◌, None, IfOk, IfErr};
ghost use Rattle.answers.specs.Inputs.{RefusesCheck, RefusesCompare, RefusesMap};
ghost use Rattle.program.specs.Answered.{IsAnswer, IsCheckAnswer, IsCompareAnswer, IsMapAnswer};
ghost use Rattle.program.specs.Runs.{IsSeen, LeavesFiles, RefusesAsk};
ghost use Rattle.sim_base.specs.Texts.{texts_of};
ghost use Rattle.program.specs.Status.{verdict_status};
ghost use Rattle.refusal.specs.Refusals.{fault_of};

use crate::asked::{layout_of, options_of};
use crate::done::{Done, done_unwarned};
use crate::status::ExitStatus;
use answers::banks::perform_show_banks;
use answers::comparisons::perform_compare;
use answers::folder::RunFolder;
use answers::places::perform_map;
use answers::screens::perform_show;
use answers::verdicts::perform_check;
use command_line::words::{Ask, ShowArguments};
use refusal::refusal::Refusal;
use rule_check::Verdict;
use sim_base::fault::Fault;
use std::alloc::Global;
use std::io::Write;
use whole_files::files::FileSet;

// How the program ends that found this verdict.
fn status_of(found: Verdict) -> ExitStatus
    ensures status { result ≡ verdict_status found }
    ensures unrefused { result ≢ ExitStatus.Refused }
{
    match found {
        Verdict::Legal => ExitStatus::Done,
        Verdict::Broken { .. } => ExitStatus::Broken,
    }
}

/// The verdict on a table of commands.
pub(crate) fn answer_check<F: FileSet, P: Write>(
    alloc: Global,
    files: &mut F,
    output: &mut P,
    config: &str,
    commands: &str,
) -> Result<Done, Refusal>
    ensures answered { IfOk result (λ done. IsSeen F.FileSet P.Write files.old files.new
        output.old output.new (IsCheckAnswer config.now commands.now done.status)) }
    ensures status { IfOk result (λ done. done.status ≢ ExitStatus.Refused) }
    ensures unwarned { IfOk result (λ done. done.warning ≡ None) }
    ensures refused { IfErr result (LeavesFiles F.FileSet files.old files.new) }
    ensures unprinted { IfErr result (λ e. fault_of e ≢ Fault.Write → output.new ≡ output.old) }
    ensures fault { IfErr result (λ e.
        RefusesCheck F.FileSet files.old config.now commands.now (fault_of e)) }
{
    let found = perform_check(alloc, files, output, config, commands)?;
    Ok(Done::with_status(status_of(found)))
}

/// The place of an address.
pub(crate) fn answer_map<F: FileSet, P: Write>(
    alloc: Global,
    files: &mut F,
    output: &mut P,
    config: &str,
    address: u64,
) -> Result<Done, Refusal>
    ensures answered { IfOk result (λ done. IsSeen F.FileSet P.Write files.old files.new
        output.old output.new (IsMapAnswer config.now address done.status)) }
    ensures status { IfOk result (λ done. done.status ≢ ExitStatus.Refused) }
    ensures unwarned { IfOk result (λ done. done.warning ≡ None) }
    ensures refused { IfErr result (LeavesFiles F.FileSet files.old files.new) }
    ensures unprinted { IfErr result (λ e. fault_of e ≢ Fault.Write → output.new ≡ output.old) }
    ensures fault { IfErr result (λ e.
        RefusesMap F.FileSet files.old config.now (fault_of e)) }
{
    done_unwarned(perform_map(alloc, files, output, config, address))
}

/// The screen of a run.
pub(crate) fn answer_show<F: FileSet, P: Write>(
    alloc: Global,
    files: &mut F,
    output: &mut P,
    show: &ShowArguments<'_>,
) -> Result<Done, Refusal>
    ensures answered { IfOk result (λ done. IsSeen F.FileSet P.Write files.old files.new
        output.old output.new (IsAnswer (Ask.Show show.now) done)) }
    ensures status { IfOk result (λ done. done.status ≢ ExitStatus.Refused) }
    ensures unwarned { IfOk result (λ done. done.warning ≡ None) }
    ensures refused { IfErr result (LeavesFiles F.FileSet files.old files.new) }
    ensures unprinted { IfErr result (λ e. fault_of e ≢ Fault.Write → output.new ≡ output.old) }
    ensures fault { IfErr result (RefusesAsk F.FileSet files.old (Ask.Show show.now)) }
{
    let folder = RunFolder {
        dir: show.dir,
        config: show.config,
    };
    done_unwarned(perform_show(alloc, files, output, &folder, options_of(show)))
}

/// The screen of a run, with its banks.
pub(crate) fn answer_show_banks<F: FileSet, P: Write>(
    alloc: Global,
    files: &mut F,
    output: &mut P,
    show: &ShowArguments<'_>,
) -> Result<Done, Refusal>
    ensures answered { IfOk result (λ done. IsSeen F.FileSet P.Write files.old files.new
        output.old output.new (IsAnswer (Ask.ShowBanks show.now) done)) }
    ensures status { IfOk result (λ done. done.status ≢ ExitStatus.Refused) }
    ensures unwarned { IfOk result (λ done. done.warning ≡ None) }
    ensures refused { IfErr result (LeavesFiles F.FileSet files.old files.new) }
    ensures unprinted { IfErr result (λ e. fault_of e ≢ Fault.Write → output.new ≡ output.old) }
    ensures fault { IfErr result (RefusesAsk F.FileSet files.old (Ask.ShowBanks show.now)) }
{
    let folder = RunFolder {
        dir: show.dir,
        config: show.config,
    };
    done_unwarned(perform_show_banks(alloc, files, output, &folder, options_of(show)))
}

/// The comparison of runs, as a screen or as a table of CSV.
pub(crate) fn answer_compare<F: FileSet, P: Write>(
    alloc: Global,
    files: &mut F,
    output: &mut P,
    dirs: &[&str],
    csv: bool,
) -> Result<Done, Refusal>
    ensures answered { IfOk result (λ done. IsSeen F.FileSet P.Write files.old files.new
        output.old output.new (IsCompareAnswer (texts_of dirs.now) csv done.status)) }
    ensures status { IfOk result (λ done. done.status ≢ ExitStatus.Refused) }
    ensures unwarned { IfOk result (λ done. done.warning ≡ None) }
    ensures refused { IfErr result (LeavesFiles F.FileSet files.old files.new) }
    ensures unprinted { IfErr result (λ e. fault_of e ≢ Fault.Write → output.new ≡ output.old) }
    ensures fault { IfErr result (λ e.
        RefusesCompare F.FileSet files.old dirs.now (fault_of e)) }
{
    done_unwarned(perform_compare(alloc, files, output, dirs, layout_of(csv)))
}
