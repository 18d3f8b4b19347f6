//! The tables of a run, its statistics and its commands, from the files of its folder.

ghost use Rattle.std.specs.Prelude.{◌≡◌, ◌+◌, ◌<◌, length, IfOk, IfErr, OnOk};
ghost use Rattle.whole_files.specs.Files.{SameFiles};
ghost use Rattle.answers.specs.Inputs.{HoldTables, IsRunUnder, text_of, HasOwnCommands, HasStrangers, AreNoTables, AreTablesOf, RunFits, CanPage, BarsPage, AreTablesInFolder, CanPageIn, BarsPageIn};

use crate::described::{FileText, RunRecord, described, document_at};
use crate::explained::commands_of;
use crate::folder::RunFolder;
use command_table::list::CommandList;
use page::rows::first_stranger;
use refusal::reason::Reason;
use sim_base::fault::Fault;
use statistics::stats::Stats;
use std::alloc::{AllocError, Global};
use whole_files::files::FileSet;
use whole_files::moves::path_of;

/// The statistics of a run, its configuration where one is named, and its commands.
#[derive(Drop)]
pub(crate) struct RunTables {
    pub(crate) run: RunRecord,
    pub(crate) commands: CommandList,
}

// The row of a command in its table, where 0 is the header.
fn row_of(commands: &CommandList, place: usize) -> u64
    requires there { place < length commands.now }
    ensures { result ≡ place + 1 }
{
    prove!(place < commands.len());
    place as u64 + 1
}

// What explains that a command is not of the run.
fn explain_stranger(
    alloc: Global,
    path: &str,
    stats: &Stats,
    row: u64,
) -> Result<String, AllocError> {
    let (cycles, channels) = (stats.cycles, stats.channels.len());
    format!(in alloc;
        "{path}: row {row} is none of the run: that has the cycles below {cycles} and the channels below {channels}\n"
    )
}

// Refuses commands that are not of the run.
fn check_of_run(alloc: Global, path: &str, found: &RunTables) -> Result<(), Reason>
    ensures of_run { OnOk result (HasOwnCommands found.now) }
    ensures fault { IfErr result (HasStrangers found.now) }
{
    match first_stranger(&found.run.stats, &found.commands) {
        None => Ok(()),
        Some(place) => {
            let row = row_of(&found.commands, place);
            let more = explain_stranger(alloc, path, &found.run.stats, row);
            Err(Reason::explained(Fault::CheckRow(row), more))
        }
    }
}

// What two tables hold, under the configuration that is named, if one is. The commands have to be of the run.
fn read_tables(
    alloc: Global,
    document: &Option<FileText<'_>>,
    stats: &FileText<'_>,
    commands: &FileText<'_>,
) -> Result<RunTables, Reason>
    ensures tables { IfOk result (HoldTables stats.now commands.now) }
    ensures configured { IfOk result (λ found. IsRunUnder (text_of document.now) found.run) }
    ensures of_run { IfOk result HasOwnCommands }
    ensures fault { IfErr result (AreNoTables (text_of document.now) stats.now commands.now) }
{
    let run = described(alloc, document, stats.path, &stats.bytes)?;
    let rows = commands_of(alloc, commands.path, &commands.bytes)?;
    let found = RunTables {
        run,
        commands: rows,
    };
    check_of_run(alloc, commands.path, &found)?;
    Ok(found)
}

// What the tables in two files hold.
fn tables_at<F: FileSet>(
    alloc: Global,
    files: &mut F,
    config: Option<&str>,
    stats: &str,
    commands: &str,
) -> Result<RunTables, Reason>
    ensures tables { IfOk result (AreTablesOf F.FileSet files.old stats.now commands.now) }
    ensures fits { IfOk result (λ found. RunFits F.FileSet files.old config.entry found.run) }
    ensures of_run { IfOk result HasOwnCommands }
    ensures ready { IfOk result (CanPage F.FileSet files.old config.entry stats.now commands.now) }
    ensures fault { IfErr result
        (BarsPage F.FileSet files.old config.entry stats.now commands.now) }
    ensures same { F.tells → SameFiles (F.held files.old) (F.held files.new) }
    ensures unopened { F.tells → F.opened files.new ≡ F.opened files.old }
{
    let document = document_at(alloc, files, config)?;
    let stats_table = files.read(alloc, stats)?;
    let commands_table = files.read(alloc, commands)?;
    let stats = FileText {
        path: stats,
        bytes: stats_table,
    };
    let commands = FileText {
        path: commands,
        bytes: commands_table,
    };
    read_tables(alloc, &document, &stats, &commands)
}

/// What the tables of the run in a folder hold. Its commands have to be of the run.
pub(crate) fn tables_in<F: FileSet>(
    alloc: Global,
    files: &mut F,
    folder: &RunFolder<'_>,
) -> Result<RunTables, Reason>
    ensures tables { IfOk result (AreTablesInFolder F.FileSet files.old folder.now) }
    ensures fits { IfOk result (λ found. RunFits F.FileSet files.old folder.now.config found.run) }
    ensures of_run { IfOk result HasOwnCommands }
    ensures ready { IfOk result (CanPageIn F.FileSet files.old folder.now) }
    ensures fault { IfErr result (BarsPageIn F.FileSet files.old folder.now) }
    ensures same { F.tells → SameFiles (F.held files.old) (F.held files.new) }
    ensures unopened { F.tells → F.opened files.new ≡ F.opened files.old }
{
    let stats = path_of(alloc, folder.dir, "stats.csv")?;
    let commands = path_of(alloc, folder.dir, "commands.csv")?;
    tables_at(
        alloc,
        files,
        folder.config,
        stats.as_str(),
        commands.as_str(),
    )
}
