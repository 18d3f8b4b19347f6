//! The tables of a run in a folder: each that was asked for is written under a name of its own, and gets its place once
//! all are whole.

ghost use Rattle.std.specs.Prelude.{◌≡◌, ◌++◌, ◌∷◌, [], map, true, false, Some, option_map, IfOk, IfErr, OnOk, string_bytes};
ghost use Rattle.refusal.specs.Refusals.{fault_of, IsKept, IsTornRefusal};
ghost use Rattle.reports.specs.Rows.{WritesOnOk};
ghost use Rattle.sim_base.specs.Faults.{IsWriteFault};
ghost use Rattle.statistics.specs.Outcomes.{if_asked};
ghost use Rattle.whole_files.specs.Files.{SameFiles, SameBut};
ghost use Rattle.whole_files.specs.Tables.{commands_of, requests_of, path_in, plan_in, from_paths, paths_unless, other_paths, parts, SameOutside, AreApart, AreStaged, AreGone, ArePlaced, ArePartlyPlaced, AreRemoved, ArePut, IsLeftUnplaced, IsWritten, IsLeftBy};
ghost use Rattle.whole_files.specs.WholeFile.{part_of, from_path};
ghost use Rattle.whole_files.specs.Planned.{text_in, plans_of, plan_for};

use crate::files::FileSet;
use crate::moves::{Move, discard_one, move_in, path_of, place_one};
use command_table::table::CommandTable;
use refusal::reason::Reason;
use refusal::refusal::Refusal;
use reports::{TableThreads, write_commands_by, write_final, write_requests_by, write_stats};
use request_table::table::RequestTable;
use sim_base::fault::Fault;
use statistics::final_state::FinalState;
use statistics::outcome::Outcome;
use statistics::stats::Stats;
use std::alloc::Global;
use std::io::Write;
use std::thread::Threads;

/// The names of the tables, in the order in which they get their places.
const COMMANDS: &str = "commands.csv";

const STATS: &str = "stats.csv";

const FINAL: &str = "final.csv";

const REQUESTS: &str = "requests.csv";

/// What a table of a run is written from. The numbers are the ranks of each channel.
#[derive(Clone, Copy)]
enum Contents<'a> {
    Commands(u32, &'a CommandTable),
    Stats(&'a Stats),
    Final(u32, &'a FinalState),
    Requests(&'a RequestTable),
}

/// A table that is to be written, and its way to its place.
#[derive(Drop)]
struct PlannedTable<'a> {
    contents: Contents<'a>,
    way: Move,
}

/// Writes what a table holds.
fn write_contents<R: Threads + Sync, W: Write>(
    threads: &TableThreads<'_, R>,
    contents: &Contents<'_>,
    writer: &mut W,
) -> Result<(), Fault>
    ensures written { WritesOnOk result W.contents writer.old writer.new (text_in contents.now) }
    ensures refused { IfErr result (λ e. IsWriteFault e) }
{
    match contents {
        Contents::Commands(ranks, commands) => {
            write_commands_by(threads, *ranks, commands, writer)
        }
        Contents::Stats(stats) => write_stats(threads.alloc, stats, writer),
        Contents::Final(ranks, final_state) => {
            write_final(threads.alloc, final_state, *ranks, writer)
        }
        Contents::Requests(requests) => write_requests_by(threads, requests, writer),
    }
}

/// Writes a table under the name that ends in `.part`.
fn stage_one<R: Threads + Sync, F: FileSet>(
    threads: &TableThreads<'_, R>,
    files: &mut F,
    table: &PlannedTable<'_>,
) -> Result<(), Reason>
    ensures whole { OnOk result (F.tells
        → F.held files.new (from_path table.now.way) ≡ Some (text_in table.now.contents)) }
    ensures noted { OnOk result (F.tells
        → F.opened files.new ≡ F.opened files.old ++ from_path table.now.way ∷ []) }
    ensures fault { IfErr result (λ e. IsWriteFault e) }
    ensures others { F.tells
        → SameBut (from_path table.now.way) (F.held files.old) (F.held files.new) }
{
    let path = table.way.from.as_str();
    let mut out = files.create(threads.alloc, path)?;
    if let Err(fault) = write_contents(threads, &table.contents, &mut out) {
        return Err(files.cause(threads.alloc, path, &out, fault));
    }
    files.close(threads.alloc, path, out)
}

/// Adds a table to those that are to be written, if there is one.
fn plan<'a>(
    alloc: Global,
    folder: &str,
    name: &str,
    contents: Option<Contents<'a>>,
    planned: &mut Vec<PlannedTable<'a>>,
) -> Result<(), Fault>
    ensures planned { OnOk result (plans_of planned.new.items
        ≡ plans_of planned.old.items ++ plan_for folder.now name.now contents.entry) }
    ensures fault { IfErr result (λ e. e ≡ Fault.Memory) }
{
    let Some(contents) = contents else {
        return Ok(());
    };
    let part = part_name(alloc, name)?;
    let way = move_in(alloc, folder, part.as_str(), name)?;
    match planned.push(PlannedTable { contents, way }) {
        Ok(()) => Ok(()),
        Err(_) => Err(Fault::Memory),
    }
}

/// The contents of a table, if it is asked for.
fn if_asked<'a>(asked: bool, contents: Contents<'a>) -> Option<Contents<'a>>
    ensures { result ≡ if_asked asked contents.entry }
{
    if asked { Some(contents) } else { None }
}

fn commands_in(run: &Outcome) -> Option<Contents<'_>>
    ensures { option_map text_in result ≡ commands_of run.now }
{
    match &run.commands {
        Some(commands) => Some(Contents::Commands(run.ranks, commands)),
        None => None,
    }
}

fn requests_in(run: &Outcome) -> Option<Contents<'_>>
    ensures { option_map text_in result ≡ requests_of run.now }
{
    match &run.requests {
        Some(requests) => Some(Contents::Requests(requests)),
        None => None,
    }
}

/// The tables of an outcome that are asked for, with their ways to their places in a folder.
fn plan_all<'a>(
    alloc: Global,
    folder: &str,
    run: &'a Outcome,
) -> Result<Vec<PlannedTable<'a>>, Fault>
    ensures planned { IfOk result (λ planned.
        plans_of planned.items ≡ plan_in folder.now run.entry.now) }
    ensures fault { IfErr result (λ e. e ≡ Fault.Memory) }
{
    let mut planned = Vec::new(alloc);
    let stats = if_asked(run.tables.stats, Contents::Stats(&run.stats));
    let final_state = if_asked(run.tables.last, Contents::Final(run.ranks, &run.last));
    plan(alloc, folder, COMMANDS, commands_in(run), &mut planned)?;
    plan(alloc, folder, STATS, stats, &mut planned)?;
    plan(alloc, folder, FINAL, final_state, &mut planned)?;
    plan(alloc, folder, REQUESTS, requests_in(run), &mut planned)?;
    Ok(planned)
}

/// The name under which a table is written.
fn part_name(alloc: Global, name: &str) -> Result<String, Fault>
    ensures name { IfOk result (λ part. string_bytes part ≡ part_of name.now) }
    ensures fault { IfErr result (λ e. e ≡ Fault.Memory) }
{
    Ok(format!(in alloc; "{name}.part")?)
}

/// Adds the path of a name in a folder.
fn add_path(alloc: Global, folder: &str, name: &str, paths: &mut Vec<String>) -> Result<(), Fault>
    ensures paths { OnOk result (map string_bytes paths.new.items
        ≡ map string_bytes paths.old.items ++ path_in folder.now name.now ∷ []) }
    ensures fault { IfErr result (λ e. e ≡ Fault.Memory) }
{
    match paths.push(path_of(alloc, folder, name)?) {
        Ok(()) => Ok(()),
        Err(_) => Err(Fault::Memory),
    }
}

/// Adds the paths at which a table may stand that is not asked for: its own, and, where a run was killed that was asked
/// for it, the one at which it was written.
fn add_other(
    alloc: Global,
    folder: &str,
    name: &str,
    asked: bool,
    paths: &mut Vec<String>,
) -> Result<(), Fault>
    ensures paths { OnOk result (map string_bytes paths.new.items
        ≡ map string_bytes paths.old.items ++ paths_unless asked folder.now name.now) }
    ensures fault { IfErr result (λ e. e ≡ Fault.Memory) }
{
    if asked {
        return Ok(());
    }
    add_path(alloc, folder, name, paths)?;
    add_path(alloc, folder, part_name(alloc, name)?.as_str(), paths)
}

/// The paths at which tables may stand that are not asked for.
fn others_of(alloc: Global, folder: &str, run: &Outcome) -> Result<Vec<String>, Fault>
    ensures paths { IfOk result (λ paths.
        map string_bytes paths.items ≡ other_paths folder.now run.now) }
    ensures fault { IfErr result (λ e. e ≡ Fault.Memory) }
{
    let mut paths = Vec::new(alloc);
    add_other(alloc, folder, COMMANDS, run.commands.is_some(), &mut paths)?;
    add_other(alloc, folder, STATS, run.tables.stats, &mut paths)?;
    add_other(alloc, folder, FINAL, run.tables.last, &mut paths)?;
    add_other(alloc, folder, REQUESTS, run.requests.is_some(), &mut paths)?;
    Ok(paths)
}

/// Writes the tables, one after the other, under the names that end in `.part`.
fn stage<R: Threads + Sync, F: FileSet>(
    threads: &TableThreads<'_, R>,
    files: &mut F,
    planned: &[PlannedTable<'_>],
) -> Result<(), Reason>
    requires apart { AreApart (plans_of planned.now) }
    ensures whole { OnOk result (F.tells → AreStaged (plans_of planned.now) (F.held files.new)) }
    ensures noted { OnOk result (F.tells
        → F.opened files.new ≡ F.opened files.old ++ from_paths (plans_of planned.now)) }
    ensures fault { IfErr result (λ e. IsWriteFault e) }
    ensures others { F.tells
        → SameOutside (from_paths (plans_of planned.now)) (F.held files.old) (F.held files.new) }
{
    for table in planned {
        stage_one(threads, files, table)?;
    }
    Ok(())
}

/// Tests whether each table could get its place.
fn test_places<F: FileSet>(files: &mut F, planned: &[PlannedTable<'_>]) -> Result<(), Reason>
    ensures fault { IfErr result (λ e. IsWriteFault e) }
    ensures same { F.tells → SameFiles (F.held files.old) (F.held files.new) }
    ensures unopened { F.tells → F.opened files.new ≡ F.opened files.old }
{
    for table in planned {
        files.test_place(table.way.to.as_str())?;
    }
    Ok(())
}

/// Tests whether what may stand at these paths could be removed, as if it was replaced.
fn test_others<F: FileSet>(files: &mut F, others: &[String]) -> Result<(), Reason>
    ensures fault { IfErr result (λ e. IsWriteFault e) }
    ensures same { F.tells → SameFiles (F.held files.old) (F.held files.new) }
    ensures unopened { F.tells → F.opened files.new ≡ F.opened files.old }
{
    for path in others {
        files.test_place(path.as_str())?;
    }
    Ok(())
}

/// The refusal where a table could not get its place, after others got theirs or not.
fn refusal_of(reason: Reason, placed: bool) -> Refusal
    ensures fault { fault_of result ≡ reason }
    ensures kept { IsKept result → placed ≡ false }
    ensures torn { IsTornRefusal result → placed ≡ true }
{
    if placed {
        Refusal::Torn(reason)
    } else {
        Refusal::Kept(reason)
    }
}

/// Gives the tables their places, one right after the other.
fn place<F: FileSet>(
    alloc: Global,
    files: &mut F,
    planned: &[PlannedTable<'_>],
) -> Result<(), Refusal>
    requires apart { AreApart (plans_of planned.now) }
    ensures placed { OnOk result (F.tells
        → ArePlaced (plans_of planned.now) (F.held files.old) (F.held files.new)) }
    ensures kept { IfErr result (λ e. IsKept e → F.tells
        → SameFiles (F.held files.old) (F.held files.new)) }
    ensures torn { IfErr result (λ e. IsTornRefusal e → F.tells
        → ArePartlyPlaced (plans_of planned.now) (F.held files.old) (F.held files.new)) }
    ensures fault { IfErr result (λ e. IsWriteFault (fault_of e)) }
    ensures unopened { F.tells → F.opened files.new ≡ F.opened files.old }
{
    let mut placed = false;
    for table in planned {
        if let Err(reason) = place_one(alloc, files, &table.way) {
            return Err(refusal_of(reason, placed));
        }
        placed = true;
    }
    Ok(())
}

/// Removes all that was written under the names that end in `.part`, in reverse order: if only the first is gone, the
/// others are whole and wait for their places.
fn discard<F: FileSet>(files: &mut F, planned: &[PlannedTable<'_>])
    ensures gone { F.tells → AreGone (plans_of planned.now) (F.held files.new) }
    ensures others { F.tells
        → SameOutside (from_paths (plans_of planned.now)) (F.held files.old) (F.held files.new) }
{
    let mut left = planned.len();
    while left > 0 {
        left -= 1;
        discard_one(files, &planned[left].way);
    }
}

/// Removes what stands at these paths, as far as that can be.
fn remove_all<F: FileSet>(files: &mut F, paths: &[String])
    ensures removed { F.tells → AreRemoved (map string_bytes paths.now) (F.held files.new) }
    ensures others { F.tells
        → SameOutside (map string_bytes paths.now) (F.held files.old) (F.held files.new) }
    ensures unopened { F.tells → F.opened files.new ≡ F.opened files.old }
{
    for path in paths {
        let _ = files.remove(path.as_str());
    }
}

/// Tests whether all places are free or may give way.
fn test_all<F: FileSet>(
    files: &mut F,
    planned: &[PlannedTable<'_>],
    others: &[String],
) -> Result<(), Reason>
    ensures fault { IfErr result (λ e. IsWriteFault e) }
    ensures same { F.tells → SameFiles (F.held files.old) (F.held files.new) }
    ensures unopened { F.tells → F.opened files.new ≡ F.opened files.old }
{
    test_places(files, planned)?;
    test_others(files, others)
}

/// Writes the tables that are planned, and gives them their places. Faults that can be found beforehand are refused
/// before the first has its place.
fn write_planned<R: Threads + Sync, F: FileSet>(
    threads: &TableThreads<'_, R>,
    files: &mut F,
    planned: &[PlannedTable<'_>],
    others: &[String],
) -> Result<(), Refusal>
    requires apart { AreApart (plans_of planned.now) }
    ensures placed { OnOk result (F.tells
        → ArePut (plans_of planned.now) (F.held files.old) (F.held files.new)) }
    ensures noted { OnOk result (F.tells
        → F.opened files.new ≡ F.opened files.old ++ from_paths (plans_of planned.now)) }
    ensures refused { IfErr result (λ e. F.tells
        → IsLeftUnplaced e (plans_of planned.now) (F.held files.old) (F.held files.new)) }
    ensures fault { IfErr result (λ e. IsWriteFault (fault_of e)) }
{
    if let Err(reason) = stage(threads, files, planned) {
        discard(files, planned);
        return Err(Refusal::Kept(reason));
    }
    if let Err(reason) = test_all(files, planned, others) {
        discard(files, planned);
        return Err(Refusal::Kept(reason));
    }
    match place(threads.alloc, files, planned) {
        Ok(()) => Ok(()),
        Err(Refusal::Kept(reason)) => {
            discard(files, planned);
            Err(Refusal::Kept(reason))
        }
        Err(Refusal::Torn(reason)) => Err(Refusal::Torn(reason)),
    }
}

/// Writes the tables of a run that were asked for into a folder. Each is written under its name with `.part` appended,
/// and when all are whole, they get their places, one right after the other, in the order of `commands.csv`,
/// `stats.csv`, `final.csv` and `requests.csv`. Then those that were not asked for, which an earlier run may have left
/// there, whole or with `.part` appended, are removed. If that fails before the first has its place, what was written is
/// removed, and the places hold what they held before; if it fails later, the refusal is `Torn`, and nothing is removed.
/// `threads` put the tables of commands and of requests together, and their memory serves the rest of the call too.
pub fn write_tables<R: Threads + Sync, F: FileSet>(
    threads: &TableThreads<'_, R>,
    files: &mut F,
    folder: &str,
    run: &Outcome,
) -> Result<(), Refusal>
    ensures written { OnOk result (F.tells
        → IsWritten folder.now run.now (F.held files.old) (F.held files.new)) }
    ensures noted { OnOk result (F.tells
        → F.opened files.new ≡ F.opened files.old ++ parts folder.now run.now) }
    ensures refused { IfErr result (λ e. F.tells → IsLeftBy e folder.now run.now
        (F.held files.old) (F.held files.new) (F.opened files.old) (F.opened files.new)) }
    ensures fault { IfErr result (λ e. IsWriteFault (fault_of e)) }
{
    let planned = plan_all(threads.alloc, folder, run)?;
    let others = others_of(threads.alloc, folder, run)?;
    write_planned(threads, files, &planned, &others)?;
    remove_all(files, &others);
    Ok(())
}
