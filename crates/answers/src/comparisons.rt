//! Runs beside the first of them.

ghost use Rattle.std.specs.Prelude.{◌≡◌, ◌≢◌, length, IfOk, IfErr, OnOk};
ghost use Rattle.answers.specs.Answers.{stats_path};
ghost use Rattle.answers.specs.Inputs.{Prints, IsUnread, stats_paths, IsTableIn, AreStatsTablesIn, GiveRuns, GiveNoRuns, AreRunsIn, CanCompare, BarsCompare, BarsRequestsIn, IsTailInFolder, AreTailsIn, BarsTails, Compares, RefusesCompare};
ghost use Rattle.answers.specs.Requests.{IsTailOf};
ghost use Rattle.whole_files.specs.Files.{SameFiles, IsReadFault};

use crate::explained::statistics_of;
use crate::print::print_text;
use crate::requests::requests_in;
use compare::compare_text;
use compare::layout::Layout;
use measures::request_measures::latency::latency_percentiles;
use refusal::reason::Reason;
use request_table::times::RequestTimes;
use sim_base::fault::Fault;
use sim_base::message::Cycle;
use statistics::stats::Stats;
use std::alloc::{AllocError, Global};
use std::io::Write;
use whole_files::files::FileSet;
use whole_files::moves::path_of;

/// The table of statistics of a run, and its file.
#[derive(Drop)]
struct StatsTable {
    path: String,
    bytes: Vec<u8>,
}

// The table of the run in a folder.
fn table_in<F: FileSet>(alloc: Global, files: &mut F, dir: &str) -> Result<StatsTable, Reason>
    ensures text { IfOk result (IsTableIn F.FileSet files.old dir.now) }
    ensures fault { IfErr result (IsReadFault F.tells (F.held files.old (stats_path dir.now))) }
    ensures same { F.tells → SameFiles (F.held files.old) (F.held files.new) }
    ensures unopened { F.tells → F.opened files.new ≡ F.opened files.old }
{
    let path = path_of(alloc, dir, "stats.csv")?;
    let bytes = files.read(alloc, path.as_str())?;
    Ok(StatsTable { path, bytes })
}

// The tables of the runs in folders.
fn tables_in<F: FileSet>(
    alloc: Global,
    files: &mut F,
    dirs: &[&str],
) -> Result<Vec<StatsTable>, Reason>
    ensures texts { IfOk result (AreStatsTablesIn F.FileSet files.old dirs.now) }
    ensures count { IfOk result (λ tables. length tables.items ≡ length dirs.now) }
    ensures fault { IfErr result (IsUnread F.FileSet files.old (stats_paths dirs.now)) }
    ensures same { F.tells → SameFiles (F.held files.old) (F.held files.new) }
    ensures unopened { F.tells → F.opened files.new ≡ F.opened files.old }
{
    let mut tables = Vec::new(alloc);
    for dir in dirs {
        let table = table_in(alloc, files, dir)?;
        tables.push(table).or(Err(Fault::Memory))?;
    }
    Ok(tables)
}

// The statistics that tables hold.
fn runs_of(alloc: Global, tables: &[StatsTable]) -> Result<Vec<Stats>, Reason>
    ensures read { IfOk result (GiveRuns tables.now) }
    ensures fault { IfErr result (GiveNoRuns tables.now) }
{
    let mut runs = Vec::new(alloc);
    for table in tables {
        let stats = statistics_of(alloc, table.path.as_str(), &table.bytes)?;
        runs.push(stats).or(Err(Fault::Memory))?;
    }
    Ok(runs)
}

// The statistics of the runs in folders; each table is read before one is looked at.
fn runs_in<F: FileSet>(alloc: Global, files: &mut F, dirs: &[&str]) -> Result<Vec<Stats>, Reason>
    ensures runs { IfOk result (AreRunsIn F.FileSet files.old dirs.now) }
    ensures count { IfOk result (λ runs. length runs.items ≡ length dirs.now) }
    ensures ready { IfOk result (CanCompare F.FileSet files.old dirs.now) }
    ensures fault { IfErr result (BarsCompare F.FileSet files.old dirs.now) }
    ensures same { F.tells → SameFiles (F.held files.old) (F.held files.new) }
    ensures unopened { F.tells → F.opened files.new ≡ F.opened files.old }
{
    let tables = tables_in(alloc, files, dirs)?;
    runs_of(alloc, &tables)
}

// The 99th percentile of the latencies of these requests.
fn tail_of(alloc: Global, requests: &[RequestTimes]) -> Result<Option<Cycle>, AllocError>
    ensures { IfOk result (IsTailOf requests.now) }
{
    match latency_percentiles(alloc, requests)? {
        Some(found) => Ok(Some(found.p99)),
        None => Ok(None),
    }
}

// The 99th percentile of the read latencies of the run in a folder, where that has a table of requests.
fn tail_in<F: FileSet>(
    alloc: Global,
    files: &mut F,
    dir: &str,
    stats: &Stats,
) -> Result<Option<Option<Cycle>>, Reason>
    ensures found { IfOk result (IsTailInFolder F.FileSet files.old dir.now stats.now) }
    ensures fault { IfErr result (BarsRequestsIn F.FileSet files.old dir.now stats.now) }
    ensures same { F.tells → SameFiles (F.held files.old) (F.held files.new) }
    ensures unopened { F.tells → F.opened files.new ≡ F.opened files.old }
{
    match requests_in(alloc, files, dir, stats)? {
        Some(requests) => Ok(Some(tail_of(alloc, &requests)?)),
        None => Ok(None),
    }
}

// The 99th percentile of each of the runs in folders, if each has a table of requests; else none.
fn tails_in<F: FileSet>(
    alloc: Global,
    files: &mut F,
    dirs: &[&str],
    runs: &[Stats],
) -> Result<Vec<Option<Cycle>>, Reason>
    requires { length runs.now ≡ length dirs.now }
    ensures tails { IfOk result (AreTailsIn F.FileSet files.old dirs.now runs.now) }
    ensures fault { IfErr result (BarsTails F.FileSet files.old dirs.now runs.now) }
    ensures same { F.tells → SameFiles (F.held files.old) (F.held files.new) }
    ensures unopened { F.tells → F.opened files.new ≡ F.opened files.old }
{
    let mut tails = Vec::new(alloc);
    for (place, dir) in dirs.iter().enumerate() {
        match tail_in(alloc, files, dir, &runs[place])? {
            Some(tail) => tails.push(tail).or(Err(Fault::Memory))?,
            None => return Ok(Vec::new(alloc)),
        }
    }
    Ok(tails)
}

/// `compare DIR DIR... [--csv]`: prints the runs whose tables are in folders beside the first of them, with p99 of the
/// read latencies where each folder has a table of requests. It opens and changes no file.
///
/// # Errors
///
/// The first of these: `Fault::Read` of a file; `Fault::CheckRow` of the first wrong record of the first table of
/// statistics that has one; `Fault::CheckRow` of the requests of the first folder in which they are wrong or not of its
/// run, up to a folder that has none; `Fault::Write` where the answer cannot be written. `Fault::Memory` may come at
/// any time.
pub fn perform_compare<F: FileSet, P: Write>(
    alloc: Global,
    files: &mut F,
    output: &mut P,
    dirs: &[&str],
    layout: Layout,
) -> Result<(), Reason>
    ensures compared { let printed = Prints P.Write output.old output.new in
        OnOk result (Compares F.FileSet files.old dirs.now layout printed) }
    ensures fault { IfErr result (RefusesCompare F.FileSet files.old dirs.now) }
    ensures unprinted { IfErr result (λ e. e ≢ Fault.Write → output.new ≡ output.old) }
    ensures same { F.tells → SameFiles (F.held files.old) (F.held files.new) }
    ensures unopened { F.tells → F.opened files.new ≡ F.opened files.old }
{
    let runs = runs_in(alloc, files, dirs)?;
    let tails = tails_in(alloc, files, dirs, &runs)?;
    let text = compare_text(alloc, layout, dirs, &runs, &tails)?;
    print_text(alloc, output, text.as_str())
}
