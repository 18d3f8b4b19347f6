//! The requests of a run, where a file of its folder holds their table.

ghost use Rattle.std.specs.Prelude.{◌≡◌, IfOk, IfErr, OnOk};
ghost use Rattle.rule_check.specs.Verdict.{records_of};
ghost use Rattle.run_tables.specs.Records.{IsRefusedFor};
ghost use Rattle.run_tables.specs.Requests.{IsRequestTable, HoldsRequests};
ghost use Rattle.whole_files.specs.Files.{SameFiles};
ghost use Rattle.answers.specs.Requests.{AreRequestsOf, IsNoRequests};
ghost use Rattle.answers.specs.Inputs.{IsTextAt, ReadsRequests, BarsRequests, FindsRequests, BarsRequestsIn, GetsRequests};

use explain::{TableKind, of_table};
use measures::request_check::agreement::{Mismatch, check_requests, row_of};
use measures::request_check::tally::{Tally, told};
use refusal::reason::Reason;
use request_table::times::RequestTimes;
use run_tables::read_requests;
use show::options::Options;
use show::show_requests;
use sim_base::fault::Fault;
use statistics::stats::Stats;
use std::alloc::{AllocError, Global};
use whole_files::files::FileSet;
use whole_files::moves::path_of;

// The rows of a table of requests.
fn rows_of(alloc: Global, path: &str, table: &[u8]) -> Result<Vec<RequestTimes>, Reason>
    ensures read { IfOk result (λ rows. IsRequestTable (records_of table.now) rows.items) }
    ensures refused { IfErr result (IsRefusedFor HoldsRequests (records_of table.now)) }
{
    match read_requests(alloc, table) {
        Ok(rows) => Ok(rows),
        Err(fault) => Err(Reason::explained(
            fault,
            of_table(alloc, fault, TableKind::Requests, path, table),
        )),
    }
}

// What a count counts, of which unit.
fn words_of(tally: Tally) -> (&'static str, &'static str, usize) {
    match tally {
        Tally::Replies(core) => ("replies", "core", core),
        Tally::ReadLatency(core) => ("cycles of read latency", "core", core),
        Tally::Reads(channel) => ("reads", "channel", channel),
        Tally::Writes(channel) => ("writes", "channel", channel),
        Tally::Hits(channel) => ("row hits", "channel", channel),
    }
}

// What is said of a count that differs.
fn tally_text(
    alloc: Global,
    path: &str,
    row: u64,
    tally: Tally,
    stats: &Stats,
) -> Result<String, AllocError> {
    let (what, unit, number) = words_of(tally);
    let told = told(tally, stats);
    format!(in alloc;
        "{path}: row {row} is not of the run of stats.csv, which has {told} {what} of {unit} {number}\n"
    )
}

// What is said of requests that are not of the run.
fn mismatch_text(
    alloc: Global,
    path: &str,
    row: u64,
    mismatch: Mismatch,
    stats: &Stats,
) -> Result<String, AllocError> {
    match mismatch {
        Mismatch::Stranger(_) => {
            let (cycles, cores, channels) = (stats.cycles, stats.cores.len(), stats.channels.len());
            format!(in alloc;
                "{path}: row {row} is none of the run: that has the cycles below {cycles}, the cores below {cores} and the channels below {channels}\n"
            )
        }
        Mismatch::Excess(tally, _) | Mismatch::Lack(tally) => {
            tally_text(alloc, path, row, tally, stats)
        }
    }
}

// The requests of the run of these statistics whose table this is.
fn requests_of(
    alloc: Global,
    path: &str,
    stats: &Stats,
    table: &[u8],
) -> Result<Vec<RequestTimes>, Reason>
    ensures found { IfOk result (λ rows. AreRequestsOf table.now stats.now rows.items) }
    ensures fault { IfErr result (IsNoRequests table.now stats.now) }
{
    let rows = rows_of(alloc, path, table)?;
    match check_requests(stats, &rows) {
        Ok(()) => Ok(rows),
        Err(mismatch) => {
            let row = row_of(mismatch, stats, &rows);
            let more = mismatch_text(alloc, path, row, mismatch, stats);
            Err(Reason::explained(Fault::CheckRow(row), more))
        }
    }
}

// What a file holds, if it can be read.
fn text_at<F: FileSet>(alloc: Global, files: &mut F, path: &str) -> Result<Option<Vec<u8>>, Reason>
    ensures text { IfOk result (IsTextAt F.FileSet files.old path.now) }
    ensures fault { IfErr result (λ e. e ≡ Fault.Memory) }
    ensures same { F.tells → SameFiles (F.held files.old) (F.held files.new) }
    ensures unopened { F.tells → F.opened files.new ≡ F.opened files.old }
{
    match files.read(alloc, path) {
        Ok(text) => Ok(Some(text)),
        Err(reason) => match reason.fault() {
            Fault::Read => Ok(None),
            _ => Err(reason),
        },
    }
}

// The requests of the run of these statistics whose table a file holds, if it can be read.
fn requests_at<F: FileSet>(
    alloc: Global,
    files: &mut F,
    path: &str,
    stats: &Stats,
) -> Result<Option<Vec<RequestTimes>>, Reason>
    ensures found { IfOk result (ReadsRequests F.FileSet files.old path.now stats.now) }
    ensures fault { IfErr result (BarsRequests F.FileSet files.old path.now stats.now) }
    ensures same { F.tells → SameFiles (F.held files.old) (F.held files.new) }
    ensures unopened { F.tells → F.opened files.new ≡ F.opened files.old }
{
    match text_at(alloc, files, path)? {
        Some(text) => Ok(Some(requests_of(alloc, path, stats, &text)?)),
        None => Ok(None),
    }
}

/// The requests of the run whose tables are in a folder, where the table of requests is there and can be read: they
/// have to be of the run of these statistics.
pub(crate) fn requests_in<F: FileSet>(
    alloc: Global,
    files: &mut F,
    dir: &str,
    stats: &Stats,
) -> Result<Option<Vec<RequestTimes>>, Reason>
    ensures found { IfOk result (FindsRequests F.FileSet files.old dir.now stats.now) }
    ensures fault { IfErr result (BarsRequestsIn F.FileSet files.old dir.now stats.now) }
    ensures same { F.tells → SameFiles (F.held files.old) (F.held files.new) }
    ensures unopened { F.tells → F.opened files.new ≡ F.opened files.old }
{
    let path = path_of(alloc, dir, "requests.csv")?;
    requests_at(alloc, files, path.as_str(), stats)
}

/// Puts what there is to say of requests behind a screen; nothing where there are none. The only error is out of
/// memory.
pub(crate) fn add_requests(
    alloc: Global,
    stats: &Stats,
    requests: &Option<Vec<RequestTimes>>,
    options: Options,
    screen: &mut String,
) -> Result<(), AllocError>
    ensures { OnOk result (
        GetsRequests stats.now options requests.now screen.old screen.new) }
{
    let Some(requests) = requests else {
        return Ok(());
    };
    let cores = u16::try_from(stats.cores.len()).unwrap_or(u16::MAX);
    let channels = u32::try_from(stats.channels.len()).unwrap_or(u32::MAX);
    let text = show_requests(alloc, cores, channels, requests, options)?;
    screen.push_str(text.as_str())
}
