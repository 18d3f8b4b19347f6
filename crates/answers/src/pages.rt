//! The page of a run, from the tables in its folder. What is drawn in it is covered by tests, not by a contract.

ghost use Rattle.std.specs.Prelude.{◌≡◌, ◌⊎◌, IfOk, IfErr, OnOk, OnErr, IsOk, IsOkAnd, IsErrAnd};
ghost use Rattle.page.specs.Document.{IsDocument};
ghost use Rattle.refusal.specs.Warnings.{IsWarningOf};
ghost use Rattle.whole_files.specs.Files.{SameFiles};
ghost use Rattle.sim_base.specs.Faults.{IsWriteFault};
ghost use Rattle.whole_files.specs.WholeFile.{part_of};
ghost use Rattle.answers.specs.Inputs.{HasOwnCommands, FindsSomeRequests, BarsPageOf, PutsPage, MakesPage, OpensOne, LeavesUnwritten, RefusesPage};

use crate::folder::RunFolder;
use crate::requests::requests_in;
use crate::tables::{RunTables, tables_in};
use page::fault::PageFault;
use page::page::write_page;
use page::window::{Beside, RunCommands, View, Window};
use refusal::reason::Reason;
use refusal::warning::{LARGE_PAGE, LargePage};
use request_table::times::RequestTimes;
use sim_base::fault::Fault;
use std::alloc::Global;
use whole_files::files::FileSet;
use whole_files::whole_file::write_whole;

/// What a page shows: its window and its clock, and the requests of the run, if there is a table of them.
#[derive(Clone, Copy)]
struct Shown<'a> {
    view: View,
    requests: Option<&'a [RequestTimes]>,
}

/// The text of a page, and what is warned of.
#[derive(Drop)]
struct Page {
    text: Vec<u8>,
    warning: Option<LargePage>,
}

/// How many windows are tried for a page that is not too long.
const MOST_TRIED: u32 = 8;

// Requests that may be there.
fn rows_of(requests: &Option<Vec<RequestTimes>>) -> Option<&[RequestTimes]> {
    match requests {
        Some(requests) => Some(requests.as_slice()),
        None => None,
    }
}

// The text of the page, which is made before a file is opened.
fn page_text(alloc: Global, found: &RunTables, shown: Shown<'_>) -> Result<Vec<u8>, Reason>
    requires { HasOwnCommands found.now }
    ensures document { IfOk result (λ text. IsDocument text.items) }
    ensures fault { IfErr result IsWriteFault }
{
    let mut text = Vec::new(alloc);
    let run = RunCommands {
        stats: &found.run.stats,
        commands: &found.commands,
    };
    let beside = Beside {
        config: found.run.config.as_ref(),
        requests: shown.requests,
    };
    match write_page(alloc, &run, beside, shown.view, &mut text) {
        Ok(()) => Ok(text),
        Err(PageFault::Command(_)) => unreachable!(),
        Err(PageFault::Memory) => Err(Reason::from(Fault::Memory)),
        Err(PageFault::Write) => Err(Reason::from(Fault::Write)),
    }
}

// So many cycles of the window that they would make a page of 49 MB, if its length grew with them alone.
fn in_proportion(cycles: u64, bytes: u64) -> u64 {
    let thousandths = LARGE_PAGE / 50 * 49 / (bytes / 1_000 + 1);
    match thousandths {
        0..1_000 => cycles / 1_000 * thousandths + cycles % 1_000 * thousandths / 1_000,
        _ => cycles,
    }
}

// The window with a number of cycles, of those that were tried, that gives a page of at most 50 MB. None where none of
// them does, or memory is refused.
fn cycles_that_fit(alloc: Global, found: &RunTables, shown: Shown<'_>, bytes: u64) -> Option<u64>
    requires { HasOwnCommands found.now }
{
    let View { window, khz } = shown.view;
    let left = found.run.stats.cycles.saturating_sub(window.from);
    let mut fewer = Window {
        from: window.from,
        cycles: window.cycles.min(left),
    };
    let mut bytes = bytes;
    for _ in 0..MOST_TRIED {
        fewer.cycles = in_proportion(fewer.cycles, bytes);
        let view = View { window: fewer, khz };
        bytes = page_text(alloc, found, Shown { view, ..shown }).ok()?.len() as u64;
        if bytes <= LARGE_PAGE {
            return Some(fewer.cycles);
        }
    }
    None
}

// What is warned of where a page is long.
fn warning_of(alloc: Global, found: &RunTables, shown: Shown<'_>, text: &[u8]) -> Option<LargePage>
    requires { HasOwnCommands found.now }
    ensures { IsWarningOf text.now result }
{
    let bytes = text.len() as u64;
    if bytes <= LARGE_PAGE {
        return None;
    }
    Some(LargePage {
        bytes,
        cycles: cycles_that_fit(alloc, found, shown, bytes),
    })
}

// The page of the run in a folder.
fn page_in<F: FileSet>(
    alloc: Global,
    files: &mut F,
    dir: &str,
    found: &RunTables,
    view: View,
) -> Result<Page, Reason>
    requires { HasOwnCommands found.now }
    ensures requests { let stats = found.now.run.stats in
        OnOk result (FindsSomeRequests F.FileSet files.old dir.now stats) }
    ensures document { IfOk result (λ page. IsDocument page.text.items) }
    ensures warned { IfOk result (λ page. IsWarningOf page.text.items page.warning) }
    ensures fault { IfErr result (BarsPageOf F.FileSet files.old dir.now found.now) }
    ensures same { F.tells → SameFiles (F.held files.old) (F.held files.new) }
    ensures unopened { F.tells → F.opened files.new ≡ F.opened files.old }
{
    let requests = requests_in(alloc, files, dir, &found.run.stats)?;
    let shown = Shown {
        view,
        requests: rows_of(&requests),
    };
    let text = page_text(alloc, found, shown)?;
    let warning = warning_of(alloc, found, shown, &text);
    Ok(Page { text, warning })
}

// Writes a page as a file, unless it is refused. What is given back is its warning.
fn put_page<F: FileSet>(
    alloc: Global,
    files: &mut F,
    file: &str,
    page: Result<Page, Reason>,
) -> Result<Option<LargePage>, Reason>
    ensures put { IfOk result (λ warning.
        IsOkAnd page (PutsPage F.FileSet files.old files.new file.now warning)) }
    ensures noted { OnOk result (OpensOne F.FileSet files.old files.new (part_of file.now)) }
    ensures refused { OnErr result (LeavesUnwritten F.FileSet files.old files.new file.now) }
    ensures fault { IfErr result (λ e.
        (IsWriteFault e × IsOk page) ⊎ IsErrAnd page (λ f. e ≡ f)) }
{
    match page {
        Ok(page) => {
            write_whole(alloc, files, file, &page.text)?;
            Ok(page.warning)
        }
        Err(reason) => Err(reason),
    }
}

/// `page DIR FILE [--config FILE] [--mhz N] [--from N] [--cycles N]`: draws the run whose tables are in a folder, and
/// its commands in a window of cycles, with what its configuration, its clock and its table of requests add, as a file
/// that is written whole or not at all. What is given back is a warning of a page of more than 50 MB (50,000,000
/// bytes), with how many cycles of the window would give one that is not.
///
/// # Errors
///
/// The first of these: `Fault::Read` of a file; the first fault of the configuration; `Fault::CheckRow` of the first
/// wrong record of the statistics; `Fault::ConfigRange` of `cores` or `channels` where the configuration has another
/// number of them than the run; `Fault::CheckRow` of the first wrong record of the commands, of the first command that
/// is not of the run, of the first wrong record of the requests, or of the row in which they stop being of the run;
/// `Fault::Write` where the file cannot be written. `Fault::Memory` may come at any time.
pub fn perform_page<F: FileSet>(
    alloc: Global,
    files: &mut F,
    folder: &RunFolder<'_>,
    file: &str,
    view: View,
) -> Result<Option<LargePage>, Reason>
    ensures done { IfOk result (MakesPage F.FileSet files.old files.new folder.now file.now) }
    ensures noted { OnOk result (OpensOne F.FileSet files.old files.new (part_of file.now)) }
    ensures refused { OnErr result (LeavesUnwritten F.FileSet files.old files.new file.now) }
    ensures fault { IfErr result (RefusesPage F.FileSet files.old folder.now) }
{
    let found = tables_in(alloc, files, folder)?;
    let page = page_in(alloc, files, folder.dir, &found, view);
    put_page(alloc, files, file, page)
}
