//! What is asked, in the terms of what answers it.

ghost use Rattle.std.specs.Prelude.{◌≡◌};
ghost use Rattle.program.specs.Answered.{layout_of, options_of};
ghost use Rattle.program.specs.Asked.{sharing_of};

use command_line::words::{PageArguments, RunArguments, Share, ShowArguments};
use compare::layout::Layout;
use page::window::{View, Window};
use show::options::Options;
use sim_base::message::Cycle;
use simulation::sharing::{Sharing, Workers};
use statistics::tables::Tables;

/// What a run is asked to be: the file of its configuration, the cycles after which it ends at the latest, its workers,
/// the tables that are asked for, the folder in which these are to be, and the files of its traces, one for each core.
#[derive(Clone, Copy)]
pub(crate) struct RunAsk<'a> {
    pub(crate) config: &'a str,
    pub(crate) cycles: Cycle,
    pub(crate) workers: Workers,
    pub(crate) tables: Tables,
    pub(crate) out: &'a str,
    pub(crate) traces: &'a [&'a str],
}

// So many workers, which share a machine out when the words say.
fn workers_of(count: u64, share: Share) -> Workers
    ensures count { result.count ≡ count }
    ensures sharing { result.sharing ≡ sharing_of share }
{
    let sharing = match share {
        Share::Auto => Sharing::default(),
        Share::Always => Sharing::always(),
    };
    Workers { count, sharing }
}

/// What a run is asked to be by its arguments.
pub(crate) fn run_ask<'a>(run: &'a RunArguments<'a>) -> RunAsk<'a>
    ensures config { result.config.now ≡ run.now.config.now }
    ensures cycles { result.cycles ≡ run.now.cycles }
    ensures workers { result.workers.count ≡ run.now.workers }
    ensures sharing { result.workers.sharing ≡ sharing_of run.now.share }
    ensures tables { result.tables ≡ run.now.tables }
    ensures out { result.out.now ≡ run.now.out.now }
    ensures traces { result.traces.now ≡ run.now.traces.items }
{
    RunAsk {
        config: run.config,
        cycles: run.cycles,
        workers: workers_of(run.workers, run.share),
        tables: run.tables,
        out: run.out,
        traces: &run.traces,
    }
}

/// How runs are compared: on a screen, or as a table of CSV.
pub(crate) fn layout_of(csv: bool) -> Layout
    ensures { result ≡ layout_of csv }
{
    if csv { Layout::Csv } else { Layout::Screen }
}

/// What a screen shows, and by which clock.
pub(crate) fn options_of(show: &ShowArguments<'_>) -> Options
    ensures { result ≡ options_of show.now }
{
    Options {
        all: show.all,
        khz: show.khz,
    }
}

/// What a page shows: its window of cycles, and its clock.
pub(crate) fn view_of(page: &PageArguments<'_>) -> View
    ensures from { result.window.from ≡ page.now.from }
    ensures cycles { result.window.cycles ≡ page.now.cycles }
    ensures clock { result.khz ≡ page.now.khz }
{
    let window = Window {
        from: page.from,
        cycles: page.cycles,
    };
    View {
        window,
        khz: page.khz,
    }
}
