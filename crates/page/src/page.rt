//! The page of a run.

ghost use Rattle.std.specs.Prelude.{◌≡◌, ℕ, OnOk, IfErr};
ghost use Rattle.page.specs.Document.{WritesDocument};
ghost use Rattle.page.specs.Rows.{IsOfRunAt, IsReason};

use crate::fault::PageFault;
use crate::rows::check_rows;
use crate::run_pictures::document::{Run, write_document};
use crate::window::{Beside, RunCommands, View};
use std::alloc::Global;
use std::io::{ErrorKind, Write};

/// Writes the page of a run: its statistics, what its channels did over the whole run, and what they did in a window,
/// one command after the other. The commands are taken in the order of the list, which is to be that of their cycles.
/// Where the configuration is given, the page also has its keys with their values and the share of the cycles that
/// refreshes take, and draws a REF for as long as it takes. Where the clock is given, it also has the cycles, the
/// finish and the mean read latency of each core in ns, and the data rate of each channel in GB/s. Where the requests
/// are given, which are to be of the run, it also has a histogram of the read latency of each core, the median and 99th
/// percentile of all over the run, and where the time of the reads of each channel went.
///
/// The page is made in memory before it is written. It grows with the channels, the banks that the run uses and the
/// commands of the window, but not with the length of the run.
///
/// # Errors
///
/// `PageFault::Command` where a command is not of the run; nothing is then written. `PageFault::Memory` where memory is
/// refused, and `PageFault::Write` where the writer fails or takes no byte; how much went out before that is not known.
pub fn write_page<'a, W: Write>(
    alloc: Global,
    run: &RunCommands<'a>,
    beside: Beside<'a>,
    view: View,
    writer: &mut W,
) -> Result<(), PageFault>
    ensures written { OnOk result
        (WritesDocument (W.contents writer.old) (W.contents writer.new)) }
    ensures all_of_run { OnOk result ((place : ℕ)
        → IsOfRunAt run.now.stats.now run.now.commands.now place) }
    ensures refused { IfErr result (IsReason run.now.stats.now run.now.commands.now) }
    ensures unwritten { IfErr result (λ fault. (place : ℕ)
        → fault ≡ PageFault.Command place → writer.new ≡ writer.old) }
{
    check_rows(run.stats, run.commands)?;
    let stats = run.stats;
    let shown = Run {
        stats,
        commands: run.commands,
        config: beside.config,
        khz: view.khz,
        requests: beside.requests,
        from: view.window.from,
        end: view.window.end_in(stats.cycles),
    };
    match write_document(alloc, &shown, writer) {
        Ok(()) => Ok(()),
        Err(error) if error.kind() == ErrorKind::OutOfMemory => Err(PageFault::Memory),
        Err(_) => Err(PageFault::Write),
    }
}
