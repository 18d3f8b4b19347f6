//! Whether commands are those of a run.

ghost use Rattle.std.specs.Prelude.{◌↔◌, ℕ, IsTrue, IfNone, IfSome, IfErr, OnOk};
ghost use Rattle.page.specs.Rows.{IsFirstStranger, IsOfRun, IsOfRunAt, NamesFirstStranger};

use crate::fault::PageFault;
use command_table::list::CommandList;
use sim_base::command::IssuedCommand;
use statistics::stats::Stats;

// Whether the run has the channel and the cycle of a command.
fn is_of_run(stats: &Stats, row: &IssuedCommand) -> bool
    ensures { IsTrue result ↔ IsOfRun stats.now row.now }
{
    row.cycle < stats.cycles && (row.channel as usize) < stats.channels.len()
}

/// The place of the first command that is not of the run: of a channel or of a cycle that this does not have.
pub fn first_stranger(stats: &Stats, commands: &CommandList) -> Option<usize>
    ensures none { IfNone result ((place : ℕ) → IsOfRunAt stats.now commands.now place) }
    ensures first { IfSome result (IsFirstStranger stats.now commands.now) }
{
    'rows: for place in 0..commands.len() {
        if let Some(row) = commands.get(place)
            && !is_of_run(stats, &row)
        {
            return Some(place);
        }
    }
    None
}

/// Whether each command is of a channel and of a cycle of the run.
///
/// # Errors
///
/// `PageFault::Command` with the place of the first command that is not.
pub(crate) fn check_rows(stats: &Stats, commands: &CommandList) -> Result<(), PageFault>
    ensures all { OnOk result ((place : ℕ) → IsOfRunAt stats.now commands.now place) }
    ensures stranger { IfErr result (NamesFirstStranger stats.now commands.now) }
{
    match first_stranger(stats, commands) {
        None => Ok(()),
        Some(place) => Err(PageFault::Command(place)),
    }
}
