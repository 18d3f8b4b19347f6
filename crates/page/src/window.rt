//! What a page shows: the cycles of its timeline, its clock, and what is known of the run.

ghost use Rattle.std.specs.Prelude.{◌≡◌, ◌+◌, min};

use command_table::list::CommandList;
use request_table::times::RequestTimes;
use sim_base::config::Config;
use statistics::stats::Stats;

/// A number of cycles, from a cycle on.
#[derive(Clone, Copy)]
pub struct Window {
    pub from: u64,
    pub cycles: u64,
}

/// The window of the timeline, and the clock in kHz, where times are shown too.
#[derive(Clone, Copy)]
pub struct View {
    pub window: Window,
    pub khz: Option<u64>,
}

/// The statistics of a run, and its commands.
#[derive(Clone, Copy)]
pub struct RunCommands<'a> {
    pub stats: &'a Stats,
    pub commands: &'a CommandList,
}

/// What is known of a run beside its statistics and its commands: its configuration and its requests.
#[derive(Clone, Copy)]
pub struct Beside<'a> {
    pub config: Option<&'a Config>,
    pub requests: Option<&'a [RequestTimes]>,
}

impl Window {
    /// The cycle after the last one, in a run of `cycles` cycles.
    pub(crate) fn end_in(self, cycles: u64) -> u64
        ensures { result ≡ min (self.from + self.cycles) cycles }
    {
        self.from.saturating_add(self.cycles).min(cycles)
    }
}
