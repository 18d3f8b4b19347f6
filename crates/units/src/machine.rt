//! What is simulated.

ghost use Rattle.std.specs.Prelude.{◌≡◌, ◌<◌, length};
ghost use Rattle.sim_base.specs.History.{trace_of};
ghost use Rattle.units.specs.Units.{unit_at, unit_count};

use cpu_trace::trace::Trace;
use sim_base::config::Config;
use sim_base::message::{ChannelId, CoreId, Unit};

/// A machine, with the trace of each core by number.
#[derive(Drop)]
pub struct Machine {
    pub config: Config,
    pub traces: Vec<Trace>,
}

impl Machine {
    /// How many entries the trace of a core has.
    pub(crate) fn trace_len(&self, core: usize) -> u64
        ensures { result ≡ length (trace_of self.now.traces.items core) }
    {
        match self.traces.get(core) {
            Some(trace) => trace.len(),
            None => 0,
        }
    }
}

/// The unit at a place: the cores come first, and then the channels, each by number.
#[inline(always)]
pub fn unit_at(config: &Config, place: usize) -> Unit
    requires { place < unit_count config.now }
    ensures { result ≡ unit_at config.now place }
{
    let cores = usize::from(config.cores);
    if place < cores {
        Unit::Core(place as CoreId)
    } else {
        Unit::Channel((place - cores) as ChannelId)
    }
}
