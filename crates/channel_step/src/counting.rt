//! What is counted of a cycle.

ghost use Rattle.std.specs.Prelude.{◌≡◌};
ghost use Rattle.statistics.specs.Channels.{draining_of};

use sim_base::config::Config;

/// A number of cycles in which the channel drained its writes; None if it never drains.
pub(crate) fn draining_of(config: &Config, cycles: u64) -> Option<u64>
    ensures { result ≡ draining_of config.now cycles }
{
    if 0 < config.write_high {
        Some(cycles)
    } else {
        None
    }
}
