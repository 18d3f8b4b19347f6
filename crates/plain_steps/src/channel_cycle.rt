//! What a channel is given in a cycle.

ghost use Rattle.std.specs.Prelude.{◌≡◌, ◌<◌, ◌^◌};

use sim_base::command::IssuedCommand;
use sim_base::config::Config;
use timing::gap_table::GapTable;

/// A cycle of a channel: the configuration, with its table of distances, the commands that the channel issued before,
/// and the number of the cycle, below 2^41.
#[derive(Clone, Copy)]
pub struct ChannelCycle<'a> {
    pub config: &'a Config,
    pub gaps: &'a GapTable,
    pub history: &'a [IssuedCommand],
    pub number: u64,
    ghost one_table: { gaps.now ≡ config.now.timing },
    ghost early: { number < 2 ^ 41 },
}
