//! The outcome of a run.

use crate::final_state::FinalState;
use crate::stats::Stats;
use crate::tables::Tables;
use command_table::table::CommandTable;
use request_table::table::RequestTable;
use std::marker::Model;

/// What a run did and left.
#[derive(Drop)]
pub struct Outcome {
    /// The tables that were asked for.
    pub tables: Tables,
    /// The commands of all channels, by cycle and then by channel, if their table was asked for.
    pub commands: Option<CommandTable>,
    /// The requests that were served, in the order of their commands, if their table was asked for.
    pub requests: Option<RequestTable>,
    pub stats: Stats,
    /// The state before the cycle that would be the run's next.
    pub last: FinalState,
    /// Ranks of each channel.
    pub ranks: u32,
}

impl Model for Outcome {
    ghost use Rattle.statistics.specs.Values.{RunOutcome};

    ghost Value = { RunOutcome };

    ghost view = { λ o. record { tables = o.tables; commands = o.commands; requests = o.requests; stats = o.stats; last = o.last; ranks = o.ranks } };
}
