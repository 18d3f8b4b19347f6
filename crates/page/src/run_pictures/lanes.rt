//! The banks of a channel, as the commands so far leave them.

use sim_base::command::{Command, IssuedCommand, Source};
use sim_base::place::BankId;

/// The row that is open in a bank, and the cycle of its ACT.
#[derive(Clone, Copy)]
pub(crate) struct OpenRow {
    pub(crate) row: u32,
    pub(crate) since: u64,
}

/// What is known of a bank after some commands.
#[derive(Clone, Copy)]
pub(crate) struct LaneState {
    pub(crate) open: Option<OpenRow>,
    /// The cycle of the last REF of its rank.
    pub(crate) refreshed: Option<u64>,
}

/// Before the first command.
const CLOSED: LaneState = LaneState {
    open: None,
    refreshed: None,
};

/// A bank of a channel, which has a lane in the timeline.
#[derive(Clone, Copy)]
pub(crate) struct Lane {
    pub(crate) id: BankId,
    pub(crate) state: LaneState,
    /// The state before the timeline's first cycle.
    pub(crate) before: LaneState,
    /// The request in whose name the last ACT was issued.
    pub(crate) opened_by: Option<Source>,
}

impl Lane {
    pub(crate) fn new(id: BankId) -> Lane {
        Lane {
            id,
            state: CLOSED,
            before: CLOSED,
            opened_by: None,
        }
    }

    /// Whether a command names the bank, or its whole rank.
    pub(crate) fn is_named_by(&self, command: Command) -> bool {
        match command.bank() {
            Some(bank) => self.id.is_bank(bank),
            None => self.id.rank == command.rank(),
        }
    }

    /// Follows a command. Gives the row that it closes, if it closes one.
    pub(crate) fn follow(&mut self, row: &IssuedCommand) -> Option<OpenRow> {
        if !self.is_named_by(row.command) {
            return None;
        }
        match row.command {
            Command::Act {
                row: opened,
                source,
                ..
            } => {
                self.state.open = Some(OpenRow {
                    row: opened,
                    since: row.cycle,
                });
                self.opened_by = Some(source);
                None
            }
            Command::Pre { .. } | Command::Prea { .. } => self.state.open.take(),
            Command::Ref { .. } => {
                self.state.refreshed = Some(row.cycle);
                None
            }
            Command::Rd { .. } | Command::Wr { .. } => None,
        }
    }
}
