//! The state in which a run ends.

use sim_base::message::{Message, Request};
use sim_base::place::BankId;
use std::marker::Model;

/// Credits that a core holds for a channel.
#[derive(Clone, Copy)]
pub struct Credits {
    pub read: u64,
    pub write: u64,
}

/// The row that is open in a bank.
#[derive(Clone, Copy)]
pub struct OpenRow {
    pub bank: BankId,
    pub row: u32,
}

/// The state in which a core is left.
#[derive(Drop)]
pub struct CoreState {
    /// Entries that it issued.
    pub issued: u64,
    /// Entries that it retired.
    pub retired: u64,
    /// Credits that it holds, for each channel by number.
    pub credits: Vec<Credits>,
}

impl Model for CoreState {
    ghost use Rattle.statistics.specs.Values.{FinalCore};

    ghost Value = { FinalCore };

    ghost view = { λ c. record {
      issued = c.issued;
      retired = c.retired;
      credits =
          c.credits.items;
    } };
}

/// The state in which a channel is left.
#[derive(Drop)]
pub struct ChannelState {
    /// Refreshes that are due, for each rank by number.
    pub due: Vec<u64>,
    /// The rows that are open, by rank, group and bank.
    pub open_rows: Vec<OpenRow>,
    /// The requests that arrived and are not served, by age.
    pub queue: Vec<Request>,
}

impl Model for ChannelState {
    ghost use Rattle.statistics.specs.Values.{FinalChannel};

    ghost Value = { FinalChannel };

    ghost view = { λ c. record {
      due = c.due.items;
      open_rows = c.open_rows.items;
      queue =
          c.queue.items;
    } };
}

/// The state in which a run ends, before the cycle that would be its next.
#[derive(Drop)]
pub struct FinalState {
    /// The state of each core, by number.
    pub cores: Vec<CoreState>,
    /// The state of each channel, by number.
    pub channels: Vec<ChannelState>,
    /// The messages that are still to arrive, by arrival and then by link.
    pub in_flight: Vec<Message>,
}

impl Model for FinalState {
    ghost use Rattle.statistics.specs.Values.{FinalView};

    ghost Value = { FinalView };

    ghost view = { λ f. record {
      cores = f.cores.items;
      channels = f.channels.items;
      in_flight =
          f.in_flight.items;
    } };
}
