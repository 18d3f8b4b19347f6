//! Statistics of a run.

use crate::channels::ChannelStats;
use crate::cores::CoreStats;
use std::alloc::{AllocError, Global};
use std::marker::Model;

/// How many cycles a run had, and the statistics of each core and each channel, by number.
#[derive(Drop)]
pub struct Stats {
    pub cycles: u64,
    pub cores: Vec<CoreStats>,
    pub channels: Vec<ChannelStats>,
}

impl Model for Stats {
    ghost use Rattle.statistics.specs.Values.{RunStats};

    ghost Value = { RunStats };

    ghost view = { λ s. record {
      cycles = s.cycles;
      cores = s.cores.items;
      channels =
          s.channels.items;
    } };
}

impl Stats {
    ghost use Rattle.std.specs.Prelude.{◌≡◌, IfOk};

    /// The statistics of a run of `cycles` cycles, with just these cores and these channels.
    pub fn of_parts(
        alloc: Global,
        cycles: u64,
        cores: &[CoreStats],
        channels: &[ChannelStats],
    ) -> Result<Stats, AllocError>
        ensures { IfOk result (λ s. s ≡ record {
          cycles = cycles;
          cores = cores.now;
          channels =
              channels.now;
        }) }
    {
        Ok(Stats {
            cycles,
            cores: cores.to_vec(alloc)?,
            channels: channels.to_vec(alloc)?,
        })
    }
}
