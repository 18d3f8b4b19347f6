//! What each channel did: over the run in steps of equal length, the last of which may be shorter, and in the window of
//! the timeline.

ghost use Rattle.std.specs.Prelude.{◌<◌};

use crate::run_pictures::lanes::Lane;
use command_table::list::CommandList;
use request_pictures::drawing::scales::share_of;
use request_pictures::drawing::steps::STEPS;
use sim_base::command::{Command, IssuedCommand, Kind};
use sim_base::place::BankId;
use statistics::stats::Stats;
use std::alloc::{AllocError, Global};

/// Cycles that the data of a RD or a WR take on the data bus.
pub(crate) const BURST: u64 = 4;

/// The cycles of the timeline, from one up to, but not including, another.
#[derive(Clone, Copy)]
pub struct TimelineSpan {
    pub from: u64,
    pub end: u64,
}

/// What a channel did in a step.
#[derive(Clone, Copy)]
pub(crate) struct Step {
    cycles: u64,
    /// Commands by their place in a plot, from below, each with those below it: RD, WR, ACT, PRE and PREA, REF.
    stacked: [u64; 5],
    hits: u64,
    /// Banks with an open row after the last command of the step.
    open: Option<u64>,
}

/// A value of a step.
#[derive(Clone, Copy)]
pub(crate) enum Value {
    /// The cycles of data on the bus, in tenths of a percent.
    BusUse,
    /// The RDs and WRs that hit an open row, in tenths of a percent of them.
    Hits,
    /// The cycles with a command of this place or one below it, in tenths of a percent.
    Stacked(usize),
    /// The open banks.
    OpenBanks,
}

/// The place of a kind of command in a plot, from below.
fn place_of(kind: Kind) -> usize
    ensures { result < 5 }
{
    match kind {
        Kind::Rd => 0,
        Kind::Wr => 1,
        Kind::Act => 2,
        Kind::Pre | Kind::Prea => 3,
        Kind::Ref => 4,
    }
}

impl Step {
    // Counts a command, after which so many banks are open.
    fn count(&mut self, kind: Kind, hit: bool, open: u64) {
        for count in self.stacked[place_of(kind)..].iter_mut() {
            *count = count.saturating_add(1);
        }
        if hit {
            self.hits = self.hits.saturating_add(1);
        }
        self.open = Some(open);
    }

    /// A value of the step, if it has one: without a RD or a WR there is no share of hits.
    pub(crate) fn value(&self, value: Value) -> Option<u64> {
        let column_commands = self.stacked[1];
        match value {
            Value::BusUse => {
                let cycles = BURST.saturating_mul(column_commands);
                Some(share_of(u128::from(cycles), self.cycles, 1000))
            }
            Value::Hits if column_commands == 0 => None,
            Value::Hits => Some(share_of(u128::from(self.hits), column_commands, 1000)),
            Value::Stacked(place) => {
                let commands = self.stacked.get(place).copied().unwrap_or(0);
                Some(share_of(u128::from(commands), self.cycles, 1000))
            }
            Value::OpenBanks => self.open,
        }
    }
}

/// What a channel did, step by step, its banks, and its commands in the window.
#[derive(Drop)]
pub(crate) struct Channel {
    pub(crate) steps: Vec<Step>,
    /// The banks that its commands name, by rank, group and bank.
    pub(crate) lanes: Vec<Lane>,
    pub(crate) shown: Vec<IssuedCommand>,
}

impl Channel {
    // A channel without commands, in a run of `cycles` cycles.
    fn idle(alloc: Global, cycles: u64, step: u64) -> Result<Channel, AllocError> {
        let mut steps = Vec::new(alloc);
        let mut left = cycles;
        for _ in 0..STEPS {
            if left > 0 {
                let cycles = step.min(left);
                steps.push(Step {
                    cycles,
                    stacked: [0; 5],
                    hits: 0,
                    open: None,
                })?;
                left -= cycles;
            }
        }
        let lanes = Vec::new(alloc);
        let shown = Vec::new(alloc);
        Ok(Channel {
            steps,
            lanes,
            shown,
        })
    }

    // Whether a command of a bank that has a lane is a row hit: a RD or a WR of a row that was opened in another's
    // name.
    fn hit_in_lane(&self, command: Command) -> Option<bool> {
        for lane in &self.lanes {
            if lane.is_named_by(command) {
                return Some(command.is_column() && lane.opened_by != command.source());
            }
        }
        None
    }

    // Whether a command is a row hit. A bank that is new joins the lanes, as the first one of a rank does of whose
    // banks there is none.
    fn is_hit(&mut self, command: Command) -> Result<bool, AllocError> {
        if let Some(hit) = self.hit_in_lane(command) {
            return Ok(hit);
        }
        let first = BankId {
            rank: command.rank(),
            group: 0,
            bank: 0,
        };
        self.lanes.push(Lane::new(command.bank().unwrap_or(first)))?;
        Ok(command.is_column())
    }

    // Follows a command in each lane. Gives how many banks are open after it.
    fn follow(&mut self, row: &IssuedCommand, from: u64) -> u64 {
        let mut open = 0u64;
        for lane in self.lanes.iter_mut() {
            let _closed = lane.follow(row);
            if row.cycle < from {
                lane.before = lane.state;
            }
            if lane.state.open.is_some() {
                open = open.saturating_add(1);
            }
        }
        open
    }

    // Adds a command to its step, and to the window if it lies there.
    fn add(
        &mut self,
        step: usize,
        row: &IssuedCommand,
        span: TimelineSpan,
    ) -> Result<(), AllocError> {
        let hit = self.is_hit(row.command)?;
        let open = self.follow(row, span.from);
        if let Some(step) = self.steps.get_mut(step) {
            step.count(row.command.kind(), hit, open);
        }
        if span.from <= row.cycle && row.cycle < span.end {
            self.shown.push(*row)?;
        }
        Ok(())
    }

    // Puts the banks in order, and gives each step without a command the open banks of the one before it.
    fn finish(&mut self) -> Result<(), AllocError> {
        let mut open = 0;
        for step in self.steps.iter_mut() {
            open = step.open.unwrap_or(open);
            step.open = Some(open);
        }
        self.lanes
            .sort_by_key(|lane| (lane.id.rank, lane.id.group, lane.id.bank))
    }
}

/// What the channels did.
#[derive(Drop)]
pub(crate) struct Activity {
    pub(crate) cycles: u64,
    /// Cycles of a step; the last may be shorter.
    pub(crate) step: u64,
    pub(crate) channels: Vec<Channel>,
}

impl Activity {
    /// The channels of a run, without commands.
    pub(crate) fn idle(alloc: Global, stats: &Stats) -> Result<Activity, AllocError> {
        let cycles = stats.cycles;
        let step = cycles.div_ceil(STEPS);
        let mut channels = Vec::new(alloc);
        for _ in 0..stats.channels.len() {
            channels.push(Channel::idle(alloc, cycles, step)?)?;
        }
        Ok(Activity {
            cycles,
            step,
            channels,
        })
    }

    // Adds each command to its channel.
    fn add_all(&mut self, commands: &CommandList, span: TimelineSpan) -> Result<(), AllocError> {
        for place in 0..commands.len() {
            if let Some(row) = commands.get(place)
                && let Some(channel) = self.channels.get_mut(row.channel as usize)
            {
                let step = row.cycle / self.step.max(1);
                channel.add(step as usize, &row, span)?;
            }
        }
        Ok(())
    }

    /// Adds the commands of the run.
    pub(crate) fn add_run(
        &mut self,
        commands: &CommandList,
        span: TimelineSpan,
    ) -> Result<(), AllocError> {
        self.add_all(commands, span)?;
        for channel in self.channels.iter_mut() {
            channel.finish()?;
        }
        Ok(())
    }
}
