//! What a run of a machine is made of, and how it is asked for.

use crate::gate::Gate;
use crate::sharing::Workers;
use crate::watch::Watch;
use cpu_trace::trace::Trace;
use sim_base::config::Config;
use sim_base::message::Cycle;
use statistics::tables::Tables;

/// A machine that is run: its configuration, and a trace for each core, by number.
#[derive(Drop)]
pub struct MachineInput<'a> {
    pub config: &'a Config,
    pub traces: Vec<Trace>,
}

/// How a machine is run.
#[derive(Clone, Copy)]
pub struct RunOptions {
    /// The limit in cycles, at most 10^12.
    pub cycles: Cycle,
    /// Who runs it.
    pub workers: Workers,
    /// The tables that are kept of the run.
    pub tables: Tables,
}

/// What a run calls as it goes on: workers pass the gate at each job of a phase, and the watcher is told how far the
/// run is.
#[derive(Drop)]
pub struct Hooks<'a, G: Gate, W: Watch> {
    pub gate: &'a G,
    pub watch: &'a mut W,
}
