//! A cycle of a run, as the functions of the plain machine are passed it.

ghost use Rattle.std.specs.Prelude.{◌≡◌, ◌≤◌, ◌^◌, length};

use cpu_trace::trace::Trace;
use sim_base::config::Config;
use std::alloc::Global;

/// A cycle of a run, before which all earlier cycles are done: the configuration and the traces of the run, one for
/// each core, the number of the cycle, at most 10^12, and where what is kept is allocated.
#[derive(Clone, Copy)]
pub struct RunCycle<'a> {
    pub alloc: Global,
    pub config: &'a Config,
    pub traces: &'a [Trace],
    pub number: u64,
    ghost one_trace_a_core: { length traces.now ≡ config.now.cores },
    ghost early: { number ≤ 10 ^ 12 },
}
