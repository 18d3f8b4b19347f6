//! Why the numbers of a command line are refused.

ghost use Rattle.std.specs.Prelude.{IfOk};
ghost use Rattle.sim_base.specs.Texts.{IsText};
ghost use Rattle.explain.specs.Numbers.{numbers_text};

use crate::counts::of_count;
use sim_base::fault::Fault;
use std::alloc::{AllocError, Global};

/// The numbers of a run, as its command line gives them.
#[derive(Clone, Copy)]
pub struct RunNumbers {
    /// How many traces are named.
    pub traces: usize,
    /// The limit in cycles, in range or not.
    pub cycles: u64,
    /// How many workers are to run it, in range or not.
    pub workers: u64,
}

/// Explains a fault of the number of traces, the workers or the cycles, 7 to 9. `cores` is how many cores the
/// configuration has, where that is known.
pub fn of_numbers(
    alloc: Global,
    fault: Fault,
    cores: Option<u16>,
    numbers: RunNumbers,
) -> Result<String, AllocError>
    ensures { IfOk result (IsText (numbers_text fault cores numbers)) }
{
    let RunNumbers {
        traces,
        cycles,
        workers,
    } = numbers;
    match fault {
        Fault::TraceCount => of_count(alloc, cores, traces),
        Fault::Workers => { format!(in alloc; "--workers {workers}, where 1 to 64 may stand\n") }
        Fault::Cycles => {
            format!(in alloc; "--cycles {cycles}, where 0 to 1000000000000 may stand\n")
        }
        _ => Ok(String::new(alloc)),
    }
}
