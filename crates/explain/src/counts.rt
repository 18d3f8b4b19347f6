//! What is said of how many traces there are.

ghost use Rattle.std.specs.Prelude.{◌≡◌, Some, IfOk, string_bytes};
ghost use Rattle.explain.specs.Counts.{traces_named, cores_there, count_text};

use std::alloc::{AllocError, Global};
use std::fmt;

/// How many traces are named.
#[derive(Clone, Copy)]
struct TracesNamed(usize);

#[tactic(auto, unfolding(crate::specs::Counts::traces_named))]
impl fmt::Display for TracesNamed {
    ghost output = { λ traces. Some (traces_named traces.0) };

    fn fmt<W: fmt::Write>(&self, f: &mut fmt::Formatter<W>) -> fmt::Result {
        match self.0 {
            1 => f.write_str("1 trace is named"),
            count => write!(f, "{count} traces are named"),
        }
    }
}

/// How many cores a configuration has, where that is known.
#[derive(Clone, Copy)]
struct CoresThere(Option<u16>);

#[tactic(auto, unfolding(crate::specs::Counts::cores_there))]
impl fmt::Display for CoresThere {
    ghost output = { λ cores. Some (cores_there cores.0) };

    fn fmt<W: fmt::Write>(&self, f: &mut fmt::Formatter<W>) -> fmt::Result {
        match self.0 {
            Some(1) => f.write_str(", and the configuration has 1 core"),
            Some(count) => write!(f, ", and the configuration has {count} cores"),
            None => Ok(()),
        }
    }
}

/// How many traces there are, and what is to be done.
#[derive(Clone, Copy)]
struct Count {
    traces: TracesNamed,
    cores: CoresThere,
}

impl fmt::Display for Count {
    ghost output = { λ c. Some (count_text c.cores.0 c.traces.0) };

    fn fmt<W: fmt::Write>(&self, f: &mut fmt::Formatter<W>) -> fmt::Result {
        write!(
            f,
            "{}{}: name one for each core, the same file more than once if need be\n",
            self.traces, self.cores
        )
    }
}

/// Says how many traces are named, and how many cores there are, where that is known.
pub(crate) fn of_count(
    alloc: Global,
    cores: Option<u16>,
    traces: usize,
) -> Result<String, AllocError>
    ensures { IfOk result (λ s. string_bytes s ≡ count_text cores traces) }
{
    let count = Count {
        traces: TracesNamed(traces),
        cores: CoresThere(cores),
    };
    count.to_string(alloc)
}
