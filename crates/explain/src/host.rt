//! What to do where the host refuses.

ghost use Rattle.std.specs.Prelude.{◌≡◌, IfOk, string_bytes};
ghost use Rattle.explain.specs.Host.{host_text};

use sim_base::fault::Fault;
use std::alloc::{AllocError, Global};

/// Advises where the host refuses memory or a thread, faults 10 and 11.
pub fn of_host(alloc: Global, fault: Fault) -> Result<String, AllocError>
    ensures { IfOk result (λ s. string_bytes s ≡ host_text fault) }
{
    let advice = match fault {
        Fault::Memory => {
            "the host refused memory: a run takes less with a lower limit of --cycles, with fewer --workers, or with shorter traces\n"
        }
        Fault::WorkerStart => {
            "the host refused to start a thread: name fewer --workers; with --workers 1 none is started\n"
        }
        _ => "",
    };
    String::from_str(alloc, advice)
}
