//! What a core counts in a cycle.

ghost use Rattle.std.specs.Prelude.{◌≡◌, None};
ghost use Rattle.statistics.specs.Cores.{CoreFits};
ghost use Rattle.core_window.specs.Counting.{counted_cycle, counted_cycles};
ghost use Rattle.core_window.specs.Steady.{with_stop, with_memory};

use cpu_trace::entries::MemoryEntry;
use sim_base::history::CoreStep;
use sim_base::message::Cycle;
use sim_base::trace::{Entry, Stop};
use statistics::cores::CoreStats;

/// Counts `cycles` more cycles in which a core stops for this cause.
fn count_stop(stats: &mut CoreStats, why: Stop, cycles: u64)
    requires { CoreFits (with_stop stats.old why cycles) }
    ensures { stats.new ≡ with_stop stats.old why cycles }
{
    match why {
        Stop::End => stats.stop_end += cycles,
        Stop::Width => stats.stop_width += cycles,
        Stop::Window => stats.stop_window += cycles,
        Stop::Memory => stats.stop_memory += cycles,
        Stop::Credit => stats.stop_credit += cycles,
    }
}

/// Counts the memory entry that issues, if one does.
pub fn count_memory(stats: &mut CoreStats, memory: Option<MemoryEntry>)
    requires { CoreFits (with_memory stats.old memory) }
    ensures { stats.new ≡ with_memory stats.old memory }
{
    match memory {
        Some(next) => match next.entry {
            Entry::Read(_) => stats.reads += 1,
            Entry::Write(_) => stats.writes += 1,
            Entry::Plain => (),
        },
        None => (),
    }
}

/// Counts cycles in which a core does the same.
pub fn count_cycles(stats: &mut CoreStats, core_step: CoreStep, why: Stop, cycles: u64)
    requires { CoreFits (counted_cycles stats.old core_step why cycles) }
    ensures { stats.new ≡ counted_cycles stats.old core_step why cycles }
{
    stats.issued += cycles * u64::from(core_step.issued);
    stats.retired += cycles * u64::from(core_step.retired);
    count_stop(stats, why, cycles);
}

/// Counts a cycle, except for its replies and for the memory entry that issues in it. The trace of the core has this
/// length.
pub fn count_cycle(stats: &mut CoreStats, core_step: CoreStep, why: Stop, len: u64, now: Cycle)
    requires { CoreFits (counted_cycle stats.old core_step why None len now) }
    ensures { stats.new ≡ counted_cycle stats.old core_step why None len now }
{
    let retired = stats.retired + u64::from(core_step.retired);
    if stats.retired < len && len <= retired {
        stats.finish = Some(now);
    }
    stats.issued += u64::from(core_step.issued);
    stats.retired = retired;
    count_stop(stats, why, 1);
}
