//! What each fault says.

use crate::expect::expect;
use sim_base::fault::{Fault, LineCause, MergeFault};
use sim_base::key::Key;

static FAULTS: [(Fault, &str); 22] = [
    (Fault::ConfigSyntax, "fault 1: configuration is not TOML"),
    (
        Fault::ConfigKey(Key::NRcd),
        "fault 2: configuration key nRCD",
    ),
    (
        Fault::ConfigRange(Key::ReadCredits),
        "fault 3: configuration range read_credits",
    ),
    (
        Fault::ConfigRelation(12),
        "fault 4: configuration relation 12",
    ),
    (
        Fault::TraceLine {
            core: 1,
            line: 3,
            cause: LineCause::TooFew,
        },
        "fault 5: trace 1 line 3 too-few",
    ),
    (
        Fault::TraceLine {
            core: 1,
            line: 3,
            cause: LineCause::TooMany,
        },
        "fault 5: trace 1 line 3 too-many",
    ),
    (
        Fault::TraceLine {
            core: 1,
            line: 3,
            cause: LineCause::NotANumber,
        },
        "fault 5: trace 1 line 3 not-a-number",
    ),
    (
        Fault::TraceLine {
            core: 1,
            line: 3,
            cause: LineCause::TooLarge,
        },
        "fault 5: trace 1 line 3 too-large",
    ),
    (Fault::TraceTooLong { core: 1 }, "fault 6: trace 1 too long"),
    (Fault::TraceCount, "fault 7: trace count"),
    (Fault::Workers, "fault 8: workers"),
    (Fault::Cycles, "fault 9: cycles"),
    (Fault::Memory, "fault 10: memory"),
    (Fault::WorkerStart, "fault 11: worker start"),
    (Fault::Write, "fault 12: write"),
    (Fault::Read, "fault 13: read"),
    (Fault::CommandLine, "fault 14: command line"),
    (Fault::CheckRow(7), "fault 15: check row 7"),
    (Fault::Merge(MergeFault::Missing(1)), "fault 16: merge 1"),
    (Fault::Merge(MergeFault::Double(1)), "fault 16: merge 2"),
    (Fault::Merge(MergeFault::Stranger(1)), "fault 16: merge 3"),
    (Fault::Merge(MergeFault::Memory), "fault 16: merge 4"),
];

#[test]
fn prints_faults(rt: HostRuntime) {
    for (fault, want) in &FAULTS {
        let text = fault.to_string(rt.alloc()).expect(&rt, "memory");
        expect(&rt, &text.as_str(), want);
    }
}
