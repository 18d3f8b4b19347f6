//! How many phases a run has, and over which cycles. Where a machine is split each unit is asked, in a phase of its
//! own; after that, one begins where something is sent or arrives.

use crate::expect::expect_at;
use crate::outcomes::{EVERY, Texts};
use crate::shared_out::{LONGEST, run_up_to, started};
use shards::job::{Done, Job};
use sim_base::fault::Fault;
use sim_base::message::Cycle;
use simulation::gate::OpenGate;
use simulation::runner::{Runner, Serial};

/// The cycles of a phase, from one on and before another.
type Span = (Cycle, Cycle);

/// Runs the jobs of a phase one after the other, and notes its cycles, as far as there is memory for them.
#[derive(Drop)]
struct Noting<'a> {
    serial: Serial<'a, OpenGate>,
    spans: Vec<Span>,
}

impl<'a> Runner for Noting<'a> {
    fn run_phase(&mut self, jobs: Vec<Job>) -> Result<Vec<Done>, Fault> {
        if let Some(job) = jobs.first() {
            let name = job.name();
            let _ = self.spans.push((name.from, name.until));
        }
        self.serial.run_phase(jobs)
    }
}

/// Other lines of the small machine, the trace of its core, and a limit; and the phases up to it, with each unit in a
/// shard of its own.
struct Counted {
    changes: &'static [&'static str],
    trace: &'static str,
    cycles: Cycle,
    spans: &'static [Span],
}

static COUNTED: [Counted; 3] = [
    // A read is sent in cycle 0 and comes in 2, where its row is opened; the row is ready in 5, and the line is read.
    // The credit comes in 7 and the reply in 15. In the other cycles nothing is sent and nothing arrives.
    Counted {
        changes: &[],
        trace: "0 0\n",
        cycles: 40,
        spans: &[(0, 2), (2, 4), (5, 7), (7, 9), (15, 17)],
    },
    // Without a read there are only refreshes, due in the cycles 100 and 200.
    Counted {
        changes: &["nREFI = 100"],
        trace: "",
        cycles: 250,
        spans: &[(0, 2), (100, 102), (200, 202)],
    },
    // A read over links of a million cycles, up to the last cycle of all: it comes in cycle 1,000,000 and is
    // read in 1,000,003, the credit comes in 2,000,003, and the reply in 2,000,011, in the same phase.
    Counted {
        changes: &[
            "request_latency = 1000000",
            "reply_latency = 1000000",
            "credit_latency = 1000000",
        ],
        trace: "0 0\n",
        cycles: LONGEST,
        spans: &[
            (0, 1_000_000),
            (1_000_000, 2_000_000),
            (2_000_003, 3_000_003),
        ],
    },
];

#[test]
fn a_phase_begins_where_something_happens(rt: HostRuntime) {
    let alloc = rt.alloc();
    for counted in &COUNTED {
        let texts = Texts::of(&rt, alloc, counted.changes, "", &[counted.trace]);
        let sim = started(&rt, alloc, &texts.run(counted.cycles));
        let mut noting = Noting {
            serial: Serial::new(alloc, &OpenGate),
            spans: Vec::new(alloc),
        };
        let sim = run_up_to(sim, alloc, counted.cycles, 2, &mut noting).expect(&rt, "memory");
        sim.outcome(alloc, EVERY).expect(&rt, "memory");
        expect_at(
            &rt,
            &counted.trace,
            &noting.spans.as_slice(),
            &counted.spans,
        );
    }
}
