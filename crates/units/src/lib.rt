//! The units of a machine, cores and channels, and what they stand for: each for its part of the one-clock machine's
//! run, and all together, with the messages in flight between them, for the run. They may stand at cycles of their own,
//! each with a wake word (`waking`): a cycle before which it sends nothing and nothing arrives at it. Only units that
//! wake in a span are touched.
#![tactic(auto)]

mod counts;
mod drained;
mod ending;
pub mod lane_scan;
pub mod machine;
pub mod part;
pub mod sim;
pub mod span;
pub mod span_laws;
mod tables;
pub mod timed_unit;
pub mod waking;
pub mod words;
