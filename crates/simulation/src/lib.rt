//! Runs. `runs::simulate` is the call that people make, over the bytes of a configuration and of traces, which `input`
//! reads and tests. `machine` runs what was read: the caller alone in place, or several workers phase by phase, each of
//! whose jobs is a shard (`runner`), when they share the machine out (`sharing`). `options` says how a run is asked
//! for, `watch` tells how far it is, and at a `gate` tests hold workers.
#![tactic(auto)]

pub mod gate;
pub mod input;
pub mod machine;
pub mod options;
pub mod runner;
pub mod runs;
pub mod sharing;
pub mod watch;
