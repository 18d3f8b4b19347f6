//! The units of a machine shared out in shards, whose jobs threads run side by side, phase by phase. Together they do
//! what the one-clock machine does.
#![tactic(auto)]

mod exchange;
pub mod job;
pub mod merging;
pub mod planning;
mod shard;
pub mod sharded;
mod split;
