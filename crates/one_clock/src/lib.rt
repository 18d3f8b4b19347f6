//! The one-clock machine, as slow and as plain as its definition: every core, link and channel, one cycle at a time,
//! with their whole past kept and searched.
#![tactic(auto)]

mod counting;
mod ending;
pub mod machine;
mod requests;
mod run_cycle;
mod sending;
mod state;
mod tally;
