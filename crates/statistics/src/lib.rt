//! What a run leaves: statistics of its units, the state in which it ends, and both with the tables that were asked for
//! as its outcome.
#![tactic(auto)]

pub mod channels;
pub mod cores;
pub mod counters;
pub mod final_state;
pub mod numbers;
pub mod outcome;
pub mod stats;
pub mod tables;
