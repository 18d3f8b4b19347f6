//! A machine run in place, by the caller alone. Cores and channels go on in turns, and only units that wake are
//! touched. It does what the one-clock machine does.
#![tactic(auto)]

mod taking_turns;
pub mod timed_sim;
