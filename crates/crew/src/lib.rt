//! Threads that stay for a whole run, and claim the tasks of one phase after another from a board.
#![tactic(auto)]

pub mod caller;
pub mod open;
mod returned;
pub mod rule;
pub mod run;
pub mod seats;
mod shared;
pub mod signal;
pub mod work;
