//! Runs that tests compare with, from the same input as the simulator's: that of the plain machine, and one in a single
//! thread in which the results of each phase come in an order that someone chooses.
#![tactic(auto)]

pub mod order;
pub mod ordered;
pub mod runs;
