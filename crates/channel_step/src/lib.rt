//! A channel that is run alone over a span of cycles, and the command that it issues next (`fr_fcfs`).
#![tactic(auto)]

mod arriving;
pub mod channel;
mod counting;
pub mod fr_fcfs;
mod next_command;
mod noting;
mod sending;
