//! Tests a table of commands that someone else wrote: its form, and every rule of DDR4 over it.
#![tactic(auto)]

mod around;
mod broken;
mod channel;
pub mod fields;
mod latest;
pub mod limits;
pub mod numbers;
mod past;
pub mod reading;
mod rule_numbers;
mod state;
mod table;
mod verdict;
mod window;

pub use table::check;
pub use verdict::Verdict;
