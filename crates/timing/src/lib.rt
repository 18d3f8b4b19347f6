//! The timing rules of DDR4 commands, and how far each command holds a later one back.
#![tactic(auto)]

pub mod gap_table;
pub mod rules;
