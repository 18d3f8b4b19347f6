//! Runs beside the first of them, on one screen or as a table of CSV.
#![tactic(auto)]

mod cells;
mod changes;
mod compared;
mod comparison;
mod cores;
pub mod layout;
mod lines;
mod quotients;
mod sums;
mod tails;
mod texts;

pub use comparison::compare_text;
