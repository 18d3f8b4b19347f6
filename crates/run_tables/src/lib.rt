//! Reads the tables of a run, its statistics, its commands and its requests, and the laws that they obey (`table_laws`).
#![tactic(auto)]

mod commands;
mod fields;
mod numbers;
pub mod read_back;
mod records;
mod requests;
mod stats;
pub mod table_laws;

pub use commands::read_commands;
pub use requests::read_requests;
pub use stats::read_stats;
