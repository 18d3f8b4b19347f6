//! Writes the tables that a run leaves, as text of comma-separated values.
#![tactic(auto)]

mod block;
mod commands;
mod final_state;
mod hundreds;
mod line;
mod pieces;
mod requests;
mod stats;
mod table;

pub use commands::{write_commands, write_commands_by};
pub use final_state::write_final;
pub use pieces::TableThreads;
pub use requests::{write_requests, write_requests_by};
pub use stats::write_stats;
