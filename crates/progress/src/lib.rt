//! How far a run is, on one line of a terminal.
#![tactic(auto)]

pub mod figures;
pub mod line;
pub mod pace;
pub mod watcher;
