//! What the words of a call mean: the command that they name, with its values, as `clap` reads them.
#![tactic(auto)]

pub mod clock;
pub mod command_line;
mod tables;
pub mod words;
