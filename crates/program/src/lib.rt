//! The program over words, files and streams that are handed in.
#![tactic(auto)]

mod asked;
mod done;
mod explained;
pub mod host;
pub mod perform;
mod printed;
mod runs;
mod shared;
pub mod status;
pub mod streams;
