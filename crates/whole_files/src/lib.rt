//! Files that come whole or not at all: each is written under a name of its own, and gets its place once it is whole.
#![tactic(auto)]

pub mod files;
mod host_answers;
pub mod moves;
pub mod tables;
pub mod whole_file;
