//! Commands in few bytes a row, and the commands of all channels read as one table, whole or in pieces.
#![tactic(auto)]

pub mod compact;
mod cuts;
mod left;
pub mod list;
pub mod parts;
pub mod stored;
pub mod table;
