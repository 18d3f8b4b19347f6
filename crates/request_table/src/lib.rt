//! The requests of a run with the time of each, as a table.
#![tactic(auto)]

pub mod cuts;
pub mod left;
pub mod served_requests;
pub mod table;
pub mod times;
pub mod travel;
