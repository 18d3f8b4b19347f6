//! Whether the requests of a table are those of the run that statistics are of.

pub mod agreement;
pub mod tally;
