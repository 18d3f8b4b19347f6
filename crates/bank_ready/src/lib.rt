//! From which cycle on each command may be issued, as far as the commands before it hold it back, and which refreshes
//! are due.
#![tactic(auto)]

pub mod banks;
pub mod refresh;
pub mod words;
