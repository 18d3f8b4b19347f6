//! Why the program refuses, the lines that tell it, where a reader should look, what it warns of, and the statuses that it ends with.
#![tactic(auto)]

pub mod error_stream;
pub mod heads;
pub mod line_buffer;
pub mod lines;
pub mod reason;
pub mod refusal;
pub mod status;
pub mod warning;
