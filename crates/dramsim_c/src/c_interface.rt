//! What a program in C keeps and drives: a channel, or a memory of all channels (`c_memory`), and the rows that it hands
//! over; why a configuration is refused, and the verdict on a table.

pub mod boxes;
pub mod c_memory;
pub mod channel;
pub mod fault;
mod handle;
pub mod loose;
pub mod rows;
pub mod texts;
pub mod verdicts;
