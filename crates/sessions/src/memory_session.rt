//! A memory as a session: all channels of a machine. A request goes to the channel of its address, all channels are run
//! up to a cycle, and their commands and replies come one after the other.

mod cycles;
pub mod memory;
