//! A channel, or a memory of all channels, as a session that another simulator drives.
#![tactic(auto)]

pub mod channel_session;
pub mod memory_session;
