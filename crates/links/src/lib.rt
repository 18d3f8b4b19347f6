//! The messages in flight between cores and channels, and how soon one can arrive.
#![tactic(auto)]

mod buffers;
pub mod flight;
pub mod latency;
mod merge;
