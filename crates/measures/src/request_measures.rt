//! What the requests of a run say of time: how long reads took, and how long requests waited in the queue of their
//! channel.

pub mod latency;
pub mod waiting;
