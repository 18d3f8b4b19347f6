//! What each bank of a run did, counted over the run's commands.

mod channels;
pub mod counts;
mod hits;
mod rows;

pub use channels::channel_counts;
