//! A channel as a session: it is sent requests, run up to a cycle, and gives its commands and replies one after the
//! other.

pub mod cycles;
pub mod fault;
mod held;
pub mod places;
pub mod requests;
mod rows;
pub mod session;
