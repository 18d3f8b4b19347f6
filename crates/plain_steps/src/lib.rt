//! What one core and one channel of the plain machine do in a cycle, found by searching their whole past.
#![tactic(auto)]

pub mod channel_cycle;
pub mod core_cycle;
pub mod cores;
pub mod hits;
pub mod mail;
pub mod rules;
pub mod scheduling;
