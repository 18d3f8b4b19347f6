//! What every layer refers to: names of units and links, places, commands, messages and distances in time.
#![tactic(auto)]

pub mod command;
pub mod config;
pub mod fault;
pub mod history;
pub mod key;
pub mod key_numbers;
pub mod locality;
pub mod message;
pub mod overrides;
pub mod place;
pub mod rule;
pub mod timing;
pub mod trace;
