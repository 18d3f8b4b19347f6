//! A core alone, over a span of cycles.
#![tactic(auto)]

mod address;
pub mod core_unit;
mod counts;
mod flow;
mod issue;
mod issue_effects;
pub mod outstanding;
pub mod receive;
mod retire;
