//! Laws of the one-clock machine: theorems about its definition, for every configuration, all traces and any number of
//! cycles. Each is a public function with an empty body, whose contract is the law.
#![tactic(auto)]

pub mod commands;
pub mod credits;
pub mod drains;
pub mod messages;
pub mod refreshes;
pub mod request_laws;
pub mod request_totals;
