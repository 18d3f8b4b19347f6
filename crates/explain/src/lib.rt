//! Texts that explain a refusal to a user: what stands where the fault is, and what may stand there. `explain_text`
//! makes what follows the place.
//!
//! A text has lines, each ended by a line feed; it is empty where there is nothing to say. The calls fail only if
//! memory is refused.
#![tactic(auto)]

mod config;
mod counts;
mod explain_text;
mod heads;
mod host;
mod numbers;
mod table;
mod traces;

pub use crate::explain_text::table::TableKind;
pub use config::of_config;
pub use host::of_host;
pub use numbers::{RunNumbers, of_numbers};
pub use table::of_table;
pub use traces::of_traces;
