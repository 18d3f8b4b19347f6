//! What a run did, on one screen.
#![tactic(auto)]

mod banks;
pub mod options;
mod requests;
mod rows;
mod screen;
mod table;

pub use banks::show_banks;
pub use requests::show_requests;
pub use screen::show_text;
