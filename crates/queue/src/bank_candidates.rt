//! The candidates of a channel's log of requests: of each bank, to read and to write, the first request that may be
//! served, and the first of these that asks for the bank's open row.

pub mod all_banks;
mod candidate_words;
mod entry;
mod search;
mod sets;

pub use all_banks::BankCandidates;
pub use entry::{AccessCandidates, CandidatesOfBank};
pub use sets::BankSet;
