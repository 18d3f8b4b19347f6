//! What `check`, `map`, `show`, `page` and `compare` answer, over files and a stream that are handed in.
#![tactic(auto)]

pub mod banks;
pub mod comparisons;
mod described;
mod explained;
pub mod folder;
pub mod pages;
pub mod places;
pub mod print;
mod requests;
pub mod screens;
mod tables;
pub mod verdicts;
