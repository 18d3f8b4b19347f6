//! Pictures of the requests of a run: how long reads took, and where the time went.
#![tactic(auto)]

mod breakdown;
pub mod drawing;
mod histograms;
pub mod section;
mod trend;
