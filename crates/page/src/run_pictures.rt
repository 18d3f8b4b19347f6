//! Pictures of a run: what its page shows, without a test whether the commands are those of the run.

mod activity;
mod cells;
pub mod document;
mod lanes;
mod overview;
mod settings;
mod stops;
mod strips;
mod style;
mod tables;
