//! The page of a run: one HTML file, with its pictures in it, that needs no network and no scripts. `run_pictures`
//! makes what stands on it; here it is checked whether the commands are those of the run.
#![tactic(auto)]

pub mod fault;
pub mod page;
pub mod rows;
pub mod run_pictures;
pub mod window;
