//! The traces that cores read: their entries, in which a run of Plain entries takes no more room than one, and the
//! reader of their text.
#![tactic(auto)]

pub mod entries;
pub mod grammar;
mod line;
pub mod number;
mod piece;
mod pieces;
pub mod reader;
mod reading;
mod stored;
pub mod trace;
mod usual;
