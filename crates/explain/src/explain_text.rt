//! What the texts that explain a refusal say of a configuration, a trace or a table, after the path of the file: the
//! place of a fault, what stands there, and what may stand there.
//!
//! A text has lines, each ended by a line feed. The calls fail only if memory is refused, and promise nothing of the
//! words, which are tested.

pub mod config;
mod fragments;
mod keys;
mod lines;
mod links;
mod nearest;
mod relations;
mod section;
pub mod table;
pub mod traces;
