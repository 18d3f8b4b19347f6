//! A memory of all channels that a program in C keeps and drives, and its calls.

mod handle;
pub mod memory;
