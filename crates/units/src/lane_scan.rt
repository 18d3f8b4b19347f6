//! Scans over columns of u64 words, a vector of words at a time, each of which gives just what a plain loop gives.

mod lanes;
mod searches;

pub use searches::{first_below, least};
