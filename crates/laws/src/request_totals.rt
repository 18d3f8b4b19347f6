//! What the rows of the table of requests add up to, in every run: the statistics of its cores and channels.

pub mod totals;
