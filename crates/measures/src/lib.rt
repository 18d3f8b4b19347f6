//! What is measured of a run from its tables: what each bank did, how long requests took and waited, percentiles,
//! rates, and whether requests are those of the run; numbers with as many digits as say something; and texts in the
//! making.
#![tactic(auto)]

pub mod bank_counts;
pub mod number;
pub mod percentiles;
pub mod rates;
pub mod request_check;
pub mod request_measures;
pub mod text_builder;
