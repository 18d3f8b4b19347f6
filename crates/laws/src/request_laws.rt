//! Laws of the one-clock machine about the requests of a run, which the table of requests needs.
//! Each is a public function with an empty body, whose contract is the law.

pub mod arrivals;
pub mod served;
pub mod timed;
