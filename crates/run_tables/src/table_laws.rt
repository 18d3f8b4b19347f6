//! Laws of the tables of commands that runs give, as `check` reads them. Each is a public function with an empty body,
//! whose contract is the law.

pub mod kept;
pub mod legal;
pub mod outcomes;
pub mod written;
