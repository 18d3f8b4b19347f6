//! The statuses that the program ends with.

/// The status of a program that did what it was asked.
pub const DONE: u8 = 0;

/// The status of a check that found a broken rule.
pub const BROKEN: u8 = 1;

/// The status of a program that refused.
pub const REFUSED: u8 = 2;
