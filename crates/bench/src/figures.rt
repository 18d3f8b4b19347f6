//! How much is measured, the time, and lines that say how much of something there is.

use sim_base::fault::Fault;
use std::rt::Clock;

/// How much is measured.
#[derive(Clone, Copy)]
pub enum Effort {
    /// A little, to see that it works: no time is printed.
    Little,
    /// Enough for a time.
    Timed,
}

impl Effort {
    /// The effort that a word asks for, or none.
    pub fn of(word: &str) -> Option<Effort> {
        match word {
            "" => Some(Effort::Little),
            "time" => Some(Effort::Timed),
            _ => None,
        }
    }
}

/// The time in nanoseconds since some moment, at most 2^64 - 1; 0 where the clock fails.
pub fn now(rt: &impl Clock) -> u64 {
    match rt.monotonic() {
        Ok(time) => u64::try_from(time.as_nanos()).unwrap_or(u64::MAX),
        Err(_) => 0,
    }
}

/// Prints a number, and what it counts.
pub fn show_count(rt: &impl Print, count: u64, what: &str) -> Result<(), Fault> {
    match println!(rt; "{count} {what}") {
        Ok(()) => Ok(()),
        Err(_) => Err(Fault::Write),
    }
}
