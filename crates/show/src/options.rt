//! What is shown.

/// Whether a table has a line for each unit, however many there are, and the clock in kHz, where times are shown too.
#[derive(Clone, Copy)]
pub struct Options {
    pub all: bool,
    pub khz: Option<u64>,
}
