//! What was done, cycle by cycle.

/// What one core did in a cycle: how many entries it retired and issued.
#[derive(Clone, Copy)]
pub struct CoreStep {
    pub retired: u16,
    pub issued: u16,
}
