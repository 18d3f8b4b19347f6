//! The verdict on a table of commands.

/// What a table is found to be.
#[derive(Clone, Copy)]
pub enum Verdict {
    /// Each row is well-formed and keeps every rule.
    Legal,
    /// The first row at fault, counted from 1, and the lowest rule that it breaks, from 1 to 21 as in
    /// docs/RULES.md.
    Broken { row: u64, rule: u8 },
}
