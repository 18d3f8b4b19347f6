//! How the program ends.

ghost use Rattle.std.specs.Prelude.{◌≡◌};
ghost use Rattle.program.specs.Status.{exit_code};

use refusal::status::{BROKEN, DONE, REFUSED};

/// How the program ends.
#[derive(Clone, Copy, PartialEq, Eq, Debug)]
pub enum ExitStatus {
    /// It did what it was asked.
    Done,
    /// It checked a table of commands, of which one breaks a rule.
    Broken,
    /// It refused.
    Refused,
}

impl ExitStatus {
    /// The number that the host is told: 0 done, 1 a table that breaks a rule, 2 refused.
    pub fn code(self) -> u8
        ensures number { result ≡ exit_code self }
    {
        match self {
            ExitStatus::Done => DONE,
            ExitStatus::Broken => BROKEN,
            ExitStatus::Refused => REFUSED,
        }
    }
}
