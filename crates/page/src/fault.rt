//! Why no page is made.

use std::fmt;
use thiserror::Error;

/// Why no page is made.
#[derive(Clone, Copy, PartialEq, Eq, Error)]
pub enum PageFault {
    /// The command at this place of the list, counted from 0, is of a channel or of a cycle that the run does not have.
    #[error("command {0} is none of the run")]
    Command(usize),
    /// Memory was refused.
    #[error("memory")]
    Memory,
    /// The writer failed or took no byte.
    #[error("write")]
    Write,
}

impl fmt::Debug for PageFault {
    fn fmt<W: fmt::Write>(&self, f: &mut fmt::Formatter<W>) -> fmt::Result {
        fmt::Display::fmt(self, f)
    }
}
