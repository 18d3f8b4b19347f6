//! What a channel knows of the command that it issues next.

use crate::fr_fcfs::choice::Need;
use sim_base::message::Cycle;

/// The next command that a channel issues, if nothing arrives.
#[derive(Clone, Copy)]
pub(crate) enum NextCommand {
    /// The next command has not been looked for since a request arrived or a command was issued.
    Unknown,
    /// The cycle in which the next command is issued, and what needs it; None if none is ever issued.
    Known(Option<(Cycle, Need)>),
}
