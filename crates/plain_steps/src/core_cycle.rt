//! What a core is given in a cycle.

ghost use Rattle.std.specs.Prelude.{◌<◌, ◌^◌};

use cpu_trace::trace::Trace;
use sim_base::config::Config;
use sim_base::message::{CoreId, Message};

/// Entries that a core issues in a cycle: `count` of them, from `first` on. The cycle is below 2^41, and `first`
/// below 2^63.
#[derive(Clone, Copy)]
pub struct IssuedEntries {
    pub cycle: usize,
    pub first: u64,
    pub count: u16,
    ghost early: { cycle < 2 ^ 41 },
    ghost fits: { first < 2 ^ 63 },
}

/// The messages of a core: those that were sent to it, and those that it sent.
#[derive(Clone, Copy)]
pub struct CoreMail<'a> {
    pub core: CoreId,
    pub inbox: &'a [Message],
    pub sent: &'a [Message],
}

/// What a core issues from in a cycle: its trace, of which `first` entries were issued before the cycle and
/// `retired_by_end` are retired when it ends, and its messages.
#[derive(Clone, Copy)]
pub(crate) struct IssueStage<'a> {
    pub config: &'a Config,
    pub trace: &'a Trace,
    pub mail: &'a CoreMail<'a>,
    pub cycle: usize,
    pub first: u64,
    pub retired_by_end: u64,
    ghost early: { cycle < 2 ^ 41 },
    ghost first_fits: { first < 2 ^ 63 },
}
