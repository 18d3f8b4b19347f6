//! Why a call is refused.

ghost use Rattle.std.specs.Prelude.{◌≡◌};

use crate::key::Key;
use crate::message::CoreId;
use std::fmt;
use thiserror::Error;

/// What is wrong with a line of a trace.
#[derive(Clone, Copy, PartialEq, Eq)]
pub enum LineCause {
    /// The line has one token.
    TooFew,
    /// The line has four tokens or more.
    TooMany,
    /// A token is not a number.
    NotANumber,
    /// A number is above 2^64 - 1.
    TooLarge,
}

impl fmt::Display for LineCause {
    fn fmt<W: fmt::Write>(&self, f: &mut fmt::Formatter<W>) -> fmt::Result {
        f.write_str(match self {
            LineCause::TooFew => "too-few",
            LineCause::TooMany => "too-many",
            LineCause::NotANumber => "not-a-number",
            LineCause::TooLarge => "too-large",
        })
    }
}

impl fmt::Debug for LineCause {
    fn fmt<W: fmt::Write>(&self, f: &mut fmt::Formatter<W>) -> fmt::Result {
        fmt::Display::fmt(self, f)
    }
}

/// Why the results of a phase cannot be merged.
#[derive(Clone, Copy, PartialEq, Eq, Error)]
pub enum MergeFault {
    /// There is no result of this shard's job; it is the least such shard.
    #[error("no result of shard {0}")]
    Missing(usize),
    /// The result at this index is of a job that already has a result at an earlier index.
    #[error("a second result at index {0}")]
    Double(usize),
    /// The result at this index is of no job of the phase.
    #[error("a stranger at index {0}")]
    Stranger(usize),
    /// Memory was refused.
    #[error("memory")]
    Memory,
}

impl MergeFault {
    ghost use Rattle.sim_base.specs.Faults.{merge_number};

    /// The cause's number, from 1 to 4.
    pub fn number(self) -> u8
        ensures { result ≡ merge_number self }
    {
        match self {
            MergeFault::Missing(_) => 1,
            MergeFault::Double(_) => 2,
            MergeFault::Stranger(_) => 3,
            MergeFault::Memory => 4,
        }
    }
}

impl fmt::Debug for MergeFault {
    fn fmt<W: fmt::Write>(&self, f: &mut fmt::Formatter<W>) -> fmt::Result {
        fmt::Display::fmt(self, f)
    }
}

/// Why a call is refused. Each fault prints as one line, with its number.
#[derive(Clone, Copy, PartialEq, Eq, Error)]
pub enum Fault {
    /// The configuration is not UTF-8, or not TOML.
    #[error("fault 1: configuration is not TOML")]
    ConfigSyntax,
    /// A key is missing, of another type, or not known.
    #[error("fault 2: configuration key {0}")]
    ConfigKey(Key),
    /// The value of a key is out of its range.
    #[error("fault 3: configuration range {0}")]
    ConfigRange(Key),
    /// A relation between keys does not hold.
    #[error("fault 4: configuration relation {0}")]
    ConfigRelation(u8),
    /// A line of a core's trace is malformed; lines are counted from 1, blank ones included.
    #[error("fault 5: trace {core} line {line} {cause}")]
    TraceLine {
        core: CoreId,
        line: u64,
        cause: LineCause,
    },
    /// A core's trace has more than 2^62 entries.
    #[error("fault 6: trace {core} too long")]
    TraceTooLong {
        core: CoreId,
    },
    /// There is not exactly one trace for each core.
    #[error("fault 7: trace count")]
    TraceCount,
    /// The number of workers is not from 1 to 64.
    #[error("fault 8: workers")]
    Workers,
    /// The limit is above 10^12 cycles.
    #[error("fault 9: cycles")]
    Cycles,
    /// Memory was refused.
    #[error("fault 10: memory")]
    Memory,
    /// The host did not start a worker.
    #[error("fault 11: worker start")]
    WorkerStart,
    /// A file or a stream could not be opened or written.
    #[error("fault 12: write")]
    Write,
    /// A file could not be read.
    #[error("fault 13: read")]
    Read,
    /// The command line is not one that the program knows.
    #[error("fault 14: command line")]
    CommandLine,
    /// A row of a table of commands is malformed; 0 is the header, data rows are counted from 1.
    #[error("fault 15: check row {0}")]
    CheckRow(u64),
    /// The results of a phase cannot be merged.
    #[error("fault 16: merge {}", .0.number())]
    Merge(MergeFault),
}

impl fmt::Debug for Fault {
    fn fmt<W: fmt::Write>(&self, f: &mut fmt::Formatter<W>) -> fmt::Result {
        fmt::Display::fmt(self, f)
    }
}

impl From<std::alloc::AllocError> for Fault {
    ghost use Rattle.sim_base.specs.declared.fault.Fault.TheVariants.{Memory};

    ghost from_gives = { λ _ f. f ≡ Memory };

    fn from(_error: std::alloc::AllocError) -> Fault {
        Fault::Memory
    }
}
