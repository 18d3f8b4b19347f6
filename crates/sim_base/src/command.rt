//! DRAM commands.

use crate::message::{ChannelId, CoreId, Cycle};
use crate::place::BankId;

/// A command without its operands.
#[derive(Clone, Copy, PartialEq, Eq, Debug)]
pub enum Kind {
    Act,
    Rd,
    Wr,
    Pre,
    Prea,
    Ref,
}

impl Kind {
    ghost use Rattle.std.specs.Prelude.{◌≡◌};
    ghost use Rattle.sim_base.specs.Rules.{is_kind};

    /// Whether another kind is the same.
    #[inline(always)]
    pub fn is_kind(self, other: Kind) -> bool
        ensures { result ≡ is_kind self other }
    {
        self == other
    }
}

/// How the banks of two commands relate. A command for a whole rank applies to each of its banks.
#[derive(Clone, Copy, PartialEq, Eq, Debug)]
pub enum Relation {
    SameBank,
    SameGroup,
    OtherGroup,
    OtherRank,
}

/// An entry of a core's trace, on whose behalf a command is issued.
#[derive(Clone, Copy, PartialEq, Eq, Debug)]
pub struct Source {
    pub core: CoreId,
    pub entry: u64,
}

/// A DRAM command with its operands.
#[derive(Clone, Copy, PartialEq, Eq, Debug)]
pub enum Command {
    Act {
        bank: BankId,
        row: u32,
        source: Source,
    },
    Rd {
        bank: BankId,
        row: u32,
        column: u32,
        source: Source,
    },
    Wr {
        bank: BankId,
        row: u32,
        column: u32,
        source: Source,
    },
    Pre {
        bank: BankId,
        source: Source,
    },
    Prea {
        rank: u32,
    },
    Ref {
        rank: u32,
    },
}

impl Command {
    ghost use Rattle.std.specs.Prelude.{◌≡◌};
    ghost use Rattle.sim_base.specs.Counts.{source_in};
    ghost use Rattle.sim_base.specs.Rules.{kind_of, bank_of, rank_of, row_after};
    ghost use Rattle.sim_base.specs.Scheduling.{is_column_command, refreshes};

    /// The kind of the command.
    pub fn kind(self) -> Kind
        ensures { result ≡ kind_of self }
    {
        match self {
            Command::Act { .. } => Kind::Act,
            Command::Rd { .. } => Kind::Rd,
            Command::Wr { .. } => Kind::Wr,
            Command::Pre { .. } => Kind::Pre,
            Command::Prea { .. } => Kind::Prea,
            Command::Ref { .. } => Kind::Ref,
        }
    }

    /// The bank that the command names, if it names one: PREA and REF apply to a whole rank.
    pub fn bank(self) -> Option<BankId>
        ensures { result ≡ bank_of self }
    {
        match self {
            Command::Act { bank, .. }
            | Command::Rd { bank, .. }
            | Command::Wr { bank, .. }
            | Command::Pre { bank, .. } => Some(bank),
            Command::Prea { .. } | Command::Ref { .. } => None,
        }
    }

    /// The rank that the command applies to.
    pub fn rank(self) -> u32
        ensures { result ≡ rank_of self }
    {
        match self {
            Command::Act { bank, .. }
            | Command::Rd { bank, .. }
            | Command::Wr { bank, .. }
            | Command::Pre { bank, .. } => bank.rank,
            Command::Prea { rank } | Command::Ref { rank } => rank,
        }
    }

    /// The entry on whose behalf it is issued, if there is one: PREA and REF are issued for a rank.
    pub fn source(self) -> Option<Source>
        ensures { result ≡ source_in self }
    {
        match self {
            Command::Act { source, .. }
            | Command::Rd { source, .. }
            | Command::Wr { source, .. }
            | Command::Pre { source, .. } => Some(source),
            Command::Prea { .. } | Command::Ref { .. } => None,
        }
    }

    /// Whether it moves data.
    #[inline(always)]
    pub fn is_column(self) -> bool
        ensures { result ≡ is_column_command self }
    {
        matches!(self.kind(), Kind::Rd | Kind::Wr)
    }

    /// Whether it is a REF of a rank.
    pub fn is_refresh_of(self, rank: u32) -> bool
        ensures { result ≡ refreshes rank self }
    {
        self.kind().is_kind(Kind::Ref) && self.rank() == rank
    }

    /// The row that is open in a bank after it, given the row that was open before.
    pub fn row_after(self, bank: BankId, row_before: Option<u32>) -> Option<u32>
        ensures { result ≡ row_after bank row_before self }
    {
        match self {
            Command::Act {
                bank: other,
                row,
                ..
            } => {
                if bank.is_bank(other) {
                    Some(row)
                } else {
                    row_before
                }
            }
            Command::Pre { bank: other, .. } => {
                if bank.is_bank(other) {
                    None
                } else {
                    row_before
                }
            }
            Command::Prea { rank } => { if bank.rank == rank { None } else { row_before } }
            Command::Rd { .. } | Command::Wr { .. } | Command::Ref { .. } => row_before,
        }
    }
}

/// A command that a channel issues in a cycle.
#[derive(Clone, Copy, PartialEq, Eq, Debug)]
pub struct IssuedCommand {
    pub cycle: Cycle,
    pub channel: ChannelId,
    pub command: Command,
}
