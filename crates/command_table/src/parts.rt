//! A row by its kind and operands.

ghost use Rattle.std.specs.Prelude.{◌≡◌};
ghost use Rattle.sim_base.specs.Rules.{kind_of};
ghost use Rattle.command_table.specs.Rows.{command_with, operands_in, row_of};

use sim_base::command::{Command, IssuedCommand, Kind, Source};
use sim_base::message::{ChannelId, Cycle};
use sim_base::place::BankId;

/// The operands of a command, and 0 for those that it does not have.
#[derive(Clone, Copy)]
pub struct Operands {
    pub bank: BankId,
    pub row: u32,
    pub column: u32,
    pub source: Source,
}

const NO_SOURCE: Source = Source { core: 0, entry: 0 };

/// The operands of a command of a whole rank.
#[inline(always)]
fn operands_of_rank(rank: u32) -> Operands
    ensures { result ≡ operands_in (Command.Ref rank) }
{
    Operands {
        bank: BankId {
            rank,
            group: 0,
            bank: 0,
        },
        row: 0,
        column: 0,
        source: NO_SOURCE,
    }
}

/// The operands of a command.
pub(crate) fn operands_of(command: Command) -> Operands
    ensures operands { result ≡ operands_in command }
    ensures command { command_with (kind_of command) result ≡ command }
{
    match command {
        Command::Act { bank, row, source } => Operands {
            bank,
            row,
            column: 0,
            source,
        },
        Command::Rd {
            bank,
            row,
            column,
            source,
        }
        | Command::Wr {
            bank,
            row,
            column,
            source,
        } => Operands {
            bank,
            row,
            column,
            source,
        },
        Command::Pre { bank, source } => Operands {
            bank,
            row: 0,
            column: 0,
            source,
        },
        Command::Prea { rank } | Command::Ref { rank } => operands_of_rank(rank),
    }
}

/// The command of a kind with these operands.
fn command_with(kind: Kind, operands: Operands) -> Command
    ensures { result ≡ command_with kind operands }
{
    let Operands {
        bank,
        row,
        column,
        source,
    } = operands;
    match kind {
        Kind::Act => Command::Act { bank, row, source },
        Kind::Rd => Command::Rd {
            bank,
            row,
            column,
            source,
        },
        Kind::Wr => Command::Wr {
            bank,
            row,
            column,
            source,
        },
        Kind::Pre => Command::Pre { bank, source },
        Kind::Prea => Command::Prea { rank: bank.rank },
        Kind::Ref => Command::Ref { rank: bank.rank },
    }
}

/// A row: when and where a command was issued, its kind, and its operands.
#[derive(Clone, Copy)]
pub struct RowParts {
    pub cycle: Cycle,
    pub channel: ChannelId,
    pub kind: Kind,
    pub operands: Operands,
}

impl RowParts {
    /// The parts of a row.
    pub fn of(row: IssuedCommand) -> Self
        ensures row { row_of result ≡ row }
        ensures operands { result.operands ≡ operands_in row.command }
    {
        RowParts {
            cycle: row.cycle,
            channel: row.channel,
            kind: row.command.kind(),
            operands: operands_of(row.command),
        }
    }

    /// The row with its command put together.
    #[inline(always)]
    pub(crate) fn row(self) -> IssuedCommand
        ensures { result ≡ row_of self }
    {
        IssuedCommand {
            cycle: self.cycle,
            channel: self.channel,
            command: command_with(self.kind, self.operands),
        }
    }
}
