//! A command in 16 bytes.

ghost use Rattle.std.specs.Prelude.{◌≡◌, ◌↔◌, IsSome, IfSome};
ghost use Rattle.command_table.specs.Rows.{row_of, IsUsual};

use crate::parts::{Operands, RowParts, operands_of};
use sim_base::command::{IssuedCommand, Kind, Source};
use sim_base::place::BankId;
use std::marker::Model;
use std::mem::size_of;

/// A command whose numbers are those of a usual machine and trace: cycles and entries below 2^32, rows below 2^24,
/// columns below 2^10, channels and cores below 2^8, and ranks, groups and banks below 4. Operands that it does not
/// have are 0.
#[derive(Drop)]
pub struct Compact {
    cycle: u32,
    entry: u32,
    /// The row, and below it 8 bits of the channel.
    row_and_channel: u32,
    /// The column, and below it 2 bits each of the rank, the group and the bank.
    column_and_bank: u16,
    core: u8,
    kind: Kind,
}

impl Model for Compact {
    ghost use Rattle.sim_base.specs.declared.command.IssuedCommand.{IssuedCommand as Row};
    ghost use Rattle.command_table.specs.Rows.{row_kept};

    ghost Value = { Row };

    ghost view = { λ c. row_kept c.kind c.cycle c.entry c.row_and_channel c.column_and_bank
        c.core };
}

const _: () = prove!(size_of::<Compact>() == 16);

impl Compact {
    /// A command, if its numbers are those of a usual machine and trace.
    #[inline(always)]
    pub(crate) fn of(row: IssuedCommand) -> Option<Self>
        ensures same { IfSome result (λ compact. compact ≡ row) }
        ensures usual { IsSome result ↔ IsUsual row }
    {
        let operands = operands_of(row.command);
        let BankId { rank, group, bank } = operands.bank;
        let Source { core, entry } = operands.source;
        if row.cycle > 0xffff_ffff || entry > 0xffff_ffff || operands.row > 0xff_ffff {
            return None;
        }
        if operands.column > 0x3ff || rank > 3 || group > 3 || bank > 3 {
            return None;
        }
        if row.channel > 0xff || u32::from(core) > 0xff {
            return None;
        }
        Some(Compact {
            cycle: row.cycle as u32,
            entry: entry as u32,
            row_and_channel: operands.row * 256 + row.channel,
            column_and_bank: (operands.column * 64 + rank * 16 + group * 4 + bank) as u16,
            core: core as u8,
            kind: row.command.kind(),
        })
    }

    /// The row by its kind and operands.
    #[inline(always)]
    pub fn parts(&self) -> RowParts
        ensures { row_of result ≡ self.now }
    {
        let place = u32::from(self.column_and_bank);
        let bank = BankId {
            rank: place / 16 % 4,
            group: place / 4 % 4,
            bank: place % 4,
        };
        let source = Source {
            core: u16::from(self.core),
            entry: u64::from(self.entry),
        };
        RowParts {
            cycle: u64::from(self.cycle),
            channel: self.row_and_channel % 256,
            kind: self.kind,
            operands: Operands {
                bank,
                row: self.row_and_channel / 256,
                column: place / 64,
                source,
            },
        }
    }

    /// The row.
    #[inline(always)]
    pub(crate) fn row(&self) -> IssuedCommand
        ensures { result ≡ self.now }
    {
        self.parts().row()
    }
}
